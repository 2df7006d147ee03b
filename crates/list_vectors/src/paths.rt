//! The format's examples of path data and transforms, and what it refuses of them.
use bits::{Sink, Source, Told};
use commands::Command;
use configurations::path::PathConfiguration;
use configurations::{ConfigurationFault, PathFields};
use flat::{FlatSink, FlatSource};
use items::faults::ListFault;
use items::list::List;
use lengths::{Defaults, Mode};
use lists::reading::read_list;
use lists::writing::{list_length, write_list};
use path_items::agreed::AgreedConfiguration;
use path_items::kind::PathCommands;
use telling::example::{FIELDS, with_moves};
use telling::texts::put_text;
use transform_items::Transforms;

/// Path data: the fields of its configuration, and its commands.
#[derive(Clone, Copy)]
pub struct PathData<'a> {
    pub fields: PathFields,
    pub commands: &'a [Command],
}

/// A configuration with no mode sent and every curve that it declares.
pub fn fields(flags: u8, absolute: u8, relative: u8, lines: u8) -> PathFields {
    PathFields {
        flags,
        mode: 0,
        absolute,
        relative,
        lines,
        curves: 0,
    }
}

/// The configuration of the fields with the default lengths.
fn agreed(
    defaults: &Defaults,
    fields: PathFields,
) -> Result<AgreedConfiguration, ConfigurationFault> {
    let configuration = PathConfiguration::new(fields)?;
    Ok(AgreedConfiguration::new(configuration, *defaults))
}

/// Writes path data, and answers how many bits are held then.
pub fn write_path<S: Sink>(sink: &mut S, defaults: &Defaults, path: PathData) -> usize {
    if let Ok(agreed) = agreed(defaults, path.fields) {
        let _ = agreed.configuration.write(sink);
        let _ = write_list::<PathCommands, S>(&agreed, path.commands, sink);
    }
    S::held(sink)
}

/// Whether path data that is read is the configuration and the commands.
pub fn reads_path<S: Source>(
    source: &mut S,
    defaults: &Defaults,
    path: PathData,
) -> Result<bool, ListFault> {
    let configuration = PathConfiguration::read(source)?;
    let agreed = AgreedConfiguration::new(configuration, *defaults);
    let mut places = [Command::close(); 9];
    let mut list = List::over(&mut places);
    read_list::<PathCommands, S>(&agreed, source, &mut list)?;
    Ok(configuration.fields == path.fields && list.as_slice() == path.commands)
}

/// Writes no transforms: the end word alone. Answers how many bits are held then.
pub fn write_no_transforms<S: Sink>(sink: &mut S, defaults: &Defaults) -> usize {
    let _ = write_list::<Transforms, S>(defaults, &[], sink);
    S::held(sink)
}

/// What the refusal of a configuration in a text of bits tells.
pub fn refused_configuration(text: &str) -> Option<Told> {
    let mut bytes = [0u8; 4];
    let mut sink = FlatSink::over(&mut bytes, 0);
    let held = put_text(&mut sink, text).unwrap_or(0);
    let fault = PathConfiguration::read(&mut FlatSource::over(&bytes, held)).err()?;
    Some(fault.told())
}

/// The number of the refusal of commands under the configuration of the worked example.
fn refused_path(defaults: &Defaults, commands: &[Command]) -> Option<u8> {
    let agreed = match agreed(defaults, FIELDS) {
        Ok(agreed) => agreed,
        Err(fault) => return Some(fault.number()),
    };
    let fault = list_length::<PathCommands>(&agreed, commands).err()?;
    Some(fault.number())
}

/// The number of the refusal of M x 0.
pub fn refused_value(defaults: &Defaults, x: i32) -> Option<u8> {
    refused_path(defaults, &[Command::move_to(Mode::Absolute, (x, 0))])
}

/// The number of the refusal of so many commands M 0 0, at most 4,097.
pub fn refused_count(defaults: &Defaults, count: usize) -> Option<u8> {
    with_moves(count, |commands| refused_path(defaults, commands))
}
