//! One refusal of each kind, and what it left as it was.
use bits::Sink;
use commands::Command;
use configurations::path::PathConfiguration;
use configurations::{ConfigurationFault, PathFields};
use flat::{FlatSink, FlatSource};
use items::faults::{ListFault, ListWriteFault};
use items::list::List;
use lengths::{Defaults, Mode};
use lists::reading::read_list;
use lists::writing::{list_length, write_list};
use path_items::agreed::AgreedConfiguration;
use path_items::kind::PathCommands;
use telling::attempts::{Attempt, attempt_read};
use telling::example;
use transform_items::Transforms;
use transforms::steps::{AngleSteps, Steps, Transform};

/// The example's commands with one that its configuration does not have, or with a value out of range.
pub fn unlawful_command(agreed: &AgreedConfiguration, command: Command) -> Option<ListWriteFault> {
    let mut commands = example::commands();
    commands[2] = command;
    list_length::<PathCommands>(agreed, &commands).err()
}

/// A path of so many commands, at most 4,097: one more than a path has.
pub fn many_commands(agreed: &AgreedConfiguration, count: usize) -> Option<ListWriteFault> {
    example::with_moves(count, |commands| {
        list_length::<PathCommands>(agreed, commands).err()
    })
}

/// A transform with a length of 15.
pub fn long_length(defaults: &Defaults) -> Option<ListWriteFault> {
    let mut angle = AngleSteps::argument(45);
    angle.length = 15;
    list_length::<Transforms>(defaults, &[Transform::skew_x(angle)]).err()
}

/// Two commands and the end word, read into a list of one place; the counts are those of the position.
pub fn few_places(agreed: &AgreedConfiguration) -> Attempt<ListFault> {
    let mut bytes = [0u8; 8];
    let mut sink = FlatSink::over(&mut bytes, 0);
    let pair = [
        Command::line_to(Mode::Relative, (1, 5)),
        Command::horizontal_to(Mode::Relative, 7),
    ];
    let _ = write_list::<PathCommands, FlatSink>(agreed, &pair, &mut sink);
    let held = sink.held();
    let mut source = FlatSource::over(&bytes, held);
    let mut places = [Command::close(); 1];
    let mut list = List::over(&mut places);
    attempt_read(&mut source, |source| {
        read_list::<PathCommands, FlatSource>(agreed, source, &mut list)
    })
}

/// The refusal of a configuration that declares curves and has none.
pub fn no_curves() -> Option<ConfigurationFault> {
    let fields = PathFields {
        flags: 0b000_0000,
        mode: 0,
        absolute: 0,
        relative: 0,
        lines: 0,
        curves: 0b1111,
    };
    PathConfiguration::new(fields).err()
}
