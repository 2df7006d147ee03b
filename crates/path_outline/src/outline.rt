//! The worked example's path data and a list of transforms: written, told item by item, and read back.
use bits::{Sink, Source};
use commands::Command;
use configurations::path::PathConfiguration;
use flat::{FlatSink, FlatSource};
use items::ItemKind;
use items::faults::ListFault;
use items::list::List;
use lengths::Defaults;
use lists::reading::read_list;
use lists::writing::write_list;
use path_items::agreed::AgreedConfiguration;
use path_items::kind::PathCommands;
use std::fmt::Display;
use std::io;
use telling::example;
use telling::texts::print_bits;
use transform_items::Transforms;
use transforms::steps::{AngleSteps, Steps, Transform};

/// Prints the bits from a place to the position, and how many they are.
fn tell_bits<S: Source>(rt: &impl Print, source: &mut S, from: usize) -> io::Result<()> {
    let count = S::position(source).saturating_sub(from);
    let _ = source.go_back(from);
    print_bits(rt, source, count)?;
    println!(rt; " ({count} bits)")
}

/// Reads items one by one up to the end word, and tells each with its bits.
fn tell_items<K: ItemKind, S: Source, P: Print>(
    rt: &P,
    source: &mut S,
    configuration: &K::Configuration,
    most: usize,
    ending: &str,
) -> io::Result<()>
where
    K::Record: Display,
{
    for _index in 0..most {
        let from = S::position(source);
        match K::read(configuration, source) {
            Ok(Some(item)) => print!(rt; "    {item} = ")?,
            Ok(None) => {
                print!(rt; "    {ending} = ")?;
                return tell_bits(rt, source, from);
            }
            Err(fault) => return println!(rt; "    refused with {fault}"),
        }
        tell_bits(rt, source, from)?;
    }
    Ok(())
}

/// Reads a list back into the places, and answers how many of its items are as they were written.
fn count_same<K: ItemKind, S: Source>(
    configuration: &K::Configuration,
    source: &mut S,
    places: &mut [K::Record],
    written: &[K::Record],
) -> Result<usize, ListFault>
where
    K::Record: PartialEq,
{
    let mut list = List::over(places);
    read_list::<K, S>(configuration, source, &mut list)?;
    let pairs = list.as_slice().iter().zip(written);
    Ok(pairs.filter(|(read, written)| read == written).count())
}

/// Writes the configuration and the commands into a sink, and tells what came of it.
fn write_path<S: Sink>(
    rt: &impl Print,
    sink: &mut S,
    agreed: &AgreedConfiguration,
) -> io::Result<()> {
    match agreed.configuration.write(sink) {
        Ok(count) => println!(rt; "  The configuration takes {count} bits.")?,
        Err(fault) => println!(rt; "    refused with {fault}")?,
    }
    match write_list::<PathCommands, S>(agreed, &example::commands(), sink) {
        Ok(count) => println!(rt; "  The commands and DONE take {count} bits.")?,
        Err(fault) => println!(rt; "    refused with {fault}")?,
    }
    let held = S::held(sink);
    println!(rt; "  In all: {held} bits.")
}

/// Reads the configuration and the commands back, and answers how many commands are as they were.
fn read_path<S: Source>(source: &mut S, defaults: &Defaults) -> Result<usize, ListFault> {
    let configuration = PathConfiguration::read(source)?;
    let agreed = AgreedConfiguration::new(configuration, *defaults);
    let mut places = [Command::close(); 10];
    count_same::<PathCommands, S>(&agreed, source, &mut places, &example::commands())
}

/// The worked example: written into a flat run, told command by command, and read back.
pub fn path_data(
    rt: &impl Print,
    agreed: &AgreedConfiguration,
    defaults: &Defaults,
) -> io::Result<()> {
    println!(rt; "Path data, with lengths 7 and 4 sent:")?;
    let mut bytes = [0u8; 20];
    let mut sink = FlatSink::over(&mut bytes, 0);
    write_path(rt, &mut sink, agreed)?;
    let held = sink.held();
    let mut source = FlatSource::over(&bytes, held);
    print!(rt; "    configuration = ")?;
    let _ = source.take_field(agreed.configuration.length() as u8);
    tell_bits(rt, &mut source, 0)?;
    tell_items::<PathCommands, _, _>(rt, &mut source, agreed, 10, "DONE")?;
    print!(rt; "  ")?;
    print_bits(rt, &mut FlatSource::over(&bytes, held), held)?;
    println!(rt; "")?;
    match read_path(&mut FlatSource::over(&bytes, held), defaults) {
        Ok(same) => println!(rt; "  {same} of 8 commands are read as they were written."),
        Err(fault) => println!(rt; "    refused with {fault}"),
    }
}

/// Reads the transforms back, and answers how many are as they were.
fn read_transforms<S: Source>(source: &mut S, defaults: &Defaults) -> Result<usize, ListFault> {
    let mut places = [Transform::skew_y(AngleSteps::argument(9)); 4];
    count_same::<Transforms, S>(defaults, source, &mut places, &example::transforms())
}

/// The transforms: written into a flat run, told one by one, and read back.
pub fn transform_list(rt: &impl Print, defaults: &Defaults) -> io::Result<()> {
    println!(rt; "Transforms: a rotation about a centre, a scaling by one factor, a matrix:")?;
    let mut bytes = [0u8; 20];
    let mut sink = FlatSink::over(&mut bytes, 0);
    match write_list::<Transforms, FlatSink>(defaults, &example::transforms(), &mut sink) {
        Ok(count) => println!(rt; "  They and the end word take {count} bits.")?,
        Err(fault) => println!(rt; "    refused with {fault}")?,
    }
    let held = sink.held();
    let mut source = FlatSource::over(&bytes, held);
    tell_items::<Transforms, _, _>(rt, &mut source, defaults, 5, "end word")?;
    match read_transforms(&mut FlatSource::over(&bytes, held), defaults) {
        Ok(same) => println!(rt; "  {same} of 3 transforms are read as they were written."),
        Err(fault) => println!(rt; "    refused with {fault}"),
    }
}
