//! Compares the bits of path data and transforms with the examples of the format, one line each: what is given, what is expected, what came.
#![tactic(auto)]

use commands::Command;
use flat::{FlatSink, FlatSource};
use lengths::{Defaults, Mode};
use std::io;
use telling::example;
use telling::texts::{compare_bits, put_text, tell_same};

mod cases;
mod paths;

use cases::{LISTS, SQUARE, THREE, WHOLE, WORKED};
use paths::{
    PathData, fields, reads_path, refused_configuration, refused_count, refused_value,
    write_no_transforms, write_path,
};

/// How many of the answers are yes.
fn count_agreed(answers: &[bool]) -> usize {
    answers.iter().filter(|answer| **answer).count()
}

/// Compares path data with the bits that it should have, and what is read from those bits with the path.
fn compare_path(
    rt: &impl Print,
    defaults: &Defaults,
    given: &str,
    path: PathData,
    expected: &str,
) -> io::Result<bool> {
    let mut bytes = [0u8; 32];
    let count = write_path(&mut FlatSink::over(&mut bytes, 0), defaults, path);
    let mut source = FlatSource::over(&bytes, count);
    let written = compare_bits(rt, given, expected, &mut source)?;
    let mut copy = [0u8; 32];
    let held = put_text(&mut FlatSink::over(&mut copy, 0), expected).unwrap_or(0);
    let read = reads_path(&mut FlatSource::over(&copy, held), defaults, path).unwrap_or(false);
    if !read {
        print!(rt; ", NOT READ AS GIVEN")?;
    }
    tell_same(rt, written && read)
}

/// Compares a list of no transforms with the end word.
fn compare_transforms(rt: &impl Print, defaults: &Defaults) -> io::Result<bool> {
    let mut bytes = [0u8; 1];
    let count = write_no_transforms(&mut FlatSink::over(&mut bytes, 0), defaults);
    let mut source = FlatSource::over(&bytes, count);
    let same = compare_bits(rt, "no transforms", "111", &mut source)?;
    tell_same(rt, same)
}

/// Compares a refusal number, which is printed as 0 where there is none.
fn compare_number(
    rt: &impl Print,
    given: &str,
    expected: Option<u8>,
    got: Option<u8>,
) -> io::Result<bool> {
    let expected_number = expected.unwrap_or(0);
    let got_number = got.unwrap_or(0);
    print!(rt; "{given}: expected {expected_number}, got {got_number}")?;
    tell_same(rt, expected == got)
}

/// The refusal of a configuration that is read, with its place; none is printed as 0 at bit 0.
fn compare_refusal(rt: &impl Print, text: &str, number: u8, place: usize) -> io::Result<bool> {
    let got = refused_configuration(text).map(|told| (told.number, told.position));
    let (got_number, got_place) = got.unwrap_or((0, 0));
    print!(rt;
        "configuration {text}: expected {number} at bit {place}, got {got_number} at bit {got_place}"
    )?;
    tell_same(rt, got == Some((number, place)))
}

/// The worked example, command by command and in all.
fn worked_example(rt: &impl Print, defaults: &Defaults) -> io::Result<usize> {
    let commands = example::commands();
    // Counted in a loop, since each comparison prints.
    let mut agreed = 0usize;
    for ((given, expected), commands) in WORKED.iter().zip(commands.chunks(1)) {
        let path = PathData {
            fields: example::FIELDS,
            commands,
        };
        if compare_path(rt, defaults, given, path, expected)? {
            agreed = agreed.saturating_add(1);
        }
    }
    let path = PathData {
        fields: example::FIELDS,
        commands: &commands,
    };
    let whole = compare_path(rt, defaults, "the worked example in all", path, WHOLE)?;
    Ok(agreed.saturating_add(usize::from(whole)))
}

/// The other examples of lists.
fn other_lists(rt: &impl Print, defaults: &Defaults) -> io::Result<usize> {
    let path = PathData {
        fields: fields(0b111_1111, 0, 0, 0),
        commands: &[],
    };
    let given = "no commands, nothing available";
    let none = compare_path(rt, defaults, given, path, "1111111 0 0 00")?;
    let path = PathData {
        fields: fields(0b000_1000, 0, 0, 3),
        commands: &[Command::three_lines_to(Mode::Absolute, (0, 0), (0, 0), (0, 0))],
    };
    let three = compare_path(rt, defaults, "L3 with all available", path, THREE)?;
    let path = PathData {
        fields: fields(0b100_0111, 0, 0, 0),
        commands: &[
            Command::move_to(Mode::Absolute, (0, 0)),
            Command::line_to(Mode::Absolute, (4, 0)),
            Command::line_to(Mode::Absolute, (4, 3)),
            Command::close(),
        ],
    };
    let square = compare_path(rt, defaults, "M 0 0 L 4 0 L 4 3 Z", path, SQUARE)?;
    let transforms = compare_transforms(rt, defaults)?;
    Ok(count_agreed(&[none, three, square, transforms]))
}

/// What is refused of lists and configurations.
fn refusals(rt: &impl Print, defaults: &Defaults) -> io::Result<usize> {
    let most = compare_number(rt, "4096 commands", None, refused_count(defaults, 4096))?;
    let more = compare_number(rt, "4097 commands", Some(12), refused_count(defaults, 4097))?;
    let largest = refused_value(defaults, 1_048_575);
    let largest = compare_number(rt, "M 1048575 0", None, largest)?;
    let larger = refused_value(defaults, 1_048_576);
    let larger = compare_number(rt, "M 1048576 0", Some(15), larger)?;
    let zero = compare_refusal(rt, "1000111 0 10000", 21, 8)?;
    let fifteen = compare_refusal(rt, "1000111 0 11111", 21, 8)?;
    let curves = compare_refusal(rt, "1000101 0 0 1111", 4, 9)?;
    Ok(count_agreed(&[most, more, largest, larger, zero, fifteen, curves]))
}

/// All examples of lists.
fn compare_lists(rt: &impl Print) -> io::Result<usize> {
    let Ok(defaults) = Defaults::new(7, 4) else {
        return Ok(0);
    };
    let worked = worked_example(rt, &defaults)?;
    let others = other_lists(rt, &defaults)?;
    let refused = refusals(rt, &defaults)?;
    Ok(worked.saturating_add(others).saturating_add(refused))
}

fn main(rt: HostRuntime) -> io::Result<()> {
    let agreed = compare_lists(&rt)?;
    println!(rt; "{agreed} of {LISTS} agree.")
}
