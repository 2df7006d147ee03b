//! The corners, read back: told with their bits, and compared.
use crate::corners::{CORNERS, Corner, read_one};
use bits::Source;
use integers::Integers;
use lengths::faults::NumberFault;
use lengths::{CodeLength, Defaults, Mode};
use std::io;
use telling::texts::print_bit;

/// Whether a part of an integer's code begins at its bit `k`: the first piece, the bit for the side, and pieces again.
fn begins_part(k: usize, code_length: CodeLength) -> bool {
    let piece = code_length.bits as usize;
    k == piece || k > piece && (k - piece - 1) % piece == 0
}

/// Prints the next `count` bits, the code of an integer, with a blank between its parts.
fn print_code<S: Source>(
    rt: &impl Print,
    source: &mut S,
    count: usize,
    code_length: CodeLength,
) -> io::Result<()> {
    for k in 0..count {
        if begins_part(k, code_length) {
            print!(rt; " ")?;
        }
        print_bit(rt, source)?;
    }
    Ok(())
}

/// Reads one coordinate and tells it: the value, its bits and how many they are.
fn tell_one<S: Source>(rt: &impl Print, source: &mut S, integers: Integers) -> io::Result<()> {
    let reading = match read_one(source, integers) {
        Ok(reading) => reading,
        Err(fault) => return println!(rt; "    refused with {fault}"),
    };
    let value = reading.value;
    let count = reading.to.saturating_sub(reading.from);
    print!(rt; "{value:>5} = ")?;
    let _ = source.go_back(reading.from);
    print_code(rt, source, count, integers.code_length)?;
    print!(rt; " ({count} bits)")
}

/// Reads one corner and tells it.
fn tell_corner<S: Source>(
    rt: &impl Print,
    source: &mut S,
    defaults: &Defaults,
    corner: Corner,
) -> io::Result<()> {
    let integers = corner.integers(defaults);
    match corner.mode {
        Mode::Absolute => print!(rt; "    absolute x")?,
        Mode::Relative => print!(rt; "    relative x")?,
    }
    tell_one(rt, source, integers)?;
    print!(rt; ", y")?;
    tell_one(rt, source, integers)?;
    println!(rt; "")
}

/// Reads every corner and tells it.
pub fn tell_corners<S: Source>(
    rt: &impl Print,
    source: &mut S,
    defaults: &Defaults,
) -> io::Result<()> {
    for corner in CORNERS {
        tell_corner(rt, source, defaults, corner)?;
    }
    Ok(())
}

/// How many coordinates are read as they were written: two for each corner of which both are the same, and none for any other.
pub fn count_same<S: Source>(source: &mut S, defaults: &Defaults) -> Result<usize, NumberFault> {
    // Counted in a loop, since each corner is read from the source and may be refused.
    let mut same = 0usize;
    for corner in CORNERS {
        let integers = corner.integers(defaults);
        let x = read_one(source, integers)?;
        let y = read_one(source, integers)?;
        if x.value == corner.x && y.value == corner.y {
            same = same.saturating_add(2);
        }
    }
    Ok(same)
}
