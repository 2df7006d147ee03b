//! Carries the corners of a wall bracket as bits into a flat run and into a chain, and back, and tells every step.
#![tactic(auto)]

use bits::{Sink, Source};
use chain::{ChainSink, ChainSource};
use corners::{CORNERS, write_corners};
use flat::{FlatSink, FlatSource};
use integers::Integers;
use lengths::{Defaults, Mode};
use reading::{count_same, tell_corners};
use refusals::{ended_source, full_sink, wrong_chain, wrong_defaults, wrong_length};
use std::io;
use telling::attempts::{tell_answer, tell_attempt};
use telling::texts::print_bits;

mod corners;
mod reading;
mod refusals;

/// The index of the chain's first block.
const FIRST: u16 = 3;

/// Lays a chain out of order in five blocks: 3, then 1, then 4.
fn lay(bytes: &mut [u8; 160]) {
    bytes[97] = 1;
    bytes[33] = 4;
    bytes[129] = 0;
}

/// Writes the corners into a sink and tells what came of it; answers how many bits are held then.
fn write_all<S: Sink>(rt: &impl Print, sink: &mut S, defaults: &Defaults) -> io::Result<usize>
    ensures { S.kept sink.old sink.new }
{
    let capacity = S::capacity(sink);
    if let Err(fault) = write_corners(sink, defaults, &CORNERS) {
        println!(rt; "    refused with {fault}")?;
    }
    let held = S::held(sink);
    println!(rt; "  {held} of {capacity} bits are held.")?;
    Ok(held)
}

/// Reads the corners back from a source and tells whether they are the same.
fn read_all<S: Source>(rt: &impl Print, source: &mut S, defaults: &Defaults) -> io::Result<()> {
    match count_same(source, defaults) {
        Ok(same) => println!(rt; "  {same} of 28 coordinates are read as they were written."),
        Err(fault) => println!(rt; "    refused with {fault}"),
    }
}

/// The flat run: written, each corner told with its bits, and read back. Answers how many bits are held.
fn flat_run(rt: &impl Print, bytes: &mut [u8; 40], defaults: &Defaults) -> io::Result<usize> {
    println!(rt; "Into a flat run of 40 bytes:")?;
    let mut sink = FlatSink::over(bytes, 0);
    let held = write_all(rt, &mut sink, defaults)?;
    println!(rt; "  From its start:")?;
    tell_corners(rt, &mut FlatSource::over(bytes, held), defaults)?;
    read_all(rt, &mut FlatSource::over(bytes, held), defaults)?;
    Ok(held)
}

/// The chain: written and read back.
fn chain_run(rt: &impl Print, bytes: &mut [u8; 160], defaults: &Defaults) -> io::Result<()> {
    println!(rt; "Into a chain in 160 bytes, block 3, then 1, then 4:")?;
    lay(bytes);
    let mut sink = ChainSink::over(bytes, FIRST, 0);
    let held = write_all(rt, &mut sink, defaults)?;
    read_all(rt, &mut ChainSource::over(bytes, FIRST, held), defaults)
}

/// Whether two sources have the same bits from their positions on, `count` of them.
fn same_bits<A: Source, B: Source>(a: &mut A, b: &mut B, count: usize) -> bool {
    (0..count).all(|_k| matches!((a.take(), b.take()), (Ok(x), Ok(y)) if x == y))
}

/// Tells whether both stores hold the same bits, and prints them.
fn tell_stores(rt: &impl Print, flat: &[u8], blocks: &[u8], held: usize) -> io::Result<()> {
    let mut linked = ChainSource::over(blocks, FIRST, held);
    if same_bits(&mut FlatSource::over(flat, held), &mut linked, held) {
        println!(rt; "Both stores hold the same {held} bits:")?;
    } else {
        println!(rt; "THE STORES DIFFER.")?;
    }
    print_bits(rt, &mut FlatSource::over(flat, held), held)?;
    println!(rt; "")
}

/// Tells one refusal of each kind.
fn tell_refusals(rt: &impl Print, integers: Integers) -> io::Result<()> {
    println!(rt; "What is refused alters nothing:")?;
    tell_attempt(
        rt,
        "A third value of 7 bits into a flat run of 2 bytes",
        "bits held",
        full_sink(integers),
    )?;
    tell_attempt(
        rt,
        "A value from the bits 000 111111111, of which the first three are read already",
        "position",
        ended_source(integers),
    )?;
    tell_attempt(
        rt,
        "A length field from the bits 1 1111",
        "position",
        wrong_length(),
    )?;
    tell_answer(rt, "Default lengths 7 and 15", wrong_defaults())?;
    tell_answer(
        rt,
        "A chain whose block 1 names block 1 as the next",
        wrong_chain(),
    )
}

fn run(rt: &impl Print, defaults: &Defaults) -> io::Result<()> {
    let mut flat = [0u8; 40];
    let mut blocks = [0u8; 160];
    let held = flat_run(rt, &mut flat, defaults)?;
    chain_run(rt, &mut blocks, defaults)?;
    tell_stores(rt, &flat, &blocks, held)?;
    let absolute = Integers {
        mode: Mode::Absolute,
        code_length: defaults.absolute,
    };
    tell_refusals(rt, absolute)
}

fn main(rt: HostRuntime) -> io::Result<()> {
    println!(rt; "A wall bracket of 14 corners. Default lengths: 7 absolute, 4 relative.")?;
    match Defaults::new(7, 4) {
        Ok(defaults) => run(&rt, &defaults),
        Err(fault) => println!(rt; "    refused with {fault}"),
    }
}
