//! Compares the bits of numbers with the examples of the format, one line each: what is given, what is expected, what came.
#![tactic(auto)]

use bits::Sink;
use flat::{FlatSink, FlatSource};
use integers::Integers;
use lengths::codes::Code;
use lengths::faults::WriteFault;
use lengths::fields::{LengthField, LengthFields};
use lengths::{CodeLength, Mode};
use naturals::Naturals;
use std::io;
use telling::texts::{compare_bits, tell_same};

mod cases;

use cases::{CASES, Case, Length, Number};

/// The length in use: the agreed or the sent one, or the default of the number's kind.
fn length_of(case: &Case) -> Option<CodeLength> {
    let bits = match (case.length, case.number) {
        (Length::Agreed(bits) | Length::Sent(bits), _) => bits,
        (Length::Default, Number::Integer(Mode::Relative, _)) => 4,
        (Length::Default, _) => 7,
    };
    CodeLength::new(bits)
}

/// The length field of a case, if it has one.
fn field_of(case: &Case) -> Option<LengthField> {
    match case.length {
        Length::Agreed(_) => None,
        Length::Default => LengthField::new(0),
        Length::Sent(bits) => LengthField::new(bits),
    }
}

/// Writes the number of a case at a code length, after its length field if it has one, and answers the count of bits.
fn write_case<S: Sink>(
    sink: &mut S,
    case: &Case,
    code_length: CodeLength,
) -> Result<usize, WriteFault> {
    if let Some(field) = field_of(case) {
        LengthFields.write(sink, field)?;
    }
    match case.number {
        Number::Natural(number) => Naturals { code_length }.write(sink, number)?,
        Number::Integer(mode, value) => Integers { mode, code_length }.write(sink, value)?,
    };
    Ok(S::held(sink))
}

/// Compares one case and tells it; answers whether it agrees.
fn compare(rt: &impl Print, case: &Case) -> io::Result<bool> {
    let mut bytes = [0u8; 16];
    let mut sink = FlatSink::over(&mut bytes, 0);
    let count = match length_of(case) {
        Some(code_length) => write_case(&mut sink, case, code_length).unwrap_or(0),
        None => 0,
    };
    let mut source = FlatSource::over(&bytes, count);
    let same = compare_bits(rt, case.given, case.expected, &mut source)?;
    tell_same(rt, same)
}

fn main(rt: HostRuntime) -> io::Result<()> {
    // Counted in a loop, since each comparison prints.
    let mut agreed = 0usize;
    for case in &CASES {
        if compare(&rt, case)? {
            agreed = agreed.saturating_add(1);
        }
    }
    let all = CASES.len();
    println!(rt; "{agreed} of {all} agree.")
}
