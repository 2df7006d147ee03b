//! Bits, printed, put, and compared with a text of 0, 1 and blanks.
ghost use Rattle.std.specs.Prelude.{◌≡◌, ◌↔◌, ◌++◌, length, IsTrue, IfOk, OnOk};
ghost use Rattle.bits.specs.Stores.{left};
ghost use Rattle.telling.specs.Texts.{bits_of, Passed};

use bits::{Sink, Source, StoreFault};
use std::io;

/// Prints the next bit, and a dot where there is none.
pub fn print_bit<S: Source>(rt: &impl Print, source: &mut S) -> io::Result<()>
    ensures { Passed 1 (S.tape source.old) (S.tape source.new) }
{
    match source.take() {
        Ok(true) => print!(rt; "1"),
        Ok(false) => print!(rt; "0"),
        Err(_) => print!(rt; "."),
    }
}

/// Prints the next `count` bits, and dots where there are none. Where printing fails, the source may have any position.
pub fn print_bits<S: Source>(rt: &impl Print, source: &mut S, count: usize) -> io::Result<()>
    ensures bits { (S.tape source.new).bits ≡ (S.tape source.old).bits }
    ensures passed { OnOk result (Passed count (S.tape source.old) (S.tape source.new)) }
{
    for _k in 0..count {
        print_bit(rt, source)?;
    }
    Ok(())
}

/// Whether a source has just the bits of a text of 0, 1 and blanks from its position on. It may have any position then.
pub fn agrees<S: Source>(source: &mut S, expected: &str) -> bool
    ensures bits { (S.tape source.new).bits ≡ (S.tape source.old).bits }
    ensures same { IsTrue result ↔ (left (S.tape source.old) ≡ bits_of expected.now) }
{
    for letter in expected.as_bytes() {
        if *letter != b' ' && source.take().ok() != Some(*letter == b'1') {
            return false;
        }
    }
    source.take().is_err()
}

/// Prints what is given, the bits that are expected and those that a source has from its position on, and answers whether they are the same.
/// The source may have any position then.
pub fn compare_bits<S: Source>(
    rt: &impl Print,
    given: &str,
    expected: &str,
    source: &mut S,
) -> io::Result<bool>
    ensures bits { (S.tape source.new).bits ≡ (S.tape source.old).bits }
    ensures same { IfOk result (λ same. IsTrue same ↔ (left (S.tape source.old) ≡ bits_of expected.now)) }
{
    let start = S::position(source);
    let agreed = agrees(source, expected);
    let _ = source.go_back(start);
    let count = S::length(source) - start;
    print!(rt; "{given}: expected {expected}, got ")?;
    print_bits(rt, source, count)?;
    Ok(agreed)
}

/// Tells whether what came is what was expected, and answers it.
pub fn tell_same(rt: &impl Print, same: bool) -> io::Result<bool>
    ensures { IfOk result (λ answer. answer ≡ same) }
{
    if same {
        println!(rt; ", same")?;
    } else {
        println!(rt; ", DIFFERENT")?;
    }
    Ok(same)
}

/// Puts the bits of a text of 0, 1 and blanks, and answers how many bits are held then. A sink that gets full has those for which it had room.
pub fn put_text<S: Sink>(sink: &mut S, text: &str) -> Result<usize, StoreFault>
    ensures kept { S.kept sink.old sink.new }
    ensures bits { OnOk result ((S.content sink.new).bits ≡ (S.content sink.old).bits ++ bits_of text.now) }
    ensures held { IfOk result (λ held. held ≡ length (S.content sink.new).bits) }
{
    for letter in text.as_bytes() {
        if *letter != b' ' {
            sink.put(*letter == b'1')?;
        }
    }
    Ok(S::held(sink))
}
