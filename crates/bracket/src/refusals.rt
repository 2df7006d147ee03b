//! One refusal of each kind, and what it left as it was.
use bits::{Sink, Source};
use flat::{FlatSink, FlatSource};
use integers::Integers;
use layout::LayoutFault;
use lengths::codes::Code;
use lengths::faults::{NumberFault, WriteFault};
use lengths::fields::LengthFields;
use lengths::{Defaults, DefaultsFault};
use telling::attempts::{Attempt, attempt_read};

/// A third value of seven bits into a flat run of sixteen; the counts are those of the bits held.
pub fn full_sink(integers: Integers) -> Attempt<WriteFault> {
    let mut bytes = [0u8; 2];
    let mut sink = FlatSink::over(&mut bytes, 0);
    let _ = integers.write(&mut sink, 64);
    let _ = integers.write(&mut sink, 42);
    let before = sink.held();
    let fault = integers.write(&mut sink, 12).err();
    let after = sink.held();
    Attempt {
        fault,
        before,
        after,
    }
}

/// A value of which only the escape is there, after three bits that were read; the counts are those of the position.
pub fn ended_source(integers: Integers) -> Attempt<NumberFault> {
    let bytes = [0b0001_1111u8, 0b1111_0000];
    let mut source = FlatSource::over(&bytes, 12);
    let _ = source.take_field(3);
    attempt_read(&mut source, |source| integers.read(source))
}

/// A length field that sends 15; the counts are those of the position.
pub fn wrong_length() -> Attempt<NumberFault> {
    let bytes = [0b1111_1000u8];
    attempt_read(&mut FlatSource::over(&bytes, 5), |source| {
        LengthFields.read(source)
    })
}

/// The refusal of the default lengths 7 and 15.
pub fn wrong_defaults() -> Option<DefaultsFault> {
    Defaults::new(7, 15).err()
}

/// The refusal of a chain in 64 bytes whose block 1 names itself as the next.
pub fn wrong_chain() -> Option<LayoutFault> {
    let mut bytes = [0u8; 64];
    bytes[33] = 1;
    chain::check(&bytes, 1, 0).err()
}
