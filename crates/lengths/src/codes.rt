//! Codes: the bits of values, written and read once for every code.
ghost use Rattle.std.specs.Prelude.{◌≡◌, ℕ, Bool, true, List, length};
ghost use Rattle.bits.specs.Stores.{HasRoom, appended, left, Parse, Reads};
ghost use Rattle.lengths.specs.Coding.{in_plain, CodeLaw, Wrote, Faithful, PartAs};

use crate::faults::WriteFault;
use bits::{Sink, Source, or_back};

/// A code: which values it has, which bits each of them has, and how one is read. A new code proves its law;
/// writing and reading are proved from that alone.
pub trait Code {
    /// What is written and read.
    type Value: Copy;

    /// A value as a record has it.
    type Plain;

    /// Why reading is refused.
    type Fault;

    ghost plain: { Self.Value → Self.Plain };

    ghost lawful: { Self → Self.Plain → Bool };

    ghost code: { Self → Self.Plain → List Bool };

    ghost parse: { Self → ℕ → List Bool → Parse Self.Fault Self.Plain };

    /// Whether a value is lawful (15).
    fn is_lawful(&self, value: Self::Value) -> bool
        ensures { result ≡ lawful self.now (plain value) };

    /// How many bits a value has.
    fn length(&self, value: Self::Value) -> usize
        ensures { result ≡ length (code self.now (plain value)) };

    /// Puts a value's bits where room for them is known. For the layers above.
    fn append_to<S: Sink>(&self, sink: &mut S, value: Self::Value)
        requires { HasRoom (S.Sink.content sink.old) (code self.now (plain value)) }
        ensures kept { S.Sink.kept sink.old sink.new }
        ensures content { S.Sink.content sink.new ≡ appended (S.Sink.content sink.old) (code self.now (plain value)) };

    /// Takes a value's bits as a part of the field that begins at `field`, where a refusal is told; that leaves the source further on.
    /// What is taken is the bits of a lawful value, and the bits of any lawful value are taken as that. For the layers above.
    fn take<S: Source>(&self, source: &mut S, field: usize) -> Result<Self::Value, Self::Fault>
        ensures part { PartAs (parse self.now field (left (S.Source.tape source.old))) (S.Source.tape source.old) (in_plain plain result) (S.Source.tape source.new) }
        ensures law { CodeLaw (lawful self.now) (code self.now) (parse self.now) };

    /// Writes a value, and answers how many bits that took. One that is not lawful is refused with 15, want of room with 10.
    fn write<S: Sink>(&self, sink: &mut S, value: Self::Value) -> Result<usize, WriteFault>
        ensures kept { S.Sink.kept sink.old sink.new }
        ensures wrote { Wrote (lawful self.now (plain value)) (code self.now (plain value)) (S.Sink.content sink.old) result (S.Sink.content sink.new) }
    {
        if !self.is_lawful(value) {
            return Err(WriteFault::Value);
        }
        let length = self.length(value);
        S::room_for(sink, length)?;
        self.append_to(sink, value);
        Ok(length)
    }

    /// Reads a value. A refusal is told at the field's first bit, and the source is then as before.
    fn read<S: Source>(&self, source: &mut S) -> Result<Self::Value, Self::Fault>
        ensures reads { Reads (parse self.now) (S.Source.tape source.old) (in_plain plain result) (S.Source.tape source.new) }
        ensures faithful { Faithful (code self.now) (λ v. lawful self.now v ≡ true) (S.Source.tape source.old) (in_plain plain result) (S.Source.tape source.new) }
    {
        let start = S::position(source);
        let answer = self.take(source, start);
        or_back(source, start, answer)
    }
}
