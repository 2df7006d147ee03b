//! Integers in absolute and in relative mode.
#![tactic(auto)]

ghost use Rattle.std.specs.Prelude.{◌≡◌, ℕ, ◌+◌, ◌≤◌, length, pos, negsuc, ◌≤ℤ◌, IfOk};
ghost use Rattle.bits.specs.Stores.{left};
ghost use Rattle.lengths.specs.Coding.{CodeLaw, PartAs};
ghost use Rattle.integers.specs.Integers.{in_range, offset as offset_of, integer_code, one_absolute, one_integer};
ghost use Rattle.naturals.specs.Naturals.{sum_limit};
ghost use Rattle.integers.specs.Shapes.{shape_code};

use bits::{Sink, Source, append, take_part};
use lengths::codes::Code;
use lengths::faults::NumberFault;
use lengths::{CodeLength, Mode};
use naturals::Naturals;

/// Values lie from `-VALUE_LIMIT` to `VALUE_LIMIT - 1`.
pub const VALUE_LIMIT: i32 = 1_048_576;

/// Whether a value is in range.
pub fn in_range(value: i32) -> bool
    ensures { result ≡ in_range value }
{
    (-VALUE_LIMIT..VALUE_LIMIT).contains(&value)
}

/// Integers in a mode, at a code length, as a code. One out of range is not lawful.
#[derive(Clone, Copy, Debug, PartialEq, Eq)]
pub struct Integers {
    pub mode: Mode,
    pub code_length: CodeLength,
}

/// The form of an integer's code: one piece; or a piece of ones, a bit for the side, and a natural number.
#[derive(Clone, Copy)]
enum Shape {
    Single(u32),
    // The bit for the side is a bit of the code, and not whether there is a number.
    Escaped(bool, u32),
}

impl Integers {
    /// What is added to a value before it is coded.
    fn offset(self) -> i32
        ensures value { result ≡ offset_of self.mode self.code_length.bits }
        ensures bounds { (pos 0 ≤ℤ result) × (result ≤ℤ pos 8191) }
    {
        match self.mode {
            Mode::Absolute => 0,
            Mode::Relative => (1i32 << (self.code_length.bits - 1)) - 1,
        }
    }

    /// The form of the code of a value.
    fn shape_of(self, value: i32) -> Shape
        ensures { shape_code self.code_length.bits result ≡ integer_code self.mode self.code_length.bits value }
    {
        let largest = i64::from(self.code_length.largest());
        let coded = i64::from(value) + i64::from(self.offset());
        if coded < 0 {
            Shape::Escaped(false, (-1 - coded) as u32)
        } else if coded < largest {
            Shape::Single(coded as u32)
        } else {
            Shape::Escaped(true, (coded - largest) as u32)
        }
    }

    /// Takes an integer in absolute mode as a part of the field that begins at `field`.
    fn take_absolute<S: Source>(self, source: &mut S, field: usize) -> Result<i32, NumberFault>
        ensures part { PartAs (one_absolute sum_limit self.code_length.bits field (left (S.tape source.old))) (S.tape source.old) result (S.tape source.new) }
        ensures small { IfOk result (λ v. (negsuc sum_limit ≤ℤ v) × (v ≤ℤ pos (sum_limit + 16383))) }
    {
        let piece = take_part(source, self.code_length.bits, field)?;
        let largest = self.code_length.largest();
        if piece < largest {
            return Ok(piece as i32);
        }
        let above = take_part(source, 1, field)?;
        let code_length = self.code_length;
        let rest = Naturals { code_length }.take(source, field)?;
        if above == 1 {
            Ok((rest + largest) as i32)
        } else {
            Ok(-1 - rest as i32)
        }
    }
}

impl Code for Integers {
    type Value = i32;

    type Plain = i32;

    type Fault = NumberFault;

    ghost plain = { λ v. v };

    ghost lawful = { λ s. in_range };

    ghost code = { λ s. integer_code s.mode s.code_length.bits };

    ghost parse = { λ s. one_integer s.mode s.code_length.bits };

    fn is_lawful(&self, value: i32) -> bool {
        in_range(value)
    }

    fn length(&self, value: i32) -> usize {
        match self.shape_of(value) {
            Shape::Single(_) => self.code_length.bits as usize,
            Shape::Escaped(_, rest) => {
                let code_length = self.code_length;
                let escape = code_length.bits as usize + 1;
                escape + Naturals { code_length }.length(rest)
            }
        }
    }

    fn append_to<S: Sink>(&self, sink: &mut S, value: i32) {
        let code_length = self.code_length;
        match self.shape_of(value) {
            Shape::Single(piece) => append(sink, code_length.bits, piece),
            Shape::Escaped(above, rest) => {
                append(sink, code_length.bits, code_length.largest());
                append(sink, 1, u32::from(above));
                Naturals { code_length }.append_to(sink, rest);
            }
        }
    }

    /// A source that ends within the value is refused with 17, and a value out of range or a sum of pieces over the limit with 22.
    #[tactic(auto, using(crate::proofs::IntegerLaws::integer_law))]
    fn take<S: Source>(&self, source: &mut S, field: usize) -> Result<i32, NumberFault>
        ensures part { PartAs (one_integer self.now.mode self.now.code_length.bits field (left (S.Source.tape source.old))) (S.Source.tape source.old) result (S.Source.tape source.new) }
        ensures law { CodeLaw in_range (integer_code self.now.mode self.now.code_length.bits) (one_integer self.now.mode self.now.code_length.bits) }
    {
        let value = self.take_absolute(source, field)? - self.offset();
        if !in_range(value) {
            return Err(NumberFault::Range { position: field });
        }
        Ok(value)
    }
}
