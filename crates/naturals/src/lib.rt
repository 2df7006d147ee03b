//! Natural numbers in pieces.
#![tactic(auto)]

ghost use Rattle.std.specs.Prelude.{◌≡◌, ℕ, ◌+◌, ◌≤◌, ◌++◌, length, IfOk, nat_le};
ghost use Rattle.bits.specs.Stores.{left};
ghost use Rattle.lengths.specs.Coding.{CodeLaw, PartAs};
ghost use Rattle.naturals.specs.Naturals.{natural_code, one_natural, sum_limit};

use bits::{Sink, Source, append, take_part};
use lengths::CodeLength;
use lengths::codes::Code;
use lengths::faults::NumberFault;

/// The largest sum of a number's pieces, and so the largest natural number.
pub const SUM_LIMIT: u32 = 2_097_152;

/// Natural numbers at a code length, as a code. One over `SUM_LIMIT` is not lawful.
#[derive(Clone, Copy, Debug, PartialEq, Eq)]
pub struct Naturals {
    pub code_length: CodeLength,
}

impl Code for Naturals {
    type Value = u32;

    type Plain = u32;

    type Fault = NumberFault;

    ghost plain = { λ n. n };

    ghost lawful = { λ s n. nat_le n sum_limit };

    ghost code = { λ s. natural_code s.code_length.bits };

    ghost parse = { λ s. one_natural s.code_length.bits };

    fn is_lawful(&self, number: u32) -> bool {
        number <= SUM_LIMIT
    }

    fn length(&self, number: u32) -> usize
        ensures value { result ≡ length (natural_code self.now.code_length.bits number) }
        ensures near { result ≤ number + 14 }
    {
        let pieces = (number / self.code_length.largest()) as usize + 1;
        self.code_length.bits as usize * pieces
    }

    fn append_to<S: Sink>(&self, sink: &mut S, number: u32) {
        let largest = self.code_length.largest();
        for _piece in 0..number / largest {
            append(sink, self.code_length.bits, largest);
        }
        append(sink, self.code_length.bits, number % largest);
    }

    /// Pieces are taken up to the first that is not all ones. A source that ends within them is refused with 17, and a sum of pieces over
    /// `SUM_LIMIT` with 22.
    #[tactic(auto, using(crate::proofs::NaturalLaws::natural_law))]
    fn take<S: Source>(&self, source: &mut S, field: usize) -> Result<u32, NumberFault>
        ensures part { PartAs (one_natural self.now.code_length.bits field (left (S.Source.tape source.old))) (S.Source.tape source.old) result (S.Source.tape source.new) }
        ensures law { CodeLaw (λ n. nat_le n sum_limit) (natural_code self.now.code_length.bits) (one_natural self.now.code_length.bits) }
        ensures small { IfOk result (λ n. n ≤ sum_limit) }
    {
        let largest = self.code_length.largest();
        // A loop, since how many pieces there are is known only once they are read.
        let mut sum = 0u32;
        let number = loop {
            let piece = take_part(source, self.code_length.bits, field)?;
            if sum + piece > SUM_LIMIT {
                return Err(NumberFault::Range { position: field });
            }
            sum += piece;
            if piece < largest {
                break sum;
            }
        };
        Ok(number)
    }
}
