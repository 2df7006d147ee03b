//! The words of a count of numbers: each has one of two widths, and none begins another.
#![tactic(auto)]

ghost use Rattle.std.specs.Prelude.{◌≡◌, ℕ, suc, ◌+◌, ◌≤◌, length, MatchOption, nat_lt};
ghost use Rattle.bits.specs.Stores.{left};
ghost use Rattle.lengths.specs.Coding.{CodeLaw, PartAs};
ghost use Rattle.words.specs.Words.{floor_log, short_words, word, one_word};

use bits::{Sink, Source, append, take_part};
use lengths::codes::Code;
use lengths::faults::NumberFault;

/// The words of `count` numbers, from 0 on, as a code. One number alone has a word of no bits.
#[derive(Clone, Copy, Debug, PartialEq, Eq)]
pub struct Words {
    /// How many numbers have a word.
    pub count: u16,
    /// How many bits a short word has.
    pub width: u8,
    ghost some: { 1 ≤ count },
    ghost short: { width ≡ floor_log count },
}

impl Words {
    /// The words of so many numbers, of one at least.
    pub fn new(count: u16) -> Option<Words>
        ensures { MatchOption result (count ≡ 0) (λ w. w.count ≡ count) }
    {
        if count == 0 {
            return None;
        }
        Some(Words {
            count,
            width: count.ilog2() as u8,
        })
    }

    /// How many of the words are short.
    fn short_words(self) -> u32
        ensures value { result ≡ short_words self.count }
        ensures bound { result ≤ 65536 }
    {
        (2u32 << self.width) - u32::from(self.count)
    }
}

impl Code for Words {
    type Value = u16;

    type Plain = u16;

    type Fault = NumberFault;

    ghost plain = { λ i. i };

    ghost lawful = { λ s i. nat_lt i s.count };

    ghost code = { λ s. word s.count };

    ghost parse = { λ s. one_word s.count };

    fn is_lawful(&self, number: u16) -> bool {
        number < self.count
    }

    fn length(&self, number: u16) -> usize
        ensures value { result ≡ length (word self.now.count number) }
        ensures bound { result ≤ 16 }
    {
        if (number as u32) < self.short_words() {
            self.width as usize
        } else {
            self.width as usize + 1
        }
    }

    fn append_to<S: Sink>(&self, sink: &mut S, number: u16) {
        let short = self.short_words();
        if (number as u32) < short {
            append(sink, self.width, number as u32);
        } else {
            append(sink, self.width + 1, number as u32 + short);
        }
    }

    /// A source that ends within the word is refused with 17.
    fn take<S: Source>(&self, source: &mut S, field: usize) -> Result<u16, NumberFault>
        ensures part { PartAs (one_word self.now.count field (left (S.Source.tape source.old))) (S.Source.tape source.old) result (S.Source.tape source.new) }
        ensures law { CodeLaw (λ i. nat_lt i self.now.count) (word self.now.count) (one_word self.now.count) }
    {
        let short = self.short_words();
        let first = take_part(source, self.width, field)?;
        if first < short {
            return Ok(first as u16);
        }
        let last = take_part(source, 1, field)?;
        Ok((2 * first + last - short) as u16)
    }
}
