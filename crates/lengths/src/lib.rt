//! Code lengths: the type, the pair of default lengths that writer and reader agree on, the length field, and the faults of numbers.
#![tactic(auto)]

ghost use Rattle.std.specs.Prelude.{◌≡◌, ℕ, ◌≤◌, true, false, MatchOption, MatchResult};
ghost use Rattle.lengths.specs.Faults.{defaults_number};
ghost use Rattle.lengths.specs.Lengths.{is_length, largest as largest_piece, length_in, Refuses};

pub mod codes;
pub mod faults;
pub mod fields;
mod messages;

/// The longest code length.
pub const LONGEST: u8 = 14;

/// A code length, from 1 to 14.
#[derive(Clone, Copy, Debug, PartialEq, Eq)]
pub struct CodeLength {
    /// How many bits a piece has.
    pub bits: u8,
    ghost lawful: { (1 ≤ bits) × (bits ≤ 14) },
}

impl CodeLength {
    /// The code length of so many bits, if it is one.
    pub fn new(bits: u8) -> Option<CodeLength>
        ensures { MatchOption result (is_length bits ≡ false) (λ l. (is_length bits ≡ true) × (l.bits ≡ bits)) }
    {
        if bits < 1 || bits > LONGEST {
            return None;
        }
        Some(CodeLength { bits })
    }

    /// The number that a piece of all ones stands for.
    pub fn largest(self) -> u32
        ensures value { result ≡ largest_piece self.bits }
        ensures bounds { (1 ≤ result) × (result ≤ 16383) }
    {
        (1u32 << self.bits) - 1
    }
}

/// Why a pair of default lengths is refused.
#[derive(Clone, Copy, Debug, PartialEq, Eq)]
pub enum DefaultsFault {
    /// The absolute one is not from 1 to 14 (1).
    Absolute,
    /// The relative one is not from 1 to 14 (2).
    Relative,
}

impl DefaultsFault {
    /// The refusal number.
    pub fn number(&self) -> u8
        ensures { result ≡ defaults_number self.now }
    {
        match self {
            DefaultsFault::Absolute => 1,
            DefaultsFault::Relative => 2,
        }
    }
}

/// How values count: from the origin, or from the point before.
#[derive(Clone, Copy, Debug, PartialEq, Eq)]
pub enum Mode {
    Absolute,
    Relative,
}

/// The default lengths of the two modes.
#[derive(Clone, Copy, Debug, PartialEq, Eq)]
pub struct Defaults {
    pub absolute: CodeLength,
    pub relative: CodeLength,
}

impl Defaults {
    /// The pair of default lengths: the absolute one is asked first (1), then the relative one (2).
    pub fn new(absolute: u8, relative: u8) -> Result<Defaults, DefaultsFault>
        ensures { MatchResult result (λ d. (is_length absolute ≡ true) × (is_length relative ≡ true) × (d.absolute.bits ≡ absolute) × (d.relative.bits ≡ relative)) (Refuses absolute relative) }
    {
        let absolute = CodeLength::new(absolute).ok_or(DefaultsFault::Absolute)?;
        let relative = CodeLength::new(relative).ok_or(DefaultsFault::Relative)?;
        Ok(Defaults { absolute, relative })
    }

    /// The default length of a mode.
    pub fn of(&self, mode: Mode) -> CodeLength
        ensures { result.bits ≡ length_in self.now.absolute.bits self.now.relative.bits mode }
    {
        match mode {
            Mode::Absolute => self.absolute,
            Mode::Relative => self.relative,
        }
    }
}
