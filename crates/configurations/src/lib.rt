//! The path configuration: which commands a path may have, and the lengths of their values.
#![tactic(auto)]

ghost use Rattle.std.specs.Prelude.{◌≡◌, ◌&&◌, nat_le, nat_lt};
ghost use Rattle.configurations.specs.Settings.{flagged as flagged_of, uses_absolute, uses_relative, fields_lawful, curves_lawful};
ghost use Rattle.configurations.specs.Configurations.{configuration_number};

use bits::has_bit;

pub mod coding;
mod messages;
pub mod path;

/// The flags of a configuration, by the k of Ck.
#[derive(Clone, Copy, Debug, PartialEq, Eq)]
pub enum Flag {
    /// C1: one mode, and not both.
    OneMode = 1,
    /// C2: no Z.
    NoClose = 2,
    /// C3: no M.
    NoMove = 3,
    /// C4: another choice of linetos than L alone.
    OtherLines = 4,
    /// C5: of L1 to L4, only L1.
    OneLine = 5,
    /// C6: no curves.
    NoCurves = 6,
    /// C7: no A.
    NoArc = 7,
}

/// The fields of a configuration. Any numbers may stand here, and so no enums; `PathConfiguration::new` asks whether they are lawful.
#[derive(Clone, Copy, Debug, PartialEq, Eq)]
pub struct PathFields {
    /// The flags C1 to C7, C1 the most significant of seven bits.
    pub flags: u8,
    /// With one mode, whether it is absolute (0) or relative (1).
    pub mode: u8,
    /// The code length of absolute values, 0 for the default.
    pub absolute: u8,
    /// The code length of relative values, 0 for the default.
    pub relative: u8,
    /// The choice of linetos: 0 none, 1 L and H, 2 L and V, 3 all three.
    pub lines: u8,
    /// The bits for C, S, Q and T, C the most significant of four, with 0 for available.
    pub curves: u8,
}

/// Why fields are no configuration.
#[derive(Clone, Copy, Debug, PartialEq, Eq)]
pub enum ConfigurationFault {
    /// A field is not lawful, or one that is not sent is not 0 (3).
    Field,
    /// Curves are declared, and all of them are absent (4).
    Curves,
}

impl ConfigurationFault {
    /// The refusal number.
    pub fn number(&self) -> u8
        ensures { result ≡ configuration_number self.now }
    {
        match self {
            ConfigurationFault::Field => 3,
            ConfigurationFault::Curves => 4,
        }
    }
}

impl PathFields {
    /// Whether the flag Ck is 1; any k over 7 stands for C7.
    pub fn flagged(self, k: u8) -> bool
        ensures { result ≡ flagged_of k self.flags }
    {
        has_bit(u32::from(self.flags), 7u8.saturating_sub(k))
    }

    /// Whether absolute values are in use.
    pub fn uses_absolute(self) -> bool
        ensures { result ≡ uses_absolute self.flags self.mode }
    {
        !self.flagged(Flag::OneMode as u8) || self.mode == 0
    }

    /// Whether relative values are in use.
    pub fn uses_relative(self) -> bool
        ensures { result ≡ uses_relative self.flags self.mode }
    {
        !self.flagged(Flag::OneMode as u8) || self.mode == 1
    }

    /// Whether each field is lawful, and one that is not sent is 0 (3).
    pub fn fields_lawful(self) -> bool
        ensures { result ≡ fields_lawful self }
    {
        self.in_bounds()
            && (self.flagged(Flag::OneMode as u8) || self.mode == 0)
            && (self.uses_absolute() || self.absolute == 0)
            && (self.uses_relative() || self.relative == 0)
            && (self.flagged(Flag::OtherLines as u8) || self.lines == 0)
            && (!self.flagged(Flag::NoCurves as u8) || self.curves == 0)
    }

    /// Whether each field lies within its bounds.
    fn in_bounds(self) -> bool
        ensures { result ≡ (nat_lt self.flags 128 && (nat_lt self.mode 2 && (nat_le self.absolute 14 && (nat_le self.relative 14 && (nat_lt self.lines 4 && nat_lt self.curves 16))))) }
    {
        self.flags < 128
            && self.mode < 2
            && self.absolute <= 14
            && self.relative <= 14
            && self.lines < 4
            && self.curves < 16
    }

    /// Whether declared curves are not all absent (4).
    pub fn curves_lawful(self) -> bool
        ensures { result ≡ curves_lawful self }
    {
        self.flagged(Flag::NoCurves as u8) || self.curves != 15
    }
}
