//! The faults of numbers. One that comes from the store below is carried whole.
ghost use Rattle.std.specs.Prelude.{◌≡◌};
ghost use Rattle.lengths.specs.Faults.{number_told, write_number};
ghost use Rattle.lengths.specs.declared.faults.NumberFault.TheVariants.{Store};
ghost use Rattle.lengths.specs.declared.faults.WriteFault.TheVariants.{Store as WriteStore};

use bits::{Layer, StoreFault, Told};

/// Why reading a number is refused. Each case tells the place of the field's first bit.
#[derive(Clone, Copy, Debug, PartialEq, Eq)]
pub enum NumberFault {
    /// The source refused.
    Store(StoreFault),
    /// A sent code length is 0 or 15 (21).
    Length { position: usize },
    /// The number is out of range, or the sum of its pieces is (22).
    Range { position: usize },
}

impl NumberFault {
    /// Its number, its layer and its place.
    pub fn told(&self) -> Told
        ensures { result ≡ number_told self.now }
    {
        let (number, position) = match *self {
            NumberFault::Store(fault) => return fault.told(),
            NumberFault::Length { position } => (21, position),
            NumberFault::Range { position } => (22, position),
        };
        let layer = Layer::Number;
        Told {
            number,
            layer,
            position,
        }
    }
}

impl From<StoreFault> for NumberFault {
    ghost from_gives = { λ e r. r ≡ Store e };

    fn from(fault: StoreFault) -> NumberFault {
        NumberFault::Store(fault)
    }
}

/// Why writing a number is refused.
#[derive(Clone, Copy, Debug, PartialEq, Eq)]
pub enum WriteFault {
    /// The value is out of range (15).
    Value,
    /// The sink refused.
    Store(StoreFault),
}

impl WriteFault {
    /// The refusal number.
    pub fn number(&self) -> u8
        ensures { result ≡ write_number self.now }
    {
        match self {
            WriteFault::Value => 15,
            WriteFault::Store(fault) => fault.told().number,
        }
    }
}

impl From<StoreFault> for WriteFault {
    ghost from_gives = { λ e r. r ≡ WriteStore e };

    fn from(fault: StoreFault) -> WriteFault {
        WriteFault::Store(fault)
    }
}
