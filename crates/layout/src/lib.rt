//! What stores in lent bytes share: bits in bytes, and the faults of a store's check.
#![tactic(auto)]

ghost use Rattle.std.specs.Prelude.{◌≡◌, ◌-◌, ◌<◌};
ghost use Rattle.bits.specs.Codes.{bit as bit_of};
ghost use Rattle.layout.specs.Layout.{SetBit, layout_number};

mod messages;

/// The most bytes of a store.
pub const MOST_BYTES: usize = 65_536;

/// Why the check of a store refuses it.
#[derive(Clone, Copy, Debug, PartialEq, Eq)]
pub enum LayoutFault {
    /// The size is not allowed (5).
    Size,
    /// An index before the closing zero is outside, or a block is met twice (6).
    Links,
    /// The held bits do not fit (7).
    Held,
}

impl LayoutFault {
    /// The refusal number.
    pub fn number(&self) -> u8
        ensures { result ≡ layout_number self.now }
    {
        match self {
            LayoutFault::Size => 5,
            LayoutFault::Links => 6,
            LayoutFault::Held => 7,
        }
    }
}

/// The byte with one bit set to `bit`, the one that `place` counts from the most significant. For the stores.
pub fn with_bit(byte: u8, place: usize, bit: bool) -> u8
    requires { place < 8 }
    ensures { SetBit byte place bit result }
{
    let mask = 128 >> place;
    if bit { byte | mask } else { byte & !mask }
}

/// Whether one bit of the byte is set, the one that `place` counts from the most significant. For the stores.
pub fn has_bit(byte: u8, place: usize) -> bool
    requires { place < 8 }
    ensures { result ≡ bit_of (7 - place) byte }
{
    bits::has_bit(u32::from(byte), (7 - place) as u8)
}
