//! The corners of the bracket, written and read.
ghost use Rattle.std.specs.Prelude.{◌≡◌, ◌++◌, OnOk};
ghost use Rattle.bracket.specs.Outline.{default_length, corner_bits, corners_bits};

use bits::{Sink, Source};
use integers::Integers;
use lengths::codes::Code;
use lengths::faults::{NumberFault, WriteFault};
use lengths::{Defaults, Mode};

/// A corner by its two coordinates: from the origin, or from the corner before.
#[derive(Clone, Copy)]
pub struct Corner {
    pub mode: Mode,
    pub x: i32,
    pub y: i32,
}

/// A corner of the outline.
macro_rules! corner {
    ($mode:ident, $x:literal, $y:literal) => {
        Corner {
            mode: Mode::$mode,
            x: $x,
            y: $y,
        }
    };
}

/// The outline of the bracket with a lug at its back, and then the cut-out in its wall plate.
pub const CORNERS: [Corner; 14] = [
    corner!(Absolute, 0, 0),
    corner!(Absolute, 300, 0),
    corner!(Absolute, 300, 40),
    corner!(Absolute, 127, 40),
    corner!(Relative, -8, 9),
    corner!(Relative, -7, 7),
    corner!(Absolute, 40, 126),
    corner!(Absolute, 40, 300),
    corner!(Absolute, 0, 300),
    corner!(Absolute, -6, -1),
    corner!(Absolute, 12, 60),
    corner!(Relative, 14, 0),
    corner!(Relative, 0, 14),
    corner!(Relative, -14, 0),
];

impl Corner {
    /// The code of its coordinates: integers in its mode, at the default length of that mode.
    pub fn integers(self, defaults: &Defaults) -> Integers
        ensures mode { result.mode ≡ self.mode }
        ensures code_length { result.code_length.bits ≡ default_length defaults.now self.mode }
    {
        let mode = self.mode;
        let code_length = defaults.of(mode);
        Integers { mode, code_length }
    }
}

/// Writes both coordinates of a corner.
fn write_corner<S: Sink>(
    sink: &mut S,
    defaults: &Defaults,
    corner: Corner,
) -> Result<(), WriteFault>
    ensures kept { S.kept sink.old sink.new }
    ensures bits { OnOk result ((S.content sink.new).bits ≡ (S.content sink.old).bits ++ corner_bits defaults.now corner) }
{
    let integers = corner.integers(defaults);
    integers.write(sink, corner.x)?;
    integers.write(sink, corner.y)?;
    Ok(())
}

/// Writes every corner.
pub fn write_corners<S: Sink>(
    sink: &mut S,
    defaults: &Defaults,
    corners: &[Corner],
) -> Result<(), WriteFault>
    ensures kept { S.kept sink.old sink.new }
    ensures bits { OnOk result ((S.content sink.new).bits ≡ (S.content sink.old).bits ++ corners_bits defaults.now corners.now) }
{
    for corner in corners {
        write_corner(sink, defaults, *corner)?;
    }
    Ok(())
}

/// A coordinate that was read, the place of its first bit, and that of the first bit after it.
#[derive(Clone, Copy)]
pub struct Reading {
    pub value: i32,
    pub from: usize,
    pub to: usize,
}

/// Reads one coordinate.
pub fn read_one<S: Source>(source: &mut S, integers: Integers) -> Result<Reading, NumberFault> {
    let from = S::position(source);
    let value = integers.read(source)?;
    let to = S::position(source);
    Ok(Reading { value, from, to })
}
