//! Which commands of a path are available under a configuration, and their word numbers. For the kind of item that they are.
#![tactic(auto)]

ghost use Rattle.std.specs.Prelude.{◌≡◌, ◌<◌, ◌≤◌, false, slice_index_or};
ghost use Rattle.availability.specs.Available.{has_lines, has_curve, allowed, uses_mode, available, before, numbered};

use bits::has_bit;
use commands::{COMMANDS, Choice, row};
use configurations::{Flag, PathFields};
use lengths::Mode;

/// Whether L is there.
fn has_lines(fields: PathFields) -> bool
    ensures { result ≡ has_lines fields }
{
    !fields.flagged(Flag::OtherLines as u8) || fields.lines != 0
}

/// Whether one of C, S, Q and T is there, by the weight of its bit.
fn has_curve(fields: PathFields, k: u8) -> bool
    ensures { result ≡ has_curve k fields }
{
    !fields.flagged(Flag::NoCurves as u8) && !has_bit(u32::from(fields.curves), k)
}

/// Whether a configuration has made a choice.
fn allows(fields: PathFields, choice: Choice) -> bool
    ensures { result ≡ allowed fields choice }
{
    match choice {
        Choice::Move => !fields.flagged(Flag::NoMove as u8),
        Choice::Line => has_lines(fields),
        Choice::MoreLines => has_lines(fields) && !fields.flagged(Flag::OneLine as u8),
        Choice::Horizontal => fields.flagged(Flag::OtherLines as u8)
            && (fields.lines == 1 || fields.lines == 3),
        Choice::Vertical => fields.flagged(Flag::OtherLines as u8)
            && (fields.lines == 2 || fields.lines == 3),
        Choice::Close => !fields.flagged(Flag::NoClose as u8),
        Choice::Curve => has_curve(fields, 3),
        Choice::SmoothCurve => has_curve(fields, 2),
        Choice::Quadratic => has_curve(fields, 1),
        Choice::SmoothQuadratic => has_curve(fields, 0),
        Choice::Arc => !fields.flagged(Flag::NoArc as u8),
        Choice::End => true,
    }
}

/// Whether a configuration uses a mode.
fn uses(fields: PathFields, mode: Option<Mode>) -> bool
    ensures { result ≡ uses_mode fields mode }
{
    match mode {
        Some(Mode::Absolute) => fields.uses_absolute(),
        Some(Mode::Relative) => fields.uses_relative(),
        None => true,
    }
}

/// Whether the command of a number is available. DONE is, and no number over 25.
#[tactic(auto, using(crate::proofs::Ranks::available_is))]
pub fn is_available(fields: PathFields, number: u8) -> bool
    ensures { result ≡ slice_index_or (available fields) number false }
{
    let entry = row(number);
    number < COMMANDS && uses(fields, entry.mode) && allows(fields, entry.choice)
}

/// How many commands before a number are available.
pub fn count_before(fields: PathFields, number: u8) -> u16
    ensures value { result ≡ before (available fields) number }
    ensures bound { result ≤ number }
{
    (0..number).filter(|n| is_available(fields, *n)).count() as u16
}

/// The number of the available command that has a word number.
pub fn number_of(fields: PathFields, word: u16) -> u8
    requires { word < before (available fields) 26 }
    ensures value { result ≡ numbered (available fields) word }
    ensures bound { result < 26 }
{
    (0..COMMANDS)
        .filter(|n| is_available(fields, *n))
        .nth(word as usize)
        .unwrap_or(0)
}
