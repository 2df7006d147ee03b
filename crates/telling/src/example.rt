//! The path data of the format's worked example, M 64 42 l 1 5 M 88 42 l 1 5 M 76 48 L 76 45 M 73 55 h 7, and a list of transforms.
ghost use Rattle.std.specs.Prelude.{◌≡◌};
ghost use Rattle.std.specs.Fn.{FnOnceReturnsAt};
ghost use Rattle.telling.specs.Example.{worked_path, worked_transforms, moves};

use commands::Command;
use configurations::PathFields;
use lengths::Mode;
use transforms::steps::{AngleSteps, ScaleSteps, SpatialSteps, Steps, Transform};

/// Both modes, M, L and H are used, and lengths 7 and 4 are sent.
pub const FIELDS: PathFields = PathFields {
    flags: 0b010_1111,
    mode: 0,
    absolute: 7,
    relative: 4,
    lines: 1,
    curves: 0,
};

/// The commands of the worked example.
pub fn commands() -> [Command; 8]
    ensures { result ≡ worked_path }
{
    [
        Command::move_to(Mode::Absolute, (64, 42)),
        Command::line_to(Mode::Relative, (1, 5)),
        Command::move_to(Mode::Absolute, (88, 42)),
        Command::line_to(Mode::Relative, (1, 5)),
        Command::move_to(Mode::Absolute, (76, 48)),
        Command::line_to(Mode::Absolute, (76, 45)),
        Command::move_to(Mode::Absolute, (73, 55)),
        Command::horizontal_to(Mode::Relative, 7),
    ]
}

/// Calls with so many commands M 0 0, at most 4,097: one more than a path has.
pub fn with_moves<R, C: FnOnce(&[Command]) -> R>(count: usize, call: C) -> R
    requires { C.IsAlwaysCallable call }
    ensures { FnOnceReturnsAt C.FnOnce call (moves count) result }
{
    let commands = [Command::move_to(Mode::Absolute, (0, 0)); 4097];
    match commands.get(..count) {
        Some(some) => call(some),
        None => call(&commands),
    }
}

/// A rotation about a centre, a scaling by one factor, and a matrix.
pub fn transforms() -> [Transform; 3]
    ensures { result ≡ worked_transforms }
{
    let centre = (SpatialSteps::argument(76), SpatialSteps::argument(48));
    let one = ScaleSteps::argument(1);
    let none = ScaleSteps::argument(0);
    let shift = (SpatialSteps::argument(5), SpatialSteps::argument(-3));
    [
        Transform::rotate(AngleSteps::argument(45), Some(centre)),
        Transform::scale(ScaleSteps::argument(2), None),
        Transform::matrix((one, none, none, one), shift),
    ]
}
