//! The commands of a path: the table of what each is, and the record of one.
#![tactic(auto)]

ghost use Rattle.std.specs.Prelude.{◌≡◌, ℕ, ◌≤◌, [], ◌∷◌, slice_index_or};
ghost use Rattle.commands.specs.Table.{rows, done};
ghost use Rattle.commands.specs.Commands.{command, capital, in_mode, flag};

use lengths::Mode;

mod messages;

/// The choice of a configuration that makes a command available.
#[derive(Clone, Copy, Debug, PartialEq, Eq)]
pub enum Choice {
    /// M: moveto.
    Move,
    /// L1: one lineto.
    Line,
    /// L2 to L4: several linetos in one command.
    MoreLines,
    /// H: horizontal lineto.
    Horizontal,
    /// V: vertical lineto.
    Vertical,
    /// Z: closepath.
    Close,
    /// C: curveto.
    Curve,
    /// S: smooth curveto.
    SmoothCurve,
    /// Q: quadratic curveto.
    Quadratic,
    /// T: smooth quadratic curveto.
    SmoothQuadratic,
    /// A: elliptical arc.
    Arc,
    /// DONE: the end word, which every configuration has.
    End,
}

/// Where one-bit flags stand among the values of a command.
#[derive(Clone, Copy, Debug, PartialEq, Eq)]
pub enum FlagPlaces {
    Nowhere,
    FourthAndFifth,
}

/// What the table has for a command.
#[derive(Clone, Copy, Debug, PartialEq, Eq)]
pub struct Entry {
    /// The mode of its values.
    pub mode: Option<Mode>,
    /// How many values it has.
    pub value_count: u8,
    /// Where flags stand among them.
    pub flags: FlagPlaces,
    /// What makes it available.
    pub choice: Choice,
}

/// How many commands there are, with DONE, which is the last.
pub const COMMANDS: u8 = 26;

/// The number of DONE, the end word.
pub const DONE: u8 = 25;

/// The number of Z.
const CLOSE: u8 = 14;

const CAPITAL: Option<Mode> = Some(Mode::Absolute);

const SMALL: Option<Mode> = Some(Mode::Relative);

/// A row of the table.
macro_rules! row {
    ($mode:expr, $value_count:literal, $flags:ident, $choice:ident) => {
        Entry {
            mode: $mode,
            value_count: $value_count,
            flags: FlagPlaces::$flags,
            choice: Choice::$choice,
        }
    };
}

/// The commands in their fixed order: M, m, L1, l1, L2, l2, L3, l3, L4, l4, H, h, V, v, Z, C, c, S, s, Q, q, T, t, A, a, DONE.
const TABLE: [Entry; 26] = [
    row!(CAPITAL, 2, Nowhere, Move),
    row!(SMALL, 2, Nowhere, Move),
    row!(CAPITAL, 2, Nowhere, Line),
    row!(SMALL, 2, Nowhere, Line),
    row!(CAPITAL, 4, Nowhere, MoreLines),
    row!(SMALL, 4, Nowhere, MoreLines),
    row!(CAPITAL, 6, Nowhere, MoreLines),
    row!(SMALL, 6, Nowhere, MoreLines),
    row!(CAPITAL, 8, Nowhere, MoreLines),
    row!(SMALL, 8, Nowhere, MoreLines),
    row!(CAPITAL, 1, Nowhere, Horizontal),
    row!(SMALL, 1, Nowhere, Horizontal),
    row!(CAPITAL, 1, Nowhere, Vertical),
    row!(SMALL, 1, Nowhere, Vertical),
    row!(None, 0, Nowhere, Close),
    row!(CAPITAL, 6, Nowhere, Curve),
    row!(SMALL, 6, Nowhere, Curve),
    row!(CAPITAL, 4, Nowhere, SmoothCurve),
    row!(SMALL, 4, Nowhere, SmoothCurve),
    row!(CAPITAL, 4, Nowhere, Quadratic),
    row!(SMALL, 4, Nowhere, Quadratic),
    row!(CAPITAL, 2, Nowhere, SmoothQuadratic),
    row!(SMALL, 2, Nowhere, SmoothQuadratic),
    row!(CAPITAL, 7, FourthAndFifth, Arc),
    row!(SMALL, 7, FourthAndFifth, Arc),
    row!(None, 0, Nowhere, End),
];

/// What the table has for a number. Any number over 25 counts as DONE.
pub fn row(number: u8) -> Entry
    ensures value { result ≡ slice_index_or rows number done }
    ensures bound { result.value_count ≤ 8 }
{
    TABLE
        .get(number as usize)
        .copied()
        .unwrap_or(TABLE[DONE as usize])
}

/// A point: x, y.
pub type Point = (i32, i32);

/// A command: its number, and its values, of which those that it does not use are 0.
/// Any numbers may stand here, and so no enum for the number; whether they are lawful is asked where a command is measured or written.
#[derive(Clone, Copy, Debug, PartialEq, Eq)]
pub struct Command {
    pub number: u8,
    pub values: [i32; 8],
}

/// The commands that have a capital and a small letter, by the number of the capital.
#[derive(Clone, Copy)]
enum Letter {
    MoveTo = 0,
    LineTo = 2,
    TwoLines = 4,
    ThreeLines = 6,
    FourLines = 8,
    Horizontal = 10,
    Vertical = 12,
    Curve = 15,
    SmoothCurve = 17,
    Quadratic = 19,
    SmoothQuadratic = 21,
    Arc = 23,
}

impl Letter {
    /// The number of the capital, or of the small letter, which comes next.
    fn number(self, mode: Mode) -> u8
        ensures { result ≡ in_mode mode (capital self) }
    {
        let capital = self as u8;
        match mode {
            Mode::Absolute => capital,
            Mode::Relative => capital + 1,
        }
    }
}

impl Command {
    /// A command with 0 for the values that it does not use.
    fn with<const N: usize>(number: u8, used: [i32; N]) -> Command
        requires { N ≤ 8 }
        ensures { result ≡ command number used.entry }
    {
        let mut values = [0; 8];
        values[..N].copy_from_slice(&used);
        Command { number, values }
    }

    /// M or m: begins a subpath.
    pub fn move_to(mode: Mode, to: Point) -> Command
        ensures { result ≡ command (in_mode mode 0) (to.0 ∷ to.1 ∷ []) }
    {
        Command::with(Letter::MoveTo.number(mode), [to.0, to.1])
    }

    /// L1 or l1: one line.
    pub fn line_to(mode: Mode, to: Point) -> Command
        ensures { result ≡ command (in_mode mode 2) (to.0 ∷ to.1 ∷ []) }
    {
        Command::with(Letter::LineTo.number(mode), [to.0, to.1])
    }

    /// L2 or l2: two lines, one after the other.
    pub fn two_lines_to(mode: Mode, a: Point, b: Point) -> Command
        ensures { result ≡ command (in_mode mode 4) (a.0 ∷ a.1 ∷ b.0 ∷ b.1 ∷ []) }
    {
        Command::with(Letter::TwoLines.number(mode), [a.0, a.1, b.0, b.1])
    }

    /// L3 or l3: three lines.
    pub fn three_lines_to(mode: Mode, a: Point, b: Point, c: Point) -> Command
        ensures { result ≡ command (in_mode mode 6) (a.0 ∷ a.1 ∷ b.0 ∷ b.1 ∷ c.0 ∷ c.1 ∷ []) }
    {
        Command::with(
            Letter::ThreeLines.number(mode),
            [a.0, a.1, b.0, b.1, c.0, c.1],
        )
    }

    /// L4 or l4: four lines.
    pub fn four_lines_to(mode: Mode, a: Point, b: Point, c: Point, d: Point) -> Command
        ensures { result ≡ command (in_mode mode 8) (a.0 ∷ a.1 ∷ b.0 ∷ b.1 ∷ c.0 ∷ c.1 ∷ d.0 ∷ d.1 ∷ []) }
    {
        Command::with(
            Letter::FourLines.number(mode),
            [a.0, a.1, b.0, b.1, c.0, c.1, d.0, d.1],
        )
    }

    /// H or h: a horizontal line.
    pub fn horizontal_to(mode: Mode, x: i32) -> Command
        ensures { result ≡ command (in_mode mode 10) (x ∷ []) }
    {
        Command::with(Letter::Horizontal.number(mode), [x])
    }

    /// V or v: a vertical line.
    pub fn vertical_to(mode: Mode, y: i32) -> Command
        ensures { result ≡ command (in_mode mode 12) (y ∷ []) }
    {
        Command::with(Letter::Vertical.number(mode), [y])
    }

    /// Z: closes the subpath.
    pub fn close() -> Command
        ensures { result ≡ command 14 [] }
    {
        Command::with(CLOSE, [])
    }

    /// C or c: a curve with two control points.
    pub fn curve_to(mode: Mode, first: Point, second: Point, to: Point) -> Command
        ensures { result ≡ command (in_mode mode 15) (first.0 ∷ first.1 ∷ second.0 ∷ second.1 ∷ to.0 ∷ to.1 ∷ []) }
    {
        Command::with(
            Letter::Curve.number(mode),
            [first.0, first.1, second.0, second.1, to.0, to.1],
        )
    }

    /// S or s: a curve whose first control point mirrors the one before.
    pub fn smooth_curve_to(mode: Mode, second: Point, to: Point) -> Command
        ensures { result ≡ command (in_mode mode 17) (second.0 ∷ second.1 ∷ to.0 ∷ to.1 ∷ []) }
    {
        Command::with(
            Letter::SmoothCurve.number(mode),
            [second.0, second.1, to.0, to.1],
        )
    }

    /// Q or q: a curve with one control point.
    pub fn quadratic_to(mode: Mode, control: Point, to: Point) -> Command
        ensures { result ≡ command (in_mode mode 19) (control.0 ∷ control.1 ∷ to.0 ∷ to.1 ∷ []) }
    {
        Command::with(
            Letter::Quadratic.number(mode),
            [control.0, control.1, to.0, to.1],
        )
    }

    /// T or t: a curve whose control point mirrors the one before.
    pub fn smooth_quadratic_to(mode: Mode, to: Point) -> Command
        ensures { result ≡ command (in_mode mode 21) (to.0 ∷ to.1 ∷ []) }
    {
        Command::with(Letter::SmoothQuadratic.number(mode), [to.0, to.1])
    }

    /// A or a: an elliptical arc.
    pub fn arc_to(
        mode: Mode,
        radii: Point,
        angle: i32,
        large: bool,
        sweep: bool,
        to: Point,
    ) -> Command
        ensures { result ≡ command (in_mode mode 23) (radii.0 ∷ radii.1 ∷ angle ∷ flag large ∷ flag sweep ∷ to.0 ∷ to.1 ∷ []) }
    {
        let large = i32::from(large);
        let sweep = i32::from(sweep);
        Command::with(
            Letter::Arc.number(mode),
            [radii.0, radii.1, angle, large, sweep, to.0, to.1],
        )
    }
}
