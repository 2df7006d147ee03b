//! The record of a transform. A coordinate, a scale factor and an angle are never taken for one another.
ghost use Rattle.std.specs.Prelude.{◌≡◌, ℤ, refl};
ghost use Rattle.transforms.specs.Records.{StepUnit, spatial, scale, angular, plain, with_unit, without_unit};

/// A count of the steps of one unit.
pub trait Steps: Copy {
    ghost unit: { StepUnit Self };

    /// So many steps.
    fn new(count: i32) -> Self
        ensures { result ≡ unit.steps_of count };

    /// How many steps they are.
    fn count(self) -> i32
        ensures { result ≡ unit.count_of self };

    /// A count is kept as steps, and steps by their count.
    ghost count_kept: { (count : ℤ) → unit.count_of (unit.steps_of count) ≡ count };

    ghost steps_kept: { (steps : Self) → unit.steps_of (unit.count_of steps) ≡ steps };

    /// So many steps, as an argument with the default length.
    final fn argument(count: i32) -> Argument<Self>
        ensures { result ≡ with_unit unit (plain 0 count) }
    {
        let value = Self::new(count);
        Argument { length: 0, value }
    }
}

// The three impls differ in a name: a macro may write no impl here, and each unit is a type of its own.

/// A count of spatial steps: a translation, a centre, or e and f of a matrix.
#[derive(Clone, Copy, Debug, PartialEq, Eq)]
pub struct SpatialSteps {
    pub steps: i32,
}

impl Steps for SpatialSteps {
    ghost unit = { spatial };

    ghost count_kept = { λ _. refl };

    ghost steps_kept = { λ _. refl };

    fn new(count: i32) -> SpatialSteps {
        SpatialSteps { steps: count }
    }

    fn count(self) -> i32 {
        self.steps
    }
}

/// A count of scale steps: a scale factor, or a to d of a matrix.
#[derive(Clone, Copy, Debug, PartialEq, Eq)]
pub struct ScaleSteps {
    pub steps: i32,
}

impl Steps for ScaleSteps {
    ghost unit = { scale };

    ghost count_kept = { λ _. refl };

    ghost steps_kept = { λ _. refl };

    fn new(count: i32) -> ScaleSteps {
        ScaleSteps { steps: count }
    }

    fn count(self) -> i32 {
        self.steps
    }
}

/// A count of angle steps.
#[derive(Clone, Copy, Debug, PartialEq, Eq)]
pub struct AngleSteps {
    pub steps: i32,
}

impl Steps for AngleSteps {
    ghost unit = { angular };

    ghost count_kept = { λ _. refl };

    ghost steps_kept = { λ _. refl };

    fn new(count: i32) -> AngleSteps {
        AngleSteps { steps: count }
    }

    fn count(self) -> i32 {
        self.steps
    }
}

/// An argument of a transform: the code length that is sent for it, or 0 for the default, and its value.
#[derive(Clone, Copy, Debug, PartialEq, Eq)]
pub struct Argument<T> {
    pub length: u8,
    pub value: T,
}

impl<T: Steps> From<PlainArgument> for Argument<T> {
    ghost from_gives = { λ plain argument. argument ≡ with_unit T.unit plain };

    fn from(plain: PlainArgument) -> Argument<T> {
        Argument {
            length: plain.length,
            value: T::new(plain.value),
        }
    }
}

/// An argument without its unit, as it is coded.
#[derive(Clone, Copy, Debug, PartialEq, Eq)]
pub struct PlainArgument {
    pub length: u8,
    pub value: i32,
}

impl<T: Steps> From<Argument<T>> for PlainArgument {
    ghost from_gives = { λ argument plain. plain ≡ without_unit T.unit argument };

    fn from(argument: Argument<T>) -> PlainArgument {
        PlainArgument {
            length: argument.length,
            value: argument.value.count(),
        }
    }
}

/// A transform: its type, the mark that says whether optional arguments follow, and its arguments, of which those that it does not use are 0.
/// Any numbers may stand here, and so no enum for the type; whether they are lawful is asked where a transform is measured or written.
#[derive(Clone, Copy, Debug, PartialEq, Eq)]
pub struct Transform {
    pub kind: u8,
    pub mark: u8,
    /// The angle of a rotation or a skew.
    pub angle: Argument<AngleSteps>,
    /// sx of a scaling, or a of a matrix.
    pub a: Argument<ScaleSteps>,
    /// sy of a scaling, or b of a matrix.
    pub b: Argument<ScaleSteps>,
    pub c: Argument<ScaleSteps>,
    pub d: Argument<ScaleSteps>,
    /// tx of a translation, cx of a rotation, or e of a matrix.
    pub x: Argument<SpatialSteps>,
    /// ty of a translation, cy of a rotation, or f of a matrix.
    pub y: Argument<SpatialSteps>,
}
