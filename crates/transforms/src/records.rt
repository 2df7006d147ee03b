//! Transforms by name, and their arguments in the order in which they are coded.
ghost use Rattle.std.specs.Prelude.{◌≡◌, ℕ, ◌≤◌, length, [], ◌∷◌};
ghost use Rattle.items.specs.Sequences.{filled_up as filled_up_of};
ghost use Rattle.transforms.specs.Types.{number_of};
ghost use Rattle.transforms.specs.Records.{spatial, scale, angular, without_unit, unused, is_unused, following as following_of, six_of, other_six, built, placed as placed_of, mark_of, if_any};

use crate::steps::{AngleSteps, Argument, PlainArgument, ScaleSteps, SpatialSteps, Transform};
use crate::types::TransformType;

/// The number of the end word, after those of the types.
pub const END: u8 = 6;

pub const UNUSED: PlainArgument = PlainArgument {
    length: 0,
    value: 0,
};

impl PlainArgument {
    /// Whether it is 0, with no length sent.
    pub fn is_unused(self) -> bool
        ensures { result ≡ is_unused self }
    {
        self == UNUSED
    }
}

/// These arguments, and unused ones after them.
fn filled_up(arguments: &[PlainArgument]) -> [PlainArgument; 6]
    requires { length arguments.now ≤ 6 }
    ensures { result ≡ filled_up_of unused 6 arguments.now }
{
    let mut six = [UNUSED; 6];
    six[..arguments.len()].copy_from_slice(arguments);
    six
}

impl Transform {
    /// A record none of whose arguments is used.
    fn unused(kind: u8, mark: u8) -> Transform
        ensures { result ≡ built kind mark unused unused unused unused unused unused unused }
    {
        Transform {
            kind,
            mark,
            angle: UNUSED.into(),
            a: UNUSED.into(),
            b: UNUSED.into(),
            c: UNUSED.into(),
            d: UNUSED.into(),
            x: UNUSED.into(),
            y: UNUSED.into(),
        }
    }

    /// The record of a type with its arguments in the order in which they are coded.
    pub fn placed(kind: u8, mark: u8, arguments: [PlainArgument; 6]) -> Transform
        ensures { result ≡ placed_of kind mark arguments }
    {
        let unused = Transform::unused(kind, mark);
        match TransformType::try_from(kind) {
            Ok(TransformType::Translate) => Transform {
                x: arguments[0].into(),
                y: arguments[1].into(),
                ..unused
            },
            Ok(TransformType::Rotate) => Transform {
                angle: arguments[0].into(),
                x: arguments[1].into(),
                y: arguments[2].into(),
                ..unused
            },
            Ok(TransformType::Scale) => Transform {
                a: arguments[0].into(),
                b: arguments[1].into(),
                ..unused
            },
            Ok(TransformType::Matrix) => Transform {
                a: arguments[0].into(),
                b: arguments[1].into(),
                c: arguments[2].into(),
                d: arguments[3].into(),
                x: arguments[4].into(),
                y: arguments[5].into(),
                ..unused
            },
            Ok(TransformType::SkewX | TransformType::SkewY) | Err(_) => Transform {
                angle: arguments[0].into(),
                ..unused
            },
        }
    }

    /// The record of a type with these arguments, and with unused ones after them.
    fn of_type(kind: TransformType, mark: u8, arguments: &[PlainArgument]) -> Transform
        requires { length arguments.now ≤ 6 }
        ensures { result ≡ placed_of (number_of kind) mark (filled_up_of unused 6 arguments.now) }
    {
        Transform::placed(kind.into(), mark, filled_up(arguments))
    }

    /// translate(tx) or translate(tx, ty).
    pub fn translate(tx: Argument<SpatialSteps>, ty: Option<Argument<SpatialSteps>>) -> Transform
        ensures { result ≡ placed_of 0 (mark_of ty) (without_unit spatial tx ∷ if_any (λ y. without_unit spatial y ∷ []) ty) }
    {
        match ty {
            None => Transform::of_type(TransformType::Translate, 0, &[tx.into()]),
            Some(ty) => Transform::of_type(TransformType::Translate, 1, &[tx.into(), ty.into()]),
        }
    }

    /// rotate(angle) or rotate(angle, cx, cy).
    pub fn rotate(
        angle: Argument<AngleSteps>,
        centre: Option<(Argument<SpatialSteps>, Argument<SpatialSteps>)>,
    ) -> Transform
        ensures { result ≡ placed_of 1 (mark_of centre) (without_unit angular angle ∷ if_any (λ c. without_unit spatial c.0 ∷ without_unit spatial c.1 ∷ []) centre) }
    {
        match centre {
            None => Transform::of_type(TransformType::Rotate, 0, &[angle.into()]),
            Some((cx, cy)) => {
                let arguments = [angle.into(), cx.into(), cy.into()];
                Transform::of_type(TransformType::Rotate, 1, &arguments)
            }
        }
    }

    /// scale(sx) or scale(sx, sy).
    pub fn scale(sx: Argument<ScaleSteps>, sy: Option<Argument<ScaleSteps>>) -> Transform
        ensures { result ≡ placed_of 2 (mark_of sy) (without_unit scale sx ∷ if_any (λ y. without_unit scale y ∷ []) sy) }
    {
        match sy {
            None => Transform::of_type(TransformType::Scale, 0, &[sx.into()]),
            Some(sy) => Transform::of_type(TransformType::Scale, 1, &[sx.into(), sy.into()]),
        }
    }

    /// matrix(a, b, c, d, e, f).
    pub fn matrix(
        scales: (
            Argument<ScaleSteps>,
            Argument<ScaleSteps>,
            Argument<ScaleSteps>,
            Argument<ScaleSteps>,
        ),
        shift: (Argument<SpatialSteps>, Argument<SpatialSteps>),
    ) -> Transform
        ensures { result ≡ placed_of 3 0 (without_unit scale scales.0 ∷ without_unit scale scales.1 ∷ without_unit scale scales.2 ∷ without_unit scale scales.3 ∷ without_unit spatial shift.0 ∷ without_unit spatial shift.1 ∷ []) }
    {
        let (a, b, c, d) = scales;
        let (e, f) = shift;
        let arguments = [a.into(), b.into(), c.into(), d.into(), e.into(), f.into()];
        Transform::of_type(TransformType::Matrix, 0, &arguments)
    }

    /// skewX(angle).
    pub fn skew_x(angle: Argument<AngleSteps>) -> Transform
        ensures { result ≡ placed_of 4 0 (without_unit angular angle ∷ []) }
    {
        Transform::of_type(TransformType::SkewX, 0, &[angle.into()])
    }

    /// skewY(angle).
    pub fn skew_y(angle: Argument<AngleSteps>) -> Transform
        ensures { result ≡ placed_of 5 0 (without_unit angular angle ∷ []) }
    {
        Transform::of_type(TransformType::SkewY, 0, &[angle.into()])
    }

    /// The angle, a to d, x and y, without their units.
    fn arguments(&self) -> [PlainArgument; 7]
        ensures { result ≡ without_unit angular self.now.angle ∷ without_unit scale self.now.a ∷ without_unit scale self.now.b ∷ without_unit scale self.now.c ∷ without_unit scale self.now.d ∷ without_unit spatial self.now.x ∷ without_unit spatial self.now.y ∷ [] }
    {
        let angle = self.angle.into();
        let (a, b, c, d) = (self.a.into(), self.b.into(), self.c.into(), self.d.into());
        let (x, y) = (self.x.into(), self.y.into());
        [angle, a, b, c, d, x, y]
    }

    /// Six arguments: those that its type may have, in the order in which they are coded, and unused ones after them.
    pub fn six(&self) -> [PlainArgument; 6]
        ensures { result ≡ six_of self.now }
    {
        let [angle, a, b, c, d, x, y] = self.arguments();
        match TransformType::try_from(self.kind) {
            Ok(TransformType::Translate) => filled_up(&[x, y]),
            Ok(TransformType::Rotate) => filled_up(&[angle, x, y]),
            Ok(TransformType::Scale) => filled_up(&[a, b]),
            Ok(TransformType::Matrix) => [a, b, c, d, x, y],
            Ok(TransformType::SkewX | TransformType::SkewY) | Err(_) => filled_up(&[angle]),
        }
    }

    /// Six arguments: those that its type never has, and unused ones after them.
    pub fn other_six(&self) -> [PlainArgument; 6]
        ensures { result ≡ other_six self.now }
    {
        let [angle, a, b, c, d, x, y] = self.arguments();
        match TransformType::try_from(self.kind) {
            Ok(TransformType::Translate) => filled_up(&[angle, a, b, c, d]),
            Ok(TransformType::Rotate) => filled_up(&[a, b, c, d]),
            Ok(TransformType::Scale) => filled_up(&[angle, c, d, x, y]),
            Ok(TransformType::Matrix) => filled_up(&[angle]),
            Ok(TransformType::SkewX | TransformType::SkewY) | Err(_) => [a, b, c, d, x, y],
        }
    }

    /// How many arguments follow the first one.
    pub fn following(kind: u8, mark: u8) -> usize
        ensures value { result ≡ following_of kind mark }
        ensures bound { result ≤ 5 }
    {
        match TransformType::try_from(kind) {
            Ok(TransformType::Matrix) => 5,
            Ok(TransformType::Rotate) if mark > 0 => 2,
            Ok(TransformType::Translate | TransformType::Scale) if mark > 0 => 1,
            _ => 0,
        }
    }
}
