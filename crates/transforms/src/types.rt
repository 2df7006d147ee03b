//! The types of transforms, and the numbers that stand for them.
ghost use Rattle.std.specs.Prelude.{◌≡◌};
ghost use Rattle.transforms.specs.Types.{Decodes, number_of};

/// The type of a transform.
#[derive(Clone, Copy, Debug, PartialEq, Eq)]
pub enum TransformType {
    Translate,
    Rotate,
    Scale,
    Matrix,
    SkewX,
    SkewY,
}

/// A number that stands for no type.
#[derive(Clone, Copy, Debug, PartialEq, Eq)]
pub struct UnknownType(pub u8);

impl TryFrom<u8> for TransformType {
    type Error = UnknownType;

    ghost try_from_gives = { Decodes };

    fn try_from(number: u8) -> Result<TransformType, UnknownType> {
        match number {
            0 => Ok(TransformType::Translate),
            1 => Ok(TransformType::Rotate),
            2 => Ok(TransformType::Scale),
            3 => Ok(TransformType::Matrix),
            4 => Ok(TransformType::SkewX),
            5 => Ok(TransformType::SkewY),
            _ => Err(UnknownType(number)),
        }
    }
}

impl From<TransformType> for u8 {
    ghost from_gives = { λ kind number. number ≡ number_of kind };

    fn from(kind: TransformType) -> u8 {
        kind as u8
    }
}
