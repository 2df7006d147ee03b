//! Transforms in words.
use crate::steps::Transform;
use crate::types::TransformType;
use std::fmt;

impl fmt::Display for TransformType {
    fn fmt<W: fmt::Write>(&self, f: &mut fmt::Formatter<W>) -> fmt::Result {
        f.write_str(match self {
            TransformType::Translate => "translate",
            TransformType::Rotate => "rotate",
            TransformType::Scale => "scale",
            TransformType::Matrix => "matrix",
            TransformType::SkewX => "skewX",
            TransformType::SkewY => "skewY",
        })
    }
}

/// The transform's type, and the values that it uses.
impl fmt::Display for Transform {
    fn fmt<W: fmt::Write>(&self, f: &mut fmt::Formatter<W>) -> fmt::Result {
        match TransformType::try_from(self.kind) {
            Ok(kind) => write!(f, "{kind}")?,
            Err(_) => f.write_str("unknown type")?,
        }
        let used = 1 + Transform::following(self.kind, self.mark);
        for argument in self.six().iter().take(used) {
            let value = argument.value;
            write!(f, " {value}")?;
        }
        Ok(())
    }
}
