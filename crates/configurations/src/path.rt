//! The type that never holds an unlawful length or an empty choice of curves, and 0 in every field that is not sent.
ghost use Rattle.std.specs.Prelude.{◌≡◌, true};
ghost use Rattle.configurations.specs.Settings.{lawful_fields};

use crate::PathFields;

/// A lawful configuration.
#[derive(Clone, Copy, Debug, PartialEq, Eq)]
pub struct PathConfiguration {
    /// Its fields.
    pub fields: PathFields,
    ghost lawful: { lawful_fields fields ≡ true },
}
