//! A configuration with the default lengths that writer and reader agreed on.
ghost use Rattle.std.specs.Prelude.{◌≡◌};
ghost use Rattle.availability.specs.Available.{word_count};

use configurations::path::PathConfiguration;
use lengths::Defaults;
use words::Words;

/// What the commands of a path are coded under: the configuration, the default lengths, and the words of the available commands.
#[derive(Clone, Copy, Debug, PartialEq, Eq)]
pub struct AgreedConfiguration {
    pub configuration: PathConfiguration,
    pub defaults: Defaults,
    pub words: Words,
    ghost counted: { words.count ≡ word_count configuration.fields },
}
