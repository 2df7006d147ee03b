//! What a fault of a store says.
//! Each text names its own question; what it shares with the others is one line, for which no function is made public.
use crate::{Layer, StoreFault, Told};
use std::error::Error;
use std::fmt;

impl fmt::Display for Layer {
    fn fmt<W: fmt::Write>(&self, f: &mut fmt::Formatter<W>) -> fmt::Result {
        f.write_str(match self {
            Layer::Store => "store",
            Layer::Number => "number",
            Layer::List => "list",
            Layer::Drawing => "drawing",
        })
    }
}

/// The number, the question that is answered no, and the place.
impl fmt::Display for StoreFault {
    fn fmt<W: fmt::Write>(&self, f: &mut fmt::Formatter<W>) -> fmt::Result {
        let question = match self {
            StoreFault::Full { .. } => "is there room?",
            StoreFault::End { .. } => "is there another bit?",
            StoreFault::Ahead { .. } => "is the place at or before the position?",
        };
        let Told {
            number,
            layer,
            position,
        } = self.told();
        write!(
            f,
            "{number}: {question} No. (layer {layer}, bit {position})"
        )
    }
}

impl Error for StoreFault {}
