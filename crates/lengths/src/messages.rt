//! What a fault of numbers says.
//! Each text names its own question; what it shares with the others is one line, for which no function is made public.
use crate::DefaultsFault;
use crate::faults::{NumberFault, WriteFault};
use bits::Told;
use std::error::Error;
use std::fmt;

/// The number, the question that is answered no, and the place.
impl fmt::Display for NumberFault {
    fn fmt<W: fmt::Write>(&self, f: &mut fmt::Formatter<W>) -> fmt::Result {
        let question = match self {
            NumberFault::Store(fault) => return write!(f, "{fault}"),
            NumberFault::Length { .. } => "is the sent length 1 to 14?",
            NumberFault::Range { .. } => "is the number in range?",
        };
        let Told {
            number,
            layer,
            position,
        } = self.told();
        write!(
            f,
            "{number}: {question} No. (layer {layer}, bit {position})"
        )
    }
}

impl Error for NumberFault {}

/// The number, and the question that is answered no; of a fault of the sink what that says.
impl fmt::Display for WriteFault {
    fn fmt<W: fmt::Write>(&self, f: &mut fmt::Formatter<W>) -> fmt::Result {
        match self {
            WriteFault::Value => {
                let number = self.number();
                write!(f, "{number}: is the value in range? No.")
            }
            WriteFault::Store(fault) => write!(f, "{fault}"),
        }
    }
}

impl Error for WriteFault {}

/// The number, and the question that is answered no.
impl fmt::Display for DefaultsFault {
    fn fmt<W: fmt::Write>(&self, f: &mut fmt::Formatter<W>) -> fmt::Result {
        let number = self.number();
        let question = match self {
            DefaultsFault::Absolute => "is the absolute default length 1 to 14?",
            DefaultsFault::Relative => "is the relative default length 1 to 14?",
        };
        write!(f, "{number}: {question} No.")
    }
}

impl Error for DefaultsFault {}
