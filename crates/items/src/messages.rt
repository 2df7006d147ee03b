//! What a fault of a list says.
//! Each text names its own question; what it shares with the others is one line, for which no function is made public.
use crate::faults::{ItemFault, ListFault, ListName, ListWriteFault};
use bits::Told;
use std::error::Error;
use std::fmt;

/// The number, the question that is answered no, and the place.
impl fmt::Display for ListFault {
    fn fmt<W: fmt::Write>(&self, f: &mut fmt::Formatter<W>) -> fmt::Result {
        let question = match self {
            ListFault::Number(fault) => return write!(f, "{fault}"),
            ListFault::Curves { .. } => "are declared curves not all absent?",
            ListFault::Limit { .. } => "are there at most as many items as the kind allows?",
            ListFault::Place { .. } => "is there a place for the item?",
        };
        let Told {
            number,
            layer,
            position,
        } = self.told();
        write!(
            f,
            "{number}: {question} No. (layer {layer}, bit {position})"
        )
    }
}

impl Error for ListFault {}

impl fmt::Display for ListName {
    fn fmt<W: fmt::Write>(&self, f: &mut fmt::Formatter<W>) -> fmt::Result {
        f.write_str(match self {
            ListName::Commands => "commands",
            ListName::Transforms => "transforms",
            ListName::Other(_) => "another list",
        })
    }
}

/// The number, and the question that is answered no.
impl fmt::Display for ItemFault {
    fn fmt<W: fmt::Write>(&self, f: &mut fmt::Formatter<W>) -> fmt::Result {
        let number = self.number();
        let question = match self {
            ItemFault::Length => "is each length 0 to 14?",
            ItemFault::Unavailable => "is the item available, and not the end word?",
            ItemFault::Value => {
                "are the values in range, flags and marks 0 or 1, and unused values 0?"
            }
        };
        write!(f, "{number}: {question} No.")
    }
}

impl Error for ItemFault {}

/// The number, the question that is answered no, and the list, with the index of an item; of a fault of the sink what that says.
impl fmt::Display for ListWriteFault {
    fn fmt<W: fmt::Write>(&self, f: &mut fmt::Formatter<W>) -> fmt::Result {
        match self {
            ListWriteFault::Limit(list) => {
                let number = self.number();
                write!(
                    f,
                    "{number}: are there at most as many items as the kind allows? No. ({list})"
                )
            }
            ListWriteFault::Item(place, fault) => {
                let list = place.list;
                let index = place.index;
                write!(f, "{fault} ({list}, index {index})")
            }
            ListWriteFault::Store(fault) => write!(f, "{fault}"),
        }
    }
}

impl Error for ListWriteFault {}
