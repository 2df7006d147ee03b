//! What a fault of a store's check says.
//! Each text names its own question; what it shares with the others is one line, for which no function is made public.
use crate::LayoutFault;
use std::error::Error;
use std::fmt;

/// The number, and the question that is answered no.
impl fmt::Display for LayoutFault {
    fn fmt<W: fmt::Write>(&self, f: &mut fmt::Formatter<W>) -> fmt::Result {
        let number = self.number();
        let question = match self {
            LayoutFault::Size => "is the size of the store allowed?",
            LayoutFault::Links => {
                "is each index before the closing zero inside, and no block met twice?"
            }
            LayoutFault::Held => "do the held bits fit?",
        };
        write!(f, "{number}: {question} No.")
    }
}

impl Error for LayoutFault {}
