//! What a fault of a configuration says.
//! Each text names its own question; what it shares with the others is one line, for which no function is made public.
use crate::ConfigurationFault;
use std::error::Error;
use std::fmt;

/// The number, and the question that is answered no.
impl fmt::Display for ConfigurationFault {
    fn fmt<W: fmt::Write>(&self, f: &mut fmt::Formatter<W>) -> fmt::Result {
        let number = self.number();
        let question = match self {
            ConfigurationFault::Field => {
                "is each field of the configuration lawful, and 0 where it is not sent?"
            }
            ConfigurationFault::Curves => "are declared curves not all absent?",
        };
        write!(f, "{number}: {question} No.")
    }
}

impl Error for ConfigurationFault {}
