//! A command in words.
use crate::{Command, DONE};
use std::fmt;

/// The letters of the commands, by number: for printing, and so not in the table that the format has.
const LETTERS: [&str; 26] = [
    "M", "m", "L1", "l1", "L2", "l2", "L3", "l3", "L4", "l4", "H", "h", "V", "v", "Z", "C", "c",
    "S", "s", "Q", "q", "T", "t", "A", "a", "DONE",
];

/// The command's letter, and the values that it uses. Any number over 25 counts as DONE.
impl fmt::Display for Command {
    fn fmt<W: fmt::Write>(&self, f: &mut fmt::Formatter<W>) -> fmt::Result {
        let entry = crate::row(self.number);
        f.write_str(LETTERS[usize::from(self.number.min(DONE))])?;
        for value in self.values.iter().take(usize::from(entry.value_count)) {
            write!(f, " {value}")?;
        }
        Ok(())
    }
}
