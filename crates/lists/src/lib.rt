//! Lists of items closed by an end word: measured, written and read, once for every kind of item.
#![tactic(auto)]

pub mod reading;
pub mod writing;
