//! Path commands, a kind of item.
#![tactic(auto)]

pub mod agreed;
mod form;
pub mod kind;
