//! The record of a transform: its type, its mark, and its arguments in their units.
#![tactic(auto)]

mod messages;
pub mod records;
pub mod steps;
pub mod types;
