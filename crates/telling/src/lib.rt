//! What the programs share: calls that should be refused, bits in words, bits compared with a text, and the worked example.
#![tactic(auto)]

pub mod attempts;
pub mod example;
pub mod texts;
