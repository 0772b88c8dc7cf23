//! A frame at a place of a capture: its header and its field, by the decisions of its symbols (own). No call takes
//! memory.
#![tactic(auto)]

mod deciders;
mod fields;
pub mod laws;
mod symbols;

pub use deciders::{Decider, PlainDecider};
pub use fields::finish_field;
pub use symbols::{hear_symbol, look, read_front, symbols_in};

#[cfg(test)]
mod tests;
