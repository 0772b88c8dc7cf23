//! Symbols of a frame turned, all samples of one alike (own). No call takes memory.
#![tactic(auto)]

mod turning;

pub use turning::turn_symbols;

#[cfg(test)]
mod tests;
