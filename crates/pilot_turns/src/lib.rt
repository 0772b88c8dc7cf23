//! Symbols that were turned: the turn that their pilots tell, and their decisions turned back (own). No call takes
//! memory.
#![tactic(auto)]

mod decisions;
mod pilots;

pub use decisions::{phase_bound, turned_decisions};
pub use pilots::pilot_turn;

#[cfg(test)]
mod tests;
