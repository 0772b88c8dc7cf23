//! A frame at a start, each of its symbols turned back by its pilots (own).
#![tactic(auto)]

mod deciding;
mod reading;

pub use deciding::PhaseDecider;
pub use frame_starts::AtFault;
pub use pilot_turns::{phase_bound, pilot_turn, turned_decisions};
pub use reading::receive_phase;
pub use symbol_turns::turn_symbols;

#[cfg(test)]
mod tests;
