//! Symbols that were turned, each by a turn of its own: the turn that the pilots tell, and the decisions over it (own).
//! Laws alone.
#![tactic(auto)]

pub mod laws;
