//! Symbols in noise: within the noise bound of its rate a symbol is decided as it was sent (own). Laws alone.
#![tactic(auto)]

pub mod laws;
