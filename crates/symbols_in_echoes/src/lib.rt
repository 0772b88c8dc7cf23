//! Symbols in echoes: within half the noise bound of its rate an echoed symbol is decided as it was sent (own). Laws
//! alone.
#![tactic(auto)]

pub mod laws;
