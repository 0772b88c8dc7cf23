//! Exact decisions: a frame whose symbols are decided as they were sent is read as it was sent, whatever decided them
//! (own). Laws alone.
#![tactic(auto)]

pub mod laws;
