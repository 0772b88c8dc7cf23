//! Echoes as channels: behind its cyclic prefix each carrier of a body comes back over a channel of its own (own). Laws
//! alone.
#![tactic(auto)]

pub mod laws;
