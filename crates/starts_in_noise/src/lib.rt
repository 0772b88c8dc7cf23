//! Starts of frames in noise: within 64 of the plain waveform a preamble matches and begins loud, and silence is quiet
//! (own). Laws alone.
#![tactic(auto)]

pub mod laws;
