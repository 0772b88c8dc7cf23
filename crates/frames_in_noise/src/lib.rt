//! Frames in noise: the walk over a capture near a list of frames, each within its rate's noise bound, finds just these
//! frames (own). Laws alone.
#![tactic(auto)]

pub mod laws;
