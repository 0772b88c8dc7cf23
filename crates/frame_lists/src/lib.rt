//! Lists of frames in silence: the sum of their waveforms, and what it means that a capture is near it (own).
//! Definitions and laws alone.
#![tactic(auto)]

pub mod laws;
