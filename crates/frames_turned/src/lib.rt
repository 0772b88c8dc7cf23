//! Frames of which each symbol has a turn of its own: at their starts, within the phase bound of the rate, header and
//! field are those that were sent, by the decisions that the pilots turn back (own). Laws alone.
#![tactic(auto)]

pub mod laws;
