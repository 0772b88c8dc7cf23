//! Frames in echoes: at the start of an echoed frame, within half the noise bound of its rate, header and field are those
//! that were sent (own). Laws alone.
#![tactic(auto)]

pub mod laws;
