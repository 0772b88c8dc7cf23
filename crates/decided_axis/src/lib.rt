//! When the bits of a carrier are decided rightly: where what is received and the estimate of the channel are near what
//! was sent over one and the same channel (own). Laws alone.
#![tactic(auto)]

pub mod laws;
