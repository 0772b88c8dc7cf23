//! Frames are received as samples come (own). Samples are at most 2^24 in all. No call takes memory but those that are
//! handed an allocator.
#![tactic(auto)]

mod receiver;
mod reception;
mod tail;

pub use receiver::{Found, Receiver};
pub use reception::{ReceiveFault, receive};

#[cfg(test)]
mod noise_tests;
#[cfg(test)]
mod tests;
