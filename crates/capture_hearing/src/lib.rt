//! Captures are received from sources as their bytes come, in memory that is taken before (own).
#![tactic(auto)]

mod hearing;
mod source;
#[cfg(test)]
mod tests;

pub use hearing::Hearing;
pub use source::receive_from;
