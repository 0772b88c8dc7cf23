//! The lines of the frames that are heard in a capture, and of its edges, as texts (own).
#![tactic(auto)]

mod findings;
mod frames;
pub mod laws;
mod reports;
#[cfg(test)]
mod tests;
mod texts;

pub use findings::Lines;
pub use frames::frame_text;
pub use reports::reports_text;
