//! Drills: frames that are drawn from a number, sent, put into noise and received (own).
#![tactic(auto)]

mod captures;
mod draws;
pub mod laws;
mod summaries;
#[cfg(test)]
mod tests;

pub use summaries::{Summary, drill, summary_text};
