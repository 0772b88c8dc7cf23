//! What a command reads, what it writes, and why it is refused.
#![tactic(auto)]

mod answers;
mod decoding;
pub mod laws;
mod listing;
mod reading;
mod requests;
mod starting;

pub use answers::{Answer, write_answer};
pub use reading::Reading;
pub use requests::answer_from;
