//! The search of a capture for places where a frame may begin: edges, and the match with the training fields (own).
//! Captures have at most 2^24 samples. No call takes memory.
#![tactic(auto)]

mod counting;
mod edges;
mod matching;
mod template;

pub use counting::tick_times;
pub use edges::{is_edge, is_loud, next_edge};
pub use matching::matches_template;

#[cfg(test)]
mod tests;
