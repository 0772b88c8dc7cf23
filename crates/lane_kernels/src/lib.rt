//! Sums, scans and counts over slices, in lanes over whole chunks and with a plain loop for the rest (own). Slices
//! have at most 2^24 entries. No call takes memory.
#![tactic(auto)]

pub mod lanes;
mod loudness;
mod powers;
mod products;
mod saturation;

pub use byte_lanes::differences;
pub use loudness::first_loud;
pub use powers::energy;
pub use products::dot;
pub use saturation::add_saturating;

#[cfg(test)]
mod tests;
