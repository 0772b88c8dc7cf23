//! Kept weights: how far apart the kept codes of lists that end in six zeros are (IEEE Std 802.11-2012, 18.3.5.6), and
//! so how many wrong decisions the nearest list repairs.
#![tactic(auto)]

pub mod laws;
pub mod potentials;
