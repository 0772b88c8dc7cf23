//! Definitions: the DATA field of a frame and its bits after each stage (IEEE Std 802.11-2012, 18.3.5). They are
//! worked out on one octet in `examples`.
#![tactic(auto)]

pub mod examples;
