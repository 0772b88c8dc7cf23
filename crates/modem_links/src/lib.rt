//! Both ends of the link (IEEE Std 802.11-2012, 18.3): frames are sent, one alone or a list of them, their fields are
//! decoded, captures received whole or sample by sample, and their edges reported. Each item stands in a crate below,
//! with its contract.
#![tactic(auto)]

pub use frame_fields::{Field, SendFault, coded, decode_field, frame_samples, send};
pub use frame_findings::{Cut, EdgeReport, Finding, Heard, HeardList, Reception, inspect};
pub use frame_receiver::{Found, ReceiveFault, Receiver, receive};
pub use frame_starts::AtFault;
pub use list_texts::Entry;
pub use send_lists::{ListFault, SendList};

#[cfg(test)]
mod tests;
