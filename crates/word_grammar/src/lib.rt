//! Texts that are refused at a place: words, numbers and series of them, read from the front (own).
//!
//! A kind of text is what holds of its texts. A text that is none of the kind is bad at one place: the
//! bytes before the place begin a text of the kind, and with the byte at the place they begin none. A
//! text that begins one and is none is bad at its length.
//!
//! A text of several words is read by its first word and what stands behind it: the lemmas on pairs,
//! series, lines and names say what its place is then.
#![tactic(auto)]

pub mod laws;
mod numbers;
#[cfg(test)]
mod tests;
mod words;

pub use numbers::{number, signed};
pub use words::{shared_front, word_end};
