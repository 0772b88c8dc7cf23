//! Lists of frames to be sent: read from their texts, and their samples (own).
#![tactic(auto)]

ghost use Rattle.std.specs.Prelude.{◌≡◌, ◌≤◌, ℕ, length, vec_len, IfOk, IsErrOf};
ghost use Rattle.frame_lists.specs.Near.{AreNear};
ghost use Rattle.list_texts.specs.Lists.{IsList, SaysList};
ghost use Rattle.modem_ports.specs.Limits.{most_input};
ghost use Rattle.send_lists.specs.Sent.{IsTooLong, MayBeSent, frames_of_list, most_samples, samples_of_list};
ghost use Rattle.send_lists.specs.declared.ListFault.TheVariants.{NoMemory};
ghost use Rattle.word_grammar.specs.Places.{IsBadAt};

use crate::laws::sent_lists_are_near;
use crate::reading::{Lines, MOST_SAMPLES, read_lines};
use crate::sending::push_entry;
use fixed_complex::Sample;
use list_texts::Entry;
use std::alloc::{AllocError, Global};
use std::marker::Model;
use thiserror::Error;

pub mod laws;
mod reading;
mod sending;
#[cfg(test)]
mod tests;

/// Why a text is no list that may be sent (own).
#[derive(Debug, Drop, Error)]
pub enum ListFault {
    /// The place, in bytes from 0, of the last byte of the shortest front of the text that begins no list; the text's
    /// length, where the whole text begins one.
    #[error("no list at {at}")]
    BadList { at: usize },
    /// The text is a list of so many samples, more than 16777216.
    #[error("list of {samples} samples")]
    LongList { samples: u64 },
    /// Want of memory.
    #[error("no memory")]
    NoMemory(AllocError),
}

impl From<AllocError> for ListFault {
    ghost from_gives = { λ e fault. fault ≡ NoMemory e };

    fn from(e: AllocError) -> ListFault {
        ListFault::NoMemory(e)
    }
}

/// A list of frames to be sent, of at most 16777216 samples. Contracts see it as the list of its entries (own).
#[derive(Drop)]
pub struct SendList {
    entries: Vec<Entry>,
    samples: usize,
}

impl Model for SendList {
    ghost use Rattle.std.specs.Prelude.{◌≡◌, List, length};
    ghost use Rattle.list_texts.specs.declared.Entry.{Entry};
    ghost use Rattle.send_lists.specs.Sent.{MayBeSent, samples_of_list};

    ghost Value = { List Entry };

    ghost view = { λ list. list.entries.items };

    ghost invariant = { λ list. MayBeSent list.entries.items
        × (list.samples ≡ length (samples_of_list list.entries.items)) };
}

impl SendList {
    /// The list that a text of at most 67108864 bytes says: one or more lines, each `RATE SEED GAP HEX` and a newline,
    /// with one space between two words, as `Entry::read` reads them (own). Of a list of too many samples no more octets
    /// are held than 16777216 samples have.
    ///
    /// `BadList` comes only where the text is no list, and tells its bad place; `LongList` only where it is a list of
    /// more than 16777216 samples, and tells how many; `NoMemory` is free.
    pub fn read(alloc: Global, text: &[u8]) -> Result<SendList, ListFault>
        requires { length text.now ≤ most_input }
        ensures list { IfOk result (λ list. SaysList list text.now) }
        ensures short { IfOk result (λ list. length (samples_of_list list) ≤ most_samples) }
        ensures bad { (at : ℕ) → IsErrOf result (ListFault.BadList at) → IsBadAt IsList text.now at }
        ensures long { (samples : ℕ) → IsErrOf result (ListFault.LongList samples)
            → IsTooLong text.now samples }
    {
        let Lines { entries, samples } = match read_lines(alloc, text) {
            Ok(lines) => lines,
            Err(fault) => return Err(fault),
        };
        if samples > MOST_SAMPLES {
            return Err(ListFault::LongList { samples });
        }
        let samples = samples as usize;
        Ok(SendList { entries, samples })
    }

    /// The entries, in order: at least one, each in its ranges (own). Takes no memory.
    pub fn as_slice(&self) -> &[Entry]
        ensures entries { result.now ≡ self.now }
        ensures may_be_sent { MayBeSent self.now }
    {
        self.entries.as_slice()
    }

    /// The samples of the list: entry after entry its gap of samples (0, 0), and then the sent samples of its frame (IEEE
    /// Std 802.11-2012, 18.3.2.1; the list is own). They are within 1 of the list's frames at their starts, each the
    /// number of samples before the frame, and (0, 0) elsewhere. Room for all of them is taken first; the only error is
    /// want of memory.
    pub fn samples(&self, alloc: Global) -> Result<Vec<Sample>, AllocError>
        ensures samples { IfOk result (λ samples. samples.items ≡ samples_of_list self.now) }
        ensures near { IfOk result (λ samples.
            AreNear (λ _. 1) 0 samples.items (frames_of_list self.now)) }
        ensures short { IfOk result (λ samples. vec_len samples ≤ most_samples) }
    {
        sent_lists_are_near();
        let mut samples = Vec::with_capacity(alloc, self.samples)?;
        for entry in self.entries.as_slice() {
            push_entry(alloc, &mut samples, entry)?;
        }
        Ok(samples)
    }
}
