//! The text of a list of frames: a line for each, `RATE SEED GAP HEX` (own).
#![tactic(auto)]

ghost use Rattle.std.specs.Prelude.{◌≡◌, ◌≤◌, ℕ, length, IfOk, IsErrOf};
ghost use Rattle.list_texts.specs.Lists.{IsLine, SaysLine};
ghost use Rattle.list_texts.specs.declared.LineFault.TheVariants.{NoMemory};
ghost use Rattle.word_grammar.specs.Places.{IsBadAt};

use crate::digits::read_octets;
use crate::words::read_head;
use bit_lists::Octets;
use ofdm_scrambler::Seed;
use rate_table::Rate;
use std::alloc::{AllocError, Global};
use thiserror::Error;

mod digits;
pub mod laws;
#[cfg(test)]
mod tests;
mod words;

/// A frame of a list: its rate and its seed, how many silent samples stand in front of it, and its PSDU of 1 to 4095
/// octets (own).
#[derive(Drop)]
pub struct Entry {
    pub rate: Rate,
    pub seed: Seed,
    /// In samples, 16 to 1048576.
    pub gap: u32,
    pub psdu: Octets,
}

/// Why a line is none of a list (own).
#[derive(Debug, Drop, Error)]
pub enum LineFault {
    /// The place, in bytes from 0, of the last byte of the shortest front of the line that begins no line; the line's
    /// length, where the whole line begins one.
    #[error("no line at {at}")]
    BadLine { at: usize },
    /// Want of memory.
    #[error("no memory")]
    NoMemory(AllocError),
}

impl From<AllocError> for LineFault {
    ghost from_gives = { λ e fault. fault ≡ NoMemory e };

    fn from(e: AllocError) -> LineFault {
        LineFault::NoMemory(e)
    }
}

impl Entry {
    /// The entry that a line says, which has no newline: `RATE SEED GAP HEX`, with one space between two words. RATE is
    /// a number of megabits a second, 6 to 54 by the table of the rates, SEED is from 1 to 127 and GAP from 16 to
    /// 1048576, in decimal digits with no sign and no leading zero; HEX is two digits, `0` to `9` or `a` to `f`, for
    /// each of 1 to 4095 octets (own).
    ///
    /// `BadLine` comes only where the line is none, and tells its bad place; `NoMemory` is free.
    pub fn read(alloc: Global, line: &[u8]) -> Result<Entry, LineFault>
        ensures entry { IfOk result (λ entry. SaysLine entry line.now) }
        ensures bad { (at : ℕ) → IsErrOf result (LineFault.BadLine at) → IsBadAt IsLine line.now at }
        ensures within { (at : ℕ) → IsErrOf result (LineFault.BadLine at) → at ≤ length line.now }
    {
        let head = match read_head(line) {
            Ok(head) => head,
            Err(at) => return Err(LineFault::BadLine { at }),
        };
        let psdu = read_octets(alloc, &line[head.digits..])?;
        Ok(Entry {
            rate: head.rate,
            seed: head.seed,
            gap: head.gap,
            psdu,
        })
    }
}
