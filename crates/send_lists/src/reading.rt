//! Lists read from their texts, line by line.
ghost use Rattle.std.specs.Prelude.{◌≡◌, ◌+◌, ◌^◌, ◌≤◌, ◌++◌, [], ◌∷◌, ℕ, length, IfOk, IsErrOf, OnOk};
ghost use Rattle.list_texts.specs.Lists.{IsInRange, IsList};
ghost use Rattle.modem_ports.specs.Limits.{most_input};
ghost use Rattle.send_lists.specs.Reading.{AddsLine, AreRead};
ghost use Rattle.send_lists.specs.Sent.{samples_of_list};
ghost use Rattle.word_grammar.specs.Places.{IsBadAt};

use crate::ListFault;
use list_texts::{Entry, LineFault};
use std::alloc::{AllocError, Global};
use symbol_builder::frame_len;
use word_grammar::word_end;

// The most samples of a list.
pub(crate) const MOST_SAMPLES: u64 = 1 << 24;

// Entries that were read, and how many samples they have. Those behind the most samples of a list aren't kept.
#[derive(Drop)]
pub(crate) struct Lines {
    pub(crate) entries: Vec<Entry>,
    pub(crate) samples: u64,
}

// All lines of a text.
pub(crate) fn read_lines(alloc: Global, text: &[u8]) -> Result<Lines, ListFault>
    requires { length text.now ≤ most_input }
    ensures lines { IfOk result (λ lines. AreRead text.now lines.entries.items lines.samples) }
    ensures bad { (at : ℕ) → IsErrOf result (ListFault.BadList at) → IsBadAt IsList text.now at }
    ensures not_long { (samples : ℕ) → ¬ IsErrOf result (ListFault.LongList samples) }
{
    let mut lines = Lines {
        entries: Vec::new(alloc),
        samples: 0,
    };
    let mut from = 0;
    loop {
        match lines.push_line(alloc, &text[from..]) {
            Ok(len) => from += len,
            Err(LineFault::BadLine { at }) => return Err(ListFault::BadList { at: from + at }),
            Err(LineFault::NoMemory(e)) => return Err(ListFault::NoMemory(e)),
        }
        if from == text.len() {
            return Ok(lines);
        }
    }
}

impl Lines {
    // Reads the first line of a text, which has so many bytes with its newline.
    fn push_line(&mut self, alloc: Global, text: &[u8]) -> Result<usize, LineFault>
        requires { self.old.samples ≤ 2 ^ 50 }
        ensures line { IfOk result (λ len.
            AddsLine text.now len self.old.entries.items self.old.samples self.new.entries.items
            self.new.samples) }
        ensures bad { (at : ℕ) → IsErrOf result (LineFault.BadLine at) → IsBadAt IsList text.now at }
        ensures within { (at : ℕ) → IsErrOf result (LineFault.BadLine at) → at ≤ length text.now }
    {
        let end = word_end(text, b'\n');
        let entry = match Entry::read(alloc, &text[..end]) {
            Ok(entry) => entry,
            Err(fault) => return Err(fault),
        };
        if end == text.len() {
            return Err(LineFault::BadLine { at: end });
        }
        self.samples += u64::from(samples_of(&entry));
        if self.samples <= MOST_SAMPLES {
            self.keep(entry)?;
        }
        Ok(end + 1)
    }

    // Keeps an entry behind the others.
    fn keep(&mut self, entry: Entry) -> Result<(), AllocError>
        ensures kept { OnOk result (self.new.entries.items ≡ self.old.entries.items ++ entry ∷ []) }
        ensures samples { OnOk result (self.new.samples ≡ self.old.samples) }
    {
        self.entries.push(entry)?;
        Ok(())
    }
}

// How many samples an entry has.
fn samples_of(entry: &Entry) -> u32
    requires { IsInRange entry.now }
    ensures count { result ≡ length (samples_of_list (entry.now ∷ [])) }
    ensures at_most { result ≤ 2 ^ 21 }
{
    entry.gap + frame_len(entry.rate, entry.psdu.as_slice().len() as u16)
}
