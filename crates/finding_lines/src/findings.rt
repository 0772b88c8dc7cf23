//! The text of `receive`, in room that is taken before.
ghost use Rattle.std.specs.Prelude.{◌≡◌, ◌↔◌, ◌+◌, ◌*◌, ◌≤◌, ◌++◌, [], length, vec_len, IfOk, IsOk, IsTrue, OnOk};
ghost use Rattle.std.specs.Vec.{vec_capacity};
ghost use Rattle.finding_lines.specs.Lines.{cut_line, frame_line, most_text};

use crate::frames::push_frame;
use crate::texts::{push_number, push_spaced};
use frame_findings::Cut;
use rate_table::Rate;
use std::alloc::{AllocError, Global};
use std::marker::Model;

// The most bytes of a text of findings: no capture has more samples, and no line has more bytes than
// samples stand where its frame or its cut does.
const MOST_TEXT: usize = 16_777_216;

/// Lines of findings, with room for the text of any capture's (own). Contracts see them as their text.
#[derive(Drop)]
pub struct Lines {
    text: Vec<u8>,
}

impl Model for Lines {
    ghost use Rattle.std.specs.Prelude.{◌≤◌, ℕ, List, vec_len};
    ghost use Rattle.std.specs.Vec.{vec_capacity};
    ghost use Rattle.finding_lines.specs.Lines.{most_text};

    ghost Value = { List ℕ };

    ghost view = { λ lines. lines.text.items };

    ghost invariant = { λ lines.
        (vec_len lines.text ≤ most_text) × (most_text ≤ vec_capacity lines.text) };
}

impl Lines {
    /// No lines, with room for 16777216 bytes. The only error is want of memory.
    pub fn open(alloc: Global) -> Result<Lines, AllocError>
        ensures { IfOk result (λ lines. lines ≡ []) }
    {
        let text = Vec::with_capacity(alloc, MOST_TEXT)?;
        Ok(Lines { text })
    }

    /// Puts the line of a frame behind the others: `frame START MBPS LENGTH SEED HEX` (own). There is room
    /// for twice as many bytes as octets, and 51 more. Takes no memory.
    pub fn put_frame(&mut self, start: u32, rate: Rate, octets: u16, seed: u8, psdu: &[u8])
        requires { length self.old + 2 * length psdu.now + 51 ≤ most_text }
        ensures line { self.new ≡ self.old ++ frame_line (record {
          start = start;
          rate = rate;
          length = octets;
          seed = seed;
          psdu = psdu.now;
        }) }
        ensures short { length self.new ≤ length self.old + 2 * length psdu.now + 51 }
    {
        push_frame(&mut self.text, start, rate, octets, seed, psdu).unwrap();
    }

    /// Puts the line of a cut behind the others: `cut START HAVE NEED` (own). There is room for 37 bytes
    /// more. Takes no memory.
    pub fn put_cut(&mut self, cut: Cut)
        requires { length self.old + 37 ≤ most_text }
        ensures line { self.new ≡ self.old ++ cut_line cut }
        ensures short { length self.new ≤ length self.old + 37 }
    {
        push_cut(&mut self.text, cut).unwrap();
    }

    /// Whether there are no lines. Takes no memory.
    pub fn is_empty(&self) -> bool
        ensures { IsTrue result ↔ (length self.now ≡ 0) }
    {
        self.text.is_empty()
    }

    /// The text as a vector. Takes no memory.
    pub fn into_vec(self) -> Vec<u8>
        ensures { result.items ≡ self }
    {
        self.text
    }
}

// Appends the line of a cut: at most 37 bytes.
fn push_cut(text: &mut Vec<u8>, cut: Cut) -> Result<(), AllocError>
    ensures line { OnOk result (text.new.items ≡ text.old.items ++ cut_line cut) }
    ensures len { OnOk result (vec_len text.new ≤ vec_len text.old + 37) }
    ensures room { vec_len text.old + 37 ≤ vec_capacity text.old → IsOk result }
    ensures capacity { vec_capacity text.old ≤ vec_capacity text.new }
{
    text.extend_from_slice(b"cut ")?;
    push_spaced(text, cut.start)?;
    push_spaced(text, cut.have)?;
    push_number(text, cut.need)?;
    text.extend_from_slice(b"\n")
}
