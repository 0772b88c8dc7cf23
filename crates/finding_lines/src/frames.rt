//! The line of one frame.
ghost use Rattle.std.specs.Prelude.{◌≡◌, ◌+◌, ◌*◌, ◌≤◌, ◌++◌, length, vec_len, IfOk, IsOk, OnOk};
ghost use Rattle.std.specs.Vec.{vec_capacity};
ghost use Rattle.finding_lines.specs.Lines.{frame_line};

use crate::texts::{push_octets, push_spaced};
use frame_findings::Heard;
use rate_table::Rate;
use std::alloc::{AllocError, Global};

/// The line of a frame: `frame START MBPS LENGTH SEED HEX` (own). The only error is want of memory.
pub fn frame_text(alloc: Global, heard: &Heard) -> Result<Vec<u8>, AllocError>
    ensures { IfOk result (λ text. text.items ≡ frame_line heard.now) }
{
    let mut text = Vec::new(alloc);
    push_frame(
        &mut text,
        heard.start,
        heard.rate,
        heard.length,
        heard.seed,
        heard.psdu.as_slice(),
    )?;
    Ok(text)
}

// Appends the line of a frame: at most twice as many bytes as octets, and 51 more.
pub(crate) fn push_frame(
    text: &mut Vec<u8>,
    start: u32,
    rate: Rate,
    octets: u16,
    seed: u8,
    psdu: &[u8],
) -> Result<(), AllocError>
    ensures line { OnOk result (text.new.items ≡ text.old.items ++ frame_line (record {
      start = start;
      rate = rate;
      length = octets;
      seed = seed;
      psdu = psdu.now;
    })) }
    ensures len { OnOk result (vec_len text.new ≤ vec_len text.old + 2 * length psdu.now + 51) }
    ensures room { vec_len text.old + 2 * length psdu.now + 51 ≤ vec_capacity text.old → IsOk result }
    ensures capacity { vec_capacity text.old ≤ vec_capacity text.new }
{
    text.extend_from_slice(b"frame ")?;
    push_spaced(text, start)?;
    push_spaced(text, rate.mbps())?;
    push_spaced(text, u32::from(octets))?;
    push_spaced(text, u32::from(seed))?;
    push_octets(text, psdu)?;
    text.extend_from_slice(b"\n")
}
