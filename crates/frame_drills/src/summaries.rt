//! Drills, and what they come to.
ghost use Rattle.std.specs.Prelude.{◌≡◌, ◌↔◌, ℕ, ◌+◌, ◌*◌, ◌<◌, ◌≤◌, ◌^◌, ◌++◌, decimal, length, IfOk, OnOk};
ghost use Rattle.frame_drills.specs.Captures.{ComesBack, first_capture, second_capture};
ghost use Rattle.frame_drills.specs.Draws.{drawn};
ghost use Rattle.frame_drills.specs.Summaries.{IsSummary, text_of_summary};

use crate::captures::try_frame;
use crate::draws::draw;
use frame_fields::frame_samples;
use itoa::Buffer;
use modem_ports::Steps;
use std::alloc::{AllocError, Global};

// The noise of the second captures.
const LOUD: u16 = 256;

/// What a drill comes to (own).
#[derive(Clone, Copy, Debug, PartialEq, Eq)]
pub struct Summary {
    /// How many frames were drawn.
    pub count: u32,
    /// How many of them come back of captures with noise within the bound of their rate.
    pub heard: u32,
    /// How many octets come back of captures with noise above all bounds.
    pub octets: u64,
    /// How many samples the captures within the bounds have.
    pub samples: u64,
}

/// Drills frames by their numbers from 0 on, 1 to 1000 of them: draws each, and receives two captures of it, one with
/// noise within the noise bound of its rate and one with noise of 256, above all bounds (own). Every frame comes back of
/// its first capture. The only error is want of memory. The count of steps rises by at most 7157952 for each frame.
pub fn drill(alloc: Global, count: u32, steps: &mut Steps) -> Result<Summary, AllocError>
    requires some { 1 ≤ count }
    requires most { count ≤ 1000 }
    ensures summary { IfOk result (IsSummary count) }
    ensures heard { IfOk result (λ summary. summary.heard ≡ count) }
    ensures counted { steps.new ≤ steps.old + 7157952 * count }
{
    let mut summary = Summary {
        count,
        heard: 0,
        octets: 0,
        samples: 0,
    };
    for number in 0..count {
        drill_frame(alloc, number, &mut summary, steps)?;
    }
    Ok(summary)
}

// Drills the frame of a number, and adds what comes back to a summary. The only error is want of memory.
fn drill_frame(
    alloc: Global,
    number: u32,
    summary: &mut Summary,
    steps: &mut Steps,
) -> Result<(), AllocError>
    requires heard { summary.old.heard < 1000 }
    requires octets { summary.old.octets < 2 ^ 32 }
    requires samples { summary.old.samples < 2 ^ 32 }
    ensures count { OnOk result (summary.new.count ≡ summary.old.count) }
    ensures heard { OnOk result (summary.new.heard ≡ summary.old.heard + 1) }
    ensures back { OnOk result (ComesBack (second_capture number) (drawn number)
        → summary.new.octets ≡ summary.old.octets + length (drawn number).psdu) }
    ensures lost { OnOk result (¬ ComesBack (second_capture number) (drawn number)
        → summary.new.octets ≡ summary.old.octets) }
    ensures samples { OnOk result (summary.new.samples
        ≡ summary.old.samples + length (first_capture number)) }
    ensures few_octets { OnOk result (summary.new.octets ≤ summary.old.octets + 4095) }
    ensures few_samples { OnOk result (summary.new.samples ≤ summary.old.samples + 111827) }
    ensures counted { steps.new ≤ steps.old + 7157952 }
{
    let frame = draw(alloc, number)?;
    let sent = frame_samples(alloc, frame.rate, frame.seed, frame.psdu.as_slice())?;
    let bound = frame.rate.noise_bound() as u16 - 1;
    let quiet = try_frame(alloc, &frame, &sent, bound, number, steps)?;
    let loud = try_frame(alloc, &frame, &sent, LOUD, number, steps)?;
    summary.samples += quiet.samples as u64;
    if quiet.is_back {
        summary.heard += 1;
    }
    if loud.is_back {
        summary.octets += frame.psdu.as_slice().len() as u64;
    }
    Ok(())
}

/// The text of a summary: `drill COUNT heard HEARD octets OCTETS samples SAMPLES` and a newline, all numbers in decimal
/// (own). The only error is want of memory.
pub fn summary_text(alloc: Global, summary: &Summary) -> Result<Vec<u8>, AllocError>
    ensures { IfOk result (λ text. text.items ≡ text_of_summary summary.now) }
{
    let mut text = Vec::from_slice(alloc, b"drill ")?;
    push_number(&mut text, u64::from(summary.count))?;
    text.extend_from_slice(b" heard ")?;
    push_number(&mut text, u64::from(summary.heard))?;
    text.extend_from_slice(b" octets ")?;
    push_number(&mut text, summary.octets)?;
    text.extend_from_slice(b" samples ")?;
    push_number(&mut text, summary.samples)?;
    text.extend_from_slice(b"\n")?;
    Ok(text)
}

// Appends a number in decimal.
fn push_number(text: &mut Vec<u8>, number: u64) -> Result<(), AllocError>
    ensures { OnOk result (text.new.items ≡ text.old.items ++ decimal number) }
{
    let mut buffer = Buffer::new();
    text.extend_from_slice(buffer.format(number).as_bytes())
}
