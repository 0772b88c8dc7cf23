//! Frames that come with echoes, at a start that is given (own).
#![tactic(auto)]

ghost use Rattle.std.specs.Prelude.{◌≡◌, ℕ, ◌+◌, ◌*◌, ◌^◌, ◌<◌, ◌≤◌, length, Ok, Err, IfOk, IsErrOf};
ghost use Rattle.echo_link.specs.Echoed.{EchoedFrame, HasEchoed};
ghost use Rattle.frame_reader.specs.Decisions.{plain_decisions};
ghost use Rattle.frame_starts.specs.declared.AtFault.TheVariants.{BadHeader, CutAt};
ghost use Rattle.frame_starts.specs.Starts.{IsFrameAt};
ghost use Rattle.frames_in_noise.specs.Laws.{heard_of};
ghost use Rattle.symbols_in_echoes.specs.Laws.{echo_bound_of};

pub use echo_taps::{Tap, TapFault, Taps};
use fixed_complex::Sample;
use frame_reader::PlainDecider;
use frame_starts::laws::one_frame_at;
use frame_starts::read_at;
use frames_in_echoes::laws::an_echoed_frame_is_read;
use modem_links::{AtFault, Heard};
use modem_ports::Steps;
use rate_table::Rate;
use std::alloc::Global;

/// Half of a rate's noise bound: 32, 18, 8 or 4 (own). Takes no memory.
pub fn echo_bound(rate: Rate) -> u32
    ensures { result ≡ echo_bound_of rate }
{
    rate.noise_bound() / 2
}

/// Receives the frame that begins at place `start` of a capture, with no search: no edge is asked for, and no match with
/// the training fields (own). It is the frame that a search would read there: header and field are those of the plain
/// decisions.
///
/// Where the capture is near the echoed waveform of a frame that starts there, within half the noise bound of its rate,
/// the answer is exactly this frame, or `NoMemory`.
///
/// The capture has at most 2^24 samples, and `start` is below 2^24. `CutAt` with 400 comes exactly where fewer than 400
/// samples stand from there on; then `BadHeader` exactly where SIGNAL says no header; then `CutAt` exactly where fewer
/// stand than the frame has by its header. `NoMemory` is free. The count of steps rises by at most 4 for each sample of
/// the capture, and 27, whatever the answer.
pub fn receive_at(
    alloc: Global,
    capture: &[Sample],
    start: u32,
    steps: &mut Steps,
) -> Result<Heard, AtFault>
    requires samples { length capture.now ≤ 2 ^ 24 }
    requires start { start < 2 ^ 24 }
    ensures heard { IfOk result (λ heard. IsFrameAt plain_decisions capture.now start (Ok heard)) }
    ensures cut { (at have need : ℕ) → IsErrOf result (CutAt at have need)
        → IsFrameAt plain_decisions capture.now start (Err (CutAt at have need)) }
    ensures bad_header { (at : ℕ) → IsErrOf result (BadHeader at)
        → IsFrameAt plain_decisions capture.now start (Err (BadHeader at)) }
    ensures in_echoes { (echoed : EchoedFrame) → HasEchoed capture.now echoed
        → echoed.frame.start ≡ start → IfOk result (λ heard. heard ≡ heard_of echoed.frame) }
    ensures whole_in_echoes { (echoed : EchoedFrame) (at have need : ℕ)
        → HasEchoed capture.now echoed → echoed.frame.start ≡ start
        → ¬ IsErrOf result (CutAt at have need) }
    ensures header_in_echoes { (echoed : EchoedFrame) (at : ℕ) → HasEchoed capture.now echoed
        → echoed.frame.start ≡ start → ¬ IsErrOf result (BadHeader at) }
    ensures counted { steps.new ≤ steps.old + (4 * length capture.now + 27) }
{
    // laws; they do nothing
    one_frame_at();
    an_echoed_frame_is_read();

    read_at(alloc, &PlainDecider, capture, start, steps)
}

#[cfg(test)]
mod tests;
