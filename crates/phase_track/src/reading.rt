//! The frame at a start, by its pilots.
ghost use Rattle.std.specs.Prelude.{◌≡◌, ℕ, ◌+◌, ◌*◌, ◌^◌, ◌<◌, ◌≤◌, length, drop, Ok, Err, IfOk, IfErr, IsErrOf};
ghost use Rattle.fixed_complex.specs.declared.Cx.{Cx};
ghost use Rattle.frame_lists.specs.Near.{SentFrame};
ghost use Rattle.frame_reader.specs.Decisions.{decisions_by};
ghost use Rattle.frame_starts.specs.declared.AtFault.TheVariants.{BadHeader, CutAt};
ghost use Rattle.frame_starts.specs.Starts.{IsFrameAt};
ghost use Rattle.frames_in_noise.specs.Laws.{heard_of};
ghost use Rattle.frames_turned.specs.Deciding.{phase_decided};
ghost use Rattle.phase_track.specs.Turned.{IsWant, StandsTurned};

use crate::PhaseDecider;
use fixed_complex::Sample;
use frame_findings::Heard;
use frame_starts::{AtFault, read_at};
use modem_ports::Steps;
use std::alloc::Global;

/// Reads the frame that begins at a place of a capture, with no edge and no match, each symbol turned back by its four
/// pilots (own): SIGNAL and its DATA symbols by their phase decisions, over the estimate of the channel from its long
/// training field.
///
/// The capture has at most 2^24 samples, and `start` is below 2^24. `CutAt` with 400 comes exactly where fewer than 400
/// samples stand from there on; then `BadHeader` exactly where SIGNAL says no header; then `CutAt` exactly where fewer
/// stand than the frame has by its header. `NoMemory` is free. Where a frame stands there with any turn for each symbol,
/// within the phase bound of its rate of that waveform, the answer is this frame, or want of memory. The count of steps
/// rises by at most 4 for each sample of the capture, and 27, whatever the answer.
pub fn receive_phase(
    alloc: Global,
    capture: &[Sample],
    start: u32,
    steps: &mut Steps,
) -> Result<Heard, AtFault>
    requires samples { length capture.now ≤ 2 ^ 24 }
    requires start { start < 2 ^ 24 }
    ensures heard { IfOk result (λ heard.
        IsFrameAt (decisions_by phase_decided) capture.now start (Ok heard)) }
    ensures cut { (at have need : ℕ) → IsErrOf result (CutAt at have need)
        → IsFrameAt (decisions_by phase_decided) capture.now start (Err (CutAt at have need)) }
    ensures bad_header { (at : ℕ) → IsErrOf result (BadHeader at)
        → IsFrameAt (decisions_by phase_decided) capture.now start (Err (BadHeader at)) }
    ensures in_turns { IfOk result (λ heard. (turns : ℕ → Cx) (frame : SentFrame)
        → StandsTurned turns capture.now start frame → heard ≡ heard_of frame) }
    ensures not_refused_in_turns { IfErr result (λ fault. (turns : ℕ → Cx) (frame : SentFrame)
        → StandsTurned turns capture.now start frame → IsWant fault) }
    ensures counted { steps.new ≤ steps.old + (4 * length capture.now + 27) }
{
    read_at(alloc, &PhaseDecider, capture, start, steps)
}
