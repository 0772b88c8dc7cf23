//! What `receive-at` and `receive-phase` write.
ghost use Rattle.std.specs.Prelude.{◌≡◌, ◌⊎◌, ◌≤◌, ◌^◌, length, Err, IfOk, IfErr};
ghost use Rattle.command_answers.specs.Answers.{bytes_of_answer};
ghost use Rattle.command_answers.specs.InOrder.{Refuses, Writes};
ghost use Rattle.command_answers.specs.Starting.{HasFrameAt, outcome_at};
ghost use Rattle.command_words.specs.Grammar.{IsFrom, most_start};
ghost use Rattle.frame_reader.specs.Decisions.{decisions_by, plain_decisions};
ghost use Rattle.frames_turned.specs.Deciding.{phase_decided};
ghost use Rattle.report_lines.specs.Refusals.{answering, step_of};

use crate::answers::Answer;
use echo_link::receive_at;
use finding_lines::frame_text;
use fixed_complex::Sample;
use modem_links::AtFault;
use modem_ports::Steps;
use phase_track::receive_phase;
use report_lines::Refusal;
use std::alloc::Global;

// The line of the frame at a start of a capture.
pub fn frame_at(
    alloc: Global,
    start: u32,
    samples: &[Sample],
    steps: &mut Steps,
) -> Result<Answer, Refusal>
    requires start { IsFrom 0 most_start start }
    requires most { length samples.now ≤ 2 ^ 24 }
    ensures ok { IfOk result (λ answer.
        HasFrameAt plain_decisions start samples.now (Writes (bytes_of_answer answer))) }
    ensures refused { IfErr result (λ refusal. (refusal ≡ Refusal.NoMemory)
        ⊎ ((step_of refusal ≡ answering)
        × HasFrameAt plain_decisions start samples.now (Refuses refusal))) }
{
    match receive_at(alloc, samples, start, steps) {
        Ok(heard) => Ok(Answer::Bytes(frame_text(alloc, &heard)?)),
        Err(fault) => Err(refusal_of(fault)),
    }
}

// The line of the frame at a start of a capture, each of its symbols turned back by its pilots.
pub fn turned_frame_at(
    alloc: Global,
    start: u32,
    samples: &[Sample],
    steps: &mut Steps,
) -> Result<Answer, Refusal>
    requires start { IsFrom 0 most_start start }
    requires most { length samples.now ≤ 2 ^ 24 }
    ensures ok { IfOk result (λ answer. HasFrameAt (decisions_by phase_decided) start samples.now
        (Writes (bytes_of_answer answer))) }
    ensures refused { IfErr result (λ refusal. (refusal ≡ Refusal.NoMemory)
        ⊎ ((step_of refusal ≡ answering)
        × HasFrameAt (decisions_by phase_decided) start samples.now (Refuses refusal))) }
{
    match receive_phase(alloc, samples, start, steps) {
        Ok(heard) => Ok(Answer::Bytes(frame_text(alloc, &heard)?)),
        Err(fault) => Err(refusal_of(fault)),
    }
}

// The refusal of a fault.
fn refusal_of(fault: AtFault) -> Refusal
    ensures { Refuses result ≡ outcome_at (Err fault) }
{
    match fault {
        AtFault::CutAt { start, have, need } => Refusal::CutAt { start, have, need },
        AtFault::BadHeader { start } => Refusal::BadHeader { start },
        AtFault::NoMemory(_) => Refusal::NoMemory,
    }
}
