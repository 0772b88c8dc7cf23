//! What `send-list` writes.
ghost use Rattle.std.specs.Prelude.{◌≡◌, ◌⊎◌, ◌≤◌, length, IfOk, IfErr};
ghost use Rattle.command_answers.specs.Answers.{bytes_of_answer};
ghost use Rattle.command_answers.specs.InOrder.{Refuses, Writes};
ghost use Rattle.command_answers.specs.Listing.{ListOutcome};
ghost use Rattle.modem_ports.specs.Limits.{most_input};
ghost use Rattle.report_lines.specs.Refusals.{answering, step_of};

use crate::answers::Answer;
use modem_links::{ListFault, SendList};
use report_lines::Refusal;
use std::alloc::Global;

// The samples of a list of frames.
pub fn listed(alloc: Global, text: &[u8]) -> Result<Answer, Refusal>
    requires { length text.now ≤ most_input }
    ensures ok { IfOk result (λ answer. ListOutcome text.now (Writes (bytes_of_answer answer))) }
    ensures refused { IfErr result (λ refusal. (refusal ≡ Refusal.NoMemory)
        ⊎ ((step_of refusal ≡ answering) × ListOutcome text.now (Refuses refusal))) }
{
    let list = match SendList::read(alloc, text) {
        Ok(list) => list,
        Err(ListFault::BadList { at }) => return Err(Refusal::BadList { at }),
        Err(ListFault::LongList { samples }) => return Err(Refusal::LongList { samples }),
        Err(ListFault::NoMemory(_)) => return Err(Refusal::NoMemory),
    };
    Ok(Answer::Samples(list.samples(alloc)?))
}
