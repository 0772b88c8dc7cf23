//! The answer of a request, of what a source gives.
ghost use Rattle.std.specs.Prelude.{◌≡◌, ◌≢◌, ◌⊎◌, ◌+◌, ◌*◌, ◌/◌, ◌≤◌, length, IfOk, IfErr, IfSome, IsErrOf};
ghost use Rattle.std.specs.Result.{result_err};
ghost use Rattle.command_answers.specs.Answers.{bytes_of_answer};
ghost use Rattle.command_answers.specs.InOrder.{Refuses, Writes};
ghost use Rattle.command_answers.specs.Inputs.{Reads, reads};
ghost use Rattle.command_answers.specs.Outcome.{RequestOutcome};
ghost use Rattle.command_words.specs.Asking.{command_of};
ghost use Rattle.command_words.specs.Grammar.{IsInRange};
ghost use Rattle.report_lines.specs.Refusals.{IsDecided, answering, reading, status_of, step_of};

use crate::answers::{Answer, answer_of};
use crate::reading::{Reading, read_input};
use capture_hearing::receive_from;
use command_words::Request;
use modem_ports::{Source, Steps};
use report_lines::Refusal;
use std::alloc::Global;

/// What a request comes to, of the bytes that a source has left (own): the bytes of its outcome, or the
/// refusal that is its outcome, or `ReadFault` where the source's count of faults rose in this call, or
/// `NoMemory`, which is free. With `receive` it comes before the first read. `steps` counts the steps of
/// the trellis, and of the receiver: with `receive` at most 32 for each sample, and 512.
pub fn answer_from<S: Source>(
    alloc: Global,
    request: Request,
    source: &mut S,
    steps: &mut Steps,
) -> Result<Answer, Refusal>
    requires { IsInRange (command_of request) }
    ensures ok { IfOk result (λ answer. IfSome (S.left source.old)
        (λ bytes. RequestOutcome request bytes (Writes (bytes_of_answer answer)))) }
    ensures refused { IfErr result (λ refusal. IsDecided (status_of refusal)
        → IfSome (S.left source.old) (λ bytes. RequestOutcome request bytes (Refuses refusal))) }
    ensures cause { IfErr result (λ refusal. (refusal ≡ Refusal.NoMemory)
        ⊎ ((step_of refusal ≡ reading) ⊎ (step_of refusal ≡ answering))) }
    ensures reads { Reads (reads (command_of request)) (S.left source.old) (S.left source.new)
        (S.faults source.old) (S.faults source.new) (result_err result) }
    ensures counted { S.faults source.old ≤ S.faults source.new }
    ensures untouched { request ≡ Request.Receive → IsErrOf result Refusal.NoMemory
        → source.new ≡ source.old }
    ensures unread { reads (command_of request) ≡ Reading.Nothing → source.new ≡ source.old }
    ensures bounded { request ≡ Request.Receive → IfSome (S.left source.old)
        (λ bytes. steps.new ≤ steps.old + (32 * (length bytes / 4) + 512)) }
{
    match request {
        Request::Receive => received(alloc, source, steps),
        request => answer_read(alloc, request, source, steps),
    }
}

// What `receive` comes to.
fn received<S: Source>(alloc: Global, source: &mut S, steps: &mut Steps) -> Result<Answer, Refusal>
    ensures ok { IfOk result (λ answer. IfSome (S.left source.old)
        (λ bytes. RequestOutcome Request.Receive bytes (Writes (bytes_of_answer answer)))) }
    ensures refused { IfErr result (λ refusal. IsDecided (status_of refusal)
        → IfSome (S.left source.old)
        (λ bytes. RequestOutcome Request.Receive bytes (Refuses refusal))) }
    ensures cause { IfErr result (λ refusal. (refusal ≡ Refusal.NoMemory)
        ⊎ ((step_of refusal ≡ reading) ⊎ (step_of refusal ≡ answering))) }
    ensures reads { Reads Reading.Capture (S.left source.old) (S.left source.new)
        (S.faults source.old) (S.faults source.new) (result_err result) }
    ensures counted { S.faults source.old ≤ S.faults source.new }
    ensures untouched { IsErrOf result Refusal.NoMemory → source.new ≡ source.old }
    ensures bounded { IfSome (S.left source.old)
        (λ bytes. steps.new ≤ steps.old + (32 * (length bytes / 4) + 512)) }
{
    match receive_from(alloc, source, steps) {
        Ok(text) => Ok(Answer::Bytes(text)),
        Err(refusal) => Err(refusal),
    }
}

// What any other request comes to: its input is read to the end first.
fn answer_read<S: Source>(
    alloc: Global,
    request: Request,
    source: &mut S,
    steps: &mut Steps,
) -> Result<Answer, Refusal>
    requires range { IsInRange (command_of request) }
    requires kept { request ≢ Request.Receive }
    ensures ok { IfOk result (λ answer. IfSome (S.left source.old)
        (λ bytes. RequestOutcome request bytes (Writes (bytes_of_answer answer)))) }
    ensures refused { IfErr result (λ refusal. IsDecided (status_of refusal)
        → IfSome (S.left source.old) (λ bytes. RequestOutcome request bytes (Refuses refusal))) }
    ensures cause { IfErr result (λ refusal. (refusal ≡ Refusal.NoMemory)
        ⊎ ((step_of refusal ≡ reading) ⊎ (step_of refusal ≡ answering))) }
    ensures reads { Reads (reads (command_of request)) (S.left source.old) (S.left source.new)
        (S.faults source.old) (S.faults source.new) (result_err result) }
    ensures counted { S.faults source.old ≤ S.faults source.new }
    ensures unread { reads (command_of request) ≡ Reading.Nothing → source.new ≡ source.old }
{
    let kind = Reading::of(&request);
    match read_input(alloc, kind, source) {
        Ok(input) => answer_of(alloc, request, input, steps),
        Err(refusal) => Err(refusal),
    }
}
