//! What a command writes.
ghost use Rattle.std.specs.Prelude.{◌≡◌, ◌≢◌, ◌⊎◌, ◌≤◌, ◌^◌, length, vec_len, IfOk, IfErr, OnOk, OnErr};
ghost use Rattle.capture_files.specs.Captures.{bytes_of_samples};
ghost use Rattle.command_answers.specs.Answers.{bytes_of_answer};
ghost use Rattle.command_answers.specs.InOrder.{Refuses, Writes};
ghost use Rattle.command_answers.specs.Inputs.{HasForm, IsAccepted, bytes_of_input, reads};
ghost use Rattle.command_answers.specs.Outcome.{AnswerOf};
ghost use Rattle.command_answers.specs.Drilling.{HasDrilled};
ghost use Rattle.command_answers.specs.Receiving.{HasReports};
ghost use Rattle.command_words.specs.Asking.{command_of};
ghost use Rattle.command_words.specs.Grammar.{IsFrom, IsInRange};
ghost use Rattle.fixed_complex.specs.Samples.{AreSamples};
ghost use Rattle.modem_ports.specs.Counts.{Rose};
ghost use Rattle.modem_ports.specs.Told.{Takes, TakesPrefix};
ghost use Rattle.noise_script.specs.Effects.{after_items};
ghost use Rattle.report_lines.specs.Refusals.{answering, step_of};
ghost use Rattle.symbol_turns.specs.Turning.{turned_samples};

use crate::decoding::{decoded, soft_decoded};
use crate::listing::listed;
use crate::reading::{Input, Reading};
use crate::starting::{frame_at, turned_frame_at};
use capture_files::write_samples;
use command_words::{Request, Stage};
use finding_lines::reports_text;
use fixed_complex::Sample;
use frame_drills::{drill, summary_text};
use frame_stages::stage_text;
use modem_links::{frame_samples, inspect};
use modem_ports::{Failed, Sink, Steps, write_all};
use noise_script::Script;
use report_lines::Refusal;
use std::alloc::{AllocError, Global};
use symbol_turns::turn_symbols;

/// What a command writes (own).
#[derive(Drop)]
pub enum Answer {
    /// Bytes as they are.
    Bytes(Vec<u8>),
    /// Samples, four bytes each.
    Samples(Vec<Sample>),
}

/// What a command but `receive` writes, of the input that it read (own): the bytes of its outcome, or the refusal
/// that is its outcome, or `NoMemory`, which is free. `steps` counts the steps of the trellis.
pub(crate) fn answer_of(
    alloc: Global,
    request: Request,
    input: Input,
    steps: &mut Steps,
) -> Result<Answer, Refusal>
    requires range { IsInRange (command_of request) }
    requires accepted { IsAccepted (reads (command_of request)) (bytes_of_input input) }
    requires form { HasForm (reads (command_of request)) input }
    requires kept { request ≢ Request.Receive }
    ensures ok { IfOk result (λ answer.
        AnswerOf request (bytes_of_input input) (Writes (bytes_of_answer answer))) }
    ensures refused { IfErr result (λ refusal. (refusal ≡ Refusal.NoMemory)
        ⊎ ((step_of refusal ≡ answering)
        × AnswerOf request (bytes_of_input input) (Refuses refusal))) }
{
    match input {
        Input::Bytes(bytes) => answer_of_bytes(alloc, request, &bytes, steps),
        Input::Samples(samples) => answer_of_capture(alloc, request, samples, steps),
    }
}

// What a command writes that doesn't read a capture.
fn answer_of_bytes(
    alloc: Global,
    request: Request,
    input: &[u8],
    steps: &mut Steps,
) -> Result<Answer, Refusal>
    requires range { IsInRange (command_of request) }
    requires accepted { IsAccepted (reads (command_of request)) input.now }
    requires kind { reads (command_of request) ≢ Reading.Capture }
    ensures ok { IfOk result (λ answer.
        AnswerOf request input.now (Writes (bytes_of_answer answer))) }
    ensures refused { IfErr result (λ refusal. (refusal ≡ Refusal.NoMemory)
        ⊎ ((step_of refusal ≡ answering) × AnswerOf request input.now (Refuses refusal))) }
{
    match request {
        Request::Bits { rate, seed } => {
            Ok(Answer::Bytes(stage_text(alloc, Stage::Kept, rate, seed, input)?))
        }
        Request::Decode { rate, length } => decoded(alloc, rate, length, input, steps),
        Request::DecodeSoft { rate, length } => soft_decoded(alloc, rate, length, input, steps),
        Request::Send { rate, seed } => {
            Ok(Answer::Samples(frame_samples(alloc, rate, seed, input)?))
        }
        Request::SendList => listed(alloc, input),
        Request::Drill { count } => Ok(Answer::Bytes(drill_text(alloc, count, steps)?)),
        Request::Show { stage, rate, seed } => {
            Ok(Answer::Bytes(stage_text(alloc, stage, rate, seed, input)?))
        }
        Request::Noise { .. }
        | Request::Echo { .. }
        | Request::Rotate { .. }
        | Request::ReceiveAt { .. }
        | Request::ReceivePhase { .. }
        | Request::Inspect
        | Request::Receive => unreachable!(),
    }
}

// What a command but `receive` writes of a capture.
fn answer_of_capture(
    alloc: Global,
    request: Request,
    samples: Vec<Sample>,
    steps: &mut Steps,
) -> Result<Answer, Refusal>
    requires range { IsInRange (command_of request) }
    requires samples { AreSamples samples.items }
    requires most { vec_len samples ≤ 2 ^ 24 }
    requires kind { reads (command_of request) ≡ Reading.Capture }
    requires kept { request ≢ Request.Receive }
    ensures ok { IfOk result (λ answer.
        AnswerOf request (bytes_of_samples samples.items) (Writes (bytes_of_answer answer))) }
    ensures refused { IfErr result (λ refusal. (refusal ≡ Refusal.NoMemory)
        ⊎ ((step_of refusal ≡ answering)
        × AnswerOf request (bytes_of_samples samples.items) (Refuses refusal))) }
{
    match request {
        Request::Noise { script } => Ok(Answer::Samples(noisy_samples(&script, samples)?)),
        Request::Echo { taps } => Ok(Answer::Samples(taps.apply(alloc, &samples)?)),
        Request::Rotate { start, step } => Ok(Answer::Samples(turned(start, step, samples))),
        Request::ReceiveAt { start } => frame_at(alloc, start, &samples, steps),
        Request::ReceivePhase { start } => turned_frame_at(alloc, start, &samples, steps),
        Request::Inspect => Ok(Answer::Bytes(edges_text(alloc, &samples, steps)?)),
        _ => unreachable!(),
    }
}

// The samples of a capture after a script.
fn noisy_samples(script: &Script, samples: Vec<Sample>) -> Result<Vec<Sample>, AllocError>
    requires { vec_len samples ≤ 2 ^ 24 }
    ensures { IfOk result (λ noisy. noisy.items ≡ after_items script.now samples.items) }
{
    let mut samples = samples;
    script.apply(&mut samples)?;
    Ok(samples)
}

// Samples with the symbols from a start on turned.
fn turned(start: u32, step: u32, samples: Vec<Sample>) -> Vec<Sample>
    requires step { step ≤ 63 }
    requires most { vec_len samples ≤ 2 ^ 24 }
    ensures { result.items ≡ turned_samples start step samples.items }
{
    let mut samples = samples;
    turn_symbols(start, step, &mut samples);
    samples
}

// The text of the reports on all edges of a capture.
fn edges_text(alloc: Global, samples: &[Sample], steps: &mut Steps) -> Result<Vec<u8>, AllocError>
    requires { length samples.now ≤ 2 ^ 24 }
    ensures { IfOk result (λ text. HasReports samples.now text.items) }
{
    let reports = inspect(alloc, samples, steps)?;
    reports_text(alloc, &reports)
}

// The summary of a drill of so many frames.
fn drill_text(alloc: Global, count: u32, steps: &mut Steps) -> Result<Vec<u8>, AllocError>
    requires { IsFrom 1 1000 count }
    ensures { IfOk result (λ text. HasDrilled count text.items) }
{
    let summary = drill(alloc, count, steps)?;
    summary_text(alloc, &summary)
}

/// Writes the bytes of an answer to a sink (own). Takes no memory.
///
/// After `Ok` the told bytes are those before followed by all of them. `Failed` comes only where the
/// sink's count of faults rose in this call, and then the told bytes are those before followed by a
/// prefix.
pub fn write_answer<K: Sink>(answer: &Answer, out: &mut K) -> Result<(), Failed>
    ensures ok { OnOk result
        (Takes (K.taken out.old) (bytes_of_answer answer.now) (K.taken out.new)) }
    ensures failed { OnErr result (Rose (K.faults out.old) (K.faults out.new)) }
    ensures prefix { OnErr result
        (TakesPrefix (K.taken out.old) (bytes_of_answer answer.now) (K.taken out.new)) }
    ensures counted { K.faults out.old ≤ K.faults out.new }
{
    match answer {
        Answer::Bytes(bytes) => write_all(out, bytes),
        Answer::Samples(samples) => write_samples(samples, out),
    }
}
