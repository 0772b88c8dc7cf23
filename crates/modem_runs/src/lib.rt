//! One run of the program, over any ports. It has no condition.
#![tactic(auto)]

ghost use Rattle.std.specs.Prelude.{◌≡◌, ◌≢◌, ◌↔◌, ◌+◌, ◌*◌, ◌/◌, ◌≤◌, ◌⊎◌, List, ℕ, length, IfErr, IfSome, IsErrAnd, IsErrOf, OnOk};
ghost use Rattle.std.specs.Result.{result_err};
ghost use Rattle.command_answers.specs.Flips.{IsCheapText, IsFlippedText};
ghost use Rattle.command_answers.specs.InEchoes.{IsCaptureInEchoes, line_of};
ghost use Rattle.command_answers.specs.InTurns.{IsCaptureInTurns, TurnedFrame};
ghost use Rattle.command_answers.specs.InNoise.{IsCaptureInNoise, lines_of};
ghost use Rattle.command_answers.specs.InOrder.{Outcome, Refuses, Writes};
ghost use Rattle.command_answers.specs.Inputs.{Reads, reads};
ghost use Rattle.command_answers.specs.Outcome.{AreRefused, HasOutcome, IsOutcome, MayFollow, ReadsInput, most_accepted, most_taken};
ghost use Rattle.command_words.specs.declared.Command.{Command};
ghost use Rattle.command_words.specs.Asking.{AreRefusedFor, AskForNothing};
ghost use Rattle.command_words.specs.Grammar.{Say, texts_of};
ghost use Rattle.echo_link.specs.Echoed.{EchoedFrame};
ghost use Rattle.frame_lists.specs.Near.{SentFrame};
ghost use Rattle.modem_runs.specs.Report.{IsReported, IsWrittenUnlessNoMemory, TakesAnswer, TakesAnswerPrefix, TakesReport};
ghost use Rattle.modem_ports.specs.Counts.{Rose};
ghost use Rattle.modem_ports.specs.Limits.{most_input};
ghost use Rattle.modem_ports.specs.Told.{GivesAtMost, GivesExactly, IsAtEnd};
ghost use Rattle.rate_table.specs.Symbols.{most_octets};
ghost use Rattle.report_lines.specs.declared.Refusal.{Refusal};
ghost use Rattle.report_lines.specs.Refusals.{IsDecided, asking, status_of, step_of};

use command_answers::laws::{
    capture_in_noise_gives_its_frames, cheap_text_gives_its_psdu, echoed_capture_gives_its_frame,
    flipped_text_gives_its_psdu, outcome_is_one, turned_capture_gives_its_frame,
};
use command_answers::{answer_from, write_answer};
use command_words::read_request;
use modem_ports::{Discard, NeverFails, Sink, Source, Steps, write_all};
use report_lines::{Refusal, Status, line_of};
use std::alloc::Global;

/// One run (own): the words are those of the command line without the program's name, `source` is read
/// where the command reads its input, `out` takes the command's bytes and `report` the line of a
/// refusal. `steps` counts the steps of the trellis. It has no condition.
///
/// The words are judged first, and the source isn't touched where they are refused (`BadWords`). Then
/// the input is read: `ReadFault` at a read that fails, `BadInput` at the byte that passes the limit or
/// at the end of an empty PSDU or a torn capture. `out` is written only once all memory was taken, so
/// `NoMemory` leaves it untouched; `WriteFault` leaves a prefix.
pub fn run<S: Source, K: Sink, E: Sink>(
    alloc: Global,
    words: &Vec<String>,
    source: &mut S,
    out: &mut K,
    report: &mut E,
    steps: &mut Steps,
) -> Status
    // What is written: with `Ok` all bytes of the outcome, with `WriteFault` a prefix of them, else
    // nothing.
    ensures written { result ≡ Status.Ok
        → TakesAnswer (texts_of words.now) (S.left source.old) (K.taken out.old) (K.taken out.new) }
    ensures written_in_part { result ≡ Status.WriteFault
        → TakesAnswerPrefix (texts_of words.now) (S.left source.old)
        (K.taken out.old) (K.taken out.new) }
    ensures out_untouched { result ≢ Status.Ok → result ≢ Status.WriteFault → out.new ≡ out.old }

    // What is reported: with `Ok` nothing, else the line of the refusal.
    ensures unreported { result ≡ Status.Ok → report.new ≡ report.old }
    ensures reported { result ≢ Status.Ok
        → IsReported (texts_of words.now) (S.left source.old) result (E.taken report.old)
        (E.taken report.new) (Rose (E.faults report.old) (E.faults report.new)) }

    // What is read.
    ensures read { (result ≡ Status.Ok) ⊎ (result ≡ Status.WriteFault) → (command : Command)
        → Say (texts_of words.now) command → ReadsInput command → IsAtEnd (S.left source.new) }
    ensures read_at_most { (command : Command) → Say (texts_of words.now) command
        → GivesAtMost (most_taken command) (S.left source.old) (S.left source.new) }
    ensures read_to_limit { result ≡ Status.BadInput → IfSome (S.left source.old) (λ bytes.
        HasOutcome (texts_of words.now) bytes (Refuses Refusal.LongPsdu)
        → GivesExactly (most_octets + 1) (S.left source.old) (S.left source.new)) }
    ensures read_to_input_limit { result ≡ Status.BadInput → IfSome (S.left source.old) (λ bytes.
        HasOutcome (texts_of words.now) bytes (Refuses Refusal.LongCapture)
        → GivesExactly (most_input + 1) (S.left source.old) (S.left source.new)) }
    ensures source_untouched { result ≡ Status.BadWords → source.new ≡ source.old }

    // When each status comes.
    ensures bad_words { (result ≡ Status.BadWords) ↔ AreRefused (texts_of words.now) }
    ensures read_fault { result ≡ Status.ReadFault
        → Rose (S.faults source.old) (S.faults source.new) }
    ensures read_fault_within { result ≡ Status.ReadFault → (command : Command)
        → Say (texts_of words.now) command
        → GivesAtMost (most_accepted command) (S.left source.old) (S.left source.new) }
    ensures write_fault { result ≡ Status.WriteFault → Rose (K.faults out.old) (K.faults out.new) }
    ensures follows { IfSome (S.left source.old) (λ bytes. (outcome : Outcome)
        → HasOutcome (texts_of words.now) bytes outcome → MayFollow outcome result) }
    ensures answers { ¬ Rose (S.faults source.old) (S.faults source.new)
        → ¬ Rose (K.faults out.old) (K.faults out.new)
        → IfSome (S.left source.old) (λ bytes. (answer : List ℕ)
        → HasOutcome (texts_of words.now) bytes (Writes answer)
        → (result ≡ Status.Ok) ⊎ (result ≡ Status.NoMemory)) }
    ensures refuses { ¬ Rose (S.faults source.old) (S.faults source.new)
        → IfSome (S.left source.old) (λ bytes. (refusal : Refusal)
        → HasOutcome (texts_of words.now) bytes (Refuses refusal)
        → (result ≡ status_of refusal) ⊎ (result ≡ Status.NoMemory)) }

    // A capture of frames in noise, which `receive` is asked to read, gives the lines of exactly these
    // frames, in order.
    ensures withstood { ¬ Rose (S.faults source.old) (S.faults source.new)
        → ¬ Rose (K.faults out.old) (K.faults out.new)
        → IfSome (S.left source.old) (λ bytes. (frames : List SentFrame)
        → IsCaptureInNoise (texts_of words.now) bytes frames
        → IsWrittenUnlessNoMemory result (lines_of frames) (K.taken out.old) (K.taken out.new)) }

    // A capture with an echoed frame, which `receive-at` is asked to read at its start, gives the line of
    // exactly this frame.
    ensures through_echoes { ¬ Rose (S.faults source.old) (S.faults source.new)
        → ¬ Rose (K.faults out.old) (K.faults out.new)
        → IfSome (S.left source.old) (λ bytes. (echoed : EchoedFrame)
        → IsCaptureInEchoes (texts_of words.now) bytes echoed
        → IsWrittenUnlessNoMemory result (line_of echoed.frame)
        (K.taken out.old) (K.taken out.new)) }

    // A capture with a frame with turns, which `receive-phase` is asked to read at its start, gives the line
    // of exactly this frame.
    ensures through_turns { ¬ Rose (S.faults source.old) (S.faults source.new)
        → ¬ Rose (K.faults out.old) (K.faults out.new)
        → IfSome (S.left source.old) (λ bytes. (turned : TurnedFrame)
        → IsCaptureInTurns (texts_of words.now) bytes turned
        → IsWrittenUnlessNoMemory result (line_of turned.frame)
        (K.taken out.old) (K.taken out.new)) }

    // The text of a field's kept code with few flips, which `decode` is asked to read, gives that
    // field's PSDU.
    ensures repaired { ¬ Rose (S.faults source.old) (S.faults source.new)
        → ¬ Rose (K.faults out.old) (K.faults out.new)
        → IfSome (S.left source.old) (λ bytes. (psdu : List ℕ)
        → IsFlippedText (texts_of words.now) bytes psdu
        → IsWrittenUnlessNoMemory result psdu (K.taken out.old) (K.taken out.new)) }

    // The text of costs against which a field's kept code costs little, which `decode-soft` is asked to
    // read, gives that field's PSDU.
    ensures soft_repaired { ¬ Rose (S.faults source.old) (S.faults source.new)
        → ¬ Rose (K.faults out.old) (K.faults out.new)
        → IfSome (S.left source.old) (λ bytes. (psdu : List ℕ)
        → IsCheapText (texts_of words.now) bytes psdu
        → IsWrittenUnlessNoMemory result psdu (K.taken out.old) (K.taken out.new)) }

    // With `drill` the source isn't touched.
    ensures unread { (count : ℕ) → Say (texts_of words.now) (Command.Drill count)
        → source.new ≡ source.old }

    // With `receive`, want of memory comes before the first read, and the steps are at most 32 for each
    // sample, and 512.
    ensures memory_first { Say (texts_of words.now) Command.Receive
        → result ≡ Status.NoMemory → source.new ≡ source.old }
    ensures bounded { Say (texts_of words.now) Command.Receive → IfSome (S.left source.old)
        (λ bytes. steps.new ≤ steps.old + (32 * (length bytes / 4) + 512)) }

    // The counts of faults never fall.
    ensures source_counted { S.faults source.old ≤ S.faults source.new }
    ensures out_counted { K.faults out.old ≤ K.faults out.new }
    ensures report_counted { E.faults report.old ≤ E.faults report.new }
{
    // laws; they do nothing
    outcome_is_one();
    capture_in_noise_gives_its_frames();
    echoed_capture_gives_its_frame();
    turned_capture_gives_its_frame();
    flipped_text_gives_its_psdu();
    cheap_text_gives_its_psdu();

    match execute(alloc, words, source, out, steps) {
        Ok(()) => Status::Ok,
        Err(refusal) => refuse(report, refusal),
    }
}

/// One run over ports that never fail, whose answer is dropped (own): as the outcome decides, or for want
/// of memory, and for no other cause.
pub fn dry_run<E: Sink>(
    alloc: Global,
    words: &Vec<String>,
    source: &mut NeverFails,
    report: &mut E,
    steps: &mut Steps,
) -> Status
    ensures answers { (answer : List ℕ)
        → HasOutcome (texts_of words.now) source.old (Writes answer)
        → (result ≡ Status.Ok) ⊎ (result ≡ Status.NoMemory) }
    ensures refuses { (refusal : Refusal)
        → HasOutcome (texts_of words.now) source.old (Refuses refusal)
        → (result ≡ status_of refusal) ⊎ (result ≡ Status.NoMemory) }
{
    run(alloc, words, source, &mut Discard::new(), report, steps)
}

// Reports a refusal, and answers its status. Where the report can't be written, the status is the
// same.
fn refuse<E: Sink>(report: &mut E, refusal: Refusal) -> Status
    ensures status { result ≡ status_of refusal }
    ensures reported { TakesReport refusal (E.taken report.old) (E.taken report.new)
        (Rose (E.faults report.old) (E.faults report.new)) }
    ensures counted { E.faults report.old ≤ E.faults report.new }
{
    let line = line_of(&refusal);
    let _ = write_all(report, line.as_slice());
    refusal.status()
}

// Does what the words ask for, or answers why not.
fn execute<S: Source, K: Sink>(
    alloc: Global,
    words: &Vec<String>,
    source: &mut S,
    out: &mut K,
    steps: &mut Steps,
) -> Result<(), Refusal>
    ensures ok { OnOk result
        (TakesAnswer (texts_of words.now) (S.left source.old) (K.taken out.old) (K.taken out.new)) }
    ensures in_part { IsErrOf result Refusal.WriteFault
        → TakesAnswerPrefix (texts_of words.now) (S.left source.old)
        (K.taken out.old) (K.taken out.new) }
    ensures outcome { IfErr result (λ refusal. IsDecided (status_of refusal)
        → IsOutcome (texts_of words.now) (S.left source.old) (Refuses refusal)) }
    ensures words { AskForNothing (texts_of words.now)
        → IsErrAnd result (λ refusal. step_of refusal ≡ asking) }
    ensures cause { IfErr result (λ refusal. step_of refusal ≡ asking
        → AreRefusedFor (texts_of words.now) refusal) }
    ensures source_untouched { IfErr result (λ refusal. step_of refusal ≡ asking
        → source.new ≡ source.old) }
    ensures out_untouched { IfErr result (λ refusal.
        refusal ≢ Refusal.WriteFault → out.new ≡ out.old) }
    ensures reads { (command : Command) → Say (texts_of words.now) command
        → Reads (reads command) (S.left source.old) (S.left source.new)
        (S.faults source.old) (S.faults source.new) (result_err result) }
    ensures read_fault { IsErrOf result Refusal.ReadFault
        → Rose (S.faults source.old) (S.faults source.new) }
    ensures write_fault { IsErrOf result Refusal.WriteFault
        → Rose (K.faults out.old) (K.faults out.new) }
    ensures source_counted { S.faults source.old ≤ S.faults source.new }
    ensures out_counted { K.faults out.old ≤ K.faults out.new }
    ensures unread { (count : ℕ) → Say (texts_of words.now) (Command.Drill count)
        → source.new ≡ source.old }
    ensures memory_first { Say (texts_of words.now) Command.Receive
        → IsErrOf result Refusal.NoMemory → source.new ≡ source.old }
    ensures bounded { Say (texts_of words.now) Command.Receive → IfSome (S.left source.old)
        (λ bytes. steps.new ≤ steps.old + (32 * (length bytes / 4) + 512)) }
{
    let request = read_request(words)?;
    let answer = answer_from(alloc, request, source, steps)?;
    match write_answer(&answer, out) {
        Ok(()) => Ok(()),
        Err(_) => Err(Refusal::WriteFault),
    }
}
