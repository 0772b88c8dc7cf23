//! A capture is received from a source, as its bytes come.
ghost use Rattle.std.specs.Prelude.{◌≡◌, ◌⊎◌, ◌+◌, ◌-◌, ◌*◌, ◌/◌, ◌≤◌, ℕ, List, [], length, IfOk, IfErr, IfSome, IsErrOf, OnOk, OnErr, Ok, Err, Option};
ghost use Rattle.capture_hearing.specs.Hearing.{HasHeard};
ghost use Rattle.capture_hearing.specs.Received.{IsReceived};
ghost use Rattle.capture_hearing.specs.Sources.{HeardFrom, IsOfReceiving};
ghost use Rattle.modem_ports.specs.Counts.{Rose};
ghost use Rattle.modem_ports.specs.Limits.{most_input};
ghost use Rattle.modem_ports.specs.Told.{GivesAtMost, GivesExactly, IsAtEnd};
ghost use Rattle.report_lines.specs.Refusals.{IsDecided, answering, status_of, step_of};

use crate::hearing::Hearing;
use modem_ports::{MOST_INPUT, Source, Steps};
use report_lines::Refusal;
use std::alloc::Global;

// The most bytes that are asked of a source at once.
const PIECE: usize = 4096;

/// Receives a capture from a source, as its bytes come (own): `Ok` has the text of its findings.
///
/// `NoMemory` is free, and comes before the first read. Then, in this order: `LongCapture` comes as soon
/// as byte 67108865 was taken, and no more are ever taken; at the end of input `TornCapture`, `NoFrame`
/// and `CutFrame`, just where the bytes decide so. `ReadFault` comes only where the source's count of
/// faults rose in this call. The count of steps rises by at most 32 for each sample, and 512.
pub fn receive_from<S: Source>(
    alloc: Global,
    source: &mut S,
    steps: &mut Steps,
) -> Result<Vec<u8>, Refusal>
    ensures text { IfOk result (λ text. IfSome (S.left source.old)
        (λ bytes. IsReceived bytes (Ok text.items))) }
    ensures refused { IfErr result (λ refusal. IsDecided (status_of refusal)
        → IfSome (S.left source.old) (λ bytes. IsReceived bytes (Err refusal))) }
    ensures cause { IfErr result IsOfReceiving }
    ensures end { OnOk result (IsAtEnd (S.left source.new)) }
    ensures refused_end { IfErr result (λ refusal. step_of refusal ≡ answering
        → IsAtEnd (S.left source.new)) }
    ensures long { IsErrOf result Refusal.LongCapture
        → GivesExactly (most_input + 1) (S.left source.old) (S.left source.new) }
    ensures failed { IsErrOf result Refusal.ReadFault
        → Rose (S.faults source.old) (S.faults source.new) }
    ensures failed_within { IsErrOf result Refusal.ReadFault
        → GivesAtMost most_input (S.left source.old) (S.left source.new) }
    ensures untouched { IsErrOf result Refusal.NoMemory → source.new ≡ source.old }
    ensures taken { GivesAtMost (most_input + 1) (S.left source.old) (S.left source.new) }
    ensures counted { S.faults source.old ≤ S.faults source.new }
    ensures bounded { IfSome (S.left source.old)
        (λ bytes. steps.new ≤ steps.old + (32 * (length bytes / 4) + 512)) }
{
    let mut hearing = Hearing::open(alloc)?;
    hear_source(&mut hearing, source, steps)?;
    hearing.end()
}

// Hears a source to its end.
fn hear_source<S: Source>(
    hearing: &mut Hearing,
    source: &mut S,
    steps: &mut Steps,
) -> Result<(), Refusal>
    requires none { HasHeard hearing.old [] }
    ensures heard { OnOk result
        (HeardFrom (S.left source.old) (S.left source.new) hearing.new) }
    ensures end { OnOk result (IsAtEnd (S.left source.new)) }
    ensures cause { IfErr result (λ refusal.
        (refusal ≡ Refusal.LongCapture) ⊎ (refusal ≡ Refusal.ReadFault)) }
    ensures long { IsErrOf result Refusal.LongCapture
        → GivesExactly (most_input + 1) (S.left source.old) (S.left source.new) }
    ensures failed { IsErrOf result Refusal.ReadFault
        → Rose (S.faults source.old) (S.faults source.new) }
    ensures failed_within { IsErrOf result Refusal.ReadFault
        → GivesAtMost most_input (S.left source.old) (S.left source.new) }
    ensures taken { GivesAtMost (most_input + 1) (S.left source.old) (S.left source.new) }
    ensures counted { S.faults source.old ≤ S.faults source.new }
    ensures paced { steps.new + hearing.old.receiver.spent
        ≤ steps.old + hearing.new.receiver.spent }
    ensures bounded { IfSome (S.left source.old)
        (λ bytes. hearing.new.receiver.spent ≤ 32 * (length bytes / 4) + 512) }
{
    let mut piece = [0; PIECE];
    loop {
        let count = hear_piece(hearing, source, &mut piece, steps)?;
        if count == 0 {
            return Ok(());
        }
    }
}

// Hears one more piece of a source, which is read into `piece`, and answers how long it is. It is empty only at the end of
// input.
fn hear_piece<S: Source>(
    hearing: &mut Hearing,
    source: &mut S,
    piece: &mut [u8; PIECE],
    steps: &mut Steps,
) -> Result<usize, Refusal>
    ensures heard { (before : Option (List ℕ)) → HeardFrom before (S.left source.old) hearing.old
        → OnOk result (HeardFrom before (S.left source.new) hearing.new) }
    ensures count { IfOk result (λ n. hearing.new.count ≡ hearing.old.count + n) }
    ensures within { hearing.new.count ≤ most_input }
    ensures end { result ≡ Ok 0 → IsAtEnd (S.left source.new) }
    ensures unheard { OnErr result (hearing.new ≡ hearing.old) }
    ensures cause { IfErr result (λ refusal.
        (refusal ≡ Refusal.LongCapture) ⊎ (refusal ≡ Refusal.ReadFault)) }
    ensures long { IsErrOf result Refusal.LongCapture
        → GivesExactly (most_input + 1 - hearing.old.count)
        (S.left source.old) (S.left source.new) }
    ensures failed { IsErrOf result Refusal.ReadFault
        → Rose (S.faults source.old) (S.faults source.new) }
    ensures kept { IsErrOf result Refusal.ReadFault → S.left source.new ≡ S.left source.old }
    ensures taken { GivesAtMost (most_input + 1 - hearing.old.count)
        (S.left source.old) (S.left source.new) }
    ensures counted { S.faults source.old ≤ S.faults source.new }
    ensures paced { steps.new + hearing.old.receiver.spent
        ≤ steps.old + hearing.new.receiver.spent }
{
    let room = MOST_INPUT - hearing.count();
    let most = PIECE.min(room + 1);
    let Ok(count) = source.read(&mut piece[..most]) else {
        return Err(Refusal::ReadFault);
    };
    if count > room {
        return Err(Refusal::LongCapture);
    }
    hearing.hear_all(&piece[..count], steps);
    Ok(count)
}
