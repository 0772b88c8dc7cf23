//! The input of a command, read to its end.
ghost use Rattle.std.specs.Prelude.{◌≡◌, ◌⊎◌, ◌≤◌, length, IfOk, IfErr, IfSome};
ghost use Rattle.std.specs.Result.{result_err};
ghost use Rattle.command_answers.specs.Inputs.{HasForm, IsAccepted, IsInput, Reads, RefusesInput, bytes_of_input, reads, refusal_of_capture_fault, refusal_of_fault};
ghost use Rattle.command_words.specs.Asking.{command_of};
ghost use Rattle.report_lines.specs.Refusals.{IsDecided, reading, status_of, step_of};

use capture_files::{CaptureFault, read_capture};
use command_words::Request;
use fixed_complex::Sample;
use modem_ports::{MOST_INPUT, ReadAllFault, Source, read_all};
use rate_table::MOST_OCTETS;
use report_lines::Refusal;
use std::alloc::Global;

/// What a command reads (own).
#[derive(Clone, Copy, Debug, PartialEq, Eq)]
pub enum Reading {
    /// No input: the source isn't touched.
    Nothing,
    /// A PSDU of 1 to 4095 octets.
    Psdu,
    /// An input of at most 67108864 bytes.
    Bytes,
    /// A capture: so many bytes, and whole samples of four bytes each.
    Capture,
}

impl Reading {
    /// What is read for a request (own). Takes no memory.
    pub fn of(request: &Request) -> Reading
        ensures { result ≡ reads (command_of request.now) }
    {
        match request {
            Request::Bits { .. } | Request::Send { .. } | Request::Show { .. } => Reading::Psdu,
            Request::Decode { .. } | Request::DecodeSoft { .. } | Request::SendList =>
                Reading::Bytes,
            Request::Receive
            | Request::ReceiveAt { .. }
            | Request::ReceivePhase { .. }
            | Request::Noise { .. }
            | Request::Echo { .. }
            | Request::Rotate { .. }
            | Request::Inspect => Reading::Capture,
            Request::Drill { .. } => Reading::Nothing,
        }
    }
}

/// The input of a command, which was read to its end (own).
#[derive(Drop)]
pub(crate) enum Input {
    /// Bytes as they came.
    Bytes(Vec<u8>),
    /// The samples of a capture.
    Samples(Vec<Sample>),
}

/// The input of a command, read to its end (own): `Ok` has all that is left of the source.
///
/// `EmptyPsdu`, `LongPsdu`, `TornCapture` and `LongCapture` come as the input alone decides, the two
/// long ones as soon as the byte that passes the limit was taken, and the others at the end of input. `ReadFault` comes only where the source's count of
/// faults rose in this call. `NoMemory` is free.
pub(crate) fn read_input<S: Source>(
    alloc: Global,
    kind: Reading,
    source: &mut S,
) -> Result<Input, Refusal>
    ensures input { IfOk result (λ input.
        IfSome (S.left source.old) (IsInput kind (bytes_of_input input))) }
    ensures accepted { IfOk result (λ input. IsAccepted kind (bytes_of_input input)) }
    ensures form { IfOk result (HasForm kind) }
    ensures refused { IfErr result (λ refusal.
        (refusal ≡ Refusal.NoMemory) ⊎ (step_of refusal ≡ reading)) }
    ensures outcome { IfErr result (λ refusal. IsDecided (status_of refusal)
        → IfSome (S.left source.old) (RefusesInput kind refusal)) }
    ensures reads { Reads kind (S.left source.old) (S.left source.new)
        (S.faults source.old) (S.faults source.new) (result_err result) }
    ensures counted { S.faults source.old ≤ S.faults source.new }
    ensures unread { kind ≡ Reading.Nothing → source.new ≡ source.old }
{
    match kind {
        Reading::Nothing => Ok(Input::Bytes(Vec::new(alloc))),
        Reading::Psdu => match read_all(alloc, source, usize::from(MOST_OCTETS)) {
            Ok(psdu) => whole_psdu(psdu),
            Err(fault) => Err(refusal_of(&fault, Refusal::LongPsdu)),
        },
        Reading::Bytes => match read_all(alloc, source, MOST_INPUT) {
            Ok(bytes) => Ok(Input::Bytes(bytes)),
            Err(fault) => Err(refusal_of(&fault, Refusal::LongCapture)),
        },
        Reading::Capture => match read_capture(alloc, source) {
            Ok(samples) => Ok(Input::Samples(samples)),
            Err(fault) => Err(refusal_of_capture(&fault)),
        },
    }
}

// A PSDU that was read, if it has an octet.
fn whole_psdu(psdu: Vec<u8>) -> Result<Input, Refusal>
    ensures psdu { IfOk result (λ whole. bytes_of_input whole ≡ psdu.items) }
    ensures some { IfOk result (λ whole. 1 ≤ length (bytes_of_input whole)) }
    ensures form { IfOk result (HasForm Reading.Psdu) }
    ensures empty { IfErr result (λ refusal.
        (refusal ≡ Refusal.EmptyPsdu) × (length psdu.items ≡ 0)) }
{
    if psdu.is_empty() {
        return Err(Refusal::EmptyPsdu);
    }
    Ok(Input::Bytes(psdu))
}

// The refusal of an input that was not read whole; `long` is that of a long one.
fn refusal_of(fault: &ReadAllFault, long: Refusal) -> Refusal
    ensures { result ≡ refusal_of_fault long fault.now }
{
    match fault {
        ReadAllFault::Long => long,
        ReadAllFault::Failed => Refusal::ReadFault,
        ReadAllFault::NoMemory(_) => Refusal::NoMemory,
    }
}

// The refusal of a capture that was not read whole.
fn refusal_of_capture(fault: &CaptureFault) -> Refusal
    ensures { result ≡ refusal_of_capture_fault fault.now }
{
    match fault {
        CaptureFault::Torn { bytes } => Refusal::TornCapture { bytes: *bytes },
        CaptureFault::Long => Refusal::LongCapture,
        CaptureFault::Failed => Refusal::ReadFault,
        CaptureFault::NoMemory(_) => Refusal::NoMemory,
    }
}
