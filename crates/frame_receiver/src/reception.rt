//! Whole captures are received.
ghost use Rattle.std.specs.Prelude.{◌≡◌, ℕ, ◌+◌, ◌*◌, ◌<◌, ◌≤◌, ◌^◌, List, [], ◌∷◌, ◌++◌, length, map, None, Some, IfOk, OnOk, IsErrOf};
ghost use Rattle.fixed_complex.specs.declared.Sample.{Sample};
ghost use Rattle.frame_findings.specs.declared.Heard.{Heard};
ghost use Rattle.frame_findings.specs.Walk.{AreFindings};
ghost use Rattle.frame_lists.specs.Near.{SentFrame};
ghost use Rattle.frames_in_noise.specs.Laws.{heard_of};
ghost use Rattle.frame_receiver.specs.Noise.{HasInNoise};
ghost use Rattle.frame_receiver.specs.Receiving.{Stands};
ghost use Rattle.frame_receiver.specs.Faults.{fault_of};
ghost use Rattle.frame_receiver.specs.declared.reception.ReceiveFault.TheVariants.{CutFrame, NoFrame, NoMemory};

use crate::receiver::Receiver;
use bit_lists::Octets;
use circular_buffer::HeapCircularBuffer;
use fixed_complex::Sample;
use frame_findings::{Cut, Heard, HeardList, Reception};
use modem_ports::Steps;
use std::alloc::{AllocError, Global};
use thiserror::Error;
use viterbi_lanes::Trellis;

/// Why no frame was received (own).
#[derive(Debug, Drop, Error)]
pub enum ReceiveFault {
    /// The capture has no findings.
    #[error("no frame")]
    NoFrame,
    /// The first finding is a cut: of the `need` samples from place `start` on, the capture has `have`.
    #[error("the frame at {start} has {have} of {need} samples")]
    CutFrame { start: u32, have: u32, need: u32 },
    /// Want of memory.
    #[error("no memory")]
    NoMemory(AllocError),
}

impl From<AllocError> for ReceiveFault {
    ghost from_gives = { λ e fault. fault ≡ NoMemory e };

    fn from(e: AllocError) -> ReceiveFault {
        ReceiveFault::NoMemory(e)
    }
}

/// Receives all frames of a capture of at most 2^24 samples, and the cut that it ends in, if it does (own).
///
/// `Ok` has the findings, of which the first is a frame. `NoFrame` comes exactly where there are none, and `CutFrame`
/// exactly where the first is a cut. `NoMemory` is free. The count of steps rises by at most 32 for each sample, and 512,
/// whatever the answer.
///
/// Where the capture is near frames, each within the noise bound of its rate, in silence within 64, the answer is exactly
/// these frames and no cut, or `NoMemory`.
pub fn receive(
    alloc: Global,
    capture: &[Sample],
    steps: &mut Steps,
) -> Result<Reception, ReceiveFault>
    requires { length capture.now ≤ 2 ^ 24 }
    ensures findings { IfOk result
        (λ reception. AreFindings capture.now reception.heard reception.cut) }
    ensures some { IfOk result (λ reception. 1 ≤ length reception.heard) }
    ensures no_frame { IsErrOf result NoFrame → AreFindings capture.now [] None }
    ensures cut_frame { (start have need : ℕ) → IsErrOf result (CutFrame start have need)
        → AreFindings capture.now []
        (Some (record { start = start; have = have; need = need })) }
    ensures in_noise { IfOk result (λ reception. (frames : List SentFrame)
        → HasInNoise capture.now frames
        → (reception.heard ≡ map heard_of frames) × (reception.cut ≡ None)) }
    ensures some_in_noise { (frames : List SentFrame) → HasInNoise capture.now frames
        → ¬ IsErrOf result NoFrame }
    ensures whole_in_noise { (frames : List SentFrame) (start have need : ℕ)
        → HasInNoise capture.now frames → ¬ IsErrOf result (CutFrame start have need) }
    ensures counted { steps.new ≤ steps.old + (32 * length capture.now + 512) }
{
    let mut receiver = open_receiver(alloc)?;
    let mut heard = HeardList::new(alloc);
    for sample in capture {
        hear_sample(alloc, &mut receiver, *sample, &mut heard, steps)?;
    }
    let cut = receiver.end();
    if heard.as_slice().is_empty() {
        return Err(fault_of(cut));
    }
    Ok(Reception { heard, cut })
}

// A receiver before its first sample. The only error is want of memory.
pub(crate) fn open_receiver(alloc: Global) -> Result<Receiver, AllocError>
    ensures stands { IfOk result (λ receiver. Stands receiver [] []) }
    ensures none { IfOk result (λ receiver. receiver.tail.count ≡ 0) }
    ensures spent { IfOk result (λ receiver. receiver.spent ≡ 0) }
{
    let window = HeapCircularBuffer::with_capacity(alloc, 1024)?;
    let trellis = Trellis::open(alloc, 32782)?;
    let field = vec![in alloc; 0u8; 32782]?;
    let octets = vec![in alloc; 0u8; 4095]?;
    Ok(Receiver::open(window, trellis, field, octets))
}

// Hands a sample to a receiver, and puts the frame that it makes whole, if it does, behind those that were heard.
fn hear_sample(
    alloc: Global,
    receiver: &mut Receiver,
    sample: Sample,
    heard: &mut HeardList,
    steps: &mut Steps,
) -> Result<(), AllocError>
    requires { receiver.old.tail.count < 2 ^ 24 }
    ensures stands { (samples : List Sample) → Stands receiver.old samples heard.old
        → OnOk result (Stands receiver.new (samples ++ sample ∷ []) heard.new) }
    ensures count { receiver.new.tail.count ≡ receiver.old.tail.count + 1 }
    ensures counted { steps.new + receiver.old.spent ≤ steps.old + receiver.new.spent }
    ensures bounded { receiver.new.spent ≤ 32 * receiver.new.tail.count + 512 }
{
    let found = match receiver.push(sample, steps) {
        None => return Ok(()),
        Some(found) => found,
    };
    let mut psdu = Vec::new(alloc);
    psdu.extend_from_slice(receiver.psdu())?;
    heard.push(Heard {
        start: found.start,
        rate: found.rate,
        length: found.length,
        seed: found.seed,
        psdu: Octets::from_vec(psdu),
    })
}

// The fault of a capture without a whole frame.
fn fault_of(cut: Option<Cut>) -> ReceiveFault
    ensures { result ≡ fault_of cut }
{
    match cut {
        None => ReceiveFault::NoFrame,
        Some(cut) => ReceiveFault::CutFrame {
            start: cut.start,
            have: cut.have,
            need: cut.need,
        },
    }
}
