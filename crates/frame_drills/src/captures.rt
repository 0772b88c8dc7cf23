//! The captures of frames that are drawn, and what comes back of them.
ghost use Rattle.std.specs.Prelude.{◌≡◌, ◌↔◌, ◌+◌, ◌*◌, ◌≤◌, ◌^◌, [], ◌∷◌, length, None, IsTrue, IfOk};
ghost use Rattle.frame_drills.specs.Captures.{ComesBack, scripted};
ghost use Rattle.frame_fields.specs.Frames.{sent_frame};
ghost use Rattle.frames_in_noise.specs.Laws.{heard_of};

use crate::draws::Drawn;
use fixed_complex::Sample;
use frame_findings::{Heard, Reception};
use frame_receiver::{ReceiveFault, receive};
use modem_ports::Steps;
use noise_script::Script;
use std::alloc::{AllocError, Global};

// How many silent samples stand behind a frame.
const TRAIL: u32 = 100;

// How many samples a capture has, and whether the frame comes back of it.
#[derive(Clone, Copy)]
pub(crate) struct Trial {
    pub samples: usize,
    pub is_back: bool,
}

// Receives the sent samples of a frame after its script, with noise of a bound and a seed. The only error is want of
// memory.
pub(crate) fn try_frame(
    alloc: Global,
    frame: &Drawn,
    sent: &[Sample],
    bound: u16,
    seed: u32,
    steps: &mut Steps,
) -> Result<Trial, AllocError>
    requires lead { frame.now.start ≤ 2047 }
    requires sent { sent.now ≡ sent_frame frame.now.rate frame.now.seed frame.now.psdu }
    requires few { length sent.now ≤ 109680 }
    requires bound { bound ≤ 32767 }
    ensures samples { IfOk result (λ trial. trial.samples ≡ length (scripted bound seed frame.now)) }
    ensures few { IfOk result (λ trial. trial.samples ≤ 111827) }
    ensures back { IfOk result (λ trial. IsTrue trial.is_back
        ↔ ComesBack (scripted bound seed frame.now) frame.now) }
    ensures counted { steps.new ≤ steps.old + 3578976 }
{
    let capture = scripted(alloc, frame, sent, bound, seed)?;
    let is_back = comes_back(alloc, frame, &capture, steps)?;
    Ok(Trial {
        samples: capture.len(),
        is_back,
    })
}

// The sent samples of a frame after its script.
fn scripted(
    alloc: Global,
    frame: &Drawn,
    sent: &[Sample],
    bound: u16,
    seed: u32,
) -> Result<Vec<Sample>, AllocError>
    requires lead { frame.now.start ≤ 2047 }
    requires sent { sent.now ≡ sent_frame frame.now.rate frame.now.seed frame.now.psdu }
    requires few { length sent.now ≤ 109680 }
    requires bound { bound ≤ 32767 }
    ensures samples { IfOk result (λ samples. samples.items ≡ scripted bound seed frame.now) }
    ensures few { IfOk result (λ samples. length samples.items ≤ 111827) }
{
    let mut samples = Vec::from_slice(alloc, sent)?;
    Script::of_frame(frame.lead, bound, u64::from(seed), TRAIL).apply(&mut samples)?;
    Ok(samples)
}

// Whether a frame comes back of a capture.
fn comes_back(
    alloc: Global,
    frame: &Drawn,
    capture: &[Sample],
    steps: &mut Steps,
) -> Result<bool, AllocError>
    requires { length capture.now ≤ 2 ^ 24 }
    ensures back { IfOk result (λ is_back. IsTrue is_back ↔ ComesBack capture.now frame.now) }
    ensures counted { steps.new ≤ steps.old + (32 * length capture.now + 512) }
{
    match receive(alloc, capture, steps) {
        Ok(reception) => Ok(is_alone(&reception, frame)),
        Err(ReceiveFault::NoFrame) => Ok(false),
        Err(ReceiveFault::CutFrame { .. }) => Ok(false),
        Err(ReceiveFault::NoMemory(fault)) => Err(fault),
    }
}

// Whether a frame alone was received, and no cut.
fn is_alone(reception: &Reception, frame: &Drawn) -> bool
    ensures { IsTrue result
        ↔ ((reception.now.heard ≡ heard_of frame.now ∷ []) × (reception.now.cut ≡ None)) }
{
    match reception.heard.as_slice() {
        [heard] => reception.cut.is_none() && is_same(heard, frame),
        _ => false,
    }
}

// Whether what was heard is the frame.
fn is_same(heard: &Heard, frame: &Drawn) -> bool
    ensures { IsTrue result ↔ (heard.now ≡ heard_of frame.now) }
{
    heard.start == frame.lead
        && heard.rate == frame.rate
        && usize::from(heard.length) == frame.psdu.as_slice().len()
        && heard.seed == frame.seed.number()
        && heard.psdu.as_slice() == frame.psdu.as_slice()
}
