//! Refusals of a run, how it ends, and the line that reports a refusal. No call takes memory.
#![tactic(auto)]

ghost use Rattle.std.specs.Prelude.{◌≡◌};
ghost use Rattle.report_lines.specs.Refusals.{code_of_status, status_of};
ghost use Rattle.report_lines.specs.declared.Refusal.TheVariants.{NoMemory};

use std::alloc::AllocError;

mod lines;

pub use lines::{Line, line_of};

/// How `run` ends (own).
#[derive(Clone, Copy, Debug, PartialEq, Eq)]
pub enum Status {
    /// The command's bytes were written.
    Ok,
    /// The words are refused.
    BadWords,
    /// The input is refused.
    BadInput,
    /// No frame is found.
    NoFrame,
    /// A frame is cut.
    CutFrame,
    /// The source failed.
    ReadFault,
    /// A write of the answer failed.
    WriteFault,
    /// Want of memory.
    NoMemory,
}

impl Status {
    /// The code with which the program ends: 0, or 2 to 8 in the order of the refusing statuses (own).
    /// Takes no memory.
    pub fn code(self) -> u8
        ensures { result ≡ code_of_status self }
    {
        match self {
            Status::Ok => 0,
            Status::BadWords => 2,
            Status::BadInput => 3,
            Status::NoFrame => 4,
            Status::CutFrame => 5,
            Status::ReadFault => 6,
            Status::WriteFault => 7,
            Status::NoMemory => 8,
        }
    }
}

/// Why a run is refused (own).
#[derive(Clone, Copy, Debug, PartialEq, Eq)]
pub enum Refusal {
    /// The words say no command.
    Words,
    /// A command that reads a PSDU reached the end of input with no octet.
    EmptyPsdu,
    /// A command that reads a PSDU took a 4096th octet.
    LongPsdu,
    /// A capture ended after `bytes` bytes, which 4 does not divide.
    TornCapture { bytes: u32 },
    /// Byte 67108865 of an input that is no PSDU was taken.
    LongCapture,
    /// The least place of a text of bits, counted from 0, that holds neither `0` nor `1`, the final
    /// newline excepted.
    BadBit { at: usize },
    /// The text has `have` bits, and the words ask for another number, `need`.
    BitCount { have: u32, need: u32 },
    /// No frame is found in a capture.
    NoFrame,
    /// The first frame of a capture, at the place `start`, has `have` samples there, fewer than the
    /// `need` of its header.
    CutFrame { start: u32, have: u32, need: u32 },
    /// A read failed.
    ReadFault,
    /// A write of the answer failed.
    WriteFault,
    /// Want of memory.
    NoMemory,
    /// The words ask for noise with a text that is no script: it is bad at the place `at`, counted
    /// from 0.
    BadScript { at: usize },
    /// The text is no list of frames: it is bad at the place `at`, counted from 0.
    BadList { at: usize },
    /// The text is a list of so many samples, more than 16777216.
    LongList { samples: u64 },
    /// The least place of a text of costs, counted from 0, that holds no digit, the final newline
    /// excepted.
    BadCost { at: usize },
    /// The text has `have` costs, and the words ask for another number, `need`.
    CostCount { have: u32, need: u32 },
    /// From the place `start` of a capture on, `have` samples stand: fewer than the 400 in front of a
    /// frame's DATA symbols, which are then the `need`, or than the `need` of the header there.
    CutAt { start: u32, have: u32, need: u32 },
    /// 400 samples stand from the place `start` on, and no good header.
    BadHeader { start: u32 },
    /// The words ask for an echo by a text that is none of taps: it is bad at the place `at`, counted
    /// from 0.
    BadTaps { at: usize },
}

impl Refusal {
    /// The status of a refusal. Takes no memory.
    pub fn status(self) -> Status
        ensures { result ≡ status_of self }
    {
        match self {
            Refusal::Words | Refusal::BadScript { .. } | Refusal::BadTaps { .. } =>
                Status::BadWords,
            Refusal::EmptyPsdu
            | Refusal::LongPsdu
            | Refusal::TornCapture { .. }
            | Refusal::LongCapture
            | Refusal::BadBit { .. }
            | Refusal::BitCount { .. }
            | Refusal::BadList { .. }
            | Refusal::LongList { .. }
            | Refusal::BadCost { .. }
            | Refusal::CostCount { .. } => Status::BadInput,
            Refusal::NoFrame | Refusal::BadHeader { .. } => Status::NoFrame,
            Refusal::CutFrame { .. } | Refusal::CutAt { .. } => Status::CutFrame,
            Refusal::ReadFault => Status::ReadFault,
            Refusal::WriteFault => Status::WriteFault,
            Refusal::NoMemory => Status::NoMemory,
        }
    }
}

impl From<AllocError> for Refusal {
    ghost from_gives = { λ _ refusal. refusal ≡ NoMemory };

    fn from(_: AllocError) -> Refusal {
        Refusal::NoMemory
    }
}
