//! The frame at a start that is given, with no search, whoever decides its symbols (own).
#![tactic(auto)]

ghost use Rattle.std.specs.Prelude.{◌≡◌};
ghost use Rattle.frame_starts.specs.declared.AtFault.TheVariants.{NoMemory};

use std::alloc::AllocError;
use thiserror::Error;

pub mod laws;
mod reading;

pub use reading::read_at;

/// Why no frame was read at a start (own).
#[derive(Debug, Drop, Error)]
pub enum AtFault {
    /// From place `start` on, `have` samples stand, 0 where it is past the end. They are fewer than the 400 in front of
    /// the DATA symbols, and then these are the `need`; or fewer than the `need` that the frame has by its header.
    #[error("the frame at {start} has {have} of {need} samples")]
    CutAt { start: u32, have: u32, need: u32 },
    /// 400 samples stand from place `start` on, and SIGNAL says no header.
    #[error("no header at {start}")]
    BadHeader { start: u32 },
    /// Want of memory.
    #[error("no memory")]
    NoMemory(AllocError),
}

impl From<AllocError> for AtFault {
    ghost from_gives = { λ e fault. fault ≡ NoMemory e };

    fn from(e: AllocError) -> AtFault {
        AtFault::NoMemory(e)
    }
}

#[cfg(test)]
mod tests;
