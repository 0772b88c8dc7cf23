//! The ports of the modem: where bytes come from and go to, with counts of faults, and whole reads and writes.
#![tactic(auto)]

ghost use Rattle.std.specs.Prelude.{ℕ, ◌<◌, List, length, Option};
ghost use Rattle.modem_ports.specs.Calls.{ReadStep, WriteStep};

use thiserror::Error;

mod counts;
mod memory;
mod standard;
mod steps;
#[cfg(test)]
mod tests;
mod unfailing;
mod whole;

pub use memory::{MemSink, MemSource};
pub use standard::{StdSink, StdSource};
pub use steps::Steps;
pub use unfailing::{Discard, NeverFails, ZeroSource};
pub use whole::{MOST_INPUT, ReadAllFault, read_all, write_all};

/// The answer of a port that failed (own).
#[derive(Clone, Copy, Debug, Error, PartialEq, Eq)]
#[error("the port failed")]
pub struct Failed;

/// Where bytes come from (own).
pub trait Source {
    /// The bytes that are left, where the source tells them.
    ghost left: { Self → Option (List ℕ) };

    /// How many faults there were. The count stands still at `u64::MAX`.
    ghost faults: { Self → ℕ };

    /// Puts the next bytes into the front of `buf`, which isn't empty, and answers how many they are, at most the
    /// length of `buf`. `Ok(0)` is the end of input. `Failed` gives no bytes, and comes only where the count of
    /// faults rose.
    fn read(&mut self, buf: &mut [u8]) -> Result<usize, Failed>
        requires { 0 < length buf.old }
        ensures step { ReadStep (length buf.old) (left self.old) (left self.new)
            (faults self.old) (faults self.new) buf.new result };
}

/// Where bytes go to (own).
pub trait Sink {
    /// The bytes that were taken so far, where the sink tells them.
    ghost taken: { Self → Option (List ℕ) };

    /// How many faults there were. The count stands still at `u64::MAX`.
    ghost faults: { Self → ℕ };

    /// Takes the first bytes of `piece`, which isn't empty, and answers how many they are, at least one.
    /// `Failed` takes nothing, and comes only where the count of faults rose.
    fn write(&mut self, piece: &[u8]) -> Result<usize, Failed>
        requires { 0 < length piece.now }
        ensures step { WriteStep piece.now (taken self.old) (taken self.new)
            (faults self.old) (faults self.new) result };
}
