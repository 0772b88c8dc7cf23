//! The values of a text of hexadecimal digits.
ghost use Rattle.std.specs.Prelude.{◌≡◌, ℕ, IfOk, IsErrOf};
ghost use Rattle.soft_trellis.specs.Faults.{fault_of};
ghost use Rattle.soft_trellis.specs.Text.{IsBadPlace, IsTextOf};
ghost use Rattle.soft_trellis.specs.Values.{AreValues};

use crate::characters::ValueDigits;
use character_texts::{ReadFault, read_values};
use std::alloc::{AllocError, Global};
use thiserror::Error;

/// Why a text has no values (own).
#[derive(Debug, Drop, Error)]
pub enum CostFault {
    /// The least place that holds no digit, counted from 0, a newline at the very end excepted.
    #[error("no cost at {at}")]
    BadCost { at: usize },
    /// Want of memory.
    #[error("no memory")]
    NoMemory(AllocError),
}

impl From<ReadFault> for CostFault {
    ghost from_gives = { λ e fault. fault ≡ fault_of e };

    fn from(e: ReadFault) -> CostFault {
        match e {
            ReadFault::BadCharacter { at } => CostFault::BadCost { at },
            ReadFault::NoMemory(e) => CostFault::NoMemory(e),
        }
    }
}

/// The values of a text: digits `0` to `9` and `a` to `f`, with at most one newline, which is the last byte (own).
/// `BadCost` comes exactly where a place holds no digit, a newline at the very end excepted, and tells the least such
/// place; `NoMemory` is free.
pub fn read_costs(alloc: Global, text: &[u8]) -> Result<Vec<u8>, CostFault>
    ensures read { IfOk result (λ values. IsTextOf text.now values.items) }
    ensures values { IfOk result (λ values. AreValues values.items) }
    ensures bad { (at : ℕ) → IsErrOf result (CostFault.BadCost at) → IsBadPlace text.now at }
{
    Ok(read_values::<ValueDigits>(alloc, text)?)
}
