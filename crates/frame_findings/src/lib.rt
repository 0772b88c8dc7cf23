//! The findings of a capture: all its frames, and at most one cut (own).
#![tactic(auto)]

ghost use Rattle.std.specs.Prelude.{◌≡◌, [], ◌∷◌, ◌++◌, OnOk, OnErr};

use bit_lists::Octets;
use rate_table::Rate;
use std::alloc::{AllocError, Global};
use std::marker::Model;

mod inspection;
pub mod laws;

pub use inspection::inspect;

/// A frame that was heard: the place of its first sample, what its header says, the number that names the front of its
/// field, 0 to 127, and its PSDU (own).
#[derive(Drop)]
pub struct Heard {
    /// In samples.
    pub start: u32,
    pub rate: Rate,
    /// LENGTH, in octets: 1 to 4095.
    pub length: u16,
    /// 0 where the field begins with seven zeros; nothing is then descrambled.
    pub seed: u8,
    pub psdu: Octets,
}

/// A frame that the capture ends in: the place of its first sample, how many samples stand from there on, and how many
/// it has by its header (own).
#[derive(Clone, Copy, Debug, PartialEq, Eq)]
pub struct Cut {
    pub start: u32,
    pub have: u32,
    pub need: u32,
}

/// Frames that were heard, in order. Contracts see them as a list.
#[derive(Drop)]
pub struct HeardList {
    items: Vec<Heard>,
}

impl Model for HeardList {
    ghost use Rattle.std.specs.Prelude.{List};
    ghost use Rattle.frame_findings.specs.declared.Heard.{Heard};

    ghost Value = { List Heard };

    ghost view = { λ list. list.items.items };
}

impl HeardList {
    /// No frames. Takes no memory.
    pub fn new(alloc: Global) -> HeardList
        ensures { result ≡ [] }
    {
        HeardList {
            items: Vec::new(alloc),
        }
    }

    /// One frame more, behind the others. The only error is want of memory, and then they are as before.
    pub fn push(&mut self, heard: Heard) -> Result<(), AllocError>
        ensures ok { OnOk result (self.new ≡ self.old ++ heard ∷ []) }
        ensures err { OnErr result (self.new ≡ self.old) }
    {
        self.items.push(heard)?;
        Ok(())
    }

    /// The frames, in order. Takes no memory.
    pub fn as_slice(&self) -> &[Heard]
        ensures { result.now ≡ self.now }
    {
        self.items.as_slice()
    }
}

/// What is received of a capture: all its frames in order, and the cut that it ends in, if it does (own).
#[derive(Drop)]
pub struct Reception {
    pub heard: HeardList,
    pub cut: Option<Cut>,
}

/// What stands at an edge (own).
#[derive(Clone, Copy, Debug, PartialEq, Eq)]
pub enum Finding {
    /// Fewer than 400 samples stand from there on.
    Short,
    /// The first 320 don't match the training fields.
    NoMatch,
    /// The sum of bits 0 to 17 of the header is odd.
    BadParity,
    /// The pattern of the header names no rate; its number is R1 + 2 R2 + 4 R3 + 8 R4.
    BadRate {
        pattern: u8,
    },
    /// LENGTH of the header is 0.
    ZeroLength,
    /// The header is good, whether its frame is whole or not.
    Good {
        rate: Rate,
        length: u16,
        reserved: u8,
    },
}

/// An edge, and what stands there (own).
#[derive(Clone, Copy, Debug, PartialEq, Eq)]
pub struct EdgeReport {
    pub place: u32,
    pub finding: Finding,
}

#[cfg(test)]
mod tests {
    use super::*;
    use fixed_complex::Sample;
    use modem_ports::Steps;
    use std::test::Fail;

    // Two loud samples in silence, of which the first has 400 samples behind it.
    #[test]
    fn edges_of_spikes(rt: HostRuntime) -> Result<(), Fail> {
        let mut capture = [Sample { i: 0, q: 0 }; 420];
        capture[3].i = 257;
        capture[50].q = -257;
        let reports = inspect(rt.alloc(), &capture, &mut Steps::new())?;
        let wanted = [
            EdgeReport {
                place: 3,
                finding: Finding::NoMatch,
            },
            EdgeReport {
                place: 50,
                finding: Finding::Short,
            },
        ];
        assert_eq!(rt; reports.as_slice(), wanted.as_slice());
        Ok(())
    }

    #[test]
    fn frames_in_order(rt: HostRuntime) -> Result<(), Fail> {
        let mut heard = HeardList::new(rt.alloc());
        for start in [0u32, 896] {
            heard.push(Heard {
                start,
                rate: Rate::R6,
                length: 1,
                seed: 93,
                psdu: Octets::from_vec(Vec::new(rt.alloc())),
            })?;
        }
        let heard = heard.as_slice();
        assert!(rt; heard.len() == 2);
        assert_eq!(rt; heard[1].start, 896);
        Ok(())
    }
}
