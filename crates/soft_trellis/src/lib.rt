//! The decoder of the code of rate 1/2 (IEEE Std 802.11-2012, 18.3.5.6) over soft decisions: the list of bits that costs
//! least, and the field in it.
#![tactic(auto)]

ghost use Rattle.std.specs.Prelude.{◌≡◌, ℕ, ◌+◌, ◌<◌, ◌≤◌, List, [], ◌∷◌, ◌++◌, length, IfOk};
ghost use Rattle.bit_lists.specs.Bits.{AreBits};
ghost use Rattle.modem_ports.specs.Counts.{raised_by};
ghost use Rattle.soft_trellis.specs.declared.Soft.{Soft};
ghost use Rattle.soft_trellis.specs.Marks.{IsCheapest, IsMark, StandsFor};
ghost use Rattle.survivor_memory.specs.Survivors.{AreEntries, DifferByAtMost};

use branches::{first_costs, second_costs};
use modem_ports::Steps;
use std::alloc::{AllocError, Global};
use std::marker::Model;
use survivor_memory::SurvivorMemory;

mod branches;
mod characters;
mod fields;
pub mod laws;
mod texts;
mod values;

pub use fields::{SoftField, decode_soft};
pub use texts::{CostFault, read_costs};

// The most that a pair of marks can cost.
const MOST_COST: u8 = 30;

/// How sure a bit is, or no mark where the place of the code is punctured (own).
#[derive(Clone, Copy, Debug, PartialEq, Eq)]
pub enum Soft {
    Absent,
    /// A number from 0 to 15: so much costs the bit 0, and what it lacks of 15 costs the bit 1.
    Cost(u8),
}

/// The trellis of the code over the pairs of soft marks that it holds (own). Its entries are bytes, worked on as one
/// vector. Only `open` takes memory.
#[derive(Debug, Drop)]
pub struct SoftTrellis {
    memory: SurvivorMemory,
}

impl Model for SoftTrellis {
    ghost use Rattle.survivor_memory.specs.Survivors.{MemoryView};

    ghost Value = { MemoryView };

    ghost view = { λ t. t.memory };
}

impl SoftTrellis {
    /// A trellis that holds no pairs, with room for `steps_max`, at most 32782. The only error is want of memory.
    pub fn open(alloc: Global, steps_max: usize) -> Result<SoftTrellis, AllocError>
        requires { steps_max ≤ 32782 }
        ensures stands { IfOk result (λ trellis. StandsFor trellis []) }
        ensures entries { IfOk result (λ trellis. AreEntries trellis.entries) }
        ensures room { IfOk result (λ trellis. trellis.room ≡ steps_max) }
    {
        Ok(SoftTrellis {
            memory: SurvivorMemory::open(alloc, steps_max)?,
        })
    }

    /// Empties it. Takes no memory.
    pub fn start(&mut self)
        ensures stands { StandsFor self.new [] }
        ensures entries { AreEntries self.new.entries }
        ensures room { self.new.room ≡ self.old.room }
    {
        self.memory.start();
    }

    /// Appends one pair of marks, for A and for B, of which a number is at most 15; there is room for it. The count of
    /// steps rises by one. Takes no memory.
    #[inline(always)]
    pub fn step(&mut self, a: Soft, b: Soft, steps: &mut Steps)
        requires room { length self.old.rows < self.old.room }
        requires first { IsMark a }
        requires second { IsMark b }
        ensures appended { (marks : List (Soft × Soft)) → StandsFor self.old marks
            → StandsFor self.new (marks ++ (a, b) ∷ []) }
        ensures counted { steps.new ≡ raised_by 1 steps.old }
        ensures held { length self.new.rows ≡ length self.old.rows + 1 }
        ensures entries { AreEntries self.new.entries }
        ensures differ { (marks : List (Soft × Soft)) → StandsFor self.new marks
            → 6 ≤ length marks
            → DifferByAtMost 180 self.new.entries }
        ensures room { self.new.room ≡ self.old.room }
    {
        steps.tick();
        self.memory
            .step_of_two(first_costs(a), second_costs(b), MOST_COST);
    }

    /// Writes the list that costs least against the pairs held, at least 6, one bit into each place of `out`, which has
    /// one for each pair. Answers its cost. The trellis holds no pairs afterwards. Takes no memory.
    pub fn finish(&mut self, out: &mut [u8]) -> u32
        requires enough { 6 ≤ length self.old.rows }
        requires places { length out.old ≡ length self.old.rows }
        ensures cheapest { (marks : List (Soft × Soft)) → StandsFor self.old marks
            → IsCheapest marks out.new result }

        // whatever it stood for
        ensures bits { AreBits out.new }
        ensures stands { StandsFor self.new [] }
        ensures entries { AreEntries self.new.entries }
        ensures room { self.new.room ≡ self.old.room }
    {
        self.memory.finish(out)
    }

    /// How many pairs it holds. Takes no memory.
    pub fn held(&self) -> usize
        ensures { result ≡ length self.now.rows }
    {
        self.memory.held()
    }

    /// The `steps_max` of `open`. Takes no memory.
    pub fn room(&self) -> usize
        ensures { result ≡ self.now.room }
    {
        self.memory.room()
    }
}

#[cfg(test)]
mod tests;
