//! The decoder of the code of rate 1/2 (IEEE Std 802.11-2012, 18.3.5.6): the list of bits whose code is nearest to
//! marks, of which those of punctured places are absent.
#![tactic(auto)]

ghost use Rattle.std.specs.Prelude.{◌≡◌, ℕ, ◌+◌, ◌<◌, ◌≤◌, List, [], ◌∷◌, ◌++◌, length, IfOk};
ghost use Rattle.bit_lists.specs.Bits.{AreBits};
ghost use Rattle.modem_ports.specs.Counts.{raised_by};
ghost use Rattle.rate_table.specs.declared.CodeRate.{CodeRate};
ghost use Rattle.survivor_memory.specs.Survivors.{AreEntries, DifferByAtMost};
ghost use Rattle.viterbi_lanes.specs.declared.Mark.{Mark};
ghost use Rattle.viterbi_lanes.specs.Decisions.{AreNearlyKeptCode, changes, marks_of};
ghost use Rattle.viterbi_lanes.specs.Marks.{IsNearestTo, StandsFor};

use branches::branch_costs;
use modem_ports::Steps;
use std::alloc::{AllocError, Global};
use std::marker::Model;
use survivor_memory::SurvivorMemory;

mod branches;
pub mod laws;
mod marks;

// The most that a pair of marks can cost.
const MOST_COST: u8 = 2;

/// One decision, or none where the place of the code is punctured (own).
#[derive(Clone, Copy, Debug, PartialEq, Eq)]
pub enum Mark {
    Zero,
    One,
    Absent,
}

/// The trellis of the code over the pairs of marks that it holds (own). Its entries are bytes, worked on as one vector.
/// Only `open` takes memory.
#[derive(Debug, Drop)]
pub struct Trellis {
    memory: SurvivorMemory,
}

impl Model for Trellis {
    ghost use Rattle.survivor_memory.specs.Survivors.{MemoryView};

    ghost Value = { MemoryView };

    ghost view = { λ t. t.memory };
}

impl Trellis {
    /// A trellis that holds no pairs, with room for `steps_max`, at most 32782. The only error is want of memory.
    pub fn open(alloc: Global, steps_max: usize) -> Result<Trellis, AllocError>
        requires { steps_max ≤ 32782 }
        ensures stands { IfOk result (λ trellis. StandsFor trellis []) }
        ensures entries { IfOk result (λ trellis. AreEntries trellis.entries) }
        ensures room { IfOk result (λ trellis. trellis.room ≡ steps_max) }
    {
        Ok(Trellis {
            memory: SurvivorMemory::open(alloc, steps_max)?,
        })
    }

    /// Empties it. Takes no memory.
    pub fn start(&mut self)
        ensures stands { StandsFor self.new [] }
        ensures entries { AreEntries self.new.entries }
        ensures room { self.new.room ≡ self.old.room }
    {
        self.memory.start();
    }

    /// Appends one pair of marks, for A and for B; there is room for it. The count of steps rises by one. Takes no
    /// memory.
    #[inline(always)]
    pub fn step(&mut self, a: Mark, b: Mark, steps: &mut Steps)
        requires { length self.old.rows < self.old.room }
        ensures appended { (marks : List (Mark × Mark)) → StandsFor self.old marks
            → StandsFor self.new (marks ++ (a, b) ∷ []) }
        ensures counted { steps.new ≡ raised_by 1 steps.old }
        ensures held { length self.new.rows ≡ length self.old.rows + 1 }
        ensures entries { AreEntries self.new.entries }
        ensures differ { (marks : List (Mark × Mark)) → StandsFor self.new marks → 6 ≤ length marks
            → DifferByAtMost 12 self.new.entries }
        ensures room { self.new.room ≡ self.old.room }
    {
        steps.tick();
        self.memory.step(branch_costs(a, b), MOST_COST);
    }

    // Appends two pairs of marks.
    #[inline(always)]
    fn two_steps(&mut self, first: (Mark, Mark), second: (Mark, Mark), steps: &mut Steps)
        requires room { length self.old.rows + 2 ≤ self.old.room }
        ensures appended { (marks : List (Mark × Mark)) → StandsFor self.old marks
            → StandsFor self.new (marks ++ first ∷ second ∷ []) }
        ensures held { length self.new.rows ≡ length self.old.rows + 2 }
        ensures entries { AreEntries self.new.entries }
        ensures room { self.new.room ≡ self.old.room }
        ensures counted { steps.new ≡ raised_by 2 steps.old }
    {
        steps.tick();
        steps.tick();
        self.memory.two_steps(
            branch_costs(first.0, first.1),
            branch_costs(second.0, second.1),
            MOST_COST,
        );
    }

    // Appends three pairs of marks.
    #[inline(always)]
    fn three_steps(
        &mut self,
        first: (Mark, Mark),
        second: (Mark, Mark),
        third: (Mark, Mark),
        steps: &mut Steps,
    )
        requires room { length self.old.rows + 3 ≤ self.old.room }
        ensures appended { (marks : List (Mark × Mark)) → StandsFor self.old marks
            → StandsFor self.new (marks ++ first ∷ second ∷ third ∷ []) }
        ensures held { length self.new.rows ≡ length self.old.rows + 3 }
        ensures entries { AreEntries self.new.entries }
        ensures room { self.new.room ≡ self.old.room }
        ensures counted { steps.new ≡ raised_by 3 steps.old }
    {
        steps.tick();
        steps.tick();
        steps.tick();
        self.memory.three_steps(
            branch_costs(first.0, first.1),
            branch_costs(second.0, second.1),
            branch_costs(third.0, third.1),
            MOST_COST,
        );
    }

    /// Writes the nearest list for the pairs held, at least 6, one bit into each place of `out`, which has one for each
    /// pair. Answers its distance. The trellis holds no pairs afterwards. Takes no memory.
    pub fn finish(&mut self, out: &mut [u8]) -> u32
        requires enough { 6 ≤ length self.old.rows }
        requires places { length out.old ≡ length self.old.rows }
        ensures nearest { (marks : List (Mark × Mark)) → StandsFor self.old marks
            → IsNearestTo marks out.new result }

        // a list that ends in six zeros, of whose kept code few bits were changed, is found again
        ensures found_again { (rate : CodeRate) (steps : ℕ) (u decisions : List ℕ)
            → StandsFor self.old (marks_of rate decisions steps)
            → AreNearlyKeptCode rate steps u decisions
            → (out.new ≡ u) × (result ≡ changes rate steps u decisions) }

        // whatever it stood for
        ensures bits { AreBits out.new }
        ensures stands { StandsFor self.new [] }
        ensures entries { AreEntries self.new.entries }
        ensures room { self.new.room ≡ self.old.room }
    {
        self.memory.finish(out)
    }

    /// How many pairs it holds. Takes no memory.
    pub fn held(&self) -> usize
        ensures { result ≡ length self.now.rows }
    {
        self.memory.held()
    }

    /// The `steps_max` of `open`. Takes no memory.
    pub fn room(&self) -> usize
        ensures { result ≡ self.now.room }
    {
        self.memory.room()
    }
}

#[cfg(test)]
mod tests;
