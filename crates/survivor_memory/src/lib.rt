//! The survivors of the 64 states of the code of rate 1/2 (IEEE Std 802.11-2012, 18.3.5.6), over pairs of marks of any
//! costs, and the nearest list that they lead to.
#![tactic(auto)]

ghost use Rattle.std.specs.Prelude.{◌≡◌, ℕ, ◌+◌, ◌*◌, ◌<◌, ◌≤◌, ◌^◌, List, [], ◌∷◌, ◌++◌, length, replicate, IfOk};
ghost use Rattle.bit_lists.specs.Bits.{AreBits};
ghost use Rattle.survivor_memory.specs.declared.PairCosts.{PairCosts};
ghost use Rattle.survivor_memory.specs.Costs.{AreBranchCosts, CostAtMost, IsLight, both_costs, most_cost};
ghost use Rattle.survivor_memory.specs.Nearest.{IsNearest};
ghost use Rattle.survivor_memory.specs.Survivors.{AreEntries, DifferByAtMost, Holds, followed};

use std::alloc::{AllocError, Global};
use std::marker::Model;
use std::simd::prelude::*;

mod lanes;
pub mod laws;

/// What a pair of marks costs: its first mark, for A, and its second, for B, each at the bit 0 and at the bit 1 (own).
#[derive(Clone, Copy, Debug, PartialEq, Eq)]
pub struct PairCosts {
    pub first_zero: u8,
    pub first_one: u8,
    pub second_zero: u8,
    pub second_one: u8,
}

/// What a pair of marks costs on the two branches into each state s (own): from its lower predecessor, s / 2, and from its
/// higher, s / 2 + 32.
#[derive(Clone, Copy, Debug)]
pub struct BranchCosts {
    pub lower: [u8; 64],
    pub higher: [u8; 64],
}

impl BranchCosts {
    /// The branches of a pair of which seven cost less than 255. Takes no memory.
    pub fn of(costs: PairCosts) -> BranchCosts
        requires { IsLight costs }
        ensures { AreBranchCosts costs result }
    {
        BranchCosts {
            lower: lanes::branches_from_lower(costs).to_array(),
            higher: lanes::branches_from_higher(costs).to_array(),
        }
    }
}

/// The survivors of the 64 states, over the pairs of marks that it holds (own).
///
/// The entry of a state and the base are the least cost of the lists that lead to it; the entry 255 stands for a state
/// that no list leads to. What all entries have in common moves into the base before a sum could reach 255. A pair that is
/// held has a row of back bits, one for each state. Only `open` takes memory.
#[derive(Debug, Drop)]
pub struct SurvivorMemory {
    entries: [u8; 64],
    base: u32,
    rows: Vec<u64>,
    held: usize,
}

impl Model for SurvivorMemory {
    ghost use Rattle.std.specs.Prelude.{◌≤◌, ◌*◌, ◌^◌, take, vec_len};
    ghost use Rattle.survivor_memory.specs.Survivors.{MemoryView};

    ghost Value = { MemoryView };

    ghost view = { λ m. record {
      entries = m.entries;
      base = m.base;
      rows = take m.held m.rows.items;
      room = vec_len m.rows;
    } };

    ghost invariant = { λ m. (m.held ≤ vec_len m.rows) × (vec_len m.rows ≤ 2 ^ 20) × (m.base ≤ 255 * m.held) };
}

impl SurvivorMemory {
    /// A memory that holds no pairs, with room for so many, at most 2^20. The only error is want of memory.
    pub fn open(alloc: Global, room: usize) -> Result<SurvivorMemory, AllocError>
        requires { room ≤ 2 ^ 20 }
        ensures holds { (most : ℕ) → IfOk result (λ memory. Holds most memory []) }
        ensures empty { IfOk result (λ memory. length memory.rows ≡ 0) }
        ensures entries { IfOk result (λ memory. AreEntries memory.entries) }
        ensures room { IfOk result (λ memory. memory.room ≡ room) }
    {
        Ok(SurvivorMemory {
            entries: entries_at_start(),
            base: 0,
            rows: vec![in alloc; 0u64; room]?,
            held: 0,
        })
    }

    /// Empties it. Takes no memory.
    pub fn start(&mut self)
        ensures holds { (most : ℕ) → Holds most self.new [] }
        ensures empty { length self.new.rows ≡ 0 }
        ensures entries { AreEntries self.new.entries }
        ensures room { self.new.room ≡ self.old.room }
    {
        self.entries = entries_at_start();
        self.base = 0;
        self.held = 0;
    }

    /// Appends one pair, by what its branches cost. No pair held costs more than `most`, of which seven are less than 255.
    /// There is room for it. Takes no memory.
    #[inline(always)]
    pub fn step(&mut self, branches: &BranchCosts, most: u8)
        requires room { length self.old.rows < self.old.room }
        requires light { 7 * most < 255 }
        ensures appended { (pairs : List PairCosts) (costs : PairCosts)
            → AreBranchCosts costs branches.now → most_cost costs ≤ most → Holds most self.old pairs
            → Holds most self.new (pairs ++ costs ∷ []) }
        ensures held { length self.new.rows ≡ length self.old.rows + 1 }
        ensures entries { AreEntries self.new.entries }
        ensures differ { (pairs : List PairCosts) (bound : ℕ) → Holds most self.new pairs
            → CostAtMost bound pairs
            → 6 ≤ length pairs → DifferByAtMost (6 * bound) self.new.entries }
        ensures room { self.new.room ≡ self.old.room }
    {
        self.step_by(
            u8x64::from_array(branches.lower),
            u8x64::from_array(branches.higher),
            most,
        );
    }

    /// Appends one pair, by what the branches of its first and of its second mark cost: those of a pair cost the sum. Else
    /// as `step`. Takes no memory.
    #[inline(always)]
    pub fn step_of_two(&mut self, first: &BranchCosts, second: &BranchCosts, most: u8)
        requires room { length self.old.rows < self.old.room }
        requires light { 7 * most < 255 }
        ensures appended { (pairs : List PairCosts) (costs others : PairCosts)
            → AreBranchCosts costs first.now → AreBranchCosts others second.now
            → most_cost (both_costs costs others) ≤ most → Holds most self.old pairs
            → Holds most self.new (pairs ++ both_costs costs others ∷ []) }
        ensures held { length self.new.rows ≡ length self.old.rows + 1 }
        ensures entries { AreEntries self.new.entries }
        ensures differ { (pairs : List PairCosts) (bound : ℕ) → Holds most self.new pairs
            → CostAtMost bound pairs
            → 6 ≤ length pairs → DifferByAtMost (6 * bound) self.new.entries }
        ensures room { self.new.room ≡ self.old.room }
    {
        let lower = lanes::sums(
            u8x64::from_array(first.lower),
            u8x64::from_array(second.lower),
        );
        let higher = lanes::sums(
            u8x64::from_array(first.higher),
            u8x64::from_array(second.higher),
        );
        self.step_by(lower, higher, most);
    }

    // Appends one pair, by the costs of its branches as lanes.
    #[inline(always)]
    fn step_by(&mut self, from_lower: u8x64, from_higher: u8x64, most: u8)
        requires room { length self.old.rows < self.old.room }
        requires light { 7 * most < 255 }
        ensures appended { (pairs : List PairCosts) (costs : PairCosts)
            → AreBranchCosts costs (record { lower = from_lower; higher = from_higher })
            → most_cost costs ≤ most → Holds most self.old pairs
            → Holds most self.new (pairs ++ costs ∷ []) }
        ensures held { length self.new.rows ≡ length self.old.rows + 1 }
        ensures entries { AreEntries self.new.entries }
        ensures room { self.new.room ≡ self.old.room }
    {
        let entries = u8x64::from_array(self.entries);
        let (best, row) = lanes::next_entries(entries, from_lower, from_higher);
        let held = self.held;
        self.rows[held] = row;
        self.held = held + 1;
        if let Some(common) = lanes::put_lowered(best, 254 - 7 * most, &mut self.entries) {
            self.base += u32::from(common);
        }
    }

    /// Appends two pairs, each by what its branches cost. No pair held costs more than `most`, of which nine are less than
    /// 255. There is room for them. Takes no memory.
    #[inline(always)]
    pub fn two_steps(&mut self, first: &BranchCosts, second: &BranchCosts, most: u8)
        requires room { length self.old.rows + 2 ≤ self.old.room }
        requires light { 9 * most < 255 }
        ensures appended { (pairs : List PairCosts) (one two : PairCosts)
            → AreBranchCosts one first.now → AreBranchCosts two second.now
            → CostAtMost most (one ∷ two ∷ []) → Holds most self.old pairs
            → Holds most self.new (pairs ++ one ∷ two ∷ []) }
        ensures held { length self.new.rows ≡ length self.old.rows + 2 }
        ensures entries { AreEntries self.new.entries }
        ensures room { self.new.room ≡ self.old.room }
    {
        let entries = u8x64::from_array(self.entries);
        let (entries, common) = lanes::lower_above(entries, 254 - 9 * most);
        let (entries, first_row) = lanes::next_entries(
            entries,
            u8x64::from_array(first.lower),
            u8x64::from_array(first.higher),
        );
        let (entries, second_row) = lanes::next_entries(
            entries,
            u8x64::from_array(second.lower),
            u8x64::from_array(second.higher),
        );
        self.entries = entries.to_array();
        self.rows[self.held] = first_row;
        self.rows[self.held + 1] = second_row;
        self.held += 2;
        self.base += u32::from(common);
    }

    /// Appends three pairs, each by what its branches cost. No pair held costs more than `most`, of which ten are less than
    /// 255. There is room for them. Takes no memory.
    #[inline(always)]
    pub fn three_steps(
        &mut self,
        first: &BranchCosts,
        second: &BranchCosts,
        third: &BranchCosts,
        most: u8,
    )
        requires room { length self.old.rows + 3 ≤ self.old.room }
        requires light { 10 * most < 255 }
        ensures appended { (pairs : List PairCosts) (one two three : PairCosts)
            → AreBranchCosts one first.now → AreBranchCosts two second.now
            → AreBranchCosts three third.now
            → CostAtMost most (one ∷ two ∷ three ∷ []) → Holds most self.old pairs
            → Holds most self.new (pairs ++ one ∷ two ∷ three ∷ []) }
        ensures held { length self.new.rows ≡ length self.old.rows + 3 }
        ensures entries { AreEntries self.new.entries }
        ensures room { self.new.room ≡ self.old.room }
    {
        let entries = u8x64::from_array(self.entries);
        let (entries, common) = lanes::lower_above(entries, 254 - 10 * most);
        let (entries, first_row) = lanes::next_entries(
            entries,
            u8x64::from_array(first.lower),
            u8x64::from_array(first.higher),
        );
        let (entries, second_row) = lanes::next_entries(
            entries,
            u8x64::from_array(second.lower),
            u8x64::from_array(second.higher),
        );
        let (entries, third_row) = lanes::next_entries(
            entries,
            u8x64::from_array(third.lower),
            u8x64::from_array(third.higher),
        );
        self.entries = entries.to_array();
        self.rows[self.held] = first_row;
        self.rows[self.held + 1] = second_row;
        self.rows[self.held + 2] = third_row;
        self.held += 3;
        self.base += u32::from(common);
    }

    /// Writes the nearest list for the pairs held, at least 6, one bit into each place of `out`, which has one for each
    /// pair. Answers its cost. The memory holds no pairs afterwards. Takes no memory.
    pub fn finish(&mut self, out: &mut [u8]) -> u32
        requires enough { 6 ≤ length self.old.rows }
        requires places { length out.old ≡ length self.old.rows }
        ensures nearest { (pairs : List PairCosts) (most : ℕ) → Holds most self.old pairs
            → IsNearest pairs out.new result }

        // whatever it stood for
        ensures bits { AreBits out.new }
        ensures holds { (most : ℕ) → Holds most self.new [] }
        ensures empty { length self.new.rows ≡ 0 }
        ensures entries { AreEntries self.new.entries }
        ensures room { self.new.room ≡ self.old.room }
    {
        follow(&self.rows[..self.held], out);
        let cost = self.base + u32::from(self.entries[0]);
        self.start();
        cost
    }

    /// How many pairs it holds. Takes no memory.
    pub fn held(&self) -> usize
        ensures { result ≡ length self.now.rows }
    {
        self.held
    }

    /// How many pairs there is room for. Takes no memory.
    pub fn room(&self) -> usize
        ensures { result ≡ self.now.room }
    {
        self.rows.len()
    }
}

// The entries before any pair: only the empty list is there, and it leads to state 0.
fn entries_at_start() -> [u8; 64]
    ensures { result ≡ 0 ∷ replicate 63 255 }
{
    let mut entries = [255; 64];
    entries[0] = 0;
    entries
}

// Writes the list that rows of back bits give, followed from state 0 at their end.
fn follow(rows: &[u64], out: &mut [u8])
    requires { length out.old ≡ length rows.now }
    ensures written { out.new ≡ followed rows.now (length rows.now) 0 }
    ensures bits { AreBits out.new }
{
    let mut state = 0u64;
    for place in (0..rows.len()).rev() {
        out[place] = (state % 2) as u8;
        let back = (rows[place] >> state) % 2;
        state = state / 2 + 32 * back;
    }
}

#[cfg(test)]
mod tests;
