//! A step over the 64 states, as lanes. State s has the predecessors s / 2, the lower, and s / 2 + 32, the higher.
ghost use Rattle.std.specs.Prelude.{◌≡◌, ◌≢◌, ◌==◌, ℕ, ◌+◌, ◌-◌, ◌*◌, ◌/◌, ◌%◌, ◌<◌, ◌≤◌, ◌⊎◌, min, slice_index, if◌then◌else◌, IfNone, IfSome};
ghost use Rattle.std.specs.Int.{bit_at};
ghost use Rattle.conv_code.specs.States.{branch_a, branch_b};
ghost use Rattle.survivor_memory.specs.Costs.{price, IsLight};
ghost use Rattle.survivor_memory.specs.Survivors.{AreEntries, AreLowered, AreNextEntries, HasEntryAtMost};

use crate::PairCosts;
use std::simd::prelude::*;

// The code's A on the branch into each state from its lower predecessor; from the higher one it is the other bit.
const A_FROM_LOWER: [u8; 64] = [
    0, 1, 0, 1, 1, 0, 1, 0, 1, 0, 1, 0, 0, 1, 0, 1, 0, 1, 0, 1, 1, 0, 1, 0, 1, 0, 1, 0, 0, 1, 0, 1,
    1, 0, 1, 0, 0, 1, 0, 1, 0, 1, 0, 1, 1, 0, 1, 0, 1, 0, 1, 0, 0, 1, 0, 1, 0, 1, 0, 1, 1, 0, 1, 0,
];

// The same of B.
const B_FROM_LOWER: [u8; 64] = [
    0, 1, 1, 0, 1, 0, 0, 1, 1, 0, 0, 1, 0, 1, 1, 0, 0, 1, 1, 0, 1, 0, 0, 1, 1, 0, 0, 1, 0, 1, 1, 0,
    0, 1, 1, 0, 1, 0, 0, 1, 1, 0, 0, 1, 0, 1, 1, 0, 0, 1, 1, 0, 1, 0, 0, 1, 1, 0, 0, 1, 0, 1, 1, 0,
];

/// What the branch into each state from its lower predecessor costs.
pub fn branches_from_lower(costs: PairCosts) -> u8x64
    requires { IsLight costs }
    ensures { (s : ℕ) → s < 64
        → slice_index result s ≡ price costs (branch_a (s / 2) (s % 2)) (branch_b (s / 2) (s % 2)) }
{
    let first = chosen(
        u8x64::from_array(A_FROM_LOWER),
        costs.first_zero,
        costs.first_one,
    );
    let second = chosen(
        u8x64::from_array(B_FROM_LOWER),
        costs.second_zero,
        costs.second_one,
    );
    first + second
}

/// What the branch into each state from its higher predecessor costs.
pub fn branches_from_higher(costs: PairCosts) -> u8x64
    requires { IsLight costs }
    ensures { (s : ℕ) → s < 64
        → slice_index result s
        ≡ price costs (branch_a (s / 2 + 32) (s % 2)) (branch_b (s / 2 + 32) (s % 2)) }
{
    let first = chosen(
        u8x64::from_array(A_FROM_LOWER),
        costs.first_one,
        costs.first_zero,
    );
    let second = chosen(
        u8x64::from_array(B_FROM_LOWER),
        costs.second_one,
        costs.second_zero,
    );
    first + second
}

// One number where a bit is 0, and another where it is 1.
fn chosen(bits: u8x64, zero: u8, one: u8) -> u8x64
    ensures { (s : ℕ) → s < 64
        → slice_index result s ≡ (if slice_index bits s == 0 then zero else one) }
{
    bits.simd_eq(u8x64::splat(0))
        .select(u8x64::splat(zero), u8x64::splat(one))
}

/// The entries of each state's lower and higher predecessors.
pub fn predecessors(entries: u8x64) -> (u8x64, u8x64)
    ensures lower { (s : ℕ) → s < 64 → slice_index result.0 s ≡ slice_index entries (s / 2) }
    ensures higher { (s : ℕ) → s < 64 → slice_index result.1 s ≡ slice_index entries (s / 2 + 32) }
{
    entries.interleave(entries)
}

/// Lane by lane, a sum that is held at 255.
pub fn sums(entries: u8x64, costs: u8x64) -> u8x64
    ensures { (s : ℕ) → s < 64
        → slice_index result s ≡ min 255 (slice_index entries s + slice_index costs s) }
{
    entries.saturating_add(costs)
}

/// A number with a bit for each lane, which is set where two differ.
pub fn differing(first: u8x64, second: u8x64) -> u64
    ensures set { (s : ℕ) → s < 64 → slice_index first s ≢ slice_index second s
        → bit_at result s ≡ 1 }
    ensures clear { (s : ℕ) → s < 64 → slice_index first s ≡ slice_index second s
        → bit_at result s ≡ 0 }
{
    !first.simd_eq(second).to_bitmask()
}

/// Lane by lane, the lesser of two.
pub fn lesser(first: u8x64, second: u8x64) -> u8x64
    ensures { (s : ℕ) → s < 64
        → slice_index result s ≡ min (slice_index first s) (slice_index second s) }
{
    first.simd_min(second)
}

/// The entries one pair on, by the costs of its branches from each state's lower and higher predecessor; and a number with
/// a bit for each state, which is 1 where the sum through the higher one is less.
#[inline(always)]
pub fn next_entries(entries: u8x64, from_lower: u8x64, from_higher: u8x64) -> (u8x64, u64)
    ensures { AreNextEntries entries from_lower from_higher result.0 result.1 }
{
    let (lower, higher) = predecessors(entries);
    let lower = sums(lower, from_lower);
    let higher = sums(higher, from_higher);
    let best = lesser(lower, higher);
    (best, differing(lower, best))
}

/// Takes the least of the entries off all of them but 255, where all are above a limit. Answers the entries, and how much
/// that is, so 0 where some entry is at most the limit.
#[inline(always)]
pub fn lower_above(entries: u8x64, limit: u8) -> (u8x64, u8)
    ensures lowered { AreLowered entries result.1 result.0 }
    ensures entries { AreEntries result.0 }
    ensures none { HasEntryAtMost limit entries → result.1 ≡ 0 }
    ensures low { HasEntryAtMost limit entries
        ⊎ ((s : ℕ) × (s < 64) × (slice_index entries s ≡ result.1)) }
{
    match least_above(entries, limit) {
        None => (entries, 0),
        Some(least) => (lowered(entries, least), least),
    }
}

/// The same, of entries that it puts into `out`. Answers how much it took off, and nothing where some entry is at most the
/// limit.
#[inline(always)]
pub fn put_lowered(entries: u8x64, limit: u8, out: &mut [u8; 64]) -> Option<u8>
    ensures lowered { IfSome result (λ least. AreLowered entries least out.new) }
    ensures kept { IfNone result (out.new ≡ entries) }
    ensures entries { AreEntries out.new }
    ensures found { IfSome result (λ least. (s : ℕ) × (s < 64) × (slice_index entries s ≡ least)) }
    ensures above { IfSome result (λ least. limit < least) }
    ensures none { IfNone result (HasEntryAtMost limit entries) }
{
    *out = entries.to_array();
    let least = least_above(entries, limit)?;
    *out = lowered(entries, least).to_array();
    Some(least)
}

// The least of the entries, where it is above a limit.
#[inline(always)]
fn least_above(entries: u8x64, limit: u8) -> Option<u8>
    ensures least { IfSome result (λ least. (s : ℕ) → s < 64 → least ≤ slice_index entries s) }
    ensures found { IfSome result (λ least. (s : ℕ) × (s < 64) × (slice_index entries s ≡ least)) }
    ensures above { IfSome result (λ least. limit < least) }
    ensures none { IfNone result (HasEntryAtMost limit entries) }
{
    // most often the first is low
    if entries.to_array()[0] <= limit {
        return None;
    }
    let least = least_of(entries);
    if least <= limit { None } else { Some(least) }
}

// The least of the entries, by halves.
fn least_of(entries: u8x64) -> u8
    ensures least { (s : ℕ) → s < 64 → result ≤ slice_index entries s }
    ensures found { (s : ℕ) × (s < 64) × (slice_index entries s ≡ result) }
{
    let of_two = lesser(entries, entries.rotate_elements_left::<32>());
    let of_four = lesser(of_two, of_two.rotate_elements_left::<16>());
    let of_8 = lesser(of_four, of_four.rotate_elements_left::<8>());
    let of_16 = lesser(of_8, of_8.rotate_elements_left::<4>());
    let of_32 = lesser(of_16, of_16.rotate_elements_left::<2>());
    lesser(of_32, of_32.rotate_elements_left::<1>()).to_array()[0]
}

// Lane by lane, a number less, but for 255, which stays.
fn lowered(entries: u8x64, by: u8) -> u8x64
    requires { (s : ℕ) → s < 64 → by ≤ slice_index entries s }
    ensures { AreLowered entries by result }
{
    let is_full = entries.simd_eq(u8x64::splat(255));
    is_full.select(entries, entries - u8x64::splat(by))
}
