//! The transform of 64 pairs, up and down, in staged whole numbers (own). No call takes memory.
#![tactic(auto)]

ghost use Rattle.std.specs.Prelude.{◌≡◌, ℕ, ◌+◌, ◌-◌, ◌*◌, ◌^◌, ◌<◌, ◌≤◌, length, true};
ghost use Rattle.fixed_complex.specs.Pairs.{IsOfSize, IsWithin, conjugate, plus, minus, scaled_product};
ghost use Rattle.fixed_complex.specs.Turns.{turn_at};
ghost use Rattle.butterfly64.specs.StagedSums.{up_at, down_at, up_sums, down_sums};
ghost use Rattle.fixed_complex.specs.PairLists.{entry, PairsWithin, PairsOfSize};
ghost use Rattle.butterfly64.specs.MirrorOrder.{mirror_of};
ghost use Rattle.butterfly64.specs.Rows.{RowsOfSize, place_in};

use crate::many_eights::{down_eights, eights, pairs, up_eights};
use crate::stages::{join_rows, part_rows, row_pairs};
use fixed_complex::{Cx, add, conj, scaled, sub, turn};

mod eights;
mod lane_turns;
mod lanes;
pub mod laws;
mod many_eights;
mod row_turns;
mod rows;
mod stages;

pub use rows::Row;
pub use stages::rows_of;

/// The staged sums `up` of 64 pairs whose components are at most 2^30 in size: at place n about the sum over c of
/// x(c) * T[c*n] / 2^20, rounded at each of six joins (own). Works in lanes. Takes no memory.
pub fn up(x: &[Cx; 64]) -> [Cx; 64]
    requires { PairsWithin (2 ^ 30) x.now }
    ensures sums { result ≡ up_sums x.now }
    ensures sizes { (a : ℕ) → a ≤ 2 ^ 31 → PairsOfSize a x.now → PairsOfSize (65 * a + 256) result }
    ensures within { PairsWithin (2 ^ 40 - 1) result }
{
    if are_small(x) {
        up_words(x)
    } else {
        up_wide(x)
    }
}

/// The same as `up`, of 64 pairs that are at most 2^24 in size. Works in lanes of 32 bits. Takes no memory.
pub fn up_words(x: &[Cx; 64]) -> [Cx; 64]
    requires { PairsOfSize (2 ^ 24) x.now }
    ensures sums { result ≡ up_sums x.now }
    ensures within { PairsWithin (2 ^ 31 - 1) result }
{
    let mut rows = rows_of(x);
    up_rows(&mut rows);
    row_pairs(&rows)
}

/// Replaces 64 pairs of words in eight rows, at most 2^24 in size, by their staged sums `up`. Works in lanes of 32 bits.
/// Takes no memory.
pub fn up_rows(rows: &mut [Row; 8])
    requires { RowsOfSize (2 ^ 24) rows.old }
    ensures sums { (n : ℕ) → n < 64 → place_in rows.new n ≡ up_at 6 (place_in rows.old) n }
    ensures sizes { RowsOfSize (65 * 2 ^ 24 + 256) rows.new }
{
    let mut odd = *rows;
    join_rows(rows, &mut odd, 0);
    join_rows(&odd, rows, 1);
    join_rows(rows, &mut odd, 2);
    join_rows(&odd, rows, 3);
    join_rows(rows, &mut odd, 4);
    join_rows(&odd, rows, 5);
}

/// The staged sums `down` of 64 pairs whose components are at most 2^30 in size: at place c about the sum over n of
/// x(n) * conj T[c*n] / 2^20, rounded at each of six joins (own). Works in lanes. Takes no memory.
pub fn down(x: &[Cx; 64]) -> [Cx; 64]
    requires { PairsWithin (2 ^ 30) x.now }
    ensures sums { result ≡ down_sums x.now }
    ensures sizes { (a : ℕ) → a ≤ 2 ^ 31 → PairsOfSize a x.now → PairsOfSize (65 * a + 256) result }
    ensures within { PairsWithin (2 ^ 40 - 1) result }
{
    if are_small(x) {
        down_words(x)
    } else {
        down_wide(x)
    }
}

/// The same as `down`, of 64 pairs that are at most 2^24 in size. Works in lanes of 32 bits. Takes no memory.
pub fn down_words(x: &[Cx; 64]) -> [Cx; 64]
    requires { PairsOfSize (2 ^ 24) x.now }
    ensures sums { result ≡ down_sums x.now }
    ensures within { PairsWithin (2 ^ 31 - 1) result }
{
    let mut rows = rows_of(x);
    down_rows(&mut rows);
    row_pairs(&rows)
}

/// Replaces 64 pairs of words in eight rows, at most 2^24 in size, by their staged sums `down`. Works in lanes of 32 bits.
/// Takes no memory.
pub fn down_rows(rows: &mut [Row; 8])
    requires { RowsOfSize (2 ^ 24) rows.old }
    ensures sums { (n : ℕ) → n < 64 → place_in rows.new n ≡ down_at 6 (place_in rows.old) n }
    ensures sizes { RowsOfSize (65 * 2 ^ 24 + 256) rows.new }
{
    let mut odd = *rows;
    part_rows(rows, &mut odd, 0);
    part_rows(&odd, rows, 1);
    part_rows(rows, &mut odd, 2);
    part_rows(&odd, rows, 3);
    part_rows(rows, &mut odd, 4);
    part_rows(&odd, rows, 5);
}

/// The same as `up`, pair by pair without lanes. Takes no memory.
pub fn up_scalar(x: &[Cx; 64]) -> [Cx; 64]
    requires { PairsWithin (2 ^ 30) x.now }
    ensures sums { result ≡ up_sums x.now }
    ensures sizes { (a : ℕ) → a ≤ 2 ^ 31 → PairsOfSize a x.now → PairsOfSize (65 * a + 256) result }
    ensures within { PairsWithin (2 ^ 40 - 1) result }
{
    let mut sums = in_mirror_order(x);
    up_in_place(&mut sums, 6);
    sums
}

/// The same as `down`, pair by pair without lanes. Takes no memory.
pub fn down_scalar(x: &[Cx; 64]) -> [Cx; 64]
    requires { PairsWithin (2 ^ 30) x.now }
    ensures sums { result ≡ down_sums x.now }
    ensures sizes { (a : ℕ) → a ≤ 2 ^ 31 → PairsOfSize a x.now → PairsOfSize (65 * a + 256) result }
    ensures within { PairsWithin (2 ^ 40 - 1) result }
{
    let mut sums = *x;
    down_in_place(&mut sums, 6);
    in_mirror_order(&sums)
}

// The same as `up`, in lanes of 64 bits.
fn up_wide(x: &[Cx; 64]) -> [Cx; 64]
    requires { PairsWithin (2 ^ 30) x.now }
    ensures { result ≡ up_sums x.now }
{
    let mut sums = eights(&in_mirror_order(x));
    up_eights(&mut sums, 3);
    pairs(&sums)
}

// The same as `down`, in lanes of 64 bits.
fn down_wide(x: &[Cx; 64]) -> [Cx; 64]
    requires { PairsWithin (2 ^ 30) x.now }
    ensures { result ≡ down_sums x.now }
{
    let mut sums = eights(x);
    down_eights(&mut sums, 3);
    in_mirror_order(&pairs(&sums))
}

// Whether all components are from -2^23 to 2^23 - 1, so that words hold the staged sums.
fn are_small(x: &[Cx; 64]) -> bool
    requires { PairsWithin (2 ^ 30) x.now }
    ensures { result ≡ true → PairsOfSize (2 ^ 24) x.now }
{
    let mut bits = 0;
    for n in 0..64 {
        bits |= bits_of(x[n]);
    }
    bits < 1 << 24
}

// The bits of both components and 2^23, which are below 2^24 where both are from -2^23 to 2^23 - 1.
#[inline(always)]
fn bits_of(pair: Cx) -> u64
    requires { IsWithin (2 ^ 30) pair }
    ensures { result < 2 ^ 24 → IsWithin (2 ^ 23) pair }
{
    (pair.re + (1 << 23)).cast_unsigned() | (pair.im + (1 << 23)).cast_unsigned()
}

// The pairs in mirror order.
fn in_mirror_order(x: &[Cx; 64]) -> [Cx; 64]
    ensures { (n : ℕ) → n < 64 → entry result n ≡ entry x.now (mirror_of 6 n) }
{
    let mut mirrored = *x;
    for n in 0..64 {
        mirrored[n] = x[mirror(n)];
    }
    mirrored
}

// The place that a place's six bits name in backward order.
fn mirror(place: usize) -> usize
    requires { place < 64 }
    ensures value { result ≡ mirror_of 6 place }
    ensures place { result < 64 }
{
    (place as u8).reverse_bits() as usize >> 2
}

// Replaces 2^level pairs in mirror order by their staged sums `up`.
fn up_in_place(x: &mut [Cx], level: usize)
    requires level { level ≤ 6 }
    requires length { length x.old ≡ 2 ^ level }
    requires sizes { PairsOfSize (2 ^ 31) x.old }
    ensures { (n : ℕ) → n < 2 ^ level
        → entry x.new n ≡ up_at level (λ m. entry x.old (mirror_of level m)) n }
{
    if level > 0 {
        let half = x.len() / 2;
        let (evens, odds) = x.split_at_mut(half);
        up_in_place(evens, level - 1);
        up_in_place(odds, level - 1);
        join(evens, odds, 32 / half);
    }
}

// Replaces 2^level pairs by their staged sums `down` in mirror order.
fn down_in_place(x: &mut [Cx], level: usize)
    requires level { level ≤ 6 }
    requires length { length x.old ≡ 2 ^ level }
    requires sizes { PairsOfSize (2 ^ 31 * 3 ^ (6 - level)) x.old }
    ensures { (n : ℕ) → n < 2 ^ level
        → entry x.new (mirror_of level n) ≡ down_at level (entry x.old) n }
{
    if level > 0 {
        let half = x.len() / 2;
        let (first, last) = x.split_at_mut(half);
        part(first, last, 32 / half);
        down_in_place(first, level - 1);
        down_in_place(last, level - 1);
    }
}

// Joins the sums of the even places with those of the odd ones.
fn join(evens: &mut [Cx], odds: &mut [Cx], step: usize)
    requires lengths { length evens.old ≡ length odds.old }
    requires step { step * length evens.old ≤ 64 }
    requires evens { PairsOfSize (2 ^ 39) evens.old }
    requires odds { PairsOfSize (2 ^ 39) odds.old }
    ensures first { (j : ℕ) → j < length evens.old → entry evens.new j
        ≡ plus (entry evens.old j) (scaled_product (turn_at (step * j)) (entry odds.old j)) }
    ensures last { (j : ℕ) → j < length odds.old → entry odds.new j
        ≡ minus (entry evens.old j) (scaled_product (turn_at (step * j)) (entry odds.old j)) }
{
    for j in 0..evens.len() {
        let (sum, difference) = joined(evens[j], odds[j], step * j);
        evens[j] = sum;
        odds[j] = difference;
    }
}

// Parts two halves into their sums and their differences, turned back.
fn part(first: &mut [Cx], last: &mut [Cx], step: usize)
    requires lengths { length first.old ≡ length last.old }
    requires step { step * length first.old ≤ 64 }
    requires first { PairsOfSize (2 ^ 39) first.old }
    requires last { PairsOfSize (2 ^ 39) last.old }
    ensures sums { (j : ℕ) → j < length first.old → entry first.new j
        ≡ plus (entry first.old j) (entry last.old j) }
    ensures differences { (j : ℕ) → j < length last.old → entry last.new j
        ≡ scaled_product (conjugate (turn_at (step * j)))
        (minus (entry first.old j) (entry last.old j)) }
{
    for j in 0..first.len() {
        let (sum, difference) = parted(first[j], last[j], step * j);
        first[j] = sum;
        last[j] = difference;
    }
}

// The sum and the difference of a pair and the m-th turn of another.
fn joined(even: Cx, odd: Cx, m: usize) -> (Cx, Cx)
    requires even { IsOfSize (2 ^ 39) even }
    requires odd { IsOfSize (2 ^ 39) odd }
    ensures sum { result.0 ≡ plus even (scaled_product (turn_at m) odd) }
    ensures difference { result.1 ≡ minus even (scaled_product (turn_at m) odd) }
{
    let turned = scaled(turn(m), odd);
    (add(even, turned), sub(even, turned))
}

// The sum of two pairs, and their difference turned back by the m-th turn.
fn parted(first: Cx, last: Cx, m: usize) -> (Cx, Cx)
    requires first { IsOfSize (2 ^ 39) first }
    requires last { IsOfSize (2 ^ 39) last }
    ensures sum { result.0 ≡ plus first last }
    ensures difference { result.1 ≡ scaled_product (conjugate (turn_at m)) (minus first last) }
{
    (add(first, last), scaled(conj(turn(m)), sub(first, last)))
}

#[cfg(test)]
mod tests;
