//! The six stages of `up` and of `down` over eight rows of words.
ghost use Rattle.std.specs.Prelude.{◌≡◌, ℕ, ◌+◌, ◌-◌, ◌*◌, ◌/◌, ◌%◌, ◌^◌, ◌<◌, ◌≤◌};
ghost use Rattle.fixed_complex.specs.Numbers.{NumbersWithin, number_at};
ghost use Rattle.fixed_complex.specs.PairLists.{PairsWithin, entry};
ghost use Rattle.fixed_complex.specs.Pairs.{conjugate, minus, scaled_product};
ghost use Rattle.butterfly64.specs.StagedSums.{stage_turn};
ghost use Rattle.butterfly64.specs.Rows.{IsJoined, IsParted, RowOfSize, RowsOfSize, apart, first_read, place_in, place_of_two, row_lane};

use crate::row_turns::{PART_TURNS, ROW_TURNS};
use crate::rows::{
    Row, difference_row, joined_row, narrowed, quartered_difference_row, quartered_row, sum_row,
    turned_back_row, turned_row, widened,
};
use fixed_complex::Cx;
use std::simd::prelude::*;

// A stage of `up`: each of its 32 joins gives a sum and, 32 places further, a difference.
#[inline(always)]
pub(crate) fn join_rows(x: &[Row; 8], y: &mut [Row; 8], stage: usize)
    requires stage { stage < 6 }
    requires sizes { RowsOfSize (2 ^ 30 - 2 ^ 12) x.now }
    ensures { IsJoined stage (place_in x.now) (place_in y.new) }
{
    for p in 0..4 {
        let (first, second) = read_rows(x, stage, p);
        let (sums, differences) = joined_row(&first, &turned_seconds(&second, stage, p));
        y[p] = sums;
        y[p + 4] = differences;
    }
}

// The second pairs that a stage of `up` joins for places 8p to 8p + 7, turned. The first stage turns none of them, and the next
// one half of them by a quarter.
#[inline(always)]
fn turned_seconds(second: &Row, stage: usize, p: usize) -> Row
    requires stage { stage < 6 }
    requires p { p < 4 }
    requires second { RowOfSize (2 ^ 30 - 2 ^ 12) second.now }
    ensures value { (l : ℕ) → l < 8 → row_lane result l
        ≡ scaled_product (stage_turn stage ((8 * p + l) / apart stage)) (row_lane second.now l) }
    ensures re { NumbersWithin (2 ^ 30 - 1) result.re }
    ensures im { NumbersWithin (2 ^ 30 - 1) result.im }
{
    match stage {
        0 => *second,
        1 => quartered_row(second, p),
        _ => turned_row(&ROW_TURNS[4 * stage + p], second),
    }
}

// A stage of `down`: for each of 32 pairs of pairs their sum and, 32 places further, their difference, turned back.
#[inline(always)]
pub(crate) fn part_rows(x: &[Row; 8], y: &mut [Row; 8], stage: usize)
    requires stage { stage < 6 }
    requires sizes { RowsOfSize (2 ^ 29 + 2 ^ 14) x.now }
    ensures { IsParted stage (place_in x.now) (place_in y.new) }
{
    for p in 0..4 {
        let (first, last) = read_rows(x, stage, p);
        y[p] = sum_row(&first, &last);
        y[p + 4] = turned_differences(&first, &last, stage, p);
    }
}

// The differences that a stage of `down` puts to places 32 + 8p to 32 + 8p + 7, turned back. The last stage turns none of them,
// and the one before it each other one by a quarter.
#[inline(always)]
fn turned_differences(first: &Row, last: &Row, stage: usize, p: usize) -> Row
    requires first { RowOfSize (2 ^ 29 + 2 ^ 14) first.now }
    requires last { RowOfSize (2 ^ 29 + 2 ^ 14) last.now }
    requires stage { stage < 6 }
    requires p { p < 4 }
    ensures { (l : ℕ) → l < 8 → row_lane result l
        ≡ scaled_product (conjugate (stage_turn (5 - stage) ((8 * p + l) % apart stage)))
        (minus (row_lane first.now l) (row_lane last.now l)) }
{
    match stage {
        5 => difference_row(first, last),
        4 => quartered_difference_row(first, last),
        _ => turned_back_row(&PART_TURNS[4 * stage + p], &difference_row(first, last)),
    }
}

// The first and the second pairs that a stage joins for places 8p to 8p + 7.
#[inline(always)]
fn read_rows(x: &[Row; 8], stage: usize, p: usize) -> (Row, Row)
    requires stage { stage < 6 }
    requires p { p < 4 }
    requires sizes { RowsOfSize (2 ^ 30 - 2 ^ 12) x.now }
    ensures first { (l : ℕ) → l < 8 → row_lane result.0 l ≡ place_in x.now (first_read stage (8 * p + l)) }
    ensures second { (l : ℕ) → l < 8
        → row_lane result.1 l ≡ place_in x.now (first_read stage (8 * p + l) + apart stage) }
{
    match stage {
        0 => (x[p], x[p + 4]),
        1 => (x[p / 2 * 4 + p % 2], x[p / 2 * 4 + p % 2 + 2]),
        2 => (x[2 * p], x[2 * p + 1]),
        3 => four_apart(&x[2 * p], &x[2 * p + 1]),
        4 => two_apart(&x[2 * p], &x[2 * p + 1]),
        _ => one_apart(&x[2 * p], &x[2 * p + 1]),
    }
}

// Of two rows the lower and the upper pairs of those that stand four places apart.
#[inline(always)]
fn four_apart(a: &Row, b: &Row) -> (Row, Row)
    requires a { RowOfSize (2 ^ 30 - 2 ^ 12) a.now }
    requires b { RowOfSize (2 ^ 30 - 2 ^ 12) b.now }
    ensures lower { (l : ℕ) → l < 8 → row_lane result.0 l ≡ place_of_two a.now b.now (l + 4 * (l / 4)) }
    ensures upper { (l : ℕ) → l < 8
        → row_lane result.1 l ≡ place_of_two a.now b.now (l + 4 * (l / 4) + 4) }
{
    let (a_re, a_im) = (i32x8::from_array(a.re), i32x8::from_array(a.im));
    let (b_re, b_im) = (i32x8::from_array(b.re), i32x8::from_array(b.im));
    let lower = Row {
        re: a_re.shuffle(b_re, [0, 1, 2, 3, 8, 9, 10, 11]).to_array(),
        im: a_im.shuffle(b_im, [0, 1, 2, 3, 8, 9, 10, 11]).to_array(),
    };
    let upper = Row {
        re: a_re.shuffle(b_re, [4, 5, 6, 7, 12, 13, 14, 15]).to_array(),
        im: a_im.shuffle(b_im, [4, 5, 6, 7, 12, 13, 14, 15]).to_array(),
    };
    (lower, upper)
}

// Of two rows the lower and the upper pairs of those that stand two places apart.
#[inline(always)]
fn two_apart(a: &Row, b: &Row) -> (Row, Row)
    requires a { RowOfSize (2 ^ 30 - 2 ^ 12) a.now }
    requires b { RowOfSize (2 ^ 30 - 2 ^ 12) b.now }
    ensures lower { (l : ℕ) → l < 8 → row_lane result.0 l ≡ place_of_two a.now b.now (l + 2 * (l / 2)) }
    ensures upper { (l : ℕ) → l < 8
        → row_lane result.1 l ≡ place_of_two a.now b.now (l + 2 * (l / 2) + 2) }
{
    let (a_re, a_im) = (i32x8::from_array(a.re), i32x8::from_array(a.im));
    let (b_re, b_im) = (i32x8::from_array(b.re), i32x8::from_array(b.im));
    let lower = Row {
        re: a_re.shuffle(b_re, [0, 1, 4, 5, 8, 9, 12, 13]).to_array(),
        im: a_im.shuffle(b_im, [0, 1, 4, 5, 8, 9, 12, 13]).to_array(),
    };
    let upper = Row {
        re: a_re.shuffle(b_re, [2, 3, 6, 7, 10, 11, 14, 15]).to_array(),
        im: a_im.shuffle(b_im, [2, 3, 6, 7, 10, 11, 14, 15]).to_array(),
    };
    (lower, upper)
}

// Of two rows the lower and the upper pairs of those that stand one place apart.
#[inline(always)]
fn one_apart(a: &Row, b: &Row) -> (Row, Row)
    requires a { RowOfSize (2 ^ 30 - 2 ^ 12) a.now }
    requires b { RowOfSize (2 ^ 30 - 2 ^ 12) b.now }
    ensures lower { (l : ℕ) → l < 8 → row_lane result.0 l ≡ place_of_two a.now b.now (l + 1 * (l / 1)) }
    ensures upper { (l : ℕ) → l < 8
        → row_lane result.1 l ≡ place_of_two a.now b.now (l + 1 * (l / 1) + 1) }
{
    let (a_re, a_im) = (i32x8::from_array(a.re), i32x8::from_array(a.im));
    let (b_re, b_im) = (i32x8::from_array(b.re), i32x8::from_array(b.im));
    let lower = Row {
        re: a_re.shuffle(b_re, [0, 2, 4, 6, 8, 10, 12, 14]).to_array(),
        im: a_im.shuffle(b_im, [0, 2, 4, 6, 8, 10, 12, 14]).to_array(),
    };
    let upper = Row {
        re: a_re.shuffle(b_re, [1, 3, 5, 7, 9, 11, 13, 15]).to_array(),
        im: a_im.shuffle(b_im, [1, 3, 5, 7, 9, 11, 13, 15]).to_array(),
    };
    (lower, upper)
}

/// 64 pairs of words, each component at most 2^31 - 1 in size, in eight rows: pair n in lane n % 8 of row n / 8 (own). Takes
/// no memory.
pub fn rows_of(x: &[Cx; 64]) -> [Row; 8]
    requires { PairsWithin (2 ^ 31 - 1) x.now }
    ensures { (n : ℕ) → n < 64 → place_in result n ≡ entry x.now n }
{
    let mut rows = [Row {
        re: [0; 8],
        im: [0; 8],
    }; 8];
    for r in 0..8 {
        rows[r] = row_from(x, 8 * r);
    }
    rows
}

// The eight pairs from a place on.
#[inline(always)]
fn row_from(x: &[Cx; 64], place: usize) -> Row
    requires place { place + 8 ≤ 64 }
    requires words { PairsWithin (2 ^ 31 - 1) x.now }
    ensures { (l : ℕ) → l < 8 → row_lane result l ≡ entry x.now (place + l) }
{
    let low = i32x8::from_array(narrowed(components(x, place)));
    let high = i32x8::from_array(narrowed(components(x, place + 4)));
    Row {
        re: low.shuffle(high, [0, 2, 4, 6, 8, 10, 12, 14]).to_array(),
        im: low.shuffle(high, [1, 3, 5, 7, 9, 11, 13, 15]).to_array(),
    }
}

// The components of the four pairs from a place on, as they lie in memory.
#[inline(always)]
fn components(x: &[Cx; 64], place: usize) -> [i64; 8]
    requires place { place + 4 ≤ 64 }
    requires words { PairsWithin (2 ^ 31 - 1) x.now }
    ensures re { (k : ℕ) → k < 4 → number_at result (2 * k) ≡ (entry x.now (place + k)).re }
    ensures im { (k : ℕ) → k < 4 → number_at result (2 * k + 1) ≡ (entry x.now (place + k)).im }
    ensures within { NumbersWithin (2 ^ 31 - 1) result }
{
    [
        x[place].re,
        x[place].im,
        x[place + 1].re,
        x[place + 1].im,
        x[place + 2].re,
        x[place + 2].im,
        x[place + 3].re,
        x[place + 3].im,
    ]
}

// The pairs of eight rows.
pub(crate) fn row_pairs(x: &[Row; 8]) -> [Cx; 64]
    requires { RowsOfSize (65 * 2 ^ 24 + 256) x.now }
    ensures { (n : ℕ) → n < 64 → entry result n ≡ place_in x.now n }
{
    let mut pairs = [Cx { re: 0, im: 0 }; 64];
    for r in 0..8 {
        put_row(&mut pairs, r, &x[r]);
    }
    pairs
}

// Puts the pairs of a row to their eight places.
#[inline(always)]
fn put_row(pairs: &mut [Cx; 64], r: usize, row: &Row)
    requires place { r < 8 }
    requires sizes { RowOfSize (65 * 2 ^ 24 + 256) row.now }
    ensures put { (l : ℕ) → l < 8 → entry pairs.new (8 * r + l) ≡ row_lane row.now l }
    ensures before { (n : ℕ) → n < 8 * r → entry pairs.new n ≡ entry pairs.old n }
{
    let (re, im) = (widened(row.re), widened(row.im));
    for l in 0..8 {
        pairs[8 * r + l] = Cx {
            re: re[l],
            im: im[l],
        };
    }
}
