//! Eight pairs of 32-bit words in lanes.
ghost use Rattle.std.specs.Prelude.{◌≡◌, ℕ, ◌+◌, ◌-◌, ◌*◌, ◌/◌, ◌%◌, ◌^◌, ◌<◌, length, ◌+ℤ◌, ◌-ℤ◌};
ghost use Rattle.fixed_complex.specs.Pairs.{conjugate, minus, plus, scaled_product};
ghost use Rattle.fixed_complex.specs.Turns.{turn_at};
ghost use Rattle.fixed_complex.specs.Numbers.{NumbersWithin, number_at};
ghost use Rattle.butterfly64.specs.Rows.{RowOfSize, RowOfTurns, row_lane};

use crate::lanes::{Eight, scaled_back_lanes, scaled_lanes};
use std::simd::prelude::*;

/// Eight pairs of words, each in a lane (own).
#[derive(Clone, Copy)]
pub struct Row {
    pub re: [i32; 8],
    pub im: [i32; 8],
}

// The sums and the differences of eight pairs and eight others, which are turned already.
#[inline(always)]
pub(crate) fn joined_row(even: &Row, turned: &Row) -> (Row, Row)
    requires even { RowOfSize (2 ^ 30 - 2 ^ 12) even.now }
    requires turned_re { NumbersWithin (2 ^ 30 - 1) turned.now.re }
    requires turned_im { NumbersWithin (2 ^ 30 - 1) turned.now.im }
    ensures sums { (l : ℕ) → l < 8 → row_lane result.0 l ≡ plus (row_lane even.now l) (row_lane turned.now l) }
    ensures differences { (l : ℕ) → l < 8
        → row_lane result.1 l ≡ minus (row_lane even.now l) (row_lane turned.now l) }
{
    let sums = Row {
        re: word_sums(even.re, turned.re),
        im: word_sums(even.im, turned.im),
    };
    let differences = Row {
        re: word_differences(even.re, turned.re),
        im: word_differences(even.im, turned.im),
    };
    (sums, differences)
}

// Eight pairs, turned by a quarter in the upper half of a stage's places, and as they are in the lower.
#[inline(always)]
pub(crate) fn quartered_row(x: &Row, p: usize) -> Row
    requires p { p < 4 }
    requires x { RowOfSize (2 ^ 30 - 2 ^ 12) x.now }
    ensures value { (l : ℕ) → l < 8
        → row_lane result l ≡ scaled_product (turn_at (16 * (p / 2))) (row_lane x.now l) }
    ensures re { NumbersWithin (2 ^ 30 - 1) result.re }
    ensures im { NumbersWithin (2 ^ 30 - 1) result.im }
{
    if p < 2 {
        *x
    } else {
        Row {
            re: word_differences([0; 8], x.im),
            im: x.re,
        }
    }
}

// The sums of eight and eight pairs.
#[inline(always)]
pub(crate) fn sum_row(x: &Row, y: &Row) -> Row
    requires x { RowOfSize (2 ^ 29 + 2 ^ 14) x.now }
    requires y { RowOfSize (2 ^ 29 + 2 ^ 14) y.now }
    ensures { (l : ℕ) → l < 8 → row_lane result l ≡ plus (row_lane x.now l) (row_lane y.now l) }
{
    Row {
        re: word_sums(x.re, y.re),
        im: word_sums(x.im, y.im),
    }
}

// The differences of eight and eight pairs.
#[inline(always)]
pub(crate) fn difference_row(x: &Row, y: &Row) -> Row
    requires x { RowOfSize (2 ^ 29 + 2 ^ 14) x.now }
    requires y { RowOfSize (2 ^ 29 + 2 ^ 14) y.now }
    ensures value { (l : ℕ) → l < 8 → row_lane result l ≡ minus (row_lane x.now l) (row_lane y.now l) }
    ensures size { RowOfSize (2 ^ 30 + 2 ^ 15) result }
{
    Row {
        re: word_differences(x.re, y.re),
        im: word_differences(x.im, y.im),
    }
}

// The differences of eight and eight pairs, each other one turned back by a quarter, beginning with the second.
#[inline(always)]
pub(crate) fn quartered_difference_row(x: &Row, y: &Row) -> Row
    requires x { RowOfSize (2 ^ 29 + 2 ^ 14) x.now }
    requires y { RowOfSize (2 ^ 29 + 2 ^ 14) y.now }
    ensures { (l : ℕ) → l < 8 → row_lane result l
        ≡ scaled_product (conjugate (turn_at (16 * (l % 2)))) (minus (row_lane x.now l) (row_lane y.now l)) }
{
    let re = i32x8::from_array(word_differences(x.re, y.re));
    let im = i32x8::from_array(word_differences(x.im, y.im));
    let negative_re = i32x8::from_array(word_differences(y.re, x.re));
    Row {
        re: re.shuffle(im, [0, 9, 2, 11, 4, 13, 6, 15]).to_array(),
        im: im
            .shuffle(negative_re, [0, 9, 2, 11, 4, 13, 6, 15])
            .to_array(),
    }
}

// The products of eight pairs with the conjugates of eight turns, over 2^20, rounded half up.
#[inline(always)]
pub(crate) fn turned_back_row(turns: &Row, x: &Row) -> Row
    requires turns { RowOfTurns turns.now }
    requires x { RowOfSize (2 ^ 30 + 2 ^ 15) x.now }
    ensures { (l : ℕ) → l < 8
        → row_lane result l ≡ scaled_product (conjugate (row_lane turns.now l)) (row_lane x.now l) }
{
    let turned = scaled_back_lanes(
        &Eight {
            re: widened(turns.re),
            im: widened(turns.im),
        },
        &Eight {
            re: widened(x.re),
            im: widened(x.im),
        },
    );
    Row {
        re: narrowed(turned.re),
        im: narrowed(turned.im),
    }
}

// The products of eight and eight pairs over 2^20, rounded half up.
#[inline(always)]
pub(crate) fn turned_row(turns: &Row, x: &Row) -> Row
    requires turns { RowOfTurns turns.now }
    requires x { RowOfSize (2 ^ 30 - 2 ^ 12) x.now }
    ensures value { (l : ℕ) → l < 8
        → row_lane result l ≡ scaled_product (row_lane turns.now l) (row_lane x.now l) }
    ensures re { NumbersWithin (2 ^ 30 - 1) result.re }
    ensures im { NumbersWithin (2 ^ 30 - 1) result.im }
{
    let turned = scaled_lanes(
        &Eight {
            re: widened(turns.re),
            im: widened(turns.im),
        },
        &Eight {
            re: widened(x.re),
            im: widened(x.im),
        },
    );
    Row {
        re: narrowed(turned.re),
        im: narrowed(turned.im),
    }
}

// Eight words, wider.
#[inline(always)]
pub(crate) fn widened(x: [i32; 8]) -> [i64; 8]
    requires { NumbersWithin (2 ^ 31 - 1) x }
    ensures { result ≡ x }
{
    i32x8::from_array(x).cast::<i64>().to_array()
}

// Eight numbers that are words.
#[inline(always)]
pub(crate) fn narrowed(x: [i64; 8]) -> [i32; 8]
    requires { NumbersWithin (2 ^ 31 - 1) x }
    ensures { result ≡ x }
{
    i64x8::from_array(x).cast::<i32>().to_array()
}

// The sums of eight and eight words.
#[inline(always)]
fn word_sums(x: [i32; 8], y: [i32; 8]) -> [i32; 8]
    requires x { NumbersWithin (2 ^ 30 - 1) x }
    requires y { NumbersWithin (2 ^ 30 - 1) y }
    ensures { (l : ℕ) → l < 8 → number_at result l ≡ number_at x l +ℤ number_at y l }
{
    i32x8::from_array(x)
        .strict_add(i32x8::from_array(y))
        .to_array()
}

// The differences of eight and eight words.
#[inline(always)]
fn word_differences(x: [i32; 8], y: [i32; 8]) -> [i32; 8]
    requires x { NumbersWithin (2 ^ 30 - 1) x }
    requires y { NumbersWithin (2 ^ 30 - 1) y }
    ensures { (l : ℕ) → l < 8 → number_at result l ≡ number_at x l -ℤ number_at y l }
{
    i32x8::from_array(x)
        .strict_sub(i32x8::from_array(y))
        .to_array()
}
