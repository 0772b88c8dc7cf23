//! The stages of the transform over eights of pairs.
ghost use Rattle.std.specs.Prelude.{◌≡◌, ℕ, ◌+◌, ◌-◌, ◌*◌, ◌^◌, ◌<◌, ◌≤◌, length};
ghost use Rattle.fixed_complex.specs.Pairs.{conjugate, minus, plus, scaled_product};
ghost use Rattle.fixed_complex.specs.PairLists.{PairsOfSize, entry};
ghost use Rattle.butterfly64.specs.Lanes.{eight_in, lane, pairs_of};
ghost use Rattle.butterfly64.specs.MirrorOrder.{mirror_of};
ghost use Rattle.butterfly64.specs.StagedSums.{down_at, up_at};

use crate::eights::{down_eight, up_eight};
use crate::lane_turns::TURNS;
use crate::lanes::{Eight, joined_lanes, parted_lanes};
use fixed_complex::Cx;

// Replaces 2^level eights of pairs in mirror order by their staged sums `up`.
pub(crate) fn up_eights(x: &mut [Eight], level: usize)
    requires level { level ≤ 3 }
    requires length { length x.old ≡ 2 ^ level }
    requires sizes { PairsOfSize (2 ^ 31) (pairs_of x.old) }
    ensures { (n : ℕ) → n < 2 ^ (level + 3) → entry (pairs_of x.new) n
        ≡ up_at (level + 3) (λ m. entry (pairs_of x.old) (mirror_of (level + 3) m)) n }
{
    if level == 0 {
        x[0] = up_eight(&x[0]);
    } else {
        let half = x.len() / 2;
        let (evens, odds) = x.split_at_mut(half);
        up_eights(evens, level - 1);
        up_eights(odds, level - 1);
        join_eights(evens, odds);
    }
}

// Replaces 2^level eights of pairs by their staged sums `down` in mirror order.
pub(crate) fn down_eights(x: &mut [Eight], level: usize)
    requires level { level ≤ 3 }
    requires length { length x.old ≡ 2 ^ level }
    requires sizes { PairsOfSize (2 ^ 31 * 3 ^ (3 - level)) (pairs_of x.old) }
    ensures { (n : ℕ) → n < 2 ^ (level + 3) → entry (pairs_of x.new) (mirror_of (level + 3) n)
        ≡ down_at (level + 3) (entry (pairs_of x.old)) n }
{
    if level == 0 {
        x[0] = down_eight(&x[0]);
    } else {
        let half = x.len() / 2;
        let (first, last) = x.split_at_mut(half);
        part_eights(first, last);
        down_eights(first, level - 1);
        down_eights(last, level - 1);
    }
}

// Joins the sums of the even places, of which there are 8, 16 or 32, with those of the odd ones.
fn join_eights(evens: &mut [Eight], odds: &mut [Eight])
    requires most { length evens.old ≤ 4 }
    requires lengths { length evens.old ≡ length odds.old }
    requires evens { PairsOfSize (2 ^ 39) (pairs_of evens.old) }
    requires odds { PairsOfSize (2 ^ 39) (pairs_of odds.old) }
    ensures sums { (c l : ℕ) → c < length evens.old → l < 8 → lane (eight_in evens.new c) l
        ≡ plus (lane (eight_in evens.old c) l)
        (scaled_product (lane (eight_in TURNS (length evens.old + 2 + c)) l)
        (lane (eight_in odds.old c) l)) }
    ensures differences { (c l : ℕ) → c < length odds.old → l < 8 → lane (eight_in odds.new c) l
        ≡ minus (lane (eight_in evens.old c) l)
        (scaled_product (lane (eight_in TURNS (length evens.old + 2 + c)) l)
        (lane (eight_in odds.old c) l)) }
{
    let turns = evens.len() + 2;
    for c in 0..evens.len() {
        let (sums, differences) = joined_lanes(&evens[c], &odds[c], &TURNS[turns + c]);
        evens[c] = sums;
        odds[c] = differences;
    }
}

// Parts two halves, of 8, 16 or 32 pairs each, into their sums and their differences, turned back.
fn part_eights(first: &mut [Eight], last: &mut [Eight])
    requires most { length first.old ≤ 4 }
    requires lengths { length first.old ≡ length last.old }
    requires first { PairsOfSize (2 ^ 39) (pairs_of first.old) }
    requires last { PairsOfSize (2 ^ 39) (pairs_of last.old) }
    ensures sums { (c l : ℕ) → c < length first.old → l < 8 → lane (eight_in first.new c) l
        ≡ plus (lane (eight_in first.old c) l) (lane (eight_in last.old c) l) }
    ensures differences { (c l : ℕ) → c < length last.old → l < 8 → lane (eight_in last.new c) l
        ≡ scaled_product (conjugate (lane (eight_in TURNS (length first.old + 2 + c)) l))
        (minus (lane (eight_in first.old c) l) (lane (eight_in last.old c) l)) }
{
    let turns = first.len() + 2;
    for c in 0..first.len() {
        let (sums, differences) = parted_lanes(&first[c], &last[c], &TURNS[turns + c]);
        first[c] = sums;
        last[c] = differences;
    }
}

// 64 pairs, in eights.
pub(crate) fn eights(x: &[Cx; 64]) -> [Eight; 8]
    ensures { pairs_of result ≡ x.now }
{
    let mut eights = [Eight {
        re: [0; 8],
        im: [0; 8],
    }; 8];
    for c in 0..8 {
        eights[c] = eight_from(x, 8 * c);
    }
    eights
}

// The eight pairs from a place on.
fn eight_from(x: &[Cx; 64], place: usize) -> Eight
    requires { place + 8 ≤ 64 }
    ensures { (l : ℕ) → l < 8 → lane result l ≡ entry x.now (place + l) }
{
    let mut eight = Eight {
        re: [0; 8],
        im: [0; 8],
    };
    for l in 0..8 {
        eight.re[l] = x[place + l].re;
        eight.im[l] = x[place + l].im;
    }
    eight
}

// The pairs of eight eights.
pub(crate) fn pairs(x: &[Eight; 8]) -> [Cx; 64]
    ensures { result ≡ pairs_of x.now }
{
    let mut pairs = [Cx { re: 0, im: 0 }; 64];
    for n in 0..64 {
        pairs[n] = pair_in(&x[n / 8], n % 8);
    }
    pairs
}

// The pair in a lane.
fn pair_in(x: &Eight, l: usize) -> Cx
    requires { l < 8 }
    ensures { result ≡ lane x.now l }
{
    Cx {
        re: x.re[l],
        im: x.im[l],
    }
}
