//! Eight numbers in lanes, and eight pairs.
ghost use Rattle.std.specs.Prelude.{◌≡◌, ℕ, ◌+◌, ◌-◌, ◌^◌, ◌<◌, ◌+ℤ◌, ◌-ℤ◌, ◌*ℤ◌, if◌then◌else◌};
ghost use Rattle.fixed_complex.specs.Pairs.{conjugate, plus, minus, scaled_product};
ghost use Rattle.fixed_complex.specs.Rounding.{half_up};
ghost use Rattle.butterfly64.specs.Lanes.{is_low, lane, low_place, EachWithin};
ghost use Rattle.fixed_complex.specs.Numbers.{number_at, NumbersWithin};

use std::simd::prelude::*;

// Eight pairs.
#[derive(Clone, Copy)]
pub(crate) struct Eight {
    pub(crate) re: [i64; 8],
    pub(crate) im: [i64; 8],
}

// The sums of eight and eight numbers.
#[inline(always)]
fn sums(x: [i64; 8], y: [i64; 8]) -> [i64; 8]
    requires x { NumbersWithin (2 ^ 62 - 1) x }
    requires y { NumbersWithin (2 ^ 62 - 1) y }
    ensures { (l : ℕ) → l < 8 → number_at result l ≡ number_at x l +ℤ number_at y l }
{
    i64x8::from_array(x)
        .strict_add(i64x8::from_array(y))
        .to_array()
}

// The differences of eight and eight numbers.
#[inline(always)]
fn differences(x: [i64; 8], y: [i64; 8]) -> [i64; 8]
    requires x { NumbersWithin (2 ^ 62 - 1) x }
    requires y { NumbersWithin (2 ^ 62 - 1) y }
    ensures { (l : ℕ) → l < 8 → number_at result l ≡ number_at x l -ℤ number_at y l }
{
    i64x8::from_array(x)
        .strict_sub(i64x8::from_array(y))
        .to_array()
}

// The products of eight and eight numbers.
#[inline(always)]
fn products(x: [i64; 8], y: [i64; 8]) -> [i64; 8]
    requires x { NumbersWithin (2 ^ 20) x }
    requires y { NumbersWithin (2 ^ 40) y }
    ensures value { (l : ℕ) → l < 8 → number_at result l ≡ number_at x l *ℤ number_at y l }
    ensures bound { NumbersWithin (2 ^ 60) result }
{
    i64x8::from_array(x)
        .strict_mul(i64x8::from_array(y))
        .to_array()
}

// Eight numbers over 2^20, rounded half up.
#[inline(always)]
fn rounded(x: [i64; 8]) -> [i64; 8]
    requires { NumbersWithin (2 ^ 61) x }
    ensures value { (l : ℕ) → l < 8 → number_at result l ≡ half_up 20 (number_at x l) }
    ensures bound { NumbersWithin (2 ^ 42) result }
{
    let halves = i64x8::splat(1 << 19);
    (i64x8::from_array(x).strict_add(halves) >> i64x8::splat(20)).to_array()
}

// The sums of eight and eight pairs.
#[inline(always)]
fn plus_lanes(x: &Eight, y: &Eight) -> Eight
    requires x { EachWithin (2 ^ 62 - 1) x.now }
    requires y { EachWithin (2 ^ 62 - 1) y.now }
    ensures { (l : ℕ) → l < 8 → lane result l ≡ plus (lane x.now l) (lane y.now l) }
{
    Eight {
        re: sums(x.re, y.re),
        im: sums(x.im, y.im),
    }
}

// The differences of eight and eight pairs.
#[inline(always)]
fn minus_lanes(x: &Eight, y: &Eight) -> Eight
    requires x { EachWithin (2 ^ 62 - 1) x.now }
    requires y { EachWithin (2 ^ 62 - 1) y.now }
    ensures { (l : ℕ) → l < 8 → lane result l ≡ minus (lane x.now l) (lane y.now l) }
{
    Eight {
        re: differences(x.re, y.re),
        im: differences(x.im, y.im),
    }
}

// The products of eight and eight pairs over 2^20, rounded half up.
#[inline(always)]
pub(crate) fn scaled_lanes(w: &Eight, z: &Eight) -> Eight
    requires w { EachWithin (2 ^ 20) w.now }
    requires z { EachWithin (2 ^ 40) z.now }
    ensures value { (l : ℕ) → l < 8 → lane result l ≡ scaled_product (lane w.now l) (lane z.now l) }
    ensures bound { EachWithin (2 ^ 42) result }
{
    Eight {
        re: rounded(differences(products(w.re, z.re), products(w.im, z.im))),
        im: rounded(sums(products(w.re, z.im), products(w.im, z.re))),
    }
}

// The sums and the differences of eight pairs and the turns of eight others.
#[inline(always)]
pub(crate) fn joined_lanes(even: &Eight, odd: &Eight, turns: &Eight) -> (Eight, Eight)
    requires even { EachWithin (2 ^ 40) even.now }
    requires odd { EachWithin (2 ^ 40) odd.now }
    requires turns { EachWithin (2 ^ 20) turns.now }
    ensures sums { (l : ℕ) → l < 8 → lane result.0 l
        ≡ plus (lane even.now l) (scaled_product (lane turns.now l) (lane odd.now l)) }
    ensures differences { (l : ℕ) → l < 8 → lane result.1 l
        ≡ minus (lane even.now l) (scaled_product (lane turns.now l) (lane odd.now l)) }
    ensures sums_bound { EachWithin (2 ^ 43) result.0 }
    ensures differences_bound { EachWithin (2 ^ 43) result.1 }
{
    let turned = scaled_lanes(turns, odd);
    (plus_lanes(even, &turned), minus_lanes(even, &turned))
}

// The products of eight pairs with the conjugates of eight others, over 2^20, rounded half up.
#[inline(always)]
pub(crate) fn scaled_back_lanes(w: &Eight, z: &Eight) -> Eight
    requires w { EachWithin (2 ^ 20) w.now }
    requires z { EachWithin (2 ^ 40) z.now }
    ensures value { (l : ℕ) → l < 8
        → lane result l ≡ scaled_product (conjugate (lane w.now l)) (lane z.now l) }
    ensures bound { EachWithin (2 ^ 42) result }
{
    Eight {
        re: rounded(sums(products(w.re, z.re), products(w.im, z.im))),
        im: rounded(differences(products(w.re, z.im), products(w.im, z.re))),
    }
}

// The sums of eight and eight pairs, and their differences turned back.
#[inline(always)]
pub(crate) fn parted_lanes(first: &Eight, last: &Eight, turns: &Eight) -> (Eight, Eight)
    requires first { EachWithin (2 ^ 39) first.now }
    requires last { EachWithin (2 ^ 39) last.now }
    requires turns { EachWithin (2 ^ 20) turns.now }
    ensures sums { (l : ℕ) → l < 8 → lane result.0 l ≡ plus (lane first.now l) (lane last.now l) }
    ensures differences { (l : ℕ) → l < 8 → lane result.1 l
        ≡ scaled_product (conjugate (lane turns.now l))
        (minus (lane first.now l) (lane last.now l)) }
    ensures sums_bound { EachWithin (2 ^ 43) result.0 }
    ensures differences_bound { EachWithin (2 ^ 43) result.1 }
{
    let difference = minus_lanes(first, last);
    (
        plus_lanes(first, last),
        scaled_back_lanes(turns, &difference),
    )
}

// The low and the high pair, in each lane, of two that stand one lane apart.
// The places: lanes 0 and 1 join, 2 and 3, 4 and 5, 6 and 7, so both of them read the lower, and both the upper one.
#[inline(always)]
pub(crate) fn one_apart(x: &Eight) -> (Eight, Eight)
    requires { EachWithin (2 ^ 62 - 1) x.now }
    ensures low { (l : ℕ) → l < 8 → lane result.0 l ≡ lane x.now (low_place 0 l) }
    ensures high { (l : ℕ) → l < 8 → lane result.1 l ≡ lane x.now (low_place 0 l + 1) }
{
    let (re, im) = (i64x8::from_array(x.re), i64x8::from_array(x.im));
    let low = Eight {
        re: re.swizzle([0, 0, 2, 2, 4, 4, 6, 6]).to_array(),
        im: im.swizzle([0, 0, 2, 2, 4, 4, 6, 6]).to_array(),
    };
    let high = Eight {
        re: re.swizzle([1, 1, 3, 3, 5, 5, 7, 7]).to_array(),
        im: im.swizzle([1, 1, 3, 3, 5, 5, 7, 7]).to_array(),
    };
    (low, high)
}

// The pairs of two eights in turn, one lane at a time.
// The places: a join's sums stay in the even lanes, from x, its differences in the odd ones, from y (lane l is 8 + l).
#[inline(always)]
pub(crate) fn mixed_by_one(x: &Eight, y: &Eight) -> Eight
    requires x { EachWithin (2 ^ 62 - 1) x.now }
    requires y { EachWithin (2 ^ 62 - 1) y.now }
    ensures { (l : ℕ) → l < 8
        → lane result l ≡ (if is_low 0 l then lane x.now l else lane y.now l) }
{
    let (x_re, x_im) = (i64x8::from_array(x.re), i64x8::from_array(x.im));
    let (y_re, y_im) = (i64x8::from_array(y.re), i64x8::from_array(y.im));
    Eight {
        re: x_re.shuffle(y_re, [0, 9, 2, 11, 4, 13, 6, 15]).to_array(),
        im: x_im.shuffle(y_im, [0, 9, 2, 11, 4, 13, 6, 15]).to_array(),
    }
}

// The low and the high pair, in each lane, of two that stand two lanes apart.
// The places: lanes 0 and 2 join, 1 and 3, 4 and 6, 5 and 7, so both of them read the lower, and both the upper one.
#[inline(always)]
pub(crate) fn two_apart(x: &Eight) -> (Eight, Eight)
    requires { EachWithin (2 ^ 62 - 1) x.now }
    ensures low { (l : ℕ) → l < 8 → lane result.0 l ≡ lane x.now (low_place 1 l) }
    ensures high { (l : ℕ) → l < 8 → lane result.1 l ≡ lane x.now (low_place 1 l + 2) }
{
    let (re, im) = (i64x8::from_array(x.re), i64x8::from_array(x.im));
    let low = Eight {
        re: re.swizzle([0, 1, 0, 1, 4, 5, 4, 5]).to_array(),
        im: im.swizzle([0, 1, 0, 1, 4, 5, 4, 5]).to_array(),
    };
    let high = Eight {
        re: re.swizzle([2, 3, 2, 3, 6, 7, 6, 7]).to_array(),
        im: im.swizzle([2, 3, 2, 3, 6, 7, 6, 7]).to_array(),
    };
    (low, high)
}

// The pairs of two eights in turn, two lanes at a time.
// The places: a join's sums stay in lanes 0, 1, 4, 5, from x, its differences in the others, from y (lane l is 8 + l).
#[inline(always)]
pub(crate) fn mixed_by_two(x: &Eight, y: &Eight) -> Eight
    requires x { EachWithin (2 ^ 62 - 1) x.now }
    requires y { EachWithin (2 ^ 62 - 1) y.now }
    ensures { (l : ℕ) → l < 8
        → lane result l ≡ (if is_low 1 l then lane x.now l else lane y.now l) }
{
    let (x_re, x_im) = (i64x8::from_array(x.re), i64x8::from_array(x.im));
    let (y_re, y_im) = (i64x8::from_array(y.re), i64x8::from_array(y.im));
    Eight {
        re: x_re.shuffle(y_re, [0, 1, 10, 11, 4, 5, 14, 15]).to_array(),
        im: x_im.shuffle(y_im, [0, 1, 10, 11, 4, 5, 14, 15]).to_array(),
    }
}

// The low and the high pair, in each lane, of two that stand four lanes apart.
// The places: lanes 0 and 4 join, 1 and 5, 2 and 6, 3 and 7, so both of them read the lower, and both the upper one.
#[inline(always)]
pub(crate) fn four_apart(x: &Eight) -> (Eight, Eight)
    requires { EachWithin (2 ^ 62 - 1) x.now }
    ensures low { (l : ℕ) → l < 8 → lane result.0 l ≡ lane x.now (low_place 2 l) }
    ensures high { (l : ℕ) → l < 8 → lane result.1 l ≡ lane x.now (low_place 2 l + 4) }
{
    let (re, im) = (i64x8::from_array(x.re), i64x8::from_array(x.im));
    let low = Eight {
        re: re.swizzle([0, 1, 2, 3, 0, 1, 2, 3]).to_array(),
        im: im.swizzle([0, 1, 2, 3, 0, 1, 2, 3]).to_array(),
    };
    let high = Eight {
        re: re.swizzle([4, 5, 6, 7, 4, 5, 6, 7]).to_array(),
        im: im.swizzle([4, 5, 6, 7, 4, 5, 6, 7]).to_array(),
    };
    (low, high)
}

// The pairs of two eights in turn, four lanes at a time.
// The places: a join's sums stay in the lower lanes, from x, its differences in the upper, from y (lane l is 8 + l).
#[inline(always)]
pub(crate) fn mixed_by_four(x: &Eight, y: &Eight) -> Eight
    requires x { EachWithin (2 ^ 62 - 1) x.now }
    requires y { EachWithin (2 ^ 62 - 1) y.now }
    ensures { (l : ℕ) → l < 8
        → lane result l ≡ (if is_low 2 l then lane x.now l else lane y.now l) }
{
    let (x_re, x_im) = (i64x8::from_array(x.re), i64x8::from_array(x.im));
    let (y_re, y_im) = (i64x8::from_array(y.re), i64x8::from_array(y.im));
    Eight {
        re: x_re.shuffle(y_re, [0, 1, 2, 3, 12, 13, 14, 15]).to_array(),
        im: x_im.shuffle(y_im, [0, 1, 2, 3, 12, 13, 14, 15]).to_array(),
    }
}
