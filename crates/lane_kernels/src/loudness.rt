//! The scan for a loud sample.
ghost use Rattle.std.specs.Prelude.{◌≡◌, ℕ, ◌+◌, ◌*◌, ◌/◌, ◌^◌, ◌<◌, ◌≤◌, false, length, pos, neg_ℤ, ◌≤ℤ◌};
ghost use Rattle.std.specs.Int.{int_max, int_min};
ghost use Rattle.lane_kernels.specs.Kernels.{first_loud_of, is_loud};
ghost use Rattle.fixed_complex.specs.Samples.{sample_at};
ghost use Rattle.lane_kernels.specs.Lanes.{AreOf16Bits, eight};
ghost use Rattle.fixed_complex.specs.Numbers.{number_at};

use crate::lanes::components;
use fixed_complex::Sample;
use std::simd::prelude::*;

/// The least place of a loud sample, one with a component larger than 256 in size, or the length. There are at most
/// 2^24 samples (own).
pub fn first_loud(a: &[Sample]) -> usize
    requires { length a.now ≤ 2 ^ 24 }
    ensures { result ≡ first_loud_of a.now }
{
    for n in 16 * quiet_chunks(a)..a.len() {
        if is_loud(a[n]) {
            return n;
        }
    }
    a.len()
}

// How many whole chunks at the front have no loud sample.
fn quiet_chunks(a: &[Sample]) -> usize
    requires { length a.now ≤ 2 ^ 24 }
    ensures within { 16 * result ≤ length a.now }
    ensures quiet { (n : ℕ) → n < 16 * result → is_loud (sample_at a.now n) ≡ false }
{
    for k in 0..a.len() / 16 {
        if any_loud(&a[16 * k..16 * k + 16]) {
            return k;
        }
    }
    a.len() / 16
}

// Whether one of sixteen samples is loud.
#[inline(always)]
fn any_loud(a: &[Sample]) -> bool
    requires { length a.now ≡ 16 }
    ensures { result ≡ false → (n : ℕ) → n < 16 → is_loud (sample_at a.now n) ≡ false }
{
    let (x, y) = (components(&a[0..4]), components(&a[4..8]));
    let (z, w) = (components(&a[8..12]), components(&a[12..16]));
    any_beyond(
        greater(greater(x, y), greater(z, w)),
        lesser(lesser(x, y), lesser(z, w)),
    )
}

// Of eight and eight numbers the greater ones, lane by lane.
#[inline(always)]
fn greater(x: [i16; 8], y: [i16; 8]) -> [i16; 8]
    requires x { AreOf16Bits x }
    requires y { AreOf16Bits y }
    ensures value { result ≡ eight (λ n. int_max (number_at x n) (number_at y n)) }
    ensures of_16_bits { AreOf16Bits result }
{
    i16x8::from_array(x)
        .simd_max(i16x8::from_array(y))
        .to_array()
}

// Of eight and eight numbers the lesser ones, lane by lane.
#[inline(always)]
fn lesser(x: [i16; 8], y: [i16; 8]) -> [i16; 8]
    requires x { AreOf16Bits x }
    requires y { AreOf16Bits y }
    ensures value { result ≡ eight (λ n. int_min (number_at x n) (number_at y n)) }
    ensures of_16_bits { AreOf16Bits result }
{
    i16x8::from_array(x)
        .simd_min(i16x8::from_array(y))
        .to_array()
}

// Whether one of the first eight numbers is above 256, or one of the others below -256.
#[inline(always)]
fn any_beyond(most: [i16; 8], least: [i16; 8]) -> bool
    requires most { AreOf16Bits most }
    requires least { AreOf16Bits least }
    ensures most { result ≡ false → (n : ℕ) → number_at most n ≤ℤ pos 256 }
    ensures least { result ≡ false → (n : ℕ) → neg_ℤ (pos 256) ≤ℤ number_at least n }
{
    let above = i16x8::from_array(most)
        .simd_gt(i16x8::splat(256))
        .to_bitmask();
    let below = i16x8::from_array(least)
        .simd_lt(i16x8::splat(-256))
        .to_bitmask();
    above != 0 || below != 0
}

// Whether a sample is loud.
fn is_loud(sample: Sample) -> bool
    ensures { result ≡ is_loud sample }
{
    sample.i.unsigned_abs() > 256 || sample.q.unsigned_abs() > 256
}
