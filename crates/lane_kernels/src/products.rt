//! The sum of products of samples.
ghost use Rattle.std.specs.Prelude.{◌≡◌, ℕ, ◌+◌, ◌*◌, ◌/◌, ◌^◌, ◌<◌, ◌≤◌, length, map, ℤ, pos, ◌+ℤ◌, ◌-ℤ◌, ◌*ℤ◌};
ghost use Rattle.fixed_complex.specs.Pairs.{IsWithin};
ghost use Rattle.lane_kernels.specs.Kernels.{dot_of, product_of};
ghost use Rattle.fixed_complex.specs.Samples.{pair_of, sample_at};
ghost use Rattle.lane_kernels.specs.Lanes.{AreOf16Bits, four, total_below, total_of, turned_of};
ghost use Rattle.fixed_complex.specs.Numbers.{NumbersWithin, number_at};

use crate::lanes::{add_numbers, components, pair_sums, products, total};
use fixed_complex::{Cx, Sample, add, conj, mul};
use std::simd::prelude::*;

// What is added to a real part and to an imaginary part in lanes, so that no sum is below 0.
const REAL_BIAS: i64 = (1 << 31) - 2;

const IMAGINARY_BIAS: i64 = (1 << 31) - 2 + (1 << 15);

// The real parts and the imaginary parts of sums, in lanes.
#[derive(Drop)]
struct Sums {
    re: [i64; 4],
    im: [i64; 4],
}

/// The sum of the products of `a`'s samples with the conjugates of `b`'s, place by place. The slices are equally long,
/// at most 2^24 samples (own). A part of a product is at most 2^31 in size, and a part of the sum at most 2^56.
pub fn dot(a: &[Sample], b: &[Sample]) -> Cx
    requires short { length a.now ≤ 2 ^ 24 }
    requires long { length a.now ≡ length b.now }
    ensures value { result ≡ dot_of a.now b.now }
    ensures within { IsWithin (2 ^ 56) result }
{
    let mut dot = whole_chunks(a, b);
    for n in a.len() / 4 * 4..a.len() {
        dot = add(dot, mul(pair(a[n]), conj(pair(b[n]))));
    }
    dot
}

// The sum of the products of the whole chunks.
fn whole_chunks(a: &[Sample], b: &[Sample]) -> Cx
    requires short { length a.now ≤ 2 ^ 24 }
    requires long { length a.now ≡ length b.now }
    ensures re { result.re ≡ total_below (length a.now / 4 * 4) (λ n.
        (product_of (sample_at a.now n) (sample_at b.now n)).re) }
    ensures im { result.im ≡ total_below (length a.now / 4 * 4) (λ n.
        (product_of (sample_at a.now n) (sample_at b.now n)).im) }
    ensures within { IsWithin (2 ^ 31 * (length a.now / 4 * 4)) result }
{
    let sums = lane_sums(a, b);
    let samples = (a.len() / 4 * 4) as i64;
    Cx {
        re: total(&sums.re) - samples * REAL_BIAS,
        im: total(&sums.im) - samples * IMAGINARY_BIAS,
    }
}

// The parts of the products of the whole chunks, each with its bias, summed in lanes.
fn lane_sums(a: &[Sample], b: &[Sample]) -> Sums
    requires short { length a.now ≤ 2 ^ 24 }
    requires long { length a.now ≡ length b.now }
    ensures re { total_of result.re ≡ total_below (length a.now / 4 * 4) (λ n.
        (product_of (sample_at a.now n) (sample_at b.now n)).re +ℤ pos 2147483646) }
    ensures im { total_of result.im ≡ total_below (length a.now / 4 * 4) (λ n.
        (product_of (sample_at a.now n) (sample_at b.now n)).im +ℤ pos 2147516414) }
    ensures re_within { NumbersWithin (2 ^ 55) result.re }
    ensures im_within { NumbersWithin (2 ^ 55) result.im }
    ensures products { (n : ℕ) → n < length a.now / 4 * 4
        → IsWithin (2 ^ 31) (product_of (sample_at a.now n) (sample_at b.now n)) }
{
    let mut re = [0; 4];
    let mut im = [0; 4];
    for k in 0..a.len() / 4 {
        let (x, y) = (&a[4 * k..4 * k + 4], &b[4 * k..4 * k + 4]);
        let re_summed = add_numbers(re, real_parts(x, y));
        let im_summed = add_numbers(im, imaginary_parts(x, y));
        re = re_summed;
        im = im_summed;
    }
    Sums { re, im }
}

// The real parts of four products, each with its bias.
#[inline(always)]
fn real_parts(a: &[Sample], b: &[Sample]) -> [u32; 4]
    requires a { length a.now ≡ 4 }
    requires b { length b.now ≡ 4 }
    ensures value { map pos result ≡ four (λ n.
        (product_of (sample_at a.now n) (sample_at b.now n)).re +ℤ pos 2147483646) }
    ensures within { NumbersWithin (2 ^ 33) (map pos result) }
    ensures products { (n : ℕ) → n < 4
        → IsWithin (2 ^ 31) (product_of (sample_at a.now n) (sample_at b.now n)) }
{
    pair_sums(products(components(a), components(b)))
}

// The imaginary parts of four products, each with its bias. Since -32768 has no negative of 16 bits, I is multiplied with
// -1 - Q of the other, and then added.
#[inline(always)]
fn imaginary_parts(a: &[Sample], b: &[Sample]) -> [u32; 4]
    requires a { length a.now ≡ 4 }
    requires b { length b.now ≡ 4 }
    ensures value { map pos result ≡ four (λ n.
        (product_of (sample_at a.now n) (sample_at b.now n)).im +ℤ pos 2147516414) }
    ensures within { NumbersWithin (2 ^ 33) (map pos result) }
{
    let x = components(a);
    let sums = pair_sums(products(x, turned(components(b))));
    let more = in_phase(x);
    u32x4::from_array(sums)
        .strict_add(u32x4::from_array(more))
        .to_array()
}

// Of each pair of neighbours, -1 less the second, and the first.
#[inline(always)]
fn turned(y: [i16; 8]) -> [i16; 8]
    requires { AreOf16Bits y }
    ensures value { result ≡ turned_of (number_at y) }
    ensures of_16_bits { AreOf16Bits result }
{
    let swapped = i16x8::from_array(y).swizzle([1, 0, 3, 2, 5, 4, 7, 6]);
    (swapped ^ i16x8::from_array([-1, 0, -1, 0, -1, 0, -1, 0])).to_array()
}

// The first of each pair of neighbours and 2^15.
#[inline(always)]
fn in_phase(x: [i16; 8]) -> [u32; 4]
    requires { AreOf16Bits x }
    ensures { map pos result ≡ four (λ n. number_at x (2 * n) +ℤ pos 32768) }
{
    let parts = i32x8::from_array(products(x, [1, 0, 1, 0, 1, 0, 1, 0]));
    let (even, odd) = (parts.swizzle([0, 2, 4, 6]), parts.swizzle([1, 3, 5, 7]));
    even.strict_add(odd)
        .strict_add(i32x4::splat(1 << 15))
        .cast::<u32>()
        .to_array()
}

// A sample as a pair.
fn pair(sample: Sample) -> Cx
    ensures value { result ≡ pair_of sample }
    ensures within { IsWithin (2 ^ 15) result }
{
    Cx {
        re: i64::from(sample.i),
        im: i64::from(sample.q),
    }
}
