//! The sum of the squares of samples' sizes.
ghost use Rattle.std.specs.Prelude.{◌≡◌, ℕ, ◌+◌, ◌*◌, ◌/◌, ◌^◌, ◌≤◌, length, map, ℤ, pos, ◌+ℤ◌, unsigned_abs};
ghost use Rattle.lane_kernels.specs.Kernels.{energy_of, power_of};
ghost use Rattle.fixed_complex.specs.Samples.{sample_at};
ghost use Rattle.lane_kernels.specs.Lanes.{AreSquares, four, total_below, total_of};
ghost use Rattle.fixed_complex.specs.Numbers.{NumbersWithin, number_at};

use crate::lanes::{add_numbers, components, products, total};
use fixed_complex::Sample;
use std::simd::prelude::*;

/// The sum of the squares of the sizes of at most 2^24 samples, `i*i + q*q` each (own). One is at most 2^31, and the sum
/// at most 2^56.
pub fn energy(a: &[Sample]) -> i64
    requires { length a.now ≤ 2 ^ 24 }
    ensures value { result ≡ energy_of a.now }
    ensures within { unsigned_abs result ≤ 2 ^ 56 }
{
    let mut energy = total(&lane_powers(a));
    for n in a.len() / 4 * 4..a.len() {
        energy += power(a[n]);
    }
    energy
}

// The squares of the sizes of the whole chunks' samples, summed in lanes.
fn lane_powers(a: &[Sample]) -> [i64; 4]
    requires { length a.now ≤ 2 ^ 24 }
    ensures total { total_of result
        ≡ total_below (length a.now / 4 * 4) (λ n. power_of (sample_at a.now n)) }
    ensures within { NumbersWithin (2 ^ 53) result }
{
    let mut sums = [0; 4];
    for k in 0..a.len() / 4 {
        let summed = add_numbers(sums, powers(&a[4 * k..4 * k + 4]));
        sums = summed;
    }
    sums
}

// The squares of the sizes of four samples.
#[inline(always)]
fn powers(a: &[Sample]) -> [u32; 4]
    requires { length a.now ≡ 4 }
    ensures value { map pos result ≡ four (λ n. power_of (sample_at a.now n)) }
    ensures within { NumbersWithin (2 ^ 31) (map pos result) }
{
    let x = components(a);
    square_sums(products(x, x))
}

// The sums of neighbours.
#[inline(always)]
fn square_sums(squares: [i32; 8]) -> [u32; 4]
    requires { AreSquares squares }
    ensures { map pos result
        ≡ four (λ n. number_at squares (2 * n) +ℤ number_at squares (2 * n + 1)) }
{
    let squares = i32x8::from_array(squares).cast::<u32>();
    let (even, odd) = (squares.swizzle([0, 2, 4, 6]), squares.swizzle([1, 3, 5, 7]));
    even.strict_add(odd).to_array()
}

// The square of a sample's size.
fn power(sample: Sample) -> i64
    ensures value { result ≡ power_of sample }
    ensures within { unsigned_abs result ≤ 2 ^ 31 }
{
    let (i, q) = (i64::from(sample.i), i64::from(sample.q));
    i * i + q * q
}
