//! Four samples' components in lanes, and sums of products of neighbours.
ghost use Rattle.std.specs.Prelude.{◌≡◌, ℕ, ◌+◌, ◌*◌, ◌^◌, ◌≤◌, length, map, ℤ, pos, ◌+ℤ◌, ◌*ℤ◌, unsigned_abs};
ghost use Rattle.fixed_complex.specs.Samples.{sample_at};
ghost use Rattle.lane_kernels.specs.Kernels.{held};
ghost use Rattle.lane_kernels.specs.Lanes.{AreOf16Bits, AreOf32Bits, AreProducts, components_of, eight, four, total_of};
ghost use Rattle.fixed_complex.specs.Numbers.{NumbersWithin, number_at};

use fixed_complex::Sample;
use std::simd::prelude::*;

/// The components of four samples in the order of memory (own).
#[inline(always)]
pub fn components(a: &[Sample]) -> [i16; 8]
    requires { length a.now ≡ 4 }
    ensures value { result ≡ components_of (sample_at a.now) }
    ensures of_16_bits { AreOf16Bits result }
{
    [
        a[0].i, a[0].q, a[1].i, a[1].q, a[2].i, a[2].q, a[3].i, a[3].q,
    ]
}

/// The products of eight and eight numbers, place by place (own).
#[inline(always)]
pub fn products(x: [i16; 8], y: [i16; 8]) -> [i32; 8]
    requires x { AreOf16Bits x }
    requires y { AreOf16Bits y }
    ensures { result ≡ eight (λ n. number_at x n *ℤ number_at y n) }
{
    let (x, y) = (
        i16x8::from_array(x).cast::<i32>(),
        i16x8::from_array(y).cast::<i32>(),
    );
    x.strict_mul(y).to_array()
}

/// Eight numbers, each held within -32768 to 32767 (own).
#[inline(always)]
pub fn held_numbers(numbers: [i32; 8]) -> [i16; 8]
    requires { AreOf32Bits numbers }
    ensures { result ≡ eight (λ n. held (number_at numbers n)) }
{
    let (least, most) = (i32x8::splat(-32768), i32x8::splat(32767));
    i32x8::from_array(numbers)
        .simd_min(most)
        .simd_max(least)
        .cast::<i16>()
        .to_array()
}

// The sums of neighbours, and 2^31 - 2 with each: from 2^16 - 2 to 2^32 - 2.
#[inline(always)]
pub(crate) fn pair_sums(products: [i32; 8]) -> [u32; 4]
    requires { AreProducts products }
    ensures { map pos result
        ≡ four (λ n. number_at products (2 * n) +ℤ number_at products (2 * n + 1) +ℤ pos 2147483646) }
{
    let products = i32x8::from_array(products);
    let bias = i32x4::splat((1 << 30) - 1);
    let even = products.swizzle([0, 2, 4, 6]).strict_add(bias);
    let odd = products.swizzle([1, 3, 5, 7]).strict_add(bias);
    even.cast::<u32>().strict_add(odd.cast::<u32>()).to_array()
}

// Four sums, each with a number more.
#[inline(always)]
pub(crate) fn add_numbers(sums: [i64; 4], more: [u32; 4]) -> [i64; 4]
    requires sums { NumbersWithin (2 ^ 62) sums }
    requires more { NumbersWithin (2 ^ 33) (map pos more) }
    ensures value { result ≡ four (λ n. number_at sums n +ℤ number_at (map pos more) n) }
    ensures grown { (bound step : ℕ) → NumbersWithin bound sums → NumbersWithin step (map pos more)
        → NumbersWithin (bound + step) result }
{
    let more = u32x4::from_array(more).cast::<i64>();
    i64x4::from_array(sums).strict_add(more).to_array()
}

// The sum of four lanes.
pub(crate) fn total(sums: &[i64; 4]) -> i64
    requires { NumbersWithin (2 ^ 55) sums.now }
    ensures total { result ≡ total_of sums.now }
    ensures within { (bound : ℕ) → NumbersWithin bound sums.now → unsigned_abs result ≤ bound * 4 }
{
    sums[0] + sums[1] + sums[2] + sums[3]
}
