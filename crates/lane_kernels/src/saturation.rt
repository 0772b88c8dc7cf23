//! Sums of samples that are held within 16 bits.
ghost use Rattle.std.specs.Prelude.{◌≡◌, ◌+◌, ◌*◌, ◌/◌, ◌^◌, ◌<◌, ◌≤◌, length, ℤ, ◌+ℤ◌};
ghost use Rattle.lane_kernels.specs.Kernels.{held, held_sum, held_sums};
ghost use Rattle.lane_kernels.specs.Lanes.{AreOf16Bits, HoldsSums, eight};
ghost use Rattle.fixed_complex.specs.Numbers.{number_at};

use crate::lanes::{components, held_numbers};
use fixed_complex::Sample;
use std::simd::prelude::*;

/// Adds `b`'s samples to `a`'s, each component held within -32768 to 32767. The slices are equally long, at most 2^24
/// samples (own).
pub fn add_saturating(a: &mut [Sample], b: &[Sample])
    requires short { length a.old ≤ 2 ^ 24 }
    requires long { length a.old ≡ length b.now }
    ensures { a.new ≡ held_sums a.old b.now }
{
    let whole = a.len() / 8;
    for k in 0..whole {
        add_four(a, b, 8 * k);
        add_four(a, b, 8 * k + 4);
    }
    add_rest(a, b, 8 * whole);
}

// Adds the samples from a place on.
fn add_rest(a: &mut [Sample], b: &[Sample], from: usize)
    requires within { from ≤ length a.old }
    requires long { length a.old ≡ length b.now }
    ensures sums { HoldsSums from (length a.old) a.old b.now a.new }
    ensures len { length a.new ≡ length a.old }
{
    for n in from..a.len() {
        a[n] = held_sum(a[n], b[n]);
    }
}

// The sum of two samples, each component held.
fn held_sum(a: Sample, b: Sample) -> Sample
    ensures { result ≡ held_sum a b }
{
    Sample {
        i: a.i.saturating_add(b.i),
        q: a.q.saturating_add(b.q),
    }
}

// Adds four samples from a place on.
#[inline(always)]
fn add_four(a: &mut [Sample], b: &[Sample], at: usize)
    requires within { at + 4 ≤ length a.old }
    requires long { length a.old ≡ length b.now }
    ensures sums { HoldsSums at (at + 4) a.old b.now a.new }
    ensures len { length a.new ≡ length a.old }
{
    let sums = add_lanes(components(&a[at..at + 4]), components(&b[at..at + 4]));
    for n in 0..4 {
        a[at + n] = Sample {
            i: sums[2 * n],
            q: sums[2 * n + 1],
        };
    }
}

// The sums of eight numbers, each held within 16 bits.
#[inline(always)]
fn add_lanes(x: [i16; 8], y: [i16; 8]) -> [i16; 8]
    requires x { AreOf16Bits x }
    requires y { AreOf16Bits y }
    ensures { result ≡ eight (λ n. held (number_at x n +ℤ number_at y n)) }
{
    let (x, y) = (
        i16x8::from_array(x).cast::<i32>(),
        i16x8::from_array(y).cast::<i32>(),
    );
    held_numbers(x.strict_add(y).to_array())
}
