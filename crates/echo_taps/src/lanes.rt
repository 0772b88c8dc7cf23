//! What comes together at sixteen places, in lanes: the components of four samples are multiplied with a tap's numbers at
//! once.
ghost use Rattle.std.specs.Prelude.{◌≡◌, ◌+◌, ◌*◌, ◌^◌, ◌<◌, ◌≤◌, length, neg_ℤ, ◌+ℤ◌, ◌*ℤ◌};
ghost use Rattle.echo_taps.specs.Blocks.{AreBlockSums, AreSums, IsFourWithin, held_block, held_parts, in_turn};
ghost use Rattle.fixed_complex.specs.Numbers.{NumbersWithin, number_at};
ghost use Rattle.fixed_complex.specs.PairLists.{PairsWithin};
ghost use Rattle.fixed_complex.specs.Pairs.{IsWithin};
ghost use Rattle.fixed_complex.specs.Samples.{sample_at};
ghost use Rattle.lane_kernels.specs.Lanes.{AreOf16Bits, components_of, eight, four};

use fixed_complex::{Cx, Sample};
use lane_kernels::lanes::{components, held_numbers, products};
use std::simd::prelude::*;

// The real parts and the imaginary parts of four sums.
#[derive(Clone, Copy)]
pub(crate) struct Four {
    re: [i32; 4],
    im: [i32; 4],
}

// Sixteen sums, in the order of their places.
#[derive(Clone, Copy)]
pub(crate) struct Block {
    first: Four,
    second: Four,
    third: Four,
    fourth: Four,
}

// What components are multiplied with, for the real part of a product with a tap and for the imaginary part.
#[derive(Clone, Copy)]
struct TapLanes {
    re: [i16; 8],
    im: [i16; 8],
}

// What comes together at sixteen places, of which the first is at least 7. There is no loop over the delays, so one without
// a tap costs a test alone.
#[inline(always)]
pub(crate) fn block_sums(pairs: &[Cx; 8], samples: &[Sample], place: usize) -> Block
    requires pairs { PairsWithin 1024 pairs.now }
    requires from { 7 ≤ place }
    requires upto { place + 16 ≤ length samples.now }
    ensures { AreBlockSums 8 pairs.now samples.now place result }
{
    let none = Four {
        re: [0; 4],
        im: [0; 4],
    };
    let block = Block {
        first: none,
        second: none,
        third: none,
        fourth: none,
    };
    let block = add_block(block, pairs, 0, samples, place);
    let block = add_block(block, pairs, 1, samples, place);
    let block = add_block(block, pairs, 2, samples, place);
    let block = add_block(block, pairs, 3, samples, place);
    let block = add_block(block, pairs, 4, samples, place);
    let block = add_block(block, pairs, 5, samples, place);
    let block = add_block(block, pairs, 6, samples, place);
    add_block(block, pairs, 7, samples, place)
}

// Sixteen sums with the products of one delay more.
#[inline(always)]
fn add_block(block: Block, pairs: &[Cx; 8], late: usize, samples: &[Sample], place: usize) -> Block
    requires late { late < 8 }
    requires pairs { PairsWithin 1024 pairs.now }
    requires from { 7 ≤ place }
    requires upto { place + 16 ≤ length samples.now }
    requires sums { AreBlockSums late pairs.now samples.now place block }
    ensures { AreBlockSums (late + 1) pairs.now samples.now place result }
{
    if pairs[late].re == 0 && pairs[late].im == 0 {
        return block;
    }
    Block {
        first: add_tap(block.first, pairs, late, samples, place),
        second: add_tap(block.second, pairs, late, samples, place + 4),
        third: add_tap(block.third, pairs, late, samples, place + 8),
        fourth: add_tap(block.fourth, pairs, late, samples, place + 12),
    }
}

// Four sums with the products of one delay more.
#[inline(always)]
fn add_tap(sums: Four, pairs: &[Cx; 8], late: usize, samples: &[Sample], place: usize) -> Four
    requires late { late < 8 }
    requires pairs { PairsWithin 1024 pairs.now }
    requires from { 7 ≤ place }
    requires upto { place + 4 ≤ length samples.now }
    requires sums { AreSums late pairs.now samples.now place sums }
    ensures { AreSums (late + 1) pairs.now samples.now place result }
{
    let at = place - late;
    let x = components(&samples[at..at + 4]);
    let by = tap_lanes(pairs[late]);
    Four {
        re: added(sums.re, products(by.re, x)),
        im: added(sums.im, products(by.im, x)),
    }
}

// The numbers of a tap in lanes.
#[inline(always)]
fn tap_lanes(tap: Cx) -> TapLanes
    requires { IsWithin 1024 tap }
    ensures re { result.re ≡ in_turn tap.re (neg_ℤ tap.im) }
    ensures im { result.im ≡ in_turn tap.im tap.re }
{
    let (re, im) = (i16x8::splat(tap.re as i16), i16x8::splat(tap.im as i16));
    let minus = i16x8::splat(-tap.im as i16);
    TapLanes {
        re: re.shuffle(minus, [0, 9, 2, 11, 4, 13, 6, 15]).to_array(),
        im: im.shuffle(re, [0, 9, 2, 11, 4, 13, 6, 15]).to_array(),
    }
}

// Four sums, each with the sum of two neighbours more.
#[inline(always)]
fn added(sums: [i32; 4], products: [i32; 8]) -> [i32; 4]
    requires sums { NumbersWithin (2 ^ 29) sums }
    requires products { NumbersWithin (2 ^ 25) products }
    ensures { result ≡ four (λ n.
        number_at sums n +ℤ (number_at products (2 * n) +ℤ number_at products (2 * n + 1))) }
{
    let products = i32x8::from_array(products);
    let (even, odd) = (
        products.swizzle([0, 2, 4, 6]),
        products.swizzle([1, 3, 5, 7]),
    );
    i32x4::from_array(sums)
        .strict_add(even.strict_add(odd))
        .to_array()
}

// Sixteen sums over 1024, rounded half up and held.
#[inline(always)]
pub(crate) fn held_samples(block: Block) -> [Sample; 16]
    requires first { IsFourWithin (2 ^ 29) block.first }
    requires second { IsFourWithin (2 ^ 29) block.second }
    requires third { IsFourWithin (2 ^ 29) block.third }
    requires fourth { IsFourWithin (2 ^ 29) block.fourth }
    ensures { result ≡ held_block block }
{
    let (a, b) = (held_parts(block.first), held_parts(block.second));
    let (c, d) = (held_parts(block.third), held_parts(block.fourth));
    [
        Sample { i: a[0], q: a[1] },
        Sample { i: a[2], q: a[3] },
        Sample { i: a[4], q: a[5] },
        Sample { i: a[6], q: a[7] },
        Sample { i: b[0], q: b[1] },
        Sample { i: b[2], q: b[3] },
        Sample { i: b[4], q: b[5] },
        Sample { i: b[6], q: b[7] },
        Sample { i: c[0], q: c[1] },
        Sample { i: c[2], q: c[3] },
        Sample { i: c[4], q: c[5] },
        Sample { i: c[6], q: c[7] },
        Sample { i: d[0], q: d[1] },
        Sample { i: d[2], q: d[3] },
        Sample { i: d[4], q: d[5] },
        Sample { i: d[6], q: d[7] },
    ]
}

// The components of four sums over 1024 in the order of memory, rounded half up and held.
#[inline(always)]
fn held_parts(sums: Four) -> [i16; 8]
    requires { IsFourWithin (2 ^ 29) sums }
    ensures { result ≡ held_parts sums }
{
    let (re, im) = (i32x4::from_array(sums.re), i32x4::from_array(sums.im));
    let parts = re.shuffle(im, [0, 4, 1, 5, 2, 6, 3, 7]);
    let rounded = parts.strict_add(i32x8::splat(512)) >> i32x8::splat(10);
    held_numbers(rounded.to_array())
}
