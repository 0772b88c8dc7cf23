//! The echo of samples.
ghost use Rattle.std.specs.Prelude.{◌≡◌, ◌+◌, ◌-◌, ◌*◌, ◌^◌, ◌≤◌, ℕ, [], ◌∷◌, ◌++◌, length, unsigned_abs, IfOk, OnOk};
ghost use Rattle.echo_taps.specs.Blocks.{echo_below};
ghost use Rattle.fixed_complex.specs.Samples.{pair_at};
ghost use Rattle.echo_taps.specs.Echoes.{earlier, echo_of, gathered, held_sample};
ghost use Rattle.fixed_complex.specs.PairLists.{PairsWithin};
ghost use Rattle.fixed_complex.specs.Pairs.{IsWithin};
ghost use Rattle.fixed_complex.specs.Rounding.{half_up};
ghost use Rattle.lane_kernels.specs.Kernels.{held};

use crate::lanes::{block_sums, held_samples};
use fixed_complex::{Cx, Sample, add, mul};
use std::alloc::{AllocError, Global};

// The echo of samples, by eight pairs: sixteen places at once where all that comes together is there, and the others
// one by one.
pub(crate) fn echo(
    alloc: Global,
    pairs: &[Cx; 8],
    samples: &[Sample],
) -> Result<Vec<Sample>, AllocError>
    requires samples { length samples.now ≤ 2 ^ 24 }
    requires pairs { PairsWithin 1024 pairs.now }
    ensures echo { IfOk result (λ echo. echo.items ≡ echo_of pairs.now samples.now) }
{
    let count = samples.len() + 7;
    let blocks = samples.len().saturating_sub(7) / 16;
    let mut echo = Vec::with_capacity(alloc, count)?;
    push_places(&mut echo, pairs, samples, 0, 7)?;
    push_blocks(&mut echo, pairs, samples, blocks)?;
    push_places(&mut echo, pairs, samples, 7 + 16 * blocks, count)?;
    Ok(echo)
}

// Appends samples of the echo from place 7 on, so many times sixteen.
fn push_blocks(
    echo: &mut Vec<Sample>,
    pairs: &[Cx; 8],
    samples: &[Sample],
    blocks: usize,
) -> Result<(), AllocError>
    requires pairs { PairsWithin 1024 pairs.now }
    requires blocks { 16 * blocks ≤ length samples.now - 7 }
    requires before { echo.old.items ≡ echo_below pairs.now samples.now 7 }
    ensures { OnOk result (echo.new.items ≡ echo_below pairs.now samples.now (7 + 16 * blocks)) }
{
    for k in 0..blocks {
        push_block(echo, pairs, samples, 7 + 16 * k)?;
    }
    Ok(())
}

// Appends sixteen samples of the echo.
#[inline(always)]
fn push_block(
    echo: &mut Vec<Sample>,
    pairs: &[Cx; 8],
    samples: &[Sample],
    place: usize,
) -> Result<(), AllocError>
    requires pairs { PairsWithin 1024 pairs.now }
    requires from { 7 ≤ place }
    requires upto { place + 16 ≤ length samples.now }
    requires before { echo.old.items ≡ echo_below pairs.now samples.now place }
    ensures { OnOk result (echo.new.items ≡ echo_below pairs.now samples.now (place + 16)) }
{
    let block = block_sums(pairs, samples, place);
    echo.extend_from_slice(&held_samples(block))?;
    Ok(())
}

// Appends the samples of the echo from one place up to another.
fn push_places(
    echo: &mut Vec<Sample>,
    pairs: &[Cx; 8],
    samples: &[Sample],
    from: usize,
    upto: usize,
) -> Result<(), AllocError>
    requires pairs { PairsWithin 1024 pairs.now }
    requires places { from ≤ upto }
    requires before { echo.old.items ≡ echo_below pairs.now samples.now from }
    ensures { OnOk result (echo.new.items ≡ echo_below pairs.now samples.now upto) }
{
    for place in from..upto {
        push_held(echo, sum_at(pairs, samples, place))?;
    }
    Ok(())
}

// Appends the held sample of a sum.
fn push_held(echo: &mut Vec<Sample>, sum: Cx) -> Result<(), AllocError>
    requires { IsWithin (2 ^ 34) sum }
    ensures { OnOk result (echo.new.items ≡ echo.old.items ++ held_sample sum ∷ []) }
{
    echo.push(held_of(sum))?;
    Ok(())
}

// A pair over 1024, rounded half up and held.
fn held_of(sum: Cx) -> Sample
    requires { IsWithin (2 ^ 34) sum }
    ensures { result ≡ held_sample sum }
{
    Sample {
        i: component(sum.re),
        q: component(sum.im),
    }
}

// What comes together at a place.
fn sum_at(pairs: &[Cx; 8], samples: &[Sample], place: usize) -> Cx
    requires { PairsWithin 1024 pairs.now }
    ensures sum { result ≡ gathered pairs.now (pair_at samples.now) place }
    ensures within { IsWithin (2 ^ 34) result }
{
    let mut sum = Cx { re: 0, im: 0 };
    for late in 0..8 {
        sum = add(sum, mul(pairs[late], earlier_pair(samples, place, late)));
    }
    sum
}

// The sample so many places before a place, as a pair.
fn earlier_pair(samples: &[Sample], place: usize, late: usize) -> Cx
    ensures pair { result ≡ earlier (pair_at samples.now) place late }
    ensures within { IsWithin (2 ^ 15) result }
{
    match place.checked_sub(late).and_then(|at| samples.get(at)) {
        Some(sample) => Cx {
            re: i64::from(sample.i),
            im: i64::from(sample.q),
        },
        None => Cx { re: 0, im: 0 },
    }
}

// A component over 1024, rounded half up and held.
fn component(part: i64) -> i16
    requires { unsigned_abs part ≤ 2 ^ 34 }
    ensures { result ≡ held (half_up 10 part) }
{
    ((part + 512) >> 10).clamp(-32768, 32767) as i16
}
