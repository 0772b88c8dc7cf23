ghost use Rattle.std.specs.Prelude.{◌≡◌, ◌≤◌, [], length, vec_len, IfOk};
ghost use Rattle.viterbi_lanes.specs.Marks.{StandsFor};

use crate::{Mark, Trellis};
use conv_code::branch;
use modem_ports::Steps;
use puncture_map::kept;
use rate_table::CodeRate;
use std::alloc::{AllocError, Global};
use std::process::Abort;
use std::test::Fail;

// The nearest list to marks by the trellis, and its distance.
fn nearest(trellis: &mut Trellis, marks: &[(Mark, Mark)], steps: &mut Steps, out: &mut [u8]) -> u32
    requires empty { StandsFor trellis.old [] }
    requires enough { 6 ≤ length marks.now }
    requires room { length marks.now ≤ trellis.old.room }
    requires places { length out.old ≡ length marks.now }
    ensures empty { StandsFor trellis.new [] }
    ensures room { trellis.new.room ≡ trellis.old.room }
{
    for (a, b) in marks {
        trellis.step(*a, *b, steps);
    }
    trellis.finish(out)
}

// What a mark costs at a bit.
fn cost(mark: Mark, bit: u8) -> u32
    ensures { result ≤ 1 }
{
    match mark {
        Mark::Zero => u32::from(bit == 1),
        Mark::One => u32::from(bit == 0),
        Mark::Absent => 0,
    }
}

// The same by a plain decoder, with a number of 32 bits for each state.
fn plain(alloc: Global, marks: &[(Mark, Mark)], out: &mut [u8]) -> Result<u32, AllocError>
    requires { length out.old ≡ length marks.now }
{
    let mut distances = [u32::MAX; 64];
    distances[0] = 0;
    let mut rows = Vec::new(alloc);
    for (a, b) in marks {
        let (next, row) = plain_step(&distances, *a, *b);
        distances = next;
        rows.push(row)?;
    }
    follow(&rows, out);
    Ok(distances[0])
}

// One step of the plain decoder, and its back bits.
fn plain_step(distances: &[u32; 64], a: Mark, b: Mark) -> ([u32; 64], u64) {
    let mut next = [0; 64];
    let mut row = 0u64;
    for state in 0..64usize {
        let lower = through(distances, state / 2, state, a, b);
        let higher = through(distances, state / 2 + 32, state, a, b);
        next[state] = lower.min(higher);
        if higher < lower {
            row |= 1 << state;
        }
    }
    (next, row)
}

// The distance through a predecessor.
fn through(distances: &[u32; 64], before: usize, state: usize, a: Mark, b: Mark) -> u32
    requires { before ≤ 63 }
{
    let (code_a, code_b) = branch(before as u8, (state % 2) as u8);
    distances[before].saturating_add(cost(a, code_a) + cost(b, code_b))
}

// The list that back bits give from state 0.
fn follow(rows: &[u64], out: &mut [u8]) {
    let mut state = 0usize;
    for (row, bit) in rows.iter().zip(out.iter_mut()).rev() {
        *bit = (state % 2) as u8;
        let back = (row >> (state % 64)) as usize % 2;
        state = state % 64 / 2 + 32 * back;
    }
}

// The trellis and the plain decoder give one list and one distance.
fn compare(
    rt: &impl Abort,
    alloc: Global,
    trellis: &mut Trellis,
    marks: &[(Mark, Mark)],
) -> Result<(), AllocError>
    requires empty { StandsFor trellis.old [] }
    requires enough { 6 ≤ length marks.now }
    requires room { length marks.now ≤ trellis.old.room }
    ensures empty { StandsFor trellis.new [] }
    ensures room { trellis.new.room ≡ trellis.old.room }
{
    let mut steps = Steps::new();
    let mut ours = vec![in alloc; 2u8; marks.len()]?;
    let mut plainly = vec![in alloc; 2u8; marks.len()]?;
    let distance = nearest(trellis, marks, &mut steps, &mut ours);
    assert_eq!(rt; distance, plain(alloc, marks, &mut plainly)?);
    assert_eq!(rt; ours.as_slice(), plainly.as_slice());
    Ok(())
}

// The next mark of a place of the code, from pseudo-random numbers.
fn draw(rate: CodeRate, place: usize, seed: &mut u64) -> Mark {
    *seed = seed
        .wrapping_mul(6364136223846793005)
        .wrapping_add(1442695040888963407);
    if !kept(rate, place) {
        Mark::Absent
    } else if *seed >> 63 == 0 {
        Mark::Zero
    } else {
        Mark::One
    }
}

// Marks of forty pairs.
fn random_marks(rate: CodeRate, seed: &mut u64) -> [(Mark, Mark); 40] {
    let mut marks = [(Mark::Absent, Mark::Absent); 40];
    for (step, pair) in marks.iter_mut().enumerate() {
        *pair = (draw(rate, 2 * step, seed), draw(rate, 2 * step + 1, seed));
    }
    marks
}

#[test]
fn equals_a_plain_decoder(rt: HostRuntime) -> Result<(), Fail> {
    let mut trellis = Trellis::open(rt.alloc(), 32782)?;
    let marks = vec![in rt.alloc(); (Mark::One, Mark::Absent); 32782]?;
    compare(&rt, rt.alloc(), &mut trellis, &marks)?;
    let mut seed = 2012;
    for rate in [CodeRate::Half, CodeRate::TwoThirds, CodeRate::ThreeQuarters] {
        for _list in [0u8; 100] {
            let marks = random_marks(rate, &mut seed);
            compare(&rt, rt.alloc(), &mut trellis, &marks)?;
        }
    }
    Ok(())
}

// Twelve pairs, of which six lists are nearest, and the one whose reversal is lexicographically least; then six absent
// pairs.
#[test]
fn nearest_lists(rt: HostRuntime) -> Result<(), Fail> {
    let (zero, one, none) = (Mark::Zero, Mark::One, Mark::Absent);
    let marks = [
        (zero, one),
        (one, zero),
        (one, one),
        (one, zero),
        (one, one),
        (one, zero),
        (none, none),
        (zero, zero),
        (one, none),
        (none, none),
        (one, none),
        (one, none),
    ];
    let mut steps = Steps::new();
    let mut trellis = Trellis::open(rt.alloc(), 12)?;
    let mut out = [2; 12];
    assert_eq!(rt; nearest(&mut trellis, &marks, &mut steps, &mut out), 5);
    assert_eq!(rt; out, [0, 1, 1, 0, 1, 0, 0, 0, 0, 0, 0, 0]);
    trellis.step(one, one, &mut steps);
    assert_eq!(rt; trellis.held(), 1);
    trellis.start();
    let mut out = [2; 6];
    assert_eq!(rt;
        nearest(&mut trellis, &[(none, none); 6], &mut steps, &mut out),
        0
    );
    assert_eq!(rt; out, [0; 6]);
    assert_eq!(rt; steps.count(), 19);
    assert_eq!(rt; trellis.room(), 12);
    Ok(())
}

// Six absent pairs in a trellis with room for just these: the only list that ends in six zeros has six zeros.
#[test]
fn six_absent_pairs(rt: HostRuntime) -> Result<(), Fail> {
    let mut steps = Steps::new();
    let mut trellis = Trellis::open(rt.alloc(), 6)?;
    let marks = [(Mark::Absent, Mark::Absent); 6];
    let mut out = [2; 6];
    assert_eq!(rt; nearest(&mut trellis, &marks, &mut steps, &mut out), 0);
    assert_eq!(rt; out, [0; 6]);
    assert_eq!(rt; steps.count(), 6);
    assert_eq!(rt; trellis.held(), 0);
    assert_eq!(rt; trellis.room(), 6);
    Ok(())
}
