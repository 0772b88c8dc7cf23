//! The plain waveform of carriers, the samples that are sent of them, and how near they are (own). No call takes
//! memory.
#![tactic(auto)]

ghost use Rattle.std.specs.Prelude.{◌≡◌, ℕ, ◌+◌, ◌-◌, ◌*◌, ◌^◌, ◌<◌, ◌≤◌, length, pos, ◌*ℤ◌, unsigned_abs};
ghost use Rattle.fixed_complex.specs.PairLists.{PairsWithin, by_256, entry};
ghost use Rattle.fixed_complex.specs.Samples.{IsSampleWithin, SamplesWithin, sample_at};
ghost use Rattle.fixed_complex.specs.Pairs.{IsWithin};
ghost use Rattle.butterfly64.specs.Rows.{RowsOfSize, place_in, row_lane};
ghost use Rattle.plain_waves.specs.Bodies.{all_times, plain_body, plain_sample, sample_of, sent_body};
ghost use Rattle.plain_waves.specs.Bounds.{FitASample};
ghost use Rattle.plain_waves.specs.Nearness.{AreNearPlain};

use butterfly64::{Row, up_rows};
use fixed_complex::{Cx, Sample, add, mul, turn};

pub mod laws;

const ZERO: Cx = Cx { re: 0, im: 0 };

const SILENCE: Sample = Sample { i: 0, q: 0 };

/// The body that is sent: the 64 samples of what the carriers carry, given by bin, each component at most 954 in size,
/// and with bounds on the sizes of the 64 pairs that sum to at most 50112 (own). Each sample is within 1 of the plain
/// one, which is half the sum of the carriers, and no component is larger than 25057 in size.
pub fn sent_samples(carriers: &[Cx; 64]) -> [Sample; 64]
    requires within { PairsWithin 954 carriers.now }
    requires fits { FitASample carriers.now }
    ensures samples { result ≡ all_times (sent_body (entry carriers.now)) }
    ensures near { AreNearPlain 1 result (all_times (plain_body (entry carriers.now))) }
    ensures within { SamplesWithin 25057 result }
{
    let mut samples = [SILENCE; 64];
    put_sent_samples(carriers, &mut samples);
    samples
}

/// The same, put in place of 64 samples (own).
#[inline(always)]
pub fn put_sent_samples(carriers: &[Cx; 64], samples: &mut [Sample])
    requires within { PairsWithin 954 carriers.now }
    requires fits { FitASample carriers.now }
    requires places { length samples.old ≡ 64 }
    ensures samples { samples.new ≡ all_times (sent_body (entry carriers.now)) }
    ensures near { AreNearPlain 1 samples.new (all_times (plain_body (entry carriers.now))) }
    ensures within { SamplesWithin 25057 samples.new }
{
    let mut sums = rows_by_256(carriers);
    up_rows(&mut sums);
    for r in 0..8 {
        put_samples(samples, r, &sums[r]);
    }
}

// Puts the samples of a row of staged sums to their eight places.
#[inline(always)]
fn put_samples(samples: &mut [Sample], r: usize, sums: &Row)
    requires places { length samples.old ≡ 64 }
    requires row { r < 8 }
    requires words { (l : ℕ) → l < 8 → IsWithin (2 ^ 31 - 2 ^ 9) (row_lane sums.now l) }
    requires fits { (l : ℕ) → l < 8 → IsSampleWithin 25057 (sample_of 9 (row_lane sums.now l)) }
    ensures put { (l : ℕ) → l < 8 → sample_at samples.new (8 * r + l) ≡ sample_of 9 (row_lane sums.now l) }
    ensures before { (n : ℕ) → n < 8 * r → sample_at samples.new n ≡ sample_at samples.old n }
    ensures places { length samples.new ≡ 64 }
{
    for l in 0..8 {
        samples[8 * r + l] = over_2_9(sums, l);
    }
}

// The carriers times 256, in rows of words.
#[inline(always)]
fn rows_by_256(carriers: &[Cx; 64]) -> [Row; 8]
    requires { PairsWithin 954 carriers.now }
    ensures carriers { (n : ℕ) → n < 64 → place_in result n ≡ by_256 (entry carriers.now) n }
    ensures sizes { RowsOfSize (2 ^ 24) result }
{
    let mut rows = [Row {
        re: [0; 8],
        im: [0; 8],
    }; 8];
    for r in 0..8 {
        rows[r] = row_by_256(carriers, r);
    }
    rows
}

// The eight carriers of a row, times 256.
#[inline(always)]
fn row_by_256(carriers: &[Cx; 64], r: usize) -> Row
    requires row { r < 8 }
    requires carriers { PairsWithin 954 carriers.now }
    ensures { (l : ℕ) → l < 8 → row_lane result l ≡ by_256 (entry carriers.now) (8 * r + l) }
{
    let mut row = Row {
        re: [0; 8],
        im: [0; 8],
    };
    for l in 0..8 {
        let carrier = carriers[8 * r + l];
        row.re[l] = word_by_256(carrier.re);
        row.im[l] = word_by_256(carrier.im);
    }
    row
}

// A part of a carrier times 256, as a word.
#[inline(always)]
fn word_by_256(part: i64) -> i32
    requires { unsigned_abs part ≤ 954 }
    ensures { result ≡ pos 256 *ℤ part }
{
    256 * part as i32
}

// A sample: the staged sum in a lane over 512, rounded half up.
#[inline(always)]
fn over_2_9(sums: &Row, l: usize) -> Sample
    requires lane { l < 8 }
    requires words { IsWithin (2 ^ 31 - 2 ^ 9) (row_lane sums.now l) }
    requires fits { IsSampleWithin 25057 (sample_of 9 (row_lane sums.now l)) }
    ensures { result ≡ sample_of 9 (row_lane sums.now l) }
{
    Sample {
        i: ((sums.re[l] + (1 << 8)) >> 9) as i16,
        q: ((sums.im[l] + (1 << 8)) >> 9) as i16,
    }
}

/// The plain body of what the carriers carry, given by bin, each component rounded half up to a sample (own). The
/// carriers are those that `sent_samples` takes.
pub fn plain_samples(carriers: &[Cx; 64]) -> [Sample; 64]
    requires within { PairsWithin 954 carriers.now }
    requires fits { FitASample carriers.now }
    ensures samples { result ≡ all_times (plain_sample (entry carriers.now)) }
    ensures within { SamplesWithin 25057 result }
{
    let mut samples = [SILENCE; 64];
    for n in 0..64 {
        samples[n] = over_2_21(plain_sum(carriers, n));
    }
    samples
}

// The plain sum of the carriers at a time: 2^21 times a real sample.
fn plain_sum(carriers: &[Cx; 64], n: usize) -> Cx
    requires within { PairsWithin 954 carriers.now }
    requires time { n < 64 }
    ensures { result ≡ plain_body (entry carriers.now) n }
{
    let mut sum = ZERO;
    for bin in 0..64 {
        sum = add(sum, mul(carriers[bin], turn(bin * n)));
    }
    sum
}

// A sample: a plain sum over 2^21, rounded half up.
fn over_2_21(sum: Cx) -> Sample
    requires { IsSampleWithin 25057 (sample_of 21 sum) }
    ensures { result ≡ sample_of 21 sum }
{
    Sample {
        i: ((sum.re + (1 << 20)) >> 21) as i16,
        q: ((sum.im + (1 << 20)) >> 21) as i16,
    }
}
