//! The carriers of 64 received samples, and the estimate of a channel (own). No call takes memory.
#![tactic(auto)]

ghost use Rattle.std.specs.Prelude.{◌≡◌, ℕ, ◌+◌, ◌-◌, ◌*◌, ◌^◌, ◌<◌, ◌≤◌, ◌*ℤ◌, pos, unsigned_abs};
ghost use Rattle.fixed_complex.specs.Pairs.{IsWithin, rounded_pair};
ghost use Rattle.fixed_complex.specs.Rounding.{half_up};
ghost use Rattle.fixed_complex.specs.PairLists.{PairsOfSize, PairsWithin, by_256, entry};
ghost use Rattle.fixed_complex.specs.Samples.{pair_at, pair_of};
ghost use Rattle.butterfly64.specs.Rows.{RowsOfSize, place_in, row_lane};
ghost use Rattle.modem_ports.specs.Counts.{raised_by};
ghost use Rattle.carrier_equaliser.specs.Received.{received};
ghost use Rattle.carrier_equaliser.specs.Nearness.{AreNearPlainSums};

use butterfly64::{Row, down_rows};
use fixed_complex::{Cx, Sample};
use modem_ports::Steps;

mod channel;
mod decisions;
pub mod laws;

pub use channel::Estimate;
pub use decisions::put_bits;

const ZERO: Cx = Cx { re: 0, im: 0 };

/// The carriers of 64 received samples, by bin: the staged sums `down` of the samples times 256, over 256 and rounded
/// half up (own). It takes every 64 samples of 16 bits. A carrier X that was sent comes back as about 32 X.
///
/// Each carrier is within 40 of the plain forward sum over 2^20, the sum over the times n of r(n) * conj T[bin*n], in
/// each component, and it is at most 2^22 in size, as its components are. The count of steps rises by exactly one.
/// Takes no memory.
pub fn carriers_of(body: &[Sample; 64], steps: &mut Steps) -> [Cx; 64]
    ensures carriers { result ≡ received body.now }
    ensures near { AreNearPlainSums 40 result body.now }
    ensures within { PairsWithin (2 ^ 22) result }
    ensures sizes { PairsOfSize (2 ^ 22) result }
    ensures counted { steps.new ≡ raised_by 1 steps.old }
{
    butterfly64::laws::received_carriers();
    steps.tick();
    let mut sums = rows_by_256(body);
    down_rows(&mut sums);
    let mut carriers = [ZERO; 64];
    for r in 0..8 {
        put_carriers(&mut carriers, r, &sums[r]);
    }
    carriers
}

// The samples times 256, in rows.
fn rows_by_256(samples: &[Sample; 64]) -> [Row; 8]
    ensures pairs { (n : ℕ) → n < 64 → place_in result n ≡ by_256 (pair_at samples.now) n }
    ensures of_16_bits { (n : ℕ) → IsWithin (2 ^ 15) (pair_at samples.now n) }
    ensures sizes { RowsOfSize (2 ^ 24) result }
{
    let mut rows = [Row {
        re: [0; 8],
        im: [0; 8],
    }; 8];
    for r in 0..8 {
        rows[r] = row_by_256(samples, 8 * r);
    }
    rows
}

// The eight samples from a place on, times 256.
#[inline(always)]
fn row_by_256(samples: &[Sample; 64], place: usize) -> Row
    requires place { place + 8 ≤ 64 }
    ensures pairs { (l : ℕ) → l < 8 → row_lane result l ≡ by_256 (pair_at samples.now) (place + l) }
    ensures of_16_bits { (l : ℕ) → l < 8 → IsWithin (2 ^ 15) (pair_at samples.now (place + l)) }
{
    let mut row = Row {
        re: [0; 8],
        im: [0; 8],
    };
    for l in 0..8 {
        let (re, im) = times_256(samples[place + l]);
        row.re[l] = re;
        row.im[l] = im;
    }
    row
}

// The components of a sample times 256.
fn times_256(sample: Sample) -> (i32, i32)
    ensures re { result.0 ≡ pos 256 *ℤ sample.i }
    ensures im { result.1 ≡ pos 256 *ℤ sample.q }
    ensures of_16_bits { IsWithin (2 ^ 15) (pair_of sample) }
{
    (256 * i32::from(sample.i), 256 * i32::from(sample.q))
}

// Puts the carriers of a row of staged sums to their eight bins.
#[inline(always)]
fn put_carriers(carriers: &mut [Cx; 64], r: usize, sums: &Row)
    requires row { r < 8 }
    requires words { (l : ℕ) → l < 8 → IsWithin (2 ^ 31 - 2 ^ 9) (row_lane sums.now l) }
    ensures put { (l : ℕ) → l < 8 → entry carriers.new (8 * r + l) ≡ rounded_pair 8 (row_lane sums.now l) }
    ensures before { (n : ℕ) → n < 8 * r → entry carriers.new n ≡ entry carriers.old n }
{
    for l in 0..8 {
        carriers[8 * r + l] = Cx {
            re: over_2_8(sums.re[l]),
            im: over_2_8(sums.im[l]),
        };
    }
}

// A component of a staged sum over 256, rounded half up.
fn over_2_8(sum: i32) -> i64
    requires { unsigned_abs sum ≤ 2 ^ 31 - 2 ^ 9 }
    ensures { result ≡ half_up 8 sum }
{
    i64::from((sum + (1 << 7)) >> 8)
}

#[cfg(test)]
mod tests;
