//! The points of a symbol from its coded bits.
ghost use Rattle.std.specs.Prelude.{◌≡◌, ℕ, ◌*◌, ◌<◌, ◌≤◌, length, map, slice_index, take};
ghost use Rattle.bit_lists.specs.Bits.{AreBits};
ghost use Rattle.fixed_complex.specs.PairLists.{PairsWithin};
ghost use Rattle.rate_table.specs.Table.{bits_of_modulation, row_of};
ghost use Rattle.symbol_builder.specs.Points.{points_of, points_of_code};

use constellations::carrier_point;
use fixed_complex::Cx;
use interleave_two::sources_in_order;
use rate_table::{Modulation, Rate};

/// Puts the 48 points of a symbol, from its N_CBPS coded bits, which are interleaved on the way, in place of 48 pairs
/// (IEEE Std 802.11-2012, 18.3.5.7 and 18.3.5.8). Each component is at most 700 in size. Takes no memory.
pub fn put_code_points(rate: Rate, code: &[u8], points: &mut [Cx; 48])
    requires whole { length code.now ≡ (row_of rate).coded_bits }
    requires bits { AreBits code.now }
    ensures points { points.new ≡ points_of_code rate code.now }
    ensures within { PairsWithin 700 points.new }
{
    let sources = sources_in_order(rate);
    // a loop for each modulation
    match rate.modulation() {
        Modulation::Bpsk => put_points(Modulation::Bpsk, code, sources, points),
        Modulation::Qpsk => put_points(Modulation::Qpsk, code, sources, points),
        Modulation::Qam16 => put_points(Modulation::Qam16, code, sources, points),
        Modulation::Qam64 => put_points(Modulation::Qam64, code, sources, points),
    }
}

// Puts the points of the bits that stand at some places of a code.
#[inline(always)]
fn put_points(modulation: Modulation, code: &[u8], places: &[u16], points: &mut [Cx; 48])
    requires bits { AreBits code.now }
    requires all { length places.now ≡ 48 * bits_of_modulation modulation }
    requires within { (j : ℕ) → j < length places.now → slice_index places.now j < length code.now }
    ensures points { points.new ≡ points_of modulation (map (slice_index code.now) places.now) }
    ensures within { PairsWithin 700 points.new }
{
    let width = modulation.bits_per_carrier();
    for d in 0..48 {
        let bits = bits_at(code, &places[width * d..width * d + width]);
        points[d] = carrier_point(modulation, &bits[..width]);
    }
}

// The bits at up to six places of a code, and zeros behind them.
#[inline(always)]
fn bits_at(code: &[u8], places: &[u16]) -> [u8; 6]
    requires bits { AreBits code.now }
    requires few { length places.now ≤ 6 }
    requires within { (j : ℕ) → j < length places.now → slice_index places.now j < length code.now }
    ensures list { take (length places.now) result ≡ map (slice_index code.now) places.now }
    ensures bits { AreBits result }
{
    let mut bits = [0; 6];
    for j in 0..places.len() {
        bits[j] = code[usize::from(places[j])];
    }
    bits
}
