//! The decisions of a data number over the estimate of a channel.
ghost use Rattle.std.specs.Prelude.{◌≡◌, ℕ, ◌+◌, ◌*◌, length, slice_index, take, ◌^◌, ◌<◌, ◌≤◌, ◌≤ℤ◌, ◌*ℤ◌, pos, unsigned_abs};
ghost use Rattle.bit_lists.specs.Bits.{AreBits};
ghost use Rattle.fixed_complex.specs.PairLists.{PairsWithin};
ghost use Rattle.rate_table.specs.declared.Rate.{Rate};
ghost use Rattle.rate_table.specs.Table.{bits_of_modulation, row_of};
ghost use Rattle.fixed_complex.specs.Pairs.{IsWithin, conjugate, times};
ghost use Rattle.carrier_equaliser.specs.Decided.{decided_at, decided_over, interleaved_decisions};
ghost use Rattle.integer_laws.specs.Size.{sum_of_squares};

use carrier_bins::data_bin;
use constellations::decide;
use fixed_complex::{Cx, conj, mul};
use rate_table::{Modulation, Rate};

// The decisions of a symbol over a channel, interleaved, and zeros behind them.
pub(crate) fn decide_all(rate: Rate, bins: &[Cx; 64], symbol: &[Cx; 64], out: &mut [u8; 288])
    requires bins { PairsWithin (2 ^ 23) bins.now }
    requires symbol { PairsWithin (2 ^ 22) symbol.now }
    ensures list { take (row_of rate).coded_bits out.new
        ≡ interleaved_decisions rate bins.now symbol.now }
    ensures others { (k : ℕ) → (row_of rate).coded_bits ≤ k → slice_index out.new k ≡ 0 }
    ensures bits { AreBits out.new }
{
    // a loop for each modulation
    match rate.modulation() {
        Modulation::Bpsk => decide_numbers(Modulation::Bpsk, bins, symbol, out),
        Modulation::Qpsk => decide_numbers(Modulation::Qpsk, bins, symbol, out),
        Modulation::Qam16 => decide_numbers(Modulation::Qam16, bins, symbol, out),
        Modulation::Qam64 => decide_numbers(Modulation::Qam64, bins, symbol, out),
    }
}

// The decisions of all data numbers in turn, and zeros behind them.
#[inline(always)]
fn decide_numbers(modulation: Modulation, bins: &[Cx; 64], symbol: &[Cx; 64], out: &mut [u8; 288])
    requires bins { PairsWithin (2 ^ 23) bins.now }
    requires symbol { PairsWithin (2 ^ 22) symbol.now }
    ensures list { (rate : Rate) → (row_of rate).modulation ≡ modulation
        → take (row_of rate).coded_bits out.new
        ≡ interleaved_decisions rate bins.now symbol.now }
    ensures others { (k : ℕ) → 48 * bits_of_modulation modulation ≤ k → slice_index out.new k ≡ 0 }
    ensures bits { AreBits out.new }
{
    let width = modulation.bits_per_carrier();
    *out = [0; 288];
    for number in 0..48 {
        let bits = decided_number(modulation, bins, symbol, number);
        put_bits(out, number * width, &bits);
    }
}

/// Puts the bits of a data number at a place among the decisions of a symbol (own). Takes no memory.
#[inline(always)]
pub fn put_bits(out: &mut [u8; 288], at: usize, bits: &[u8])
    requires room { at + length bits.now ≤ 288 }
    requires bits { AreBits bits.now }
    requires out { AreBits out.old }
    ensures here { (j : ℕ) → j < length bits.now
        → slice_index out.new (at + j) ≡ slice_index bits.now j }
    ensures before { (k : ℕ) → k < at → slice_index out.new k ≡ slice_index out.old k }
    ensures behind { (k : ℕ) → at + length bits.now ≤ k
        → slice_index out.new k ≡ slice_index out.old k }
    ensures bits { AreBits out.new }
{
    out[at..at + bits.len()].copy_from_slice(bits);
}

// The bits decided of a data number, with zeros behind them.
fn decided_number(
    modulation: Modulation,
    bins: &[Cx; 64],
    symbol: &[Cx; 64],
    number: usize,
) -> [u8; 6]
    requires bins { PairsWithin (2 ^ 23) bins.now }
    requires symbol { PairsWithin (2 ^ 22) symbol.now }
    requires number { number < 48 }
    ensures value { (rate : Rate) → (row_of rate).modulation ≡ modulation
        → result ≡ decided_at rate bins.now symbol.now number }
    ensures others { (j : ℕ) → bits_of_modulation modulation ≤ j → slice_index result j ≡ 0 }
    ensures bits { AreBits result }
{
    let bin = data_bin(number);
    decided(modulation, bins[bin], symbol[bin])
}

// The bits decided of a received carrier and the channel there, with zeros behind them.
fn decided(modulation: Modulation, channel: Cx, carrier: Cx) -> [u8; 6]
    requires channel { IsWithin (2 ^ 23) channel }
    requires carrier { IsWithin (2 ^ 22) carrier }
    ensures value { (rate : Rate) → (row_of rate).modulation ≡ modulation
        → result ≡ decided_over rate channel carrier }
    ensures others { (j : ℕ) → bits_of_modulation modulation ≤ j → slice_index result j ≡ 0 }
    ensures bits { AreBits result }
{
    decide(
        modulation,
        turned_back(carrier, channel),
        size_squared(channel),
    )
}

// A received carrier times the conjugate of the channel there.
fn turned_back(carrier: Cx, channel: Cx) -> Cx
    requires carrier { IsWithin (2 ^ 22) carrier }
    requires channel { IsWithin (2 ^ 23) channel }
    ensures value { result ≡ times carrier (conjugate channel) }
    ensures within { IsWithin (2 ^ 46) result }
{
    mul(carrier, conj(channel))
}

// The square of a pair's size.
fn size_squared(z: Cx) -> i64
    requires { IsWithin (2 ^ 23) z }
    ensures value { result ≡ sum_of_squares z.re z.im }
    ensures least { pos 0 ≤ℤ result }
    ensures most { result ≤ℤ pos (2 ^ 47) }
{
    square(z.re) + square(z.im)
}

// The square of a number.
fn square(part: i64) -> i64
    requires { unsigned_abs part ≤ 2 ^ 23 }
    ensures value { result ≡ part *ℤ part }
    ensures least { pos 0 ≤ℤ result }
    ensures most { result ≤ℤ pos (2 ^ 46) }
{
    part * part
}
