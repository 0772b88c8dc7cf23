//! Decisions of a symbol that is turned back.
ghost use Rattle.std.specs.Prelude.{◌≡◌, ℕ, ◌*◌, slice_index, take, ◌^◌, ◌<◌, ◌≤◌, ◌≤ℤ◌, ◌*ℤ◌, pos, unsigned_abs};
ghost use Rattle.bit_lists.specs.Bits.{AreBits};
ghost use Rattle.carrier_equaliser.specs.Decided.{decided_at, decided_over};
ghost use Rattle.fixed_complex.specs.PairLists.{PairsWithin};
ghost use Rattle.fixed_complex.specs.Pairs.{IsWithin, conjugate, multiple, times};
ghost use Rattle.integer_laws.specs.Size.{sum_of_squares};
ghost use Rattle.pilot_turns.specs.Turned.{interleaved_turned, phase_bound_of, turned_carriers, turned_channels};
ghost use Rattle.rate_table.specs.declared.Rate.{Rate};
ghost use Rattle.rate_table.specs.Table.{bits_of_modulation, row_of};

use carrier_bins::data_bin;
use carrier_equaliser::{Estimate, put_bits};
use constellations::decide_wide;
use fixed_complex::{Cx, mul};
use rate_table::{Modulation, Rate};

/// How far samples may be from the waveform of a frame with turns so that it is read: 20 at 6 and 9 Mb/s, 14 at 12 and 18,
/// 6 at 24 and 36, 3 at 48 and 54 (own). Takes no memory.
pub fn phase_bound(rate: Rate) -> u32
    ensures { result ≡ phase_bound_of (row_of rate).modulation }
{
    match rate.modulation() {
        Modulation::Bpsk => 20,
        Modulation::Qpsk => 14,
        Modulation::Qam16 => 6,
        Modulation::Qam64 => 3,
    }
}

/// The decisions of a symbol that is turned back by `turn`, over 16384: in interleaved order, with 0 in the entries past
/// N_CBPS. For each data number they are those of 16384 times what was received on its carrier, over the channel times the
/// turn (own). Components of `symbol` are at most 2^22 in size, those of `turn` at most 32768. Takes no memory.
pub fn turned_decisions(
    estimate: &Estimate,
    rate: Rate,
    symbol: &[Cx; 64],
    turn: Cx,
    out: &mut [u8; 288],
)
    requires symbol { PairsWithin (2 ^ 22) symbol.now }
    requires turn { IsWithin (2 ^ 15) turn }
    ensures list { take (row_of rate).coded_bits out.new
        ≡ interleaved_turned rate turn estimate.now symbol.now }
    ensures others { (k : ℕ) → (row_of rate).coded_bits ≤ k → slice_index out.new k ≡ 0 }
    ensures bits { AreBits out.new }
{
    // a loop for each modulation
    match rate.modulation() {
        Modulation::Bpsk => decide_numbers(Modulation::Bpsk, estimate, symbol, turn, out),
        Modulation::Qpsk => decide_numbers(Modulation::Qpsk, estimate, symbol, turn, out),
        Modulation::Qam16 => decide_numbers(Modulation::Qam16, estimate, symbol, turn, out),
        Modulation::Qam64 => decide_numbers(Modulation::Qam64, estimate, symbol, turn, out),
    }
}

// The decisions of all data numbers in turn, and zeros behind them.
#[inline(always)]
fn decide_numbers(
    modulation: Modulation,
    estimate: &Estimate,
    symbol: &[Cx; 64],
    turn: Cx,
    out: &mut [u8; 288],
)
    requires symbol { PairsWithin (2 ^ 22) symbol.now }
    requires turn { IsWithin (2 ^ 15) turn }
    ensures list { (rate : Rate) → (row_of rate).modulation ≡ modulation
        → take (row_of rate).coded_bits out.new
        ≡ interleaved_turned rate turn estimate.now symbol.now }
    ensures others { (k : ℕ) → 48 * bits_of_modulation modulation ≤ k → slice_index out.new k ≡ 0 }
    ensures bits { AreBits out.new }
{
    let width = modulation.bits_per_carrier();
    *out = [0; 288];
    for number in 0..48 {
        let bits = decided_number(modulation, estimate, symbol, turn, number);
        put_bits(out, number * width, &bits);
    }
}

// The bits decided of a data number, with zeros behind them.
fn decided_number(
    modulation: Modulation,
    estimate: &Estimate,
    symbol: &[Cx; 64],
    turn: Cx,
    number: usize,
) -> [u8; 6]
    requires symbol { PairsWithin (2 ^ 22) symbol.now }
    requires turn { IsWithin (2 ^ 15) turn }
    requires number { number < 48 }
    ensures value { (rate : Rate) → (row_of rate).modulation ≡ modulation
        → result
        ≡ decided_at rate (turned_channels turn estimate.now) (turned_carriers symbol.now) number }
    ensures others { (j : ℕ) → bits_of_modulation modulation ≤ j → slice_index result j ≡ 0 }
    ensures bits { AreBits result }
{
    let bin = data_bin(number);
    decided(modulation, mul(estimate.in_bin(bin), turn), symbol[bin])
}

// The bits decided of a received carrier over a channel with its turn, with zeros behind them.
fn decided(modulation: Modulation, channel: Cx, carrier: Cx) -> [u8; 6]
    requires channel { IsWithin (2 ^ 39) channel }
    requires carrier { IsWithin (2 ^ 22) carrier }
    ensures value { (rate : Rate) → (row_of rate).modulation ≡ modulation
        → result ≡ decided_over rate channel (multiple (pos 16384) carrier) }
    ensures others { (j : ℕ) → bits_of_modulation modulation ≤ j → slice_index result j ≡ 0 }
    ensures bits { AreBits result }
{
    let back = turned_back(carrier, channel);
    decide_wide(
        modulation,
        16384 * i128::from(back.re),
        16384 * i128::from(back.im),
        size_squared(channel),
    )
}

// A received carrier times the conjugate of the channel there.
fn turned_back(carrier: Cx, channel: Cx) -> Cx
    requires carrier { IsWithin (2 ^ 22) carrier }
    requires channel { IsWithin (2 ^ 39) channel }
    ensures value { result ≡ times carrier (conjugate channel) }
    ensures within { IsWithin (2 ^ 62) result }
{
    Cx {
        re: product(carrier.re, channel.re) + product(carrier.im, channel.im),
        im: product(carrier.im, channel.re) - product(carrier.re, channel.im),
    }
}

// A product that fits with another one beside it.
fn product(carrier: i64, channel: i64) -> i64
    requires carrier { unsigned_abs carrier ≤ 2 ^ 22 }
    requires channel { unsigned_abs channel ≤ 2 ^ 39 }
    ensures value { result ≡ carrier *ℤ channel }
    ensures within { unsigned_abs result ≤ 2 ^ 61 }
{
    carrier * channel
}

// The square of a pair's size.
fn size_squared(z: Cx) -> i128
    requires { IsWithin (2 ^ 39) z }
    ensures value { result ≡ sum_of_squares z.re z.im }
    ensures least { pos 0 ≤ℤ result }
    ensures most { result ≤ℤ pos (2 ^ 79) }
{
    square(z.re) + square(z.im)
}

// The square of a number.
fn square(part: i64) -> i128
    requires { unsigned_abs part ≤ 2 ^ 39 }
    ensures value { result ≡ part *ℤ part }
    ensures least { pos 0 ≤ℤ result }
    ensures most { result ≤ℤ pos (2 ^ 78) }
{
    i128::from(part) * i128::from(part)
}
