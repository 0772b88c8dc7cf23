//! The DATA field of a frame, and the symbols of its bits (IEEE Std 802.11-2012, 18.3.5).
#![tactic(auto)]

ghost use Rattle.std.specs.Prelude.{◌≡◌, ◌+◌, ◌*◌, ◌%◌, length, take};
ghost use Rattle.bit_lists.specs.Bits.{AreBits};
ghost use Rattle.fixed_complex.specs.PairLists.{PairsWithin};
ghost use Rattle.rate_table.specs.declared.Rate.{Rate};
ghost use Rattle.rate_table.specs.Table.{row_of};
ghost use Rattle.rate_table.specs.Symbols.{IsLength, symbol_count};
ghost use Rattle.symbol_builder.specs.Carriers.{polarity_of};
ghost use Rattle.symbol_builder.specs.Points.{points_of};

use constellations::carrier_point;
use fixed_complex::Cx;
use rate_table::{Modulation, Rate};

mod code_points;
mod field;
pub mod laws;
mod samples;

pub use code_points::put_code_points;
pub use field::frame_field;
pub use samples::{carriers, put_symbol, symbol_samples};

/// How many samples of a frame stand before its DATA symbols: both training fields and SIGNAL.
const HEAD_SAMPLES: u32 = 400;

/// How many samples a symbol has.
const SYMBOL_SAMPLES: u32 = 80;

// The polarities of a period.
static POLARITIES: [i64; 127] = [
    1, 1, 1, 1, -1, -1, -1, 1, -1, -1, -1, -1, 1, 1, -1, 1, -1, -1, 1, 1, -1, 1, 1, -1, 1, 1, 1, 1,
    1, 1, -1, 1, 1, 1, -1, 1, 1, -1, -1, 1, 1, 1, -1, 1, -1, -1, -1, 1, -1, 1, -1, -1, 1, -1, -1,
    1, 1, 1, 1, 1, -1, -1, 1, 1, -1, -1, 1, -1, 1, -1, 1, 1, -1, -1, -1, 1, 1, -1, -1, -1, -1, 1,
    -1, -1, 1, -1, 1, 1, 1, 1, -1, 1, -1, 1, -1, 1, -1, -1, -1, -1, -1, 1, -1, 1, 1, -1, 1, -1, 1,
    1, 1, -1, -1, 1, -1, -1, -1, 1, 1, 1, -1, -1, -1, -1, -1, -1, -1,
];

/// How many samples the frame of a PSDU of so many octets, 1 to 4095, has at a rate: 400 and 80 for each DATA symbol
/// (IEEE Std 802.11-2012, 18.3.2.1). Takes no memory.
pub fn frame_len(rate: Rate, length: u16) -> u32
    requires octets { IsLength length }
    ensures { result ≡ 400 + 80 * symbol_count (row_of rate).field_bits length }
{
    HEAD_SAMPLES + SYMBOL_SAMPLES * rate.symbols(length)
}

/// The 48 points of a symbol's interleaved bits, which are the first N_CBPS entries: point d is that of the d-th group
/// of N_BPSC bits (IEEE Std 802.11-2012, 18.3.5.8). Each component is at most 700 in size. Takes no memory.
pub fn symbol_points(modulation: Modulation, bits: &[u8; 288]) -> [Cx; 48]
    requires { AreBits bits.now }
    ensures points { result ≡ points_of modulation bits.now }
    ensures of_symbol { (rate : Rate) → (row_of rate).modulation ≡ modulation
        → result ≡ points_of modulation (take (row_of rate).coded_bits bits.now) }
    ensures within { PairsWithin 700 result }
{
    let width = modulation.bits_per_carrier();
    let mut points = [Cx { re: 0, im: 0 }; 48];
    for d in 0..48 {
        points[d] = carrier_point(modulation, &bits[width * d..width * d + width]);
    }
    points
}

/// p_n, the polarity of the pilots of symbol n, with period 127: 1 or -1 (IEEE Std 802.11-2012, 18.3.5.10). SIGNAL has
/// n = 0, and the DATA symbols have n = 1 and on. Takes no memory.
pub fn polarity(n: u32) -> i64
    ensures { result ≡ polarity_of n }
{
    POLARITIES[(n % 127) as usize]
}

#[cfg(test)]
mod tests;
