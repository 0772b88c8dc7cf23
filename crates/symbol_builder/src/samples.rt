//! The carriers and the samples of a symbol.
ghost use Rattle.std.specs.Prelude.{◌≡◌};
ghost use Rattle.fixed_complex.specs.PairLists.{PairsWithin};
ghost use Rattle.fixed_complex.specs.Samples.{SamplesWithin};
ghost use Rattle.carrier_bins.specs.Bins.{all_bins};
ghost use Rattle.plain_waves.specs.Nearness.{AreNearPlain};
ghost use Rattle.symbol_builder.specs.Carriers.{pilot_at, plain_symbol, sent_symbol, symbol_bins};

use crate::polarity;
use carrier_bins::{bin, data_bin};
use fixed_complex::{Cx, Sample};
use plain_waves::put_sent_samples;

const ZERO: Cx = Cx { re: 0, im: 0 };

// What a pilot carries, but for its sign.
const PILOT_AMPLITUDE: i64 = 648;

/// What the carriers of symbol n carry, by bin: the 48 points, each component at most 700 in size, on the carriers of
/// their data numbers, the four pilots with the polarity of n, and 0 elsewhere (IEEE Std 802.11-2012, 18.3.5.9 and
/// 18.3.5.10). SIGNAL has n = 0, and the DATA symbols have n = 1 and on. Takes no memory.
pub fn carriers(points: &[Cx; 48], n: u32) -> [Cx; 64]
    requires { PairsWithin 700 points.now }
    ensures carriers { result ≡ symbol_bins points.now n }
    ensures within { PairsWithin 700 result }
{
    let mut carriers = [ZERO; 64];
    put_carriers(points, n, &mut carriers);
    carriers
}

// Puts what the carriers of symbol n carry in place of 64 pairs.
#[inline(always)]
fn put_carriers(points: &[Cx; 48], n: u32, carriers: &mut [Cx; 64])
    requires { PairsWithin 700 points.now }
    ensures carriers { carriers.new ≡ symbol_bins points.now n }
    ensures within { PairsWithin 700 carriers.new }
{
    put_pilots(n, carriers);
    for k in 0..48 {
        carriers[data_bin(k)] = points[k];
    }
}

// Puts the pilots of symbol n, by bin, and 0 elsewhere, in place of 64 pairs.
#[inline(always)]
fn put_pilots(n: u32, carriers: &mut [Cx; 64])
    ensures { carriers.new ≡ all_bins (pilot_at n) }
{
    let pilot = PILOT_AMPLITUDE * polarity(n);
    *carriers = [ZERO; 64];
    carriers[bin(-21)] = Cx { re: pilot, im: 0 };
    carriers[bin(-7)] = Cx { re: pilot, im: 0 };
    carriers[bin(7)] = Cx { re: pilot, im: 0 };
    carriers[bin(21)] = Cx { re: -pilot, im: 0 };
}

/// The 80 sent samples of symbol n, the cyclic prefix first, from its 48 points, each component at most 700 in size
/// (IEEE Std 802.11-2012, 18.3.2.5 and 18.3.5.10). Each sample is within 1 of the plain one, and no component is
/// larger than 25057 in size (own). Takes no memory.
pub fn symbol_samples(points: &[Cx; 48], n: u32) -> [Sample; 80]
    requires { PairsWithin 700 points.now }
    ensures samples { result ≡ sent_symbol points.now n }
    ensures near { AreNearPlain 1 result (plain_symbol points.now n) }
    ensures within { SamplesWithin 25057 result }
{
    let mut samples = [Sample { i: 0, q: 0 }; 80];
    put_symbol(points, n, &mut samples);
    samples
}

/// The same, put in place of 80 samples (own). Takes no memory.
pub fn put_symbol(points: &[Cx; 48], n: u32, samples: &mut [Sample; 80])
    requires { PairsWithin 700 points.now }
    ensures samples { samples.new ≡ sent_symbol points.now n }
    ensures near { AreNearPlain 1 samples.new (plain_symbol points.now n) }
    ensures within { SamplesWithin 25057 samples.new }
{
    let mut bins = [ZERO; 64];
    put_carriers(points, n, &mut bins);
    let (prefix, body) = samples.split_at_mut(16);
    put_sent_samples(&bins, body);
    prefix.copy_from_slice(&body[48..]);
}
