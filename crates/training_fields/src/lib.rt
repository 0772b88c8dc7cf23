//! The training fields of a frame (IEEE Std 802.11-2012, 18.3.3). No call takes memory.
#![tactic(auto)]

ghost use Rattle.std.specs.Prelude.{◌≡◌, ◌+◌, ◌*◌, ◌<◌, ◌≤◌, ◌++◌, unsigned_abs};
ghost use Rattle.fixed_complex.specs.Samples.{sample_at, SamplesWithin};
ghost use Rattle.carrier_bins.specs.Signs.{sign_at, sign_of};
ghost use Rattle.carrier_bins.specs.Bins.{all_bins, carrier_in};
ghost use Rattle.plain_waves.specs.Bodies.{plain_body, sent_body};
ghost use Rattle.plain_waves.specs.Nearness.{AreNearPlain};
ghost use Rattle.training_fields.specs.Training.{long_carrier, long_sign_of, long_times, preamble_of, short_carrier, short_sign_of, short_times, template_of};

use carrier_bins::carrier_in;
use fixed_complex::{Cx, Sample};
use plain_waves::plain_samples;

pub mod laws;

pub use plain_waves::sent_samples;

// The signs of the carriers from -26 to 26: + for 1, - for -1, and 0.
static SHORT_SIGNS: [u8; 53] = *b"00+000-000+000-000-000+0000000-000-000+000+000+000+00";

static LONG_SIGNS: [u8; 53] = *b"++--++-+-++++++--++-+-++++0+--++-+-+-----++--+-+-++++";

// Both components of a carrier of the short training field, and what one of the long training field carries.
const SHORT_AMPLITUDE: i64 = 954;

const LONG_AMPLITUDE: i64 = 648;

const ZERO: Cx = Cx { re: 0, im: 0 };

const SILENCE: Sample = Sample { i: 0, q: 0 };

/// L, the sign of a carrier in the long training field: 1 or -1, and 0 where L has no entry, for every number
/// (IEEE Std 802.11-2012, 18.3.3).
pub fn long_sign(carrier: i32) -> i64
    ensures sign { result ≡ long_sign_of carrier }
    ensures within { unsigned_abs result ≤ 1 }
{
    sign_at(&LONG_SIGNS, carrier)
}

// S, the sign of a carrier in the short training field.
fn short_sign(carrier: i32) -> i64
    ensures sign { result ≡ short_sign_of carrier }
    ensures within { unsigned_abs result ≤ 1 }
{
    sign_at(&SHORT_SIGNS, carrier)
}

// The sign of a carrier in a text of signs.
fn sign_at(signs: &[u8; 53], carrier: i32) -> i64
    ensures sign { result ≡ sign_at signs.now carrier }
    ensures within { unsigned_abs result ≤ 1 }
{
    match carrier {
        -26..=26 => sign_of(signs[(carrier + 26) as usize]),
        _ => 0,
    }
}

// The sign that a character stands for.
fn sign_of(character: u8) -> i64
    ensures sign { result ≡ sign_of character }
    ensures within { unsigned_abs result ≤ 1 }
{
    match character {
        b'+' => 1,
        b'-' => -1,
        _ => 0,
    }
}

/// What the carriers of the short training field carry, by bin: 954 times S on both components, in units of a carrier
/// (IEEE Std 802.11-2012, 18.3.3; the amplitude is own).
pub fn short_carriers() -> [Cx; 64]
    ensures { result ≡ all_bins short_carrier }
{
    let mut carriers = [ZERO; 64];
    for bin in 0..64 {
        let part = SHORT_AMPLITUDE * short_sign(carrier_in(bin));
        carriers[bin] = Cx { re: part, im: part };
    }
    carriers
}

/// What the carriers of the long training field carry, by bin: 648 times L on I, in units of a carrier
/// (IEEE Std 802.11-2012, 18.3.3; the amplitude is own).
pub fn long_carriers() -> [Cx; 64]
    ensures { result ≡ all_bins long_carrier }
{
    let mut carriers = [ZERO; 64];
    for bin in 0..64 {
        carriers[bin] = Cx {
            re: LONG_AMPLITUDE * long_sign(carrier_in(bin)),
            im: 0,
        };
    }
    carriers
}

/// The sent samples of both training fields, 160 each (IEEE Std 802.11-2012, 18.3.3). Each is within 1 of the plain
/// one, and no component is larger than 25057 in size (own).
pub fn preamble() -> [Sample; 320]
    ensures samples { result ≡ preamble_of sent_body }
    ensures near { AreNearPlain 1 result (preamble_of plain_body) }
    ensures within { SamplesWithin 25057 result }
{
    in_time(
        &sent_samples(&short_carriers()),
        &sent_samples(&long_carriers()),
    )
}

// Both training fields at their times, from the body of each.
fn in_time(short: &[Sample; 64], long: &[Sample; 64]) -> [Sample; 320]
    ensures { result ≡ short_times (sample_at short.now) ++ long_times (sample_at long.now) }
{
    let mut samples = [SILENCE; 320];
    for time in 0..160 {
        samples[time] = short[time % 64];
        samples[160 + time] = long[(time + 32) % 64];
    }
    samples
}

/// The template of the search for a frame: the 320 samples of the plain waveform of both training fields, each
/// component rounded half up (own).
pub fn template() -> [Sample; 320]
    ensures samples { result ≡ template_of }
    ensures within { SamplesWithin 25057 result }
{
    in_time(
        &plain_samples(&short_carriers()),
        &plain_samples(&long_carriers()),
    )
}

#[cfg(test)]
mod tests {
    use super::*;

    // Places, and the samples there, in the sent samples and in the template.
    const ROWS: [(usize, Sample); 4] = [
        (0, Sample { i: 954, q: 954 }),
        (17, Sample { i: -2747, q: 49 }),
        (192, Sample { i: 3240, q: 0 }),
        (319, Sample { i: -106, q: 2495 }),
    ];

    #[test]
    fn samples_of_both_fields(rt: HostRuntime) {
        let (sent, plain) = (preamble(), template());
        for (n, sample) in ROWS {
            assert!(rt; n < 320);
            assert_eq!(rt; sent[n], sample);
            assert_eq!(rt; plain[n], sample);
        }
    }
}
