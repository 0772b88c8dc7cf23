//! Symbols turned alike, all samples of one by the same turn.
ghost use Rattle.std.specs.Prelude.{◌≡◌, ◌^◌, ◌≤◌, length};
ghost use Rattle.fixed_complex.specs.Pairs.{IsWithin};
ghost use Rattle.lane_kernels.specs.Kernels.{held};
ghost use Rattle.symbol_turns.specs.Turning.{turned_sample, turned_samples};

use fixed_complex::{Cx, Sample, scaled, turn};

/// Turns the symbols of a frame that begins at a start: symbol n, whose 80 samples stand from
/// start + 320 + 80*n on, by step*(n + 1) 64ths of a circle, against the clock. The samples before stay as they are;
/// symbols go on to the end of the samples. A component is rounded half up and then held within -32768
/// to 32767 (own). At most 2^24 samples; `step` is at most 63. Takes no memory.
pub fn turn_symbols(start: u32, step: u32, samples: &mut [Sample])
    requires step { step ≤ 63 }
    requires samples { length samples.old ≤ 2 ^ 24 }
    ensures { samples.new ≡ turned_samples start step samples.old }
{
    let first = start as usize + 320;
    for place in first..samples.len() {
        let symbol = (place - first) / 80;
        samples[place] = turned(turn(step as usize * (symbol + 1)), samples[place]);
    }
}

// A sample times a turn.
fn turned(turn: Cx, sample: Sample) -> Sample
    requires { IsWithin (2 ^ 20) turn }
    ensures { result ≡ turned_sample turn sample }
{
    let product = scaled(
        turn,
        Cx {
            re: i64::from(sample.i),
            im: i64::from(sample.q),
        },
    );
    Sample {
        i: held(product.re),
        q: held(product.im),
    }
}

// A number held within 16 bits.
fn held(number: i64) -> i16
    ensures { result ≡ held number }
{
    number.clamp(-32768, 32767) as i16
}
