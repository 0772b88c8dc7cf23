// Samples of symbols beside those that were computed elsewhere.
ghost use Rattle.std.specs.Prelude.{◌≤◌, unsigned_abs};
ghost use Rattle.fixed_complex.specs.PairLists.{PairsWithin};

use super::*;
use fixed_complex::Sample;

// Points of all levels of 64-QAM.
fn points() -> [Cx; 48]
    ensures { PairsWithin 700 result }
{
    let mut points = [Cx { re: 0, im: 0 }; 48];
    for k in 0..48usize {
        points[k] = Cx {
            re: level(3 * k),
            im: level(5 * k + 1),
        };
    }
    points
}

// A level of 64-QAM.
fn level(k: usize) -> i64
    ensures { unsigned_abs result ≤ 700 }
{
    100 * (2 * (k % 8) as i64 - 7)
}

// The number of a symbol, times, and the samples there.
const ROWS: [(u32, usize, Sample); 8] = [
    (0, 0, Sample { i: 1900, q: 1748 }),
    (0, 15, Sample { i: 727, q: 357 }),
    (0, 16, Sample { i: 648, q: 0 }),
    (0, 17, Sample { i: 387, q: -378 }),
    (4, 0, Sample { i: 1900, q: 452 }),
    (4, 15, Sample { i: -275, q: -786 }),
    (4, 16, Sample { i: -648, q: 0 }),
    (4, 79, Sample { i: -275, q: -786 }),
];

#[test]
fn samples_of_a_symbol(rt: HostRuntime) {
    let points = points();
    for (n, time, sample) in ROWS {
        let samples = symbol_samples(&points, n);
        assert!(rt; time < 80);
        assert_eq!(rt; samples[time], sample);
    }
}
