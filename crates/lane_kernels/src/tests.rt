use super::*;
use fixed_complex::{Cx, Sample};

// The next state of a generator of pseudo-random numbers.
fn next(state: u64) -> u64 {
    state
        .wrapping_mul(6364136223846793005)
        .wrapping_add(1442695040888963407)
}

// Samples over the whole range of 16 bits.
fn samples(seed: u64) -> [Sample; 67] {
    let mut samples = [Sample { i: 0, q: 0 }; 67];
    let mut state = seed;
    for n in 0..67 {
        state = next(state);
        samples[n] = Sample {
            i: ((state >> 48) as u16).cast_signed(),
            q: (((state >> 32) % 65536) as u16).cast_signed(),
        };
    }
    samples
}

// Samples at the ends of the range of 16 bits.
fn extreme_samples() -> [Sample; 67] {
    let mut samples = [Sample {
        i: -32768,
        q: -32768,
    }; 67];
    for n in 0..67 {
        if n % 3 == 1 {
            samples[n] = Sample {
                i: 32767,
                q: -32768,
            };
        }
    }
    samples
}

// Samples of which only the one at a place is loud, in Q.
fn quiet_but_at(place: usize) -> [Sample; 67] {
    let mut samples = [Sample { i: 256, q: -256 }; 67];
    if place < 67 {
        samples[place] = Sample { i: 0, q: -257 };
    }
    samples
}

fn plain_dot(a: &[Sample], b: &[Sample]) -> Cx {
    let mut dot = Cx { re: 0, im: 0 };
    for (x, y) in a.iter().zip(b) {
        let (xi, xq) = (i64::from(x.i), i64::from(x.q));
        let (yi, yq) = (i64::from(y.i), i64::from(y.q));
        dot = Cx {
            re: dot.re.wrapping_add(xi * yi).wrapping_add(xq * yq),
            im: dot.im.wrapping_add(xq * yi).wrapping_sub(xi * yq),
        };
    }
    dot
}

fn plain_energy(a: &[Sample]) -> i64 {
    let mut energy = 0i64;
    for x in a {
        let (i, q) = (i64::from(x.i), i64::from(x.q));
        energy = energy.wrapping_add(i * i + q * q);
    }
    energy
}

fn plain_first_loud(a: &[Sample]) -> usize {
    for (n, x) in a.iter().enumerate() {
        if x.i > 256 || x.i < -256 || x.q > 256 || x.q < -256 {
            return n;
        }
    }
    a.len()
}

fn plain_held(x: i16, y: i16) -> i32 {
    (i32::from(x) + i32::from(y)).clamp(-32768, 32767)
}

#[test]
fn dot_and_energy_of_each_length(rt: HostRuntime) {
    let (a, b) = (samples(1), samples(2));
    for n in 0..68 {
        assert!(rt; dot(&a[..n], &b[..n]) == plain_dot(&a[..n], &b[..n]));
        assert!(rt; energy(&a[..n]) == plain_energy(&a[..n]));
    }
}

#[test]
fn dot_and_energy_of_extreme_samples(rt: HostRuntime) {
    let (a, b) = (
        extreme_samples(),
        [Sample {
            i: -32768,
            q: -32768,
        }; 67],
    );
    for n in 0..68 {
        assert!(rt; dot(&a[..n], &b[..n]) == plain_dot(&a[..n], &b[..n]));
        assert!(rt; dot(&b[..n], &a[..n]) == plain_dot(&b[..n], &a[..n]));
        assert!(rt; energy(&a[..n]) == plain_energy(&a[..n]));
    }
}

#[test]
fn first_loud_of_each_length_and_place(rt: HostRuntime) {
    for place in 0..68 {
        let a = quiet_but_at(place);
        for n in 0..68 {
            assert!(rt; first_loud(&a[..n]) == plain_first_loud(&a[..n]));
        }
    }
}

#[test]
fn add_saturating_of_each_length(rt: HostRuntime) {
    let b = samples(4);
    for n in 0..68 {
        let a = samples(3);
        let mut sums = samples(3);
        add_saturating(&mut sums[..n], &b[..n]);
        for k in 0..67 {
            if k < n {
                assert!(rt; i32::from(sums[k].i) == plain_held(a[k].i, b[k].i));
                assert!(rt; i32::from(sums[k].q) == plain_held(a[k].q, b[k].q));
            } else {
                assert!(rt; sums[k] == a[k]);
            }
        }
    }
}
