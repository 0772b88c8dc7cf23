use crate::{TapFault, Taps};
use fixed_complex::Sample;
use std::test::Fail;

#[test]
fn bad_texts(rt: HostRuntime) {
    let rows = [
        ("", 0),
        ("0 1 0", 0),
        ("8 1 0", 0),
        ("1 257 0", 4),
        ("1 256 -1", 6),
        ("1 -0 1", 3),
        ("1 01 1", 3),
        ("2 1 0; 1 1 0", 7),
        ("2 1 0; 2 1 0", 7),
        ("1 128 0; 2 128 1", 15),
        ("7 1 0; ", 5),
        ("1 1 0;2 1 0", 6),
        ("1 1", 3),
    ];
    for (text, place) in rows {
        match Taps::read(text) {
            Ok(_) => panic!(rt; "{text} is read"),
            Err(fault) => assert_eq!(rt; fault, TapFault::BadTaps { at: place }, "{text}"),
        }
    }
}

// A sample alone, and two of full scale, of which the second is held.
#[test]
fn echoes_of_samples(rt: HostRuntime) -> Result<(), Fail> {
    let silence = Sample { i: 0, q: 0 };
    let taps = Taps::read("3 200 -50").map_err(|_| "no taps")?;
    let echo = taps.apply(rt.alloc(), &[Sample { i: 1000, q: 0 }])?;
    let mut want = [silence; 8];
    want[0] = Sample { i: 1000, q: 0 };
    want[3] = Sample { i: 195, q: -49 };
    assert!(rt; echo.as_slice() == want.as_slice());
    let taps = Taps::read("1 256 0").map_err(|_| "no taps")?;
    let loud = Sample {
        i: 32767,
        q: -32768,
    };
    let echo = taps.apply(rt.alloc(), &[loud, loud])?;
    let mut want = [silence; 9];
    want[0] = loud;
    want[1] = loud;
    want[2] = Sample { i: 8192, q: -8192 };
    assert!(rt; echo.as_slice() == want.as_slice());
    let none = taps.apply(rt.alloc(), &[])?;
    assert!(rt; none.as_slice() == [silence; 7].as_slice());
    Ok(())
}

// The next state of a generator of pseudo-random numbers.
fn next(state: u64) -> u64 {
    state
        .wrapping_mul(6364136223846793005)
        .wrapping_add(1442695040888963407)
}

// Samples over the whole range of 16 bits.
fn samples() -> [Sample; 67] {
    let mut samples = [Sample { i: 0, q: 0 }; 67];
    let mut state = 5;
    for n in 0..67 {
        state = next(state);
        samples[n] = Sample {
            i: ((state >> 48) as u16).cast_signed(),
            q: (((state >> 32) % 65536) as u16).cast_signed(),
        };
    }
    samples
}

// A component over 1024, rounded half up and held.
fn plain_part(part: i64) -> i64 {
    part.wrapping_add(512).div_euclid(1024).clamp(-32768, 32767)
}

// The components of an echo at a place, by delays and their pairs.
fn plain_sample(pairs: &[(usize, i64, i64)], samples: &[Sample], place: usize) -> (i64, i64) {
    let (mut re, mut im) = (0i64, 0i64);
    for &(late, tap_re, tap_im) in pairs {
        if late <= place && place - late < samples.len() {
            let sample = samples[place - late];
            let (i, q) = (i64::from(sample.i), i64::from(sample.q));
            re = re
                .wrapping_add(tap_re.wrapping_mul(i))
                .wrapping_sub(tap_im.wrapping_mul(q));
            im = im
                .wrapping_add(tap_re.wrapping_mul(q))
                .wrapping_add(tap_im.wrapping_mul(i));
        }
    }
    (plain_part(re), plain_part(im))
}

#[test]
fn echoes_of_each_length(rt: HostRuntime) -> Result<(), Fail> {
    let samples = samples();
    let taps = Taps::read("1 30 -20; 2 -40 0; 4 10 10; 7 0 -146").map_err(|_| "no taps")?;
    let pairs = [
        (0, 1024, 0),
        (1, 30, -20),
        (2, -40, 0),
        (4, 10, 10),
        (7, 0, -146),
    ];
    for count in 0..68 {
        let echo = taps.apply(rt.alloc(), &samples[..count])?;
        assert_eq!(rt; echo.len(), count + 7);
        for (place, sample) in echo.iter().enumerate() {
            let (i, q) = plain_sample(&pairs, &samples[..count], place);
            assert!(rt;
                i64::from(sample.i) == i && i64::from(sample.q) == q,
                "{count} {place}"
            );
        }
    }
    Ok(())
}
