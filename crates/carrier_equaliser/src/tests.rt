use crate::{Estimate, carriers_of};
use fixed_complex::{Cx, Sample};
use modem_ports::Steps;
use rate_table::Rate;
use training_fields::preamble;

const ZERO: Cx = Cx { re: 0, im: 0 };

const SILENCE: Sample = Sample { i: 0, q: 0 };

// The same sample at all 64 times: 64 times the sample stands in bin 0, and nothing elsewhere.
#[test]
fn equal_samples(rt: HostRuntime) {
    let mut steps = Steps::new();
    let carriers = carriers_of(&[Sample { i: 1000, q: -3 }; 64], &mut steps);
    assert_eq!(rt;
        carriers[0],
        Cx {
            re: 64000,
            im: -192
        }
    );
    for bin in 1..64 {
        assert_eq!(rt; carriers[bin], ZERO);
    }
    assert_eq!(rt; steps.count(), 1);
}

// A sample at time 0 alone stands in each bin.
#[test]
fn sample_at_time_0(rt: HostRuntime) {
    let mut body = [SILENCE; 64];
    body[0] = Sample {
        i: 32767,
        q: -32768,
    };
    let carriers = carriers_of(&body, &mut Steps::new());
    for bin in 0..64 {
        assert_eq!(rt;
            carriers[bin],
            Cx {
                re: 32767,
                im: -32768
            }
        );
    }
}

// A sample at time 16 alone turns back by a quarter from bin to bin. A second call is a second step.
#[test]
fn sample_at_time_16(rt: HostRuntime) {
    let turned = [
        Cx { re: 100, im: 7 },
        Cx { re: 7, im: -100 },
        Cx { re: -100, im: -7 },
        Cx { re: -7, im: 100 },
    ];
    let mut body = [SILENCE; 64];
    body[16] = Sample { i: 100, q: 7 };
    let mut steps = Steps::new();
    for _ in 0..2 {
        let carriers = carriers_of(&body, &mut steps);
        for bin in 0..64usize {
            assert_eq!(rt; carriers[bin], turned[bin % 4]);
        }
    }
    assert_eq!(rt; steps.count(), 2);
}

// Samples spread over all 16 bits.
fn spread_samples() -> [Sample; 64] {
    let mut body = [SILENCE; 64];
    for n in 0..64u32 {
        body[n as usize] = Sample {
            i: spread(7919 * n * n + 13),
            q: spread(10007 * n + 5 * n * n * n),
        };
    }
    body
}

// A number modulo 2^16, moved to the signed numbers of 16 bits.
fn spread(number: u32) -> i16 {
    ((number % 65536) as i32 - 32768) as i16
}

// Bins, and the carriers there.
const CARRIERS: [(usize, Cx); 6] = [
    (
        0,
        Cx {
            re: -32800,
            im: 59680,
        },
    ),
    (
        1,
        Cx {
            re: -73525,
            im: 7008,
        },
    ),
    (
        5,
        Cx {
            re: -173877,
            im: -30043,
        },
    ),
    (
        22,
        Cx {
            re: -32596,
            im: 54827,
        },
    ),
    (
        33,
        Cx {
            re: -72749,
            im: 26986,
        },
    ),
    (
        63,
        Cx {
            re: -76562,
            im: 111670,
        },
    ),
];

#[test]
fn carriers_of_spread_samples(rt: HostRuntime) {
    let carriers = carriers_of(&spread_samples(), &mut Steps::new());
    for (bin, carrier) in CARRIERS {
        assert!(rt; bin < 64);
        assert_eq!(rt; carriers[bin], carrier);
    }
}

// The signs L of the long training field on the 48 data carriers, from the lowest on.
const LONG_SIGNS: [u8; 48] = *b"++--+-+-++++++--+++-+++++--++--+-----++--+--++++";

// The long training field's own body over its own channel: in BPSK each decision is the carrier's sign.
#[test]
fn decisions_of_the_long_training_field(rt: HostRuntime) {
    let preamble = preamble();
    let mut body = [SILENCE; 64];
    for n in 0..64 {
        body[n] = preamble[192 + n];
    }
    let carriers = carriers_of(&body, &mut Steps::new());
    let mut decisions = [7; 288];
    Estimate::from_long(&carriers, &carriers).decisions(Rate::R6, &carriers, &mut decisions);
    for k in 0..48 {
        assert_eq!(rt; decisions[k] == 1, LONG_SIGNS[k] == b'+');
    }
    for k in 48..288 {
        assert_eq!(rt; decisions[k], 0);
    }
}
