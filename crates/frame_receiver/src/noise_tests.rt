use crate::{ReceiveFault, receive};
use fixed_complex::Sample;
use frame_fields::frame_samples;
use frame_findings::{Heard, Reception};
use modem_ports::Steps;
use ofdm_scrambler::Seed;
use rate_table::Rate;
use std::alloc::Global;
use std::test::Fail;

const SILENCE: Sample = Sample { i: 0, q: 0 };

const HELLO: &[u8] = b"hello";

// Each rate with its noise bound.
const BOUNDS: [(Rate, i16); 8] = [
    (Rate::R6, 64),
    (Rate::R9, 64),
    (Rate::R12, 36),
    (Rate::R18, 36),
    (Rate::R24, 16),
    (Rate::R36, 16),
    (Rate::R48, 8),
    (Rate::R54, 8),
];

// The frame of these octets with the seed 93.
fn frame(alloc: Global, rate: Rate) -> Result<Vec<Sample>, Fail> {
    let seed = Seed::new(93).ok_or("93")?;
    Ok(frame_samples(alloc, rate, seed, HELLO)?)
}

// Noise of a size, of either sign.
fn signed(bound: i16, plus: bool) -> i16 {
    if plus {
        bound
    } else {
        0i16.saturating_sub(bound)
    }
}

// Samples with noise of a size behind those of a capture: eight times of one sign and eight times of the other, in Q a
// quarter of this period later than in I.
fn put_noisy(capture: &mut Vec<Sample>, samples: &[Sample], bound: i16) -> Result<(), Fail> {
    for (place, sample) in samples.iter().enumerate() {
        let phase = place % 16;
        capture.push(Sample {
            i: sample.i.saturating_add(signed(bound, phase < 8)),
            q: sample
                .q
                .saturating_add(signed(bound, 4 <= phase && phase < 12)),
        })?;
    }
    Ok(())
}

// What is received of a capture with a frame at least.
fn received(alloc: Global, capture: &[Sample]) -> Result<Reception, Fail> {
    if capture.len() > 16777216 {
        return Err("long".into());
    }
    let mut steps = Steps::new();
    Ok(receive(alloc, capture, &mut steps).map_err(|_| "no frame")?)
}

// Whether these octets were heard at a place and a rate.
fn is_hello(heard: &Heard, start: u32, rate: Rate) -> bool {
    heard.start == start
        && heard.rate == rate
        && heard.length == 5
        && heard.seed == 93
        && heard.psdu.as_slice() == HELLO
}

#[test]
fn noise_of_the_bound_at_each_rate(rt: HostRuntime) -> Result<(), Fail> {
    for (rate, bound) in BOUNDS {
        let mut capture = Vec::new(rt.alloc());
        put_noisy(&mut capture, &[SILENCE; 20], 64)?;
        put_noisy(&mut capture, &frame(rt.alloc(), rate)?, bound)?;
        put_noisy(&mut capture, &[SILENCE; 20], 64)?;
        let reception = received(rt.alloc(), &capture)?;
        let heard = reception.heard.as_slice();
        assert!(rt; heard.len() == 1);
        assert!(rt; is_hello(&heard[0], 20, rate));
        assert_eq!(rt; reception.cut, None);
    }
    Ok(())
}

// The least silence between two frames, with noise of the bound everywhere. The first one has 640 samples.
#[test]
fn two_rates_in_noise(rt: HostRuntime) -> Result<(), Fail> {
    let mut capture = Vec::new(rt.alloc());
    put_noisy(&mut capture, &frame(rt.alloc(), Rate::R6)?, 64)?;
    put_noisy(&mut capture, &[SILENCE; 16], 64)?;
    put_noisy(&mut capture, &frame(rt.alloc(), Rate::R54)?, 8)?;
    let reception = received(rt.alloc(), &capture)?;
    let heard = reception.heard.as_slice();
    assert!(rt; heard.len() == 2);
    assert!(rt; is_hello(&heard[0], 0, Rate::R6));
    assert!(rt; is_hello(&heard[1], 656, Rate::R54));
    assert_eq!(rt; reception.cut, None);
    Ok(())
}

// Every I is 63 too large, also those of the thousand samples of silence in front.
#[test]
fn raised_behind_silence(rt: HostRuntime) -> Result<(), Fail> {
    let mut capture = Vec::new(rt.alloc());
    for sample in &[SILENCE; 1000] {
        capture.push(Sample { i: 63, ..*sample })?;
    }
    for sample in &frame(rt.alloc(), Rate::R6)? {
        capture.push(Sample {
            i: sample.i.saturating_add(63),
            ..*sample
        })?;
    }
    let reception = received(rt.alloc(), &capture)?;
    let heard = reception.heard.as_slice();
    assert!(rt; heard.len() == 1);
    assert!(rt; is_hello(&heard[0], 1000, Rate::R6));
    Ok(())
}

// A frame without its last sample.
#[test]
fn cut_alone(rt: HostRuntime) -> Result<(), Fail> {
    let mut frame = frame(rt.alloc(), Rate::R6)?;
    let _ = frame.pop();
    let mut steps = Steps::new();
    if frame.len() > 16777216 {
        return Err("long".into());
    }
    let answer = receive(rt.alloc(), &frame, &mut steps);
    let cut = matches!(
        &answer,
        Err(ReceiveFault::CutFrame {
            start: 0,
            have: 639,
            need: 640
        })
    );
    assert!(rt; cut);
    Ok(())
}

// A hundred edges, as near to each other as edges can be.
#[test]
fn spikes(rt: HostRuntime) -> Result<(), Fail> {
    let mut capture = [SILENCE; 1700];
    for n in 0..100 {
        capture[17 * n].i = 300;
    }
    let mut steps = Steps::new();
    let answer = receive(rt.alloc(), &capture, &mut steps);
    assert!(rt; matches!(&answer, Err(ReceiveFault::NoFrame)));
    assert!(rt; steps.count() <= 54912);
    Ok(())
}
