use crate::{count_frames, surest_psdu, there_and_back};
use circular_buffer::HeapCircularBuffer;
use fixed_complex::Sample;
use modem_links::{Receiver, frame_samples};
use modem_ports::Steps;
use ofdm_scrambler::Seed;
use rate_table::Rate;
use soft_trellis::read_costs;
use std::test::Fail;
use viterbi_lanes::Trellis;

const SILENCE: Sample = Sample { i: 0, q: 0 };

#[test]
fn a_frame_comes_back(rt: HostRuntime) -> Result<(), Fail> {
    let seed = Seed::new(93).ok_or("93")?;
    let mut steps = Steps::new();
    let reception = there_and_back(rt.alloc(), Rate::R6, seed, b"hello", &mut steps)?;
    let heard = reception.heard.as_slice();
    assert_eq!(rt; heard.len(), 1);
    assert!(rt; heard[0].start == 0 && heard[0].rate == Rate::R6 && heard[0].seed == 93);
    assert!(rt; heard[0].psdu.as_slice() == b"hello".as_slice());
    Ok(())
}

#[test]
fn frames_are_counted(rt: HostRuntime) -> Result<(), Fail> {
    let seed = Seed::new(93).ok_or("93")?;
    let samples = frame_samples(rt.alloc(), Rate::R6, seed, b"hello")?;
    let mut frame = [SILENCE; 640];
    for n in 0..samples.len().min(640) {
        frame[n] = samples[n];
    }
    let window = HeapCircularBuffer::with_capacity(rt.alloc(), 1024)?;
    let trellis = Trellis::open(rt.alloc(), 32782)?;
    let field = vec![in rt.alloc(); 0u8; 32782]?;
    let octets = vec![in rt.alloc(); 0u8; 4095]?;
    let mut receiver = Receiver::open(window, trellis, field, octets);
    let mut steps = Steps::new();
    assert_eq!(rt; count_frames(&mut receiver, &frame, &mut steps), 1);
    assert_eq!(rt; count_frames(&mut receiver, &[SILENCE; 16], &mut steps), 0);
    Ok(())
}

// The kept code of one octet 0 at 6 Mb/s, of which five digits lean to the wrong bit.
#[test]
fn a_psdu_is_the_surest(rt: HostRuntime) -> Result<(), Fail> {
    let digits =
        b"00fff0f0ff0f000f00f00f00f0f0000088ff0070f0ff88f0f00f0000f0fffff0f0ff0f00f00f0ff0ff0ff000f00000ff";
    let values = read_costs(rt.alloc(), digits)?;
    assert!(rt; values.len() == 96);
    let mut steps = Steps::new();
    let psdu = surest_psdu(rt.alloc(), Rate::R6, 1, &values, &mut steps)?;
    assert!(rt; psdu.as_slice() == b"\0".as_slice());
    Ok(())
}
