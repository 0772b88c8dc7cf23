use crate::{Taps, echo_bound, receive_at};
use fixed_complex::Sample;
use modem_links::{AtFault, frame_samples};
use modem_ports::Steps;
use ofdm_scrambler::Seed;
use rate_table::Rate;
use std::test::Fail;

// A frame at each rate comes back through seven echoes, whose sizes make 256.
#[test]
fn frames_with_echoes(rt: HostRuntime) -> Result<(), Fail> {
    let seed = Seed::new(93).ok_or("93")?;
    let taps = Taps::read("1 30 -20; 2 -40 0; 3 0 50; 4 10 10; 5 -20 20; 6 36 0; 7 0 -20").map_err(
        |_| "no taps",
    )?;
    let mut steps = Steps::new();
    for rate in [Rate::R6, Rate::R18, Rate::R36, Rate::R54] {
        let frame = frame_samples(rt.alloc(), rate, seed, b"hello")?;
        if frame.len() > 16777216 {
            return Err("long".into());
        }
        let echo = taps.apply(rt.alloc(), &frame)?;
        if echo.len() > 16777216 {
            return Err("long".into());
        }
        let heard = receive_at(rt.alloc(), &echo, 0, &mut steps).map_err(|_| "no frame")?;
        assert_eq!(rt; heard.rate, rate);
        assert_eq!(rt; heard.seed, 93);
        assert!(rt; heard.psdu.as_slice() == b"hello".as_slice());
    }
    Ok(())
}

#[test]
fn bounds(rt: HostRuntime) {
    assert_eq!(rt; echo_bound(Rate::R6), 32);
    assert_eq!(rt; echo_bound(Rate::R18), 18);
    assert_eq!(rt; echo_bound(Rate::R24), 8);
    assert_eq!(rt; echo_bound(Rate::R54), 4);
}

#[test]
fn nothing_past_the_end(rt: HostRuntime) {
    let mut steps = Steps::new();
    let answer = receive_at(rt.alloc(), &[Sample { i: 0, q: 0 }; 3], 4, &mut steps);
    let cut = matches!(
        &answer,
        Err(AtFault::CutAt {
            start: 4,
            have: 0,
            need: 400
        })
    );
    assert!(rt; cut);
}
