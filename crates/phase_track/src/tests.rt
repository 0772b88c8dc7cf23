ghost use Rattle.std.specs.Prelude.{◌≡◌, ◌^◌, ◌<◌, ◌≤◌, length};

use crate::{receive_phase, turn_symbols};
use fixed_complex::Sample;
use frame_fields::frame_samples;
use modem_ports::Steps;
use ofdm_scrambler::Seed;
use rate_table::Rate;
use std::alloc::Global;
use std::test::Fail;

// The turned frame of five octets at a rate, behind three silent samples.
fn turned(alloc: Global, rate: Rate, step: u32) -> Result<Vec<Sample>, Fail>
    requires { step ≤ 63 }
{
    let seed = Seed::new(93).ok_or("93")?;
    let mut capture = Vec::new(alloc);
    capture.extend_from_slice(&[Sample { i: 0, q: 0 }; 3])?;
    capture.extend_from_slice(&frame_samples(alloc, rate, seed, b"hello")?)?;
    if capture.len() > 16777216 {
        return Err("long".into());
    }
    turn_symbols(3, step, &mut capture);
    Ok(capture)
}

// Each step, at a rate of each modulation.
#[test]
fn each_step(rt: HostRuntime) -> Result<(), Fail> {
    let mut steps = Steps::new();
    for rate in [Rate::R6, Rate::R12, Rate::R24, Rate::R54] {
        for step in 0..64 {
            let capture = turned(rt.alloc(), rate, step)?;
            if capture.len() > 16777216 {
                return Err("long".into());
            }
            let heard = receive_phase(rt.alloc(), &capture, 3, &mut steps).map_err(|_| "no frame")?;
            assert!(rt; heard.psdu.as_slice() == b"hello".as_slice());
            assert_eq!(rt; heard.rate, rate);
        }
    }
    Ok(())
}
