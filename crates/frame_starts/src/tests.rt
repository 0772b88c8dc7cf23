ghost use Rattle.std.specs.Prelude.{◌≡◌, ◌^◌, ◌<◌, ◌≤◌, length};

use crate::{AtFault, read_at};
use fixed_complex::Sample;
use frame_fields::frame_samples;
use frame_findings::Heard;
use frame_reader::PlainDecider;
use modem_ports::Steps;
use ofdm_scrambler::Seed;
use rate_table::Rate;
use std::alloc::Global;
use std::test::Fail;

// The frame of five octets at 54 Mb/s, of one symbol, behind three loud samples.
fn capture(alloc: Global) -> Result<Vec<Sample>, Fail> {
    let seed = Seed::new(93).ok_or("93")?;
    let mut capture = Vec::new(alloc);
    capture.extend_from_slice(&[Sample { i: 9000, q: 0 }; 3])?;
    capture.extend_from_slice(&frame_samples(alloc, Rate::R54, seed, b"hello")?)?;
    Ok(capture)
}

// What the frame at a start comes to.
fn read(
    alloc: Global,
    capture: &[Sample],
    start: u32,
    steps: &mut Steps,
) -> Result<Result<Heard, AtFault>, Fail>
    requires { start < 2 ^ 24 }
{
    if capture.len() > 16777216 {
        return Err("long".into());
    }
    Ok(read_at(alloc, &PlainDecider, capture, start, steps))
}

// It is read where no edge is.
#[test]
fn frame_behind_loud_samples(rt: HostRuntime) -> Result<(), Fail> {
    let mut steps = Steps::new();
    let heard = read(rt.alloc(), &capture(rt.alloc())?, 3, &mut steps)?.map_err(|_| "no frame")?;
    assert_eq!(rt; heard.start, 3);
    assert_eq!(rt; heard.rate, Rate::R54);
    assert_eq!(rt; heard.length, 5);
    assert_eq!(rt; heard.seed, 93);
    assert!(rt; heard.psdu.as_slice() == b"hello".as_slice());
    assert_eq!(rt; steps.count(), 27 + 1 + 62);
    Ok(())
}

// Cut before the header, by the header, and past the end.
#[test]
fn cut_frames(rt: HostRuntime) -> Result<(), Fail> {
    let mut steps = Steps::new();
    let capture = capture(rt.alloc())?;
    let rows = [
        (402, 3, 399, 400),
        (482, 3, 479, 480),
        (480, 16777215, 0, 400),
    ];
    for (count, place, samples, all) in rows {
        let Some(front) = capture.get(..count) else {
            return Err("short".into());
        };
        let answer = read(rt.alloc(), front, place, &mut steps)?;
        let cut = matches!(
            &answer,
            Err(AtFault::CutAt { start, have, need })
                if *start == place && *have == samples && *need == all
        );
        assert!(rt; cut);
    }
    Ok(())
}
