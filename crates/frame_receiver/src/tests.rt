ghost use Rattle.std.specs.Prelude.{◌≡◌, ◌+◌, ◌^◌, ◌≤◌, length};

use crate::reception::open_receiver;
use crate::{Found, ReceiveFault, Receiver, receive};
use fixed_complex::Sample;
use frame_fields::frame_samples;
use frame_findings::Cut;
use modem_ports::Steps;
use ofdm_scrambler::Seed;
use rate_table::Rate;
use std::alloc::Global;
use std::test::Fail;

const SILENCE: Sample = Sample { i: 0, q: 0 };

// The octets 0 to 99.
fn octets() -> [u8; 100] {
    let mut octets = [0; 100];
    for n in 0..100u8 {
        octets[usize::from(n)] = n;
    }
    octets
}

// Their frame at 36 Mb/s, with the seed 93, which has 880 samples.
fn frame(alloc: Global) -> Result<[Sample; 880], Fail> {
    let seed = Seed::new(93).ok_or("93")?;
    let samples = frame_samples(alloc, Rate::R36, seed, &octets())?;
    let mut frame = [SILENCE; 880];
    for n in 0..samples.len().min(880) {
        frame[n] = samples[n];
    }
    Ok(frame)
}

// All but the last of its samples.
fn begun(frame: &[Sample; 880]) -> &[Sample]
    ensures { length result.now ≡ 879 }
{
    &frame[..879]
}

// Pushes samples, and answers how many frames were found.
fn frames_found(receiver: &mut Receiver, samples: &[Sample], steps: &mut Steps) -> usize
    requires { receiver.old.tail.count + length samples.now ≤ 2 ^ 24 }
    ensures { receiver.new.tail.count ≡ receiver.old.tail.count + length samples.now }
{
    let mut found = 0;
    for sample in samples {
        if receiver.push(*sample, steps).is_some() {
            found += 1;
        }
    }
    found
}

#[test]
fn frame_as_its_samples_come(rt: HostRuntime) -> Result<(), Fail> {
    let frame = frame(rt.alloc())?;
    let mut receiver = open_receiver(rt.alloc())?;
    let mut steps = Steps::new();
    assert_eq!(rt; receiver.end(), None);
    assert_eq!(rt; receiver.held(), 0);
    assert_eq!(rt; frames_found(&mut receiver, begun(&frame), &mut steps), 0);
    let cut = Cut {
        start: 0,
        have: 879,
        need: 880,
    };
    assert_eq!(rt; receiver.end(), Some(cut));
    let found = Found {
        start: 0,
        rate: Rate::R36,
        length: 100,
        seed: 93,
    };
    assert_eq!(rt; receiver.push(frame[879], &mut steps), Some(found));
    assert!(rt; receiver.psdu() == octets().as_slice());
    assert_eq!(rt; receiver.end(), None);
    assert_eq!(rt; receiver.held(), 880);
    Ok(())
}

// A frame, the least silence, and all but one sample of a frame.
#[test]
fn frame_and_cut(rt: HostRuntime) -> Result<(), Fail> {
    let frame = frame(rt.alloc())?;
    let mut capture = Vec::new(rt.alloc());
    capture.extend_from_slice(&frame)?;
    capture.extend_from_slice(&[SILENCE; 16])?;
    capture.extend_from_slice(begun(&frame))?;
    assert!(rt; capture.len() == 1775);
    let mut steps = Steps::new();
    let reception = receive(rt.alloc(), &capture, &mut steps).map_err(|_| "no frame")?;
    let heard = reception.heard.as_slice();
    assert!(rt; heard.len() == 1);
    assert_eq!(rt; heard[0].start, 0);
    assert_eq!(rt; heard[0].length, 100);
    assert_eq!(rt; heard[0].seed, 93);
    assert!(rt; heard[0].psdu.as_slice() == octets().as_slice());
    let cut = Cut {
        start: 896,
        have: 879,
        need: 880,
    };
    assert_eq!(rt; reception.cut, Some(cut));
    Ok(())
}

#[test]
fn nothing_in_no_samples(rt: HostRuntime) -> Result<(), Fail> {
    let mut steps = Steps::new();
    let answer = receive(rt.alloc(), &[], &mut steps);
    assert!(rt; matches!(&answer, Err(ReceiveFault::NoFrame)));
    assert_eq!(rt; steps.count(), 0);
    Ok(())
}
