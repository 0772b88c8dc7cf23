ghost use Rattle.bit_lists.specs.Bits.{AreBits, IsBit};

use crate::{Field, SendFault, coded, decode_field, frame_samples, send};
use bit_lists::put_text;
use fixed_complex::Sample;
use modem_ports::{MemSink, Steps};
use ofdm_scrambler::Seed;
use rate_table::Rate;
use std::alloc::Global;
use std::test::Fail;

// The other bit.
fn other(bit: u8) -> u8
    ensures { IsBit result }
{
    u8::from(bit == 0)
}

// The other bit at some places.
fn flip(bits: &mut [u8], places: &[usize])
    requires { AreBits bits.old }
    ensures { AreBits bits.new }
{
    for place in places {
        if *place < bits.len() {
            bits[*place] = other(bits[*place]);
        }
    }
}

// The field of the kept code of the octet 0, with the seed 93, of which some bits are flipped.
fn field_with_flips(
    alloc: Global,
    rate: Rate,
    places: &[usize],
    steps: &mut Steps,
) -> Result<Field, Fail> {
    let seed = Seed::new(93).ok_or("93")?;
    let mut kept = coded(alloc, rate, seed, &[0])?;
    flip(&mut kept, places);
    Ok(decode_field(alloc, rate, 1, &kept, steps)?)
}

#[test]
fn kept_code_of_an_octet(rt: HostRuntime) -> Result<(), Fail> {
    let seed = Seed::new(93).ok_or("93")?;
    let kept = coded(rt.alloc(), Rate::R6, seed, &[0])?;
    let text = put_text(rt.alloc(), &kept)?;
    assert_eq!(rt;
        text.as_slice(),
        b"001110101101000100100100101000000011001010110010100100001011111010110100100101101101100010000011\n".as_slice()
    );
    Ok(())
}

// No flips; four that the nearest field differs in from another PSDU's; five, at a tie; and four, with all decisions
// behind the tail flipped.
#[test]
fn nearest_fields_at_6(rt: HostRuntime) -> Result<(), Fail> {
    let mut steps = Steps::new();
    let field = field_with_flips(rt.alloc(), Rate::R6, &[], &mut steps)?;
    assert_eq!(rt; field.seed, 93);
    assert_eq!(rt; field.psdu.as_slice(), [0].as_slice());
    assert_eq!(rt; field.distance, 0);
    assert_eq!(rt; steps.count(), 30);
    let places = [32, 33, 35, 36, 37, 38];
    let field = field_with_flips(rt.alloc(), Rate::R6, &places, &mut steps)?;
    assert_eq!(rt; field.psdu.as_slice(), [1].as_slice());
    assert_eq!(rt; field.distance, 4);
    let places = [32, 33, 38, 44, 45];
    let field = field_with_flips(rt.alloc(), Rate::R6, &places, &mut steps)?;
    assert_eq!(rt; field.psdu.as_slice(), [1].as_slice());
    assert_eq!(rt; field.distance, 5);
    let places = [
        52, 55, 58, 59, 60, 61, 62, 63, 64, 65, 66, 67, 68, 69, 70, 71, 72, 73, 74, 75, 76, 77, 78,
        79, 80, 81, 82, 83, 84, 85, 86, 87, 88, 89, 90, 91, 92, 93, 94, 95,
    ];
    let field = field_with_flips(rt.alloc(), Rate::R6, &places, &mut steps)?;
    assert_eq!(rt; field.psdu.as_slice(), [0].as_slice());
    assert_eq!(rt; field.distance, 4);
    assert_eq!(rt; steps.count(), 120);
    Ok(())
}

#[test]
fn two_flips_at_54(rt: HostRuntime) -> Result<(), Fail> {
    let mut steps = Steps::new();
    let field = field_with_flips(rt.alloc(), Rate::R54, &[0, 3], &mut steps)?;
    assert_eq!(rt; field.seed, 93);
    assert_eq!(rt; field.psdu.as_slice(), [0].as_slice());
    assert_eq!(rt; field.distance, 2);
    Ok(())
}

// Places, and the samples there of the frame of the octets `hello` at 54 Mb/s with the seed 93.
const SAMPLES: [(usize, Sample); 9] = [
    (0, Sample { i: 954, q: 954 }),
    (192, Sample { i: 3240, q: 0 }),
    (320, Sample { i: -1296, q: 2592 }),
    (335, Sample { i: 2051, q: 420 }),
    (399, Sample { i: 2051, q: 420 }),
    (400, Sample { i: -1700, q: -352 }),
    (401, Sample { i: 1324, q: 11 }),
    (415, Sample { i: -991, q: 767 }),
    (479, Sample { i: -991, q: 767 }),
];

#[test]
fn samples_of_a_frame(rt: HostRuntime) -> Result<(), Fail> {
    let seed = Seed::new(93).ok_or("93")?;
    let samples = frame_samples(rt.alloc(), Rate::R54, seed, b"hello")?;
    assert_eq!(rt; samples.len(), 480);
    for (place, sample) in SAMPLES {
        assert!(rt; samples.get(place) == Some(&sample), "sample {place}");
    }
    Ok(())
}

// The 3520 bytes of the frame of the octets 0 to 99 at 36 Mb/s, 1000 a call: whole, and where a call fails.
#[test]
fn bytes_of_a_frame(rt: HostRuntime) -> Result<(), Fail> {
    let seed = Seed::new(93).ok_or("93")?;
    let mut psdu = [0u8; 100];
    for k in 0..100u8 {
        psdu[usize::from(k)] = k;
    }
    let mut whole = MemSink::open(rt.alloc(), 4000, 1000, &[])?;
    send(rt.alloc(), Rate::R36, seed, &psdu, &mut whole)?;
    assert_eq!(rt; whole.taken().len(), 3520);
    assert!(rt; whole.taken().starts_with(&[0xBA, 0x03, 0xBA, 0x03]));
    assert!(rt;
        whole
            .taken()
            .ends_with(&[0xB0, 0xFD, 0x8F, 0x00, 0x90, 0xF6, 0x48, 0x00])
    );
    for call in 1..5u64 {
        let mut sink = MemSink::open(rt.alloc(), 4000, 1000, &[call])?;
        let failed = matches!(
            send(rt.alloc(), Rate::R36, seed, &psdu, &mut sink),
            Err(SendFault::Failed)
        );
        assert!(rt; failed, "call {call}");
        assert_eq!(rt;
            sink.taken().len(),
            1000 * (call as usize - 1),
            "bytes at {call}"
        );
        assert!(rt; whole.taken().starts_with(sink.taken()), "prefix at {call}");
    }
    Ok(())
}
