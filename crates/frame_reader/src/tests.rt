ghost use Rattle.std.specs.Prelude.{◌≡◌, ◌+◌, ◌*◌, ◌≤◌, length};
ghost use Rattle.frame_reader.specs.Frames.{symbols_of};
ghost use Rattle.rate_table.specs.Symbols.{IsLength, bits_through_tail};
ghost use Rattle.rate_table.specs.Table.{row_of};

use crate::{PlainDecider, finish_field, hear_symbol, look, read_front};
use carrier_equaliser::Estimate;
use fixed_complex::Sample;
use frame_fields::frame_samples;
use modem_ports::Steps;
use ofdm_scrambler::Seed;
use rate_table::Rate;
use signal_field::Header;
use std::alloc::{AllocError, Global};
use std::test::Fail;
use viterbi_lanes::Trellis;

// The first 400 samples.
fn opening(samples: &[Sample]) -> [Sample; 400]
    requires { 400 ≤ length samples.now }
{
    let mut opening = [Sample { i: 0, q: 0 }; 400];
    opening.copy_from_slice(&samples[..400]);
    opening
}

// The 64 samples of the body of a DATA symbol.
fn body(samples: &[Sample], symbol: usize) -> [Sample; 64]
    requires { 480 + 80 * symbol ≤ length samples.now }
{
    let mut body = [Sample { i: 0, q: 0 }; 64];
    body.copy_from_slice(&samples[416 + 80 * symbol..480 + 80 * symbol]);
    body
}

// Hears so many DATA symbols, which are all.
fn hear_symbols(
    samples: &[Sample],
    estimate: &Estimate,
    header: &Header,
    symbols: usize,
    trellis: &mut Trellis,
    steps: &mut Steps,
)
    requires octets { IsLength header.now.length }
    requires all { symbols ≡ symbols_of header.now }
    requires enough { bits_through_tail header.now.length
        ≤ symbols * (row_of header.now.rate).field_bits }
    requires long { 400 + 80 * symbols ≤ length samples.now }
    requires empty { length trellis.old.rows ≡ 0 }
    requires room { bits_through_tail header.now.length ≤ trellis.old.room }
    ensures { length trellis.new.rows ≡ bits_through_tail header.now.length }
{
    for symbol in 0..symbols {
        hear_symbol(
            &PlainDecider,
            &body(samples, symbol),
            estimate,
            header,
            symbol,
            trellis,
            steps,
        );
    }
}

// The header of a frame that begins with the first of some samples, the number of its field, and its octets; or none,
// where no frame begins there, or not all of it is there.
fn hear(
    alloc: Global,
    samples: &[Sample],
    octets: &mut [u8; 4095],
    steps: &mut Steps,
) -> Result<Option<(Header, u8)>, AllocError> {
    let mut trellis = Trellis::open(alloc, 32782)?;
    let mut estimate = Estimate::silent();
    let mut field = vec![in alloc; 0u8; 32782]?;
    if samples.len() < 400 {
        return Ok(None);
    }
    let Some(Ok(header)) = look(&opening(samples), &mut trellis, &mut estimate, steps) else {
        return Ok(None);
    };
    let symbols = header.rate.symbols(header.length) as usize;
    if samples.len() < 400 + 80 * symbols {
        return Ok(None);
    }
    hear_symbols(samples, &estimate, &header, symbols, &mut trellis, steps);
    let number = finish_field(&header, &mut trellis, &mut field, octets);
    Ok(Some((header, number)))
}

// A frame of five octets: at 6 Mb/s of three symbols, at 54 of one.
#[test]
fn frames_come_back(rt: HostRuntime) -> Result<(), Fail> {
    let seed = Seed::new(93).ok_or("93")?;
    let mut octets = [7; 4095];
    for (rate, count) in [(Rate::R6, 3 + 62 + 347), (Rate::R54, 1 + 62 + 347)] {
        let mut steps = Steps::new();
        let samples = frame_samples(rt.alloc(), rate, seed, b"hello")?;
        let heard = hear(rt.alloc(), &samples, &mut octets, &mut steps)?;
        let header = Header {
            rate,
            length: 5,
            reserved: 0,
        };
        assert!(rt; heard == Some((header, 93)));
        assert_eq!(rt; &octets[..6], b"hello\x07".as_slice());
        assert_eq!(rt; steps.count(), count);
    }
    Ok(())
}

// A constant doesn't match.
#[test]
fn no_frame(rt: HostRuntime) -> Result<(), Fail> {
    let mut octets = [7; 4095];
    let mut steps = Steps::new();
    let samples = [Sample { i: 1000, q: 0 }; 400];
    assert!(rt; hear(rt.alloc(), &samples, &mut octets, &mut steps)?.is_none());
    assert_eq!(rt; steps.count(), 320);
    Ok(())
}
