//! Runs of `receive` over ports in memory.
ghost use Rattle.bit_lists.specs.Bits.{AreBits};

use crate::tests::{
    Out, a_hundred_octets, after, answers, check, check_in_pieces, refused, run_line, words_of,
    written,
};
use capture_files::write_samples;
use conv_code::encode;
use fixed_complex::Sample;
use frame_fields::points_of_code;
use modem_ports::{MemSink, MemSource, NeverFails, Steps};
use modem_runs::dry_run;
use rate_table::Rate;
use report_lines::Status;
use std::alloc::{AllocError, Global};
use std::test::Fail;
use symbol_builder::symbol_samples;
use training_fields::preamble;

// The line of a frame: the numbers, and its octets in hexadecimal.
pub(crate) fn line_of(alloc: Global, numbers: &str, octets: &[u8]) -> Result<String, AllocError> {
    let mut line = format!(in alloc; "frame {numbers} ")?;
    for octet in octets {
        let octet = *octet;
        line.push_str(&format!(in alloc; "{octet:02x}")?)?;
    }
    line.push_str("\n")?;
    Ok(line)
}

// The first so many bytes, or all where there are fewer.
pub(crate) fn front(bytes: &[u8], count: usize) -> &[u8] {
    &bytes[..count.min(bytes.len())]
}

// Two frames, 16 zero samples apart, and the second without its last sample.
#[test]
fn receives_frames(rt: HostRuntime) -> Result<(), Fail> {
    let octets = a_hundred_octets();
    let frame = written(rt.alloc(), "send 36 93", &octets)?;
    let mut two = Vec::from_slice(rt.alloc(), &frame)?;
    two.extend_from_slice(&[0; 64])?;
    two.extend_from_slice(&frame)?;
    let first = line_of(rt.alloc(), "0 36 100 93", &octets)?;
    let mut both = String::from_str(rt.alloc(), first.as_str())?;
    both.push_str(&line_of(rt.alloc(), "896 36 100 93", &octets)?)?;
    let mut cut = String::from_str(rt.alloc(), first.as_str())?;
    cut.push_str("cut 896 879 880\n")?;
    let rows: [(&[u8], &str); 3] = [
        (&frame, first.as_str()),
        (&two, both.as_str()),
        (front(&two, 7100), cut.as_str()),
    ];
    for (capture, lines) in rows {
        check(
            &rt,
            rt.alloc(),
            &answers("receive", capture, Out::Whole(lines.as_bytes())),
        )?;
    }
    Ok(())
}

// Frames behind silence, in noise that with the sender's rounding stays within the bound of their rates; and one behind a
// spike.
#[test]
fn receives_what_noise_wrote(rt: HostRuntime) -> Result<(), Fail> {
    let hundred = a_hundred_octets();
    let longer = vec![in rt.alloc(); 0xAAu8; 1500]?;
    let rows: [(&str, &[u8], &str, &str); 4] = [
        (
            "send 36 93",
            &hundred,
            "lead 1000; uniform 15 7; trail 500",
            "1000 36 100 93",
        ),
        (
            "send 6 93",
            &hundred,
            "lead 1000; uniform 63 7; trail 500",
            "1000 6 100 93",
        ),
        (
            "send 54 1",
            &longer,
            "lead 8000; uniform 7 1; trail 7120",
            "8000 54 1500 1",
        ),
        (
            "send 36 93",
            &hundred,
            "lead 100; spike 40 30000 0",
            "100 36 100 93",
        ),
    ];
    for (line, octets, script, numbers) in rows {
        let frame = written(rt.alloc(), line, octets)?;
        let capture = after(rt.alloc(), script, &frame)?;
        let heard = line_of(rt.alloc(), numbers, octets)?;
        check(
            &rt,
            rt.alloc(),
            &answers("receive", &capture, Out::Whole(heard.as_bytes())),
        )?;
    }
    Ok(())
}

#[test]
fn refuses_what_is_no_frame(rt: HostRuntime) -> Result<(), Fail> {
    let frame = written(rt.alloc(), "send 36 93", &a_hundred_octets())?;
    let rows: [(&[u8], Status, &str); 9] = [
        (b"", Status::NoFrame, "error 8: no frame\n"),
        (&[0; 4], Status::NoFrame, "error 8: no frame\n"),
        (
            &[0xBA, 0x03, 0xBA, 0x03],
            Status::NoFrame,
            "error 8: no frame\n",
        ),
        (&[0; 4000], Status::NoFrame, "error 8: no frame\n"),
        (
            front(&frame, 5),
            Status::BadInput,
            "error 4: capture ends after 5 bytes\n",
        ),
        (
            front(&frame, 3516),
            Status::CutFrame,
            "error 9: frame at 0 has 879 of 880 samples\n",
        ),
        (
            front(&frame, 3517),
            Status::BadInput,
            "error 4: capture ends after 3517 bytes\n",
        ),
        (
            front(&frame, 3518),
            Status::BadInput,
            "error 4: capture ends after 3518 bytes\n",
        ),
        (
            front(&frame, 3519),
            Status::BadInput,
            "error 4: capture ends after 3519 bytes\n",
        ),
    ];
    for (capture, status, report) in rows {
        check(
            &rt,
            rt.alloc(),
            &refused("receive", capture, status, report),
        )?;
    }
    Ok(())
}

// The same answers where the source gives one byte a call.
#[test]
fn receives_byte_by_byte(rt: HostRuntime) -> Result<(), Fail> {
    let octets = a_hundred_octets();
    let frame = written(rt.alloc(), "send 36 93", &octets)?;
    let line = line_of(rt.alloc(), "0 36 100 93", &octets)?;
    let rows = [
        answers("receive", &frame, Out::Whole(line.as_bytes())),
        refused(
            "receive",
            front(&frame, 3516),
            Status::CutFrame,
            "error 9: frame at 0 has 879 of 880 samples\n",
        ),
        refused(
            "receive",
            front(&frame, 5),
            Status::BadInput,
            "error 4: capture ends after 5 bytes\n",
        ),
    ];
    for row in rows {
        check_in_pieces(&rt, rt.alloc(), 1, &row)?;
    }
    Ok(())
}

// The sink has room for five bytes.
#[test]
fn writes_what_there_is_room_for(rt: HostRuntime) -> Result<(), Fail> {
    let frame = written(rt.alloc(), "send 36 93", &a_hundred_octets())?;
    let mut source = MemSource::open(rt.alloc(), &frame, 700, &[])?;
    let mut out = MemSink::open(rt.alloc(), 5, 1000, &[])?;
    let ran = run_line(rt.alloc(), "receive", &mut source, &mut out)?;
    assert!(rt; ran.0 == Status::WriteFault);
    assert!(rt; out.taken() == b"frame".as_slice());
    assert!(rt; ran.1.as_slice() == b"error 11: write fault\n".as_slice());
    Ok(())
}

// A hundred loud samples 17 apart cost no more steps than the bound has.
#[test]
fn hears_no_frame_in_a_hostile_capture(rt: HostRuntime) -> Result<(), Fail> {
    let mut capture = vec![in rt.alloc(); 0u8; 4 * 1700]?;
    for k in 0..100usize {
        capture[68 * k] = 0x2C;
        capture[68 * k + 1] = 0x01;
    }
    let words = words_of(rt.alloc(), "receive")?;
    let mut source = NeverFails::open(rt.alloc(), &capture)?;
    let mut report = MemSink::open(rt.alloc(), 80, 80, &[])?;
    let mut steps = Steps::new();
    let status = dry_run(rt.alloc(), &words, &mut source, &mut report, &mut steps);
    assert!(rt; status == Status::NoFrame);
    assert!(rt; report.taken() == b"error 8: no frame\n".as_slice());
    assert!(rt; steps.count() <= 54912);
    Ok(())
}

// The bits of the first 24 characters.
fn header_bits(text: &str) -> [u8; 24]
    ensures { AreBits result }
{
    let mut bits = [0; 24];
    for (place, character) in text.as_bytes().iter().enumerate() {
        if place < 24 && *character == b'1' {
            bits[place] = 1;
        }
    }
    bits
}

// The bytes of the preamble, a SIGNAL symbol of these bits, and 480 zero samples.
pub(crate) fn capture_of_header(alloc: Global, bits: &str) -> Result<Vec<u8>, Fail> {
    let code = encode(alloc, &header_bits(bits))?;
    let signal = symbol_samples(&points_of_code(Rate::R6, &code), 0);
    let mut capture = MemSink::open(alloc, 4000, 4096, &[])?;
    let _ = write_samples(&preamble(), &mut capture);
    let _ = write_samples(&signal, &mut capture);
    let _ = write_samples(&[Sample { i: 0, q: 0 }; 480], &mut capture);
    Ok(Vec::from_slice(alloc, capture.taken())?)
}

// Headers without a length, with an odd sum, and of no rate.
#[test]
fn hears_no_frame_behind_a_bad_header(rt: HostRuntime) -> Result<(), Fail> {
    for bits in [
        "110100000000000001000000",
        "101100010011000001000000",
        "000000010011000001000000",
    ] {
        let capture = capture_of_header(rt.alloc(), bits)?;
        assert_eq!(rt; capture.len(), 3520, "bytes of {bits}");
        check(
            &rt,
            rt.alloc(),
            &refused("receive", &capture, Status::NoFrame, "error 8: no frame\n"),
        )?;
    }
    Ok(())
}
