//! Runs over ports in memory, with the rows of the commands.
use modem_ports::{Discard, MemSink, MemSource, NeverFails, Sink, Source, Steps, ZeroSource};
use modem_runs::{dry_run, run};
use report_lines::Status;
use std::alloc::{AllocError, Global};
use std::process::Abort;
use std::test::Fail;

// Room for what a test writes.
const ROOM: usize = 500_000;

// A run: its command line, its input, and what it must come to.
#[derive(Clone, Copy)]
pub(crate) struct Row<'a> {
    line: &'a str,
    input: &'a [u8],
    status: Status,
    out: Out<'a>,
    report: &'a str,
}

// What a run must write: these bytes, or so many with these at these places.
#[derive(Clone, Copy)]
pub(crate) enum Out<'a> {
    Whole(&'a [u8]),
    Parts(usize, &'a [(usize, &'a [u8])]),
}

impl Out<'_> {
    fn is(&self, taken: &[u8]) -> bool {
        match self {
            Out::Whole(bytes) => taken == *bytes,
            Out::Parts(len, parts) => {
                taken.len() == *len
                    && parts.iter().all(|(at, part)| taken
                        .get(*at..)
                        .is_some_and(|rest| rest.starts_with(part)))
            }
        }
    }
}

// A run that answers.
pub(crate) fn answers<'a>(line: &'a str, input: &'a [u8], out: Out<'a>) -> Row<'a> {
    Row {
        line,
        input,
        status: Status::Ok,
        out,
        report: "",
    }
}

// A run that is refused, and writes nothing.
pub(crate) fn refused<'a>(
    line: &'a str,
    input: &'a [u8],
    status: Status,
    report: &'a str,
) -> Row<'a> {
    Row {
        line,
        input,
        status,
        out: Out::Whole(b""),
        report,
    }
}

// Runs a row, and compares what it came to.
pub(crate) fn check(rt: &impl Abort, alloc: Global, row: &Row) -> Result<(), AllocError> {
    check_in_pieces(rt, alloc, 1000, row)
}

// The same over a source that gives so many bytes a call, and at least one.
pub(crate) fn check_in_pieces(
    rt: &impl Abort,
    alloc: Global,
    most: usize,
    row: &Row,
) -> Result<(), AllocError> {
    let mut source = MemSource::open(alloc, row.input, most.max(1), &[])?;
    let mut out = MemSink::open(alloc, ROOM, 4096, &[])?;
    let ran = run_line(alloc, row.line, &mut source, &mut out)?;
    assert!(rt; ran.0 == row.status, "status of {}", row.line);
    assert!(rt; row.out.is(out.taken()), "answer of {}", row.line);
    assert!(rt;
        ran.1.as_slice() == row.report.as_bytes(),
        "report of {}",
        row.line
    );
    Ok(())
}

// The words of a command line. What stands behind a colon and a space is one word.
pub(crate) fn words_of(alloc: Global, line: &str) -> Result<Vec<String>, AllocError> {
    let (plain, text) = match line.split_once(": ") {
        Some((plain, text)) => (plain, Some(text)),
        None => (line, None),
    };
    let mut words = Vec::new(alloc);
    for word in plain.split_whitespace() {
        words.push(String::from_str(alloc, word)?)?;
    }
    if let Some(text) = text {
        words.push(String::from_str(alloc, text)?)?;
    }
    Ok(words)
}

// Runs a command line over a source and a sink, and gives the status and what was reported.
pub(crate) fn run_line<S: Source, K: Sink>(
    alloc: Global,
    line: &str,
    source: &mut S,
    out: &mut K,
) -> Result<(Status, Vec<u8>), AllocError> {
    let words = words_of(alloc, line)?;
    let mut report = MemSink::open(alloc, 80, 80, &[])?;
    let mut steps = Steps::new();
    let status = run(alloc, &words, source, out, &mut report, &mut steps);
    Ok((status, Vec::from_slice(alloc, report.taken())?))
}

// The octets 0 to 99.
pub(crate) fn a_hundred_octets() -> [u8; 100] {
    let mut octets = [0; 100];
    for octet in 0..100u8 {
        octets[usize::from(octet)] = octet;
    }
    octets
}

// The kept code of the one octet 0 at 6 Mb/s with the seed 93.
const KEPT: &[u8] =
    b"001110101101000100100100101000000011001010110010100100001011111010110100100101101101100010000011\n";

// The same as digits, of which five lean to the wrong bit.
const LEANING: &[u8] =
    b"00fff0f0ff0f000f00f00f00f0f0000088ff0070f0ff88f0f00f0000f0fffff0f0ff0f00f00f0ff0ff0ff000f00000ff";

#[test]
fn answers_of_one_octet(rt: HostRuntime) -> Result<(), Fail> {
    let three_quarters = b"001010110000100010100001001011001000001111101100\n";
    let coded = b"001110101101000100100100101000000011001010110010100100001011111010110100\n";
    let rows = [
        ("bits 6 93", Out::Whole(KEPT)),
        ("bits 9 93", Out::Whole(three_quarters)),
        ("bits 48 93", Out::Parts(289, &[(0, b"001101110000")])),
        ("show kept 9 93", Out::Whole(three_quarters)),
        (
            "show scrambled 6 93",
            Out::Whole(b"011011000001100110101001000000110110100001010101\n"),
        ),
        ("show coded 9 93", Out::Whole(coded)),
        (
            "show interleaved 6 93",
            Out::Parts(97, &[(0, b"000000111")]),
        ),
        (
            "show points 6 93",
            Out::Parts(
                630,
                &[(
                    0,
                    b"-648 0\n-648 0\n-648 0\n-648 0\n-648 0\n-648 0\n648 0\n648 0\n648 0\n",
                )],
            ),
        ),
        (
            "show points 54 93",
            Out::Parts(
                436,
                &[(
                    0,
                    b"-300 300\n500 500\n100 300\n-700 100\n500 500\n300 100\n-300 -500\n",
                )],
            ),
        ),
    ];
    for (line, out) in rows {
        check(&rt, rt.alloc(), &answers(line, &[0], out))?;
    }
    Ok(())
}

// Samples 0 and 192, the first of DATA symbols 0 and 3, and the last.
#[test]
fn answers_of_a_hundred_octets(rt: HostRuntime) -> Result<(), Fail> {
    let samples: [(usize, &[u8]); 5] = [
        (0, &[0xBA, 0x03, 0xBA, 0x03]),
        (768, &[0xA8, 0x0C, 0x00, 0x00]),
        (1600, &[0xFD, 0xF3, 0xEC, 0xF8]),
        (2624, &[0xA9, 0xF4, 0x01, 0x04]),
        (3516, &[0x90, 0xF6, 0x48, 0x00]),
    ];
    let header = b"110100011010000100000010001111100111000000000000\n";
    let rows = [
        ("send 36 93", Out::Parts(3520, &samples)),
        ("show header 36 93", Out::Whole(header)),
        (
            "show samples 36 93",
            Out::Parts(8725, &[(0, b"954 954\n-2747 49\n-279 -1629\n")]),
        ),
    ];
    let octets = a_hundred_octets();
    for (line, out) in rows {
        check(&rt, rt.alloc(), &answers(line, &octets, out))?;
    }
    Ok(())
}

// The place at 6 Mb/s is in DATA symbol 126, whose polarity is that of SIGNAL.
#[test]
fn answers_of_the_longest_psdus(rt: HostRuntime) -> Result<(), Fail> {
    let rows: [(&str, u8, usize, &[(usize, &[u8])]); 3] = [
        ("bits 54 127", 0, 152 * 288 + 1, &[]),
        (
            "send 6 1",
            0,
            438720,
            &[
                (41984, &[0xA8, 0x0C, 0x00, 0x00]),
                (438712, &[0x3E, 0x02, 0xFE, 0x05, 0x49, 0xF5, 0xE0, 0x02]),
            ],
        ),
        (
            "send 54 127",
            0xFF,
            50240,
            &[
                (2624, &[0x38, 0xF7, 0x38, 0xFF]),
                (50232, &[0xCD, 0xFF, 0x28, 0x0B, 0x11, 0x03, 0x65, 0x09]),
            ],
        ),
    ];
    for (line, octet, len, parts) in rows {
        let octets = vec![in rt.alloc(); octet; 4095]?;
        check(
            &rt,
            rt.alloc(),
            &answers(line, &octets, Out::Parts(len, parts)),
        )?;
    }
    Ok(())
}

#[test]
fn refuses_words(rt: HostRuntime) -> Result<(), Fail> {
    let lines = [
        "bits 6 0",
        "bits 6 128",
        "bits 06 1",
        "bits 7 1",
        "bits 6 +1",
        "bits 6",
        "bits 6 93 1",
        "show headers 6 93",
        "show kept 6",
        "decode 6 0",
        "decode 6 4096",
        "decode 6 01",
        "decode 7 1",
        "decode 6",
        "decode-soft 6 4096",
        "decode_soft 6 1",
        "send 7 1",
        "send 6 0",
        "send 6 128",
        "send 06 1",
        "send 6",
        "noise",
        "noise lead 1",
        "send-list 1",
        "sendlist",
        "rotate 0 64",
        "rotate 01 0",
        "rotate 0 00",
        "rotate 16777216 0",
        "rotate 0",
        "receive-phase 01",
        "receive-phase 16777216",
        "receive-phase",
        "drill 0",
        "drill 1001",
        "drill 050",
        "drill",
        "receive-at",
        "receive-at 01",
        "receive-at 16777216",
        "receive-at 0 0",
        "",
    ];
    for line in lines {
        check(
            &rt,
            rt.alloc(),
            &refused(line, &[7], Status::BadWords, "error 1: words\n"),
        )?;
    }
    Ok(())
}

#[test]
fn refuses_inputs(rt: HostRuntime) -> Result<(), Fail> {
    let long = vec![in rt.alloc(); 0u8; 4096]?;
    let longer = vec![in rt.alloc(); 0u8; 5000]?;
    let rows: [(&str, &[u8], &str); 13] = [
        ("bits 6 93", &[], "error 2: empty psdu\n"),
        ("send 36 93", &[], "error 2: empty psdu\n"),
        ("bits 6 93", &long, "error 3: psdu over 4095 octets\n"),
        ("bits 6 93", &longer, "error 3: psdu over 4095 octets\n"),
        ("send 36 93", &long, "error 3: psdu over 4095 octets\n"),
        ("decode 6 1", b"01x", "error 6: no bit at 2\n"),
        ("decode 6 1", b"01\n", "error 7: 2 bits, need 96\n"),
        ("decode 6 1", b"", "error 7: 0 bits, need 96\n"),
        ("decode 6 1", b"\n0", "error 6: no bit at 0\n"),
        ("decode-soft 6 1", b"0G", "error 16: no cost at 1\n"),
        ("decode-soft 6 1", b"0F", "error 16: no cost at 1\n"),
        ("decode-soft 6 1", b"0f\n\n", "error 16: no cost at 2\n"),
        ("decode-soft 6 1", b"0f\n", "error 17: 2 costs, need 96\n"),
    ];
    for (line, input, report) in rows {
        check(
            &rt,
            rt.alloc(),
            &refused(line, input, Status::BadInput, report),
        )?;
    }
    Ok(())
}

// The command line is `noise` and one word more, which may be empty or have spaces.
fn check_noise(rt: &impl Abort, alloc: Global, row: &Row) -> Result<(), AllocError> {
    check_text(rt, alloc, "noise", row)
}

// The same behind another command.
fn check_text(rt: &impl Abort, alloc: Global, command: &str, row: &Row) -> Result<(), AllocError> {
    let mut words = words_of(alloc, command)?;
    words.push(String::from_str(alloc, row.line)?)?;
    let mut source = MemSource::open(alloc, row.input, 1000, &[])?;
    let mut out = MemSink::open(alloc, ROOM, 4096, &[])?;
    let mut report = MemSink::open(alloc, 80, 80, &[])?;
    let mut steps = Steps::new();
    let status = run(
        alloc,
        &words,
        &mut source,
        &mut out,
        &mut report,
        &mut steps,
    );
    assert!(rt; status == row.status, "status of {}", row.line);
    assert!(rt; row.out.is(out.taken()), "answer of {}", row.line);
    assert!(rt;
        report.taken() == row.report.as_bytes(),
        "report of {}",
        row.line
    );
    Ok(())
}

#[test]
fn noise_of_scripts(rt: HostRuntime) -> Result<(), Fail> {
    let rows: [(&str, &[u8], &[u8]); 6] = [
        (
            "lead 2; spike 1 5 -7; trail 1",
            b"",
            &[0, 0, 0, 0, 5, 0, 0xF9, 0xFF, 0, 0, 0, 0],
        ),
        (
            "lead 1; spike 0 30000 -30000; spike 0 30000 -30000",
            b"",
            &[0xFF, 0x7F, 0x00, 0x80],
        ),
        ("lead 3; cut 1 5", b"", &[0, 0, 0, 0]),
        ("uniform 1 0", b"", b""),
        ("uniform 15 7", &[0; 4], &[11, 0, 0xFD, 0xFF]),
        (
            "spike 1 1 -1",
            b"12345678",
            &[49, 50, 51, 52, 54, 54, 54, 56],
        ),
    ];
    for (script, input, out) in rows {
        check_noise(&rt, rt.alloc(), &answers(script, input, Out::Whole(out)))?;
    }
    Ok(())
}

// A bad script is refused whatever the input holds.
#[test]
fn refuses_scripts(rt: HostRuntime) -> Result<(), Fail> {
    let rows = [
        ("", "error 13: bad script at 0\n"),
        ("lead", "error 13: bad script at 4\n"),
        ("lead 01", "error 13: bad script at 6\n"),
        ("lead 1;uniform 1 1", "error 13: bad script at 7\n"),
        ("lead 5;", "error 13: bad script at 7\n"),
        ("lead 1048577", "error 13: bad script at 11\n"),
        ("spike 0 -0 1", "error 13: bad script at 9\n"),
    ];
    for (script, report) in rows {
        for input in [&b"modem"[..], &b"a modem!"[..]] {
            check_noise(
                &rt,
                rt.alloc(),
                &refused(script, input, Status::BadWords, report),
            )?;
        }
    }
    Ok(())
}

// The numbers are those of the definition, worked by hand.
#[test]
fn echoes_of_captures(rt: HostRuntime) -> Result<(), Fail> {
    let rows: [(&str, &[u8], Out); 3] = [
        ("1 256 0", b"", Out::Parts(28, &[(0, &[0; 28])])),
        (
            "3 200 -50",
            &[0xE8, 0x03, 0, 0],
            Out::Parts(
                32,
                &[(0, &[0xE8, 0x03, 0, 0]), (12, &[0xC3, 0, 0xCF, 0xFF])],
            ),
        ),
        (
            "1 256 0",
            &[0xFF, 0x7F, 0, 0x80, 0xFF, 0x7F, 0, 0x80],
            Out::Parts(36, &[(4, &[0xFF, 0x7F, 0, 0x80, 0, 0x20, 0, 0xE0])]),
        ),
    ];
    for (taps, input, out) in rows {
        check_text(&rt, rt.alloc(), "echo", &answers(taps, input, out))?;
    }
    Ok(())
}

// A quarter turn of the sample behind a preamble, and the last start.
#[test]
fn turns_of_captures(rt: HostRuntime) -> Result<(), Fail> {
    let mut capture = [0; 1284];
    capture[1280] = 100;
    capture[1282] = 7;
    let turned = [(0, &[0; 1280][..]), (1280, &[0xF9, 0xFF, 100, 0])];
    let rows: [(&str, &[u8], Out); 4] = [
        ("rotate 0 5", b"", Out::Whole(b"")),
        ("rotate 0 16", &capture, Out::Parts(1284, &turned)),
        ("rotate 1 16", &capture, Out::Whole(&capture)),
        ("rotate 16777215 63", b"12345678", Out::Whole(b"12345678")),
    ];
    for (line, input, out) in rows {
        check(&rt, rt.alloc(), &answers(line, input, out))?;
    }
    Ok(())
}

// Bad taps are refused whatever the input holds.
#[test]
fn refuses_taps(rt: HostRuntime) -> Result<(), Fail> {
    let rows = [
        ("", "error 20: bad taps at 0\n"),
        ("1 257 0", "error 20: bad taps at 4\n"),
        ("2 1 0; 1 1 0", "error 20: bad taps at 7\n"),
        ("1 256 -1", "error 20: bad taps at 6\n"),
        ("7 1 0; ", "error 20: bad taps at 5\n"),
    ];
    for (taps, report) in rows {
        check_text(
            &rt,
            rt.alloc(),
            "echo",
            &refused(taps, b"modem", Status::BadWords, report),
        )?;
    }
    check_text(
        &rt,
        rt.alloc(),
        "echo",
        &refused(
            "1 1 0",
            b"modem",
            Status::BadInput,
            "error 4: capture ends after 5 bytes\n",
        ),
    )?;
    Ok(())
}

#[test]
fn refuses_torn_captures(rt: HostRuntime) -> Result<(), Fail> {
    let rows: [(&[u8], &str); 3] = [
        (b"m", "error 4: capture ends after 1 bytes\n"),
        (b"modem", "error 4: capture ends after 5 bytes\n"),
        (&[0; 4003], "error 4: capture ends after 4003 bytes\n"),
    ];
    for (input, report) in rows {
        check_noise(
            &rt,
            rt.alloc(),
            &refused("lead 1", input, Status::BadInput, report),
        )?;
    }
    Ok(())
}

// A text with the characters at some places changed.
fn flipped(alloc: Global, bits: &[u8], places: &[usize]) -> Result<Vec<u8>, AllocError> {
    let mut text = Vec::from_slice(alloc, bits)?;
    for place in places {
        if let Some(character) = text.get_mut(*place) {
            *character ^= 1;
        }
    }
    Ok(text)
}

#[test]
fn decodes_with_flips(rt: HostRuntime) -> Result<(), Fail> {
    let rows: [(&[usize], u8); 6] = [
        (&[], 0),
        (&[0, 1, 2, 3], 0),
        (&[56, 57, 58, 59], 0),
        (
            &[
                52, 55, 58, 59, 60, 61, 62, 63, 64, 65, 66, 67, 68, 69, 70, 71, 72, 73, 74, 75, 76,
                77, 78, 79, 80, 81, 82, 83, 84, 85, 86, 87, 88, 89, 90, 91, 92, 93, 94, 95,
            ],
            0,
        ),
        // Six flips lead to another field, and five to a tie.
        (&[32, 33, 35, 36, 37, 38], 1),
        (&[32, 33, 38, 44, 45], 1),
    ];
    for (places, octet) in rows {
        let text = flipped(rt.alloc(), KEPT, places)?;
        check(
            &rt,
            rt.alloc(),
            &answers("decode 6 1", &text, Out::Whole(&[octet])),
        )?;
    }
    Ok(())
}

// The digits `0` and `f` of a text of bits.
fn digits_of(alloc: Global, text: &[u8]) -> Result<Vec<u8>, AllocError> {
    let mut digits = Vec::with_capacity(alloc, text.len())?;
    for character in text {
        digits.push(if *character == b'1' { b'f' } else { *character })?;
    }
    Ok(digits)
}

// Digits of which five lean to the wrong bit, and texts of bits with flips, as digits that are sure.
#[test]
fn decodes_costs(rt: HostRuntime) -> Result<(), Fail> {
    check(
        &rt,
        rt.alloc(),
        &answers("decode-soft 6 1", LEANING, Out::Whole(&[0])),
    )?;
    let rows: [(&[usize], u8); 3] = [
        (&[0, 1, 2, 3], 0),
        (&[32, 33, 35, 36, 37, 38], 1),
        (&[32, 33, 38, 44, 45], 1),
    ];
    for (places, octet) in rows {
        let text = flipped(rt.alloc(), KEPT, places)?;
        let digits = digits_of(rt.alloc(), &text)?;
        check(
            &rt,
            rt.alloc(),
            &answers("decode-soft 6 1", &digits, Out::Whole(&[octet])),
        )?;
    }
    Ok(())
}

// At 54 Mb/s two flips are repaired.
#[test]
fn decodes_what_bits_wrote_with_flips(rt: HostRuntime) -> Result<(), Fail> {
    let mut source = MemSource::open(rt.alloc(), &[0], 64, &[])?;
    let mut bits = MemSink::open(rt.alloc(), ROOM, 1000, &[])?;
    run_line(rt.alloc(), "bits 54 93", &mut source, &mut bits)?;
    let text = flipped(rt.alloc(), bits.taken(), &[0, 3])?;
    check(
        &rt,
        rt.alloc(),
        &answers("decode 54 1", &text, Out::Whole(&[0])),
    )?;
    Ok(())
}

// Three calls give an octet each, and the fourth finds the end; two calls give the octets; six give the capture.
#[test]
fn reports_a_failing_source(rt: HostRuntime) -> Result<(), Fail> {
    let octets = a_hundred_octets();
    let frame = written(rt.alloc(), "send 36 93", &octets)?;
    for (line, input, most, calls) in [
        ("bits 6 93", &octets[..3], 1, 4),
        ("send 36 93", &octets[..], 64, 3),
        ("receive", &frame[..], 700, 7),
        ("receive-at 0", &frame[..], 700, 7),
        ("receive-phase 0", &frame[..], 700, 7),
        ("rotate 0 5", &frame[..], 700, 7),
        ("echo: 7 200 -50", &frame[..], 700, 7),
        ("noise: lead 0", &frame[..], 700, 7),
        ("send-list", &b"36 93 16 00\n6 1 20 ff\n"[..], 8, 4),
    ] {
        for call in 1..9u64 {
            let mut source = MemSource::open(rt.alloc(), input, most, &[call])?;
            let mut out = MemSink::open(rt.alloc(), ROOM, 1000, &[])?;
            let ran = run_line(rt.alloc(), line, &mut source, &mut out)?;
            let failed = call <= calls;
            assert!(rt;
                (ran.0 == Status::ReadFault) == failed,
                "status of {line} at {call}"
            );
            assert!(rt;
                out.taken().is_empty() == failed,
                "answer of {line} at {call}"
            );
            let report: &[u8] = if failed {
                b"error 10: read fault\n"
            } else {
                b""
            };
            assert!(rt; ran.1.as_slice() == report, "report of {line} at {call}");
        }
    }
    Ok(())
}

// The 97 bytes go in pieces of 40, the 3520 in pieces of 1000, and the 219 of the frame's line in pieces of 100.
#[test]
fn reports_a_failing_sink(rt: HostRuntime) -> Result<(), Fail> {
    let octets = a_hundred_octets();
    let frame = written(rt.alloc(), "send 36 93", &octets)?;
    for (line, input, most, calls) in [
        ("bits 6 93", &octets[..1], 40, 3),
        ("send 36 93", &octets[..], 1000, 4),
        ("receive", &frame[..], 100, 3),
        ("receive-at 0", &frame[..], 100, 3),
        ("receive-phase 0", &frame[..], 100, 3),
        ("rotate 0 5", &frame[..], 1000, 4),
        ("echo: 7 200 -50", &frame[..], 1000, 4),
        ("noise: lead 0", &frame[..], 1000, 4),
    ] {
        let mut source = MemSource::open(rt.alloc(), input, 64, &[])?;
        let mut whole = MemSink::open(rt.alloc(), 4000, most, &[])?;
        run_line(rt.alloc(), line, &mut source, &mut whole)?;
        for call in 1..6u64 {
            let mut source = MemSource::open(rt.alloc(), input, 64, &[])?;
            let mut out = MemSink::open(rt.alloc(), 4000, most, &[call])?;
            let ran = run_line(rt.alloc(), line, &mut source, &mut out)?;
            let failed = call <= calls;
            assert!(rt;
                (ran.0 == Status::WriteFault) == failed,
                "status of {line} at {call}"
            );
            let count = if failed {
                most.saturating_mul(call as usize - 1)
            } else {
                whole.taken().len()
            };
            assert_eq!(rt; out.taken().len(), count, "bytes of {line} at {call}");
            assert!(rt;
                whole.taken().starts_with(out.taken()),
                "prefix of {line} at {call}"
            );
            let report: &[u8] = if failed {
                b"error 11: write fault\n"
            } else {
                b""
            };
            assert!(rt; ran.1.as_slice() == report, "report of {line} at {call}");
        }
    }
    Ok(())
}

#[test]
fn keeps_the_status_where_the_report_fails(rt: HostRuntime) -> Result<(), Fail> {
    let words = words_of(rt.alloc(), "bits 6 128")?;
    let mut source = MemSource::open(rt.alloc(), &[0], 64, &[])?;
    let mut out = MemSink::open(rt.alloc(), ROOM, 64, &[])?;
    let mut report = MemSink::open(rt.alloc(), 80, 4, &[3])?;
    let mut steps = Steps::new();
    let status = run(
        rt.alloc(),
        &words,
        &mut source,
        &mut out,
        &mut report,
        &mut steps,
    );
    assert!(rt; status == Status::BadWords);
    assert!(rt; report.taken() == b"error 1:".as_slice());
    assert_eq!(rt; steps.count(), 0);
    Ok(())
}

// The source never ends, so only its limit ends the reading.
#[test]
fn refuses_endless_inputs(rt: HostRuntime) -> Result<(), Fail> {
    let rows = [
        ("bits 6 93", "error 3: psdu over 4095 octets\n"),
        ("decode 6 1", "error 5: input over 67108864 bytes\n"),
        ("receive", "error 5: input over 67108864 bytes\n"),
        ("send-list", "error 5: input over 67108864 bytes\n"),
        ("decode-soft 6 1", "error 5: input over 67108864 bytes\n"),
    ];
    for (line, report) in rows {
        let ran = run_line(
            rt.alloc(),
            line,
            &mut ZeroSource::new(),
            &mut Discard::new(),
        )?;
        assert!(rt; ran.0 == Status::BadInput, "status of {line}");
        assert!(rt; ran.1.as_slice() == report.as_bytes(), "report of {line}");
    }
    Ok(())
}

#[test]
fn decodes_over_ports_that_never_fail(rt: HostRuntime) -> Result<(), Fail> {
    let words = words_of(rt.alloc(), "decode 6 1")?;
    let mut steps = Steps::new();
    let mut source = NeverFails::open(rt.alloc(), KEPT)?;
    let mut out = MemSink::open(rt.alloc(), 10, 10, &[])?;
    let status = run(
        rt.alloc(),
        &words,
        &mut source,
        &mut out,
        &mut Discard::new(),
        &mut steps,
    );
    assert!(rt; status == Status::Ok);
    assert_eq!(rt; out.taken(), [0].as_slice());
    let mut again = NeverFails::open(rt.alloc(), KEPT)?;
    let ended = dry_run(
        rt.alloc(),
        &words,
        &mut again,
        &mut Discard::new(),
        &mut steps,
    );
    assert!(rt; ended == Status::Ok);
    Ok(())
}

// The bytes of what a command line writes.
pub(crate) fn written(alloc: Global, line: &str, input: &[u8]) -> Result<Vec<u8>, AllocError> {
    let mut source = MemSource::open(alloc, input, 1000, &[])?;
    let mut out = MemSink::open(alloc, ROOM, 4096, &[])?;
    run_line(alloc, line, &mut source, &mut out)?;
    Vec::from_slice(alloc, out.taken())
}

// The bytes of a capture after a script.
pub(crate) fn after(alloc: Global, script: &str, input: &[u8]) -> Result<Vec<u8>, AllocError> {
    text_written(alloc, "noise", script, input)
}

// The bytes of what a command writes that carries a text.
pub(crate) fn text_written(
    alloc: Global,
    command: &str,
    text: &str,
    input: &[u8],
) -> Result<Vec<u8>, AllocError> {
    let mut words = words_of(alloc, command)?;
    words.push(String::from_str(alloc, text)?)?;
    let mut source = MemSource::open(alloc, input, 1000, &[])?;
    let mut out = MemSink::open(alloc, ROOM, 4096, &[])?;
    let mut steps = Steps::new();
    run(
        alloc,
        &words,
        &mut source,
        &mut out,
        &mut Discard::new(),
        &mut steps,
    );
    Vec::from_slice(alloc, out.taken())
}

#[test]
fn inspects_captures(rt: HostRuntime) -> Result<(), Fail> {
    let frame = written(rt.alloc(), "send 36 93", &a_hundred_octets())?;
    let spiked = after(rt.alloc(), "lead 100; spike 40 30000 0", &frame)?;
    let text = written(rt.alloc(), "inspect", &spiked)?;
    assert!(rt;
        text.as_slice()
            .starts_with(b"edge 40 nomatch\nedge 100 header 36 100 0\n")
    );
    let rows: [(&[u8], &[u8]); 3] = [
        (&[0xBA, 0x03, 0xBA, 0x03], b"edge 0 short\n"),
        (&[0; 64], b""),
        (b"", b""),
    ];
    for (capture, lines) in rows {
        check(
            &rt,
            rt.alloc(),
            &answers("inspect", capture, Out::Whole(lines)),
        )?;
    }
    Ok(())
}

// A hundred loud samples 17 apart are edges all: 400 samples stand from 77 of them on.
#[test]
fn inspects_a_hostile_capture(rt: HostRuntime) -> Result<(), Fail> {
    let mut capture = vec![in rt.alloc(); 0u8; 4 * 1700]?;
    let mut lines = String::new(rt.alloc());
    for k in 0..100usize {
        capture[68 * k] = 0x2C;
        capture[68 * k + 1] = 0x01;
        let finding = if k < 77 { "nomatch" } else { "short" };
        lines.push_str(&format!(in rt.alloc(); "edge {} {}\n", 17 * k, finding)?)?;
    }
    check(
        &rt,
        rt.alloc(),
        &answers("inspect", &capture, Out::Whole(lines.as_bytes())),
    )?;
    Ok(())
}

#[test]
fn drills_fifty_frames(rt: HostRuntime) -> Result<(), Fail> {
    let text = written(rt.alloc(), "drill 50", b"")?;
    assert!(rt; text.as_slice().starts_with(b"drill 50 heard 50 octets "));
    assert!(rt; text.as_slice().ends_with(b" samples 1047839\n"));
    check(
        &rt,
        rt.alloc(),
        &answers("drill 50", b"no input", Out::Whole(&text)),
    )?;
    Ok(())
}
