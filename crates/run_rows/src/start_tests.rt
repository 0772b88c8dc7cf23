//! Runs of `receive-at` over ports in memory.
use crate::receive_tests::{capture_of_header, front, line_of};
use crate::tests::{Out, a_hundred_octets, answers, check, refused, text_written, written};
use report_lines::Status;
use std::test::Fail;

// A frame with an echo, read at its start, and the same frame behind loud samples.
#[test]
fn receives_at_a_start(rt: HostRuntime) -> Result<(), Fail> {
    let octets = a_hundred_octets();
    let frame = written(rt.alloc(), "send 36 93", &octets)?;
    let echo = text_written(rt.alloc(), "echo", "3 200 -50", &frame)?;
    assert_eq!(rt; echo.len(), 4 * 887);
    let line = line_of(rt.alloc(), "0 36 100 93", &octets)?;
    for capture in [&frame, &echo] {
        check(
            &rt,
            rt.alloc(),
            &answers("receive-at 0", capture, Out::Whole(line.as_bytes())),
        )?;
    }
    let mut behind = Vec::from_slice(rt.alloc(), &[0x7F; 12])?;
    behind.extend_from_slice(&frame)?;
    let line = line_of(rt.alloc(), "3 36 100 93", &octets)?;
    check(
        &rt,
        rt.alloc(),
        &answers("receive-at 3", &behind, Out::Whole(line.as_bytes())),
    )?;
    Ok(())
}

#[test]
fn refuses_what_is_cut_at_a_start(rt: HostRuntime) -> Result<(), Fail> {
    let frame = written(rt.alloc(), "send 36 93", &a_hundred_octets())?;
    let rows: [(&str, usize, &str); 5] = [
        (
            "receive-at 0",
            1596,
            "error 18: frame at 0 has 399 of 400 samples\n",
        ),
        (
            "receive-at 0",
            3516,
            "error 18: frame at 0 has 879 of 880 samples\n",
        ),
        (
            "receive-at 880",
            3520,
            "error 18: frame at 880 has 0 of 400 samples\n",
        ),
        (
            "receive-at 16777215",
            3520,
            "error 18: frame at 16777215 has 0 of 400 samples\n",
        ),
        (
            "receive-at 0",
            0,
            "error 18: frame at 0 has 0 of 400 samples\n",
        ),
    ];
    for (line, count, report) in rows {
        check(
            &rt,
            rt.alloc(),
            &refused(line, front(&frame, count), Status::CutFrame, report),
        )?;
    }
    check(
        &rt,
        rt.alloc(),
        &refused(
            "receive-at 0",
            front(&frame, 3517),
            Status::BadInput,
            "error 4: capture ends after 3517 bytes\n",
        ),
    )?;
    Ok(())
}

// Headers with an odd sum, of no rate, and without a length.
#[test]
fn refuses_a_bad_header_at_a_start(rt: HostRuntime) -> Result<(), Fail> {
    for bits in [
        "101100010011000001000000",
        "000000010011000001000000",
        "110100000000000001000000",
    ] {
        let capture = capture_of_header(rt.alloc(), bits)?;
        check(
            &rt,
            rt.alloc(),
            &refused(
                "receive-at 0",
                &capture,
                Status::NoFrame,
                "error 19: no header at 0\n",
            ),
        )?;
    }
    Ok(())
}

// What is turned is received by its pilots, by each step at each rate; and what isn't turned is received by both.
#[test]
fn receives_turned_frames(rt: HostRuntime) -> Result<(), Fail> {
    let octets = a_hundred_octets();
    for rate in ["6", "9", "12", "18", "24", "36", "48", "54"] {
        let words = format!(in rt.alloc(); "send {rate} 93")?;
        let frame = written(rt.alloc(), words.as_str(), &octets)?;
        let heard = format!(in rt.alloc(); "0 {rate} 100 93")?;
        let line = line_of(rt.alloc(), heard.as_str(), &octets)?;
        let row = answers("receive-at 0", &frame, Out::Whole(line.as_bytes()));
        check(&rt, rt.alloc(), &row)?;
        for step in 0..64 {
            let words = format!(in rt.alloc(); "rotate 0 {step}")?;
            let turned = written(rt.alloc(), words.as_str(), &frame)?;
            let row = answers("receive-phase 0", &turned, Out::Whole(line.as_bytes()));
            check(&rt, rt.alloc(), &row)?;
        }
    }
    Ok(())
}
