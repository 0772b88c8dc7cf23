//! Runs of `send-list` over ports in memory.
use crate::tests::{Out, answers, check, refused, written};
use report_lines::Status;
use std::test::Fail;

const TWO: &[u8] = b"36 93 16 00\n6 1 20 ff\n";

// The first frame begins behind 16 samples and has 480, and the second begins behind 20 more.
#[test]
fn sends_what_is_received(rt: HostRuntime) -> Result<(), Fail> {
    let parts: [(usize, &[u8]); 4] = [
        (0, &[0; 64]),
        (64, &[0xBA, 0x03, 0xBA, 0x03]),
        (1984, &[0; 80]),
        (2064, &[0xBA, 0x03, 0xBA, 0x03]),
    ];
    let sent = answers("send-list", TWO, Out::Parts(4304, &parts));
    check(&rt, rt.alloc(), &sent)?;
    let capture = written(rt.alloc(), "send-list", TWO)?;
    let lines = b"frame 16 36 1 93 00\nframe 516 6 1 1 ff\n";
    check(
        &rt,
        rt.alloc(),
        &answers("receive", &capture, Out::Whole(lines)),
    )?;
    Ok(())
}

#[test]
fn refuses_texts_that_are_no_lists(rt: HostRuntime) -> Result<(), Fail> {
    let rows: [(&[u8], &str); 10] = [
        (b"", "error 14: no list at 0\n"),
        (b"5 ", "error 14: no list at 1\n"),
        (b"6 128", "error 14: no list at 4\n"),
        (b"6 1 1 ", "error 14: no list at 5\n"),
        (b"6 1 16 0\n", "error 14: no list at 8\n"),
        (b"6 1 15 00\n", "error 14: no list at 6\n"),
        (b"6 1 16 0A\n", "error 14: no list at 8\n"),
        (b"6 1 16 00", "error 14: no list at 9\n"),
        (b"6 1 16 00\r\n", "error 14: no list at 9\n"),
        (b"36 93 16 00\n6 1 20 ff\n\n", "error 14: no list at 22\n"),
    ];
    for (text, report) in rows {
        check(
            &rt,
            rt.alloc(),
            &refused("send-list", text, Status::BadInput, report),
        )?;
    }
    Ok(())
}

// 4095 octets, and one more digit.
#[test]
fn refuses_lines_of_4096_octets(rt: HostRuntime) -> Result<(), Fail> {
    let mut text = Vec::from_slice(rt.alloc(), b"6 1 16 ")?;
    for _ in 0..4096 {
        text.extend_from_slice(b"00")?;
    }
    text.push(b'\n')?;
    let report = "error 14: no list at 8197\n";
    check(
        &rt,
        rt.alloc(),
        &refused("send-list", &text, Status::BadInput, report),
    )?;
    Ok(())
}

// Each line has 1048576 silent samples and a frame of 560.
#[test]
fn refuses_lists_of_too_many_samples(rt: HostRuntime) -> Result<(), Fail> {
    let mut text = Vec::new(rt.alloc());
    for _ in 0..17 {
        text.extend_from_slice(b"6 1 1048576 00\n")?;
    }
    let report = "error 15: list of 17835312 samples\n";
    check(
        &rt,
        rt.alloc(),
        &refused("send-list", &text, Status::BadInput, report),
    )?;
    Ok(())
}
