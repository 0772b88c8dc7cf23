use crate::{Entry, LineFault};
use rate_table::Rate;
use std::test::Fail;

#[test]
fn lines_and_their_entries(rt: HostRuntime) -> Result<(), Fail> {
    let entry = Entry::read(rt.alloc(), b"36 93 16 00ff7a")?;
    assert_eq!(rt; entry.rate, Rate::R36);
    assert_eq!(rt; entry.seed.number(), 93);
    assert_eq!(rt; entry.gap, 16);
    assert_eq!(rt; entry.psdu.as_slice(), [0x00, 0xff, 0x7a].as_slice());
    Ok(())
}

#[test]
fn bad_lines(rt: HostRuntime) -> Result<(), Fail> {
    let cases = [
        ("", 0),
        ("5 ", 1),
        ("6 128", 4),
        ("6 1 1 ", 5),
        ("6 1 15 00", 6),
        ("6 1 16 0", 8),
        ("6 1 16 ", 7),
        ("6 1 16 0A", 8),
        ("6 1 16 00\r", 9),
        ("6 1 16  00", 7),
        ("7 1 16 00", 0),
        ("6 0 16 00", 2),
        ("54 1 1048577 00", 11),
    ];
    for (line, place) in cases {
        let bad = matches!(
            Entry::read(rt.alloc(), line.as_bytes()),
            Err(LineFault::BadLine { at }) if at == place
        );
        assert!(rt; bad, "{line}");
    }
    Ok(())
}
