use crate::{number, shared_front, signed, word_end};

#[test]
fn numbers_in_range(rt: HostRuntime) {
    let cases = [
        ("0", 0, 1_048_576, 0),
        ("16", 16, 1_048_576, 16),
        ("1048576", 16, 1_048_576, 1_048_576),
        ("7", 1, 7, 7),
        ("18446744073709551615", 0, u64::MAX, u64::MAX),
    ];
    for (word, least, most, value) in cases {
        assert_eq!(rt; number(word.as_bytes(), least, most), Ok(value), "{word}");
    }
}

// A number that is too small so far is bad only behind its last byte, since more digits may follow.
#[test]
fn bad_numbers(rt: HostRuntime) {
    let cases = [
        ("", 0, 127, 0),
        ("01", 0, 127, 1),
        ("01", 1, 127, 0),
        ("-1", 0, 127, 0),
        ("+1", 0, 127, 0),
        ("12 ", 0, 127, 2),
        ("128", 0, 127, 2),
        ("200", 1, 127, 2),
        ("8", 1, 7, 0),
        ("10", 1, 7, 1),
        ("1", 16, 1_048_576, 1),
        ("15", 16, 1_048_576, 2),
        ("1048577", 0, 1_048_576, 6),
        ("10485760", 0, 1_048_576, 7),
        ("18446744073709551616", 0, u64::MAX, 19),
        ("99999999999999999999", 0, u64::MAX, 19),
    ];
    for (word, least, most, at) in cases {
        assert_eq!(rt; number(word.as_bytes(), least, most), Err(at), "{word}");
    }
}

#[test]
fn signed_numbers(rt: HostRuntime) {
    let cases = [
        ("0", 256, 256, Ok(0)),
        ("-256", 256, 256, Ok(-256)),
        ("-32768", 32768, 32767, Ok(-32768)),
        ("32767", 32768, 32767, Ok(32767)),
        ("-0", 32768, 32767, Err(1)),
        ("-", 32768, 32767, Err(1)),
        ("--1", 32768, 32767, Err(1)),
        ("-32769", 32768, 32767, Err(5)),
        ("32768", 32768, 32767, Err(4)),
        ("-1", 0, 256, Err(0)),
        ("257", 256, 256, Err(2)),
        ("", 256, 256, Err(0)),
    ];
    for (word, below, above, value) in cases {
        assert_eq!(rt; signed(word.as_bytes(), below, above), value, "{word}");
    }
}

#[test]
fn words_and_fronts(rt: HostRuntime) {
    assert_eq!(rt; word_end(b"lead 5", b' '), 4);
    assert_eq!(rt; word_end(b"lead", b' '), 4);
    assert_eq!(rt; word_end(b" 5", b' '), 0);
    assert_eq!(rt; shared_front(b"lead", b"leaf"), 3);
    assert_eq!(rt; shared_front(b"5", b"54"), 1);
    assert_eq!(rt; shared_front(b"", b"54"), 0);
}
