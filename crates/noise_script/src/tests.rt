use crate::{Item, Script, ScriptFault};
use fixed_complex::Sample;
use std::test::Fail;

// 17 items.
const SEVENTEEN: &str = "lead 0; lead 0; lead 0; lead 0; lead 0; lead 0; lead 0; lead 0; lead 0; \
    lead 0; lead 0; lead 0; lead 0; lead 0; lead 0; lead 0; lead 0";

#[test]
fn bad_scripts(rt: HostRuntime) -> Result<(), Fail> {
    let cases = [
        ("", 0),
        ("lead", 4),
        ("leab", 3),
        ("lead 01", 6),
        ("lead 1;uniform 1 1", 7),
        ("lead 5;", 7),
        ("lead 1; ", 8),
        ("lead 1048577", 11),
        ("lead 1 ", 6),
        ("spike 0 -0 1", 9),
        ("spike 0 1", 9),
        ("uniform 32768 1", 12),
        ("uniform 1 18446744073709551616", 29),
        ("cut 33554433 1", 11),
        ("cut 0 33554433", 13),
        ("trail 1;  cut 1 1", 9),
        (SEVENTEEN, 126),
    ];
    for (text, at) in cases {
        match Script::read(text) {
            Ok(_) => assert!(rt; false, "{text}"),
            Err(fault) => assert_eq!(rt; fault, ScriptFault::BadScript { at }, "{text}"),
        }
    }
    Ok(())
}

#[test]
fn what_items_do(rt: HostRuntime) -> Result<(), Fail> {
    let cases: [(&str, &[(i16, i16)]); 11] = [
        ("lead 2; spike 1 5 -7; trail 1", &[(0, 0), (5, -7), (0, 0)]),
        (
            "lead 1; spike 0 30000 -30000; spike 0 30000 -30000",
            &[(32767, -32768)],
        ),
        ("lead 3; cut 1 5", &[(0, 0)]),
        ("lead 3; spike 2 1 1; cut 0 2", &[(1, 1)]),
        ("lead 2; cut 2 1; spike 2 1 1", &[(0, 0), (0, 0)]),
        ("trail 1; spike 0 1 2; lead 1", &[(0, 0), (1, 2)]),
        ("lead 2; uniform 0 9", &[(0, 0), (0, 0)]),
        ("uniform 1 0", &[]),
        ("lead 2; uniform 15 7", &[(11, -3), (5, -2)]),
        ("lead 300; uniform 15 7; cut 0 299", &[(9, -3)]),
        (
            "lead 1; uniform 32767 18446744073709551615",
            &[(-32767, -21429)],
        ),
    ];
    for (text, sent) in cases {
        let mut samples = Vec::new(rt.alloc());
        Script::read(text)?.apply(&mut samples)?;
        assert_eq!(rt; samples.len(), sent.len(), "{text}");
        for (sample, (i, q)) in samples.iter().zip(sent) {
            assert_eq!(rt; *sample, Sample { i: *i, q: *q }, "{text}");
        }
    }
    Ok(())
}
