use crate::{ListFault, SendList};
use std::alloc::Global;
use std::test::Fail;

#[test]
fn two_lines_to_1076_samples(rt: HostRuntime) -> Result<(), Fail> {
    let list = SendList::read(rt.alloc(), b"36 93 16 00\n6 1 20 ff\n").map_err(|_| "a list")?;
    assert_eq!(rt; list.as_slice().len(), 2);
    let samples = list.samples(rt.alloc())?;
    assert_eq!(rt; samples.len(), 1076);
    Ok(())
}

// Whether a text is refused at a place.
fn is_bad_at(alloc: Global, text: &[u8], place: usize) -> bool {
    matches!(
        SendList::read(alloc, &text[..text.len().min(64)]),
        Err(ListFault::BadList { at }) if at == place
    )
}

#[test]
fn bad_lists(rt: HostRuntime) -> Result<(), Fail> {
    let cases = [
        ("", 0),
        ("5 ", 1),
        ("6 128", 4),
        ("6 1 1 ", 5),
        ("6 1 16 0\n", 8),
        ("6 1 15 00\n", 6),
        ("6 1 16 0A\n", 8),
        ("6 1 16 00", 9),
        ("6 1 16 00\r\n", 9),
        ("6 1 16 00\n\n", 10),
        ("6 1 16 00\n6 1 16 00", 19),
        ("6 1 16 00\n54 0 16 00\n", 13),
    ];
    for (text, place) in cases {
        assert!(rt; is_bad_at(rt.alloc(), text.as_bytes(), place), "{text}");
    }
    Ok(())
}
