//! Texts of letters.
ghost use Rattle.std.specs.Prelude.{◌+◌, ◌<◌, ◌≤◌};
ghost use Rattle.std.proofs.Common.{arith};

use super::*;
use std::test::Fail;

// The letters from `a` to `z`, by their places from 0. Sixteen of them are read at once where all are `a`.
struct Letters;

impl Alphabet for Letters {
    ghost is_value = { λ value. value < 26 };

    ghost is_character = { λ byte. (97 ≤ byte) × (byte < 123) };

    ghost written = { λ value. 97 + value };

    ghost are_characters = { λ value is. (Prim.omega arith, Prim.omega arith) };

    fn value_of(character: u8) -> Option<u8> {
        match character {
            b'a'..=b'z' => Some(character - b'a'),
            _ => None,
        }
    }

    fn block_of(characters: &[u8]) -> Option<[u8; 16]> {
        if characters == [b'a'; 16].as_slice() {
            Some([0; 16])
        } else {
            None
        }
    }
}

#[test]
fn reads_values(rt: HostRuntime) -> Result<(), Fail> {
    let rows: [(&[u8], &[u8]); 5] = [
        (b"", &[]),
        (b"\n", &[]),
        (b"cab", &[2, 0, 1]),
        (
            b"aaaaaaaaaaaaaaaaz\n",
            &[0, 0, 0, 0, 0, 0, 0, 0, 0, 0, 0, 0, 0, 0, 0, 0, 25],
        ),
        (
            b"abaaaaaaaaaaaaaaaa",
            &[0, 1, 0, 0, 0, 0, 0, 0, 0, 0, 0, 0, 0, 0, 0, 0, 0, 0],
        ),
    ];
    for (text, values) in rows {
        let read = read_values::<Letters>(rt.alloc(), text);
        assert!(rt; matches!(&read, Ok(read) if read.as_slice() == values));
    }
    Ok(())
}

#[test]
fn tells_bad_places(rt: HostRuntime) -> Result<(), Fail> {
    let bad: [(&[u8], usize); 5] = [
        (b"ab0", 2),
        (b"\na", 0),
        (b"a\n\n", 1),
        (b"aaaaaaaaaaaaaaaaA", 16),
        (b"aaaaaaaaa\naaaaaaaaaa", 9),
    ];
    for (text, place) in bad {
        let read = read_values::<Letters>(rt.alloc(), text);
        assert!(rt; matches!(&read, Err(ReadFault::BadCharacter { at }) if *at == place));
    }
    Ok(())
}
