//! The characters of bits.
ghost use Rattle.std.proofs.Common.{arith, inl, inr};
ghost use Rattle.std.proofs.lemmas.Bool.{cases_lt};
ghost use Rattle.bit_lists.specs.Bits.{IsBit};
ghost use Rattle.bit_lists.specs.Text.{IsCharacter, character_of};

use character_texts::Alphabet;
use std::simd::prelude::*;

/// The characters `0` and `1`, which stand for bits.
pub struct BitCharacters;

impl Alphabet for BitCharacters {
    ghost is_value = { IsBit };

    ghost is_character = { IsCharacter };

    ghost written = { character_of };

    ghost are_characters = { λ bit is. elim (cases_lt bit 1) [
      | inl zero ↦ inl (Prim.omega arith)
      | inr one ↦ inr (Prim.omega arith)
    ] };

    fn value_of(character: u8) -> Option<u8> {
        match character {
            b'0' => Some(0),
            b'1' => Some(1),
            _ => None,
        }
    }

    // The lowest bits of the characters, if these are the bits of the same characters.
    #[inline(always)]
    fn block_of(characters: &[u8]) -> Option<[u8; 16]> {
        let characters = u8x16::from_slice(characters);
        let bits = characters & u8x16::splat(1);
        let written = bits + u8x16::splat(b'0');
        if written.simd_ne(characters).to_bitmask() == 0 {
            Some(bits.to_array())
        } else {
            None
        }
    }
}
