//! The digits of values.
ghost use Rattle.std.specs.Prelude.{◌+◌, ◌<◌};
ghost use Rattle.std.proofs.Common.{arith, inl, inr, ltb};
ghost use Rattle.std.proofs.lemmas.Bool.{cases_lt, cond-false, cond-true, le-ltb, lt-ltb};
ghost use Rattle.hex_digits.specs.Digits.{IsDigit};
ghost use Rattle.soft_trellis.specs.Text.{digit_of};
ghost use Rattle.soft_trellis.specs.Values.{IsValue};

use character_texts::Alphabet;
use std::simd::prelude::*;

/// The hexadecimal digits, `0` to `9` and then `a` to `f`, which stand for values.
pub struct ValueDigits;

impl Alphabet for ValueDigits {
    ghost is_value = { IsValue };

    ghost is_character = { IsDigit };

    ghost written = { digit_of };

    ghost are_characters = { λ value is. elim (cases_lt value 10) [
      | inl low ↦
          let small = lt-ltb value 10 low
          in let figure = cond-true (ltb value 10) (48 + value) (87 + value) small
          in inl (Prim.omega (arith, figure), Prim.omega (arith, figure))
      | inr not ↦
          let large = le-ltb value 10 (Prim.omega arith)
          in let letter = cond-false (ltb value 10) (48 + value) (87 + value) large
          in inr (Prim.omega (arith, letter), Prim.omega (arith, letter))
    ] };

    fn value_of(digit: u8) -> Option<u8> {
        match digit {
            b'0'..=b'9' => Some(digit - b'0'),
            b'a'..=b'f' => Some(digit - b'a' + 10),
            _ => None,
        }
    }

    // A number below 16 made of each character, nine more for a letter, if its digit is the same character.
    #[inline(always)]
    fn block_of(characters: &[u8]) -> Option<[u8; 16]> {
        let characters = u8x16::from_slice(characters);
        let is_figure = (characters & u8x16::splat(64)).simd_eq(u8x16::splat(0));
        let more = is_figure.select(u8x16::splat(0), u8x16::splat(9));
        let values = (characters + more) & u8x16::splat(15);
        let is_below_ten = values.simd_lt(u8x16::splat(10));
        let written = values + is_below_ten.select(u8x16::splat(b'0'), u8x16::splat(b'a' - 10));
        if written.simd_ne(characters).to_bitmask() == 0 {
            Some(values.to_array())
        } else {
            None
        }
    }
}
