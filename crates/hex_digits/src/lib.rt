//! Hexadecimal digits in lower case (own).
#![tactic(auto)]

ghost use Rattle.std.specs.Prelude.{◌↔◌, IsTrue};
ghost use Rattle.hex_digits.specs.Digits.{IsDigit};

/// Whether a byte is a digit, `0` to `9` or `a` to `f` (own). Takes no memory.
pub fn is_digit(byte: u8) -> bool
    ensures { IsTrue result ↔ IsDigit byte }
{
    matches!(byte, b'0'..=b'9' | b'a'..=b'f')
}
