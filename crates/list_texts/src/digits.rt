//! Octets in hexadecimal digits.
ghost use Rattle.std.specs.Prelude.{◌≡◌, ◌≤◌, length, IfOk, IfErr};
ghost use Rattle.list_texts.specs.Words.{AreDigits, IsDigitsEnd, SaysOctets};
ghost use Rattle.word_grammar.specs.Places.{IsBadAt};

use bit_lists::Octets;
use hex::decode_to_slice;
use hex_digits::is_digit;
use rate_table::MOST_OCTETS;
use std::alloc::{AllocError, Global};

// The most digits of a line.
const MOST_DIGITS: usize = 2 * MOST_OCTETS as usize;

// Whether a word is the digits of 1 to 4095 octets; where it isn't, its bad place.
pub(crate) fn check_digits(word: &[u8]) -> Result<(), usize>
    ensures good { IfOk result (λ _. AreDigits word.now) }
    ensures bad { IfErr result (IsBadAt AreDigits word.now) }
    ensures within { IfErr result (λ at. at ≤ length word.now) }
{
    let end = digits_end(word).min(MOST_DIGITS);
    if end < word.len() || end == 0 || end % 2 == 1 {
        return Err(end);
    }
    Ok(())
}

// How many digits a word begins with.
fn digits_end(word: &[u8]) -> usize
    ensures { IsDigitsEnd word.now result }
{
    for at in 0..word.len() {
        if !is_digit(word[at]) {
            return at;
        }
    }
    word.len()
}

// The octets of their digits.
pub(crate) fn read_octets(alloc: Global, digits: &[u8]) -> Result<Octets, AllocError>
    requires { AreDigits digits.now }
    ensures { IfOk result (λ octets. SaysOctets octets digits.now) }
{
    let mut octets = vec![in alloc; 0u8; digits.len() / 2]?;
    decode_to_slice(digits, &mut octets).unwrap();
    Ok(Octets::from_vec(octets))
}
