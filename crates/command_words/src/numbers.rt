//! Numbers in the words: decimal digits with no sign and no leading zero (own).
ghost use Rattle.std.specs.Prelude.{◌≡◌, ◌≤◌, decimal, IfSome, IfNone};
ghost use Rattle.command_words.specs.Grammar.{IsFrom, NamesNoRate, WritesNoneFrom, most_start, rate_word};
ghost use Rattle.ofdm_scrambler.specs.Sequence.{IsSeed};
ghost use Rattle.rate_table.specs.Symbols.{IsLength, most_octets};
ghost use Rattle.word_grammar.specs.Numbers.{IsWide};

use ofdm_scrambler::Seed;
use rate_table::{MOST_OCTETS, Rate};
use word_grammar::laws::places_of_numbers;
use word_grammar::number;

// The rate that a word names in megabits a second.
pub fn read_rate(word: &str) -> Option<Rate>
    ensures rate { IfSome result (λ rate. word.now ≡ rate_word rate) }
    ensures none { IfNone result (NamesNoRate word.now) }
{
    Rate::from_mbps(read_from(word, 6, 60)? as u32)
}

// The seed that a word numbers, 1 to 127.
pub fn read_seed(word: &str) -> Option<Seed>
    ensures seed { IfSome result (λ seed. word.now ≡ decimal seed) }
    ensures range { IfSome result IsSeed }
    ensures none { IfNone result (WritesNoneFrom 1 127 word.now) }
{
    Seed::new(read_from(word, 1, 127)? as u8)
}

// The number of octets that a word writes, 1 to 4095.
pub fn read_length(word: &str) -> Option<u16>
    ensures length { IfSome result (λ length. word.now ≡ decimal length) }
    ensures range { IfSome result IsLength }
    ensures none { IfNone result (WritesNoneFrom 1 most_octets word.now) }
{
    Some(read_from(word, 1, u64::from(MOST_OCTETS))? as u16)
}

// The number of frames that a word writes, 1 to 1000.
pub fn read_count(word: &str) -> Option<u32>
    ensures count { IfSome result (λ count. word.now ≡ decimal count) }
    ensures range { IfSome result (IsFrom 1 1000) }
    ensures none { IfNone result (WritesNoneFrom 1 1000 word.now) }
{
    Some(read_from(word, 1, 1000)? as u32)
}

// The start of a frame that a word writes, 0 to 16777215.
pub fn read_start(word: &str) -> Option<u32>
    ensures start { IfSome result (λ start. word.now ≡ decimal start) }
    ensures range { IfSome result (IsFrom 0 most_start) }
    ensures none { IfNone result (WritesNoneFrom 0 most_start word.now) }
{
    Some(read_from(word, 0, 16777215)? as u32)
}

// The number of 64ths of a circle that a word writes, 0 to 63.
pub fn read_step(word: &str) -> Option<u32>
    ensures step { IfSome result (λ step. word.now ≡ decimal step) }
    ensures range { IfSome result (IsFrom 0 63) }
    ensures none { IfNone result (WritesNoneFrom 0 63 word.now) }
{
    Some(read_from(word, 0, 63)? as u32)
}

// The number from `least` to `most` that a word writes.
fn read_from(word: &str, least: u64, most: u64) -> Option<u64>
    requires some { least ≤ most }
    requires wide { IsWide least most }
    ensures number { IfSome result (λ number. word.now ≡ decimal number) }
    ensures range { IfSome result (IsFrom least most) }
    ensures none { IfNone result (WritesNoneFrom least most word.now) }
{
    places_of_numbers();
    match number(word.as_bytes(), least, most) {
        Ok(number) => Some(number),
        Err(_) => None,
    }
}
