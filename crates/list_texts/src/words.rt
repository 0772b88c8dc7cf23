//! The words of a line. Each reader answers what they say, or their bad place.
ghost use Rattle.std.specs.Prelude.{◌≡◌, ◌≤◌, length, IfOk, IfErr, IfSome, IfNone};
ghost use Rattle.list_texts.specs.Lists.{IsLine};
ghost use Rattle.list_texts.specs.Words.{IsGapped, IsRate, IsSeeded, SaysGapped, SaysHead, SaysRate, SaysSeeded, rate_name, rate_names};
ghost use Rattle.word_grammar.specs.Names.{IsOneOf, most_shared};
ghost use Rattle.word_grammar.specs.Places.{IsBadAt};

use crate::digits::check_digits;
use ofdm_scrambler::Seed;
use rate_table::Rate;
use word_grammar::{number, shared_front, word_end};

// The least and the most samples of a gap.
const LEAST_GAP: u64 = 16;

const MOST_GAP: u64 = 1 << 20;

// What a line says before its digits, and the place of the first of them.
#[derive(Clone, Copy)]
pub(crate) struct Head {
    pub(crate) rate: Rate,
    pub(crate) seed: Seed,
    pub(crate) gap: u32,
    pub(crate) digits: usize,
}

// The rate, the seed and the gap of a line.
pub(crate) fn read_head(line: &[u8]) -> Result<Head, usize>
    ensures head { IfOk result (λ head. SaysHead head line.now) }
    ensures bad { IfErr result (IsBadAt IsLine line.now) }
    ensures within { IfErr result (λ at. at ≤ length line.now) }
{
    let end = word_end(line, b' ');
    let rate = match read_rate(&line[..end]) {
        Ok(rate) => rate,
        Err(at) => return Err(at),
    };
    if end == line.len() {
        return Err(end);
    }
    match read_seeded(&line[end + 1..]) {
        Ok((seed, gap, digits)) => Ok(Head {
            rate,
            seed,
            gap,
            digits: end + 1 + digits,
        }),
        Err(at) => Err(end + 1 + at),
    }
}

// The rate that a word names.
fn read_rate(word: &[u8]) -> Result<Rate, usize>
    ensures rate { IfOk result (λ rate. SaysRate rate word.now) }
    ensures bad { IfErr result (IsBadAt IsRate word.now) }
    ensures within { IfErr result (λ at. at ≤ length word.now) }
{
    match rate_of(word) {
        Some(rate) => Ok(rate),
        None => Err(shared_with_rates(word)),
    }
}

// The rate that a word names, if it names one.
fn rate_of(word: &[u8]) -> Option<Rate>
    ensures rate { IfSome result (λ rate. word.now ≡ rate_name rate) }
    ensures none { IfNone result (¬ IsOneOf rate_names word.now) }
{
    match word {
        b"6" => Some(Rate::R6),
        b"9" => Some(Rate::R9),
        b"12" => Some(Rate::R12),
        b"18" => Some(Rate::R18),
        b"24" => Some(Rate::R24),
        b"36" => Some(Rate::R36),
        b"48" => Some(Rate::R48),
        b"54" => Some(Rate::R54),
        _ => None,
    }
}

// The most bytes that a word shares with a rate's.
fn shared_with_rates(word: &[u8]) -> usize
    ensures { result ≡ most_shared rate_names word.now }
{
    shared_front(word, b"6")
        .max(shared_front(word, b"9"))
        .max(shared_front(word, b"12"))
        .max(shared_front(word, b"18"))
        .max(shared_front(word, b"24"))
        .max(shared_front(word, b"36"))
        .max(shared_front(word, b"48"))
        .max(shared_front(word, b"54"))
}

// A seed, a gap, and the place of the first digit behind them.
fn read_seeded(words: &[u8]) -> Result<(Seed, u32, usize), usize>
    ensures seeded { IfOk result (λ read. SaysSeeded read.0 read.1 read.2 words.now) }
    ensures bad { IfErr result (IsBadAt IsSeeded words.now) }
    ensures within { IfErr result (λ at. at ≤ length words.now) }
{
    let end = word_end(words, b' ');
    let seed = match number(&words[..end], 1, 127) {
        Ok(seed) => Seed::new(seed as u8).unwrap(),
        Err(at) => return Err(at),
    };
    if end == words.len() {
        return Err(end);
    }
    match read_gapped(&words[end + 1..]) {
        Ok((gap, digits)) => Ok((seed, gap, end + 1 + digits)),
        Err(at) => Err(end + 1 + at),
    }
}

// A gap, and the place of the first digit behind it.
fn read_gapped(words: &[u8]) -> Result<(u32, usize), usize>
    ensures gapped { IfOk result (λ read. SaysGapped read.0 read.1 words.now) }
    ensures bad { IfErr result (IsBadAt IsGapped words.now) }
    ensures within { IfErr result (λ at. at ≤ length words.now) }
{
    let end = word_end(words, b' ');
    let gap = match number(&words[..end], LEAST_GAP, MOST_GAP) {
        Ok(gap) => gap as u32,
        Err(at) => return Err(at),
    };
    if end == words.len() {
        return Err(end);
    }
    match check_digits(&words[end + 1..]) {
        Ok(()) => Ok((gap, end + 1)),
        Err(at) => Err(end + 1 + at),
    }
}
