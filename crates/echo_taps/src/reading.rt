//! Taps read from their texts. Each reader answers what the text says, or its bad place.
ghost use Rattle.std.specs.Prelude.{ℕ, ◌≡◌, ◌≤◌, ◌∷◌, List, drop, IfErr, IfOk};
ghost use Rattle.std.specs.Bool.{OnFalse, OnTrue};
ghost use Rattle.echo_taps.specs.declared.Tap.{Tap};
ghost use Rattle.echo_taps.specs.Taps.{with_taps};
ghost use Rattle.echo_taps.specs.Texts.{AreSizes, AreTaps, IsTap, SaysSizes, SaysTap, SaysTaps};
ghost use Rattle.word_grammar.specs.Places.{IsBadAt};

use crate::{Tap, Taps};
use word_grammar::{number, signed, word_end};

// Reads taps with delays from a least on, and sizes of at most so much together.
pub(crate) fn read_taps(taps: &mut Taps, least: u8, most: u16, text: &[u8]) -> Result<(), usize>
    requires first { 1 ≤ least }
    requires last { least ≤ 7 }
    requires most { most ≤ 256 }
    ensures taps { IfOk result (λ _. (more : List Tap) × SaysTaps least most more text.now
        × (taps.new ≡ with_taps taps.old more)) }
    ensures bad { IfErr result (IsBadAt (AreTaps least most) text.now) }
{
    let end = word_end(text, b';');
    let tap = match read_tap(&text[..end], least, most) {
        Ok(tap) => tap,
        Err(at) => return Err(at),
    };
    taps.put(tap);
    if end == text.len() {
        return Ok(());
    }
    if tap.delay == 7 {
        return Err(end);
    }
    if !has_space(&text[end + 1..]) {
        return Err(end + 1);
    }
    let left = most - tap.re.unsigned_abs() - tap.im.unsigned_abs();
    match read_taps(taps, tap.delay + 1, left, &text[end + 2..]) {
        Ok(()) => Ok(()),
        Err(at) => Err(end + 2 + at),
    }
}

// Whether a text begins with a space.
fn has_space(text: &[u8]) -> bool
    ensures space { OnTrue result (text.now ≡ 32 ∷ drop 1 text.now) }
    ensures none { OnFalse result (¬ ((rest : List ℕ) × (text.now ≡ 32 ∷ rest))) }
{
    text.starts_with(b" ")
}

// The tap of a text.
fn read_tap(text: &[u8], least: u8, most: u16) -> Result<Tap, usize>
    requires first { 1 ≤ least }
    requires last { least ≤ 7 }
    requires most { most ≤ 256 }
    ensures tap { IfOk result (λ tap. SaysTap least most tap text.now) }
    ensures bad { IfErr result (IsBadAt (IsTap least most) text.now) }
{
    let end = word_end(text, b' ');
    let delay = match number(&text[..end], least as u64, 7) {
        Ok(delay) => delay as u8,
        Err(at) => return Err(at),
    };
    if end == text.len() {
        return Err(end);
    }
    match read_sizes(&text[end + 1..], most) {
        Ok((re, im)) => Ok(Tap { delay, re, im }),
        Err(at) => Err(end + 1 + at),
    }
}

// The two numbers of a tap.
fn read_sizes(words: &[u8], most: u16) -> Result<(i16, i16), usize>
    requires { most ≤ 256 }
    ensures sizes { IfOk result (λ sizes. SaysSizes most sizes.0 sizes.1 words.now) }
    ensures bad { IfErr result (IsBadAt (AreSizes most) words.now) }
{
    let end = word_end(words, b' ');
    let re = match signed(&words[..end], most as u32, most as u32) {
        Ok(re) => re,
        Err(at) => return Err(at),
    };
    if end == words.len() {
        return Err(end);
    }
    let left = most as u32 - re.unsigned_abs() as u32;
    match signed(&words[end + 1..], left, left) {
        Ok(im) => Ok((re as i16, im as i16)),
        Err(at) => Err(end + 1 + at),
    }
}
