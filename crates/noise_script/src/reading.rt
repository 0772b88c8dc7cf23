//! Scripts read from their texts. Each reader answers what the text says, or its bad place.
ghost use Rattle.std.specs.Prelude.{ℕ, ◌≡◌, ◌-◌, ◌<◌, ◌++◌, ◌∷◌, List, drop, length, IfOk, IfErr, IfSome, IfNone};
ghost use Rattle.std.specs.Bool.{OnFalse, OnTrue};
ghost use Rattle.noise_script.specs.Items.{IsItem, SaysItem};
ghost use Rattle.noise_script.specs.Keys.{AreComponents, AreTwo, IsBehind, IsKey, IsSpike, SaysBehind, SaysComponents, SaysKey, SaysSpike, SaysTwo, key_names};
ghost use Rattle.noise_script.specs.Scripts.{IsScript, SaysScript};
ghost use Rattle.noise_script.specs.declared.Item.{Item};
ghost use Rattle.word_grammar.specs.Names.{IsOneOf, most_shared};
ghost use Rattle.word_grammar.specs.Places.{IsBadAt};
ghost use Rattle.word_grammar.specs.Signs.{IsSigned, SaysSigned};

use crate::{Item, Script};
use word_grammar::{number, shared_front, signed, word_end};

// The most samples of a lead or a trail.
const MOST_SILENCE: u64 = 1 << 20;

// The most that a place among samples, or a count of those that are cut, may be.
const MOST_PLACE: u64 = 1 << 25;

// The largest bound of uniform noise.
const MOST_BOUND: u64 = 32767;

// The first word of an item.
#[derive(Clone, Copy)]
pub(crate) enum Key {
    Lead,
    Trail,
    Uniform,
    Spike,
    Cut,
}

// Reads items from a text into a script, behind those that it has.
pub(crate) fn read_items(script: &mut Script, text: &[u8]) -> Result<(), usize>
    requires { length script.old < 16 }
    ensures script { IfOk result (λ _. (more : List Item) × (script.new ≡ script.old ++ more)
        × SaysScript (16 - length script.old) more text.now) }
    ensures bad { IfErr result (IsBadAt (IsScript (16 - length script.old)) text.now) }
{
    let end = word_end(text, b';');
    match read_item(&text[..end]) {
        Ok(item) => script.push(item),
        Err(at) => return Err(at),
    }
    if end == text.len() {
        return Ok(());
    }
    if script.is_full() {
        return Err(end);
    }
    if !has_space(&text[end + 1..]) {
        return Err(end + 1);
    }
    match read_items(script, &text[end + 2..]) {
        Ok(()) => Ok(()),
        Err(at) => Err(end + 2 + at),
    }
}

// Whether a text begins with a space.
fn has_space(text: &[u8]) -> bool
    ensures space { OnTrue result (text.now ≡ 32 ∷ drop 1 text.now) }
    ensures none { OnFalse result (¬ ((rest : List ℕ) × (text.now ≡ 32 ∷ rest))) }
{
    text.starts_with(b" ")
}

// The item of a text.
fn read_item(text: &[u8]) -> Result<Item, usize>
    ensures item { IfOk result (λ item. SaysItem item text.now) }
    ensures bad { IfErr result (IsBadAt IsItem text.now) }
{
    let end = word_end(text, b' ');
    let key = match read_key(&text[..end]) {
        Ok(key) => key,
        Err(at) => return Err(at),
    };
    if end == text.len() {
        return Err(end);
    }
    match read_behind(key, &text[end + 1..]) {
        Ok(item) => Ok(item),
        Err(at) => Err(end + 1 + at),
    }
}

// The key that a word is.
fn read_key(word: &[u8]) -> Result<Key, usize>
    ensures key { IfOk result (λ key. SaysKey key word.now) }
    ensures bad { IfErr result (IsBadAt IsKey word.now) }
{
    match key_of(word) {
        Some(key) => Ok(key),
        None => Err(shared_with_keys(word)),
    }
}

// The key that a word is, if it is one.
fn key_of(word: &[u8]) -> Option<Key>
    ensures key { IfSome result (λ key. SaysKey key word.now) }
    ensures none { IfNone result (¬ IsOneOf key_names word.now) }
{
    if word == b"lead".as_slice() {
        Some(Key::Lead)
    } else if word == b"trail".as_slice() {
        Some(Key::Trail)
    } else if word == b"uniform".as_slice() {
        Some(Key::Uniform)
    } else if word == b"spike".as_slice() {
        Some(Key::Spike)
    } else if word == b"cut".as_slice() {
        Some(Key::Cut)
    } else {
        None
    }
}

// The most bytes that a word shares with a key.
fn shared_with_keys(word: &[u8]) -> usize
    ensures { result ≡ most_shared key_names word.now }
{
    shared_front(word, b"lead")
        .max(shared_front(word, b"trail"))
        .max(shared_front(word, b"uniform"))
        .max(shared_front(word, b"spike"))
        .max(shared_front(word, b"cut"))
}

// The item whose words behind its key are these.
fn read_behind(key: Key, words: &[u8]) -> Result<Item, usize>
    ensures item { IfOk result (λ item. SaysBehind key item words.now) }
    ensures bad { IfErr result (IsBadAt (IsBehind key) words.now) }
{
    match key {
        Key::Lead => match number(words, 0, MOST_SILENCE) {
            Ok(count) => Ok(Item::Lead {
                count: count as u32,
            }),
            Err(at) => Err(at),
        },
        Key::Trail => match number(words, 0, MOST_SILENCE) {
            Ok(count) => Ok(Item::Trail {
                count: count as u32,
            }),
            Err(at) => Err(at),
        },
        Key::Uniform => match read_two(words, MOST_BOUND, u64::MAX) {
            Ok((bound, seed)) => Ok(Item::Uniform {
                bound: bound as u16,
                seed,
            }),
            Err(at) => Err(at),
        },
        Key::Spike => match read_spike(words) {
            Ok((at, i, q)) => Ok(Item::Spike { at, i, q }),
            Err(at) => Err(at),
        },
        Key::Cut => match read_two(words, MOST_PLACE, MOST_PLACE) {
            Ok((at, count)) => Ok(Item::Cut {
                at: at as u32,
                count: count as u32,
            }),
            Err(at) => Err(at),
        },
    }
}

// Two numbers from 0 on.
fn read_two(words: &[u8], first: u64, second: u64) -> Result<(u64, u64), usize>
    ensures numbers { IfOk result (λ two. SaysTwo first second two.0 two.1 words.now) }
    ensures bad { IfErr result (IsBadAt (AreTwo first second) words.now) }
{
    let end = word_end(words, b' ');
    let a = match number(&words[..end], 0, first) {
        Ok(a) => a,
        Err(at) => return Err(at),
    };
    if end == words.len() {
        return Err(end);
    }
    match number(&words[end + 1..], 0, second) {
        Ok(b) => Ok((a, b)),
        Err(at) => Err(end + 1 + at),
    }
}

// A place among samples, and the components of a sample.
fn read_spike(words: &[u8]) -> Result<(u32, i16, i16), usize>
    ensures spike { IfOk result (λ spike. SaysSpike spike.0 spike.1 spike.2 words.now) }
    ensures bad { IfErr result (IsBadAt IsSpike words.now) }
{
    let end = word_end(words, b' ');
    let place = match number(&words[..end], 0, MOST_PLACE) {
        Ok(place) => place as u32,
        Err(at) => return Err(at),
    };
    if end == words.len() {
        return Err(end);
    }
    match read_components(&words[end + 1..]) {
        Ok((i, q)) => Ok((place, i, q)),
        Err(at) => Err(end + 1 + at),
    }
}

// The components of a sample.
fn read_components(words: &[u8]) -> Result<(i16, i16), usize>
    ensures components { IfOk result (λ sample. SaysComponents sample.0 sample.1 words.now) }
    ensures bad { IfErr result (IsBadAt AreComponents words.now) }
{
    let end = word_end(words, b' ');
    let i = match read_component(&words[..end]) {
        Ok(i) => i,
        Err(at) => return Err(at),
    };
    if end == words.len() {
        return Err(end);
    }
    match read_component(&words[end + 1..]) {
        Ok(q) => Ok((i, q)),
        Err(at) => Err(end + 1 + at),
    }
}

// A component of a sample.
fn read_component(word: &[u8]) -> Result<i16, usize>
    ensures component { IfOk result (λ component. SaysSigned 32768 32767 component word.now) }
    ensures bad { IfErr result (IsBadAt (IsSigned 32768 32767) word.now) }
{
    match signed(word, 32768, 32767) {
        Ok(component) => Ok(component as i16),
        Err(at) => Err(at),
    }
}
