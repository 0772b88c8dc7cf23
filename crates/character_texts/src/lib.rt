//! Texts of one character for each value, and at most one newline, which is the last byte (own).
#![tactic(auto)]

ghost use Rattle.std.specs.Prelude.{◌≡◌, ◌⊎◌, ◌+◌, ◌≤◌, ℕ, [], ◌∷◌, ◌++◌, length, map, slice_index, take, vec_len, All, IfNone, IfOk, IfSome, IsErrOf, OnOk};
ghost use Rattle.character_texts.specs.declared.ReadFault.TheVariants.{NoMemory};
ghost use Rattle.character_texts.specs.Texts.{IsBadPlaceBy, IsTextBy};

use std::alloc::{AllocError, Global};

#[cfg(test)]
mod tests;

/// Which characters stand for which values (own).
pub trait Alphabet {
    /// Whether a number is a value.
    ghost is_value: { ℕ → Type 0 };

    /// Whether a byte is one of the characters.
    ghost is_character: { ℕ → Type 0 };

    /// The character that stands for a value.
    ghost written: { ℕ → ℕ };

    /// The value that a character stands for, and none where the byte is no character. Takes no memory.
    fn value_of(character: u8) -> Option<u8>
        ensures value { IfSome result (λ value. character ≡ written value) }
        ensures is_value { IfSome result is_value }
        ensures none { IfNone result (¬ is_character character) };

    /// The values of sixteen bytes at once, or none, which says nothing of them. Takes no memory.
    fn block_of(characters: &[u8]) -> Option<[u8; 16]>
        requires { length characters.now ≡ 16 }
        ensures values { IfSome result (λ values. All is_value values) }
        ensures read { IfSome result (λ values. characters.now ≡ map written values) };

    /// What stands for a value is a character.
    ghost are_characters: { (value : ℕ) → is_value value → is_character (written value) };
}

/// Why a text has no values (own).
#[derive(Debug, Drop)]
pub enum ReadFault {
    /// The least place, counted from 0, that holds no character, a newline at the very end excepted.
    BadCharacter { at: usize },
    /// Want of memory.
    NoMemory(AllocError),
}

impl From<AllocError> for ReadFault {
    ghost from_gives = { λ e fault. fault ≡ NoMemory e };

    fn from(e: AllocError) -> ReadFault {
        ReadFault::NoMemory(e)
    }
}

/// The values of a text: one for each character, with at most one newline, which is the last byte (own). `BadCharacter`
/// comes exactly where a place holds no character, a newline at the very end excepted, and tells the least such place;
/// `NoMemory` is free.
pub fn read_values<A: Alphabet>(alloc: Global, text: &[u8]) -> Result<Vec<u8>, ReadFault>
    ensures read { IfOk result (λ values. IsTextBy A.written text.now values.items) }
    ensures values { IfOk result (λ values. All A.is_value values.items) }
    ensures bad { (at : ℕ) → IsErrOf result (ReadFault.BadCharacter at)
        → IsBadPlaceBy A.is_character text.now at }
{
    let characters = without_newline(text);
    let mut values = read_blocks::<A>(alloc, characters)?;
    for at in values.len()..characters.len() {
        match A::value_of(characters[at]) {
            Some(value) => push_value(&mut values, value)?,
            None => return Err(ReadFault::BadCharacter { at }),
        }
    }
    Ok(values)
}

// The values at the front of a list of characters, as far as whole blocks of sixteen are read. There is room for all.
fn read_blocks<A: Alphabet>(alloc: Global, characters: &[u8]) -> Result<Vec<u8>, AllocError>
    ensures values { IfOk result (λ values. All A.is_value values.items) }
    ensures within { IfOk result (λ values. vec_len values ≤ length characters.now) }
    ensures read { IfOk result
        (λ values. map A.written values.items ≡ take (vec_len values) characters.now) }
{
    let mut values = Vec::with_capacity(alloc, characters.len())?;
    for k in 0..characters.len() / 16 {
        match A::block_of(&characters[16 * k..16 * k + 16]) {
            Some(sixteen) => values.extend_from_slice(&sixteen)?,
            None => return Ok(values),
        }
    }
    Ok(values)
}

// Appends a value.
fn push_value(values: &mut Vec<u8>, value: u8) -> Result<(), AllocError>
    ensures { OnOk result (values.new.items ≡ values.old.items ++ value ∷ []) }
{
    values.push(value)?;
    Ok(())
}

/// A text without the newline at its very end, if it has one (own). Takes no memory.
pub fn without_newline(text: &[u8]) -> &[u8]
    ensures front { (result.now ≡ text.now) ⊎ (text.now ≡ result.now ++ 10 ∷ []) }
    ensures stripped { (at : ℕ) → at + 1 ≡ length text.now → slice_index text.now at ≡ 10
        → text.now ≡ result.now ++ 10 ∷ [] }
{
    match text {
        [characters @ .., b'\n'] => characters,
        _ => text,
    }
}
