//! Decimal numbers in a range, read byte by byte.
ghost use Rattle.std.specs.Prelude.{◌≡◌, ◌≢◌, ◌≤◌, ◌⊎◌, ◌∷◌, ℕ, length, drop, slice_index, IfSome, IfNone, IfOk, IfErr};
ghost use Rattle.std.specs.Bool.{OnFalse, OnTrue};
ghost use Rattle.word_grammar.specs.Numbers.{Grows, IsNext, IsNumber, IsWide, SaysNumber};
ghost use Rattle.word_grammar.specs.Places.{IsBadAt};
ghost use Rattle.word_grammar.specs.Signs.{IsSigned, SaysSigned};

/// The number that a word is, from `least` to `most`, with no leading zero (own). The range is wide:
/// `most` is at least ten times `least`, or below 10.
///
/// Where the word is no such number, the answer is its bad place: the bytes before the place begin
/// such a number, and with the byte there they begin none. A number that is only too small so far is
/// bad at its length. Takes no memory.
pub fn number(word: &[u8], least: u64, most: u64) -> Result<u64, usize>
    requires some { least ≤ most }
    requires wide { IsWide least most }
    ensures number { IfOk result (λ number. SaysNumber least most number word.now) }
    ensures bad { IfErr result (IsBadAt (IsNumber least most) word.now) }
    ensures within { IfErr result (λ at. at ≤ length word.now) }
{
    let mut read = None;
    for at in 0..word.len() {
        match next_number(read, word[at], least, most) {
            Some(next) => read = Some(next),
            None => return Err(at),
        }
    }
    match read {
        Some(number) if number >= least => Ok(number),
        _ => Err(word.len()),
    }
}

// The number that was read with one more digit, where it still begins one of the range.
fn next_number(read: Option<u64>, byte: u8, least: u64, most: u64) -> Option<u64>
    requires { IfSome read (Grows least most) }
    ensures next { IfSome result (IsNext read byte) }
    ensures grows { IfSome result (Grows least most) }
    ensures none { IfNone result
        ((number : ℕ) → IsNext read byte number → ¬ Grows least most number) }
{
    if !byte.is_ascii_digit() || read == Some(0) {
        return None;
    }
    let front = read.unwrap_or(0).checked_mul(10)?;
    let next = front.checked_add((byte - b'0') as u64)?;
    let grows = next <= most && (next >= least || next != 0 && next <= most / 10);
    if grows { Some(next) } else { None }
}

/// The number that a word is, from `-below` to `above`, with a minus sign before a negative number and
/// with no leading zero (own).
///
/// Where the word is no such number, the answer is its bad place, as with [`number`]. With `below` 0 no
/// minus sign is read. Takes no memory.
pub fn signed(word: &[u8], below: u32, above: u32) -> Result<i64, usize>
    ensures number { IfOk result (λ number. SaysSigned below above number word.now) }
    ensures bad { IfErr result (IsBadAt (IsSigned below above) word.now) }
    ensures within { IfErr result (λ at. at ≤ length word.now) }
{
    if has_minus(word, below) {
        match number(&word[1..], 1, below as u64) {
            Ok(size) => Ok(-(size as i64)),
            Err(at) => Err(1 + at),
        }
    } else {
        match number(word, 0, above as u64) {
            Ok(size) => Ok(size as i64),
            Err(at) => Err(at),
        }
    }
}

// Whether a negative number may follow: the word begins with a minus sign, and `below` isn't 0.
fn has_minus(word: &[u8], below: u32) -> bool
    ensures minus { OnTrue result ((1 ≤ below) × (word.now ≡ 45 ∷ drop 1 word.now)) }
    ensures none { OnFalse result ((below ≡ 0) ⊎ (slice_index word.now 0 ≢ 45)) }
{
    below > 0 && word.starts_with(b"-")
}
