//! Puncturing of the code of rate 1/2 to the rates 2/3 and 3/4 (IEEE Std 802.11-2012, 18.3.5.6). A step of the code
//! has two places, A and then B. Periods run through the whole field without a restart.
#![tactic(auto)]

ghost use Rattle.std.specs.Prelude.{◌≡◌, ℕ, ◌+◌, ◌*◌, ◌/◌, ◌%◌, ◌<◌, ◌≤◌, ◌^◌, IfOk, OnOk, [], length, map, slice_index, take, vec_len};
ghost use Rattle.bit_lists.specs.Bits.{AreBits};
ghost use Rattle.rate_table.specs.declared.CodeRate.TheVariants.{TwoThirds, ThreeQuarters};
ghost use Rattle.puncture_map.specs.Kept.{is_kept, kept_count, kept_list, kept_places, period_of, count_by_periods};
ghost use Rattle.puncture_map.specs.WholeSymbols.{CountsWholeSymbols, LeavesWholeSymbols, LeavesSymbolBySymbol};

use rate_table::CodeRate;
use std::alloc::{AllocError, Global};
use std::simd::prelude::*;

pub mod laws;

/// Whether a place of the code is kept, that is sent (18.3.5.6). Takes no memory.
pub fn kept(rate: CodeRate, place: usize) -> bool
    ensures { result ≡ is_kept rate place }
{
    match rate {
        CodeRate::Half => true,
        CodeRate::TwoThirds => place % 4 < 3,
        CodeRate::ThreeQuarters => place % 6 < 3 || place % 6 == 5,
    }
}

/// Whether the places of a step, for A and for B, are kept, by how many steps of its period stand before it (18.3.5.6).
/// Takes no memory.
pub fn kept_in_period(rate: CodeRate, phase: usize) -> (bool, bool)
    requires { phase < period_of rate }
    ensures first { (step : ℕ) → step % period_of rate ≡ phase
        → result.0 ≡ is_kept rate (2 * step) }
    ensures second { (step : ℕ) → step % period_of rate ≡ phase
        → result.1 ≡ is_kept rate (2 * step + 1) }
{
    match rate {
        CodeRate::Half => (true, true),
        CodeRate::TwoThirds => (true, phase == 0),
        CodeRate::ThreeQuarters => (phase != 2, phase != 1),
    }
}

/// How many steps of its period stand before the step behind one (own). Takes no memory.
pub fn next_in_period(rate: CodeRate, phase: usize) -> usize
    requires { phase < period_of rate }
    ensures next { (step : ℕ) → step % period_of rate ≡ phase
        → result ≡ (step + 1) % period_of rate }
    ensures within { result < period_of rate }
{
    let next = phase + 1;
    if next == period(rate) { 0 } else { next }
}

/// How many steps a period has, 1 to 3 (18.3.5.6). Takes no memory.
pub fn period(rate: CodeRate) -> usize
    ensures { result ≡ period_of rate }
{
    match rate {
        CodeRate::Half => 1,
        CodeRate::TwoThirds => 2,
        CodeRate::ThreeQuarters => 3,
    }
}

/// The number of kept places of the first so many steps, at most 2^20: those below twice that number (own). Takes
/// no memory.
pub fn kept_before(rate: CodeRate, steps: usize) -> usize
    requires { steps ≤ 2 ^ 20 }
    ensures count { result ≡ kept_count rate steps }
    ensures by_periods { result ≡ count_by_periods rate steps }
    ensures whole_symbols { CountsWholeSymbols rate steps result }
{
    steps + steps.div_ceil(period(rate))
}

/// The kept bits of a code of at most 2^20 bits, each 0 or 1, in order (18.3.5.6). The only error is want of memory.
pub fn puncture(alloc: Global, rate: CodeRate, code: &[u8]) -> Result<Vec<u8>, AllocError>
    requires short { length code.now ≤ 2 ^ 20 }
    requires bits { AreBits code.now }
    ensures list { IfOk result (λ kept. kept.items ≡ kept_list rate code.now) }
    ensures bits { IfOk result (λ kept. AreBits kept.items) }
    ensures count { (steps : ℕ) → length code.now ≡ 2 * steps
        → IfOk result (λ kept. vec_len kept ≡ kept_count rate steps) }
    ensures whole_symbols { IfOk result (λ kept. LeavesWholeSymbols rate code.now kept.items) }
    ensures symbol_by_symbol { IfOk result (λ kept. LeavesSymbolBySymbol rate code.now kept.items) }
{
    let mut bits = Vec::with_capacity(alloc, code.len())?;
    let place = put_periods(&mut bits, rate, code)?;
    put_rest(&mut bits, rate, code, place)?;
    Ok(bits)
}

// Puts the kept bits of whole periods of a code, and gives the place behind them.
fn put_periods(bits: &mut Vec<u8>, rate: CodeRate, code: &[u8]) -> Result<usize, AllocError>
    requires short { length code.now ≤ 2 ^ 20 }
    requires empty { bits.old.items ≡ [] }
    ensures within { IfOk result (λ place. place ≤ length code.now) }
    ensures kept { IfOk result (λ place. bits.new.items
        ≡ map (slice_index code.now) (kept_places rate place)) }
{
    match rate {
        CodeRate::Half => {
            bits.extend_from_slice(code)?;
            Ok(code.len())
        }
        CodeRate::TwoThirds => {
            put_sixteens(bits, code)?;
            Ok(16 * (code.len() / 16))
        }
        CodeRate::ThreeQuarters => {
            put_twenty_fours(bits, code)?;
            Ok(24 * (code.len() / 24))
        }
    }
}

// Puts the kept bits at 2/3 of four periods of a code at a time, as long as there are four.
fn put_sixteens(bits: &mut Vec<u8>, code: &[u8]) -> Result<(), AllocError>
    requires empty { bits.old.items ≡ [] }
    ensures { OnOk result (bits.new.items
        ≡ map (slice_index code.now) (kept_places TwoThirds (16 * (length code.now / 16)))) }
{
    for begun in 0..code.len() / 16 {
        let kept = kept_of_sixteen(&code[16 * begun..16 * begun + 16]);
        bits.extend_from_slice(&kept[..12])?;
    }
    Ok(())
}

// The kept bits of four periods at 2/3, 12 of them, and four dropped ones behind them.
#[inline(always)]
fn kept_of_sixteen(code: &[u8]) -> [u8; 16]
    requires { length code.now ≡ 16 }
    ensures { take 12 result ≡ kept_list TwoThirds code.now }
{
    let lanes = u8x16::from_slice(code);
    lanes
        .swizzle([0, 1, 2, 4, 5, 6, 8, 9, 10, 12, 13, 14, 3, 7, 11, 15])
        .to_array()
}

// Puts the kept bits at 3/4 of four periods of a code at a time, as long as there are four.
fn put_twenty_fours(bits: &mut Vec<u8>, code: &[u8]) -> Result<(), AllocError>
    requires empty { bits.old.items ≡ [] }
    ensures { OnOk result (bits.new.items
        ≡ map (slice_index code.now) (kept_places ThreeQuarters (24 * (length code.now / 24)))) }
{
    for begun in 0..code.len() / 24 {
        let kept = kept_of_twenty_four(&code[24 * begun..24 * begun + 24]);
        bits.extend_from_slice(&kept)?;
    }
    Ok(())
}

// The kept bits of four periods at 3/4, from the first and the last 16 places.
#[inline(always)]
fn kept_of_twenty_four(code: &[u8]) -> [u8; 16]
    requires { length code.now ≡ 24 }
    ensures { result ≡ kept_list ThreeQuarters code.now }
{
    let (first, last) = (
        u8x16::from_slice(&code[..16]),
        u8x16::from_slice(&code[8..]),
    );
    first
        .shuffle(
            last,
            [0, 1, 2, 5, 6, 7, 8, 11, 12, 13, 14, 25, 26, 27, 28, 31],
        )
        .to_array()
}

// Appends the kept bits of a code from a place on.
fn put_rest(bits: &mut Vec<u8>, rate: CodeRate, code: &[u8], place: usize) -> Result<(), AllocError>
    requires { place ≤ length code.now }
    ensures { bits.old.items ≡ map (slice_index code.now) (kept_places rate place)
        → OnOk result (bits.new.items ≡ kept_list rate code.now) }
{
    for at in place..code.len() {
        if kept(rate, at) {
            bits.push(code[at])?;
        }
    }
    Ok(())
}

#[cfg(test)]
mod tests {
    use super::*;
    use std::test::Fail;

    // The bits of a text of the characters `0` and `1`.
    fn bits(alloc: Global, text: &str) -> Result<Vec<u8>, AllocError>
        ensures bits { IfOk result (λ bits. AreBits bits.items) }
        ensures count { IfOk result (λ bits. vec_len bits ≡ length text.now) }
    {
        let mut bits = Vec::new(alloc);
        for character in text.as_bytes() {
            bits.push(if *character == b'1' { 1 } else { 0 })?;
        }
        Ok(bits)
    }

    #[test]
    fn punctures_the_field_of_one_octet(rt: HostRuntime) -> Result<(), Fail> {
        let code = bits(
            rt.alloc(),
            "001110101101000100100100101000000011001010110010100100001011111010110100",
        )?;
        let sent = bits(
            rt.alloc(),
            "001010110000100010100001001011001000001111101100",
        )?;
        let kept = puncture(rt.alloc(), CodeRate::ThreeQuarters, &code)?;
        assert_eq!(rt; kept, sent);
        Ok(())
    }
}
