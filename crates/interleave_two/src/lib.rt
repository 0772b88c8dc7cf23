//! The interleaver of one symbol (IEEE Std 802.11-2012, 18.3.5.7). A symbol's bits stand in the first N_CBPS
//! entries of an array of 288; the other entries are 0 in answers. No call takes memory.
#![tactic(auto)]

ghost use Rattle.std.specs.Prelude.{◌≡◌, ℕ, ◌<◌, ◌≤◌, length, take, slice_index};
ghost use Rattle.bit_lists.specs.Bits.{AreBits};
ghost use Rattle.rate_table.specs.Table.{row_of};
ghost use Rattle.interleave_two.specs.Place.{first_place, second_place, group_of, interleaved_place, source_of, interleaved, deinterleaved};
ghost use Rattle.interleave_two.specs.Source.{first_source, second_source};

use rate_table::Rate;
use tables::places_in_order;

pub mod examples;
mod tables;

pub use tables::sources_in_order;

/// The place, below N_CBPS, to which bit k of a symbol goes, for k below N_CBPS.
pub fn place(rate: Rate, k: usize) -> usize
    requires { k < (row_of rate).coded_bits }
    ensures place { result ≡ interleaved_place rate k }
    ensures within { result < (row_of rate).coded_bits }
    ensures undone { source_of rate result ≡ k }
{
    second_place(rate, first_place(rate, k))
}

/// The place k, below N_CBPS, whose bit goes to place j of a symbol, for j below N_CBPS.
pub fn unplace(rate: Rate, j: usize) -> usize
    requires { j < (row_of rate).coded_bits }
    ensures source { result ≡ source_of rate j }
    ensures within { result < (row_of rate).coded_bits }
    ensures undone { interleaved_place rate result ≡ j }
{
    first_source(rate, second_source(rate, j))
}

/// A symbol's bits, each at the place to which it goes. Every entry is 0 or 1; those behind the bits play no part.
pub fn interleave(rate: Rate, bits: &[u8; 288]) -> [u8; 288]
    requires { AreBits bits.now }
    ensures by_place { (k : ℕ) → k < (row_of rate).coded_bits
        → slice_index result (interleaved_place rate k) ≡ slice_index bits.now k }
    ensures others { (k : ℕ) → (row_of rate).coded_bits ≤ k → slice_index result k ≡ 0 }
    ensures list { take (row_of rate).coded_bits result ≡ interleaved rate bits.now }
    ensures bits { AreBits result }
    ensures undone { deinterleaved rate result ≡ take (row_of rate).coded_bits bits.now }
    ensures front { interleaved rate bits.now
        ≡ interleaved rate (take (row_of rate).coded_bits bits.now) }
    ensures law { deinterleaved rate (interleaved rate bits.now)
        ≡ take (row_of rate).coded_bits bits.now }
{
    let mut places = [0; 288];
    let sources = sources_in_order(rate);
    for j in 0..rate.coded_bits() {
        places[j] = bits[usize::from(sources[j])];
    }
    places
}

/// A symbol's interleaved bits, brought back into the order of the code. Every entry is 0 or 1; those behind the bits
/// play no part.
pub fn deinterleave(rate: Rate, bits: &[u8; 288]) -> [u8; 288]
    requires { AreBits bits.now }
    ensures by_place { (k : ℕ) → k < (row_of rate).coded_bits
        → slice_index result k ≡ slice_index bits.now (interleaved_place rate k) }
    ensures others { (k : ℕ) → (row_of rate).coded_bits ≤ k → slice_index result k ≡ 0 }
    ensures list { take (row_of rate).coded_bits result ≡ deinterleaved rate bits.now }
    ensures bits { AreBits result }
    ensures undone { interleaved rate result ≡ take (row_of rate).coded_bits bits.now }
    ensures front { deinterleaved rate bits.now
        ≡ deinterleaved rate (take (row_of rate).coded_bits bits.now) }
    ensures law { interleaved rate (deinterleaved rate bits.now)
        ≡ take (row_of rate).coded_bits bits.now }
{
    let mut order = [0; 288];
    let places = places_in_order(rate);
    for k in 0..rate.coded_bits() {
        order[k] = bits[usize::from(places[k])];
    }
    order
}

// Where the first permutation puts bit k.
fn first_place(rate: Rate, k: usize) -> usize
    requires { k < (row_of rate).coded_bits }
    ensures place { result ≡ first_place (row_of rate).coded_bits k }
    ensures within { result < (row_of rate).coded_bits }
{
    let coded_bits = rate.coded_bits();
    coded_bits / 16 * (k % 16) + k / 16
}

// Where the second permutation puts bit i.
fn second_place(rate: Rate, i: usize) -> usize
    requires { i < (row_of rate).coded_bits }
    ensures place { result
        ≡ second_place (row_of rate).coded_bits (group_of (row_of rate).bits_per_carrier) i }
    ensures within { result < (row_of rate).coded_bits }
{
    let coded_bits = rate.coded_bits();
    let s = group(rate);
    s * (i / s) + (i + coded_bits - 16 * i / coded_bits) % s
}

// The bit that the second permutation puts at place j.
fn second_source(rate: Rate, j: usize) -> usize
    requires { j < (row_of rate).coded_bits }
    ensures source { result
        ≡ second_source (row_of rate).coded_bits (group_of (row_of rate).bits_per_carrier) j }
    ensures within { result < (row_of rate).coded_bits }
{
    let coded_bits = rate.coded_bits();
    let s = group(rate);
    s * (j / s) + (j + 16 * j / coded_bits) % s
}

// The bit that the first permutation puts at place i.
fn first_source(rate: Rate, i: usize) -> usize
    requires { i < (row_of rate).coded_bits }
    ensures source { result ≡ first_source (row_of rate).coded_bits i }
    ensures within { result < (row_of rate).coded_bits }
{
    let coded_bits = rate.coded_bits();
    16 * i - (coded_bits - 1) * (16 * i / coded_bits)
}

// s: the size of the groups within which the second permutation works.
fn group(rate: Rate) -> usize
    ensures group { result ≡ group_of (row_of rate).bits_per_carrier }
    ensures some { 1 ≤ result }
    ensures most { result ≤ 3 }
{
    (rate.bits_per_carrier() / 2).max(1)
}

#[cfg(test)]
mod tests {
    use super::*;

    // The bits of a text of the characters `0` and `1`, and then zeros.
    fn bits(text: &str) -> [u8; 288]
        requires { length text.now ≤ 288 }
        ensures { AreBits result }
    {
        let mut bits = [0; 288];
        for (place, character) in text.as_bytes().iter().enumerate() {
            if *character == b'1' {
                bits[place] = 1;
            }
        }
        bits
    }

    #[test]
    fn interleaves_a_header(rt: HostRuntime) {
        let code = bits("110100011010000100000010001111100111000000000000");
        let sent = bits("100101001101000000010100100000110010010010010100");
        assert!(rt; interleave(Rate::R6, &code) == sent);
        assert!(rt; deinterleave(Rate::R6, &sent) == code);
    }
}
