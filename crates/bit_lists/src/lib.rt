//! Bits as lists: the bits of octets (IEEE Std 802.11-2012, clause 18), and the text of bits.
#![tactic(auto)]

ghost use Rattle.std.specs.Prelude.{◌≡◌, ◌≢◌, ◌⊎◌, ℕ, List, [], ◌∷◌, ◌+◌, ◌*◌, ◌%◌, ◌^◌, ◌≤◌, ◌++◌, length, slice_index, vec_len, IfOk, OnOk, IsErrOf};
ghost use Rattle.bit_lists.specs.Bits.{AreBits, AreOctets, bits_of_octet, bits_of_octets, octet_at, octets_of_bits};
ghost use Rattle.bit_lists.specs.Faults.{fault_of};
ghost use Rattle.bit_lists.specs.Text.{IsBadPlace, IsTextOf, text_of_bits};
ghost use Rattle.byte_lanes.specs.Differences.{differences_of};

use byte_lanes::differences;
use character_texts::{ReadFault, read_values};
use characters::BitCharacters;
use std::alloc::{AllocError, Global};
use std::marker::Model;
use std::simd::prelude::*;
use thiserror::Error;

mod characters;
pub mod laws;

// The most octets that the kernel counts at once.
const KERNEL_LIMIT: usize = 1 << 24;

/// The bits of octets: eight bits per octet, least significant first (clause 18). The only error is want of memory.
pub fn bits_of(alloc: Global, bytes: &[u8]) -> Result<Vec<u8>, AllocError>
    ensures value { IfOk result (λ bits. bits.items ≡ bits_of_octets bytes.now) }
    ensures bits { IfOk result (λ bits. AreBits bits.items) }
    ensures len { IfOk result (λ bits. vec_len bits ≡ 8 * length bytes.now) }
{
    let mut bits = Vec::with_capacity(alloc, bytes.len().saturating_mul(8))?;
    for byte in bytes {
        push_octet(&mut bits, *byte)?;
    }
    Ok(bits)
}

/// The text of bits, each 0 or 1: the character `0` or `1` for each bit, and then a newline (own).
/// The only error is want of memory.
pub fn put_text(alloc: Global, bits: &[u8]) -> Result<Vec<u8>, AllocError>
    requires { AreBits bits.now }
    ensures { IfOk result (λ text. text.items ≡ text_of_bits bits.now) }
{
    let mut text = Vec::new(alloc);
    for bit in bits {
        text.push(b'0' + *bit)?;
    }
    text.push(b'\n')?;
    Ok(text)
}

/// A list of octets. Contracts see it as the list (own).
#[derive(Drop)]
pub struct Octets {
    items: Vec<u8>,
}

impl Model for Octets {
    ghost use Rattle.std.specs.Prelude.{ℕ, List};

    ghost Value = { List ℕ };

    ghost view = { λ octets. octets.items.items };
}

impl Octets {
    /// The octets of a vector, which it takes over. Takes no memory.
    pub fn from_vec(items: Vec<u8>) -> Octets
        ensures { result ≡ items.items }
    {
        Octets { items }
    }

    /// Gives the vector back. Takes no memory.
    pub fn into_vec(self) -> Vec<u8>
        ensures { result.items ≡ self }
    {
        self.items
    }

    /// The octets, in order. Takes no memory.
    pub fn as_slice(&self) -> &[u8]
        ensures { result.now ≡ self.now }
    {
        self.items.as_slice()
    }
}

/// The octets of bits, each 0 or 1, whose number is divisible by 8: one for every eight, the least significant bit
/// first (clause 18). The only error is want of memory.
pub fn bytes_of(alloc: Global, bits: &[u8]) -> Result<Octets, AllocError>
    requires bits { AreBits bits.now }
    requires whole { length bits.now % 8 ≡ 0 }
    ensures value { IfOk result (λ octets. octets ≡ octets_of_bits bits.now) }
    ensures has_bits { IfOk result (λ octets. bits_of_octets octets ≡ bits.now) }
    ensures no_other { IfOk result (λ octets. (other : List ℕ) → AreOctets other
        → bits_of_octets other ≡ bits.now → other ≡ octets) }
{
    let count = bits.len() / 8;
    let mut items = Vec::with_capacity(alloc, count)?;
    for k in 0..count {
        items.push(octet_of(&bits[8 * k..8 * k + 8]))?;
    }
    Ok(Octets::from_vec(items))
}

/// The octet of eight bits, the least significant bit first (clause 18). Takes no memory.
pub fn octet_of(bits: &[u8]) -> u8
    requires bits { AreBits bits.now }
    requires eight { length bits.now ≡ 8 }
    ensures value { result ≡ octet_at bits.now 0 }
{
    bits[0]
        + 2 * bits[1]
        + 4 * bits[2]
        + 8 * bits[3]
        + 16 * bits[4]
        + 32 * bits[5]
        + 64 * bits[6]
        + 128 * bits[7]
}

/// How many places of two equally long lists of octets or bits differ (own). Takes no memory.
pub fn distance(a: &[u8], b: &[u8]) -> usize
    requires { length a.now ≡ length b.now }
    ensures value { result ≡ differences_of a.now b.now }
    ensures most { result ≤ length a.now }
{
    if a.len() <= KERNEL_LIMIT {
        differences(a, b)
    } else {
        let (a, rest_of_a) = a.split_at(KERNEL_LIMIT);
        let (b, rest_of_b) = b.split_at(KERNEL_LIMIT);
        differences(a, b) + distance(rest_of_a, rest_of_b)
    }
}

/// Why a text has no bits (own).
#[derive(Debug, Drop, Error)]
pub enum TextFault {
    /// The least place, in octets from 0, that holds neither `0` nor `1`, a newline at the very end excepted.
    #[error("no bit at {at}")]
    BadBit { at: usize },
    /// Want of memory.
    #[error("no memory")]
    NoMemory(AllocError),
}

impl From<ReadFault> for TextFault {
    ghost from_gives = { λ e fault. fault ≡ fault_of e };

    fn from(e: ReadFault) -> TextFault {
        match e {
            ReadFault::BadCharacter { at } => TextFault::BadBit { at },
            ReadFault::NoMemory(e) => TextFault::NoMemory(e),
        }
    }
}

/// The bits of a text: characters `0` and `1`, with at most one newline, which is the last octet (own). `BadBit` comes
/// exactly where a place holds neither character, a newline at the very end excepted, and tells the least such place;
/// `NoMemory` is free.
pub fn read_text(alloc: Global, text: &[u8]) -> Result<Vec<u8>, TextFault>
    ensures read { IfOk result (λ bits. IsTextOf text.now bits.items) }
    ensures bits { IfOk result (λ bits. AreBits bits.items) }
    ensures bad { (at : ℕ) → IsErrOf result (TextFault.BadBit at) → IsBadPlace text.now at }
{
    Ok(read_values::<BitCharacters>(alloc, text)?)
}

// Appends the eight bits of one octet.
fn push_octet(bits: &mut Vec<u8>, octet: u8) -> Result<(), AllocError>
    ensures value { OnOk result (bits.new.items ≡ bits.old.items ++ bits_of_octet octet) }
    ensures len { OnOk result (vec_len bits.new ≡ vec_len bits.old + 8) }
    ensures bits { AreBits bits.old.items → OnOk result (AreBits bits.new.items) }
{
    bits.extend_from_slice(&bits_in(octet))?;
    Ok(())
}

// The eight bits of an octet, all at once: what is left of it at each place, which is 0 where the bit is 0.
#[inline(always)]
fn bits_in(octet: u8) -> [u8; 8]
    ensures { result ≡ bits_of_octet octet }
{
    let places = u8x8::from_array([1, 2, 4, 8, 16, 32, 64, 128]);
    (u8x8::splat(octet) & places)
        .simd_min(u8x8::splat(1))
        .to_array()
}

#[cfg(test)]
mod tests {
    use super::*;
    use std::test::Fail;

    #[test]
    fn gives_bits_and_text(rt: HostRuntime) -> Result<(), Fail> {
        // The least significant bit of each octet comes first.
        let bits = bits_of(rt.alloc(), &[0x01, 0x35])?;
        let want = [1, 0, 0, 0, 0, 0, 0, 0, 1, 0, 1, 0, 1, 1, 0, 0];
        assert_eq!(rt; bits.as_slice(), want.as_slice());
        let text = put_text(rt.alloc(), &[0, 1, 1])?;
        assert_eq!(rt; text.as_slice(), b"011\n".as_slice());
        Ok(())
    }

    #[test]
    fn gives_octets(rt: HostRuntime) -> Result<(), Fail> {
        let bits = [1, 0, 0, 0, 0, 0, 0, 0, 1, 0, 1, 0, 1, 1, 0, 0];
        let octets = bytes_of(rt.alloc(), &bits)?;
        assert_eq!(rt; octets.as_slice(), [0x01, 0x35].as_slice());
        assert_eq!(rt; distance(&bits, &[1; 16]), 11);
        Ok(())
    }

    #[test]
    fn reads_texts(rt: HostRuntime) -> Result<(), Fail> {
        let rows: [(&[u8], &[u8]); 4] = [
            (b"01", &[0, 1]),
            (b"011\n", &[0, 1, 1]),
            (b"", &[]),
            (b"\n", &[]),
        ];
        for (text, bits) in rows {
            let read = read_text(rt.alloc(), text)?;
            assert!(rt; read.as_slice() == bits);
        }
        let bad: [(&[u8], usize); 4] = [(b"01x", 2), (b"\n0", 0), (b"0\n\n", 1), (b"0\r\n", 1)];
        for (text, place) in bad {
            assert!(rt;
                matches!(&read_text(rt.alloc(), text), Err(TextFault::BadBit { at }) if *at == place)
            );
        }
        Ok(())
    }
}
