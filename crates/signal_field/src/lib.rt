//! The SIGNAL field (IEEE Std 802.11-2012, 18.3.4). No call takes memory.
#![tactic(auto)]

ghost use Rattle.std.specs.Prelude.{◌≡◌, ◌%◌, ◌<◌, ◌≤◌, ◌^◌, [], length, sum, take, IfOk};
ghost use Rattle.bit_lists.specs.Bits.{AreBits, IsBit};
ghost use Rattle.conv_code.specs.Code.{code_of};
ghost use Rattle.modem_ports.specs.Counts.{raised_by};
ghost use Rattle.rate_table.specs.Symbols.{IsLength};
ghost use Rattle.signal_field.specs.Headers.{IsReadAs, header_in, number_of_bits};
ghost use Rattle.signal_field.specs.Signal.{bits_of_number, even_parity, front_bits_of, header_bits_of};
ghost use Rattle.survivor_memory.specs.Survivors.{AreEntries};
ghost use Rattle.viterbi_lanes.specs.Marks.{StandsFor};

use conv_code::{branch, next_state};
use modem_ports::Steps;
use rate_table::{CodeRate, Rate};
use viterbi_lanes::Trellis;

pub mod laws;

/// What the SIGNAL field says of a frame (18.3.4).
#[derive(Clone, Copy, Debug, PartialEq, Eq)]
pub struct Header {
    /// The rate of the DATA field.
    pub rate: Rate,
    /// LENGTH: the octets of the PSDU, 1 to 4095.
    pub length: u16,
    /// The reserved bit, which is sent as 0.
    pub reserved: u8,
}

/// Why 24 bits say no header; where several faults stand together, the first of these is told (own).
#[derive(Clone, Copy, Debug, PartialEq, Eq)]
pub enum HeaderFault {
    /// The sum of bits 0 to 17 is odd.
    BadParity,
    /// The pattern R1 to R4 names no rate; its number is R1 + 2 R2 + 4 R3 + 8 R4.
    BadRate { pattern: u8 },
    /// LENGTH is 0.
    ZeroLength,
}

/// The 24 bits of a header: R1 to R4, the reserved bit, LENGTH with its least significant bit first, even parity, and
/// six zeros (18.3.4). LENGTH is 1 to 4095, the reserved bit 0 or 1. Takes no memory.
pub fn header_bits(header: &Header) -> [u8; 24]
    requires octets { IsLength header.now.length }
    requires reserved { IsBit header.now.reserved }
    ensures list { result ≡ header_bits_of header.now.rate header.now.length header.now.reserved }
    ensures bits { AreBits result }
    ensures even { sum (take 18 result) % 2 ≡ 0 }
{
    let front = front_bits(header);
    let mut bits = [0; 24];
    bits[..17].copy_from_slice(&front);
    bits[17] = parity(&front);
    bits
}

/// The code of a header's 24 bits, before it is interleaved (18.3.4 and 18.3.5.6). LENGTH is 1 to 4095, the reserved
/// bit 0 or 1. Takes no memory.
pub fn header_code(header: &Header) -> [u8; 48]
    requires octets { IsLength header.now.length }
    requires reserved { IsBit header.now.reserved }
    ensures list { result
        ≡ code_of (header_bits_of header.now.rate header.now.length header.now.reserved) }
    ensures bits { AreBits result }
{
    let bits = header_bits(header);
    let mut code = [0; 48];
    let mut state = 0;
    for k in 0..24 {
        let (a, b) = branch(state, bits[k]);
        code[2 * k] = a;
        code[2 * k + 1] = b;
        state = next_state(state, bits[k]);
    }
    code
}

/// Reads a header from the 48 decisions of the SIGNAL symbol, in code order: the nearest list of 24 bits says it, or the
/// first fault in the order of `HeaderFault` (18.3.4; the nearest list and the faults are own). Rate, LENGTH, 1 to 4095,
/// and the reserved bit are those of the list. The trellis has room for 24 steps at least; what it held is emptied first,
/// and it holds nothing afterwards. The count of steps rises by exactly 24. Takes no memory.
pub fn read_header(
    trellis: &mut Trellis,
    decisions: &[u8; 48],
    steps: &mut Steps,
) -> Result<Header, HeaderFault>
    requires room { 24 ≤ trellis.old.room }
    ensures read { IsReadAs decisions.now result }
    ensures octets { IfOk result (λ header. IsLength header.length) }
    ensures reserved { IfOk result (λ header. IsBit header.reserved) }
    ensures stands { StandsFor trellis.new [] }
    ensures entries { AreEntries trellis.new.entries }
    ensures room { trellis.new.room ≡ trellis.old.room }
    ensures counted { steps.new ≡ raised_by 24 steps.old }
{
    let mut bits = [0; 24];
    trellis.start();
    trellis.feed(CodeRate::Half, decisions, 24, steps);
    trellis.finish(&mut bits);
    header_of_bits(&bits)
}

// The header that 24 bits say.
fn header_of_bits(bits: &[u8; 24]) -> Result<Header, HeaderFault>
    requires { AreBits bits.now }
    ensures says { result ≡ header_in bits.now }
    ensures octets { IfOk result (λ header. IsLength header.length) }
    ensures reserved { IfOk result (λ header. IsBit header.reserved) }
{
    if parity(&bits[..18]) == 1 {
        return Err(HeaderFault::BadParity);
    }
    let pattern = number(&bits[..4]) as u8;
    let Some(rate) = Rate::from_pattern(pattern) else {
        return Err(HeaderFault::BadRate { pattern });
    };
    let length = number(&bits[5..17]);
    if length == 0 {
        return Err(HeaderFault::ZeroLength);
    }
    Ok(Header {
        rate,
        length,
        reserved: bits[4],
    })
}

// The number of at most 15 bits, the least significant first.
fn number(bits: &[u8]) -> u16
    requires few { length bits.now ≤ 15 }
    requires bits { AreBits bits.now }
    ensures value { result ≡ number_of_bits bits.now }
    ensures below { result < 2 ^ length bits.now }
{
    let mut number = 0;
    for k in (0..bits.len()).rev() {
        number = 2 * number + u16::from(bits[k]);
    }
    number
}

// Bits 0 to 16 of a header.
fn front_bits(header: &Header) -> [u8; 17]
    requires { IsBit header.now.reserved }
    ensures list { result ≡ front_bits_of header.now.rate header.now.length header.now.reserved }
    ensures bits { AreBits result }
{
    let mut bits = [0; 17];
    put_number(u16::from(header.rate.pattern()), &mut bits[..4]);
    bits[4] = header.reserved;
    put_number(header.length, &mut bits[5..]);
    bits
}

// Puts a number's bits, the least significant first, into all of a slice of at most 16 places.
fn put_number(number: u16, bits: &mut [u8])
    requires { length bits.old ≤ 16 }
    ensures { bits.new ≡ bits_of_number (length bits.old) number }
{
    for k in 0..bits.len() {
        bits[k] = (number >> k & 1) as u8;
    }
}

// The sum of bits modulo 2.
fn parity(bits: &[u8]) -> u8
    requires { AreBits bits.now }
    ensures { result ≡ even_parity bits.now }
{
    let mut parity = 0;
    for bit in bits {
        parity ^= *bit;
    }
    parity
}

#[cfg(test)]
mod tests;
