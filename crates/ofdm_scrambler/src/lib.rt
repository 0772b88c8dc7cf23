//! The scrambler of the DATA field: its seed and its sequence (IEEE Std 802.11-2012, 18.3.5.5).
#![tactic(auto)]

ghost use Rattle.std.specs.Prelude.{◌≡◌, ℕ, ◌≤◌, ◌<◌, ◌↔◌, ◌*◌, ◌+◌, ◌%◌, length, replicate, slice_index, bit_xor, IsSome, IfSome};
ghost use Rattle.bit_lists.specs.Bits.{AreBits, IsBit, exclusive_or};
ghost use Rattle.std.specs.Int.{bit_at};
ghost use Rattle.ofdm_scrambler.specs.Sequence.{IsSeed, scrambler_sequence, scrambled};

use std::marker::Model;

pub mod laws;

// After how many places the sequence comes again.
const PERIOD: usize = 127;

/// The seed of a scrambler: seven bits x1 to x7, not all 0, of which x_i is bit i - 1 of its number, 1 to 127 (the
/// number is own).
#[derive(Clone, Copy, Debug, PartialEq, Eq)]
pub struct Seed {
    number: u8,
}

impl Model for Seed {
    ghost use Rattle.std.specs.Prelude.{ℕ};
    ghost use Rattle.ofdm_scrambler.specs.Sequence.{IsSeed};

    ghost Value = { ℕ };

    ghost view = { λ seed. seed.number };

    ghost invariant = { λ seed. IsSeed seed.number };

    ghost inverse = { λ number. record { number = number } };
}

impl Seed {
    /// The seed with a number, from 1 to 127: bit i - 1 of the number is x_i, the bit z(-i) of the sequence (the
    /// number is own). `None` exactly where the number is 0 or above 127. Takes no memory.
    pub fn new(number: u8) -> Option<Seed>
        ensures good { IsSome result ↔ IsSeed number }
        ensures value { IfSome result (λ seed. seed ≡ number) }
    {
        match number {
            1..=127 => Some(Seed { number }),
            _ => None,
        }
    }

    /// The seed's number. Takes no memory.
    pub fn number(self) -> u8
        ensures value { result ≡ self }
        ensures positive { 1 ≤ result }
        ensures seven_bits { result ≤ 127 }
    {
        self.number
    }
}

// The last seven bits of the sequence: bit j is the one that came j + 1 places ago.
#[derive(Drop)]
struct Register {
    bits: u8,
    ghost seven_bits: { bits < 128 },
}

impl Register {
    // The register before place 0, which holds the seed's bits.
    fn before_first(seed: Seed) -> Register
        ensures { result.bits ≡ seed }
    {
        Register {
            bits: seed.number(),
        }
    }

    // The next bit of the sequence, which the register then holds as its bit 0.
    fn next_bit(&mut self) -> u8
        ensures bit { result ≡ exclusive_or (bit_at self.old.bits 6) (bit_at self.old.bits 3) }
        ensures shifted { self.new.bits ≡ (2 * self.old.bits + result) % 128 }
    {
        let bit = ((self.bits >> 6) ^ (self.bits >> 3)) & 1;
        self.bits = ((self.bits << 1) | bit) & 127;
        bit
    }
}

/// Writes the seed's sequence, z(0), z(1) and so on, over all of `out`, one bit an entry (18.3.5.5). Takes no memory.
pub fn sequence(seed: Seed, out: &mut [u8])
    ensures values { out.new ≡ scrambler_sequence seed (length out.old) }
    ensures bits { AreBits out.new }
{
    let mut register = Register::before_first(seed);
    for bit in out.iter_mut() {
        *bit = register.next_bit();
    }
}

/// Changes bit n to its exclusive or with the seed's z(n), for each of the bits, which are 0 or 1 (18.3.5.5). Takes no
/// memory.
pub fn scramble_in_place(seed: Seed, bits: &mut [u8])
    requires { AreBits bits.old }
    ensures values { bits.new ≡ scrambled seed bits.old }
    ensures bits { AreBits bits.new }
{
    let mut period = [0; PERIOD];
    sequence(seed, &mut period);
    for begun in 0..bits.len() / PERIOD + 1 {
        let place = PERIOD * begun;
        let count = PERIOD.min(bits.len() - place);
        scramble_piece(bits, &period, place, count);
    }
}

// Changes so many bits from a place on to their exclusive or with the first bits of a period.
fn scramble_piece(bits: &mut [u8], period: &[u8; 127], place: usize, count: usize)
    requires piece { place + count ≤ length bits.old }
    requires within { count ≤ 127 }
    ensures changed { (k : ℕ) → k < count
        → slice_index bits.new (place + k) ≡ bit_xor (slice_index bits.old (place + k)) (slice_index period.now k) }
    ensures before { (n : ℕ) → n < place → slice_index bits.new n ≡ slice_index bits.old n }
    ensures behind { (n : ℕ) → place + count ≤ n → slice_index bits.new n ≡ slice_index bits.old n }
{
    for k in 0..count {
        bits[place + k] ^= period[k];
    }
}

/// Changes bit n to its exclusive or with z(n) of a number from 0 to 127, for each of the bits, which are 0 or 1
/// (18.3.5.5; the number is own). For a seed's number this undoes what the seed's scrambler did; for the number 0
/// nothing changes. Takes no memory.
pub fn descramble_in_place(number: u8, bits: &mut [u8])
    requires number { number ≤ 127 }
    requires bits { AreBits bits.old }
    ensures values { bits.new ≡ scrambled number bits.old }
    ensures bits { AreBits bits.new }
    ensures unchanged { number ≡ 0 → bits.new ≡ bits.old }
{
    if let Some(seed) = Seed::new(number) {
        scramble_in_place(seed, bits);
    }
}

/// The number, from 0 to 127, whose sequence begins with seven bits: that of a seed, or 0 where all seven are 0
/// (18.3.5.5; the numbers are own). Takes no memory.
pub fn seed_of_front(front: &[u8; 7]) -> u8
    requires { AreBits front.now }
    ensures begins { scrambler_sequence result 7 ≡ front.now }
    ensures seven_bits { result ≤ 127 }
    ensures no_other { (number : ℕ) → number ≤ 127 → scrambler_sequence number 7 ≡ front.now
        → number ≡ result }
    ensures zero { (result ≡ 0) ↔ (front.now ≡ replicate 7 0) }
{
    let [z0, z1, z2, z3, z4, z5, z6] = *front;
    let x1 = sum_of_bits(z6, z2);
    let x2 = sum_of_bits(z5, z1);
    let x3 = sum_of_bits(z4, z0);
    let x4 = sum_of_bits(z3, x1);
    let x5 = sum_of_bits(z2, x2);
    let x6 = sum_of_bits(z1, x3);
    let x7 = sum_of_bits(z0, x4);
    x1 + 2 * x2 + 4 * x3 + 8 * x4 + 16 * x5 + 32 * x6 + 64 * x7
}

// The exclusive or of two bits.
fn sum_of_bits(a: u8, b: u8) -> u8
    requires a { IsBit a }
    requires b { IsBit b }
    ensures value { result ≡ exclusive_or a b }
    ensures bit { IsBit result }
{
    a ^ b
}

#[cfg(test)]
mod tests {
    use super::*;
    use std::test::Fail;

    #[test]
    fn numbers_that_name_no_seed(rt: HostRuntime) {
        assert!(rt; Seed::new(0).is_none());
        assert!(rt; Seed::new(128).is_none());
    }

    // The scrambled SERVICE bits of a frame with seed 93, which are 0 before.
    #[test]
    fn sixteen_zeros_with_seed_93(rt: HostRuntime) -> Result<(), Fail> {
        let scrambled = [0, 1, 1, 0, 1, 1, 0, 0, 0, 0, 0, 1, 1, 0, 0, 1];
        let seed = Seed::new(93).ok_or("93")?;
        assert_eq!(rt; seed.number(), 93);
        let mut bits = [0; 16];
        scramble_in_place(seed, &mut bits);
        assert_eq!(rt; bits, scrambled);
        let mut written = [1; 16];
        sequence(seed, &mut written);
        assert_eq!(rt; written, scrambled);
        Ok(())
    }

    #[test]
    fn fronts_name_seeds(rt: HostRuntime) {
        assert_eq!(rt; seed_of_front(&[0, 0, 0, 1, 0, 0, 1]), 1);
        assert_eq!(rt; seed_of_front(&[0, 1, 1, 0, 1, 1, 0]), 93);
        assert_eq!(rt; seed_of_front(&[0; 7]), 0);
    }

    #[test]
    fn descrambles(rt: HostRuntime) {
        let mut bits = [0, 1, 1, 0, 1, 1, 0, 0, 0, 0, 0, 1, 1, 0, 0, 1];
        descramble_in_place(93, &mut bits);
        assert_eq!(rt; bits, [0; 16]);
        descramble_in_place(0, &mut bits);
        assert_eq!(rt; bits, [0; 16]);
    }
}
