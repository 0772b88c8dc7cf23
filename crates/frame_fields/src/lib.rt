//! The frame of a PSDU as it is sent, and the nearest field of decisions (IEEE Std 802.11-2012, 18.3).
#![tactic(auto)]

ghost use Rattle.std.specs.Prelude.{◌≡◌, ℕ, ◌+◌, ◌*◌, ◌≤◌, ◌⊎◌, List, length, take, drop, IfOk, OnOk, OnErr};
ghost use Rattle.bit_lists.specs.Bits.{AreBits, AreOctets, bits_of_octets};
ghost use Rattle.data_field.specs.Stages.{kept_at};
ghost use Rattle.frame_fields.specs.Fields.{IsFieldOf, NamesFront, flips, psdu_in};
ghost use Rattle.modem_ports.specs.Counts.{raised_by};
ghost use Rattle.ofdm_scrambler.specs.Sequence.{IsSeed, scrambled};
ghost use Rattle.rate_table.specs.Symbols.{IsLength, bits_through_tail, symbol_count};
ghost use Rattle.rate_table.specs.Table.{row_of};

use bit_lists::{Octets, bytes_of};
use conv_code::encode;
use modem_ports::Steps;
use ofdm_scrambler::{Seed, descramble_in_place, seed_of_front};
use puncture_map::puncture;
use rate_table::Rate;
use std::alloc::{AllocError, Global};
use symbol_builder::frame_field;
use viterbi_lanes::Trellis;

mod frames;
pub mod laws;

pub use frames::{SendFault, frame_samples, interleaved_symbol, points_of_code, send, signal_code};

/// What a field of decisions holds: the number that names its front, 0 to 127, its PSDU, and how many decisions differ
/// from it (own).
#[derive(Drop)]
pub struct Field {
    pub seed: u8,
    pub psdu: Octets,
    pub distance: u32,
}

/// The kept code of the DATA field of a PSDU of 1 to 4095 octets (18.3.5.1 to 18.3.5.6). The only error is want of
/// memory.
pub fn coded(alloc: Global, rate: Rate, seed: Seed, psdu: &[u8]) -> Result<Vec<u8>, AllocError>
    requires octets { IsLength (length psdu.now) }
    ensures kept { IfOk result (λ kept. kept.items ≡ kept_at rate seed psdu.now) }
    ensures bits { IfOk result (λ kept. AreBits kept.items) }
    ensures len { IfOk result (λ kept.
        length kept.items
        ≡ symbol_count (row_of rate).field_bits (length psdu.now) * (row_of rate).coded_bits) }
{
    let field = frame_field(alloc, rate, seed, psdu)?;
    let code = encode(alloc, &field)?;
    puncture(alloc, rate.code_rate(), &code)
}

/// The nearest field of decisions, in code order, for a PSDU of so many octets, 1 to 4095: there are N_SYM * N_CBPS
/// decisions, of which those behind the tail play no part (own). The count of steps rises by 22 and 8 for each octet with
/// `Ok`, and by that or not at all with want of memory, which is the only error.
pub fn decode_field(
    alloc: Global,
    rate: Rate,
    octets: u16,
    decisions: &[u8],
    steps: &mut Steps,
) -> Result<Field, AllocError>
    requires octets { IsLength octets }
    requires bits { AreBits decisions.now }
    requires whole { length decisions.now
        ≡ symbol_count (row_of rate).field_bits octets * (row_of rate).coded_bits }
    ensures field { IfOk result
        (λ field. IsFieldOf rate octets decisions.now field.seed field.psdu field.distance) }

    // where at most `flip_bound` decisions differ from the kept code of a field, up to its tail, that field comes back
    ensures repaired { IfOk result (λ field. (seed : ℕ) (psdu : List ℕ) → IsSeed seed
        → AreOctets psdu
        → length psdu ≡ octets → flips rate seed psdu decisions.now ≤ (row_of rate).flip_bound
        → (field.seed ≡ seed) × (field.psdu ≡ psdu)
        × (field.distance ≡ flips rate seed psdu decisions.now)) }
    ensures counted { OnOk result (steps.new ≡ raised_by (bits_through_tail octets) steps.old) }
    ensures counted_at_most { OnErr result ((steps.new ≡ steps.old)
        ⊎ (steps.new ≡ raised_by (bits_through_tail octets) steps.old)) }
{
    let bits_through_tail = 22 + 8 * usize::from(octets);
    let mut trellis = Trellis::open(alloc, bits_through_tail)?;
    let mut bits = vec![in alloc; 0u8; bits_through_tail]?;
    trellis.feed(rate.code_rate(), decisions, bits_through_tail, steps);
    let distance = trellis.finish(&mut bits);
    let (seed, psdu) = read_field(alloc, octets, &mut bits)?;
    Ok(Field {
        seed,
        psdu,
        distance,
    })
}

/// The number that names the front of a field of so many octets and its PSDU, from its bits up to the end of
/// the tail (18.3.5.5; own). The bits are descrambled in place. The only error is want of memory.
pub fn read_field(alloc: Global, octets: u16, bits: &mut [u8]) -> Result<(u8, Octets), AllocError>
    requires bits { AreBits bits.old }
    requires long { length bits.old ≡ bits_through_tail octets }
    ensures names { IfOk result (λ read. NamesFront read.0 bits.old) }
    ensures no_other { IfOk result (λ read. (number : ℕ) → NamesFront number bits.old
        → number ≡ read.0) }
    ensures psdu { IfOk result (λ read. read.1 ≡ psdu_in octets read.0 bits.old) }
    ensures no_other_psdu { IfOk result (λ read. (psdu : List ℕ) → AreOctets psdu
        → bits_of_octets psdu ≡ take (8 * octets) (drop 16 (scrambled read.0 bits.old))
        → psdu ≡ read.1) }
{
    let mut front = [0; 7];
    front.copy_from_slice(&bits[..7]);
    let seed = seed_of_front(&front);
    descramble_in_place(seed, bits);
    let psdu = bytes_of(alloc, &bits[16..16 + 8 * usize::from(octets)])?;
    Ok((seed, psdu))
}

#[cfg(test)]
mod tests;
