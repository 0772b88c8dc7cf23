//! The field of soft decisions.
ghost use Rattle.std.specs.Prelude.{◌≡◌, ◌⊎◌, ℕ, ◌*◌, ◌≤◌, List, length, IfOk, OnErr, OnOk};
ghost use Rattle.bit_lists.specs.Bits.{AreBits, AreOctets};
ghost use Rattle.frame_fields.specs.Fields.{IsFieldOf};
ghost use Rattle.kept_weights.specs.Decisions.{repaired_cost};
ghost use Rattle.modem_ports.specs.Counts.{raised_by};
ghost use Rattle.ofdm_scrambler.specs.Sequence.{IsSeed};
ghost use Rattle.rate_table.specs.Symbols.{IsLength, bits_through_tail, symbol_count};
ghost use Rattle.rate_table.specs.Table.{row_of};
ghost use Rattle.soft_trellis.specs.Fields.{IsSoftFieldOf, sent_cost};
ghost use Rattle.soft_trellis.specs.Laws.{full_values};
ghost use Rattle.soft_trellis.specs.Values.{AreValues};

use crate::SoftTrellis;
use bit_lists::Octets;
use frame_fields::read_field;
use modem_ports::Steps;
use rate_table::Rate;
use std::alloc::{AllocError, Global};

/// What a field of soft decisions holds: the number that names its front, 0 to 127, its PSDU, and what it costs (own).
#[derive(Drop)]
pub struct SoftField {
    pub seed: u8,
    pub psdu: Octets,
    pub cost: u32,
}

/// The field of soft decisions, in code order, for a PSDU of so many octets, 1 to 4095: there are N_SYM * N_CBPS values,
/// each from 0 to 15, of which those behind the tail play no part (own). Where every value is 0 or 15, it is the nearest
/// field of these decisions, at 15 times its distance; where a sent field costs at most 74 at code rate 1/2, 44 at 2/3
/// or 37 at 3/4, it is that field. The count of steps rises by 22 and 8 for each octet with `Ok`, and by that or not at
/// all with want of memory, which is the only error.
pub fn decode_soft(
    alloc: Global,
    rate: Rate,
    octets: u16,
    values: &[u8],
    steps: &mut Steps,
) -> Result<SoftField, AllocError>
    requires octets { IsLength octets }
    requires are { AreValues values.now }
    requires whole { length values.now
        ≡ symbol_count (row_of rate).field_bits octets * (row_of rate).coded_bits }
    ensures field { IfOk result
        (λ field. IsSoftFieldOf rate octets values.now field.seed field.psdu field.cost) }
    ensures hard { IfOk result (λ field.
        (decisions : List ℕ) (number : ℕ) (psdu : List ℕ) (least : ℕ) → AreBits decisions
        → values.now ≡ full_values decisions
        → IsFieldOf rate octets decisions number psdu least
        → (field.seed ≡ number) × (field.psdu ≡ psdu) × (field.cost ≡ 15 * least)) }
    ensures repaired { IfOk result (λ field. (seed : ℕ) (psdu : List ℕ) → IsSeed seed
        → AreOctets psdu
        → length psdu ≡ octets
        → sent_cost rate seed psdu values.now ≤ repaired_cost (row_of rate).code_rate
        → (field.seed ≡ seed) × (field.psdu ≡ psdu)
        × (field.cost ≡ sent_cost rate seed psdu values.now)) }
    ensures counted { OnOk result (steps.new ≡ raised_by (bits_through_tail octets) steps.old) }
    ensures counted_at_most { OnErr result ((steps.new ≡ steps.old)
        ⊎ (steps.new ≡ raised_by (bits_through_tail octets) steps.old)) }
{
    let bits_through_tail = 22 + 8 * usize::from(octets);
    let mut trellis = SoftTrellis::open(alloc, bits_through_tail)?;
    let mut bits = vec![in alloc; 0u8; bits_through_tail]?;
    trellis.feed(rate.code_rate(), values, bits_through_tail, steps);
    let cost = trellis.finish(&mut bits);
    let (seed, psdu) = read_field(alloc, octets, &mut bits)?;
    Ok(SoftField { seed, psdu, cost })
}
