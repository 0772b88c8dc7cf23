//! The DATA field of a frame.
ghost use Rattle.std.specs.Prelude.{◌≡◌, ◌+◌, ◌*◌, ◌≤◌, length, vec_len, IfOk};
ghost use Rattle.bit_lists.specs.Bits.{AreBits};
ghost use Rattle.rate_table.specs.Symbols.{IsLength};
ghost use Rattle.rate_table.specs.Table.{row_of};
ghost use Rattle.data_field.specs.Field.{field_length, plain_field, with_tail};
ghost use Rattle.ofdm_scrambler.specs.Sequence.{scrambled};
ghost use Rattle.data_field.specs.Stages.{field_at};

use bit_lists::bits_of;
use ofdm_scrambler::{Seed, scramble_in_place};
use rate_table::Rate;
use std::alloc::{AllocError, Global};

// How many SERVICE bits stand before the PSDU's.
const SERVICE_BITS: usize = 16;

// How many bits the tail has.
const TAIL_BITS: usize = 6;

/// The bits of the DATA field of a PSDU of 1 to 4095 octets, N_SYM * N_DBPS of them: SERVICE, the PSDU and the pad
/// scrambled, and the tail 0 (18.3.5.1 to 18.3.5.5). The only error is want of memory.
pub fn frame_field(
    alloc: Global,
    rate: Rate,
    seed: Seed,
    psdu: &[u8],
) -> Result<Vec<u8>, AllocError>
    requires octets { IsLength (length psdu.now) }
    ensures field { IfOk result (λ field. field.items ≡ field_at rate seed psdu.now) }
    ensures bits { IfOk result (λ field. AreBits field.items) }
    ensures len { IfOk result (λ field. vec_len field
        ≡ field_length (row_of rate).field_bits (length psdu.now)) }
    ensures short { IfOk result (λ field. vec_len field ≤ 33000) }
{
    let mut field = unscrambled_field(alloc, rate, psdu)?;
    scramble_field(&mut field, seed, SERVICE_BITS + 8 * psdu.len());
    Ok(field)
}

// The field before scrambling: SERVICE, the PSDU, and zeros to the end.
fn unscrambled_field(alloc: Global, rate: Rate, psdu: &[u8]) -> Result<Vec<u8>, AllocError>
    requires octets { IsLength (length psdu.now) }
    ensures field { IfOk result (λ field. field.items
        ≡ plain_field (row_of rate).field_bits psdu.now) }
    ensures bits { IfOk result (λ field. AreBits field.items) }
    ensures len { IfOk result (λ field. vec_len field
        ≡ field_length (row_of rate).field_bits (length psdu.now)) }
    ensures long { IfOk result (λ field. 22 + 8 * length psdu.now ≤ vec_len field) }
    ensures short { IfOk result (λ field. vec_len field ≤ 33000) }
{
    let bits = bits_of(alloc, psdu)?;
    let symbols = rate.symbols(psdu.len() as u16) as usize;
    let mut field = vec![in alloc; 0; SERVICE_BITS]?;
    field.extend_from_slice(&bits)?;
    field.resize(symbols * rate.field_bits(), 0)?;
    Ok(field)
}

// Scrambles a field, and then sets its tail, at a place, to 0.
fn scramble_field(field: &mut [u8], seed: Seed, tail: usize)
    requires bits { AreBits field.old }
    requires tail_in { tail + 6 ≤ length field.old }
    ensures field { field.new ≡ with_tail tail (scrambled seed field.old) }
    ensures bits { AreBits field.new }
{
    scramble_in_place(seed, field);
    clear_tail(field, tail);
}

// Sets the six tail bits from a place on to 0.
fn clear_tail(bits: &mut [u8], place: usize)
    requires bits { AreBits bits.old }
    requires tail_in { place + 6 ≤ length bits.old }
    ensures tail { bits.new ≡ with_tail place bits.old }
    ensures bits { AreBits bits.new }
{
    bits[place..place + TAIL_BITS].fill(0);
}
