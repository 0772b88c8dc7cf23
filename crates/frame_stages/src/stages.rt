//! The bits and the points of the DATA field after each stage.
ghost use Rattle.std.specs.Prelude.{◌≡◌, ◌*◌, ◌≤◌, ◌++◌, length, vec_len, IfOk, OnOk};
ghost use Rattle.bit_lists.specs.Bits.{AreBits};
ghost use Rattle.data_field.specs.Field.{field_length};
ghost use Rattle.data_field.specs.Stages.{code_at, interleaved_at};
ghost use Rattle.interleave_two.specs.Place.{interleaved};
ghost use Rattle.rate_table.specs.Symbols.{IsLength};
ghost use Rattle.rate_table.specs.Table.{row_of};
ghost use Rattle.symbol_builder.specs.Points.{points_at};

use conv_code::encode;
use fixed_complex::Cx;
use frame_fields::{coded as kept_code, interleaved_symbol, points_of_code};
use ofdm_scrambler::Seed;
use rate_table::Rate;
use std::alloc::{AllocError, Global};
use symbol_builder::frame_field;

/// The code of the DATA field before puncturing, two bits for each of the field, for a PSDU of 1 to
/// 4095 octets (18.3.5.6). The only error is want of memory.
pub fn code(alloc: Global, rate: Rate, seed: Seed, psdu: &[u8]) -> Result<Vec<u8>, AllocError>
    requires { IsLength (length psdu.now) }
    ensures code { IfOk result (λ code. code.items ≡ code_at rate seed psdu.now) }
    ensures bits { IfOk result (λ code. AreBits code.items) }
    ensures len { IfOk result (λ code.
        vec_len code ≡ 2 * field_length (row_of rate).field_bits (length psdu.now)) }
    ensures short { IfOk result (λ code. vec_len code ≤ 66000) }
{
    let field = frame_field(alloc, rate, seed, psdu)?;
    encode(alloc, &field)
}

/// The bits of all the DATA field's symbols after interleaving, for a PSDU of 1 to 4095 octets
/// (18.3.5.7). The only error is want of memory.
pub fn interleaved_code(
    alloc: Global,
    rate: Rate,
    seed: Seed,
    psdu: &[u8],
) -> Result<Vec<u8>, AllocError>
    requires { IsLength (length psdu.now) }
    ensures interleaved { IfOk result (λ bits. bits.items ≡ interleaved_at rate seed psdu.now) }
    ensures bits { IfOk result (λ bits. AreBits bits.items) }
{
    let kept = kept_code(alloc, rate, seed, psdu)?;
    let mut bits = Vec::new(alloc);
    for symbol in kept.chunks(rate.coded_bits()) {
        push_interleaved(&mut bits, rate, symbol)?;
    }
    Ok(bits)
}

// Appends a symbol's bits, interleaved.
fn push_interleaved(bits: &mut Vec<u8>, rate: Rate, symbol: &[u8]) -> Result<(), AllocError>
    requires whole { length symbol.now ≡ (row_of rate).coded_bits }
    requires bits { AreBits symbol.now }
    ensures appended { OnOk result
        (bits.new.items ≡ bits.old.items ++ interleaved rate symbol.now) }
    ensures bits { AreBits bits.old.items → OnOk result (AreBits bits.new.items) }
{
    let places = interleaved_symbol(rate, symbol);
    bits.extend_from_slice(&places[..symbol.len()])?;
    Ok(())
}

/// The points of all DATA symbols, 48 each in the order of data numbers, for a PSDU of 1 to 4095
/// octets (18.3.5.8). The only error is want of memory.
pub fn points(alloc: Global, rate: Rate, seed: Seed, psdu: &[u8]) -> Result<Vec<Cx>, AllocError>
    requires { IsLength (length psdu.now) }
    ensures { IfOk result (λ points. points.items ≡ points_at rate seed psdu.now) }
{
    let kept = kept_code(alloc, rate, seed, psdu)?;
    let mut points = Vec::new(alloc);
    for symbol in kept.chunks(rate.coded_bits()) {
        points.extend_from_slice(&points_of_code(rate, symbol))?;
    }
    Ok(points)
}
