//! The field of a frame, once all its symbols were heard.
ghost use Rattle.std.specs.Prelude.{◌≡◌, ℕ, ◌+◌, ◌*◌, ◌<◌, ◌≤◌, List, [], length, take, drop};
ghost use Rattle.bit_lists.specs.Bits.{AreBits, octets_of_bits};
ghost use Rattle.frame_fields.specs.Fields.{NamesFront, psdu_in};
ghost use Rattle.frame_reader.specs.Frames.{HasField, data_decisions, symbols_of};
ghost use Rattle.rate_table.specs.declared.Rate.{Rate};
ghost use Rattle.rate_table.specs.Symbols.{IsLength, bits_through_tail};
ghost use Rattle.rate_table.specs.Table.{row_of};
ghost use Rattle.viterbi_lanes.specs.Decisions.{marks_of};
ghost use Rattle.viterbi_lanes.specs.Marks.{StandsFor};

use bit_lists::octet_of;
use ofdm_scrambler::{descramble_in_place, seed_of_front};
use signal_field::Header;
use viterbi_lanes::Trellis;

/// Writes the PSDU of a frame whose DATA symbols were all heard to the front of `octets`, and answers the number, 0 to
/// 127, that names the front of its field (own, by 18.3.5).
///
/// LENGTH is 1 to 4095. The trellis holds the steps up to the end of the tail, and nothing afterwards; `field` has an entry
/// for each of them, whose content is overwritten. `octets` has LENGTH entries at least; those behind are unchanged.
/// Takes no memory.
pub fn finish_field(
    header: &Header,
    trellis: &mut Trellis,
    field: &mut [u8],
    octets: &mut [u8],
) -> u8
    requires octets { IsLength header.now.length }
    requires held { length trellis.old.rows ≡ bits_through_tail header.now.length }
    requires field { bits_through_tail header.now.length ≤ length field.old }
    requires places { header.now.length ≤ length octets.old }
    ensures field { (decisions : Rate → ℕ → List ℕ) → StandsFor trellis.old
        (marks_of (row_of header.now.rate).code_rate
        (data_decisions decisions header.now.rate (symbols_of header.now))
        (bits_through_tail header.now.length))
        → HasField decisions header.now result (take header.now.length octets.new) }
    ensures seven_bits { result ≤ 127 }
    ensures behind { drop header.now.length octets.new ≡ drop header.now.length octets.old }
    ensures len { length octets.new ≡ length octets.old }
    ensures field_len { length field.new ≡ length field.old }
    ensures stands { StandsFor trellis.new [] }
    ensures room { trellis.new.room ≡ trellis.old.room }
{
    let octet_count = usize::from(header.length);
    let bits = &mut field[..22 + 8 * octet_count];
    trellis.finish(bits);
    read_field(bits, &mut octets[..octet_count])
}

// The number that names the front of a field's bits, which are descrambled; the octets in them are written.
fn read_field(bits: &mut [u8], octets: &mut [u8]) -> u8
    requires bits { AreBits bits.old }
    requires long { length bits.old ≡ bits_through_tail (length octets.old) }
    requires few { length octets.old ≤ 4095 }
    ensures names { NamesFront result bits.old }
    ensures psdu { octets.new ≡ psdu_in (length octets.old) result bits.old }
{
    let mut front = [0; 7];
    front.copy_from_slice(&bits[..7]);
    let seed = seed_of_front(&front);
    descramble_in_place(seed, bits);
    put_octets(&bits[16..16 + 8 * octets.len()], octets);
    seed
}

// Writes the octets of bits.
fn put_octets(bits: &[u8], octets: &mut [u8])
    requires bits { AreBits bits.now }
    requires eight { length bits.now ≡ 8 * length octets.old }
    ensures { octets.new ≡ octets_of_bits bits.now }
{
    for k in 0..octets.len() {
        octets[k] = octet_of(&bits[8 * k..8 * k + 8]);
    }
}
