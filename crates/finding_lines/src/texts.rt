//! What is put behind a text. No memory is taken where the text has room for it.
ghost use Rattle.std.specs.Prelude.{◌≡◌, ◌+◌, ◌*◌, ◌<◌, ◌≤◌, ◌++◌, decimal, length, vec_len, OnErr, OnOk};
ghost use Rattle.std.specs.Vec.{vec_capacity};
ghost use Rattle.finding_lines.specs.Lines.{spaced};
ghost use Rattle.hex.specs.Hex.{encode_lower};

use hex::encode_to_slice;
use itoa::Buffer;
use std::alloc::AllocError;

// Appends a number in decimal.
pub(crate) fn push_number(text: &mut Vec<u8>, number: u32) -> Result<(), AllocError>
    ensures value { OnOk result (text.new.items ≡ text.old.items ++ decimal number) }
    ensures len { OnOk result (vec_len text.new ≤ vec_len text.old + 10) }
    ensures full { OnErr result (vec_capacity text.old < vec_len text.old + 10) }
    ensures capacity { vec_capacity text.old ≤ vec_capacity text.new }
{
    let mut buffer = Buffer::new();
    text.extend_from_slice(buffer.format(number).as_bytes())
}

// Appends a number in decimal, and a space.
pub(crate) fn push_spaced(text: &mut Vec<u8>, number: u32) -> Result<(), AllocError>
    ensures value { OnOk result (text.new.items ≡ text.old.items ++ spaced number) }
    ensures len { OnOk result (vec_len text.new ≤ vec_len text.old + 11) }
    ensures full { OnErr result (vec_capacity text.old < vec_len text.old + 11) }
    ensures capacity { vec_capacity text.old ≤ vec_capacity text.new }
{
    push_number(text, number)?;
    text.extend_from_slice(b" ")
}

// Appends octets in lower-case hexadecimal.
pub(crate) fn push_octets(text: &mut Vec<u8>, octets: &[u8]) -> Result<(), AllocError>
    ensures value { OnOk result (text.new.items ≡ text.old.items ++ encode_lower octets.now) }
    ensures len { OnOk result (vec_len text.new ≡ vec_len text.old + 2 * length octets.now) }
    ensures full { OnErr result (vec_capacity text.old < vec_len text.old + 2 * length octets.now) }
    ensures capacity { vec_capacity text.old ≤ vec_capacity text.new }
{
    let from = text.len();
    text.reserve(2 * octets.len())?;
    text.resize(from + 2 * octets.len(), 0)?;
    let digits = &mut text.as_mut_slice()[from..];
    encode_to_slice(octets, digits).unwrap();
    Ok(())
}
