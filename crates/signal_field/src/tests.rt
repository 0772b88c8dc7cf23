ghost use Rattle.std.specs.Prelude.{◌≡◌, ◌≤◌};
ghost use Rattle.bit_lists.specs.Bits.{AreBits};

use crate::{Header, HeaderFault, header_bits, header_code, read_header};
use conv_code::encode;
use modem_ports::Steps;
use rate_table::Rate;
use std::alloc::Global;
use std::test::Fail;
use viterbi_lanes::Trellis;

// The header of a frame of 100 octets at 36 Mb/s.
fn header(reserved: u8) -> Header
    ensures rate { result.length ≡ 100 }
    ensures reserved { result.reserved ≡ reserved }
{
    Header {
        rate: Rate::R36,
        length: 100,
        reserved,
    }
}

// Either reserved bit.
#[test]
fn bits_of_a_frame(rt: HostRuntime) {
    let cases = [
        (
            0,
            [
                1, 0, 1, 1, 0, 0, 0, 1, 0, 0, 1, 1, 0, 0, 0, 0, 0, 0, 0, 0, 0, 0, 0, 0,
            ],
        ),
        (
            1,
            [
                1, 0, 1, 1, 1, 0, 0, 1, 0, 0, 1, 1, 0, 0, 0, 0, 0, 1, 0, 0, 0, 0, 0, 0,
            ],
        ),
    ];
    for (reserved, bits) in cases {
        assert!(rt;
            header_bits(&header(reserved)) == bits,
            "reserved bit {reserved}"
        );
    }
}

#[test]
fn code_of_a_frame(rt: HostRuntime) {
    let code = [
        1, 1, 0, 1, 0, 0, 0, 1, 1, 0, 1, 0, 0, 0, 0, 1, 0, 0, 0, 0, 0, 0, 1, 0, 0, 0, 1, 1, 1, 1,
        1, 0, 0, 1, 1, 1, 0, 0, 0, 0, 0, 0, 0, 0, 0, 0, 0, 0,
    ];
    assert!(rt; header_code(&header(0)) == code);
}

// What is read from the code of a text of 24 bits.
fn read(
    alloc: Global,
    text: &str,
    trellis: &mut Trellis,
    steps: &mut Steps,
) -> Result<Result<Header, HeaderFault>, Fail>
    requires room { 24 ≤ trellis.old.room }
    ensures room { trellis.new.room ≡ trellis.old.room }
{
    let code = encode(alloc, &bits(text))?;
    let mut decisions = [0; 48];
    decisions.copy_from_slice(&code[..48]);
    Ok(read_header(trellis, &decisions, steps))
}

// The bits of the first 24 characters.
fn bits(text: &str) -> [u8; 24]
    ensures { AreBits result }
{
    let mut bits = [0; 24];
    for (place, character) in text.as_bytes().iter().enumerate() {
        if place < 24 && *character == b'1' {
            bits[place] = 1;
        }
    }
    bits
}

// Bits that say a header, or have a fault.
#[test]
fn headers_and_faults(rt: HostRuntime) -> Result<(), Fail> {
    let cases = [
        ("110100000000000001000000", Err(HeaderFault::ZeroLength)),
        ("101100010011000001000000", Err(HeaderFault::BadParity)),
        (
            "000000010011000001000000",
            Err(HeaderFault::BadRate { pattern: 0 }),
        ),
        ("101110010011000001000000", Ok(header(1))),
    ];
    let mut trellis = Trellis::open(rt.alloc(), 24)?;
    let mut steps = Steps::new();
    for (text, answer) in cases {
        assert!(rt;
            read(rt.alloc(), text, &mut trellis, &mut steps)? == answer,
            "{text}"
        );
    }
    assert_eq!(rt; steps.count(), 96);
    Ok(())
}
