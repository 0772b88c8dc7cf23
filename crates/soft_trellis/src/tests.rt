use crate::{CostFault, Soft, SoftTrellis, decode_soft, read_costs};
use modem_ports::Steps;
use rate_table::Rate;
use std::test::Fail;

// The kept code of one octet 0 at 6 Mb/s with the seed 93, of which five digits lean to the wrong bit.
const LEANING: &[u8] =
    b"00fff0f0ff0f000f00f00f00f0f0000088ff0070f0ff88f0f00f0000f0fffff0f0ff0f00f00f0ff0ff0ff000f00000ff";

#[test]
fn reads_texts(rt: HostRuntime) -> Result<(), Fail> {
    let rows: [(&[u8], &[u8]); 5] = [
        (b"09af", &[0, 9, 10, 15]),
        (b"f7\n", &[15, 7]),
        (
            b"0123456789abcdef9\n",
            &[0, 1, 2, 3, 4, 5, 6, 7, 8, 9, 10, 11, 12, 13, 14, 15, 9],
        ),
        (b"", &[]),
        (b"\n", &[]),
    ];
    for (text, values) in rows {
        let read = read_costs(rt.alloc(), text)?;
        assert!(rt; read.as_slice() == values);
    }
    let bad: [(&[u8], usize); 8] = [
        (b"0G", 1),
        (b"0F", 1),
        (b"\n0", 0),
        (b"0\n\n", 1),
        (b"0:", 1),
        (b"a`", 1),
        (b"0123456789abcdeg0", 15),
        (b"0123456789abcdef0A", 17),
    ];
    for (text, place) in bad {
        assert!(rt;
            matches!(&read_costs(rt.alloc(), text), Err(CostFault::BadCost { at }) if *at == place)
        );
    }
    Ok(())
}

#[test]
fn leaning_digits_cost_what_they_lean(rt: HostRuntime) -> Result<(), Fail> {
    let values = read_costs(rt.alloc(), LEANING)?;
    assert!(rt; values.len() == 96);
    let mut steps = Steps::new();
    let field = decode_soft(rt.alloc(), Rate::R6, 1, &values, &mut steps)?;
    assert!(rt; field.psdu.as_slice() == [0].as_slice());
    assert_eq!(rt; field.seed, 93);
    assert_eq!(rt; field.cost, 40);
    assert_eq!(rt; steps.count(), 30);
    Ok(())
}

// Seven pairs, of which one is dropped by `start` and one mark is absent.
#[test]
fn held_pairs(rt: HostRuntime) -> Result<(), Fail> {
    let mut trellis = SoftTrellis::open(rt.alloc(), 6)?;
    let mut steps = Steps::new();
    trellis.step(Soft::Cost(15), Soft::Cost(15), &mut steps);
    trellis.start();
    for number in [3; 6] {
        trellis.step(Soft::Cost(number), Soft::Absent, &mut steps);
    }
    assert_eq!(rt; trellis.held(), 6);
    assert_eq!(rt; trellis.room(), 6);
    let mut out = [1; 6];
    assert_eq!(rt; trellis.finish(&mut out), 18);
    assert_eq!(rt; out, [0; 6]);
    assert_eq!(rt; steps.count(), 7);
    Ok(())
}
