use crate::{frame_samples, inspect, receive};
use modem_ports::Steps;
use ofdm_scrambler::Seed;
use rate_table::Rate;
use std::test::Fail;

const PSDU: [u8; 4] = [0xde, 0xad, 0xbe, 0xef];

#[test]
fn what_is_sent_is_received(rt: HostRuntime) -> Result<(), Fail> {
    let seed = Seed::new(1).ok_or("1")?;
    let frame = frame_samples(rt.alloc(), Rate::R6, seed, &PSDU)?;
    assert!(rt; frame.len() == 640);
    let mut steps = Steps::new();
    let reception = receive(rt.alloc(), &frame, &mut steps).map_err(|_| "no frame")?;
    let heard = reception.heard.as_slice();
    assert!(rt; heard.len() == 1);
    assert!(rt; heard[0].psdu.as_slice() == PSDU.as_slice());
    assert_eq!(rt; reception.cut, None);
    let reports = inspect(rt.alloc(), &frame, &mut steps)?;
    assert!(rt; !reports.is_empty());
    Ok(())
}
