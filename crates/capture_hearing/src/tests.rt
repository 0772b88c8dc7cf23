use crate::receive_from;
use modem_ports::{MemSource, Steps};
use report_lines::Refusal;
use std::test::Fail;

#[test]
fn captures_without_frames(rt: HostRuntime) -> Result<(), Fail> {
    let rows: [(&[u8], Refusal); 3] = [
        (b"", Refusal::NoFrame),
        (b"modem", Refusal::TornCapture { bytes: 5 }),
        (&[0; 4000], Refusal::NoFrame),
    ];
    for (bytes, refusal) in rows {
        let mut source = MemSource::open(rt.alloc(), bytes, 700, &[])?;
        let mut steps = Steps::new();
        let received = receive_from(rt.alloc(), &mut source, &mut steps);
        assert!(rt; received.err() == Some(refusal));
        assert_eq!(rt; steps.count(), bytes.len() as u64 / 4);
    }
    Ok(())
}
