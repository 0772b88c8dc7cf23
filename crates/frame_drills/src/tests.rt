use crate::{Summary, drill, summary_text};
use modem_ports::Steps;
use std::test::Fail;

// The numbers of samples are from another program for the words of the generators.
#[test]
fn six_frames_come_back(rt: HostRuntime) -> Result<(), Fail> {
    let mut steps = Steps::new();
    let summary = drill(rt.alloc(), 6, &mut steps)?;
    assert!(rt; summary.count == 6);
    assert!(rt; summary.heard == 6);
    assert!(rt; summary.samples == 93335);
    Ok(())
}

#[test]
fn text_of_a_summary(rt: HostRuntime) -> Result<(), Fail> {
    let summary = Summary {
        count: 50,
        heard: 49,
        octets: 0,
        samples: 18446744073709551615,
    };
    let text = summary_text(rt.alloc(), &summary)?;
    assert_eq!(rt;
        text.as_slice(),
        b"drill 50 heard 49 octets 0 samples 18446744073709551615\n".as_slice()
    );
    Ok(())
}
