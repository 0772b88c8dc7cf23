use crate::{CaptureFault, Piecer, read_capture, write_samples};
use fixed_complex::Sample;
use modem_ports::{Failed, MemSink, MemSource};
use std::test::Fail;

#[test]
fn four_bytes_a_sample(rt: HostRuntime) -> Result<(), Fail> {
    let samples = [
        Sample { i: 3240, q: 0 },
        Sample { i: 5, q: -7 },
        Sample {
            i: 32767,
            q: -32768,
        },
    ];
    let bytes = [
        0xA8, 0x0C, 0x00, 0x00, 0x05, 0x00, 0xF9, 0xFF, 0xFF, 0x7F, 0x00, 0x80,
    ];
    let mut sink = MemSink::open(rt.alloc(), 100, 3, &[])?;
    assert_eq!(rt; write_samples(&samples, &mut sink), Ok(()));
    assert_eq!(rt; sink.taken(), bytes.as_slice());
    let mut source = MemSource::open(rt.alloc(), &bytes, 1, &[])?;
    let read = read_capture(rt.alloc(), &mut source)?;
    assert_eq!(rt; read.as_slice(), samples.as_slice());
    Ok(())
}

#[test]
fn a_torn_capture(rt: HostRuntime) -> Result<(), Fail> {
    let mut source = MemSource::open(rt.alloc(), b"modem", 2, &[])?;
    let torn = matches!(
        read_capture(rt.alloc(), &mut source),
        Err(CaptureFault::Torn { bytes: 5 })
    );
    assert!(rt; torn);
    Ok(())
}

// Eight bytes, three a call, are read in four calls, of which the last is the end.
#[test]
fn each_read_fails(rt: HostRuntime) -> Result<(), Fail> {
    for call in 1..5 {
        let mut source = MemSource::open(rt.alloc(), b"a modem!", 3, &[call])?;
        let failed = matches!(
            read_capture(rt.alloc(), &mut source),
            Err(CaptureFault::Failed)
        );
        assert!(rt; failed, "call {call}");
    }
    let mut source = MemSource::open(rt.alloc(), b"a modem!", 3, &[5])?;
    let read = read_capture(rt.alloc(), &mut source)?;
    assert_eq!(rt; read.len(), 2);
    Ok(())
}

// 1500 samples are handed over as 4096 bytes and then 1904. The call that fails, and how many bytes were taken then:
// 1000 a call, and 96 at the end of the first piece.
#[test]
fn in_pieces(rt: HostRuntime) -> Result<(), Fail> {
    let samples = [Sample { i: 954, q: 954 }; 1500];
    let cases = [
        (1, 0),
        (2, 1000),
        (3, 2000),
        (4, 3000),
        (5, 4000),
        (6, 4096),
        (7, 5096),
    ];
    for (call, taken) in cases {
        let mut sink = MemSink::open(rt.alloc(), 6000, 1000, &[call])?;
        assert_eq!(rt;
            write_samples(&samples, &mut sink),
            Err(Failed),
            "call {call}"
        );
        assert_eq!(rt; sink.taken().len(), taken, "call {call}");
    }
    Ok(())
}

#[test]
fn samples_as_bytes_come(rt: HostRuntime) {
    let mut piecer = Piecer::new();
    for (byte, rest) in [(0x05, 1), (0x00, 2), (0xF9, 3)] {
        assert_eq!(rt; piecer.feed(byte), None);
        assert_eq!(rt; piecer.rest(), rest);
    }
    assert_eq!(rt; piecer.feed(0xFF), Some(Sample { i: 5, q: -7 }));
    assert_eq!(rt; piecer.rest(), 0);
}
