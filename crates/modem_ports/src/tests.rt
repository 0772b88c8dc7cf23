use crate::{
    Discard, Failed, MemSink, MemSource, NeverFails, ReadAllFault, Source, StdSink, StdSource,
    Steps, ZeroSource, read_all, write_all,
};
use std::io;
use std::io::{ErrorKind, Read, Write};
use std::test::Fail;

#[test]
fn one_byte_a_call(rt: HostRuntime) -> Result<(), Fail> {
    let mut source = MemSource::open(rt.alloc(), b"modem", 1, &[])?;
    let bytes = read_all(rt.alloc(), &mut source, 100)?;
    assert_eq!(rt; bytes.as_slice(), b"modem".as_slice());
    let mut buf = [0; 4];
    assert_eq!(rt; source.read(&mut buf), Ok(0));
    Ok(())
}

// Five bytes, two a call, are read in four calls, of which the last is the end.
#[test]
fn each_call_fails(rt: HostRuntime) -> Result<(), Fail> {
    for call in 1..5 {
        let mut source = MemSource::open(rt.alloc(), b"modem", 2, &[call])?;
        let failed = matches!(
            read_all(rt.alloc(), &mut source, 5),
            Err(ReadAllFault::Failed)
        );
        assert!(rt; failed, "call {call}");
    }
    let mut source = MemSource::open(rt.alloc(), b"modem", 2, &[5])?;
    let bytes = read_all(rt.alloc(), &mut source, 5)?;
    assert_eq!(rt; bytes.as_slice(), b"modem".as_slice());
    Ok(())
}

#[test]
fn over_the_limit(rt: HostRuntime) -> Result<(), Fail> {
    let mut source = MemSource::open(rt.alloc(), b"modems!", 100, &[])?;
    let long = matches!(
        read_all(rt.alloc(), &mut source, 4),
        Err(ReadAllFault::Long)
    );
    assert!(rt; long);
    let rest = read_all(rt.alloc(), &mut source, 2)?;
    assert_eq!(rt; rest.as_slice(), b"s!".as_slice());
    Ok(())
}

// The room, the failing call, whether all is written, and what the sink has then.
#[test]
fn what_a_sink_takes(rt: HostRuntime) -> Result<(), Fail> {
    let cases = [
        (5, 4, Ok(()), "modem"),
        (5, 3, Err(Failed), "mode"),
        (5, 1, Err(Failed), ""),
        (3, 9, Err(Failed), "mod"),
    ];
    for (room, failing, written, taken) in cases {
        let mut sink = MemSink::open(rt.alloc(), room, 2, &[failing])?;
        assert_eq!(rt;
            write_all(&mut sink, b"modem"),
            written,
            "room {room}, call {failing}"
        );
        assert_eq!(rt;
            sink.taken(),
            taken.as_bytes(),
            "room {room}, call {failing}"
        );
    }
    Ok(())
}

// A reader and writer that doesn't work.
#[derive(Clone, Copy, Debug)]
enum Fake {
    // Gives and takes nothing.
    Empty,
    // Fails at each call.
    Broken,
    // Takes all, and fails where it is flushed.
    Unflushed,
}

impl Read for Fake {
    fn read(&mut self, _buf: &mut [u8]) -> io::Result<usize> {
        match self {
            Fake::Broken => Err(io::Error::from(ErrorKind::Other)),
            Fake::Empty | Fake::Unflushed => Ok(0),
        }
    }
}

impl Write for Fake {
    fn write(&mut self, buf: &[u8]) -> io::Result<usize> {
        match self {
            Fake::Broken => Err(io::Error::from(ErrorKind::Other)),
            Fake::Empty => Ok(0),
            Fake::Unflushed => Ok(buf.len()),
        }
    }

    fn flush(&mut self) -> io::Result<()> {
        match self {
            Fake::Unflushed => Err(io::Error::from(ErrorKind::Other)),
            Fake::Empty | Fake::Broken => Ok(()),
        }
    }
}

#[test]
fn over_a_reader(rt: HostRuntime) -> Result<(), Fail> {
    let mut source = StdSource::new(b"modem".as_slice());
    let bytes = read_all(rt.alloc(), &mut source, 5)?;
    assert_eq!(rt; bytes.as_slice(), b"modem".as_slice());
    let mut broken = StdSource::new(Fake::Broken);
    let failed = matches!(
        read_all(rt.alloc(), &mut broken, 5),
        Err(ReadAllFault::Failed)
    );
    assert!(rt; failed);
    Ok(())
}

#[test]
fn over_a_writer(rt: HostRuntime) -> Result<(), Fail> {
    let mut bytes: Vec<u8> = Vec::new(rt.alloc());
    {
        let mut sink = StdSink::new(&mut bytes);
        assert_eq!(rt; write_all(&mut sink, b"modem"), Ok(()));
    }
    assert_eq!(rt; bytes.as_slice(), b"modem".as_slice());
    for fake in [Fake::Empty, Fake::Broken, Fake::Unflushed] {
        let mut sink = StdSink::new(fake);
        assert_eq!(rt; write_all(&mut sink, b"modem"), Err(Failed), "{fake:?}");
    }
    Ok(())
}

#[test]
fn ports_that_never_fail(rt: HostRuntime) -> Result<(), Fail> {
    let mut source = NeverFails::open(rt.alloc(), b"modem")?;
    let bytes = read_all(rt.alloc(), &mut source, 5)?;
    assert_eq!(rt; bytes.as_slice(), b"modem".as_slice());
    assert_eq!(rt; write_all(&mut Discard::new(), b"modem"), Ok(()));
    let long = matches!(
        read_all(rt.alloc(), &mut ZeroSource::new(), 5000),
        Err(ReadAllFault::Long)
    );
    assert!(rt; long);
    Ok(())
}

#[test]
fn counts_steps(rt: HostRuntime) {
    let mut steps = Steps::new();
    for _ in 0..3 {
        steps.tick();
    }
    assert_eq!(rt; steps.count(), 3);
}
