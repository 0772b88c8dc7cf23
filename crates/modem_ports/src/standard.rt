//! Ports over std's readers and writers.
ghost use Rattle.std.specs.Prelude.{◌≡◌, ◌<◌, ◌≤◌, None, length, IfOk, OnOk, OnErr};
ghost use Rattle.modem_ports.specs.Calls.{ReadStep, WriteStep};
ghost use Rattle.modem_ports.specs.Counts.{raised_by};

use crate::counts::Count;
use crate::{Failed, Sink, Source};
use std::io;
use std::io::{ErrorKind, Read, Write};
use std::marker::Model;

/// A source over a reader of std, which tells nothing of its bytes (own).
///
/// Its count of faults begins at 0 and goes up by one at every error of the reader.
#[derive(Drop)]
pub struct StdSource<R: Read> {
    reader: R,
    faults: Count,
}

impl<R: Read> Model for StdSource<R> {
    ghost use Rattle.std.specs.Prelude.{ℕ};

    ghost Value = { ℕ };

    ghost view = { λ s. s.faults };
}

impl<R: Read> StdSource<R> {
    /// A source over this reader, with no faults so far. Takes no memory.
    pub fn new(reader: R) -> StdSource<R>
        ensures { result ≡ 0 }
    {
        StdSource {
            reader,
            faults: Count::new(),
        }
    }
}

impl<R: Read> Source for StdSource<R> {
    ghost left = { λ _. None };

    ghost faults = { λ count. count };

    fn read(&mut self, buf: &mut [u8]) -> Result<usize, Failed>
        requires { 0 < length buf.old }
        ensures step { ReadStep (length buf.old) None None self.old self.new buf.new result }
        ensures raised { OnErr result (self.new ≡ raised_by 1 self.old) }
        ensures unraised { OnOk result (self.new ≡ self.old) }
    {
        match self.reader.read(buf) {
            Ok(count) => Ok(count),
            Err(_) => {
                self.faults.raise();
                Err(Failed)
            }
        }
    }
}

/// A sink over a writer of std, which tells nothing of its bytes (own).
///
/// It flushes after each write. A write that takes nothing of its piece is a failure, and so is a flush that fails.
/// Its count of faults begins at 0 and goes up by one at every failure.
#[derive(Drop)]
pub struct StdSink<W: Write> {
    writer: W,
    faults: Count,
}

impl<W: Write> Model for StdSink<W> {
    ghost use Rattle.std.specs.Prelude.{ℕ};

    ghost Value = { ℕ };

    ghost view = { λ s. s.faults };
}

impl<W: Write> StdSink<W> {
    /// A sink over this writer, with no faults so far. Takes no memory.
    pub fn new(writer: W) -> StdSink<W>
        ensures { result ≡ 0 }
    {
        StdSink {
            writer,
            faults: Count::new(),
        }
    }
}

impl<W: Write> Sink for StdSink<W> {
    ghost taken = { λ _. None };

    ghost faults = { λ count. count };

    fn write(&mut self, piece: &[u8]) -> Result<usize, Failed>
        requires { 0 < length piece.now }
        ensures step { WriteStep piece.now None None self.old self.new result }
        ensures raised { OnErr result (self.new ≡ raised_by 1 self.old) }
        ensures unraised { OnOk result (self.new ≡ self.old) }
    {
        match write_through(&mut self.writer, piece) {
            Ok(count) => Ok(count),
            Err(_) => {
                self.faults.raise();
                Err(Failed)
            }
        }
    }
}

// Writes the front of a piece and flushes it, and answers how many bytes were taken, at least one.
fn write_through<W: Write>(writer: &mut W, piece: &[u8]) -> io::Result<usize>
    ensures some { IfOk result (λ n. 0 < n) }
    ensures within { IfOk result (λ n. n ≤ length piece.now) }
{
    let count = writer.write(piece)?;
    if count == 0 {
        return Err(io::Error::from(ErrorKind::WriteZero));
    }
    writer.flush()?;
    Ok(count)
}
