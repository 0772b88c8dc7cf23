//! Ports over memory, whose calls fail where that was asked for.
ghost use Rattle.std.specs.Prelude.{◌≡◌, ◌↔◌, ◌⊎◌, ◌<◌, ◌≤◌, ◌-◌, ◌++◌, [], length, take, drop, min, Contains, IfOk, OnErr, IsErr, IsTrue};
ghost use Rattle.modem_ports.specs.Calls.{ReadStep, WriteStep};
ghost use Rattle.modem_ports.specs.Counts.{count_end, raised_by};

use crate::counts::Count;
use crate::{Failed, Sink, Source};
use std::alloc::{AllocError, Global};
use std::marker::Model;

// The calls of a port: those that fail, how many there were, and how many failed.
#[derive(Debug, Drop)]
struct Calls {
    failing: Vec<u64>,
    number: Count,
    faults: Count,
}

impl Calls {
    fn open(alloc: Global, failing: &[u64]) -> Result<Calls, AllocError>
        ensures failing { IfOk result (λ calls. calls.failing.items ≡ failing.now) }
        ensures number { IfOk result (λ calls. calls.number ≡ 0) }
        ensures faults { IfOk result (λ calls. calls.faults ≡ 0) }
    {
        Ok(Calls {
            failing: failing.to_vec(alloc)?,
            number: Count::new(),
            faults: Count::new(),
        })
    }

    // Numbers one more call, and answers whether it is to fail.
    fn begin(&mut self) -> bool
        ensures number { self.new ≡ record self.old { number = raised_by 1 self.old.number } }
        ensures fails { IsTrue result
            ↔ Contains self.old.failing.items (raised_by 1 self.old.number) }
    {
        self.number.raise();
        self.failing.contains(&self.number.value())
    }

    // Counts one more fault, and answers it.
    fn fault(&mut self) -> Failed
        ensures faults { self.new ≡ record self.old { faults = raised_by 1 self.old.faults } }
        ensures counted { self.old.faults ≤ self.new.faults }
        ensures stands { self.old.faults ≡ count_end → self.new.faults ≡ count_end }
    {
        self.faults.raise();
        Failed
    }
}

/// A source of the bytes that it was given, which tells them, and whose calls fail where that was asked for (own).
///
/// Calls of `read` are numbered from 1, up to `u64::MAX`, where the number stands still. A call whose number is among
/// those that fail gives nothing, and the count of faults goes up by one. Any other call gives as many bytes as the
/// most of one call, the buffer and the bytes that are left allow.
#[derive(Debug, Drop)]
pub struct MemSource {
    bytes: Vec<u8>,
    at: usize,
    most: usize,
    calls: Calls,
}

impl Model for MemSource {
    ghost use Rattle.std.specs.Prelude.{◌≤◌, vec_len, drop};
    ghost use Rattle.modem_ports.specs.Memory.{SourceState};

    ghost Value = { SourceState };

    ghost view = { λ s. record {
      left = drop s.at s.bytes.items;
      most = s.most;
      failing = s.calls.failing.items;
      calls = s.calls.number;
      faults = s.calls.faults;
    } };

    ghost invariant = { λ s. (s.at ≤ vec_len s.bytes) × (1 ≤ s.most) };
}

impl MemSource {
    /// A source of these bytes, which gives at most `most` of them a call, and whose calls with the numbers in
    /// `failing` fail. `most` is at least 1. The only error is want of memory.
    pub fn open(
        alloc: Global,
        bytes: &[u8],
        most: usize,
        failing: &[u64],
    ) -> Result<MemSource, AllocError>
        requires { 1 ≤ most }
        ensures { IfOk result
            (λ source. source ≡ record {
              left = bytes.now;
              most = most;
              failing = failing.now;
              calls = 0;
              faults = 0;
            }) }
    {
        let bytes = bytes.to_vec(alloc)?;
        let calls = Calls::open(alloc, failing)?;
        Ok(MemSource {
            bytes,
            at: 0,
            most,
            calls,
        })
    }
}

impl Source for MemSource {
    ghost use Rattle.std.specs.Prelude.{Some};

    ghost left = { λ s. Some s.left };

    ghost faults = { λ s. s.faults };

    fn read(&mut self, buf: &mut [u8]) -> Result<usize, Failed>
        requires { 0 < length buf.old }
        ensures step { ReadStep (length buf.old) (Some self.old.left) (Some self.new.left)
            self.old.faults self.new.faults buf.new result }
        ensures fails { IsErr result ↔ Contains self.old.failing (raised_by 1 self.old.calls) }
        ensures count { IfOk result
            (λ n. n ≡ min self.old.most (min (length buf.old) (length self.old.left))) }
        ensures next { IfOk result
            (λ n. self.new ≡ record self.old {
              left = drop n self.old.left;
              calls = raised_by 1 self.old.calls;
            }) }
        ensures fault { OnErr result
            (self.new ≡ record self.old {
              calls = raised_by 1 self.old.calls;
              faults = raised_by 1 self.old.faults;
            }) }
    {
        if self.calls.begin() {
            return Err(self.calls.fault());
        }
        let rest = &self.bytes[self.at..];
        let count = self.most.min(buf.len().min(rest.len()));
        buf[..count].copy_from_slice(&rest[..count]);
        self.at += count;
        Ok(count)
    }
}

/// A sink that keeps and tells what it takes, has room for so many bytes, and whose calls fail where that was asked
/// for (own).
///
/// Calls of `write` are numbered from 1, up to `u64::MAX`, where the number stands still. A call whose number is
/// among those that fail, or that finds no room, takes nothing, and the count of faults goes up by one. Any other
/// call takes as many bytes as the most of one call, the piece and the room allow. It takes no memory.
#[derive(Debug, Drop)]
pub struct MemSink {
    taken: Vec<u8>,
    room: usize,
    most: usize,
    calls: Calls,
}

impl Model for MemSink {
    ghost use Rattle.std.specs.Prelude.{◌≤◌, vec_len};
    ghost use Rattle.std.specs.Vec.{vec_capacity};
    ghost use Rattle.modem_ports.specs.Memory.{SinkState};

    ghost Value = { SinkState };

    ghost view = { λ s. record {
      taken = s.taken.items;
      room = s.room;
      most = s.most;
      failing = s.calls.failing.items;
      calls = s.calls.number;
      faults = s.calls.faults;
    } };

    ghost invariant = { λ s.
        (vec_len s.taken ≤ s.room) × (s.room ≤ vec_capacity s.taken) × (1 ≤ s.most) };
}

impl MemSink {
    /// A sink with room for `room` bytes, which takes at most `most` of them a call, and whose calls with the numbers
    /// in `failing` fail. `most` is at least 1. The only error is want of memory.
    pub fn open(
        alloc: Global,
        room: usize,
        most: usize,
        failing: &[u64],
    ) -> Result<MemSink, AllocError>
        requires { 1 ≤ most }
        ensures { IfOk result
            (λ sink. sink ≡ record {
              taken = [];
              room = room;
              most = most;
              failing = failing.now;
              calls = 0;
              faults = 0;
            }) }
    {
        let taken = Vec::with_capacity(alloc, room)?;
        let calls = Calls::open(alloc, failing)?;
        Ok(MemSink {
            taken,
            room,
            most,
            calls,
        })
    }

    /// The bytes taken so far. Takes no memory.
    pub fn taken(&self) -> &[u8]
        ensures { result.now ≡ self.now.taken }
    {
        self.taken.as_slice()
    }
}

impl Sink for MemSink {
    ghost use Rattle.std.specs.Prelude.{Some};

    ghost taken = { λ s. Some s.taken };

    ghost faults = { λ s. s.faults };

    fn write(&mut self, piece: &[u8]) -> Result<usize, Failed>
        requires { 0 < length piece.now }
        ensures step { WriteStep piece.now (Some self.old.taken) (Some self.new.taken)
            self.old.faults self.new.faults result }
        ensures fails { IsErr result
            ↔ (Contains self.old.failing (raised_by 1 self.old.calls)
            ⊎ (self.old.room ≤ length self.old.taken)) }
        ensures count { IfOk result
            (λ n. n ≡ min self.old.most
            (min (length piece.now) (self.old.room - length self.old.taken))) }
        ensures next { IfOk result
            (λ n. self.new ≡ record self.old {
              taken = self.old.taken ++ take n piece.now;
              calls = raised_by 1 self.old.calls;
            }) }
        ensures fault { OnErr result
            (self.new ≡ record self.old {
              calls = raised_by 1 self.old.calls;
              faults = raised_by 1 self.old.faults;
            }) }
    {
        let free = self.room - self.taken.len();
        if self.calls.begin() || free == 0 {
            return Err(self.calls.fault());
        }
        let count = self.most.min(piece.len().min(free));
        self.taken.extend_from_slice(&piece[..count]).unwrap();
        Ok(count)
    }
}
