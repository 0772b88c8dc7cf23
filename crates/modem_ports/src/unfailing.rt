//! Ports that never fail.
ghost use Rattle.std.specs.Prelude.{◌≡◌, ◌<◌, Ok, None, length, drop, min, replicate, IfOk};
ghost use Rattle.modem_ports.specs.Calls.{ReadStep, WriteStep};

use crate::{Failed, Sink, Source};
use std::alloc::{AllocError, Global};
use std::marker::Model;

/// A source of the bytes that it was given, which tells them, and whose calls never fail (own).
///
/// Each call gives as many bytes as the buffer and the bytes that are left allow. Contracts see it as
/// the bytes that are left.
#[derive(Debug, Drop)]
pub struct NeverFails {
    bytes: Vec<u8>,
    at: usize,
}

impl Model for NeverFails {
    ghost use Rattle.std.specs.Prelude.{◌≤◌, ℕ, List, vec_len, drop};

    ghost Value = { List ℕ };

    ghost view = { λ s. drop s.at s.bytes.items };

    ghost invariant = { λ s. s.at ≤ vec_len s.bytes };
}

impl NeverFails {
    /// A source of these bytes. The only error is want of memory.
    pub fn open(alloc: Global, bytes: &[u8]) -> Result<NeverFails, AllocError>
        ensures { IfOk result (λ source. source ≡ bytes.now) }
    {
        let bytes = bytes.to_vec(alloc)?;
        Ok(NeverFails { bytes, at: 0 })
    }
}

impl Source for NeverFails {
    ghost use Rattle.std.specs.Prelude.{Some};

    ghost left = { λ bytes. Some bytes };

    ghost faults = { λ _. 0 };

    fn read(&mut self, buf: &mut [u8]) -> Result<usize, Failed>
        requires { 0 < length buf.old }
        ensures step { ReadStep (length buf.old) (Some self.old) (Some self.new) 0 0 buf.new result }
        ensures count { result ≡ Ok (min (length buf.old) (length self.old)) }
        ensures next { self.new ≡ drop (length buf.old) self.old }
    {
        let rest = &self.bytes[self.at..];
        let count = buf.len().min(rest.len());
        buf[..count].copy_from_slice(&rest[..count]);
        self.at += count;
        Ok(count)
    }
}

/// A sink that takes every byte, tells nothing, and whose calls never fail (own).
#[derive(Clone, Copy, Debug)]
pub struct Discard;

impl Discard {
    /// Such a sink. Takes no memory.
    pub fn new() -> Discard {
        Discard
    }
}

impl Sink for Discard {
    ghost taken = { λ _. None };

    ghost faults = { λ _. 0 };

    fn write(&mut self, piece: &[u8]) -> Result<usize, Failed>
        requires { 0 < length piece.now }
        ensures step { WriteStep piece.now None None 0 0 result }
        ensures all { result ≡ Ok (length piece.now) }
    {
        Ok(piece.len())
    }
}

/// A source that fills every buffer with zero bytes, never ends, tells nothing, and whose calls never
/// fail (own).
#[derive(Clone, Copy, Debug)]
pub struct ZeroSource;

impl ZeroSource {
    /// Such a source. Takes no memory.
    pub fn new() -> ZeroSource {
        ZeroSource
    }
}

impl Source for ZeroSource {
    ghost left = { λ _. None };

    ghost faults = { λ _. 0 };

    fn read(&mut self, buf: &mut [u8]) -> Result<usize, Failed>
        requires { 0 < length buf.old }
        ensures step { ReadStep (length buf.old) None None 0 0 buf.new result }
        ensures full { result ≡ Ok (length buf.old) }
        ensures zeros { buf.new ≡ replicate (length buf.old) 0 }
    {
        buf.fill(0);
        Ok(buf.len())
    }
}
