//! Whole reads and whole writes.
ghost use Rattle.std.specs.Prelude.{◌≡◌, ◌+◌, ◌-◌, ◌<◌, ◌≤◌, length, IfOk, OnOk, OnErr, IsErrOf, vec_len, alloc_error};
ghost use Rattle.modem_ports.specs.Counts.{Rose};
ghost use Rattle.modem_ports.specs.Limits.{most_input};
ghost use Rattle.modem_ports.specs.Told.{Gives, GivesAtMost, GivesExactly, GivesBehind, IsAtEnd, Takes, TakesPrefix};
ghost use Rattle.modem_ports.specs.declared.whole.ReadAllFault.TheVariants.{NoMemory};

use crate::{Failed, Sink, Source};
use std::alloc::{AllocError, Global};
use thiserror::Error;

/// The most bytes of an input: those of 2^24 samples (own).
pub const MOST_INPUT: usize = 67_108_864;

// The most bytes that are asked of a source at once.
const PIECE: usize = 4096;

/// Why an input was not read whole (own).
#[derive(Debug, Drop, Error)]
pub enum ReadAllFault {
    /// More bytes came than the limit.
    #[error("the input is longer than its limit")]
    Long,
    /// The source failed.
    #[error("the source failed")]
    Failed,
    /// Want of memory.
    #[error("no memory")]
    NoMemory(AllocError),
}

impl From<AllocError> for ReadAllFault {
    ghost from_gives = { λ e fault. fault ≡ NoMemory e };

    fn from(e: AllocError) -> ReadAllFault {
        ReadAllFault::NoMemory(e)
    }
}

/// Reads a source to the end of its input, of at most `limit` bytes (own). `limit` is at most [`MOST_INPUT`].
///
/// `Ok` has exactly the told bytes that were left, and none are left afterwards. `Long` comes exactly where byte
/// `limit + 1` was taken, and no more bytes are ever taken. `Failed` comes only where the source's count of faults
/// rose in this call. `NoMemory` is free.
pub fn read_all<S: Source>(
    alloc: Global,
    source: &mut S,
    limit: usize,
) -> Result<Vec<u8>, ReadAllFault>
    requires { limit ≤ most_input }
    ensures whole { IfOk result
        (λ bytes. Gives (S.left source.old) bytes.items (S.left source.new)) }
    ensures end { IfOk result (λ _. IsAtEnd (S.left source.new)) }
    ensures within { IfOk result (λ bytes. length bytes.items ≤ limit) }
    ensures long { IsErrOf result ReadAllFault.Long
        → GivesExactly (limit + 1) (S.left source.old) (S.left source.new) }
    ensures failed { IsErrOf result ReadAllFault.Failed
        → Rose (S.faults source.old) (S.faults source.new) }
    ensures failed_within { IsErrOf result ReadAllFault.Failed
        → GivesAtMost limit (S.left source.old) (S.left source.new) }
    ensures no_memory_within { IsErrOf result (ReadAllFault.NoMemory alloc_error)
        → GivesAtMost limit (S.left source.old) (S.left source.new) }
    ensures taken { GivesAtMost (limit + 1) (S.left source.old) (S.left source.new) }
    ensures counted { S.faults source.old ≤ S.faults source.new }
{
    let mut bytes = Vec::new(alloc);
    loop {
        let count = read_piece(source, &mut bytes, limit)?;
        if count == 0 {
            return Ok(bytes);
        }
    }
}

// Reads one more piece behind `bytes`, and answers how long it is. It is empty only at the end of input.
fn read_piece<S: Source>(
    source: &mut S,
    bytes: &mut Vec<u8>,
    limit: usize,
) -> Result<usize, ReadAllFault>
    requires limit_in { limit ≤ most_input }
    requires short { vec_len bytes.old ≤ limit }
    ensures given { OnOk result
        (GivesBehind (S.left source.old) bytes.old.items (S.left source.new) bytes.new.items) }
    ensures count { IfOk result (λ n. vec_len bytes.new ≡ vec_len bytes.old + n) }
    ensures end { result ≡ Ok 0 → IsAtEnd (S.left source.new) }
    ensures within { OnOk result (vec_len bytes.new ≤ limit) }
    ensures long { IsErrOf result ReadAllFault.Long
        → GivesExactly (limit + 1 - vec_len bytes.old) (S.left source.old) (S.left source.new) }
    ensures failed { IsErrOf result ReadAllFault.Failed
        → Rose (S.faults source.old) (S.faults source.new) }
    ensures kept { IsErrOf result ReadAllFault.Failed → S.left source.new ≡ S.left source.old }
    ensures no_memory_within { IsErrOf result (ReadAllFault.NoMemory alloc_error)
        → GivesAtMost (limit - vec_len bytes.old) (S.left source.old) (S.left source.new) }
    ensures taken { GivesAtMost (limit + 1 - vec_len bytes.old) (S.left source.old) (S.left source.new) }
    ensures counted { S.faults source.old ≤ S.faults source.new }
{
    let mut piece = [0; PIECE];
    let room = limit - bytes.len();
    let most = PIECE.min(room + 1);
    let Ok(count) = source.read(&mut piece[..most]) else {
        return Err(ReadAllFault::Failed);
    };
    if count > room {
        return Err(ReadAllFault::Long);
    }
    bytes.extend_from_slice(&piece[..count])?;
    Ok(count)
}

/// Writes all the bytes to a sink, in as many calls as it takes (own). Takes no memory.
///
/// After `Ok` the told bytes are those before followed by `bytes`. `Failed` comes only where the sink's count of
/// faults rose in this call, and then the told bytes are those before followed by a prefix of `bytes`.
pub fn write_all<K: Sink>(sink: &mut K, bytes: &[u8]) -> Result<(), Failed>
    ensures ok { OnOk result (Takes (K.taken sink.old) bytes.now (K.taken sink.new)) }
    ensures failed { OnErr result (Rose (K.faults sink.old) (K.faults sink.new)) }
    ensures prefix { OnErr result (TakesPrefix (K.taken sink.old) bytes.now (K.taken sink.new)) }
    ensures counted { K.faults sink.old ≤ K.faults sink.new }
{
    let mut at = 0;
    while at < bytes.len() {
        at += sink.write(&bytes[at..])?;
    }
    Ok(())
}
