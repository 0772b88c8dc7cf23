//! Capture files: samples as bytes, four a sample, without header or trailer (own).
#![tactic(auto)]

ghost use Rattle.std.specs.Prelude.{◌≡◌, ◌+◌, ◌-◌, ◌%◌, ◌*◌, ◌≤◌, ◌^◌, [], ◌++◌, ℕ, Ok, length, take, drop, vec_len, IfOk, IfErr, OnOk, OnErr, IsErrOf, alloc_error};
ghost use Rattle.modem_ports.specs.Counts.{Rose};
ghost use Rattle.modem_ports.specs.Limits.{most_input};
ghost use Rattle.modem_ports.specs.Told.{Gives, GivesAtMost, GivesBehind, GivesExactly, IsAtEnd, Takes, TakesPrefix};
ghost use Rattle.capture_files.specs.Captures.{IsTorn, bytes_of_sample, bytes_of_samples, samples_in};
ghost use Rattle.fixed_complex.specs.Samples.{AreSamples, IsSample};
ghost use Rattle.capture_files.specs.Faults.{fault_of};
ghost use Rattle.capture_files.specs.declared.CaptureFault.TheVariants.{NoMemory};

use byteorder::{ByteOrder, LittleEndian};
use fixed_complex::Sample;
use modem_ports::{Failed, MOST_INPUT, ReadAllFault, Sink, Source, write_all};
use std::alloc::{AllocError, Global};
use thiserror::Error;

pub mod laws;
mod piecer;
#[cfg(test)]
mod tests;

pub use piecer::Piecer;

// The bytes of a sample.
const SAMPLE: usize = 4;

// The bytes that are asked of a source, or handed to a sink, at once.
const PIECE: usize = 4096;

const SILENCE: Sample = Sample { i: 0, q: 0 };

/// Why a capture was not read (own).
#[derive(Debug, Drop, Error)]
pub enum CaptureFault {
    /// The input ended after `bytes` bytes, which 4 does not divide.
    #[error("the capture ends after {bytes} bytes")]
    Torn { bytes: u32 },
    /// More than 67108864 bytes came.
    #[error("the capture is longer than 67108864 bytes")]
    Long,
    /// The source failed.
    #[error("the source failed")]
    Failed,
    /// Want of memory.
    #[error("no memory")]
    NoMemory(AllocError),
}

impl From<AllocError> for CaptureFault {
    ghost from_gives = { λ e fault. fault ≡ NoMemory e };

    fn from(e: AllocError) -> CaptureFault {
        CaptureFault::NoMemory(e)
    }
}

impl From<ReadAllFault> for CaptureFault {
    ghost from_gives = { λ fault capture. capture ≡ fault_of fault };

    fn from(fault: ReadAllFault) -> CaptureFault {
        match fault {
            ReadAllFault::Long => CaptureFault::Long,
            ReadAllFault::Failed => CaptureFault::Failed,
            ReadAllFault::NoMemory(e) => CaptureFault::NoMemory(e),
        }
    }
}

/// Reads a capture to the end of its input: at most 2^24 samples, each I and then Q, signed numbers of 16 bits, the low
/// byte first (own).
///
/// `Ok` has the samples whose bytes are exactly the told bytes that were left, and none are left afterwards. `Torn`
/// comes exactly where the input ended after so many bytes, and 4 does not divide them; none are left either. `Long`
/// comes exactly where byte 67108865 was taken, and no more bytes are ever taken. `Failed` comes only where the
/// source's count of faults rose in this call. `NoMemory` is free.
pub fn read_capture<S: Source>(alloc: Global, source: &mut S) -> Result<Vec<Sample>, CaptureFault>
    ensures whole { IfOk result
        (λ samples.
        Gives (S.left source.old) (bytes_of_samples samples.items) (S.left source.new)) }
    ensures end { IfOk result (λ _. IsAtEnd (S.left source.new)) }
    ensures samples { IfOk result (λ samples. AreSamples samples.items) }
    ensures within { IfOk result (λ samples. length samples.items ≤ 2 ^ 24) }
    ensures torn { (bytes : ℕ) → IsErrOf result (CaptureFault.Torn bytes) → IsTorn bytes }
    ensures torn_after { (bytes : ℕ) → IsErrOf result (CaptureFault.Torn bytes)
        → GivesExactly bytes (S.left source.old) (S.left source.new) }
    ensures torn_end { (bytes : ℕ) → IsErrOf result (CaptureFault.Torn bytes)
        → IsAtEnd (S.left source.new) }
    ensures torn_within { (bytes : ℕ) → IsErrOf result (CaptureFault.Torn bytes)
        → bytes ≤ most_input }
    ensures long { IsErrOf result CaptureFault.Long
        → GivesExactly (most_input + 1) (S.left source.old) (S.left source.new) }
    ensures failed { IsErrOf result CaptureFault.Failed
        → Rose (S.faults source.old) (S.faults source.new) }
    ensures failed_within { IsErrOf result CaptureFault.Failed
        → GivesAtMost most_input (S.left source.old) (S.left source.new) }
    ensures no_memory_within { IsErrOf result (CaptureFault.NoMemory alloc_error)
        → GivesAtMost most_input (S.left source.old) (S.left source.new) }
    ensures taken { GivesAtMost (most_input + 1) (S.left source.old) (S.left source.new) }
    ensures counted { S.faults source.old ≤ S.faults source.new }
{
    let mut samples = Vec::new(alloc);
    let mut piecer = Piecer::new();
    loop {
        let count = read_piece(source, &mut piecer, &mut samples)?;
        if count == 0 {
            return whole_samples(samples, &piecer);
        }
    }
}

// Reads one more piece, and answers how many bytes it has: the samples that it makes whole come behind `samples`. It is
// empty only at the end of input.
fn read_piece<S: Source>(
    source: &mut S,
    piecer: &mut Piecer,
    samples: &mut Vec<Sample>,
) -> Result<usize, CaptureFault>
    requires short { 4 * vec_len samples.old + length piecer.old ≤ most_input }
    requires samples { AreSamples samples.old.items }
    ensures given { OnOk result (GivesBehind
        (S.left source.old) (bytes_of_samples samples.old.items ++ piecer.old)
        (S.left source.new) (bytes_of_samples samples.new.items ++ piecer.new)) }
    ensures samples { OnOk result (AreSamples samples.new.items) }
    ensures count { IfOk result (λ n. 4 * vec_len samples.new + length piecer.new
        ≡ 4 * vec_len samples.old + length piecer.old + n) }
    ensures within { OnOk result (4 * vec_len samples.new + length piecer.new ≤ most_input) }
    ensures end { result ≡ Ok 0 → IsAtEnd (S.left source.new) }
    ensures no_torn { (bytes : ℕ) → ¬ IsErrOf result (CaptureFault.Torn bytes) }
    ensures long { IsErrOf result CaptureFault.Long
        → GivesExactly (most_input + 1 - (4 * vec_len samples.old + length piecer.old))
        (S.left source.old) (S.left source.new) }
    ensures failed { IsErrOf result CaptureFault.Failed
        → Rose (S.faults source.old) (S.faults source.new) }
    ensures kept { IsErrOf result CaptureFault.Failed → S.left source.new ≡ S.left source.old }
    ensures no_memory_within { IsErrOf result (CaptureFault.NoMemory alloc_error)
        → GivesAtMost (most_input - (4 * vec_len samples.old + length piecer.old))
        (S.left source.old) (S.left source.new) }
    ensures taken { GivesAtMost (most_input + 1 - (4 * vec_len samples.old + length piecer.old))
        (S.left source.old) (S.left source.new) }
    ensures counted { S.faults source.old ≤ S.faults source.new }
{
    let mut piece = [0; PIECE];
    let room = MOST_INPUT - (SAMPLE * samples.len() + usize::from(piecer.rest()));
    let most = PIECE.min(room + 1);
    let Ok(count) = source.read(&mut piece[..most]) else {
        return Err(CaptureFault::Failed);
    };
    if count > room {
        return Err(CaptureFault::Long);
    }
    push_whole(piecer, samples, &piece[..count])?;
    Ok(count)
}

// Takes the bytes of a piece, at most 4096: the samples that they make whole come behind `samples`.
fn push_whole(
    piecer: &mut Piecer,
    samples: &mut Vec<Sample>,
    bytes: &[u8],
) -> Result<(), AllocError>
    requires few { length bytes.now ≤ 4096 }
    requires samples { AreSamples samples.old.items }
    ensures bytes { OnOk result (bytes_of_samples samples.new.items ++ piecer.new
        ≡ (bytes_of_samples samples.old.items ++ piecer.old) ++ bytes.now) }
    ensures samples { OnOk result (AreSamples samples.new.items) }
    ensures count { OnOk result (4 * vec_len samples.new + length piecer.new
        ≡ 4 * vec_len samples.old + length piecer.old + length bytes.now) }
{
    let mut made = [SILENCE; PIECE / SAMPLE];
    // fewer than four bytes are held
    let _held = piecer.rest();
    let whole = piecer.feed_all(bytes, &mut made);
    samples.extend_from_slice(&made[..whole])
}

// The samples of a capture that ended, where no sample is begun.
fn whole_samples(samples: Vec<Sample>, piecer: &Piecer) -> Result<Vec<Sample>, CaptureFault>
    requires { 4 * vec_len samples + length piecer.now ≤ most_input }
    ensures samples { IfOk result (λ whole. whole.items ≡ samples.items) }
    ensures none { IfOk result (λ _. piecer.now ≡ []) }
    ensures torn { IfErr result (λ fault.
        fault ≡ CaptureFault.Torn (4 * vec_len samples + length piecer.now)) }
    ensures bytes { (bytes : ℕ) → IsErrOf result (CaptureFault.Torn bytes)
        → bytes ≡ 4 * vec_len samples + length piecer.now }
    ensures not_whole { (bytes : ℕ) → IsErrOf result (CaptureFault.Torn bytes) → IsTorn bytes }
{
    let begun = usize::from(piecer.rest());
    if begun != 0 {
        return Err(CaptureFault::Torn {
            bytes: (SAMPLE * samples.len() + begun) as u32,
        });
    }
    Ok(samples)
}

/// The samples that bytes are: four a sample, I and then Q, signed numbers of 16 bits, the low byte first (own). 4
/// divides the number of bytes. The only error is want of memory.
pub fn samples_of(alloc: Global, bytes: &[u8]) -> Result<Vec<Sample>, AllocError>
    requires { length bytes.now % 4 ≡ 0 }
    ensures read { IfOk result (λ samples. samples.items ≡ samples_in bytes.now) }
    ensures bytes { IfOk result (λ samples. bytes_of_samples samples.items ≡ bytes.now) }
    ensures samples { IfOk result (λ samples. AreSamples samples.items) }
    ensures count { IfOk result (λ samples. 4 * length samples.items ≡ length bytes.now) }
{
    let count = bytes.len() / SAMPLE;
    let mut samples = Vec::with_capacity(alloc, count)?;
    for k in 0..count {
        samples.push(sample_of(&bytes[SAMPLE * k..SAMPLE * k + SAMPLE]))?;
    }
    Ok(samples)
}

// Writes the samples that bytes are, as many as there is room for: four bytes each.
fn put_whole(bytes: &[u8], out: &mut [Sample])
    requires { length bytes.now ≡ 4 * length out.old }
    ensures bytes { bytes_of_samples out.new ≡ bytes.now }
    ensures samples { AreSamples out.new }
    ensures long { length out.new ≡ length out.old }
{
    for k in 0..out.len() {
        out[k] = sample_of(&bytes[SAMPLE * k..SAMPLE * k + SAMPLE]);
    }
}

// The sample of four bytes.
fn sample_of(bytes: &[u8]) -> Sample
    requires { length bytes.now ≡ 4 }
    ensures bytes { bytes_of_sample result ≡ bytes.now }
    ensures sample { IsSample result }
{
    Sample {
        i: LittleEndian::read_i16(bytes),
        q: LittleEndian::read_i16(&bytes[2..]),
    }
}

/// Writes samples to a sink: four bytes a sample, I and then Q, signed numbers of 16 bits, the low byte first (own).
/// The sink is handed pieces of 4096 bytes, only the last one shorter, and again what it leaves of a piece. Takes no
/// memory.
///
/// After `Ok` the told bytes are those before followed by all the samples' bytes. `Failed` comes only where the sink's
/// count of faults rose in this call, and then the told bytes are those before followed by a prefix.
pub fn write_samples<K: Sink>(samples: &[Sample], sink: &mut K) -> Result<(), Failed>
    ensures ok { OnOk result
        (Takes (K.taken sink.old) (bytes_of_samples samples.now) (K.taken sink.new)) }
    ensures failed { OnErr result (Rose (K.faults sink.old) (K.faults sink.new)) }
    ensures prefix { OnErr result
        (TakesPrefix (K.taken sink.old) (bytes_of_samples samples.now) (K.taken sink.new)) }
    ensures counted { K.faults sink.old ≤ K.faults sink.new }
{
    let mut piece = [0; PIECE];
    for some in samples.chunks(PIECE / SAMPLE) {
        let count = put_samples(some, &mut piece);
        write_all(sink, &piece[..count])?;
    }
    Ok(())
}

// Puts the bytes of samples into the front of a piece, and answers how many they are.
fn put_samples(samples: &[Sample], piece: &mut [u8; PIECE]) -> usize
    requires { length samples.now ≤ 1024 }
    ensures bytes { take result piece.new ≡ bytes_of_samples samples.now }
    ensures count { result ≡ 4 * length samples.now }
{
    let count = samples.len();
    for k in 0..count {
        put_sample(samples[k], &mut piece[SAMPLE * k..]);
    }
    SAMPLE * count
}

// Puts the four bytes of a sample into the front of a buffer.
fn put_sample(sample: Sample, bytes: &mut [u8])
    requires { 4 ≤ length bytes.old }
    ensures { bytes.new ≡ bytes_of_sample sample ++ drop 4 bytes.old }
{
    LittleEndian::write_i16(bytes, sample.i);
    LittleEndian::write_i16(&mut bytes[2..], sample.q);
}
