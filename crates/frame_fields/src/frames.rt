//! Frames, from a PSDU to samples and bytes (IEEE Std 802.11-2012, 18.3.2.1).
ghost use Rattle.std.specs.Prelude.{◌≡◌, ℕ, ◌+◌, ◌*◌, ◌≤◌, ◌++◌, length, take, slice_index, IfOk, OnOk, IsErrOf, alloc_error};
ghost use Rattle.bit_lists.specs.Bits.{AreBits};
ghost use Rattle.fixed_complex.specs.PairLists.{PairsWithin};
ghost use Rattle.fixed_complex.specs.declared.Cx.{Cx};
ghost use Rattle.interleave_two.specs.Place.{interleaved};
ghost use Rattle.modem_ports.specs.Counts.{Rose};
ghost use Rattle.modem_ports.specs.Told.{Takes, TakesPrefix};
ghost use Rattle.rate_table.specs.Symbols.{IsLength, symbol_count};
ghost use Rattle.rate_table.specs.Table.{row_of};
ghost use Rattle.rate_table.specs.declared.Rate.TheVariants.{R6};
ghost use Rattle.symbol_builder.specs.Carriers.{sent_symbol};
ghost use Rattle.symbol_builder.specs.Points.{points_of_code};
ghost use Rattle.plain_waves.specs.Bodies.{sent_body};
ghost use Rattle.fixed_complex.specs.Samples.{SamplesWithin};
ghost use Rattle.frame_fields.specs.Frames.{plain_frame, sent_bytes, sent_frame, signal_code};
ghost use Rattle.frame_fields.specs.declared.frames.SendFault.TheVariants.{NoMemory};
ghost use Rattle.plain_waves.specs.Nearness.{AreNearPlain};
ghost use Rattle.training_fields.specs.Training.{preamble_of};

use crate::coded;
use crate::laws::sent_frames;
use capture_files::write_samples;
use fixed_complex::{Cx, Sample};
use interleave_two::interleave;
use modem_ports::Sink;
use ofdm_scrambler::Seed;
use rate_table::Rate;
use signal_field::{Header, header_code};
use std::alloc::{AllocError, Global};
use symbol_builder::{frame_len, put_code_points, symbol_samples};
use thiserror::Error;
use training_fields::preamble;

/// Why a frame was not sent whole (own).
#[derive(Debug, Drop, Error)]
pub enum SendFault {
    /// The sink failed.
    #[error("the sink failed")]
    Failed,
    /// Want of memory.
    #[error("no memory")]
    NoMemory(AllocError),
}

impl From<AllocError> for SendFault {
    ghost from_gives = { λ e fault. fault ≡ NoMemory e };

    fn from(e: AllocError) -> SendFault {
        SendFault::NoMemory(e)
    }
}

/// Writes the frame of a PSDU of 1 to 4095 octets to a sink: its samples, four bytes each, I and then Q, signed numbers
/// of 16 bits, the low byte first (IEEE Std 802.11-2012, 18.3.2.1; the format is own). All samples are made before the
/// first write.
///
/// After `Ok` the told bytes are those before followed by all bytes of the frame. `Failed` comes only where the sink's
/// count of faults rose in this call, and then the told bytes are those before followed by a prefix. `NoMemory` is free
/// and leaves the sink unchanged. Each sample of the frame is within 1 of the plain one, and no component is larger than
/// 25057 in size.
pub fn send<K: Sink>(
    alloc: Global,
    rate: Rate,
    seed: Seed,
    psdu: &[u8],
    sink: &mut K,
) -> Result<(), SendFault>
    requires octets { IsLength (length psdu.now) }
    ensures ok { OnOk result (Takes (K.taken sink.old) (sent_bytes rate seed psdu.now) (K.taken sink.new)) }
    ensures failed { IsErrOf result SendFault.Failed → Rose (K.faults sink.old) (K.faults sink.new) }
    ensures prefix { IsErrOf result SendFault.Failed
        → TakesPrefix (K.taken sink.old) (sent_bytes rate seed psdu.now) (K.taken sink.new) }
    ensures no_memory { IsErrOf result (SendFault.NoMemory alloc_error) → sink.new ≡ sink.old }
    ensures near { AreNearPlain 1 (sent_frame rate seed psdu.now) (plain_frame rate seed psdu.now) }
    ensures within { SamplesWithin 25057 (sent_frame rate seed psdu.now) }
    ensures counted { K.faults sink.old ≤ K.faults sink.new }
{
    sent_frames();
    let samples = frame_samples(alloc, rate, seed, psdu)?;
    match write_samples(&samples, sink) {
        Ok(()) => Ok(()),
        Err(_) => Err(SendFault::Failed),
    }
}

/// The sent samples of the frame of a PSDU of 1 to 4095 octets: the preamble, SIGNAL with the reserved bit 0, and all
/// DATA symbols, 400 samples and 80 for each DATA symbol (IEEE Std 802.11-2012, 18.3.2.1). Each is within 1 of the plain
/// one, and no component is larger than 25057 in size (own). The only error is want of memory.
pub fn frame_samples(
    alloc: Global,
    rate: Rate,
    seed: Seed,
    psdu: &[u8],
) -> Result<Vec<Sample>, AllocError>
    requires octets { IsLength (length psdu.now) }
    ensures samples { IfOk result (λ samples. samples.items ≡ sent_frame rate seed psdu.now) }
    ensures near { IfOk result (λ samples. AreNearPlain 1 samples.items (plain_frame rate seed psdu.now)) }
    ensures within { IfOk result (λ samples. SamplesWithin 25057 samples.items) }
    ensures len { IfOk result (λ samples.
        length samples.items ≡ 400 + 80 * symbol_count (row_of rate).field_bits (length psdu.now)) }
{
    sent_frames();
    let kept = coded(alloc, rate, seed, psdu)?;
    let mut samples = frame_head(alloc, rate, psdu.len() as u16)?;
    let mut points = [Cx { re: 0, im: 0 }; 48];
    let mut n = 0;
    for symbol in kept.chunks(rate.coded_bits()) {
        n += 1;
        put_code_points(rate, symbol, &mut points);
        push_symbol(&mut samples, &points, n)?;
    }
    Ok(samples)
}

// The samples of the preamble and of SIGNAL, for a PSDU of so many octets.
fn frame_head(alloc: Global, rate: Rate, octets: u16) -> Result<Vec<Sample>, AllocError>
    requires octets { IsLength octets }
    ensures samples { IfOk result (λ samples. samples.items
        ≡ preamble_of sent_body ++ sent_symbol (points_of_code R6 (signal_code rate octets)) 0) }
    ensures len { IfOk result (λ samples. length samples.items ≡ 400) }
{
    let points = points_of_code(Rate::R6, &signal_code(rate, octets));
    let mut samples = Vec::with_capacity(alloc, frame_len(rate, octets) as usize)?;
    samples.extend_from_slice(&preamble())?;
    push_symbol(&mut samples, &points, 0)?;
    Ok(samples)
}

/// The 48 bits of SIGNAL's code, before they are interleaved, for a PSDU of so many octets, 1 to 4095; the reserved bit
/// is 0 (IEEE Std 802.11-2012, 18.3.4). Takes no memory.
pub fn signal_code(rate: Rate, octets: u16) -> [u8; 48]
    requires octets { IsLength octets }
    ensures code { result ≡ signal_code rate octets }
    ensures bits { AreBits result }
{
    header_code(&Header {
        rate,
        length: octets,
        reserved: 0,
    })
}

// Appends the samples of symbol n.
fn push_symbol(samples: &mut Vec<Sample>, points: &[Cx; 48], n: u32) -> Result<(), AllocError>
    requires { PairsWithin 700 points.now }
    ensures appended { OnOk result (samples.new.items ≡ samples.old.items ++ sent_symbol points.now n) }
    ensures len { OnOk result (length samples.new.items ≡ length samples.old.items + 80) }
{
    samples.extend_from_slice(&symbol_samples(points, n))?;
    Ok(())
}

/// The 48 points of a symbol, from its N_CBPS coded bits, which are interleaved first (IEEE Std 802.11-2012, 18.3.5.7 and
/// 18.3.5.8). Each component is at most 700 in size. Takes no memory.
pub fn points_of_code(rate: Rate, symbol: &[u8]) -> [Cx; 48]
    requires whole { length symbol.now ≡ (row_of rate).coded_bits }
    requires bits { AreBits symbol.now }
    ensures points { result ≡ points_of_code rate symbol.now }
    ensures within { PairsWithin 700 result }
{
    let mut points = [Cx { re: 0, im: 0 }; 48];
    put_code_points(rate, symbol, &mut points);
    points
}

/// The interleaved bits of a symbol, from its N_CBPS coded bits: the first N_CBPS entries, and 0 behind them
/// (IEEE Std 802.11-2012, 18.3.5.7). Takes no memory.
pub fn interleaved_symbol(rate: Rate, symbol: &[u8]) -> [u8; 288]
    requires whole { length symbol.now ≡ (row_of rate).coded_bits }
    requires bits { AreBits symbol.now }
    ensures list { take (row_of rate).coded_bits result ≡ interleaved rate symbol.now }
    ensures others { (k : ℕ) → (row_of rate).coded_bits ≤ k → slice_index result k ≡ 0 }
    ensures bits { AreBits result }
{
    let mut entries = [0; 288];
    entries[..symbol.len()].copy_from_slice(symbol);
    interleave(rate, &entries)
}
