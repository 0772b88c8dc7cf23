//! The frame at a start is read.
ghost use Rattle.std.specs.Prelude.{◌≡◌, ℕ, ◌+◌, ◌*◌, ◌^◌, ◌<◌, ◌≤◌, List, [], length, drop, Ok, Err, IfOk, IsErrOf};
ghost use Rattle.fixed_complex.specs.declared.Sample.{Sample};
ghost use Rattle.frame_findings.specs.Walk.{IsHeard};
ghost use Rattle.frame_reader.specs.Decisions.{body_of, decisions_by, estimate_from};
ghost use Rattle.frame_reader.specs.Frames.{data_decisions, need_of, symbols_of};
ghost use Rattle.frame_starts.specs.declared.AtFault.TheVariants.{BadHeader, CutAt};
ghost use Rattle.frame_starts.specs.Starts.{IsFrameAt};
ghost use Rattle.rate_table.specs.declared.Rate.{Rate};
ghost use Rattle.rate_table.specs.Symbols.{IsLength, bits_through_tail};
ghost use Rattle.rate_table.specs.Table.{row_of};
ghost use Rattle.viterbi_lanes.specs.Decisions.{marks_of};
ghost use Rattle.viterbi_lanes.specs.Marks.{StandsFor};

use crate::AtFault;
use bit_lists::Octets;
use carrier_equaliser::Estimate;
use fixed_complex::Sample;
use frame_findings::Heard;
use frame_reader::{Decider, finish_field, hear_symbol, read_front, symbols_in};
use modem_ports::Steps;
use rate_table::MOST_OCTETS;
use signal_field::Header;
use std::alloc::{AllocError, Global};
use viterbi_lanes::Trellis;

/// Reads the frame that begins at a place of a capture, with no edge and no match (own): SIGNAL and its DATA symbols by
/// the decisions of `decider`, over the estimate of the channel from its long training field.
///
/// The capture has at most 2^24 samples, and `start` is below 2^24. `CutAt` with 400 comes exactly where fewer than 400
/// samples stand from there on; then `BadHeader` exactly where SIGNAL says no header; then `CutAt` exactly where fewer
/// stand than the frame has by its header. `NoMemory` is free. The count of steps rises by at most 4 for each sample of
/// the capture, and 27, whatever the answer.
pub fn read_at<D: Decider>(
    alloc: Global,
    decider: &D,
    capture: &[Sample],
    start: u32,
    steps: &mut Steps,
) -> Result<Heard, AtFault>
    requires samples { length capture.now ≤ 2 ^ 24 }
    requires start { start < 2 ^ 24 }
    ensures heard { IfOk result (λ heard.
        IsFrameAt (decisions_by D.decided) capture.now start (Ok heard)) }
    ensures cut { (at have need : ℕ) → IsErrOf result (CutAt at have need)
        → IsFrameAt (decisions_by D.decided) capture.now start (Err (CutAt at have need)) }
    ensures bad_header { (at : ℕ) → IsErrOf result (BadHeader at)
        → IsFrameAt (decisions_by D.decided) capture.now start (Err (BadHeader at)) }
    ensures counted { steps.new ≤ steps.old + (4 * length capture.now + 27) }
{
    let samples = samples_from(capture, start);
    let have = samples.len() as u32;
    if have < 400 {
        return Err(AtFault::CutAt {
            start,
            have,
            need: 400,
        });
    }
    let mut trellis = Trellis::open(alloc, 32782)?;
    let mut estimate = Estimate::silent();
    let header = match read_front(decider, samples, &mut trellis, &mut estimate, steps) {
        Ok(header) => header,
        Err(_) => return Err(AtFault::BadHeader { start }),
    };
    let need = 400 + 80 * symbols_in(&header) as u32;
    if have < need {
        return Err(AtFault::CutAt { start, have, need });
    }
    hear_symbols(decider, samples, &estimate, &header, &mut trellis, steps);
    Ok(heard_at(alloc, start, &header, &mut trellis)?)
}

// The samples of a capture from a place on.
fn samples_from(capture: &[Sample], start: u32) -> &[Sample]
    ensures { result.now ≡ drop start capture.now }
{
    &capture[capture.len().min(start as usize)..]
}

// Hears all DATA symbols of the frame that begins with the first of some samples.
fn hear_symbols<D: Decider>(
    decider: &D,
    samples: &[Sample],
    estimate: &Estimate,
    header: &Header,
    trellis: &mut Trellis,
    steps: &mut Steps,
)
    requires octets { IsLength header.now.length }
    requires long { need_of header.now ≤ length samples.now }
    requires estimate { estimate.now ≡ estimate_from samples.now }
    requires empty { StandsFor trellis.old [] }
    requires room { bits_through_tail header.now.length ≤ trellis.old.room }
    ensures stands { StandsFor trellis.new
        (marks_of (row_of header.now.rate).code_rate
        (data_decisions (decisions_by D.decided samples.now) header.now.rate (symbols_of header.now))
        (bits_through_tail header.now.length)) }
    ensures held { length trellis.new.rows ≡ bits_through_tail header.now.length }
    ensures counted { steps.new ≤ steps.old + 217 * symbols_of header.now }
{
    for symbol in 0..symbols_in(header) {
        let body = body_of(samples, symbol);
        hear_symbol(decider, &body, estimate, header, symbol, trellis, steps);
    }
}

// The body of a DATA symbol.
fn body_of(samples: &[Sample], symbol: usize) -> [Sample; 64]
    requires { 480 + 80 * symbol ≤ length samples.now }
    ensures { result ≡ body_of samples.now (symbol + 1) }
{
    let place = 416 + 80 * symbol;
    let mut body = [Sample { i: 0, q: 0 }; 64];
    body.copy_from_slice(&samples[place..place + 64]);
    body
}

// The frame whose DATA symbols were all heard. The only error is want of memory.
fn heard_at(
    alloc: Global,
    start: u32,
    header: &Header,
    trellis: &mut Trellis,
) -> Result<Heard, AllocError>
    requires octets { IsLength header.now.length }
    requires held { length trellis.old.rows ≡ bits_through_tail header.now.length }
    ensures start { IfOk result (λ heard. heard.start ≡ start) }
    ensures heard { (decisions : Rate → ℕ → List ℕ) (capture : List Sample)
        → StandsFor trellis.old
        (marks_of (row_of header.now.rate).code_rate
        (data_decisions decisions header.now.rate (symbols_of header.now))
        (bits_through_tail header.now.length))
        → start + need_of header.now ≤ length capture
        → IfOk result (IsHeard decisions capture header.now) }
{
    let mut field = vec![in alloc; 0u8; 32782]?;
    let mut octets = [0; MOST_OCTETS as usize];
    let seed = finish_field(header, trellis, &mut field, &mut octets);
    let psdu = Vec::from_slice(alloc, &octets[..usize::from(header.length)])?;
    Ok(Heard {
        start,
        rate: header.rate,
        length: header.length,
        seed,
        psdu: Octets::from_vec(psdu),
    })
}
