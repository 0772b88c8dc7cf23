//! What stands at each edge of a capture.
ghost use Rattle.std.specs.Prelude.{◌≡◌, ◌+◌, ◌*◌, ◌^◌, ◌<◌, ◌≤◌, length, drop, take, IfOk};
ghost use Rattle.frame_findings.specs.Reports.{AreReports, IsFinding, finding_of};

use crate::{EdgeReport, Finding};
use carrier_equaliser::Estimate;
use fixed_complex::Sample;
use frame_reader::look;
use frame_search::next_edge;
use modem_ports::Steps;
use signal_field::{Header, HeaderFault};
use std::alloc::{AllocError, Global};
use viterbi_lanes::Trellis;

const SILENCE: Sample = Sample { i: 0, q: 0 };

/// One report for each edge of a capture, in order, also for those within frames: what stands there (own). The capture
/// has at most 2^24 samples. The count of steps rises by at most one for each sample, and 347 for each edge. The only
/// error is want of memory.
pub fn inspect(
    alloc: Global,
    capture: &[Sample],
    steps: &mut Steps,
) -> Result<Vec<EdgeReport>, AllocError>
    requires { length capture.now ≤ 2 ^ 24 }
    ensures reports { IfOk result (λ reports. AreReports capture.now 0 reports.items) }
    ensures counted { IfOk result (λ reports. steps.new
        ≤ steps.old + length capture.now + 347 * length reports.items) }
{
    let mut trellis = Trellis::open(alloc, 24)?;
    let mut reports = Vec::new(alloc);
    let mut from = 0;
    while let Some(place) = next_edge(capture, from, steps) {
        let report = EdgeReport {
            place: place as u32,
            finding: finding_at(capture, place, &mut trellis, steps),
        };
        reports.push(report)?;
        from = place + 1;
    }
    Ok(reports)
}

// What stands at a place.
fn finding_at(capture: &[Sample], place: usize, trellis: &mut Trellis, steps: &mut Steps) -> Finding
    requires short { length capture.now ≤ 2 ^ 24 }
    requires place { place ≤ length capture.now }
    requires room { trellis.old.room ≡ 24 }
    ensures finding { IsFinding (drop place capture.now) result }
    ensures room { trellis.new.room ≡ 24 }
    ensures counted { steps.new ≤ steps.old + 347 }
{
    if capture.len() - place < 400 {
        return Finding::Short;
    }
    let mut samples = [SILENCE; 400];
    samples.copy_from_slice(&capture[place..place + 400]);
    match look(&samples, trellis, &mut Estimate::silent(), steps) {
        None => Finding::NoMatch,
        Some(read) => finding_of(read),
    }
}

// The finding of a header, or of its fault.
fn finding_of(read: Result<Header, HeaderFault>) -> Finding
    ensures { result ≡ finding_of read }
{
    match read {
        Ok(header) => Finding::Good {
            rate: header.rate,
            length: header.length,
            reserved: header.reserved,
        },
        Err(HeaderFault::BadParity) => Finding::BadParity,
        Err(HeaderFault::BadRate { pattern }) => Finding::BadRate { pattern },
        Err(HeaderFault::ZeroLength) => Finding::ZeroLength,
    }
}
