//! The text of `inspect`.
ghost use Rattle.std.specs.Prelude.{◌≡◌, ◌++◌, IfOk, OnOk};
ghost use Rattle.finding_lines.specs.Lines.{finding_words, report_line, text_of_reports};

use crate::texts::{push_number, push_spaced};
use frame_findings::{EdgeReport, Finding};
use std::alloc::{AllocError, Global};

/// The lines of reports, one after another (own): `edge P` and then `short`, `nomatch`, `badparity`,
/// `badrate N`, `zerolength` or `header MBPS LENGTH RESERVED`, all numbers in decimal. The only error is
/// want of memory.
pub fn reports_text(alloc: Global, reports: &[EdgeReport]) -> Result<Vec<u8>, AllocError>
    ensures { IfOk result (λ text. text.items ≡ text_of_reports reports.now) }
{
    let mut text = Vec::new(alloc);
    for report in reports {
        push_report(&mut text, report)?;
    }
    Ok(text)
}

// Appends the line of a report.
fn push_report(text: &mut Vec<u8>, report: &EdgeReport) -> Result<(), AllocError>
    ensures { OnOk result (text.new.items ≡ text.old.items ++ report_line report.now) }
{
    text.extend_from_slice(b"edge ")?;
    push_spaced(text, report.place)?;
    push_finding(text, &report.finding)?;
    text.extend_from_slice(b"\n")
}

// Appends what is said of an edge.
fn push_finding(text: &mut Vec<u8>, finding: &Finding) -> Result<(), AllocError>
    ensures { OnOk result (text.new.items ≡ text.old.items ++ finding_words finding.now) }
{
    match finding {
        Finding::Short => text.extend_from_slice(b"short"),
        Finding::NoMatch => text.extend_from_slice(b"nomatch"),
        Finding::BadParity => text.extend_from_slice(b"badparity"),
        Finding::BadRate { pattern } => {
            text.extend_from_slice(b"badrate ")?;
            push_number(text, u32::from(*pattern))
        }
        Finding::ZeroLength => text.extend_from_slice(b"zerolength"),
        Finding::Good {
            rate,
            length,
            reserved,
        } => {
            text.extend_from_slice(b"header ")?;
            push_spaced(text, rate.mbps())?;
            push_spaced(text, u32::from(*length))?;
            push_number(text, u32::from(*reserved))
        }
    }
}
