//! Texts of pairs and of samples: a line of two numbers each (own).
ghost use Rattle.std.specs.Prelude.{◌≡◌, ◌++◌, IfOk, OnOk};
ghost use Rattle.frame_stages.specs.Lines.{line_of_numbers, line_of_pair, line_of_sample, text_of_pairs, text_of_samples};

use fixed_complex::{Cx, Sample};
use itoa::Buffer;
use std::alloc::{AllocError, Global};

/// The lines `I Q` of pairs, both numbers in decimal (own). The only error is want of memory.
pub fn pairs_text(alloc: Global, pairs: &[Cx]) -> Result<Vec<u8>, AllocError>
    ensures { IfOk result (λ text. text.items ≡ text_of_pairs pairs.now) }
{
    let mut text = Vec::new(alloc);
    for pair in pairs {
        push_pair(&mut text, *pair)?;
    }
    Ok(text)
}

/// The lines `I Q` of samples, both numbers in decimal (own). The only error is want of memory.
pub fn samples_text(alloc: Global, samples: &[Sample]) -> Result<Vec<u8>, AllocError>
    ensures { IfOk result (λ text. text.items ≡ text_of_samples samples.now) }
{
    let mut text = Vec::new(alloc);
    for sample in samples {
        push_sample(&mut text, *sample)?;
    }
    Ok(text)
}

// Appends the line of a pair.
fn push_pair(text: &mut Vec<u8>, pair: Cx) -> Result<(), AllocError>
    ensures { OnOk result (text.new.items ≡ text.old.items ++ line_of_pair pair) }
{
    push_line(text, pair.re, pair.im)
}

// Appends the line of a sample.
fn push_sample(text: &mut Vec<u8>, sample: Sample) -> Result<(), AllocError>
    ensures { OnOk result (text.new.items ≡ text.old.items ++ line_of_sample sample) }
{
    push_line(text, i64::from(sample.i), i64::from(sample.q))
}

// Appends the line of two numbers.
fn push_line(text: &mut Vec<u8>, i: i64, q: i64) -> Result<(), AllocError>
    ensures { OnOk result (text.new.items ≡ text.old.items ++ line_of_numbers i q) }
{
    let mut buffer = Buffer::new();
    text.extend_from_slice(buffer.format(i).as_bytes())?;
    text.extend_from_slice(b" ")?;
    text.extend_from_slice(buffer.format(q).as_bytes())?;
    text.extend_from_slice(b"\n")
}
