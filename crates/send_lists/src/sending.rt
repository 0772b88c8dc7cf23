//! The samples of entries.
ghost use Rattle.std.specs.Prelude.{◌≡◌, ◌^◌, ◌≤◌, ◌++◌, [], ◌∷◌, vec_len, OnOk};
ghost use Rattle.frame_lists.specs.Items.{silence};
ghost use Rattle.list_texts.specs.Lists.{IsInRange};
ghost use Rattle.send_lists.specs.Sent.{most_samples, samples_of_list};

use fixed_complex::Sample;
use frame_fields::frame_samples;
use list_texts::Entry;
use std::alloc::{AllocError, Global};

// A silent sample.
const SILENT: Sample = Sample { i: 0, q: 0 };

// Appends the samples of an entry.
pub(crate) fn push_entry(
    alloc: Global,
    samples: &mut Vec<Sample>,
    entry: &Entry,
) -> Result<(), AllocError>
    requires in_range { IsInRange entry.now }
    requires short { vec_len samples.old ≤ most_samples }
    ensures { OnOk result
        (samples.new.items ≡ samples.old.items ++ samples_of_list (entry.now ∷ [])) }
{
    push_silence(samples, entry.gap)?;
    let frame = frame_samples(alloc, entry.rate, entry.seed, entry.psdu.as_slice())?;
    samples.extend_from_slice(&frame)?;
    Ok(())
}

// Appends silent samples.
fn push_silence(samples: &mut Vec<Sample>, count: u32) -> Result<(), AllocError>
    requires { vec_len samples.old ≤ 2 ^ 25 }
    ensures { OnOk result (samples.new.items ≡ samples.old.items ++ silence count) }
{
    let len = samples.len() + count as usize;
    samples.resize(len, SILENT)
}
