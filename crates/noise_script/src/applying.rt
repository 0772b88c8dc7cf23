//! Items applied to samples.
ghost use Rattle.std.specs.Prelude.{◌≡◌, ◌+◌, ◌*◌, ◌≤◌, ◌++◌, length, take, drop, vec_len, All};
ghost use Rattle.std.specs.Vec.{vec_capacity};
ghost use Rattle.noise_script.specs.Effects.{added_by, added_by_all, after_item, after_items, silence, spiked};
ghost use Rattle.noise_script.specs.Items.{IsInRange};

use crate::Item;
use crate::noise::add_noise;
use fixed_complex::Sample;
use lane_kernels::add_saturating;

// A silent sample.
pub(crate) const SILENT: Sample = Sample { i: 0, q: 0 };

// How many samples items add.
pub(crate) fn added_by_all(items: &[Item]) -> usize
    requires in_range { All IsInRange items.now }
    requires few { length items.now ≤ 16 }
    ensures added { result ≡ added_by_all items.now }
    ensures within { result ≤ 1048576 * length items.now }
{
    let mut added = 0;
    for item in items {
        added += added_by(*item);
    }
    added
}

// How many samples an item adds.
fn added_by(item: Item) -> usize
    requires { IsInRange item }
    ensures added { result ≡ added_by item }
    ensures within { result ≤ 1048576 }
{
    match item {
        Item::Lead { count } | Item::Trail { count } => count as usize,
        _ => 0,
    }
}

// Applies items to samples, with room for those that they add.
pub(crate) fn apply_items(items: &[Item], samples: &mut Vec<Sample>)
    requires in_range { All IsInRange items.now }
    requires room { vec_len samples.old + added_by_all items.now ≤ vec_capacity samples.old }
    ensures after { samples.new.items ≡ after_items items.now samples.old.items }
    ensures len { vec_len samples.new ≤ vec_len samples.old + added_by_all items.now }
{
    for item in items {
        apply_item(*item, samples);
    }
}

// Applies an item to samples, with room for those that it adds.
fn apply_item(item: Item, samples: &mut Vec<Sample>)
    requires in_range { IsInRange item }
    requires room { vec_len samples.old + added_by item ≤ vec_capacity samples.old }
    ensures after { samples.new.items ≡ after_item item samples.old.items }
    ensures len { vec_len samples.new ≤ vec_len samples.old + added_by item }
    ensures capacity { vec_capacity samples.old ≤ vec_capacity samples.new }
{
    match item {
        Item::Lead { count } => {
            append_silence(samples, count);
            samples.rotate_right(count as usize);
        }
        Item::Trail { count } => append_silence(samples, count),
        Item::Uniform { bound, seed } => add_noise(samples.as_mut_slice(), bound, seed),
        Item::Spike { at, i, q } => add_spike(samples.as_mut_slice(), at as usize, Sample { i, q }),
        Item::Cut { at, count } => cut(samples, at as usize, count as usize),
    }
}

// Appends silent samples, for which there is room.
fn append_silence(samples: &mut Vec<Sample>, count: u32)
    requires { vec_len samples.old + count ≤ vec_capacity samples.old }
    ensures items { samples.new.items ≡ samples.old.items ++ silence count }
    ensures len { vec_len samples.new ≡ vec_len samples.old + count }
    ensures capacity { vec_capacity samples.old ≤ vec_capacity samples.new }
{
    let len = samples.len() + count as usize;
    samples.resize(len, SILENT).unwrap();
}

// Adds a sample to the one at a place, if there is one.
fn add_spike(samples: &mut [Sample], at: usize, spike: Sample)
    ensures { samples.new ≡ spiked at spike samples.old }
{
    if at < samples.len() {
        add_saturating(&mut samples[at..at + 1], &[spike]);
    }
}

// Takes samples out, as far as they exist.
fn cut(samples: &mut Vec<Sample>, at: usize, count: usize)
    requires at { at ≤ 33554432 }
    requires count { count ≤ 33554432 }
    ensures items { samples.new.items
        ≡ take at samples.old.items ++ drop (at + count) samples.old.items }
    ensures len { vec_len samples.new ≤ vec_len samples.old }
    ensures capacity { vec_capacity samples.new ≡ vec_capacity samples.old }
{
    let from = at.min(samples.len());
    let to = (at + count).min(samples.len());
    samples.copy_within(to.., from);
    samples.truncate(samples.len() - (to - from));
}
