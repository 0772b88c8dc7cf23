//! Edges: loud samples behind 16 quiet ones.
ghost use Rattle.std.specs.Prelude.{◌≡◌, ℕ, ◌+◌, ◌-◌, ◌^◌, ◌<◌, ◌≤◌, ◌↔◌, IfSome, IfNone, IsTrue, OnSome, false, length, true};
ghost use Rattle.fixed_complex.specs.Samples.{sample_at};
ghost use Rattle.lane_kernels.specs.Kernels.{is_loud};
ghost use Rattle.modem_ports.specs.Counts.{raised_by};
ghost use Rattle.frame_search.specs.Edges.{IsEdge, IsNextEdge, IsQuietBefore, NoEdge};

use crate::counting::tick_times;
use fixed_complex::Sample;
use lane_kernels::first_loud;
use modem_ports::Steps;

/// Whether a place of a capture is an edge: its sample is loud, and each of the 16 before it that exists is quiet. A
/// sample is loud where a component is larger than 256 in size (own).
pub fn is_edge(capture: &[Sample], place: usize) -> bool
    requires short { length capture.now ≤ 2 ^ 24 }
    requires place { place < length capture.now }
    ensures { IsTrue result ↔ IsEdge capture.now place }
{
    is_loud(capture[place]) && is_quiet_before(capture, place)
}

// Whether each of the 16 samples before a place that exists is quiet.
fn is_quiet_before(capture: &[Sample], place: usize) -> bool
    requires { place < length capture.now }
    ensures { IsTrue result ↔ IsQuietBefore capture.now place }
{
    for before in run_start(place)..place {
        if is_loud(capture[before]) {
            return false;
        }
    }
    true
}

// The first of the 16 places before one, or of those that exist.
fn run_start(place: usize) -> usize
    ensures { result ≡ place - 16 }
{
    place.saturating_sub(16)
}

/// Whether a sample is loud: a component is larger than 256 in size (own).
pub fn is_loud(sample: Sample) -> bool
    ensures { result ≡ is_loud sample }
{
    sample.i.unsigned_abs() > 256 || sample.q.unsigned_abs() > 256
}

/// The least edge of a capture from a place on, or None exactly where there is none (own). The count of steps rises by
/// one for each place from there to the answer, its own included, or to the end.
pub fn next_edge(capture: &[Sample], from: usize, steps: &mut Steps) -> Option<usize>
    requires short { length capture.now ≤ 2 ^ 24 }
    requires from { from ≤ length capture.now }
    ensures next { IfSome result (λ place. IsNextEdge capture.now from place) }
    ensures none { IfNone result (NoEdge capture.now from (length capture.now)) }
    ensures counted { IfSome result (λ place. steps.new ≡ raised_by (place + 1 - from) steps.old) }
    ensures counted_out { IfNone result
        (steps.new ≡ raised_by (length capture.now - from) steps.old) }
{
    let place = edge_from(capture, from);
    if place < capture.len() {
        tick_times(steps, place + 1 - from);
        Some(place)
    } else {
        tick_times(steps, place - from);
        None
    }
}

// The least edge from a place on, or the length. Quiet samples are passed over in lanes.
fn edge_from(capture: &[Sample], from: usize) -> usize
    requires short { length capture.now ≤ 2 ^ 24 }
    requires from { from ≤ length capture.now }
    ensures least { from ≤ result }
    ensures most { result ≤ length capture.now }
    ensures edge { result < length capture.now → IsEdge capture.now result }
    ensures none_before { NoEdge capture.now from result }
{
    let mut place = loud_from(capture, from);
    while place < capture.len() && !is_edge(capture, place) {
        place = loud_from(capture, place + 1);
    }
    place
}

// The least place of a loud sample from a place on, or the length.
fn loud_from(capture: &[Sample], from: usize) -> usize
    requires short { length capture.now ≤ 2 ^ 24 }
    requires from { from ≤ length capture.now }
    ensures least { from ≤ result }
    ensures most { result ≤ length capture.now }
    ensures quiet { (place : ℕ) → from ≤ place → place < result
        → is_loud (sample_at capture.now place) ≡ false }
{
    from + first_loud(&capture[from..])
}
