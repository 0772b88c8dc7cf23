//! The last samples of those that came, and whether the place that 400 samples stand from on is an edge.
ghost use Rattle.std.specs.Prelude.{◌≡◌, ℕ, ◌+◌, ◌-◌, ◌^◌, ◌<◌, ◌≤◌, ◌↔◌, IsTrue, List, [], ◌∷◌, ◌++◌, length, min, take, true, false, if◌then◌else◌};
ghost use Rattle.circular_buffer.specs.Buffer.{buffer, keep_last};
ghost use Rattle.fixed_complex.specs.Samples.{sample_at};
ghost use Rattle.fixed_complex.specs.declared.Sample.{Sample};
ghost use Rattle.lane_kernels.specs.Kernels.{is_loud};
ghost use Rattle.frame_receiver.specs.Tails.{IsTailOf, SettlesEdge, run_behind};

use circular_buffer::HeapCircularBuffer;
use fixed_complex::Sample;
use frame_search::is_loud;
use std::marker::Model;

/// The samples that came last, at most 1024; how many came; and the run of quiet samples before the next place that will
/// have 400 samples from it on.
#[derive(Drop)]
pub(crate) struct Tail {
    window: HeapCircularBuffer<Sample>,
    count: usize,
    quiet: u8,
}

impl Model for Tail {
    ghost use Rattle.std.specs.Prelude.{◌≡◌, ◌≤◌, length, min};
    ghost use Rattle.frame_receiver.specs.Tails.{TailView};

    ghost Value = { TailView };

    ghost view = { λ tail. record {
      items = tail.window.items;
      count = tail.count;
      quiet = tail.quiet;
    } };

    ghost invariant = { λ tail. (tail.window.capacity ≡ 1024)
        × (length tail.window.items ≡ min 1024 tail.count) × (tail.quiet ≤ 16) };
}

impl Tail {
    // Before the first sample.
    pub(crate) fn open(window: HeapCircularBuffer<Sample>) -> Tail
        requires { window ≡ buffer [] 1024 }
        ensures tail { IsTailOf result [] }
        ensures none { result.count ≡ 0 }
        ensures quiet { result.quiet ≡ 16 }
    {
        Tail {
            window,
            count: 0,
            quiet: 16,
        }
    }

    // Takes the next sample. True where it makes 400 samples stand from an edge on.
    pub(crate) fn push(&mut self, sample: Sample) -> bool
        requires { self.old.count < 2 ^ 24 }
        ensures tail { (samples : List Sample) → IsTailOf self.old samples
            → IsTailOf self.new (samples ++ sample ∷ []) }
        ensures edge { (samples : List Sample) → IsTailOf self.old samples
            → IsTrue result ↔ SettlesEdge (samples ++ sample ∷ []) }
        ensures count { self.new.count ≡ self.old.count + 1 }
        ensures room { IsTrue result → 400 ≤ self.new.count }
        ensures quiet { self.new.quiet ≤ self.old.quiet + 1 }
        ensures run_ends { IsTrue result → (self.old.quiet ≡ 16) × (self.new.quiet ≡ 0) }
    {
        self.window.push_back(sample);
        self.count += 1;
        if self.count < 400 {
            return false;
        }
        let settled = back(&self.window, 399);
        let edge = ends_run(self.quiet, settled);
        self.quiet = run_after(self.quiet, settled);
        edge
    }

    // Takes the first of some samples, and answers how many: none of them makes 400 samples stand from an edge on.
    pub(crate) fn skim(&mut self, samples: &[Sample]) -> usize
        requires { self.old.count + length samples.now ≤ 2 ^ 24 }
        ensures tail { (before : List Sample) → IsTailOf self.old before
            → IsTailOf self.new (before ++ take result samples.now) }
        ensures none { (before : List Sample) → IsTailOf self.old before
            → (n : ℕ) → n < result → ¬ SettlesEdge (before ++ take (n + 1) samples.now) }
        ensures count { self.new.count ≡ self.old.count + result }
        ensures within { result ≤ length samples.now }
        ensures quiet { self.new.quiet ≤ self.old.quiet + result }
    {
        if self.count < 1024 {
            return 0;
        }
        let settling = settling(&self.window);
        let most = settling.len().min(samples.len());
        let (taken, quiet) = run_through(self.quiet, &settling[..most]);
        self.window.extend_from_slice(&samples[..taken]);
        self.count += taken;
        self.quiet = quiet;
        taken
    }

    // How many samples came.
    pub(crate) fn count(&self) -> usize
        ensures { result ≡ self.now.count }
    {
        self.count
    }

    // How many of them are held.
    pub(crate) fn held(&self) -> usize
        ensures held { result ≡ length self.now.items }
        ensures within { result ≤ 1024 }
    {
        self.window.len()
    }

    // The samples that came last, as many as a slice has.
    pub(crate) fn put_last(&self, out: &mut [Sample])
        requires long { length out.old ≤ self.now.count }
        requires held { length out.old ≤ 1024 }
        ensures { (samples : List Sample) → IsTailOf self.now samples
            → out.new ≡ keep_last (length out.old) samples }
    {
        copy_last(&self.window, out);
    }
}

// Copies the last samples, as many as a slice has.
fn copy_last(window: &HeapCircularBuffer<Sample>, out: &mut [Sample])
    requires { length out.old ≤ length window.now.items }
    ensures { out.new ≡ keep_last (length out.old) window.now.items }
{
    let (front, back) = window.as_slices();
    let from = window.len() - out.len();
    if from < front.len() {
        let begun = front.len() - from;
        out[..begun].copy_from_slice(&front[from..]);
        out[begun..].copy_from_slice(back);
    } else {
        out.copy_from_slice(&back[from - front.len()..]);
    }
}

// The sample that came so many samples before the last one.
fn back(window: &HeapCircularBuffer<Sample>, back: usize) -> Sample
    requires { back < length window.now.items }
    ensures { result ≡ sample_at window.now.items (length window.now.items - 1 - back) }
{
    match window.nth_back(back) {
        Some(sample) => *sample,
        None => unreachable!(),
    }
}

// The samples of a full window that settle next, in order, as many as lie in one piece.
fn settling(window: &HeapCircularBuffer<Sample>) -> &[Sample]
    requires { length window.now.items ≡ 1024 }
    ensures at { (n : ℕ) → n < length result.now
        → sample_at result.now n ≡ sample_at window.now.items (625 + n) }
    ensures few { length result.now ≤ 399 }
{
    let (front, back) = window.as_slices();
    if front.len() > 625 {
        &front[625..]
    } else {
        &back[625 - front.len()..]
    }
}

// How many samples settle before the first one that is loud behind a run of 16 quiet ones, and the run behind them, from
// the run before them.
fn run_through(quiet: u8, settling: &[Sample]) -> (usize, u8)
    requires { quiet ≤ 16 }
    ensures run { result.1 ≡ run_behind quiet (take result.0 settling.now) }
    ensures none { (n : ℕ) → n < result.0 → run_behind quiet (take n settling.now) ≡ 16
        → is_loud (sample_at settling.now n) ≡ false }
    ensures within { result.0 ≤ length settling.now }
    ensures most { result.1 ≤ 16 }
    ensures rises { result.1 ≤ quiet + result.0 }
{
    let mut run = quiet;
    for n in 0..settling.len() {
        if ends_run(run, settling[n]) {
            return (n, run);
        }
        run = run_after(run, settling[n]);
    }
    (settling.len(), run)
}

// Whether a sample is loud behind a run of 16 quiet ones.
fn ends_run(quiet: u8, sample: Sample) -> bool
    ensures { IsTrue result ↔ ((quiet ≡ 16) × (is_loud sample ≡ true)) }
{
    quiet == 16 && is_loud(sample)
}

// The run of quiet samples behind a sample, from the run before it.
fn run_after(quiet: u8, sample: Sample) -> u8
    requires { quiet ≤ 16 }
    ensures { result ≡ (if is_loud sample then 0 else min 16 (quiet + 1)) }
{
    if is_loud(sample) {
        0
    } else if quiet < 16 {
        quiet + 1
    } else {
        16
    }
}
