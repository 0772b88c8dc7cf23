//! The hearing of a capture, byte by byte.
ghost use Rattle.std.specs.Prelude.{◌≡◌, ◌++◌, ◌∷◌, ◌<◌, ◌+◌, ◌*◌, ◌≤◌, ◌^◌, ℕ, List, [], length, take, IfOk, IfErr, IfSome, Ok, Err};
ghost use Rattle.std.specs.List.{flat_map};
ghost use Rattle.capture_hearing.specs.Hearing.{HasHeard, HasLines};
ghost use Rattle.capture_hearing.specs.Received.{IsReceived, received_of};
ghost use Rattle.finding_lines.specs.Lines.{frame_line, most_text, text_of_findings};
ghost use Rattle.fixed_complex.specs.declared.Sample.{Sample};
ghost use Rattle.frame_findings.specs.declared.Heard.{Heard};
ghost use Rattle.modem_ports.specs.Limits.{most_input};
ghost use Rattle.report_lines.specs.Refusals.{IsDecided, status_of};

use capture_files::Piecer;
use circular_buffer::HeapCircularBuffer;
use finding_lines::Lines;
use finding_lines::laws::lines_fit;
use fixed_complex::Sample;
use frame_findings::Cut;
use frame_receiver::Receiver;
use modem_ports::Steps;
use report_lines::Refusal;
use std::alloc::{AllocError, Global};
use std::marker::Model;
use viterbi_lanes::Trellis;

// The most bytes that are cut into samples at once.
const PIECE: usize = 4096;

const SILENCE: Sample = Sample { i: 0, q: 0 };

/// What was heard of a capture: the frames so far, as lines (own).
#[derive(Drop)]
pub struct Hearing {
    count: usize,
    piecer: Piecer,
    receiver: Receiver,
    lines: Lines,
    samples: [Sample; PIECE / 4],
}

impl Model for Hearing {
    ghost use Rattle.std.specs.Prelude.{ℕ, List};
    ghost use Rattle.capture_hearing.specs.Hearing.{HasHeard, HearingView};

    ghost Value = { HearingView };

    ghost view = { λ h. record {
      count = h.count;
      held = h.piecer;
      receiver = h.receiver;
      lines = h.lines;
    } };

    ghost invariant = { λ h. (bytes : List ℕ) × HasHeard (record {
      count = h.count;
      held = h.piecer;
      receiver = h.receiver;
      lines = h.lines;
    }) bytes };
}

impl Hearing {
    /// A hearing before the first byte. It takes all memory that a hearing needs, in five requests; the
    /// only error is want of memory.
    pub fn open(alloc: Global) -> Result<Hearing, AllocError>
        ensures heard { IfOk result (λ hearing. HasHeard hearing []) }
        ensures none { IfOk result (λ hearing. hearing.count ≡ 0) }
        ensures spent { IfOk result (λ hearing. hearing.receiver.spent ≡ 0) }
    {
        let window = HeapCircularBuffer::with_capacity(alloc, 1024)?;
        let trellis = Trellis::open(alloc, 32782)?;
        let field = vec![in alloc; 0u8; 32782]?;
        let octets = vec![in alloc; 0u8; 4095]?;
        let lines = Lines::open(alloc)?;
        Ok(Hearing {
            count: 0,
            piecer: Piecer::new(),
            receiver: Receiver::open(window, trellis, field, octets),
            lines,
            samples: [SILENCE; PIECE / 4],
        })
    }

    /// Takes the next bytes; with those that came before they are at most 67108864. Takes no memory.
    ///
    /// The count of steps rises by at most what the receiver's `spent` rises by.
    pub fn hear_all(&mut self, bytes: &[u8], steps: &mut Steps)
        requires { self.old.count + length bytes.now ≤ most_input }
        ensures heard { (before : List ℕ) → HasHeard self.old before
            → HasHeard self.new (before ++ bytes.now) }
        ensures count { self.new.count ≡ self.old.count + length bytes.now }
        ensures counted { steps.new + self.old.receiver.spent ≤ steps.old + self.new.receiver.spent }
    {
        for some in bytes.chunks(PIECE) {
            self.hear_piece(some, steps);
        }
    }

    // Takes the next bytes, at most 4096.
    fn hear_piece(&mut self, bytes: &[u8], steps: &mut Steps)
        requires few { length bytes.now ≤ 4096 }
        requires room { self.old.count + length bytes.now ≤ most_input }
        ensures heard { (before : List ℕ) → HasHeard self.old before
            → HasHeard self.new (before ++ bytes.now) }
        ensures count { self.new.count ≡ self.old.count + length bytes.now }
        ensures counted { steps.new + self.old.receiver.spent ≤ steps.old + self.new.receiver.spent }
    {
        // fewer than four bytes are held
        let _held = self.piecer.rest();
        let whole = self.piecer.feed_all(bytes, &mut self.samples);
        self.count += bytes.len();
        hear_samples(
            &mut self.receiver,
            &mut self.lines,
            &self.samples[..whole],
            steps,
        );
    }

    /// How many bytes came, at most 67108864. Takes no memory.
    pub fn count(&self) -> usize
        ensures count { result ≡ self.now.count }
        ensures most { result ≤ most_input }
    {
        self.count
    }

    /// What is received of a capture that ends behind the bytes that came: the text of its findings, or
    /// `TornCapture`, `NoFrame` or `CutFrame`. Takes no memory.
    pub fn end(self) -> Result<Vec<u8>, Refusal>
        ensures text { IfOk result (λ text. (bytes : List ℕ) → HasHeard self bytes
            → IsReceived bytes (Ok text.items)) }
        ensures refused { IfErr result (λ refusal. (bytes : List ℕ) → HasHeard self bytes
            → IsReceived bytes (Err refusal)) }
        ensures decided { IfErr result (λ refusal. IsDecided (status_of refusal)) }
    {
        // a law; it does nothing
        lines_fit();
        if self.piecer.rest() != 0 {
            return Err(Refusal::TornCapture {
                bytes: self.count as u32,
            });
        }
        let cut = self.receiver.end();
        if self.lines.is_empty() {
            return Err(no_whole_frame(cut));
        }
        Ok(text_with(self.lines, cut))
    }
}

// Hands samples to a receiver; the lines of the frames that they make whole come behind those before.
fn hear_samples(receiver: &mut Receiver, lines: &mut Lines, samples: &[Sample], steps: &mut Steps)
    requires stood { (before : List Sample) × HasLines receiver.old lines.old before }
    requires room { receiver.old.tail.count + length samples.now ≤ 2 ^ 24 }
    ensures heard { (before : List Sample) → HasLines receiver.old lines.old before
        → HasLines receiver.new lines.new (before ++ samples.now) }
    ensures counted { steps.new + receiver.old.spent ≤ steps.old + receiver.new.spent }
    ensures bounded { receiver.old.spent ≤ 32 * receiver.old.tail.count + 512
        → receiver.new.spent ≤ 32 * receiver.new.tail.count + 512 }
{
    let mut taken = 0;
    while taken < samples.len() {
        taken += hear_some(receiver, lines, &samples[taken..], steps);
    }
}

// Hands the first of some samples to a receiver, and answers how many.
fn hear_some(
    receiver: &mut Receiver,
    lines: &mut Lines,
    samples: &[Sample],
    steps: &mut Steps,
) -> usize
    requires some { 1 ≤ length samples.now }
    requires stood { (before : List Sample) × HasLines receiver.old lines.old before }
    requires room { receiver.old.tail.count + length samples.now ≤ 2 ^ 24 }
    ensures heard { (before : List Sample) → HasLines receiver.old lines.old before
        → HasLines receiver.new lines.new (before ++ take result samples.now) }
    ensures least { 1 ≤ result }
    ensures most { result ≤ length samples.now }
    ensures count { receiver.new.tail.count ≡ receiver.old.tail.count + result }
    ensures counted { steps.new + receiver.old.spent ≤ steps.old + receiver.new.spent }
    ensures bounded { receiver.new.spent ≤ 32 * receiver.new.tail.count + 512 }
{
    let skimmed = receiver.skim(samples, steps);
    if skimmed > 0 {
        return skimmed;
    }
    hear_sample(receiver, lines, samples[0], steps);
    1
}

// Hands a sample to a receiver; the line of the frame that it makes whole, if it does, comes behind those before.
fn hear_sample(receiver: &mut Receiver, lines: &mut Lines, sample: Sample, steps: &mut Steps)
    requires stood { (before : List Sample) × HasLines receiver.old lines.old before }
    requires room { receiver.old.tail.count < 2 ^ 24 }
    ensures heard { (before : List Sample) → HasLines receiver.old lines.old before
        → HasLines receiver.new lines.new (before ++ sample ∷ []) }
    ensures count { receiver.new.tail.count ≡ receiver.old.tail.count + 1 }
    ensures counted { steps.new + receiver.old.spent ≤ steps.old + receiver.new.spent }
    ensures bounded { receiver.new.spent ≤ 32 * receiver.new.tail.count + 512 }
{
    // a law; it does nothing
    lines_fit();
    let Some(found) = receiver.push(sample, steps) else {
        return;
    };
    lines.put_frame(
        found.start,
        found.rate,
        found.length,
        found.seed,
        receiver.psdu(),
    );
}

// The refusal of a capture without a whole frame.
fn no_whole_frame(cut: Option<Cut>) -> Refusal
    ensures value { received_of [] cut ≡ Err result }
    ensures decided { IsDecided (status_of result) }
{
    match cut {
        None => Refusal::NoFrame,
        Some(cut) => Refusal::CutFrame {
            start: cut.start,
            have: cut.have,
            need: cut.need,
        },
    }
}

// The lines of frames, and that of a cut behind them, if there is one.
fn text_with(lines: Lines, cut: Option<Cut>) -> Vec<u8>
    requires room { IfSome cut (λ _. length lines + 37 ≤ most_text) }
    ensures { (heard : List Heard) → lines ≡ flat_map frame_line heard
        → result.items ≡ text_of_findings heard cut }
{
    let mut lines = lines;
    if let Some(cut) = cut {
        lines.put_cut(cut);
    }
    lines.into_vec()
}
