//! The receiver: a search, and the frames that it hears.
ghost use Rattle.std.specs.Prelude.{◌≡◌, ℕ, ◌+◌, ◌-◌, ◌*◌, ◌<◌, ◌≤◌, ◌^◌, List, [], ◌∷◌, ◌++◌, length, drop, map, take, vec_len, IfSome, IfNone, None, Some};
ghost use Rattle.circular_buffer.specs.Buffer.{buffer, keep_last};
ghost use Rattle.fixed_complex.specs.declared.Sample.{Sample};
ghost use Rattle.frame_findings.specs.declared.Heard.{Heard};
ghost use Rattle.frame_findings.specs.Walk.{AreFindings};
ghost use Rattle.frame_reader.specs.Decisions.{decisions_of, estimate_from};
ghost use Rattle.frame_reader.specs.Frames.{Opens, symbols_of};
ghost use Rattle.frame_lists.specs.Near.{SentFrame};
ghost use Rattle.frame_receiver.specs.Noise.{AreFirst, HasInNoise};
ghost use Rattle.frame_receiver.specs.Receiving.{FramesGrow, Stands, TakesSymbol, heard_with};
ghost use Rattle.frame_receiver.specs.Tails.{IsTailOf};
ghost use Rattle.frames_in_noise.specs.Laws.{heard_of};
ghost use Rattle.modem_ports.specs.Counts.{raised_by};
ghost use Rattle.rate_table.specs.Symbols.{IsLength, bits_through_tail, most_octets};
ghost use Rattle.rate_table.specs.Table.{row_of};
ghost use Rattle.signal_field.specs.declared.Header.{Header};
ghost use Rattle.viterbi_lanes.specs.Decisions.{carried_steps, marks_of};
ghost use Rattle.viterbi_lanes.specs.Marks.{StandsFor};

use crate::tail::Tail;
use carrier_equaliser::Estimate;
use circular_buffer::HeapCircularBuffer;
use fixed_complex::Sample;
use frame_findings::Cut;
use frame_reader::{PlainDecider, finish_field, hear_symbol, look, symbols_in};
use frame_search::tick_times;
use modem_ports::Steps;
use rate_table::Rate;
use signal_field::Header;
use std::marker::Model;
use viterbi_lanes::Trellis;

const SILENCE: Sample = Sample { i: 0, q: 0 };

/// A frame that was heard, without its PSDU: the place of its first sample, what its header says, and the number that
/// names the front of its field, 0 to 127 (own).
#[derive(Clone, Copy, Debug, PartialEq, Eq)]
pub struct Found {
    pub start: u32,
    pub rate: Rate,
    pub length: u16,
    pub seed: u8,
}

/// Where a frame is heard: the place of its first sample, its header, and how many of its DATA symbols were taken.
#[derive(Clone, Copy, Debug)]
pub(crate) struct At {
    place: usize,
    header: Header,
    symbols: usize,
}

/// A receiver of samples as they come, at most 2^24 (own). It hears all frames in order, and holds at most 1024 samples.
/// None of its calls takes memory.
#[derive(Drop)]
pub struct Receiver {
    tail: Tail,
    from: usize,
    at: Option<At>,
    estimate: Estimate,
    trellis: Trellis,
    field: Vec<u8>,
    octets: Vec<u8>,
    heard: usize,
    spent: u64,
}

impl Model for Receiver {
    ghost use Rattle.std.specs.Prelude.{take, vec_len};
    ghost use Rattle.frame_receiver.specs.Receiving.{ReceiverView};
    ghost use Rattle.frame_receiver.specs.Sound.{IsSound};

    ghost Value = { ReceiverView };

    ghost view = { λ r. record {
      tail = r.tail;
      from = r.from;
      at = r.at;
      estimate = r.estimate;
      trellis = r.trellis;
      psdu = take r.heard r.octets.items;
      spent = r.spent;
    } };

    ghost invariant = { λ r. IsSound r.tail r.from r.at r.trellis (vec_len r.field)
        (vec_len r.octets) r.heard r.spent };
}

impl Receiver {
    /// A receiver before its first sample, of these parts: an empty window with a capacity of 1024, an empty trellis with
    /// room for 32782 steps, 32782 entries for a field's bits, and 4095 for its octets.
    pub fn open(
        window: HeapCircularBuffer<Sample>,
        trellis: Trellis,
        field: Vec<u8>,
        octets: Vec<u8>,
    ) -> Receiver
        requires window { window ≡ buffer [] 1024 }
        requires empty { StandsFor trellis [] }
        requires room { trellis.room ≡ 32782 }
        requires field { vec_len field ≡ 32782 }
        requires octets { vec_len octets ≡ 4095 }
        ensures stands { Stands result [] [] }
        ensures none { result.tail.count ≡ 0 }
        ensures spent { result.spent ≡ 0 }
    {
        Receiver {
            tail: Tail::open(window),
            from: 0,
            at: None,
            estimate: Estimate::silent(),
            trellis,
            field,
            octets,
            heard: 0,
            spent: 0,
        }
    }

    /// Takes the next sample. `Some` exactly where it makes one more frame whole: that frame, whose PSDU is then `psdu`.
    /// Fewer than 2^24 samples came before.
    ///
    /// Where the samples, or more that begin with them, are near frames, each within the noise bound of its rate, in silence
    /// within 64, what was answered so far are the first of these frames, in order.
    ///
    /// The count of steps rises by at most what `spent` rises by, and `spent` is at most 32 for each sample that came, and
    /// 512.
    pub fn push(&mut self, sample: Sample, steps: &mut Steps) -> Option<Found>
        requires { self.old.tail.count < 2 ^ 24 }
        ensures stands { (samples : List Sample) (heard : List Heard) → Stands self.old samples heard
            → Stands self.new (samples ++ sample ∷ []) (heard_with heard result self.new.psdu) }
        ensures grows { (samples : List Sample) (heard : List Heard) → Stands self.old samples heard
            → FramesGrow samples sample result self.new.psdu }
        ensures in_noise { (samples more : List Sample) (heard : List Heard)
            (frames : List SentFrame) → Stands self.old samples heard
            → HasInNoise (samples ++ sample ∷ more) frames
            → AreFirst (heard_with heard result self.new.psdu) frames }
        ensures count { self.new.tail.count ≡ self.old.tail.count + 1 }
        ensures counted { steps.new + self.old.spent ≤ steps.old + self.new.spent }
        ensures bounded { self.new.spent ≤ 32 * self.new.tail.count + 512 }
    {
        let edge = self.tail.push(sample);
        let count = self.tail.count();
        self.spent += 1;
        steps.tick();
        let at = match self.at {
            None => {
                if edge && self.from + 400 <= count {
                    self.spent += 347;
                    self.at = chosen(&self.tail, &mut self.trellis, &mut self.estimate, steps);
                }
                return None;
            }
            Some(at) => at,
        };
        if count < at.place + 480 + 80 * at.symbols {
            return None;
        }
        self.spent += 217;
        hear_last(&self.tail, &self.estimate, &at, &mut self.trellis, steps);
        if at.symbols + 1 < symbols_in(&at.header) {
            self.at = Some(At {
                symbols: at.symbols + 1,
                ..at
            });
            return None;
        }
        let seed = finish_field(
            &at.header,
            &mut self.trellis,
            &mut self.field,
            &mut self.octets,
        );
        self.at = None;
        self.from = count;
        self.heard = usize::from(at.header.length);
        Some(Found {
            start: at.place as u32,
            rate: at.header.rate,
            length: at.header.length,
            seed,
        })
    }

    /// Takes the first of some samples, and answers how many: none of them makes a frame whole. It may take none where `push`
    /// is to take the first one. With those that came before they are at most 2^24.
    ///
    /// The count of steps rises by at most what `spent` rises by.
    pub fn skim(&mut self, samples: &[Sample], steps: &mut Steps) -> usize
        requires { self.old.tail.count + length samples.now ≤ 2 ^ 24 }
        ensures stands { (before : List Sample) (heard : List Heard) → Stands self.old before heard
            → Stands self.new (before ++ take result samples.now) heard }
        ensures count { self.new.tail.count ≡ self.old.tail.count + result }
        ensures within { result ≤ length samples.now }
        ensures counted { steps.new + self.old.spent ≤ steps.old + self.new.spent }
        ensures bounded { self.new.spent ≤ 32 * self.new.tail.count + 512 }
    {
        let most = match self.at {
            None => samples.len(),
            Some(at) => left_of_symbol(&at, self.tail.count()).min(samples.len()),
        };
        let taken = self.tail.skim(&samples[..most]);
        self.spent += taken as u64;
        tick_times(steps, taken);
        taken
    }

    /// The cut in which the samples that came so far end, if they end in one. Samples may come after it.
    ///
    /// Where the samples are near frames, each within the noise bound of its rate, in silence within 64, what `push`
    /// answered are exactly these frames, in order, and there is no cut.
    pub fn end(&self) -> Option<Cut>
        ensures findings { (samples : List Sample) (heard : List Heard)
            → Stands self.now samples heard → AreFindings samples heard result }
        ensures all_in_noise { (samples : List Sample) (heard : List Heard)
            (frames : List SentFrame) → Stands self.now samples heard → HasInNoise samples frames
            → heard ≡ map heard_of frames }
        ensures none_in_noise { (samples : List Sample) (heard : List Heard)
            (frames : List SentFrame) → Stands self.now samples heard → HasInNoise samples frames
            → result ≡ None }
    {
        match self.at {
            None => None,
            Some(at) => Some(Cut {
                start: at.place as u32,
                have: (self.tail.count() - at.place) as u32,
                need: 400 + 80 * symbols_in(&at.header) as u32,
            }),
        }
    }

    /// The PSDU of the last frame that `push` answered, of at most 4095 octets; no octets before the first.
    pub fn psdu(&self) -> &[u8]
        ensures value { result.now ≡ self.now.psdu }
        ensures short { length result.now ≤ most_octets }
    {
        &self.octets[..self.heard]
    }

    /// How many samples the window holds, at most 1024.
    pub fn held(&self) -> usize
        ensures held { result ≡ length self.now.tail.items }
        ensures within { result ≤ 1024 }
    {
        self.tail.held()
    }
}

// What the last 400 samples open, at the edge that they begin with: a frame with a good header, or none.
fn chosen(
    tail: &Tail,
    trellis: &mut Trellis,
    estimate: &mut Estimate,
    steps: &mut Steps,
) -> Option<At>
    requires long { 400 ≤ tail.now.count }
    requires room { 24 ≤ trellis.old.room }
    ensures place { IfSome result (λ at. at.place + 400 ≡ tail.now.count) }
    ensures begun { IfSome result (λ at. at.symbols ≡ 0) }
    ensures opens { (samples : List Sample) → IsTailOf tail.now samples
        → IfSome result (λ at. Opens (keep_last 400 samples) at.header) }
    ensures estimate { (samples : List Sample) → IsTailOf tail.now samples
        → IfSome result (λ at. estimate.new ≡ estimate_from (keep_last 400 samples)) }
    ensures none { (samples : List Sample) → IsTailOf tail.now samples
        → IfNone result ((header : Header) → ¬ Opens (keep_last 400 samples) header) }
    ensures octets { IfSome result (λ at. IsLength at.header.length) }
    ensures symbols { IfSome result (λ at. 0 < symbols_of at.header) }
    ensures stands { StandsFor trellis.new [] }
    ensures room { trellis.new.room ≡ trellis.old.room }
    ensures counted { steps.new ≤ steps.old + 347 }
{
    let mut samples = [SILENCE; 400];
    tail.put_last(&mut samples);
    match look(&samples, trellis, estimate, steps) {
        Some(Ok(header)) => Some(At {
            place: tail.count() - 400,
            header,
            symbols: 0,
        }),
        Some(Err(_)) | None => None,
    }
}

// Hears the symbol that the last 64 samples are the body of.
fn hear_last(tail: &Tail, estimate: &Estimate, at: &At, trellis: &mut Trellis, steps: &mut Steps)
    requires long { 64 ≤ tail.now.count }
    requires octets { IsLength at.now.header.length }
    requires symbols { at.now.symbols < symbols_of at.now.header }
    requires held { length trellis.old.rows
        ≡ carried_steps at.now.header.rate at.now.header.length at.now.symbols }
    requires room { bits_through_tail at.now.header.length ≤ trellis.old.room }
    ensures takes { (samples : List Sample) → IsTailOf tail.now samples
        → TakesSymbol at.now (decisions_of at.now.header.rate estimate.now (keep_last 64 samples))
        trellis.old trellis.new }
    ensures held { length trellis.new.rows
        ≡ carried_steps at.now.header.rate at.now.header.length (at.now.symbols + 1) }
    ensures room { trellis.new.room ≡ trellis.old.room }
    ensures counted { steps.new ≤ steps.old + 217 }
{
    let mut body = [SILENCE; 64];
    tail.put_last(&mut body);
    hear_symbol(
        &PlainDecider,
        &body,
        estimate,
        &at.header,
        at.symbols,
        trellis,
        steps,
    );
}

// How many samples may come before the last one of the symbol.
fn left_of_symbol(at: &At, count: usize) -> usize
    requires inside { count < at.now.place + 480 + 80 * at.now.symbols }
    requires fits { at.now.place + 480 + 80 * at.now.symbols ≤ 2 ^ 32 }
    ensures { result + 1 + count ≡ at.now.place + 480 + 80 * at.now.symbols }
{
    at.place + 479 + 80 * at.symbols - count
}
