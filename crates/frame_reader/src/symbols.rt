//! What the preamble and SIGNAL say, and the DATA symbols behind them.
ghost use Rattle.std.specs.Prelude.{◌≡◌, ℕ, ◌+◌, ◌-◌, ◌*◌, ◌<◌, ◌≤◌, ◌↔◌, List, [], ◌++◌, length, take, true, false, Some, Ok, IfSome, IfNone, IfOk};
ghost use Rattle.frame_reader.specs.Decisions.{decisions_by, estimate_from, plain_decisions};
ghost use Rattle.frame_reader.specs.Frames.{Opens, SaysHeader, symbols_of};
ghost use Rattle.frame_search.specs.Match.{matches, part};
ghost use Rattle.modem_ports.specs.Counts.{raised_by};
ghost use Rattle.rate_table.specs.Symbols.{IsLength, bits_through_tail};
ghost use Rattle.rate_table.specs.Table.{row_of};
ghost use Rattle.signal_field.specs.declared.Header.{Header};
ghost use Rattle.viterbi_lanes.specs.Decisions.{carried_steps, marks_of};
ghost use Rattle.viterbi_lanes.specs.Marks.{StandsFor};

use crate::deciders::{Decider, PlainDecider};
use carrier_equaliser::{Estimate, carriers_of};
use fixed_complex::Sample;
use frame_search::matches_template;
use modem_ports::Steps;
use rate_table::Rate;
use signal_field::{Header, HeaderFault, read_header};
use viterbi_lanes::Trellis;

/// Looks at the first 400 samples of what may be a frame: `None` exactly where the first 320 don't match the training
/// fields; else what SIGNAL says by the decisions over their estimate of the channel, a header or its fault (own).
///
/// The trellis has room for 24 steps at least; it holds nothing afterwards. Where there is a match, `estimate` is theirs
/// afterwards; else it is unchanged. The count of steps rises by 347 where there is a match, else by 320. Takes no
/// memory.
pub fn look(
    samples: &[Sample; 400],
    trellis: &mut Trellis,
    estimate: &mut Estimate,
    steps: &mut Steps,
) -> Option<Result<Header, HeaderFault>>
    requires room { 24 ≤ trellis.old.room }
    ensures no_match { IfNone result (matches (part samples.now 0 320) ≡ false) }
    ensures like { IfSome result (λ read. matches (part samples.now 0 320) ≡ true) }
    ensures says { IfSome result (λ read. SaysHeader (plain_decisions samples.now) read) }
    ensures opens { (header : Header) → (result ≡ Some (Ok header)) ↔ Opens samples.now header }
    ensures octets { IfSome result (λ read. IfOk read (λ header. IsLength header.length)) }
    ensures estimate { IfSome result (λ read. estimate.new ≡ estimate_from samples.now) }
    ensures estimate_kept { IfNone result (estimate.new ≡ estimate.old) }
    ensures stands { StandsFor trellis.new [] }
    ensures room { trellis.new.room ≡ trellis.old.room }
    ensures counted { IfSome result (λ read. steps.new ≡ raised_by 347 steps.old) }
    ensures counted_out { IfNone result (steps.new ≡ raised_by 320 steps.old) }
{
    trellis.start();
    if !matches_template(samples, 0, steps) {
        return None;
    }
    Some(read_front(&PlainDecider, samples, trellis, estimate, steps))
}

/// Reads the front of a frame at a place that is given, with no edge and no match (own): the first 400 samples give the
/// estimate of the channel, by both bodies of the long training field, and SIGNAL says a header or its fault, by the
/// decisions over the estimate. More samples may follow.
///
/// The trellis has room for 24 steps at least; it holds nothing afterwards. The count of steps rises by exactly 27. Takes
/// no memory.
pub fn read_front<D: Decider>(
    decider: &D,
    samples: &[Sample],
    trellis: &mut Trellis,
    estimate: &mut Estimate,
    steps: &mut Steps,
) -> Result<Header, HeaderFault>
    requires long { 400 ≤ length samples.now }
    requires room { 24 ≤ trellis.old.room }
    ensures says { SaysHeader (decisions_by D.decided samples.now) result }
    ensures octets { IfOk result (λ header. IsLength header.length) }
    ensures estimate { estimate.new ≡ estimate_from samples.now }
    ensures stands { StandsFor trellis.new [] }
    ensures room { trellis.new.room ≡ trellis.old.room }
    ensures counted { steps.new ≡ raised_by 27 steps.old }
{
    *estimate = estimate_of_channel(samples, steps);
    let body = body_at(samples, 336);
    let signal = decider.decide(Rate::R6, 0, estimate, &body, steps);
    let decisions = signal_decisions(&signal);
    read_header(trellis, &decisions, steps)
}

/// Hears the body of one DATA symbol of a frame whose symbols before it were heard: the marks of its decisions over the
/// estimate, in the order of the code, are fed to the trellis as far as the end of the tail (own).
///
/// LENGTH is 1 to 4095, symbols are numbered from 0, and the trellis has room for the whole field. The count of steps
/// rises by one, and one more for each step that the symbol carries, so by at most 217. Takes no memory.
pub fn hear_symbol<D: Decider>(
    decider: &D,
    body: &[Sample; 64],
    estimate: &Estimate,
    header: &Header,
    symbol: usize,
    trellis: &mut Trellis,
    steps: &mut Steps,
)
    requires octets { IsLength header.now.length }
    requires symbol { symbol < symbols_of header.now }
    requires held { length trellis.old.rows
        ≡ carried_steps header.now.rate header.now.length symbol }
    requires room { bits_through_tail header.now.length ≤ trellis.old.room }
    ensures appended { (before : List ℕ)
        → length before ≡ symbol * (row_of header.now.rate).coded_bits
        → StandsFor trellis.old
        (marks_of (row_of header.now.rate).code_rate before
        (carried_steps header.now.rate header.now.length symbol))
        → StandsFor trellis.new
        (marks_of (row_of header.now.rate).code_rate
        (before ++ D.decided header.now.rate (symbol + 1) estimate.now body.now)
        (carried_steps header.now.rate header.now.length (symbol + 1))) }
    ensures as_many { length (D.decided header.now.rate (symbol + 1) estimate.now body.now)
        ≡ (row_of header.now.rate).coded_bits }
    ensures held { length trellis.new.rows
        ≡ carried_steps header.now.rate header.now.length (symbol + 1) }
    ensures room { trellis.new.room ≡ trellis.old.room }
    ensures counted { steps.new
        ≡ raised_by
        (1
        + (carried_steps header.now.rate header.now.length (symbol + 1)
        - carried_steps header.now.rate header.now.length symbol))
        steps.old }
    ensures counted_at_most { steps.new ≤ steps.old + 217 }
{
    let rate = header.rate;
    let decisions = decider.decide(rate, symbol as u32 + 1, estimate, body, steps);
    trellis.feed_symbol(
        rate,
        header.length,
        symbol,
        &decisions[..rate.coded_bits()],
        steps,
    );
}

/// N_SYM of a header, 1 to 1366. LENGTH is 1 to 4095. Takes no memory.
pub fn symbols_in(header: &Header) -> usize
    requires { IsLength header.now.length }
    ensures value { result ≡ symbols_of header.now }
    ensures some { 1 ≤ result }
    ensures most { result ≤ 1366 }
    ensures all { carried_steps header.now.rate header.now.length result
        ≡ bits_through_tail header.now.length }
{
    header.rate.symbols(header.length) as usize
}

// The decisions of SIGNAL, without the zeros behind them.
fn signal_decisions(signal: &[u8; 288]) -> [u8; 48]
    ensures { result ≡ take 48 signal.now }
{
    let mut decisions = [0; 48];
    decisions.copy_from_slice(&signal[..48]);
    decisions
}

// The estimate of the channel, from both bodies of the long training field.
fn estimate_of_channel(samples: &[Sample], steps: &mut Steps) -> Estimate
    requires { 320 ≤ length samples.now }
    ensures value { result ≡ estimate_from samples.now }
    ensures counted { steps.new ≡ raised_by 2 steps.old }
{
    let first = carriers_of(&body_at(samples, 192), steps);
    let second = carriers_of(&body_at(samples, 256), steps);
    Estimate::from_long(&first, &second)
}

// The 64 samples from a place on.
fn body_at(samples: &[Sample], place: usize) -> [Sample; 64]
    requires { place + 64 ≤ length samples.now }
    ensures { result ≡ part samples.now place 64 }
{
    let mut body = [Sample { i: 0, q: 0 }; 64];
    body.copy_from_slice(&samples[place..place + 64]);
    body
}
