//! The marks of decisions: those of kept places, in order, and absent ones.
ghost use Rattle.std.specs.Prelude.{◌≡◌, ◌==◌, ℕ, ◌+◌, ◌-◌, ◌*◌, ◌%◌, ◌<◌, ◌≤◌, ◌^◌, List, ◌++◌, true, length, slice_index, if◌then◌else◌};
ghost use Rattle.modem_ports.specs.Counts.{raised_by};
ghost use Rattle.puncture_map.specs.Kept.{kept_count, period_of};
ghost use Rattle.rate_table.specs.Symbols.{IsLength, bits_through_tail, symbol_count};
ghost use Rattle.rate_table.specs.Table.{row_of};
ghost use Rattle.survivor_memory.specs.Survivors.{AreEntries};
ghost use Rattle.viterbi_lanes.specs.declared.Mark.{Mark};
ghost use Rattle.viterbi_lanes.specs.declared.Mark.TheVariants.{Zero, One, Absent};
ghost use Rattle.viterbi_lanes.specs.Decisions.{carried_steps, fed_at_once, marks_at, marks_of};
ghost use Rattle.viterbi_lanes.specs.Marks.{StandsFor};

use crate::{Mark, Trellis};
use modem_ports::Steps;
use puncture_map::kept_in_period;
use rate_table::{CodeRate, Rate};

impl Trellis {
    /// Appends the marks of so many steps, at least one and at most 2^20, of decisions in code order (18.3.5.6). There is
    /// room for them, and there are decisions enough; those behind play no part. The count of steps rises by so many.
    /// Takes no memory.
    pub fn feed(&mut self, rate: CodeRate, decisions: &[u8], count: usize, steps: &mut Steps)
        requires some { 1 ≤ count }
        requires few { count ≤ 2 ^ 20 }
        requires room { length self.old.rows + count ≤ self.old.room }
        requires decisions { kept_count rate count ≤ length decisions.now }
        ensures appended { (marks : List (Mark × Mark)) → StandsFor self.old marks
            → StandsFor self.new (marks ++ marks_of rate decisions.now count) }
        ensures held { length self.new.rows ≡ length self.old.rows + count }
        ensures entries { AreEntries self.new.entries }
        ensures room { self.new.room ≡ self.old.room }
        ensures counted { steps.new ≡ raised_by count steps.old }
    {
        let mut next = 0;
        for _block in 0..count / at_once(rate) {
            next = self.feed_block(rate, decisions, next, steps);
        }
        for phase in 0..count % at_once(rate) {
            next = self.feed_step(rate, phase, decisions, next, steps);
        }
    }

    // Appends the marks of as many steps as are fed at once, of decisions from a place on, and answers the place behind
    // them.
    #[inline(always)]
    fn feed_block(
        &mut self,
        rate: CodeRate,
        decisions: &[u8],
        next: usize,
        steps: &mut Steps,
    ) -> usize
        requires room { length self.old.rows + fed_at_once rate ≤ self.old.room }
        requires begins { (step : ℕ) × ((step % period_of rate ≡ 0) × ((next ≡ kept_count rate step)
            × (kept_count rate (step + fed_at_once rate) ≤ length decisions.now))) }
        requires few { next ≤ 2 ^ 22 }
        ensures appended { (marks : List (Mark × Mark)) (step : ℕ) → step % period_of rate ≡ 0
            → next ≡ kept_count rate step
            → StandsFor self.old (marks ++ marks_of rate decisions.now step)
            → StandsFor self.new (marks ++ marks_of rate decisions.now (step + fed_at_once rate)) }
        ensures next { (step : ℕ) → step % period_of rate ≡ 0 → next ≡ kept_count rate step
            → result ≡ kept_count rate (step + fed_at_once rate) }
        ensures few { result ≤ next + 2 * fed_at_once rate }
        ensures held { length self.new.rows ≡ length self.old.rows + fed_at_once rate }
        ensures entries { AreEntries self.new.entries }
        ensures room { self.new.room ≡ self.old.room }
        ensures counted { steps.new ≡ raised_by (fed_at_once rate) steps.old }
    {
        match rate {
            CodeRate::Half => {
                let (first, next) = step_marks(rate, 0, decisions, next);
                let (second, next) = step_marks(rate, 0, decisions, next);
                self.two_steps(first, second, steps);
                next
            }
            CodeRate::TwoThirds => {
                let (first, next) = step_marks(rate, 0, decisions, next);
                let (second, next) = step_marks(rate, 1, decisions, next);
                self.two_steps(first, second, steps);
                next
            }
            CodeRate::ThreeQuarters => {
                let (first, next) = step_marks(rate, 0, decisions, next);
                let (second, next) = step_marks(rate, 1, decisions, next);
                let (third, next) = step_marks(rate, 2, decisions, next);
                self.three_steps(first, second, third, steps);
                next
            }
        }
    }

    // Appends the marks of a step, by how many steps of its period stand before it, of decisions from a place on, and
    // answers the place behind them.
    #[inline(always)]
    fn feed_step(
        &mut self,
        rate: CodeRate,
        phase: usize,
        decisions: &[u8],
        next: usize,
        steps: &mut Steps,
    ) -> usize
        requires room { length self.old.rows < self.old.room }
        requires phase { phase < period_of rate }
        requires at { (step : ℕ) × ((step % period_of rate ≡ phase) × ((next ≡ kept_count rate step)
            × (kept_count rate (step + 1) ≤ length decisions.now))) }
        requires few { next ≤ 2 ^ 23 }
        ensures appended { (marks : List (Mark × Mark)) (step : ℕ) → step % period_of rate ≡ phase
            → next ≡ kept_count rate step
            → StandsFor self.old (marks ++ marks_of rate decisions.now step)
            → StandsFor self.new (marks ++ marks_of rate decisions.now (step + 1)) }
        ensures next { (step : ℕ) → step % period_of rate ≡ phase → next ≡ kept_count rate step
            → result ≡ kept_count rate (step + 1) }
        ensures few { result ≤ next + 2 }
        ensures held { length self.new.rows ≡ length self.old.rows + 1 }
        ensures entries { AreEntries self.new.entries }
        ensures room { self.new.room ≡ self.old.room }
        ensures counted { steps.new ≡ raised_by 1 steps.old }
    {
        let ((a, b), next) = step_marks(rate, phase, decisions, next);
        self.step(a, b, steps);
        next
    }

    /// Appends the marks of one symbol of a DATA field of so many octets, 1 to 4095, whose symbols before it are held: those
    /// of the symbol's N_CBPS decisions, in code order, as far as the end of the tail (18.3.5.4 and 18.3.5.6). There is
    /// room for the whole field. The count of steps rises by one for each step, so by at most 216. Takes no memory.
    pub fn feed_symbol(
        &mut self,
        rate: Rate,
        octets: u16,
        symbol: usize,
        decisions: &[u8],
        steps: &mut Steps,
    )
        requires octets { IsLength octets }
        requires symbol { symbol < symbol_count (row_of rate).field_bits octets }
        requires held { length self.old.rows ≡ carried_steps rate octets symbol }
        requires room { bits_through_tail octets ≤ self.old.room }
        requires decisions { length decisions.now ≡ (row_of rate).coded_bits }
        ensures appended { (before : List ℕ) → length before ≡ symbol * (row_of rate).coded_bits
            → StandsFor self.old
            (marks_of (row_of rate).code_rate before (carried_steps rate octets symbol))
            → StandsFor self.new
            (marks_of (row_of rate).code_rate (before ++ decisions.now)
            (carried_steps rate octets (symbol + 1))) }
        ensures held { length self.new.rows ≡ carried_steps rate octets (symbol + 1) }
        ensures entries { AreEntries self.new.entries }
        ensures room { self.new.room ≡ self.old.room }
        ensures counted { steps.new
            ≡ raised_by (carried_steps rate octets (symbol + 1) - carried_steps rate octets symbol)
            steps.old }
        ensures counted_at_most { steps.new ≤ steps.old + 216 }
    {
        let field_bits = rate.field_bits();
        let bits_through_tail = 22 + 8 * usize::from(octets);
        let left = bits_through_tail - symbol * field_bits;
        self.feed(rate.code_rate(), decisions, field_bits.min(left), steps);
    }
}

// How many steps are fed at once.
fn at_once(rate: CodeRate) -> usize
    ensures { result ≡ fed_at_once rate }
{
    match rate {
        CodeRate::Half | CodeRate::TwoThirds => 2,
        CodeRate::ThreeQuarters => 3,
    }
}

// The marks of a step, by how many steps of its period stand before it, of decisions from a place on, and the place behind
// them.
#[inline(always)]
fn step_marks(rate: CodeRate, phase: usize, decisions: &[u8], next: usize) -> ((Mark, Mark), usize)
    requires phase { phase < period_of rate }
    requires at { (step : ℕ) × ((step % period_of rate ≡ phase) × ((next ≡ kept_count rate step)
        × (kept_count rate (step + 1) ≤ length decisions.now))) }
    requires few { next ≤ 2 ^ 23 }
    ensures marks { (step : ℕ) → step % period_of rate ≡ phase → next ≡ kept_count rate step
        → result.0 ≡ marks_at rate decisions.now step }
    ensures next { (step : ℕ) → step % period_of rate ≡ phase → next ≡ kept_count rate step
        → result.1 ≡ kept_count rate (step + 1) }
    ensures few { result.1 ≤ next + 2 }
{
    let (a_is_kept, b_is_kept) = kept_in_period(rate, phase);
    let a = mark(a_is_kept, decisions, next);
    let next = next + usize::from(a_is_kept);
    let b = mark(b_is_kept, decisions, next);
    ((a, b), next + usize::from(b_is_kept))
}

// The mark of a place, which is that of the next decision where the place is kept.
fn mark(is_kept: bool, decisions: &[u8], next: usize) -> Mark
    requires { is_kept ≡ true → next < length decisions.now }
    ensures { result
        ≡ (if is_kept
        then (if slice_index decisions.now next == 0 then Zero else One)
        else Absent) }
{
    if !is_kept {
        Mark::Absent
    } else if decisions[next] == 0 {
        Mark::Zero
    } else {
        Mark::One
    }
}
