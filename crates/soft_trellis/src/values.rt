//! The marks of values: those of kept places, in order, and absent ones.
ghost use Rattle.std.specs.Prelude.{◌≡◌, ℕ, ◌+◌, ◌*◌, ◌%◌, ◌<◌, ◌≤◌, ◌^◌, List, ◌++◌, true, length, slice_index, if◌then◌else◌};
ghost use Rattle.modem_ports.specs.Counts.{raised_by};
ghost use Rattle.puncture_map.specs.Kept.{kept_count, period_of};
ghost use Rattle.soft_trellis.specs.declared.Soft.{Soft};
ghost use Rattle.soft_trellis.specs.declared.Soft.TheVariants.{Absent, Cost};
ghost use Rattle.soft_trellis.specs.Marks.{IsMark, StandsFor};
ghost use Rattle.soft_trellis.specs.Values.{AreValues, marks_of};

use crate::{Soft, SoftTrellis};
use modem_ports::Steps;
use puncture_map::{kept_in_period, period};
use rate_table::CodeRate;

impl SoftTrellis {
    // Appends the marks of so many steps of values. There is room for them, and there are values enough; those behind play
    // no part.
    pub(crate) fn feed(&mut self, rate: CodeRate, values: &[u8], count: usize, steps: &mut Steps)
        requires some { 1 ≤ count }
        requires few { count ≤ 2 ^ 20 }
        requires room { length self.old.rows + count ≤ self.old.room }
        requires are { AreValues values.now }
        requires values { kept_count rate count ≤ length values.now }
        ensures appended { (marks : List (Soft × Soft)) → StandsFor self.old marks
            → StandsFor self.new (marks ++ marks_of rate values.now count) }
        ensures held { length self.new.rows ≡ length self.old.rows + count }
        ensures counted { steps.new ≡ raised_by count steps.old }
    {
        let mut next = 0;
        for _period in 0..count / period(rate) {
            next = self.feed_period(rate, values, next, steps);
        }
        for phase in 0..count % period(rate) {
            next = self.feed_step(rate, phase, values, next, steps);
        }
    }

    // Appends the marks of a period, of values from a place on, and answers the place behind them.
    #[inline(always)]
    fn feed_period(
        &mut self,
        rate: CodeRate,
        values: &[u8],
        next: usize,
        steps: &mut Steps,
    ) -> usize
        requires room { length self.old.rows + period_of rate ≤ self.old.room }
        requires begins { (step : ℕ) × ((step % period_of rate ≡ 0) × ((next ≡ kept_count rate step)
            × (kept_count rate (step + period_of rate) ≤ length values.now))) }
        requires are { AreValues values.now }
        requires few { next ≤ 2 ^ 22 }
        ensures appended { (marks : List (Soft × Soft)) (step : ℕ) → step % period_of rate ≡ 0
            → next ≡ kept_count rate step
            → StandsFor self.old (marks ++ marks_of rate values.now step)
            → StandsFor self.new (marks ++ marks_of rate values.now (step + period_of rate)) }
        ensures next { (step : ℕ) → step % period_of rate ≡ 0 → next ≡ kept_count rate step
            → result ≡ kept_count rate (step + period_of rate) }
        ensures few { result ≤ next + 2 * period_of rate }
        ensures held { length self.new.rows ≡ length self.old.rows + period_of rate }
        ensures room { self.new.room ≡ self.old.room }
        ensures counted { steps.new ≡ raised_by (period_of rate) steps.old }
    {
        let next = self.feed_step(rate, 0, values, next, steps);
        match rate {
            CodeRate::Half => next,
            CodeRate::TwoThirds => self.feed_step(rate, 1, values, next, steps),
            CodeRate::ThreeQuarters => {
                let next = self.feed_step(rate, 1, values, next, steps);
                self.feed_step(rate, 2, values, next, steps)
            }
        }
    }

    // Appends the marks of a step, by how many steps of its period stand before it, of values from a place on, and
    // answers the place behind them.
    #[inline(always)]
    fn feed_step(
        &mut self,
        rate: CodeRate,
        phase: usize,
        values: &[u8],
        next: usize,
        steps: &mut Steps,
    ) -> usize
        requires room { length self.old.rows < self.old.room }
        requires phase { phase < period_of rate }
        requires at { (step : ℕ) × ((step % period_of rate ≡ phase) × ((next ≡ kept_count rate step)
            × (kept_count rate (step + 1) ≤ length values.now))) }
        requires are { AreValues values.now }
        requires few { next ≤ 2 ^ 23 }
        ensures appended { (marks : List (Soft × Soft)) (step : ℕ) → step % period_of rate ≡ phase
            → next ≡ kept_count rate step
            → StandsFor self.old (marks ++ marks_of rate values.now step)
            → StandsFor self.new (marks ++ marks_of rate values.now (step + 1)) }
        ensures next { (step : ℕ) → step % period_of rate ≡ phase → next ≡ kept_count rate step
            → result ≡ kept_count rate (step + 1) }
        ensures few { result ≤ next + 2 }
        ensures held { length self.new.rows ≡ length self.old.rows + 1 }
        ensures room { self.new.room ≡ self.old.room }
        ensures counted { steps.new ≡ raised_by 1 steps.old }
    {
        let (a_is_kept, b_is_kept) = kept_in_period(rate, phase);
        let a = mark(a_is_kept, values, next);
        let next = next + usize::from(a_is_kept);
        let b = mark(b_is_kept, values, next);
        self.step(a, b, steps);
        next + usize::from(b_is_kept)
    }
}

// The mark of a place, which is that of the next value where the place is kept.
fn mark(is_kept: bool, values: &[u8], next: usize) -> Soft
    requires are { AreValues values.now }
    requires next { is_kept ≡ true → next < length values.now }
    ensures mark { result ≡ (if is_kept then Cost (slice_index values.now next) else Absent) }
    ensures is_mark { IsMark result }
{
    if is_kept {
        Soft::Cost(values[next])
    } else {
        Soft::Absent
    }
}
