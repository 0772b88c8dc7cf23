//! Who decides the bits of a symbol.
ghost use Rattle.std.specs.Prelude.{◌≡◌, take};
ghost use Rattle.bit_lists.specs.Bits.{AreBits};
ghost use Rattle.frame_reader.specs.Decisions.{Deciding, decisions_of};
ghost use Rattle.modem_ports.specs.Counts.{raised_by};
ghost use Rattle.rate_table.specs.Table.{row_of};

use carrier_equaliser::{Estimate, carriers_of};
use fixed_complex::Sample;
use interleave_two::deinterleave;
use modem_ports::Steps;
use rate_table::Rate;

/// Who decides the bits of a frame's symbols, over the estimate of the channel (own).
pub trait Decider {
    /// The decisions of a symbol at a rate, by its number, over an estimate, of its body; in the order of the code.
    ghost decided: { Deciding };

    /// The decisions of the symbol with a number, in the order of the code, and bits behind them. SIGNAL has the number
    /// 0, DATA symbol m has m + 1. The count of steps rises by exactly one. Takes no memory.
    fn decide(
        &self,
        rate: Rate,
        number: u32,
        estimate: &Estimate,
        body: &[Sample; 64],
        steps: &mut Steps,
    ) -> [u8; 288]
        ensures list { take (row_of rate).coded_bits result
            ≡ decided rate number estimate.now body.now }
        ensures bits { AreBits result }
        ensures counted { steps.new ≡ raised_by 1 steps.old };
}

/// The decisions over the estimate alone, whatever number a symbol has (own).
#[derive(Clone, Copy, Debug)]
pub struct PlainDecider;

impl Decider for PlainDecider {
    ghost decided = { λ rate number estimate body. decisions_of rate estimate body };

    fn decide(
        &self,
        rate: Rate,
        _number: u32,
        estimate: &Estimate,
        body: &[Sample; 64],
        steps: &mut Steps,
    ) -> [u8; 288] {
        let carriers = carriers_of(body, steps);
        let mut decisions = [0; 288];
        estimate.decisions(rate, &carriers, &mut decisions);
        deinterleave(rate, &decisions)
    }
}
