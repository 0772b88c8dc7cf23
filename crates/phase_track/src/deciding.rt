//! The decisions of symbols that their pilots turn back.
ghost use Rattle.frames_turned.specs.Deciding.{phase_decided};

use carrier_equaliser::{Estimate, carriers_of};
use fixed_complex::Sample;
use frame_reader::Decider;
use interleave_two::deinterleave;
use modem_ports::Steps;
use pilot_turns::{pilot_turn, turned_decisions};
use rate_table::Rate;

/// The decisions over the estimate with the turn that the pilots of the symbol tell, by its number (own).
#[derive(Clone, Copy, Debug)]
pub struct PhaseDecider;

impl Decider for PhaseDecider {
    ghost decided = { phase_decided };

    fn decide(
        &self,
        rate: Rate,
        number: u32,
        estimate: &Estimate,
        body: &[Sample; 64],
        steps: &mut Steps,
    ) -> [u8; 288] {
        let carriers = carriers_of(body, steps);
        let turn = pilot_turn(estimate, &carriers, number);
        let mut decisions = [0; 288];
        turned_decisions(estimate, rate, &carriers, turn, &mut decisions);
        deinterleave(rate, &decisions)
    }
}
