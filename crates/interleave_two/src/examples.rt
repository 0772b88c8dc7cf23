//! Worked places of the interleaver, which the check computes.

ghost use Rattle.std.specs.Prelude.{◌≡◌};
ghost use Rattle.interleave_two.specs.Place.{interleaved_place};

use rate_table::Rate;

/// At 6 Mb/s bits 1, 2 and 3 go to places 3, 6 and 9.
#[tactic(auto, unfolding(crate::specs::Place::interleaved_place))]
pub fn places_at_6()
    ensures first { interleaved_place Rate.R6 1 ≡ 3 }
    ensures second { interleaved_place Rate.R6 2 ≡ 6 }
    ensures third { interleaved_place Rate.R6 3 ≡ 9 }
{}

/// At 24 Mb/s bit 1 goes to place 13.
#[tactic(auto, unfolding(crate::specs::Place::interleaved_place))]
pub fn places_at_24()
    ensures { interleaved_place Rate.R24 1 ≡ 13 }
{}

/// At 48 Mb/s bits 0, 1, 2 and 17 go to places 0, 20, 37 and 18.
#[tactic(auto, unfolding(crate::specs::Place::interleaved_place))]
pub fn places_at_48()
    ensures zeroth { interleaved_place Rate.R48 0 ≡ 0 }
    ensures first { interleaved_place Rate.R48 1 ≡ 20 }
    ensures second { interleaved_place Rate.R48 2 ≡ 37 }
    ensures seventeenth { interleaved_place Rate.R48 17 ≡ 18 }
{}
