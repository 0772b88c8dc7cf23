//! What a mark costs on the branches of the code, as the first or as the second of its pair: tables.
ghost use Rattle.std.specs.Prelude.{◌≡◌, ◌≤◌};
ghost use Rattle.soft_trellis.specs.declared.Soft.TheVariants.{Absent};
ghost use Rattle.soft_trellis.specs.Marks.{IsMark, costs_of, place_in_costs};
ghost use Rattle.survivor_memory.specs.Costs.{AreBranchCosts};

use crate::Soft;
use survivor_memory::BranchCosts;

/// What a mark for A costs on the branches into each state, beside an absent one (own).
pub fn first_costs(mark: Soft) -> &'static BranchCosts
    requires { IsMark mark }
    ensures { AreBranchCosts (costs_of (mark, Absent)) result.now }
{
    &FIRST_COSTS[place_in_costs(mark)]
}

/// And a mark for B.
pub fn second_costs(mark: Soft) -> &'static BranchCosts
    requires { IsMark mark }
    ensures { AreBranchCosts (costs_of (Absent, mark)) result.now }
{
    &SECOND_COSTS[place_in_costs(mark)]
}

// Where a mark stands in the tables.
fn place_in_costs(mark: Soft) -> usize
    requires { IsMark mark }
    ensures place { result ≡ place_in_costs mark }
    ensures within { result ≤ 16 }
{
    match mark {
        Soft::Absent => 16,
        Soft::Cost(number) => usize::from(number),
    }
}

// One number where the code's A is 0 on the branch into a state from its lower predecessor, and another where it is 1.
macro_rules! by_first {
    ($zero:literal, $one:literal) => {
        [
            $zero, $one, $zero, $one, $one, $zero, $one, $zero, $one, $zero, $one, $zero, $zero,
            $one, $zero, $one, $zero, $one, $zero, $one, $one, $zero, $one, $zero, $one, $zero,
            $one, $zero, $zero, $one, $zero, $one, $one, $zero, $one, $zero, $zero, $one, $zero,
            $one, $zero, $one, $zero, $one, $one, $zero, $one, $zero, $one, $zero, $one, $zero,
            $zero, $one, $zero, $one, $zero, $one, $zero, $one, $one, $zero, $one, $zero,
        ]
    };
}

// The same by the code's B.
macro_rules! by_second {
    ($zero:literal, $one:literal) => {
        [
            $zero, $one, $one, $zero, $one, $zero, $zero, $one, $one, $zero, $zero, $one, $zero,
            $one, $one, $zero, $zero, $one, $one, $zero, $one, $zero, $zero, $one, $one, $zero,
            $zero, $one, $zero, $one, $one, $zero, $zero, $one, $one, $zero, $one, $zero, $zero,
            $one, $one, $zero, $zero, $one, $zero, $one, $one, $zero, $zero, $one, $one, $zero,
            $one, $zero, $zero, $one, $one, $zero, $zero, $one, $zero, $one, $one, $zero,
        ]
    };
}

// A row of the table of the first marks: from the higher predecessor the code has the other bit.
macro_rules! first_row {
    ($zero:literal, $one:literal) => {
        BranchCosts {
            lower: by_first!($zero, $one),
            higher: by_first!($one, $zero),
        }
    };
}

// A row of the table of the second marks: from the higher predecessor the code has the other bit.
macro_rules! second_row {
    ($zero:literal, $one:literal) => {
        BranchCosts {
            lower: by_second!($zero, $one),
            higher: by_second!($one, $zero),
        }
    };
}

// The numbers from 0 to 15 for A, each by what it costs at the bits 0 and 1, and no mark.
static FIRST_COSTS: [BranchCosts; 17] = [
    first_row!(0, 15),
    first_row!(1, 14),
    first_row!(2, 13),
    first_row!(3, 12),
    first_row!(4, 11),
    first_row!(5, 10),
    first_row!(6, 9),
    first_row!(7, 8),
    first_row!(8, 7),
    first_row!(9, 6),
    first_row!(10, 5),
    first_row!(11, 4),
    first_row!(12, 3),
    first_row!(13, 2),
    first_row!(14, 1),
    first_row!(15, 0),
    first_row!(0, 0),
];

// The same for B.
static SECOND_COSTS: [BranchCosts; 17] = [
    second_row!(0, 15),
    second_row!(1, 14),
    second_row!(2, 13),
    second_row!(3, 12),
    second_row!(4, 11),
    second_row!(5, 10),
    second_row!(6, 9),
    second_row!(7, 8),
    second_row!(8, 7),
    second_row!(9, 6),
    second_row!(10, 5),
    second_row!(11, 4),
    second_row!(12, 3),
    second_row!(13, 2),
    second_row!(14, 1),
    second_row!(15, 0),
    second_row!(0, 0),
];
