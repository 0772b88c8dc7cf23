//! The stages of the transform within eight lanes.
ghost use Rattle.std.specs.Prelude.{◌≡◌, ℕ, ◌*◌, ◌^◌, ◌<◌};
ghost use Rattle.butterfly64.specs.Lanes.{lane, joined_at, parted_at, EachOfSize};
ghost use Rattle.butterfly64.specs.MirrorOrder.{mirror_of};
ghost use Rattle.butterfly64.specs.StagedSums.{down_at, up_at};

use crate::lane_turns::TURNS;
use crate::lanes::{
    Eight, four_apart, joined_lanes, mixed_by_four, mixed_by_one, mixed_by_two, one_apart,
    parted_lanes, two_apart,
};

// Replaces eight pairs in mirror order by their staged sums `up`.
#[inline(always)]
pub(crate) fn up_eight(x: &Eight) -> Eight
    requires { EachOfSize (2 ^ 31) x.now }
    ensures { (l : ℕ) → l < 8 → lane result l ≡ up_at 3 (λ m. lane x.now (mirror_of 3 m)) l }
{
    join_four_apart(&join_two_apart(&join_one_apart(x)))
}

// Replaces eight pairs by their staged sums `down` in mirror order.
#[inline(always)]
pub(crate) fn down_eight(x: &Eight) -> Eight
    requires { EachOfSize (2 ^ 31 * 3 ^ 3) x.now }
    ensures { (l : ℕ) → l < 8 → lane result (mirror_of 3 l) ≡ down_at 3 (lane x.now) l }
{
    part_one_apart(&part_two_apart(&part_four_apart(x)))
}

// Joins pairs one apart.
#[inline(always)]
fn join_one_apart(x: &Eight) -> Eight
    requires { EachOfSize (2 ^ 39) x.now }
    ensures { (l : ℕ) → l < 8 → lane result l ≡ joined_at 0 (lane x.now) l }
{
    let (low, high) = one_apart(x);
    let (sums, differences) = joined_lanes(&low, &high, &TURNS[0]);
    mixed_by_one(&sums, &differences)
}

// Joins pairs two apart.
#[inline(always)]
fn join_two_apart(x: &Eight) -> Eight
    requires { EachOfSize (2 ^ 39) x.now }
    ensures { (l : ℕ) → l < 8 → lane result l ≡ joined_at 1 (lane x.now) l }
{
    let (low, high) = two_apart(x);
    let (sums, differences) = joined_lanes(&low, &high, &TURNS[1]);
    mixed_by_two(&sums, &differences)
}

// Joins pairs four apart.
#[inline(always)]
fn join_four_apart(x: &Eight) -> Eight
    requires { EachOfSize (2 ^ 39) x.now }
    ensures { (l : ℕ) → l < 8 → lane result l ≡ joined_at 2 (lane x.now) l }
{
    let (low, high) = four_apart(x);
    let (sums, differences) = joined_lanes(&low, &high, &TURNS[2]);
    mixed_by_four(&sums, &differences)
}

// Parts pairs one apart.
#[inline(always)]
fn part_one_apart(x: &Eight) -> Eight
    requires { EachOfSize (2 ^ 39) x.now }
    ensures { (l : ℕ) → l < 8 → lane result l ≡ parted_at 0 (lane x.now) l }
{
    let (low, high) = one_apart(x);
    let (sums, differences) = parted_lanes(&low, &high, &TURNS[0]);
    mixed_by_one(&sums, &differences)
}

// Parts pairs two apart.
#[inline(always)]
fn part_two_apart(x: &Eight) -> Eight
    requires { EachOfSize (2 ^ 39) x.now }
    ensures { (l : ℕ) → l < 8 → lane result l ≡ parted_at 1 (lane x.now) l }
{
    let (low, high) = two_apart(x);
    let (sums, differences) = parted_lanes(&low, &high, &TURNS[1]);
    mixed_by_two(&sums, &differences)
}

// Parts pairs four apart.
#[inline(always)]
fn part_four_apart(x: &Eight) -> Eight
    requires { EachOfSize (2 ^ 39) x.now }
    ensures { (l : ℕ) → l < 8 → lane result l ≡ parted_at 2 (lane x.now) l }
{
    let (low, high) = four_apart(x);
    let (sums, differences) = parted_lanes(&low, &high, &TURNS[2]);
    mixed_by_four(&sums, &differences)
}
