ghost use Rattle.std.specs.Prelude.{◌≡◌, ◌≤◌, length};
ghost use Rattle.survivor_memory.specs.Costs.{IsLight};

use crate::{BranchCosts, PairCosts, SurvivorMemory};
use std::test::Fail;

// What a pair costs whose marks are two numbers from 0 to 15: the number at the bit 0, and the rest to 15 at the bit 1.
fn costs_of(first: u8, second: u8) -> PairCosts
    ensures { IsLight result }
{
    let first = first.min(15);
    let second = second.min(15);
    PairCosts {
        first_zero: first,
        first_one: 15 - first,
        second_zero: second,
        second_one: 15 - second,
    }
}

// The nearest list to pairs of such marks, and its cost.
fn nearest(memory: &mut SurvivorMemory, pairs: &[(u8, u8)], out: &mut [u8]) -> u32
    requires empty { length memory.old.rows ≡ 0 }
    requires enough { 6 ≤ length pairs.now }
    requires room { length pairs.now ≤ memory.old.room }
    requires places { length out.old ≡ length pairs.now }
    ensures empty { length memory.new.rows ≡ 0 }
    ensures room { memory.new.room ≡ memory.old.room }
{
    for (first, second) in pairs {
        memory.step(&BranchCosts::of(costs_of(*first, *second)), 30);
    }
    memory.finish(out)
}

// Marks of twelve pairs, their nearest list, and its cost, by a search of all lists. In the last row eight
// lists have that cost.
#[test]
fn nearest_of_all_lists(rt: HostRuntime) -> Result<(), Fail> {
    let cases = [
        (
            [
                (1, 12),
                (14, 5),
                (0, 2),
                (1, 1),
                (6, 7),
                (0, 14),
                (10, 14),
                (6, 7),
                (9, 15),
                (0, 2),
                (14, 8),
                (13, 2),
            ],
            [0, 0, 0, 0, 0, 1, 0, 0, 0, 0, 0, 0],
            125,
        ),
        (
            [
                (8, 10),
                (7, 9),
                (0, 2),
                (3, 12),
                (3, 9),
                (12, 2),
                (0, 0),
                (6, 6),
                (1, 15),
                (12, 12),
                (13, 2),
                (6, 8),
            ],
            [1, 0, 1, 1, 0, 0, 0, 0, 0, 0, 0, 0],
            110,
        ),
        (
            [
                (15, 15),
                (15, 0),
                (0, 0),
                (15, 15),
                (0, 15),
                (0, 15),
                (0, 15),
                (15, 0),
                (0, 0),
                (0, 0),
                (0, 0),
                (15, 0),
            ],
            [1, 1, 0, 0, 0, 0, 0, 0, 0, 0, 0, 0],
            120,
        ),
    ];
    let mut memory = SurvivorMemory::open(rt.alloc(), 12)?;
    for (pairs, list, cost) in cases {
        let mut out = [0; 12];
        assert_eq!(rt; nearest(&mut memory, &pairs, &mut out), cost);
        assert_eq!(rt; out, list);
    }
    assert_eq!(rt; memory.held(), 0);
    assert_eq!(rt; memory.room(), 12);
    Ok(())
}

// Six pairs that cost nothing, and seven of which the first is dropped by `start`.
#[test]
fn pairs_without_a_cost(rt: HostRuntime) -> Result<(), Fail> {
    let free = PairCosts {
        first_zero: 0,
        first_one: 0,
        second_zero: 0,
        second_one: 0,
    };
    let mut memory = SurvivorMemory::open(rt.alloc(), 6)?;
    memory.step(&BranchCosts::of(costs_of(15, 15)), 30);
    memory.start();
    for costs in [free; 6] {
        memory.step(&BranchCosts::of(costs), 30);
    }
    let mut out = [1; 6];
    assert_eq!(rt; memory.finish(&mut out), 0);
    assert_eq!(rt; out, [0; 6]);
    Ok(())
}
