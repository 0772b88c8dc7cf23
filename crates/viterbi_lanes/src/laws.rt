//! What holds of distances, of nearest lists and of the marks of decisions. The functions do nothing: what each ensures
//! is the law.
ghost use Rattle.std.specs.Prelude.{◌≡◌, ℕ, ◌+◌, ◌*◌, ◌≤◌, List, [], ◌∷◌, ◌++◌, length, map, take};
ghost use Rattle.bit_lists.specs.Bits.{AreBits};
ghost use Rattle.rate_table.specs.declared.CodeRate.{CodeRate};
ghost use Rattle.rate_table.specs.declared.Rate.{Rate};
ghost use Rattle.rate_table.specs.Table.{row_of};
ghost use Rattle.puncture_map.specs.Kept.{kept_count};
ghost use Rattle.survivor_memory.specs.Costs.{cost};
ghost use Rattle.survivor_memory.specs.Nearest.{IsNearest};
ghost use Rattle.kept_weights.specs.Decisions.{costs_of_steps};
ghost use Rattle.viterbi_lanes.specs.declared.Mark.{Mark};
ghost use Rattle.viterbi_lanes.specs.Decisions.{AreNearlyKeptCode, changes, marks_at, marks_of};
ghost use Rattle.viterbi_lanes.specs.Marks.{IsNearestTo, costs_of, distance};

pub use kept_weights::laws::{least_kept_weight, potentials};

/// The distance of a list of bits to as many pairs of marks is its cost, and the nearest list is the nearest by cost
/// (own).
pub fn distance_is_cost()
    ensures distance { (marks : List (Mark × Mark)) (u : List ℕ) → length u ≡ length marks
        → distance marks u ≡ cost (map costs_of marks) u }
    ensures nearest { (marks : List (Mark × Mark)) (u : List ℕ) (least : ℕ)
        → IsNearest (map costs_of marks) u least
        → IsNearestTo marks u least }
{}

/// Pairs of marks have at most one nearest list, and one least distance (own).
pub fn one_nearest()
    ensures { (marks : List (Mark × Mark)) (u v : List ℕ) (d e : ℕ) → IsNearestTo marks u d
        → IsNearestTo marks v e
        → (u ≡ v) × (d ≡ e) }
{}

/// To at least six pairs of marks there is a nearest list (own).
pub fn some_nearest()
    ensures { (marks : List (Mark × Mark)) → 6 ≤ length marks
        → (u : List ℕ) × ((least : ℕ) × IsNearestTo marks u least) }
{}

/// The pairs of marks of decisions are made step by step, decisions behind the kept places play no part, and a list's
/// distance to the marks is the number of decisions that differ from its kept code (own).
pub fn marks_of_decisions()
    ensures none { (rate : CodeRate) (decisions : List ℕ) → marks_of rate decisions 0 ≡ [] }
    ensures one_more { (rate : CodeRate) (decisions : List ℕ) (steps : ℕ)
        → marks_of rate decisions (steps + 1)
        ≡ marks_of rate decisions steps ++ marks_at rate decisions steps ∷ [] }
    ensures first_decisions { (rate : CodeRate) (decisions : List ℕ) (steps : ℕ)
        → marks_of rate (take (kept_count rate steps) decisions) steps
        ≡ marks_of rate decisions steps }
    ensures costs { (rate : CodeRate) (decisions : List ℕ) (steps : ℕ) → AreBits decisions
        → map costs_of (marks_of rate decisions steps) ≡ costs_of_steps rate 1 decisions steps }
    ensures distance { (rate : CodeRate) (u decisions : List ℕ) (steps : ℕ) → AreBits decisions
        → length u ≡ steps
        → distance (marks_of rate decisions steps) u ≡ changes rate steps u decisions }
{}

/// The marks of whole symbols and of some steps more are those of either behind one another, since puncturing runs
/// through the field and a symbol's steps are whole periods (own, by 18.3.2.3 and 18.3.5.6).
pub fn marks_of_symbols()
    ensures { (rate : Rate) (before symbol : List ℕ) (symbols steps : ℕ)
        → length before ≡ symbols * (row_of rate).coded_bits
        → marks_of (row_of rate).code_rate (before ++ symbol)
        (symbols * (row_of rate).field_bits + steps)
        ≡ marks_of (row_of rate).code_rate before (symbols * (row_of rate).field_bits)
        ++ marks_of (row_of rate).code_rate symbol steps }
{}

/// The kept code of a list that ends in six zeros, with as few changes as are repaired, has that list as the nearest, and
/// the number of changes as its distance (own).
pub fn few_changes_are_repaired()
    ensures { (rate : CodeRate) (steps : ℕ) (u decisions : List ℕ) → 6 ≤ steps
        → AreNearlyKeptCode rate steps u decisions
        → IsNearestTo (marks_of rate decisions steps) u (changes rate steps u decisions) }
{}
