//! What holds of nearest lists and of survivor memories. Its functions do nothing: what each ensures is the law.
ghost use Rattle.std.specs.Prelude.{◌≡◌, ℕ, ◌*◌, ◌≤◌, List, length};
ghost use Rattle.survivor_memory.specs.declared.PairCosts.{PairCosts};
ghost use Rattle.survivor_memory.specs.Costs.{CostAtMost};
ghost use Rattle.survivor_memory.specs.Nearest.{IsNearest, IsNearestBy};
ghost use Rattle.survivor_memory.specs.Survivors.{DifferByAtMost, Holds, MemoryView};

/// Pairs have at most one nearest list, and one least cost (own).
pub fn one_nearest()
    ensures { (pairs : List PairCosts) (u v : List ℕ) (d e : ℕ) → IsNearest pairs u d
        → IsNearest pairs v e
        → (u ≡ v) × (d ≡ e) }
{}

/// Among the lists of so many bits, at least 6, that end in six zeros there is a nearest by any measure (own).
pub fn some_nearest()
    ensures { (measure : List ℕ → ℕ) (count : ℕ) → 6 ≤ count
        → (u : List ℕ) × ((least : ℕ) × IsNearestBy measure count u least) }
{}

/// Once six pairs are held, the entries of any two states differ by at most what six pairs can cost (own).
pub fn entries_differ()
    ensures { (most : ℕ) (memory : MemoryView) (pairs : List PairCosts) (bound : ℕ)
        → Holds most memory pairs → CostAtMost bound pairs
        → 6 ≤ length pairs → DifferByAtMost (6 * bound) memory.entries }
{}
