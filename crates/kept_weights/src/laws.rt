//! What holds of kept weights. The functions do nothing: what each ensures is the law.

ghost use Rattle.std.specs.Prelude.{◌≡◌, ◌≢◌, ◌≤◌, ◌<◌, ◌+◌, ◌*◌, ℕ, List, [], ◌∷◌, ◌++◌, length, map, slice_index, take};
ghost use Rattle.bit_lists.specs.Bits.{AreBits};
ghost use Rattle.rate_table.specs.declared.CodeRate.{CodeRate};
ghost use Rattle.rate_table.specs.Table.{flip_bound_of};
ghost use Rattle.puncture_map.specs.Kept.{kept_count, kept_code};
ghost use Rattle.survivor_memory.specs.Costs.{cost};
ghost use Rattle.survivor_memory.specs.Nearest.{IsClosed, IsNearest};
ghost use Rattle.kept_weights.specs.Weights.{kept_weight, distance_over, least_weight};
ghost use Rattle.kept_weights.specs.Decisions.{costs_of_step, costs_of_steps, cost_of_decisions, repaired_cost};
ghost use Rattle.kept_weights.specs.Potentials.{IsPotential, potential_of};

/// Each code rate has a potential, by a table over phase and state (own).
pub fn potentials()
    ensures { (rate : CodeRate) → IsPotential rate (potential_of rate) }
{}

/// A list that ends in six zeros and has a 1 has at least the least kept weight, wherever in a period its first 1
/// stands (own).
pub fn least_kept_weight()
    ensures { (rate : CodeRate) (steps : ℕ) (u : List ℕ) → IsClosed steps u
        → (place : ℕ) → slice_index u place ≡ 1 → least_weight rate ≤ kept_weight rate u }
{}

/// So the kept codes of two such lists of one length are at least so far apart (own).
pub fn least_distance()
    ensures { (rate : CodeRate) (steps : ℕ) (u w : List ℕ) → IsClosed steps u → IsClosed steps w
        → u ≢ w
        → least_weight rate
        ≤ distance_over (kept_count rate steps) (kept_code rate u) (kept_code rate w) }
{}

/// What a list costs against the pairs of marks of decisions: the sum over its kept code, which for hard decisions is
/// the number of them that differ from it (own).
pub fn cost_over_kept_places()
    ensures sum { (rate : CodeRate) (full steps : ℕ) (decisions u : List ℕ) → length u ≡ steps
        → cost (costs_of_steps rate full decisions steps) u
        ≡ cost_of_decisions full decisions (kept_count rate steps) (kept_code rate u) }
    ensures hard { (rate : CodeRate) (steps : ℕ) (decisions u : List ℕ) → length u ≡ steps
        → AreBits decisions
        → cost (costs_of_steps rate 1 decisions steps) u
        ≡ distance_over (kept_count rate steps) (kept_code rate u) decisions }
{}

/// A list that ends in six zeros, and costs less than half of what the least kept weight can cost, is the nearest
/// list (own).
pub fn cheap_list_is_nearest()
    ensures list { (rate : CodeRate) (full steps least : ℕ) (decisions u w : List ℕ)
        → IsClosed steps w
        → 2 * cost (costs_of_steps rate full decisions steps) w < full * least_weight rate
        → IsNearest (costs_of_steps rate full decisions steps) u least → u ≡ w }
    ensures cost { (rate : CodeRate) (full steps least : ℕ) (decisions u w : List ℕ)
        → IsClosed steps w
        → 2 * cost (costs_of_steps rate full decisions steps) w < full * least_weight rate
        → IsNearest (costs_of_steps rate full decisions steps) u least
        → least ≡ cost (costs_of_steps rate full decisions steps) w }
{}

/// Flips are repaired: where at most 4 hard decisions at rate 1/2, or 2 at 2/3 and 3/4, differ from the kept code of a
/// list that ends in six zeros, it is the nearest list, and its cost is the number of those that differ (own).
pub fn flips_are_repaired()
    ensures list { (rate : CodeRate) (steps least : ℕ) (decisions u w : List ℕ) → AreBits decisions
        → IsClosed steps w
        → distance_over (kept_count rate steps) (kept_code rate w) decisions ≤ flip_bound_of rate
        → IsNearest (costs_of_steps rate 1 decisions steps) u least → u ≡ w }
    ensures distance { (rate : CodeRate) (steps least : ℕ) (decisions u w : List ℕ)
        → AreBits decisions
        → IsClosed steps w
        → distance_over (kept_count rate steps) (kept_code rate w) decisions ≤ flip_bound_of rate
        → IsNearest (costs_of_steps rate 1 decisions steps) u least
        → least ≡ distance_over (kept_count rate steps) (kept_code rate w) decisions }
{}

/// The same of soft decisions, 0 to 15, that cost at most 74, 44 or 37 against the list's kept code (own).
pub fn soft_decisions_are_repaired()
    ensures list { (rate : CodeRate) (steps least : ℕ) (decisions u w : List ℕ) → IsClosed steps w
        → cost_of_decisions 15 decisions (kept_count rate steps) (kept_code rate w)
        ≤ repaired_cost rate
        → IsNearest (costs_of_steps rate 15 decisions steps) u least → u ≡ w }
    ensures cost { (rate : CodeRate) (steps least : ℕ) (decisions u w : List ℕ) → IsClosed steps w
        → cost_of_decisions 15 decisions (kept_count rate steps) (kept_code rate w)
        ≤ repaired_cost rate
        → IsNearest (costs_of_steps rate 15 decisions steps) u least
        → least ≡ cost_of_decisions 15 decisions (kept_count rate steps) (kept_code rate w) }
{}

/// The first bits of a list's kept code are the kept code of its front, so no bit behind plays a part (own).
pub fn kept_code_of_front()
    ensures list { (rate : CodeRate) (steps : ℕ) (u : List ℕ) → steps ≤ length u
        → take (kept_count rate steps) (kept_code rate u) ≡ kept_code rate (take steps u) }
    ensures distance { (rate : CodeRate) (steps : ℕ) (u decisions : List ℕ) → steps ≤ length u
        → distance_over (kept_count rate steps) (kept_code rate u) decisions
        ≡ distance_over (kept_count rate steps) (kept_code rate (take steps u)) decisions }
{}

/// The pairs of marks of decisions are made one by one, and decisions behind the kept places play no part (own).
pub fn pairs_of_decisions()
    ensures none { (rate : CodeRate) (full : ℕ) (decisions : List ℕ)
        → costs_of_steps rate full decisions 0 ≡ [] }
    ensures one_more { (rate : CodeRate) (full steps : ℕ) (decisions : List ℕ)
        → costs_of_steps rate full decisions (steps + 1)
        ≡ costs_of_steps rate full decisions steps ++ costs_of_step rate full decisions steps ∷ [] }
    ensures first_decisions { (rate : CodeRate) (full steps : ℕ) (decisions : List ℕ)
        → costs_of_steps rate full (take (kept_count rate steps) decisions) steps
        ≡ costs_of_steps rate full decisions steps }
{}

/// Decisions that are all 0 or full cost so many times what the hard decisions 0 and 1 cost, and have the same nearest
/// list (own).
pub fn full_decisions_are_hard()
    ensures cost { (rate : CodeRate) (full steps : ℕ) (decisions u : List ℕ) → AreBits decisions
        → length u ≡ steps
        → cost (costs_of_steps rate full (map (λ decision. full * decision) decisions) steps) u
        ≡ full * cost (costs_of_steps rate 1 decisions steps) u }
    ensures nearest { (rate : CodeRate) (full steps least : ℕ) (decisions u : List ℕ)
        → AreBits decisions
        → 0 < full → IsNearest (costs_of_steps rate 1 decisions steps) u least
        → IsNearest (costs_of_steps rate full (map (λ decision. full * decision) decisions) steps)
        u (full * least) }
{}
