//! How near staged sums are to plain ones. The functions do nothing: what each ensures is the law.

ghost use Rattle.std.specs.Prelude.{ℕ, ◌*◌, ◌^◌, ◌<◌, pos};
ghost use Rattle.fixed_complex.specs.Pairs.{IsOfSize, IsWithin, minus, multiple, rounded_pair};
ghost use Rattle.fixed_complex.specs.declared.Cx.{Cx};
ghost use Rattle.butterfly64.specs.Budgets.{budget_of, down_budget_of};
ghost use Rattle.butterfly64.specs.PlainSums.{plain_down, plain_up};
ghost use Rattle.fixed_complex.specs.PairLists.{by_256};
ghost use Rattle.butterfly64.specs.StagedSums.{down_at, up_at};

/// 2^20 times the staged sums `up` are near the plain sums: where no pair is larger than a size, the difference is
/// at most the budget of six joins of that size (own).
pub fn rounding_of_up()
    ensures { (size : ℕ) (x : ℕ → Cx) → ((c : ℕ) → IsOfSize size (x c)) → (n : ℕ) → n < 64
        → IsOfSize (budget_of 6 size)
        (minus (multiple (pos (2 ^ 20)) (up_at 6 x n)) (plain_up x n)) }
{}

/// 2^20 times the staged sums `down` are near the plain sums: where no pair is larger than a size, the difference is
/// at most the budget of six stages of that size (own).
pub fn rounding_of_down()
    ensures { (size : ℕ) (x : ℕ → Cx) → ((n : ℕ) → IsOfSize size (x n)) → (c : ℕ) → c < 64
        → IsOfSize (down_budget_of 6 size)
        (minus (multiple (pos (2 ^ 20)) (down_at 6 x c)) (plain_down x c)) }
{}

/// A sent sample, the staged sum `up` of carriers times 256, over 512 and rounded half up, is within 1 of half the sum
/// of the carriers, in each component, where no component of a carrier is larger than 954 (own).
pub fn sent_samples()
    ensures { (x : ℕ → Cx) → ((c : ℕ) → IsWithin 954 (x c)) → (n : ℕ) → n < 64 → IsWithin (2 ^ 21)
        (minus (multiple (pos (2 ^ 21)) (rounded_pair 9 (up_at 6 (by_256 x) n))) (plain_up x n)) }
{}

/// A received carrier, the staged sum `down` of samples times 256, over 256 and rounded half up, is within 40 of the
/// plain sum of the samples over 2^20, in each component, and at most 2^22 in size, for all samples of 16 bits (own).
pub fn received_carriers()
    ensures near { (r : ℕ → Cx) → ((n : ℕ) → IsWithin (2 ^ 15) (r n)) → (c : ℕ) → c < 64
        → IsWithin (40 * 2 ^ 20)
        (minus (multiple (pos (2 ^ 20)) (rounded_pair 8 (down_at 6 (by_256 r) c)))
        (plain_down r c)) }
    ensures size { (r : ℕ → Cx) → ((n : ℕ) → IsWithin (2 ^ 15) (r n)) → (c : ℕ) → c < 64
        → IsOfSize (2 ^ 22) (rounded_pair 8 (down_at 6 (by_256 r) c)) }
{}

/// The plain sum `down` of the plain sum `up` gives each carrier back, times 2^46, which is 32 carriers times 2^41, to
/// within 9 times 2^41 in each component, where no component of a carrier is larger than 954 (own).
pub fn plain_sums_undone()
    ensures { (x : ℕ → Cx) → ((c : ℕ) → IsWithin 954 (x c)) → (c : ℕ) → c < 64
        → IsWithin (9 * 2 ^ 41)
        (minus (plain_down (plain_up x) c) (multiple (pos (2 ^ 46)) (x c))) }
{}
