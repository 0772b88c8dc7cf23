//! What holds of the turns and of the sizes of pairs. The functions do nothing: what each ensures is the law.

ghost use Rattle.std.specs.Prelude.{◌≡◌, ◌≢◌, ℕ, ◌+◌, ◌*◌, ◌^◌, ◌%◌, ◌≤◌, pos, unsigned_abs};
ghost use Rattle.fixed_complex.specs.Laws.{sum_below};
ghost use Rattle.fixed_complex.specs.Pairs.{IsOfSize, IsWithin, conjugate, minus, multiple, plus, scaled_product, times, zero_pair};
ghost use Rattle.fixed_complex.specs.declared.Cx.{Cx};
ghost use Rattle.fixed_complex.specs.Turns.{turn_at};

/// A whole turn changes nothing, a half turn changes the sign, a quarter turn is the product with (0, 1) (own).
pub fn whole_half_and_quarter_turns()
    ensures whole { (m : ℕ) → turn_at (m + 64) ≡ turn_at m }
    ensures half { (m : ℕ) → turn_at (m + 32) ≡ minus zero_pair (turn_at m) }
    ensures quarter { (m : ℕ)
        → turn_at (m + 16) ≡ times (turn_at m) (record { re = pos 0; im = pos 1 }) }
{}

/// The sum of T[d*n] over n from 0 to 63 is 0 unless 64 divides d (own).
pub fn sum_over_a_turn()
    ensures { (d : ℕ) → d % 64 ≢ 0 → sum_below 64 (λ n. turn_at (d * n)) ≡ zero_pair }
{}

/// T[a]*T[b] is near 2^20*T[a+b]: each component of the difference is at most 2^21 in size, and as a size the
/// difference is at most 1387885 (own).
pub fn product_of_turns()
    ensures within { (a b : ℕ) → IsWithin (2 ^ 21)
        (minus (times (turn_at a) (turn_at b)) (multiple (pos (2 ^ 20)) (turn_at (a + b)))) }
    ensures size { (a b : ℕ) → IsOfSize 1387885
        (minus (times (turn_at a) (turn_at b)) (multiple (pos (2 ^ 20)) (turn_at (a + b)))) }
{}

/// A turn's components are at most 2^20 in size, and their sizes sum to at most 1482910; as a size a turn is at most
/// 1048577 (own).
pub fn size_of_a_turn()
    ensures within { (m : ℕ) → IsWithin (2 ^ 20) (turn_at m) }
    ensures sum { (m : ℕ) → unsigned_abs (turn_at m).re + unsigned_abs (turn_at m).im ≤ 1482910 }
    ensures size { (m : ℕ) → IsOfSize 1048577 (turn_at m) }
{}

/// The size of a sum or a difference is at most the sum of the sizes, that of a product the product of the sizes; a
/// component is at most the size. Components of at most a give a size of at most c where 2 * a^2 is at most c^2; a
/// larger bound is a bound, too (own).
pub fn sizes_of_pairs()
    ensures sum { (a b : ℕ) (x y : Cx) → IsOfSize a x → IsOfSize b y → IsOfSize (a + b) (plus x y) }
    ensures difference { (a b : ℕ) (x y : Cx) → IsOfSize a x → IsOfSize b y
        → IsOfSize (a + b) (minus x y) }
    ensures product { (a b : ℕ) (x y : Cx) → IsOfSize a x → IsOfSize b y
        → IsOfSize (a * b) (times x y) }
    ensures conjugate { (a : ℕ) (x : Cx) → IsOfSize a x → IsOfSize a (conjugate x) }
    ensures component { (a : ℕ) (x : Cx) → IsOfSize a x → IsWithin a x }
    ensures components { (a c : ℕ) (x : Cx) → 2 * (a * a) ≤ c * c → IsWithin a x → IsOfSize c x }
    ensures monotone { (a b : ℕ) (x : Cx) → a ≤ b → IsOfSize a x → IsOfSize b x }
{}

/// 2^20 times the rounded product over 2^20 is within half of 2^20 of the product, in each component (own).
pub fn rounding_of_products()
    ensures { (w z : Cx)
        → IsWithin (2 ^ 19) (minus (multiple (pos (2 ^ 20)) (scaled_product w z)) (times w z)) }
{}
