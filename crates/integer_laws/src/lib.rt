//! Laws of whole numbers (own). Its functions do nothing: what each ensures is the law. Proof files of the crates above
//! cite the lemmas in `proofs/`, and for identities of sums and products the ring law in `proofs/Ring.antt`: two
//! expressions with the same normal form are equal.
#![tactic(auto)]

ghost use Rattle.std.specs.Prelude.{◌≡◌, ℕ, ◌+◌, ◌*◌, ◌<◌, ◌≤◌, ◌↔◌, ℤ, pos, ◌+ℤ◌, ◌-ℤ◌, ◌*ℤ◌, neg_ℤ, ◌≤ℤ◌, ◌<ℤ◌, unsigned_abs};
ghost use Rattle.integer_laws.specs.Floor.{floor_div};
ghost use Rattle.integer_laws.specs.Size.{sum_of_squares};

/// Products regroup, and distribute over sums, differences and negations (own).
pub fn laws_of_products()
    ensures regroups { (a b c : ℤ) → (a *ℤ b) *ℤ c ≡ a *ℤ (b *ℤ c) }
    ensures swaps { (a b : ℤ) → a *ℤ b ≡ b *ℤ a }
    ensures with_sum { (a b c : ℤ) → a *ℤ (b +ℤ c) ≡ a *ℤ b +ℤ a *ℤ c }
    ensures with_difference { (a b c : ℤ) → a *ℤ (b -ℤ c) ≡ a *ℤ b -ℤ a *ℤ c }
    ensures with_negation { (a b : ℤ) → a *ℤ neg_ℤ b ≡ neg_ℤ (a *ℤ b) }
{}

/// Squares are not negative, and those within the square of b are those of the numbers of size at most b (own).
pub fn squares_of_numbers()
    ensures not_negative { (x : ℤ) → pos 0 ≤ℤ (x *ℤ x) }
    ensures within { (x : ℤ) (b : ℕ) → ((x *ℤ x) ≤ℤ pos (b * b)) ↔ (unsigned_abs x ≤ b) }
{}

/// The square of a sum of two products is at most the product of the sums of squares: Cauchy's inequality. So where
/// both pairs are bounded in size, the sum of the products is at most the product of the bounds (own).
pub fn cauchy()
    ensures squares { (x y u v : ℤ)
        → ((x *ℤ u +ℤ y *ℤ v) *ℤ (x *ℤ u +ℤ y *ℤ v)) ≤ℤ (sum_of_squares x y *ℤ sum_of_squares u v) }
    ensures sizes { (x y u v : ℤ) (a b : ℕ) → sum_of_squares x y ≤ℤ pos (a * a)
        → sum_of_squares u v ≤ℤ pos (b * b) → unsigned_abs (x *ℤ u +ℤ y *ℤ v) ≤ a * b }
{}

/// The size of a sum or difference of two pairs is at most the sum of their sizes: the triangle inequality (own).
pub fn triangle()
    ensures sum { (x y u v : ℤ) (a b : ℕ) → sum_of_squares x y ≤ℤ pos (a * a)
        → sum_of_squares u v ≤ℤ pos (b * b)
        → sum_of_squares (x +ℤ u) (y +ℤ v) ≤ℤ pos ((a + b) * (a + b)) }
    ensures difference { (x y u v : ℤ) (a b : ℕ) → sum_of_squares x y ≤ℤ pos (a * a)
        → sum_of_squares u v ≤ℤ pos (b * b)
        → sum_of_squares (x -ℤ u) (y -ℤ v) ≤ℤ pos ((a + b) * (a + b)) }
{}

/// The size of the complex product of two pairs, or of one with the conjugate of the other, is at most the product of
/// their sizes; that of a pair times a number is at most the product with the number's size (own).
pub fn product_of_sizes()
    ensures squares { (x y u v : ℤ) → sum_of_squares (x *ℤ u -ℤ y *ℤ v) (x *ℤ v +ℤ y *ℤ u)
        ≡ sum_of_squares x y *ℤ sum_of_squares u v }
    ensures product { (x y u v : ℤ) (a b : ℕ) → sum_of_squares x y ≤ℤ pos (a * a)
        → sum_of_squares u v ≤ℤ pos (b * b)
        → sum_of_squares (x *ℤ u -ℤ y *ℤ v) (x *ℤ v +ℤ y *ℤ u) ≤ℤ pos (a * b * (a * b)) }
    ensures with_conjugate { (x y u v : ℤ) (a b : ℕ) → sum_of_squares x y ≤ℤ pos (a * a)
        → sum_of_squares u v ≤ℤ pos (b * b)
        → sum_of_squares (x *ℤ u +ℤ y *ℤ v) (y *ℤ u -ℤ x *ℤ v) ≤ℤ pos (a * b * (a * b)) }
    ensures with_number { (k x y : ℤ) (m a : ℕ) → unsigned_abs k ≤ m
        → sum_of_squares x y ≤ℤ pos (a * a)
        → sum_of_squares (k *ℤ x) (k *ℤ y) ≤ℤ pos (m * a * (m * a)) }
{}

/// Each number of a pair is at most as large as the pair, and bounds on both bound the pair; a larger bound is a bound,
/// too (own).
pub fn size_of_a_pair()
    ensures first { (x y : ℤ) (a : ℕ) → sum_of_squares x y ≤ℤ pos (a * a) → unsigned_abs x ≤ a }
    ensures second { (x y : ℤ) (a : ℕ) → sum_of_squares x y ≤ℤ pos (a * a) → unsigned_abs y ≤ a }
    ensures bounded { (x y : ℤ) (a b c : ℕ) → unsigned_abs x ≤ a → unsigned_abs y ≤ b
        → a * a + b * b ≤ c * c
        → sum_of_squares x y ≤ℤ pos (c * c) }
    ensures monotone { (x y : ℤ) (a b : ℕ) → a ≤ b → sum_of_squares x y ≤ℤ pos (a * a)
        → sum_of_squares x y ≤ℤ pos (b * b) }
{}

/// The floor of z over n, for n above 0: the one number q with q * n <= z < (q + 1) * n. It grows with z, and a
/// multiple of n comes out of it (own).
pub fn floor_division()
    ensures lower { (z : ℤ) (n : ℕ) → 0 < n → (floor_div z n *ℤ pos n) ≤ℤ z }
    ensures upper { (z : ℤ) (n : ℕ) → 0 < n → z <ℤ ((floor_div z n +ℤ pos 1) *ℤ pos n) }
    ensures only { (z q : ℤ) (n : ℕ) → 0 < n → (q *ℤ pos n) ≤ℤ z → z <ℤ ((q +ℤ pos 1) *ℤ pos n)
        → q ≡ floor_div z n }
    ensures monotone { (y z : ℤ) (n : ℕ) → 0 < n → y ≤ℤ z → floor_div y n ≤ℤ floor_div z n }
    ensures multiple { (z q : ℤ) (n : ℕ) → 0 < n
        → floor_div (z +ℤ q *ℤ pos n) n ≡ floor_div z n +ℤ q }
{}

/// Half of the divisor added before, the floor is a nearest number: the divisor times it is within half of the divisor
/// of what was rounded. It is at most b in size where what was rounded is at most the divisor times b (own).
pub fn rounding()
    ensures nearest { (p : ℤ) (half : ℕ) → 0 < half
        → unsigned_abs (pos (2 * half) *ℤ floor_div (p +ℤ pos half) (2 * half) -ℤ p) ≤ half }
    ensures within { (p : ℤ) (half b : ℕ) → 0 < half → unsigned_abs p ≤ 2 * half * b
        → unsigned_abs (floor_div (p +ℤ pos half) (2 * half)) ≤ b }
{}
