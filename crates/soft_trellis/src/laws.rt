//! What holds of soft fields and of texts of values. The functions do nothing: what each ensures is the law.
ghost use Rattle.std.specs.Prelude.{◌≡◌, ◌⊎◌, ℕ, List};
ghost use Rattle.soft_trellis.specs.Laws.{FullValues, LittleCost, OneSoftField, SomeSoftField};
ghost use Rattle.soft_trellis.specs.Text.{IsBadPlace, IsTextOf};
ghost use Rattle.soft_trellis.specs.Values.{AreValues};

/// Values have one soft field (own).
pub fn one_soft_field()
    ensures some { SomeSoftField }
    ensures no_other { OneSoftField }
{}

/// Values that are all 0 or 15 have the field of these hard decisions, at 15 times its distance (own).
pub fn full_values_are_hard()
    ensures { FullValues }
{}

/// Where the kept code of a field costs little, it is the soft field (own).
pub fn little_cost()
    ensures { LittleCost }
{}

/// A text has values or a bad place, one of the two, and only one list of values or one bad place (own).
pub fn values_or_a_bad_place()
    ensures some { (text : List ℕ) → ((values : List ℕ) × (AreValues values × IsTextOf text values))
        ⊎ ((at : ℕ) × IsBadPlace text at) }
    ensures one_text { (text a b : List ℕ) → IsTextOf text a → IsTextOf text b → a ≡ b }
    ensures one_place { (text : List ℕ) (a b : ℕ) → IsBadPlace text a → IsBadPlace text b → a ≡ b }
    ensures apart { (text values : List ℕ) (at : ℕ) → AreValues values → IsTextOf text values
        → IsBadPlace text at → ⊥ }
{}
