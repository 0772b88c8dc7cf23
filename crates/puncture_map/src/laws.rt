//! What holds of kept places. Its functions do nothing: what each ensures is the law.

ghost use Rattle.std.specs.Prelude.{◌≡◌, ℕ, ◌+◌, ◌*◌, ◌<◌, ◌≤◌, true, if◌then◌else◌};
ghost use Rattle.rate_table.specs.declared.CodeRate.{CodeRate};
ghost use Rattle.rate_table.specs.declared.Rate.{Rate};
ghost use Rattle.rate_table.specs.Table.{row_of};
ghost use Rattle.puncture_map.specs.Kept.{is_kept, kept_count, rank};

/// Kept places are counted place by place, and more steps have no fewer; of whole symbols, N_CBPS for each are kept
/// (own, by 18.3.2.3 and 18.3.5.6).
pub fn kept_places_are_counted()
    ensures one_more { (rate : CodeRate) (place : ℕ)
        → rank rate (place + 1) ≡ rank rate place + (if is_kept rate place then 1 else 0) }
    ensures within { (rate : CodeRate) (place steps : ℕ) → place < 2 * steps
        → is_kept rate place ≡ true
        → rank rate place < kept_count rate steps }
    ensures rises { (rate : CodeRate) (fewer steps : ℕ) → fewer ≤ steps
        → kept_count rate fewer ≤ kept_count rate steps }
    ensures whole_symbols { (rate : Rate) (symbols : ℕ)
        → kept_count (row_of rate).code_rate (symbols * (row_of rate).field_bits)
        ≡ symbols * (row_of rate).coded_bits }
{}
