//! What holds of headers themselves. Its functions do nothing: what each ensures is the law.

ghost use Rattle.std.specs.Prelude.{◌≡◌, ◌%◌, ◌^◌, ◌<◌, ℕ, sum, take};
ghost use Rattle.rate_table.specs.declared.Rate.{Rate};
ghost use Rattle.signal_field.specs.Laws.{BitsSayHeader, OneReading, SomeReading};
ghost use Rattle.signal_field.specs.Signal.{header_bits_of};

/// The sum of bits 0 to 17 is even (18.3.4.4).
pub fn even_sum()
    ensures { (rate : Rate) (length reserved : ℕ)
        → sum (take 18 (header_bits_of rate length reserved)) % 2 ≡ 0 }
{}

/// The bits determine the rate, LENGTH and the reserved bit (18.3.4).
pub fn bits_determine_header()
    ensures { (rate rate' : Rate) (length length' reserved reserved' : ℕ) → length < 2 ^ 12
        → length' < 2 ^ 12
        → header_bits_of rate length reserved ≡ header_bits_of rate' length' reserved'
        → (rate ≡ rate') × (length ≡ length') × (reserved ≡ reserved') }
{}

/// The bits of a header say it (18.3.4).
pub fn bits_say_header()
    ensures { BitsSayHeader }
{}

/// Decisions are read as exactly one header or fault (own).
pub fn one_reading()
    ensures some { SomeReading }
    ensures no_other { OneReading }
{}
