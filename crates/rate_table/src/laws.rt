//! What holds of the rates. Its functions do nothing: what each ensures is the law.

ghost use Rattle.std.specs.Prelude.{◌≡◌, ◌*◌, ◌<◌, ◌^◌, ℕ};
ghost use Rattle.rate_table.specs.Table.{bits_of_modulation, flip_bound_of, rate_at, row_of};
ghost use Rattle.rate_table.specs.declared.Rate.{Rate};

/// Each rate is among the eight of the table (own).
pub fn each_rate()
    ensures { (rate : Rate) → (index : ℕ) × ((index < 8) × (rate_at index ≡ rate)) }
{}

/// No two rates have one number of megabits a second (18.3.2.3).
pub fn one_rate_by_mbps()
    ensures { (rate other : Rate) → (row_of rate).mbps ≡ (row_of other).mbps → rate ≡ other }
{}

/// No two rates have one RATE pattern, and a pattern's number has four bits (18.3.4.2).
pub fn one_rate_by_pattern()
    ensures one { (rate other : Rate) → (row_of rate).pattern ≡ (row_of other).pattern
        → rate ≡ other }
    ensures four_bits { (rate : Rate) → (row_of rate).pattern < 2 ^ 4 }
{}

/// N_CBPS is 48 times N_BPSC of the modulation (18.3.2.3), and the bound of flips is that of the code rate (own).
pub fn columns_of_a_rate()
    ensures coded_bits { (rate : Rate)
        → (row_of rate).coded_bits ≡ 48 * bits_of_modulation (row_of rate).modulation }
    ensures flip_bound { (rate : Rate)
        → (row_of rate).flip_bound ≡ flip_bound_of (row_of rate).code_rate }
{}
