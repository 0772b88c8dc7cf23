//! What holds of carriers and bins. The functions do nothing: what each ensures is the law.

ghost use Rattle.std.specs.Prelude.{◌≡◌, ℕ, ◌<◌, IsTrue, ℤ, pos, neg_ℤ, ◌≤ℤ◌};
ghost use Rattle.carrier_bins.specs.Bins.{carrier_in};
ghost use Rattle.carrier_bins.specs.Carriers.{bin_of, carries_data, data_carrier_of};

/// Each data number has a carrier of its own, from -26 to 26, that is neither 0 nor a pilot
/// (IEEE Std 802.11-2012, 18.3.5.10).
pub fn carriers_of_data()
    ensures least { (k : ℕ) → k < 48 → neg_ℤ (pos 26) ≤ℤ data_carrier_of k }
    ensures most { (k : ℕ) → k < 48 → data_carrier_of k ≤ℤ pos 26 }
    ensures data { (k : ℕ) → k < 48 → IsTrue (carries_data (data_carrier_of k)) }
    ensures distinct { (j k : ℕ) → j < 48 → k < 48 → data_carrier_of j ≡ data_carrier_of k → j ≡ k }
{}

/// Each carrier from -32 to 31 has a bin of its own, below 64 (own).
pub fn bins_of_carriers()
    ensures within { (carrier : ℤ) → neg_ℤ (pos 32) ≤ℤ carrier → carrier ≤ℤ pos 31
        → bin_of carrier < 64 }
    ensures distinct { (a b : ℤ) → neg_ℤ (pos 32) ≤ℤ a → a ≤ℤ pos 31 → neg_ℤ (pos 32) ≤ℤ b
        → b ≤ℤ pos 31
        → bin_of a ≡ bin_of b → a ≡ b }
{}

/// The bin of the carrier in a bin is that bin, and the carrier in the bin of a carrier is that carrier, for the bins
/// below 64 and the carriers from -32 to 31 (own).
pub fn carriers_and_bins()
    ensures bin { (bin : ℕ) → bin < 64 → bin_of (carrier_in bin) ≡ bin }
    ensures carrier { (carrier : ℤ) → neg_ℤ (pos 32) ≤ℤ carrier → carrier ≤ℤ pos 31
        → carrier_in (bin_of carrier) ≡ carrier }
{}
