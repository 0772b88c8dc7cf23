//! What holds of the bins, the pilots, the points and the samples of a symbol. The functions do nothing: what each
//! ensures is the law.

ghost use Rattle.std.specs.Prelude.{◌≡◌, ◌≢◌, ℕ, ◌*◌, ◌<◌, ◌≤◌, ◌==◌, ◌||◌, List, length, IsTrue, slice_index_or, ℤ, pos, unsigned_abs, if◌then◌else◌};
ghost use Rattle.bit_lists.specs.Bits.{AreBits};
ghost use Rattle.fixed_complex.specs.PairLists.{PairsWithin};
ghost use Rattle.fixed_complex.specs.declared.Cx.{Cx};
ghost use Rattle.fixed_complex.specs.Pairs.{zero_pair};
ghost use Rattle.carrier_bins.specs.Carriers.{bin_of, carries_data, data_carrier_of};
ghost use Rattle.rate_table.specs.Table.{bits_of_modulation};
ghost use Rattle.rate_table.specs.declared.Modulation.{Modulation};
ghost use Rattle.carrier_bins.specs.Bins.{carrier_in};
ghost use Rattle.fixed_complex.specs.Samples.{SamplesWithin};
ghost use Rattle.plain_waves.specs.Nearness.{AreNearPlain};
ghost use Rattle.symbol_builder.specs.Carriers.{pilot_at, pilot_sign_of, plain_symbol, sent_symbol, symbol_bin};
ghost use Rattle.symbol_builder.specs.Points.{points_of};

pub use carrier_bins::laws::carriers_and_bins;

/// A pilot's sign has size 1 on the carriers -21, -7, 7 and 21 and is 0 on all others, so it is 0 on every carrier with
/// data (IEEE Std 802.11-2012, 18.3.5.9).
pub fn carriers_of_pilots()
    ensures signs { (carrier : ℤ) → unsigned_abs (pilot_sign_of carrier)
        ≡ (if unsigned_abs carrier == 7 || unsigned_abs carrier == 21 then 1 else 0) }
    ensures apart { (carrier : ℤ) → IsTrue (carries_data carrier) → pilot_sign_of carrier ≡ pos 0 }
{}

/// The bin of a data number's carrier has its point, and every other bin what its carrier carries as a pilot
/// (IEEE Std 802.11-2012, 18.3.5.10).
pub fn bins_of_a_symbol()
    ensures data { (points : List Cx) (n k : ℕ) → k < 48
        → symbol_bin points n (bin_of (data_carrier_of k)) ≡ slice_index_or points k zero_pair }
    ensures others { (points : List Cx) (n bin : ℕ) → bin < 64
        → ((k : ℕ) → k < 48 → bin_of (data_carrier_of k) ≢ bin)
        → symbol_bin points n bin ≡ pilot_at n (carrier_in bin) }
{}

/// No component of the points of a symbol's bits is larger than 700 in size (own).
pub fn sizes_of_points()
    ensures { (modulation : Modulation) (bits : List ℕ) → AreBits bits
        → 48 * bits_of_modulation modulation ≤ length bits
        → PairsWithin 700 (points_of modulation bits) }
{}

/// The sent samples of symbol n, of any points with components of at most 700, are within 1 of the plain ones, and no
/// component is larger than 25057 in size (own).
pub fn sent_symbols()
    ensures near { (points : List Cx) (n : ℕ) → PairsWithin 700 points
        → AreNearPlain 1 (sent_symbol points n) (plain_symbol points n) }
    ensures within { (points : List Cx) (n : ℕ) → PairsWithin 700 points
        → SamplesWithin 25057 (sent_symbol points n) }
{}
