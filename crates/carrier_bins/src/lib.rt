//! Where data and pilots stand, and the bins of carriers (IEEE Std 802.11-2012, 18.3.5.9 and 18.3.5.10). No call takes
//! memory.
#![tactic(auto)]

ghost use Rattle.std.specs.Prelude.{◌≡◌, ◌<◌, ◌≤◌, pos, neg_ℤ, ◌≤ℤ◌, unsigned_abs};
ghost use Rattle.carrier_bins.specs.Bins.{carrier_in};
ghost use Rattle.carrier_bins.specs.Carriers.{bin_of, data_carrier_of};

pub mod laws;

// The bins of the carriers of the data numbers.
static DATA_BINS: [u8; 48] = [
    38, 39, 40, 41, 42, 44, 45, 46, 47, 48, 49, 50, 51, 52, 53, 54, 55, 56, 58, 59, 60, 61, 62, 63,
    1, 2, 3, 4, 5, 6, 8, 9, 10, 11, 12, 13, 14, 15, 16, 17, 18, 19, 20, 22, 23, 24, 25, 26,
];

/// The carrier, from -26 to 26, of data number k, from 0 to 47 (IEEE Std 802.11-2012, 18.3.5.10).
pub fn data_carrier(k: usize) -> i32
    requires { k < 48 }
    ensures carrier { result ≡ data_carrier_of k }
{
    let k = k as i32;
    match k {
        0..=4 => k - 26,
        5..=17 => k - 25,
        18..=23 => k - 24,
        24..=29 => k - 23,
        30..=42 => k - 22,
        _ => k - 21,
    }
}

/// The bin of a carrier from -32 to 31: the carrier modulo 64 (own).
pub fn bin(carrier: i32) -> usize
    requires least { neg_ℤ (pos 32) ≤ℤ carrier }
    requires most { carrier ≤ℤ pos 31 }
    ensures bin { result ≡ bin_of carrier }
    ensures within { result < 64 }
{
    carrier.rem_euclid(64) as usize
}

/// The bin of the carrier of data number k, from 0 to 47 (IEEE Std 802.11-2012, 18.3.5.10; bins are own).
#[inline(always)]
pub fn data_bin(k: usize) -> usize
    requires { k < 48 }
    ensures bin { result ≡ bin_of (data_carrier_of k) }
    ensures within { result < 64 }
{
    usize::from(DATA_BINS[k])
}

/// The carrier, from -32 to 31, that stands in a bin below 64 (own).
pub fn carrier_in(bin: usize) -> i32
    requires { bin < 64 }
    ensures carrier { result ≡ carrier_in bin }
    ensures within { unsigned_abs result ≤ 32 }
{
    if bin < 32 {
        bin as i32
    } else {
        bin as i32 - 64
    }
}

#[cfg(test)]
mod tests {
    use super::*;

    #[test]
    fn carriers_beside_the_pilots(rt: HostRuntime) {
        for (k, carrier) in [(0, -26), (5, -20), (23, -1), (24, 1), (42, 20), (47, 26)] {
            assert!(rt; data_carrier(k) == carrier);
        }
        assert!(rt; bin(-26) == 38);
        assert!(rt; bin(26) == 26);
    }
}
