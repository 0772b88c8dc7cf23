//! Counts over slices of bytes, in lanes over whole chunks and with a plain loop for the rest (own). No call takes
//! memory.
#![tactic(auto)]

ghost use Rattle.std.specs.Prelude.{◌≡◌, ◌*◌, ◌/◌, ◌^◌, ◌≤◌, length, take};
ghost use Rattle.byte_lanes.specs.Differences.{differences_of};

use std::simd::prelude::*;

/// How many places of two equally long slices of at most 2^24 bytes differ (own).
pub fn differences(a: &[u8], b: &[u8]) -> usize
    requires short { length a.now ≤ 2 ^ 24 }
    requires long { length a.now ≡ length b.now }
    ensures count { result ≡ differences_of a.now b.now }
    ensures at_most { result ≤ length a.now }
{
    let mut differences = lane_differences(a, b);
    for n in a.len() / 16 * 16..a.len() {
        if a[n] != b[n] {
            differences += 1;
        }
    }
    differences
}

// How many places of the whole chunks differ.
fn lane_differences(a: &[u8], b: &[u8]) -> usize
    requires short { length a.now ≤ 2 ^ 24 }
    requires long { length a.now ≡ length b.now }
    ensures count { result
        ≡ differences_of (take (length a.now / 16 * 16) a.now)
        (take (length a.now / 16 * 16) b.now) }
    ensures within { result ≤ length a.now / 16 * 16 }
{
    let mut differences = 0;
    for k in 0..a.len() / 16 {
        differences += differing(&a[16 * k..16 * k + 16], &b[16 * k..16 * k + 16]) as usize;
    }
    differences
}

// How many of sixteen places differ.
#[inline(always)]
fn differing(a: &[u8], b: &[u8]) -> u32
    requires a { length a.now ≡ 16 }
    requires b { length b.now ≡ 16 }
    ensures count { result ≡ differences_of a.now b.now }
    ensures within { result ≤ 16 }
{
    u8x16::from_slice(a)
        .simd_ne(u8x16::from_slice(b))
        .to_bitmask()
        .count_ones()
}

#[cfg(test)]
mod tests {
    use super::*;

    // Bytes from 0 to 3, by a generator of pseudo-random numbers.
    fn bytes(seed: u64) -> [u8; 67] {
        let mut bytes = [0; 67];
        let mut state = seed;
        for n in 0..67 {
            state = state
                .wrapping_mul(6364136223846793005)
                .wrapping_add(1442695040888963407);
            bytes[n] = ((state >> 40) % 4) as u8;
        }
        bytes
    }

    fn plain_differences(a: &[u8], b: &[u8]) -> usize {
        let mut differences = 0usize;
        for (x, y) in a.iter().zip(b) {
            if x != y {
                differences = differences.wrapping_add(1);
            }
        }
        differences
    }

    #[test]
    fn differences_of_each_length(rt: HostRuntime) {
        let (a, b) = (bytes(5), bytes(6));
        for n in 0..68 {
            assert!(rt; differences(&a[..n], &b[..n]) == plain_differences(&a[..n], &b[..n]));
        }
    }
}
