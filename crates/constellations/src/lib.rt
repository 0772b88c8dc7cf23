//! The points of the four modulations, and the decisions back to bits (IEEE Std 802.11-2012, 18.3.5.8). No call takes
//! memory.
#![tactic(auto)]

ghost use Rattle.std.specs.Prelude.{◌≡◌, ℕ, ◌+◌, ◌-◌, ◌*◌, ◌^◌, ◌<◌, ◌≤◌, length, ℤ, pos, ◌≤ℤ◌, int_le, slice_index, unsigned_abs, if◌then◌else◌};
ghost use Rattle.fixed_complex.specs.declared.Cx.{Cx};
ghost use Rattle.bit_lists.specs.Bits.{AreBits};
ghost use Rattle.fixed_complex.specs.Pairs.{IsWithin};
ghost use Rattle.rate_table.specs.Table.{bits_of_modulation};
ghost use Rattle.constellations.specs.Axes.{axis_of, axis_width, gray_bit};
ghost use Rattle.constellations.specs.Decisions.{decided, lies_above, thresholds, thresholds_below};
ghost use Rattle.constellations.specs.Points.{point_of};
ghost use Rattle.rate_table.specs.Table.{bits_of_modulation};

use fixed_complex::Cx;
use rate_table::Modulation;

pub mod laws;

pub use carrier_bins::{bin, data_carrier};

/// The point of the first N_BPSC bits, each entry 0 or 1; the entries behind them play no part (IEEE Std 802.11-2012,
/// 18.3.5.8; the amplitudes are own).
pub fn point(modulation: Modulation, bits: &[u8; 6]) -> Cx
    requires { AreBits bits.now }
    ensures point { result ≡ point_of modulation bits.now }
    ensures within { IsWithin 700 result }
{
    carrier_point(modulation, bits)
}

/// The same of as many bits as a carrier has, N_BPSC of them, or more, each 0 or 1 (IEEE Std 802.11-2012, 18.3.5.8; the
/// amplitudes are own).
pub fn carrier_point(modulation: Modulation, bits: &[u8]) -> Cx
    requires bits { AreBits bits.now }
    requires enough { bits_of_modulation modulation ≤ length bits.now }
    ensures point { result ≡ point_of modulation bits.now }
    ensures within { IsWithin 700 result }
{
    match modulation {
        Modulation::Bpsk => Cx {
            re: axis(modulation, &bits[..1]),
            im: 0,
        },
        Modulation::Qpsk => Cx {
            re: axis(modulation, &bits[..1]),
            im: axis(modulation, &bits[1..2]),
        },
        Modulation::Qam16 => Cx {
            re: axis(modulation, &bits[..2]),
            im: axis(modulation, &bits[2..4]),
        },
        Modulation::Qam64 => Cx {
            re: axis(modulation, &bits[..3]),
            im: axis(modulation, &bits[3..6]),
        },
    }
}

/// The bits of a received point, with 0 in the entries past N_BPSC. `z` is the point times the conjugate of the
/// channel, each component at most 2^46 in size, and `m` the square of the channel's size, from 0 to 2^47. An axis
/// lies above threshold t where 1296 times it is at least t times `m`; in BPSK Q plays no part, and where `m` and `z` are
/// 0 each axis lies above every threshold (own).
pub fn decide(modulation: Modulation, z: Cx, m: i64) -> [u8; 6]
    requires z { IsWithin (2 ^ 46) z }
    requires m_least { pos 0 ≤ℤ m }
    requires m_most { m ≤ℤ pos (2 ^ 47) }
    ensures decided { result ≡ decided modulation z m }
    ensures others { (j : ℕ) → bits_of_modulation modulation ≤ j → slice_index result j ≡ 0 }
    ensures bits { AreBits result }
{
    let i = place_reached(modulation, z.re, m);
    let q = place_reached(modulation, z.im, m);
    bits_at_places(modulation, i, q)
}

/// The same of parts and a square that need 128 bits: the parts of the point are at most 2^112 in size, and `m` is from 0
/// to 2^112 (own).
pub fn decide_wide(modulation: Modulation, re: i128, im: i128, m: i128) -> [u8; 6]
    requires re { unsigned_abs re ≤ 2 ^ 112 }
    requires im { unsigned_abs im ≤ 2 ^ 112 }
    requires m_least { pos 0 ≤ℤ m }
    requires m_most { m ≤ℤ pos (2 ^ 112) }
    ensures decided { result ≡ decided modulation (record { re = re; im = im }) m }
    ensures others { (j : ℕ) → bits_of_modulation modulation ≤ j → slice_index result j ≡ 0 }
    ensures bits { AreBits result }
{
    let i = place_reached_wide(modulation, re, m);
    let q = place_reached_wide(modulation, im, m);
    bits_at_places(modulation, i, q)
}

// The bits of the levels at a place for I and at one for Q, with zeros behind them; BPSK has no bit for Q.
fn bits_at_places(modulation: Modulation, i: u8, q: u8) -> [u8; 6]
    requires i { i ≤ length (thresholds modulation) }
    requires q { q ≤ length (thresholds modulation) }
    ensures decided { (z : Cx) (m : ℤ) → i ≡ thresholds_below modulation z.re m
        → q ≡ thresholds_below modulation z.im m
        → result ≡ decided modulation z m }
    ensures others { (j : ℕ) → bits_of_modulation modulation ≤ j → slice_index result j ≡ 0 }
    ensures bits { AreBits result }
{
    match modulation {
        Modulation::Bpsk => [gray_bit(i, 0), 0, 0, 0, 0, 0],
        Modulation::Qpsk => [gray_bit(i, 0), gray_bit(q, 0), 0, 0, 0, 0],
        Modulation::Qam16 => [
            gray_bit(i, 1),
            gray_bit(i, 0),
            gray_bit(q, 1),
            gray_bit(q, 0),
            0,
            0,
        ],
        Modulation::Qam64 => [
            gray_bit(i, 2),
            gray_bit(i, 1),
            gray_bit(i, 0),
            gray_bit(q, 2),
            gray_bit(q, 1),
            gray_bit(q, 0),
        ],
    }
}

// An axis of a point: the level of its bits, in the modulation's amplitude.
#[inline(always)]
fn axis(modulation: Modulation, bits: &[u8]) -> i64
    requires bits { AreBits bits.now }
    requires width { length bits.now ≡ axis_width modulation }
    ensures axis { result ≡ axis_of modulation bits.now }
    ensures within { unsigned_abs result ≤ 700 }
{
    match modulation {
        Modulation::Bpsk => AXES_BPSK[usize::from(bits[0])],
        Modulation::Qpsk => AXES_QPSK[usize::from(bits[0])],
        Modulation::Qam16 => AXES_16[usize::from(2 * bits[0] + bits[1])],
        Modulation::Qam64 => AXES_64[usize::from(4 * bits[0] + 2 * bits[1] + bits[2])],
    }
}

// The axes of the modulations by their bits, the first bit being the most significant.
static AXES_BPSK: [i64; 2] = [-648, 648];

static AXES_QPSK: [i64; 2] = [-458, 458];

static AXES_16: [i64; 4] = [-615, -205, 615, 205];

static AXES_64: [i64; 8] = [-700, -500, -100, -300, 700, 500, 100, 300];

// A bit of the Gray code of a place, 0 being the least significant.
fn gray_bit(place: u8, bit: u32) -> u8
    requires place { place < 8 }
    requires bit { bit < 3 }
    ensures gray { result ≡ gray_bit place bit }
    ensures bit { result < 2 }
{
    ((place ^ (place >> 1)) >> bit) & 1
}

// How many thresholds an axis lies above: the place of its level.
fn place_reached(modulation: Modulation, part: i64, m: i64) -> u8
    requires part { unsigned_abs part ≤ 2 ^ 46 }
    requires m { unsigned_abs m ≤ 2 ^ 47 }
    ensures place { result ≡ thresholds_below modulation part m }
    ensures within { result ≤ length (thresholds modulation) }
{
    match modulation {
        Modulation::Bpsk | Modulation::Qpsk => above(part, m, 0),
        Modulation::Qam16 => above(part, m, -410) + above(part, m, 0) + above(part, m, 410),
        Modulation::Qam64 => {
            let low = above(part, m, -600) + above(part, m, -400) + above(part, m, -200);
            let high = above(part, m, 200) + above(part, m, 400) + above(part, m, 600);
            low + above(part, m, 0) + high
        }
    }
}

// 1 where an axis lies above a threshold, where the square of the channel's size is m, and 0 where it doesn't.
fn above(part: i64, m: i64, threshold: i64) -> u8
    requires part { unsigned_abs part ≤ 2 ^ 46 }
    requires m { unsigned_abs m ≤ 2 ^ 47 }
    requires threshold { unsigned_abs threshold ≤ 2 ^ 10 }
    ensures value { result ≡ (if lies_above part m threshold then 1 else 0) }
    ensures most { result ≤ 1 }
{
    if lies_above(part, m, threshold) { 1 } else { 0 }
}

// Whether an axis lies above a threshold, where the square of the channel's size is m.
fn lies_above(part: i64, m: i64, threshold: i64) -> bool
    requires part { unsigned_abs part ≤ 2 ^ 46 }
    requires m { unsigned_abs m ≤ 2 ^ 47 }
    requires threshold { unsigned_abs threshold ≤ 2 ^ 10 }
    ensures { result ≡ lies_above part m threshold }
{
    1296 * part >= threshold * m
}

// How many thresholds an axis that needs 128 bits lies above: the place of its level.
#[inline(always)]
fn place_reached_wide(modulation: Modulation, part: i128, m: i128) -> u8
    requires part { unsigned_abs part ≤ 2 ^ 112 }
    requires m { unsigned_abs m ≤ 2 ^ 112 }
    ensures place { result ≡ thresholds_below modulation part m }
    ensures within { result ≤ length (thresholds modulation) }
{
    match modulation {
        Modulation::Bpsk | Modulation::Qpsk => reaches(part, 0),
        Modulation::Qam16 => {
            let (axis, first) = (1296 * part, 410 * m);
            reaches(axis, -first) + reaches(axis, 0) + reaches(axis, first)
        }
        Modulation::Qam64 => {
            let (axis, first) = (1296 * part, 200 * m);
            let (second, third) = (2 * first, 3 * first);
            let low = reaches(axis, -third) + reaches(axis, -second) + reaches(axis, -first);
            let high = reaches(axis, first) + reaches(axis, second) + reaches(axis, third);
            low + reaches(axis, 0) + high
        }
    }
}

// 1 where an axis is at least a number, and 0 where it is less.
fn reaches(axis: i128, least: i128) -> u8
    ensures value { result ≡ (if int_le least axis then 1 else 0) }
    ensures most { result ≤ 1 }
{
    if axis >= least { 1 } else { 0 }
}

#[cfg(test)]
mod tests {
    use super::*;

    #[test]
    fn points_of_given_bits(rt: HostRuntime) {
        let corner = Cx { re: 700, im: -300 };
        assert!(rt; point(Modulation::Qam64, &[1, 0, 0, 0, 1, 1]) == corner);
        let edge = Cx { re: 615, im: -205 };
        assert!(rt; point(Modulation::Qam16, &[1, 0, 0, 1, 0, 0]) == edge);
    }

    #[test]
    fn decisions_at_and_beside_thresholds(rt: HostRuntime) {
        let at = Cx { re: 410, im: 409 };
        assert!(rt; decide(Modulation::Qam16, at, 1296) == [1, 0, 1, 1, 0, 0]);
        let beside = Cx { re: -601, im: 600 };
        assert!(rt; decide(Modulation::Qam64, beside, 1296) == [0, 0, 0, 1, 0, 0]);
        let nothing = Cx { re: 0, im: 0 };
        assert!(rt; decide(Modulation::Bpsk, nothing, 0) == [1, 0, 0, 0, 0, 0]);
    }
}
