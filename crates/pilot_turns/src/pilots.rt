//! The turn of a symbol, by its pilots.
ghost use Rattle.std.specs.Prelude.{◌≡◌, ◌*◌, ◌^◌, ◌<◌, ◌≤◌, pos, ◌+ℤ◌, ◌*ℤ◌, unsigned_abs};
ghost use Rattle.fixed_complex.specs.PairLists.{PairsWithin};
ghost use Rattle.fixed_complex.specs.Pairs.{IsWithin, squared_size};
ghost use Rattle.integer_laws.specs.Floor.{floor_div};
ghost use Rattle.lane_kernels.specs.Kernels.{held};
ghost use Rattle.pilot_turns.specs.Pilots.{pilot_back, pilot_carrier, sign_of_pilot, turn_by_pilots, turn_part};

use carrier_bins::bin;
use carrier_equaliser::Estimate;
use fixed_complex::{Cx, add, conj, mul, signed};
use symbol_builder::polarity;

/// The turn of symbol n by its four pilots, over 16384: the sum of what was received of them times the conjugate of the
/// channel, with their signs in symbol n, over the sum of the squares of the channel's sizes there, each component rounded
/// half up and held within -32768 to 32767; (16384, 0) where the channel gives nothing there (own). Components of `symbol`
/// are at most 2^22 in size. Takes no memory.
pub fn pilot_turn(estimate: &Estimate, symbol: &[Cx; 64], n: u32) -> Cx
    requires { PairsWithin (2 ^ 22) symbol.now }
    ensures turn { result ≡ turn_by_pilots estimate.now symbol.now n }
    ensures within { IsWithin (2 ^ 15) result }
{
    let mut sum = Cx { re: 0, im: 0 };
    let mut weight = 0;
    for k in 0..4 {
        sum = add(sum, pilot(estimate, symbol, n, k));
        weight += size_squared(estimate.at(carrier(k)));
    }
    if weight == 0 {
        return Cx { re: 16384, im: 0 };
    }
    Cx {
        re: turn_part(weight, sum.re),
        im: turn_part(weight, sum.im),
    }
}

// The carrier of pilot k.
fn carrier(k: usize) -> i32
    requires { k < 4 }
    ensures { result ≡ pilot_carrier k }
{
    14 * k as i32 - 21
}

// What was received of pilot k of symbol n, turned back by its sign and the channel.
fn pilot(estimate: &Estimate, symbol: &[Cx; 64], n: u32, k: usize) -> Cx
    requires symbol { PairsWithin (2 ^ 22) symbol.now }
    requires pilot { k < 4 }
    ensures back { result ≡ pilot_back estimate.now symbol.now n k }
    ensures within { IsWithin (2 ^ 46) result }
{
    let carrier = carrier(k);
    let back = mul(symbol[bin(carrier)], conj(estimate.at(carrier)));
    signed(sign(n, k), back)
}

// The sign of pilot k in symbol n.
fn sign(n: u32, k: usize) -> i64
    requires { k < 4 }
    ensures sign { result ≡ sign_of_pilot n k }
    ensures within { unsigned_abs result ≤ 1 }
{
    if k == 3 { -polarity(n) } else { polarity(n) }
}

// The square of a pair's size.
fn size_squared(z: Cx) -> u64
    requires { IsWithin (2 ^ 23) z }
    ensures value { result ≡ squared_size z }
    ensures most { result ≤ 2 ^ 47 }
{
    square(z.re.unsigned_abs()) + square(z.im.unsigned_abs())
}

// The square of a number.
fn square(size: u64) -> u64
    requires { size ≤ 2 ^ 23 }
    ensures value { result ≡ size * size }
    ensures most { result ≤ 2 ^ 46 }
{
    size * size
}

// A component of a turn.
fn turn_part(weight: u64, part: i64) -> i64
    requires some { 0 < weight }
    requires weight { weight ≤ 2 ^ 49 }
    requires part { unsigned_abs part ≤ 2 ^ 48 }
    ensures value { result ≡ turn_part weight part }
    ensures within { unsigned_abs result ≤ 2 ^ 15 }
{
    held(rounded(weight, part))
}

// 32768 times a part over a weight, rounded half up.
fn rounded(weight: u64, part: i64) -> i128
    requires some { 0 < weight }
    requires weight { weight ≤ 2 ^ 49 }
    requires part { unsigned_abs part ≤ 2 ^ 48 }
    ensures { result ≡ floor_div (pos 65536 *ℤ part +ℤ pos weight) (2 * weight) }
{
    let weight = i128::from(weight);
    (65536 * i128::from(part) + weight).div_euclid(2 * weight)
}

// A number held within 16 bits.
fn held(number: i128) -> i64
    ensures value { result ≡ held number }
    ensures within { unsigned_abs result ≤ 2 ^ 15 }
{
    number.clamp(-32768, 32767) as i64
}
