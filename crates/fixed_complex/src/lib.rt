//! Whole-number pairs, the samples of a capture, rounding, and the turns of a circle (own). No call takes memory.
#![tactic(auto)]

ghost use Rattle.std.specs.Prelude.{◌≡◌, ℕ, ◌*◌, ◌^◌, ◌<◌, ◌≤◌, ◌*ℤ◌, unsigned_abs};
ghost use Rattle.fixed_complex.specs.Pairs.{IsWithin, conjugate, minus, multiple, plus, scaled_product, times};
ghost use Rattle.fixed_complex.specs.Rounding.{half_up};
ghost use Rattle.fixed_complex.specs.Turns.{cosine_at, turn_at};

pub mod laws;

// The cosines of the 64ths of a circle, times 2^20.
static COSINES: [i64; 64] = [
    1048576, 1043527, 1028428, 1003425, 968758, 924761, 871859, 810560, 741455, 665210, 582558,
    494295, 401273, 304386, 204567, 102778, 0, -102778, -204567, -304386, -401273, -494295,
    -582558, -665210, -741455, -810560, -871859, -924761, -968758, -1003425, -1028428, -1043527,
    -1048576, -1043527, -1028428, -1003425, -968758, -924761, -871859, -810560, -741455, -665210,
    -582558, -494295, -401273, -304386, -204567, -102778, 0, 102778, 204567, 304386, 401273,
    494295, 582558, 665210, 741455, 810560, 871859, 924761, 968758, 1003425, 1028428, 1043527,
];

/// A sample: I and Q, each a signed number of 16 bits. No component that is sent is larger than
/// 25057 in size (own).
#[derive(Clone, Copy, Debug, PartialEq, Eq)]
pub struct Sample {
    pub i: i16,
    pub q: i16,
}

/// A pair of whole numbers, read as the complex number re + im * sqrt(-1) (own).
#[derive(Clone, Copy, Debug, PartialEq, Eq)]
pub struct Cx {
    pub re: i64,
    pub im: i64,
}

/// The sum of two pairs whose components are at most 2^61 in size (own).
pub fn add(a: Cx, b: Cx) -> Cx
    requires a { IsWithin (2 ^ 61) a }
    requires b { IsWithin (2 ^ 61) b }
    ensures { result ≡ plus a b }
{
    Cx {
        re: a.re + b.re,
        im: a.im + b.im,
    }
}

/// The difference of two pairs whose components are at most 2^61 in size (own).
pub fn sub(a: Cx, b: Cx) -> Cx
    requires a { IsWithin (2 ^ 61) a }
    requires b { IsWithin (2 ^ 61) b }
    ensures { result ≡ minus a b }
{
    Cx {
        re: a.re - b.re,
        im: a.im - b.im,
    }
}

/// The conjugate of a pair whose components are at most 2^61 in size (own).
pub fn conj(a: Cx) -> Cx
    requires { IsWithin (2 ^ 61) a }
    ensures { result ≡ conjugate a }
{
    Cx {
        re: a.re,
        im: -a.im,
    }
}

/// A pair times a sign, which is -1, 0 or 1. Components are at most 2^61 in size, and none grows (own).
pub fn signed(sign: i64, z: Cx) -> Cx
    requires sign { unsigned_abs sign ≤ 1 }
    requires pair { IsWithin (2 ^ 61) z }
    ensures value { result ≡ multiple sign z }
    ensures within { (bound : ℕ) → IsWithin bound z → IsWithin bound result }
{
    Cx {
        re: signed_part(sign, z.re),
        im: signed_part(sign, z.im),
    }
}

// A number times a sign.
fn signed_part(sign: i64, part: i64) -> i64
    requires sign { unsigned_abs sign ≤ 1 }
    requires part { unsigned_abs part ≤ 2 ^ 61 }
    ensures value { result ≡ sign *ℤ part }
    ensures within { unsigned_abs result ≤ unsigned_abs part }
{
    sign * part
}

/// The product of two pairs whose components are at most 2^30 in size (own).
pub fn mul(a: Cx, b: Cx) -> Cx
    requires a { IsWithin (2 ^ 30) a }
    requires b { IsWithin (2 ^ 30) b }
    ensures { result ≡ times a b }
{
    Cx {
        re: product(a.re, b.re) - product(a.im, b.im),
        im: product(a.re, b.im) + product(a.im, b.re),
    }
}

/// The product of two pairs over 2^20, each component rounded half up: floor((part + 2^19) / 2^20). The components of
/// `w` are at most 2^20 in size, those of `z` at most 2^40 (own).
pub fn scaled(w: Cx, z: Cx) -> Cx
    requires w { IsWithin (2 ^ 20) w }
    requires z { IsWithin (2 ^ 40) z }
    ensures { result ≡ scaled_product w z }
{
    Cx {
        re: over_2_20(product(w.re, z.re) - product(w.im, z.im)),
        im: over_2_20(product(w.re, z.im) + product(w.im, z.re)),
    }
}

// A product that fits with another one beside it.
fn product(x: i64, y: i64) -> i64
    requires { unsigned_abs x * unsigned_abs y ≤ 2 ^ 60 }
    ensures value { result ≡ x *ℤ y }
    ensures bound { unsigned_abs result ≤ 2 ^ 60 }
{
    x * y
}

// A part of a product over 2^20, rounded half up.
fn over_2_20(part: i64) -> i64
    requires { unsigned_abs part ≤ 2 ^ 61 }
    ensures value { result ≡ half_up 20 part }
    ensures bound { unsigned_abs result ≤ 2 ^ 42 }
{
    (part + (1 << 19)) >> 20
}

/// 2^20 times the turn of m 64ths of a circle against the clock, its cosine and its sine rounded to whole numbers
/// (own).
#[tactic(auto, unfolding(crate::specs::Turns::turn_at))]
pub fn turn(m: usize) -> Cx
    ensures { result ≡ turn_at m }
{
    let place = m % 64;
    Cx {
        re: cosine(place),
        im: cosine((place + 48) % 64),
    }
}

// 2^20 times the cosine of so many 64ths of a circle.
fn cosine(place: usize) -> i64
    requires { place < 64 }
    ensures { result ≡ cosine_at place }
{
    COSINES[place]
}

#[cfg(test)]
mod tests {
    use super::*;

    // Halves are rounded up, also those below 0.
    #[test]
    fn rounds_half_up(rt: HostRuntime) {
        let one = Cx { re: 1, im: 0 };
        let halves = Cx {
            re: 524288,
            im: -524288,
        };
        assert_eq!(rt; scaled(one, halves), one);
    }
}
