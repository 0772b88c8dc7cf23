//! The match of a place's samples with the template.
ghost use Rattle.std.specs.Prelude.{◌≡◌, ◌+◌, ◌^◌, ◌≤◌, length, ℤ, pos, ◌≤ℤ◌, ◌*ℤ◌, unsigned_abs};
ghost use Rattle.fixed_complex.specs.Pairs.{IsWithin};
ghost use Rattle.modem_ports.specs.Counts.{raised_by};
ghost use Rattle.frame_search.specs.Match.{matches, part};
ghost use Rattle.integer_laws.specs.Size.{sum_of_squares};

use crate::counting::tick_times;
use crate::template::{template, template_energy};
use fixed_complex::{Cx, Sample};
use lane_kernels::{dot, energy};
use modem_ports::Steps;

/// Whether the 320 samples from a place on match the training fields: 5 times the square of the size of c is at least
/// 4 E e, where c is the sum of the products of the samples with the conjugates of the template's, E is the energy of
/// the template and e that of the samples (own). The count of steps rises by exactly 320.
pub fn matches_template(capture: &[Sample], place: usize, steps: &mut Steps) -> bool
    requires short { length capture.now ≤ 2 ^ 24 }
    requires long { place + 320 ≤ length capture.now }
    ensures value { result ≡ matches (part capture.now place 320) }
    ensures counted { steps.new ≡ raised_by 320 steps.old }
{
    tick_times(steps, 320);
    is_match(&capture[place..place + 320])
}

// Whether 320 samples match.
fn is_match(samples: &[Sample]) -> bool
    requires { length samples.now ≡ 320 }
    ensures { result ≡ matches samples.now }
{
    let least = product(4 * template_energy(), energy(samples));
    least <= 5 * size_squared(dot(samples, template()))
}

// The square of a pair's size.
fn size_squared(z: Cx) -> i128
    requires { IsWithin (2 ^ 56) z }
    ensures value { result ≡ sum_of_squares z.re z.im }
    ensures within { unsigned_abs result ≤ 2 ^ 113 }
{
    product(z.re, z.re) + product(z.im, z.im)
}

// A product in 128 bits.
fn product(x: i64, y: i64) -> i128
    requires x { unsigned_abs x ≤ 2 ^ 56 }
    requires y { unsigned_abs y ≤ 2 ^ 56 }
    ensures value { result ≡ x *ℤ y }
    ensures within { unsigned_abs result ≤ 2 ^ 112 }
{
    i128::from(x) * i128::from(y)
}
