//! What holds of points and decisions, and of carriers and bins. The functions do nothing: what each ensures is the
//! law.

ghost use Rattle.std.specs.Prelude.{◌≡◌, ℕ, ◌<◌, ◌≤◌, List, length, ℤ, pos, unsigned_abs};
ghost use Rattle.bit_lists.specs.Bits.{AreBits};
ghost use Rattle.fixed_complex.specs.declared.Cx.{Cx};
ghost use Rattle.rate_table.specs.declared.Modulation.{Modulation};
ghost use Rattle.constellations.specs.Axes.{axis_of, axis_width};
ghost use Rattle.constellations.specs.Decisions.{IsExactly, IsNear, IsNearAxis, axis_decided, decided, used_bits};
ghost use Rattle.constellations.specs.Points.{point_of};

pub use carrier_bins::laws::{bins_of_carriers, carriers_of_data};

/// An axis that is received less than the amplitude, half the spacing of the levels, away from where it was sent gives
/// its bits back; so does a point of which both axes are so near, and one that is received exactly (own).
pub fn decisions_near_a_point()
    ensures axis { (modulation : Modulation) (bits : List ℕ) (part : ℤ) (m : ℕ) → AreBits bits
        → length bits ≡ axis_width modulation
        → IsNearAxis modulation (axis_of modulation bits) part m
        → axis_decided modulation part (pos m) ≡ bits }
    ensures near { (modulation : Modulation) (bits : List ℕ) (z : Cx) (m : ℕ) → AreBits bits
        → length bits ≡ 6
        → IsNear modulation (point_of modulation bits) z m
        → decided modulation z (pos m) ≡ used_bits modulation bits }
    ensures exact { (modulation : Modulation) (bits : List ℕ) (z : Cx) (m : ℕ) → AreBits bits
        → length bits ≡ 6
        → 0 < m → IsExactly (point_of modulation bits) z m
        → decided modulation z (pos m) ≡ used_bits modulation bits }
{}

/// The axis of any bits of an axis is at most 700 in size (own).
pub fn sizes_of_axes()
    ensures { (modulation : Modulation) (bits : List ℕ) → AreBits bits
        → length bits ≡ axis_width modulation
        → unsigned_abs (axis_of modulation bits) ≤ 700 }
{}
