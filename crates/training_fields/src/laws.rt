//! What holds of the signs of the training fields, and of the samples that are sent. The functions do nothing: what
//! each ensures is the law.

ghost use Rattle.std.specs.Prelude.{◌≡◌, ◌&&◌, nat_lt, ℤ, unsigned_abs, if◌then◌else◌};
ghost use Rattle.plain_waves.specs.Bodies.{plain_body, sent_body};
ghost use Rattle.fixed_complex.specs.Samples.{SamplesWithin};
ghost use Rattle.plain_waves.specs.Nearness.{AreNearPlain};
ghost use Rattle.training_fields.specs.Training.{long_sign_of, preamble_of};

pub use plain_waves::laws::{samples_behind_samples, sent_bodies};

/// L is 1 or -1 on the carriers from -26 to 26 but 0, and 0 on all others (IEEE Std 802.11-2012, 18.3.3).
pub fn carriers_of_long_training()
    ensures { (carrier : ℤ) → unsigned_abs (long_sign_of carrier)
        ≡ (if nat_lt 0 (unsigned_abs carrier) && nat_lt (unsigned_abs carrier) 27 then 1 else 0) }
{}

/// The sent samples of both training fields are within 1 of the plain ones, and no component is larger than 25057 in
/// size (own).
pub fn sent_preamble()
    ensures near { AreNearPlain 1 (preamble_of sent_body) (preamble_of plain_body) }
    ensures within { SamplesWithin 25057 (preamble_of sent_body) }
{}
