//! What holds of captures themselves. Its functions do nothing: what each ensures is the law.

ghost use Rattle.std.specs.Prelude.{◌≡◌, List};
ghost use Rattle.fixed_complex.specs.declared.Sample.{Sample};
ghost use Rattle.capture_files.specs.Captures.{bytes_of_samples};
ghost use Rattle.fixed_complex.specs.Samples.{AreSamples};

/// The bytes of samples determine the samples (own).
pub fn bytes_determine_samples()
    ensures { (a b : List Sample) → AreSamples a → AreSamples b
        → bytes_of_samples a ≡ bytes_of_samples b → a ≡ b }
{}
