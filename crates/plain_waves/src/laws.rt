//! What holds of samples near plain ones. The functions do nothing: what each ensures is the law.

ghost use Rattle.std.specs.Prelude.{◌++◌, ℕ, List};
ghost use Rattle.fixed_complex.specs.PairLists.{PairsWithin, entry};
ghost use Rattle.fixed_complex.specs.Samples.{SamplesWithin};
ghost use Rattle.fixed_complex.specs.declared.Cx.{Cx};
ghost use Rattle.fixed_complex.specs.declared.Sample.{Sample};
ghost use Rattle.plain_waves.specs.Bodies.{all_times, plain_body, sent_body};
ghost use Rattle.plain_waves.specs.Bounds.{FitASample};
ghost use Rattle.plain_waves.specs.Nearness.{AreNearPlain};

/// Samples behind samples are near plain ones behind plain ones where both lists are, and within a bound where both are
/// (own).
pub fn samples_behind_samples()
    ensures near { (bound : ℕ) (front back : List Sample) (plain behind : List Cx)
        → AreNearPlain bound front plain
        → AreNearPlain bound back behind → AreNearPlain bound (front ++ back) (plain ++ behind) }
    ensures within { (bound : ℕ) (front back : List Sample) → SamplesWithin bound front
        → SamplesWithin bound back → SamplesWithin bound (front ++ back) }
{}

/// The body that is sent of any 64 carriers with components of at most 954 that fit a sample is within 1 of the plain
/// body, and no component is larger than 25057 in size (own).
pub fn sent_bodies()
    ensures near { (carriers : List Cx) → PairsWithin 954 carriers
        → AreNearPlain 1 (all_times (sent_body (entry carriers)))
        (all_times (plain_body (entry carriers))) }
    ensures within { (carriers : List Cx) → PairsWithin 954 carriers → FitASample carriers
        → SamplesWithin 25057 (all_times (sent_body (entry carriers))) }
{}
