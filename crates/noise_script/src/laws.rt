//! What holds of scripts and their texts. Its functions do nothing: what each ensures is the law.
ghost use Rattle.std.specs.Prelude.{◌≡◌, ◌+◌, ◌≤◌, ℕ, List, [], ◌∷◌, ◌++◌, length, unsigned_abs};
ghost use Rattle.fixed_complex.specs.Samples.{SamplesWithin};
ghost use Rattle.fixed_complex.specs.declared.Sample.{Sample};
ghost use Rattle.lane_kernels.specs.Kernels.{held_sums};
ghost use Rattle.noise_script.specs.Effects.{after_items, silence};
ghost use Rattle.noise_script.specs.Noise.{generator_of, noise_of, noise_samples};
ghost use Rattle.noise_script.specs.Scripts.{IsScript, SaysScript};
ghost use Rattle.noise_script.specs.declared.Item.{Item};
ghost use Rattle.noise_script.specs.declared.Item.TheVariants.{Lead, Trail, Uniform};
ghost use Rattle.rand_pcg.specs.Lcg.{Lcg};
ghost use Rattle.word_grammar.specs.Places.{HasNoPlace, HasOnePlace, IsDecided};

/// As a script a text has one bad place at most, a script has none, and each text is a script or
/// has one (own).
pub fn places_of_scripts()
    ensures one { HasOnePlace (IsScript 16) }
    ensures none { HasNoPlace (IsScript 16) }
    ensures decided { IsDecided (IsScript 16) }
{}

/// A text says one script at most (own).
pub fn one_script_a_text()
    ensures { (a b : List Item) (text : List ℕ) → SaysScript 16 a text → SaysScript 16 b text
        → a ≡ b }
{}

/// What noise adds to a component is at most its bound in size, and there is as much noise as samples
/// (own).
pub fn noise_within_its_bound()
    ensures component { (bound word : ℕ) → unsigned_abs (noise_of bound word) ≤ bound }
    ensures samples { (bound count : ℕ) (words : Lcg)
        → SamplesWithin bound (noise_samples bound count words) }
    ensures len { (bound count : ℕ) (words : Lcg)
        → length (noise_samples bound count words) ≡ count }
{}

/// A frame's script adds its noise to the samples and to the silence in front of them; the silence
/// behind them has none (own).
pub fn what_a_frame_script_does()
    ensures { (lead bound seed trail : ℕ) (samples : List Sample)
        → after_items (Lead lead ∷ Uniform bound seed ∷ Trail trail ∷ []) samples
        ≡ held_sums (silence lead ++ samples)
        (noise_samples bound (lead + length samples) (generator_of seed)) ++ silence trail }
{}
