//! What holds of symbols in noise. The function does nothing: what it ensures is the law.

ghost use Rattle.symbols_in_noise.specs.Laws.{DecidedInNoise};

/// A symbol whose samples, and those of the long training field before it, are within the noise bound of its rate of the
/// plain waveform, 64, 36, 16 or 8 in each component, is decided as it was sent: each of its N_CBPS coded bits (own).
pub fn symbols_are_decided()
    ensures { DecidedInNoise }
{}
