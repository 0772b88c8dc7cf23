//! What holds of symbols in echoes. The function does nothing: what it ensures is the law.

ghost use Rattle.symbols_in_echoes.specs.Laws.{DecidedInEchoes};

/// A symbol whose samples, and those of the long training field before it, are within half the noise bound of its rate
/// of one echo of the plain waveform, 32, 18, 8 or 4 in each component, is decided as it was sent: each of its N_CBPS
/// coded bits (own).
pub fn echoed_symbols_are_decided()
    ensures { DecidedInEchoes }
{}
