//! What holds of starts of frames in noise. The functions do nothing: what each ensures is the law.

ghost use Rattle.starts_in_noise.specs.Laws.{PreambleIsLoud, PreambleMatches, SilenceIsQuiet};

/// 320 samples that are each within 64 of the plain training fields, in each component, match the training fields (own).
pub fn preambles_match()
    ensures { PreambleMatches }
{}

/// The first sample of a preamble within 64 of the plain one is loud, and a sample within 64 of silence is quiet: so a
/// frame in silence begins with an edge (own).
pub fn loud_and_quiet()
    ensures loud { PreambleIsLoud }
    ensures quiet { SilenceIsQuiet }
{}
