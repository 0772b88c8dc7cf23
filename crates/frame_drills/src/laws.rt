//! What holds of drills. The functions do nothing: what each ensures is the law.
ghost use Rattle.frame_drills.specs.Laws.{FirstComesBack, FirstIsInNoise, OneSummary, SomeSummary};

/// The first capture of each drilled frame is near it, within the noise bound of its rate, and so the frame comes back
/// of it (own).
pub fn first_captures_come_back()
    ensures near { FirstIsInNoise }
    ensures back { FirstComesBack }
{}

/// A drill of so many frames has exactly one summary (own).
pub fn one_summary()
    ensures some { SomeSummary }
    ensures no_other { OneSummary }
{}
