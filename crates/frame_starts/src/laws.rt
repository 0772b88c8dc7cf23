//! What holds of frames at starts. The functions do nothing: what each ensures is the law.

ghost use Rattle.frame_starts.specs.Laws.{FoundAreThere, OneFrameAt, SomeFrameAt};

/// The frame at a start comes to exactly one answer, whoever decides its symbols (own).
pub fn one_frame_at()
    ensures some { SomeFrameAt }
    ensures no_other { OneFrameAt }
{}

/// Each frame among the findings of a capture is the one that is read at its start (own).
pub fn found_frames_are_there()
    ensures { FoundAreThere }
{}
