//! What holds of frames in noise. The functions do nothing: what each ensures is the law.

ghost use Rattle.frames_in_noise.specs.Laws.{FrameIsRead, NoiseIsWithstood, NothingElseIsFound, SentListIsHeard};

/// Samples whose front is within the noise bound of a frame's rate of its plain waveform match the training fields, their
/// header is the one that was sent, and so are the seed and the PSDU of their field (own).
pub fn a_frame_is_read()
    ensures { FrameIsRead }
{}

/// The findings of a capture that is near a list of frames, each within the noise bound of its rate (64, 36, 16 or 8) of
/// its plain waveform, and within 64 of silence elsewhere, are exactly these frames in order, and no cut (own).
pub fn noise_is_withstood()
    ensures found { NoiseIsWithstood }
    ensures nothing_else { NothingElseIsFound }
{}

/// The findings of the samples of a list, item after item a gap of silence and the sent samples of a frame, are its
/// frames in order, and no cut, where the gaps but the first have at least 16 samples (own).
pub fn sent_lists_are_heard()
    ensures { SentListIsHeard }
{
    frame_lists::laws::sent_lists_are_near();
}
