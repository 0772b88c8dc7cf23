//! What holds of lists of frames. The functions do nothing: what each ensures is the law.

ghost use Rattle.frame_lists.specs.Laws.{BoundsMayGrow, OneWaveform, OthersBehind, SentListIsNear, SilentBefore, SilentUpToStart};

/// The sum of the waveforms of frames that stand at least 16 samples apart is at each place one of them, or silence
/// (own).
pub fn places_of_frames()
    ensures before { SilentBefore }
    ensures up_to_start { SilentUpToStart }
    ensures within { OneWaveform }
    ensures behind { OthersBehind }
{}

/// A capture that is near frames within bounds is near them within larger ones (own).
pub fn bounds_may_grow()
    ensures { BoundsMayGrow }
{}

/// The samples of a list, item after item a gap of silence and the sent samples of a frame, are within 1 of the sum of
/// the plain waveforms, and 0 elsewhere, where the gaps but the first have at least 16 samples (own).
pub fn sent_lists_are_near()
    ensures { SentListIsNear }
{
    frame_fields::laws::sent_frames();
}
