//! What holds of frames with turns. The functions do nothing: what each ensures is the law.

ghost use Rattle.frames_turned.specs.Laws.{TurnedFrameIsRead, TurnedFrameIsThere, TurnedIsNear, TurnedIsNotHeld, TurnedIsRead, TurnedIsThere};

/// Samples that begin within the phase bound of a frame's rate of its waveform with turns, any turn for each symbol, say
/// by their phase decisions the header that was sent, and have the seed and the PSDU that were sent as their field; so in a
/// capture the frame at their start is the one that was sent (own).
pub fn a_frame_with_turns_is_read()
    ensures read { TurnedFrameIsRead }
    ensures there { TurnedFrameIsThere }
{}

/// Where samples hold a frame's sent samples from a place on, they begin there, once their symbols are turned, within 2 of
/// the frame's waveform with these turns, and nothing of its symbols is held at the ends of the range (own).
pub fn turns_of_sent_frames()
    ensures near { TurnedIsNear }
    ensures not_held { TurnedIsNotHeld }
{}

/// So turned samples of a frame say, by their phase decisions, the header and the field that were sent, and the frame at
/// its start is the one that was sent (own).
pub fn the_turned_frame_is_read()
    ensures read { TurnedIsRead }
    ensures there { TurnedIsThere }
{}
