//! What holds of frames in echoes. The functions do nothing: what each ensures is the law.

ghost use Rattle.frames_in_echoes.specs.Laws.{EchoIsNear, EchoIsNotHeld, EchoIsRead, EchoIsThere, EchoOfCaptureIsNear, EchoOfCaptureIsThere, EchoOfListIsThere, EchoedFrameIsRead, EchoedFrameIsThere, LongBodiesComeBack, SymbolsComeBack};

/// The cyclic prefix theorem, in a frame (own). Samples that begin within a bound B of an echoed frame bring each carrier
/// of both long bodies, and of each symbol, within 32 times 2.829*B + 2.77, in size, of 32 times the carrier that was
/// sent and its channel.
pub fn echoed_carriers_come_back()
    ensures long_bodies { LongBodiesComeBack }
    ensures symbols { SymbolsComeBack }
{}

/// Samples that begin within half the noise bound of a frame's rate of the echoed frame say, by their plain decisions,
/// the header that was sent, and have the seed and the PSDU that were sent as their field; so in a capture the frame at
/// their start is the one that was sent (own).
pub fn an_echoed_frame_is_read()
    ensures read { EchoedFrameIsRead }
    ensures there { EchoedFrameIsThere }
{}

/// The echo of a frame's sent samples begins within 2 of the echoed frame, and none of it is held at the ends of the
/// range (own).
pub fn echoes_of_sent_frames()
    ensures near { EchoIsNear }
    ensures not_held { EchoIsNotHeld }
{}

/// So the echo of a frame's sent samples, by any taps, says header and field that were sent, and the frame at its start
/// is the one that was sent (own).
pub fn the_echo_of_a_frame_is_read()
    ensures read { EchoIsRead }
    ensures there { EchoIsThere }
{}

/// The echo of a capture within a bound of frames in silence begins, at the start of each frame, within 1.25 times the
/// bound, and half, of the echoed frame. Where half the noise bound of its rate allows it, the frame there is the one that
/// was sent; so it is in the echo of the samples of a list (own).
pub fn echoes_of_captures()
    ensures near { EchoOfCaptureIsNear }
    ensures there { EchoOfCaptureIsThere }
    ensures list { EchoOfListIsThere }
{}
