//! What holds of outcomes, for every input. Its functions do nothing: what each ensures is the law.
ghost use Rattle.command_answers.specs.Laws.{CaptureInNoiseGivesItsFrames, CheapTextGivesItsPsdu, EchoGivesItsFrame, EchoedCaptureGivesItsFrame, FlippedTextGivesItsPsdu, OneOutcome, RotateGivesItsFrame, SentListGivesItsFrames, SomeOutcome, TurnedCaptureGivesItsFrame};

use echo_taps::laws::{places_of_an_echo, sizes_of_an_echo};
use frame_fields::laws::{few_flips, one_field, sent_frames};
use frame_findings::laws::{one_reception, one_report};
use frame_starts::laws::one_frame_at;
use frames_in_echoes::laws::{an_echoed_frame_is_read, the_echo_of_a_frame_is_read};
use frames_in_noise::laws::{noise_is_withstood, sent_lists_are_heard};
use frames_turned::laws::{a_frame_with_turns_is_read, the_turned_frame_is_read};
use soft_trellis::laws::{little_cost, one_soft_field};

/// All words and all bytes have exactly one outcome (own).
pub fn outcome_is_one()
    ensures some { SomeOutcome }
    ensures only { OneOutcome }
{
    one_field();
    one_report();
    one_reception();
    one_frame_at();
    one_soft_field();
}

/// What `decode` is asked to write of a text that is the kept code of a field with few flips: that
/// field's PSDU (own).
pub fn flipped_text_gives_its_psdu()
    ensures { FlippedTextGivesItsPsdu }
{
    few_flips();
}

/// What `decode-soft` is asked to write of a text of costs against which the kept code of a field costs
/// little: that field's PSDU (own).
pub fn cheap_text_gives_its_psdu()
    ensures { CheapTextGivesItsPsdu }
{
    little_cost();
}

/// What `receive` is asked to write of a capture that is near a list of frames, each within the noise
/// bound of its rate (64, 36, 16 or 8), and within 64 of silence elsewhere: the lines of exactly these
/// frames, in order (own).
pub fn capture_in_noise_gives_its_frames()
    ensures { CaptureInNoiseGivesItsFrames }
{
    noise_is_withstood();
}

/// What `receive-at` is asked to write of a capture that from that start on is near a frame's echoed
/// waveform, within half the noise bound of its rate (32, 18, 8 or 4): the line of exactly this frame
/// (own).
pub fn echoed_capture_gives_its_frame()
    ensures { EchoedCaptureGivesItsFrame }
{
    an_echoed_frame_is_read();
}

/// What `echo` is asked to write of what `send` writes of a frame, by any taps: the bytes of its echo; and
/// what `receive-at 0` is asked to write of these bytes: the line of exactly this frame (own).
pub fn echo_gives_its_frame()
    ensures { EchoGivesItsFrame }
{
    sent_frames();
    sizes_of_an_echo();
    places_of_an_echo();
    the_echo_of_a_frame_is_read();
}

/// What `receive-phase` is asked to write of a capture in which from that start on a frame stands with any
/// turn for each symbol, within the phase bound of its rate (20, 14, 6 or 3) of that waveform: the line
/// of exactly this frame (own).
pub fn turned_capture_gives_its_frame()
    ensures { TurnedCaptureGivesItsFrame }
{
    a_frame_with_turns_is_read();
}

/// What `rotate 0 STEP` is asked to write of what `send` writes of a frame: the bytes of its turned samples;
/// and what `receive-phase 0` is asked to write of these bytes: the line of exactly this frame (own).
pub fn rotate_gives_its_frame()
    ensures { RotateGivesItsFrame }
{
    sent_frames();
    the_turned_frame_is_read();
}

/// What `send-list` is asked to write of a list of at most 16777216 samples: the bytes of its samples; and
/// what `receive` is asked to write of these bytes: the lines of exactly the list's frames, at their
/// starts, in order (own).
pub fn sent_list_gives_its_frames()
    ensures { SentListGivesItsFrames }
{
    sent_frames();
    sent_lists_are_heard();
}
