//! A frame after each stage of the transmitter, as values and as texts (IEEE Std 802.11-2012,
//! 18.3.5).
#![tactic(auto)]

ghost use Rattle.std.specs.Prelude.{◌≡◌, length, IfOk};
ghost use Rattle.frame_stages.specs.Stages.{stage_text_of};
ghost use Rattle.rate_table.specs.Symbols.{IsLength};

use bit_lists::put_text;
use command_words::Stage;
use frame_fields::{coded as kept_code, frame_samples, signal_code};
use ofdm_scrambler::Seed;
use rate_table::Rate;
use std::alloc::{AllocError, Global};
use symbol_builder::frame_field;

mod lines;
mod stages;

pub use lines::{pairs_text, samples_text};
pub use stages::{code, interleaved_code, points};

/// The text of a stage of the transmitter, for a PSDU of 1 to 4095 octets: the stage's bits as
/// characters `0` and `1`, and then a newline; or the points, one line `I Q` each in decimal, 48 for
/// each DATA symbol in the order of data numbers; or the samples of the frame, one line `I Q` each
/// (own). The only error is want of memory.
pub fn stage_text(
    alloc: Global,
    stage: Stage,
    rate: Rate,
    seed: Seed,
    psdu: &[u8],
) -> Result<Vec<u8>, AllocError>
    requires { IsLength (length psdu.now) }
    ensures { IfOk result (λ text. text.items ≡ stage_text_of stage rate seed psdu.now) }
{
    match stage {
        Stage::Scrambled => put_text(alloc, &frame_field(alloc, rate, seed, psdu)?),
        Stage::Coded => put_text(alloc, &code(alloc, rate, seed, psdu)?),
        Stage::Kept => put_text(alloc, &kept_code(alloc, rate, seed, psdu)?),
        Stage::Interleaved => put_text(alloc, &interleaved_code(alloc, rate, seed, psdu)?),
        Stage::Points => pairs_text(alloc, &points(alloc, rate, seed, psdu)?),
        Stage::Header => put_text(alloc, &signal_code(rate, psdu.len() as u16)),
        Stage::Samples => samples_text(alloc, &frame_samples(alloc, rate, seed, psdu)?),
    }
}
