//! The words of the command line, the commands that they say, and what they ask for. No call takes
//! memory.
#![tactic(auto)]

use echo_taps::Taps;
use noise_script::Script;
use ofdm_scrambler::Seed;
use rate_table::Rate;

mod asking;
mod numbers;
mod words;

pub use asking::read_request;
pub use words::read_words;

/// A stage of the transmitter, whose text `show` writes (own).
#[derive(Clone, Copy, Debug, PartialEq, Eq)]
pub enum Stage {
    /// The code of SIGNAL.
    Header,
    /// The bits of the DATA field.
    Scrambled,
    /// Its code before puncturing.
    Coded,
    /// Its kept code.
    Kept,
    /// The bits of all its symbols after interleaving.
    Interleaved,
    /// The points of all its symbols.
    Points,
    /// The samples of the frame.
    Samples,
}

/// A command, as its words say it (own).
#[derive(Clone, Copy, Debug, PartialEq, Eq)]
pub enum Command {
    /// `bits RATE SEED`
    Bits {
        rate: Rate,
        seed: Seed,
    },
    /// `decode RATE LENGTH`
    Decode {
        rate: Rate,
        length: u16,
    },
    /// `decode-soft RATE LENGTH`
    DecodeSoft {
        rate: Rate,
        length: u16,
    },
    /// `send RATE SEED`
    Send {
        rate: Rate,
        seed: Seed,
    },
    /// `noise SCRIPT`, whatever the text is that stands for the script.
    Noise,
    /// `send-list`
    SendList,
    /// `echo TAPS`, whatever the text is that stands for the taps.
    Echo,
    /// `rotate START STEP`
    Rotate {
        start: u32,
        step: u32,
    },
    /// `receive`
    Receive,
    /// `receive-at START`
    ReceiveAt {
        start: u32,
    },
    /// `receive-phase START`
    ReceivePhase {
        start: u32,
    },
    /// `inspect`
    Inspect,
    /// `drill COUNT`
    Drill {
        count: u32,
    },
    /// `show STAGE RATE SEED`
    Show {
        stage: Stage,
        rate: Rate,
        seed: Seed,
    },
}

/// What the words ask for: a command, with what its text says (own).
#[derive(Drop)]
pub enum Request {
    /// The kept code of a PSDU's field.
    Bits {
        rate: Rate,
        seed: Seed,
    },
    /// The PSDU of the field that is nearest to a text of bits.
    Decode {
        rate: Rate,
        length: u16,
    },
    /// The PSDU of the soft field of a text of costs.
    DecodeSoft {
        rate: Rate,
        length: u16,
    },
    /// The samples of a PSDU's frame.
    Send {
        rate: Rate,
        seed: Seed,
    },
    /// The samples of a capture after a script.
    Noise {
        script: Script,
    },
    /// The samples of a list of frames.
    SendList,
    /// The echo of a capture's samples.
    Echo {
        taps: Taps,
    },
    /// The samples of a capture with the symbols from a start on turned.
    Rotate {
        start: u32,
        step: u32,
    },
    /// A line for each frame of a capture, and for the cut that it ends in.
    Receive,
    /// The line of the frame that begins at a place of a capture.
    ReceiveAt {
        start: u32,
    },
    /// The same, each of the frame's symbols turned back by its pilots.
    ReceivePhase {
        start: u32,
    },
    /// A line for each edge of a capture.
    Inspect,
    /// The summary of a drill of so many frames.
    Drill {
        count: u32,
    },
    /// The text of a stage.
    Show {
        stage: Stage,
        rate: Rate,
        seed: Seed,
    },
}
