//! Reading of the words.
ghost use Rattle.std.specs.Prelude.{◌≡◌, ◌≢◌, [], ◌∷◌, length, IfSome, IfNone};
ghost use Rattle.command_words.specs.Grammar.{NamesNoStage, Say, SayNothing, stage_word, texts_of};

use crate::numbers::{read_count, read_length, read_rate, read_seed, read_start, read_step};
use crate::{Command, Stage};

/// The command that the words say, without the program's name (own): None exactly where they say
/// none. RATE is a number of megabits a second, 6 to 54 by the table of the rates, SEED is from 1 to
/// 127, LENGTH from 1 to 4095, COUNT from 1 to 1000, START from 0 to
/// 16777215 and STEP from 0 to 63, all in decimal digits with no sign and no leading zero; SCRIPT is any
/// one word, which `read_request` reads, and so is TAPS; a stage is `scrambled`, `coded`, `kept`, `interleaved`,
/// `points`, `header` or `samples`. Takes no memory.
pub fn read_words(words: &Vec<String>) -> Option<Command>
    ensures command { IfSome result (Say (texts_of words.now)) }
    ensures none { IfNone result (SayNothing (texts_of words.now)) }
{
    match words.as_slice() {
        [name] => read_one(name.as_str()),
        [name, text] => read_two(name.as_str(), text.as_str()),
        _ => read_longer(words),
    }
}

// The command of more than two words, or of none.
fn read_longer(words: &Vec<String>) -> Option<Command>
    requires one { length words.now.items ≢ 1 }
    requires two { length words.now.items ≢ 2 }
    ensures command { IfSome result (Say (texts_of words.now)) }
    ensures none { IfNone result (SayNothing (texts_of words.now)) }
{
    match words.as_slice() {
        [name, a, b] => read_three(name.as_str(), a.as_str(), b.as_str()),
        [name, a, b, c] => read_four(name.as_str(), a.as_str(), b.as_str(), c.as_str()),
        _ => None,
    }
}

// The command of one word.
fn read_one(name: &str) -> Option<Command>
    ensures command { IfSome result (Say (name.now ∷ [])) }
    ensures none { IfNone result (SayNothing (name.now ∷ [])) }
{
    match name {
        "inspect" => Some(Command::Inspect),
        "receive" => Some(Command::Receive),
        "send-list" => Some(Command::SendList),
        _ => None,
    }
}

// The command of two words.
fn read_two(name: &str, a: &str) -> Option<Command>
    ensures command { IfSome result (Say (name.now ∷ a.now ∷ [])) }
    ensures none { IfNone result (SayNothing (name.now ∷ a.now ∷ [])) }
{
    match name {
        "drill" => Some(Command::Drill {
            count: read_count(a)?,
        }),
        "receive-at" => Some(Command::ReceiveAt {
            start: read_start(a)?,
        }),
        "receive-phase" => Some(Command::ReceivePhase {
            start: read_start(a)?,
        }),
        "noise" => Some(Command::Noise),
        "echo" => Some(Command::Echo),
        _ => None,
    }
}

// The command of three words.
fn read_three(name: &str, a: &str, b: &str) -> Option<Command>
    ensures command { IfSome result (Say (name.now ∷ a.now ∷ b.now ∷ [])) }
    ensures none { IfNone result (SayNothing (name.now ∷ a.now ∷ b.now ∷ [])) }
{
    match name {
        "bits" => Some(Command::Bits {
            rate: read_rate(a)?,
            seed: read_seed(b)?,
        }),
        "decode" => Some(Command::Decode {
            rate: read_rate(a)?,
            length: read_length(b)?,
        }),
        "decode-soft" => Some(Command::DecodeSoft {
            rate: read_rate(a)?,
            length: read_length(b)?,
        }),
        "send" => Some(Command::Send {
            rate: read_rate(a)?,
            seed: read_seed(b)?,
        }),
        "rotate" => Some(Command::Rotate {
            start: read_start(a)?,
            step: read_step(b)?,
        }),
        _ => None,
    }
}

// The command of four words.
fn read_four(name: &str, a: &str, b: &str, c: &str) -> Option<Command>
    ensures command { IfSome result (Say (name.now ∷ a.now ∷ b.now ∷ c.now ∷ [])) }
    ensures none { IfNone result (SayNothing (name.now ∷ a.now ∷ b.now ∷ c.now ∷ [])) }
{
    match name {
        "show" => Some(Command::Show {
            stage: read_stage(a)?,
            rate: read_rate(b)?,
            seed: read_seed(c)?,
        }),
        _ => None,
    }
}

// The stage that a word names.
fn read_stage(word: &str) -> Option<Stage>
    ensures stage { IfSome result (λ stage. word.now ≡ stage_word stage) }
    ensures none { IfNone result (NamesNoStage word.now) }
{
    match word {
        "scrambled" => Some(Stage::Scrambled),
        "coded" => Some(Stage::Coded),
        "kept" => Some(Stage::Kept),
        "interleaved" => Some(Stage::Interleaved),
        "points" => Some(Stage::Points),
        "header" => Some(Stage::Header),
        "samples" => Some(Stage::Samples),
        _ => None,
    }
}
