//! What the words ask for.
ghost use Rattle.std.specs.Prelude.{IfOk, IfErr};
ghost use Rattle.command_words.specs.Asking.{AreRefusedFor, AskFor};
ghost use Rattle.command_words.specs.Grammar.{Say, echo_words, noise_words, texts_of};
ghost use Rattle.command_words.specs.declared.Command.TheVariants.{Noise};

use crate::words::read_words;
use crate::{Command, Request};
use echo_taps::laws::places_of_taps;
use echo_taps::{TapFault, Taps};
use noise_script::laws::places_of_scripts;
use noise_script::{Script, ScriptFault};
use report_lines::Refusal;

/// What the words ask for, without the program's name (own), or why they ask for nothing: `Words`
/// where they say no command, `BadScript` exactly where the one word behind `noise` is no script, and
/// `BadTaps` exactly where the one behind `echo` is no text of taps, with the place where it is bad. Takes
/// no memory.
pub fn read_request(words: &Vec<String>) -> Result<Request, Refusal>
    ensures request { IfOk result (AskFor (texts_of words.now)) }
    ensures refused { IfErr result (AreRefusedFor (texts_of words.now)) }
{
    let Some(command) = read_words(words) else {
        return Err(Refusal::Words);
    };
    match command {
        Command::Bits { rate, seed } => Ok(Request::Bits { rate, seed }),
        Command::Decode { rate, length } => Ok(Request::Decode { rate, length }),
        Command::DecodeSoft { rate, length } => Ok(Request::DecodeSoft { rate, length }),
        Command::Send { rate, seed } => Ok(Request::Send { rate, seed }),
        Command::Noise => read_noise(words[1].as_str()),
        Command::SendList => Ok(Request::SendList),
        Command::Echo => read_echo(words[1].as_str()),
        Command::Rotate { start, step } => Ok(Request::Rotate { start, step }),
        Command::Receive => Ok(Request::Receive),
        Command::ReceiveAt { start } => Ok(Request::ReceiveAt { start }),
        Command::ReceivePhase { start } => Ok(Request::ReceivePhase { start }),
        Command::Inspect => Ok(Request::Inspect),
        Command::Drill { count } => Ok(Request::Drill { count }),
        Command::Show { stage, rate, seed } => Ok(Request::Show { stage, rate, seed }),
    }
}

// What `noise` asks for by a text.
fn read_noise(text: &str) -> Result<Request, Refusal>
    ensures request { IfOk result (AskFor (noise_words text.now)) }
    ensures refused { IfErr result (AreRefusedFor (noise_words text.now)) }
{
    places_of_scripts();
    match Script::read(text) {
        Ok(script) => Ok(Request::Noise { script }),
        Err(ScriptFault::BadScript { at }) => Err(Refusal::BadScript { at }),
    }
}

// What `echo` asks for by a text.
fn read_echo(text: &str) -> Result<Request, Refusal>
    ensures request { IfOk result (AskFor (echo_words text.now)) }
    ensures refused { IfErr result (AreRefusedFor (echo_words text.now)) }
{
    places_of_taps();
    match Taps::read(text) {
        Ok(taps) => Ok(Request::Echo { taps }),
        Err(TapFault::BadTaps { at }) => Err(Refusal::BadTaps { at }),
    }
}
