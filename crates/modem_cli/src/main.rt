//! A modem for the OFDM physical layer of 802.11a at 20 MHz channel spacing, in whole numbers: the
//! program.
#![tactic(auto)]

pub use command_words::read_words;
pub use frame_drills::{Summary, drill};
pub use frame_stages::stage_text;
use modem_ports::{StdSink, StdSource, Steps};
pub use modem_runs::{dry_run, run};
use report_lines::Status;
use std::env::Env;
use std::process::ExitCode;
use std::{env, io};

// The code where the words of the command line can't be had for another cause than want of memory:
// that of no status.
const NO_WORDS: u8 = 9;

fn main(rt: HostRuntime) -> ExitCode {
    let words = match words_after_name(&rt) {
        Ok(words) => words,
        Err(fault) if fault.kind() == io::ErrorKind::OutOfMemory => {
            return ExitCode::from(Status::NoMemory.code());
        }
        Err(_) => return ExitCode::from(NO_WORDS),
    };
    let mut source = StdSource::new(rt.stdin());
    let mut out = StdSink::new(rt.stdout());
    let mut report = StdSink::new(rt.stderr());
    let mut steps = Steps::new();
    let status = run(
        rt.alloc(),
        &words,
        &mut source,
        &mut out,
        &mut report,
        &mut steps,
    );
    ExitCode::from(status.code())
}

// The words of the command line without the program's name.
fn words_after_name<R: Env + AllocGlobal>(rt: &R) -> io::Result<Vec<String>> {
    Ok(env::args(rt)?.skip(1).collect(rt.alloc())?)
}
