//! The program: its words, its standard streams, its clock, and the top call.
#![tactic(auto)]

use fp_app::{Status, run_within};
use fp_ends::{StdClock, StdSink, StdSource};
use std::process::ExitCode;
use std::{env, io};

// The number with which the program ends where the system doesn't hand over its words as text. No
// run begins then, so it is no `Status` of one.
const NO_WORDS: u8 = 41;

fn main(rt: HostRuntime) -> ExitCode {
    let mut clock = StdClock::new(&rt);
    let words = match words(&rt) {
        Ok(words) => words,
        Err(error) if error.kind() == io::ErrorKind::OutOfMemory => {
            return ExitCode::from(Status::NoMemory.code());
        }
        Err(_) => return ExitCode::from(NO_WORDS),
    };
    let mut source = StdSource::new(rt.stdin());
    let mut sink = StdSink::new(rt.stdout());
    let mut notes = StdSink::new(rt.stderr());
    let ran = run_within(
        rt.alloc(),
        &words,
        &mut source,
        &mut sink,
        &mut clock,
        &mut notes,
    );
    ExitCode::from(ran.status.code())
}

// The words after the program's name.
fn words(rt: &HostRuntime) -> io::Result<Vec<String>> {
    let mut words = Vec::new(rt.alloc());
    for word in env::args(rt)?.skip(1) {
        words.push(word)?;
    }
    Ok(words)
}
