//! `flowdir MODE [options]`: reads a packet capture on standard input, and reports on standard output.
#![tactic(auto)]

use crate::complaints::{Ended, complain, say_status};
use crate::tail_sink::TailSink;
use edge_traits::{OpenGate, StdSink, StdSource};
use std::process::ExitCode;
use std::{env, io};
use trace_runner::{Status, run};

mod complaints;
mod tail_sink;
#[cfg(test)]
mod tests;

fn main(rt: HostRuntime) -> ExitCode {
    // What cannot be said on standard error is not.
    let words = match words_of(&rt) {
        Ok(words) => words,
        Err(status) => {
            let _ = say_status(&rt, status);
            return ExitCode::from(status.code());
        }
    };
    let mut beyond = None;
    let mut source = StdSource::new(rt.stdin());
    let mut sink = TailSink::new(StdSink::new(rt.stdout()));
    let status = run(
        &rt,
        rt.alloc(),
        &words,
        &mut source,
        &mut sink,
        &OpenGate,
        &mut beyond,
    );
    let ended = Ended {
        status,
        words: &words,
        beyond,
        no_room: sink.no_room(),
    };
    let _ = complain(&rt, &ended);
    ExitCode::from(status.code())
}

/// The words after the program's name.
///
/// A word that is not UTF-8 is none of the command's, so it is `Status::Usage`.
fn words_of(rt: &HostRuntime) -> Result<Vec<String>, Status> {
    let all = match env::args(rt) {
        Ok(all) => all,
        Err(error) if error.kind() == io::ErrorKind::OutOfMemory => return Err(Status::Memory),
        Err(_) => return Err(Status::Usage),
    };
    match all.skip(1).collect(rt.alloc()) {
        Ok(words) => Ok(words),
        Err(_) => Err(Status::Memory),
    }
}
