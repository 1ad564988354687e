//! The program.
#![tactic(auto)]

use fcg_bytes::{HostFiles, StdSink, StdSource};
use fcg_top::{run, tell_no_memory};
use std::io::ErrorKind;
use std::process::ExitCode;
use std::{env, io};

// Makes the real objects and runs the command. Words that can't be read, such as one that isn't UTF-8, are those of
// no command; where there is no memory for them nothing is run.
fn main(rt: HostRuntime) -> ExitCode {
    let mut input = StdSource::new(rt.stdin());
    let mut output = StdSink::new(rt.stdout());
    let mut errors = StdSink::new(rt.stderr());
    let mut files = HostFiles::new(&rt);
    let words = match words(&rt) {
        Ok(words) => words,
        Err(error) if error.kind() == ErrorKind::OutOfMemory => {
            return ExitCode::from(tell_no_memory(&mut errors).code());
        }
        Err(_) => Vec::new(rt.alloc()),
    };
    let status = run(
        rt.alloc(),
        &words,
        &mut input,
        &mut output,
        &mut errors,
        &mut files,
    );
    ExitCode::from(status.code())
}

// The words after the program's name.
fn words(rt: &(impl std::rt::Env + AllocGlobal)) -> io::Result<Vec<String>> {
    let mut words = Vec::new(rt.alloc());
    for word in env::args(rt)?.skip(1) {
        words.push(word)?;
    }
    Ok(words)
}
