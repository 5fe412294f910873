//! The program `dsr`: a directory of named registers, kept by replicas although some of them may be traitors.
#![tactic(auto)]

use dsr_cli::{NO_MEMORY, USAGE_FAULT};
use dsr_names::Outside;
use std::alloc::AllocError;
use std::io::{ErrorKind, Write};
use std::process::ExitCode;
use std::{env, io};

/// Writes on standard error why the words could not be read, and returns the exit status for that.
fn refuse_words(rt: &HostRuntime, kind: ErrorKind) -> ExitCode {
    let (text, status) = match kind {
        ErrorKind::OutOfMemory => ("dsr: no memory\n", NO_MEMORY),
        _ => (
            "dsr: the words of the command line are no text\n",
            USAGE_FAULT,
        ),
    };
    // If this cannot be written either, only the status reports it.
    let _ = rt.stderr().write_all(text.as_bytes());
    ExitCode::from(status)
}

fn main(rt: HostRuntime) -> io::Result<ExitCode> {
    let words = match env::args(&rt) {
        Ok(words) => words,
        Err(error) => return Ok(refuse_words(&rt, error.kind())),
    };
    let words: Result<Vec<String>, AllocError> = words.skip(1).collect(rt.alloc());
    let Ok(words) = words else {
        return Ok(refuse_words(&rt, ErrorKind::OutOfMemory));
    };
    let status = dsr_cli::run(
        &rt,
        rt.alloc(),
        words.as_slice(),
        &mut Outside(rt.stdin()),
        &mut Outside(rt.stdout()),
        &mut Outside(rt.stderr()),
    );
    Ok(ExitCode::from(status))
}
