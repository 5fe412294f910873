//! The program `dsr_rows`: reads rows, makes the calls that they name, and writes the rows with each call's answer.
#![tactic(auto)]

mod answering;
mod groups;
mod histories;
mod plays;
mod records;

use crate::answering::answer_rows;
use dsr_names::{Outside, tell_refusal};
use std::io;
use std::process::ExitCode;

/// The exit status after a refusal.
const REFUSED: u8 = 1;

fn main(rt: HostRuntime) -> io::Result<ExitCode> {
    let (mut input, mut output) = (Outside(rt.stdin()), Outside(rt.stdout()));
    match answer_rows(rt.alloc(), &mut input, &mut output) {
        Ok(()) => Ok(ExitCode::SUCCESS),
        Err(refusal) => {
            tell_refusal(&mut Outside(rt.stderr()), refusal);
            Ok(ExitCode::from(REFUSED))
        }
    }
}
