//! Threads at a mail. `dsr_mail_tries SEED TRIES SEATS SHAPE` opens a mail of the shape, such as `4 1 2 r0`, has each thread make TRIES random tries
//! at its seats, at most SEATS of them, and writes the transcript of the resulting run. The same words give the same random choices, but
//! not the same run: which try succeeds depends on the threads. No try waits.
//!
//! Without words it has two clients ask in threads, one after the other, and writes the replies that they accepted. Client 0 writes a register. Once it
//! has its reply, its thread hands on a moment, a token of no bytes that represents the run so far. Client 1's seat is shown this moment, and then
//! client 1 reads the register. The mail is closed after the moment. So whatever the threads do, client 0's request has the lower place in the history
//! (`ask_in_order`: `ordered`).
#![tactic(auto)]

mod asking;
mod client;
mod dice;
mod order;
mod plan;
mod player;
mod replica;
mod traitor;
mod tries;

use crate::order::ask_in_order;
use crate::plan::Plan;
use crate::tries::logs_of;
use dsr_mail::Logs;
use dsr_names::{ClientId, Outside, Refusal, Sink, tell, tell_refusal, write_output};
use dsr_record::{Record, write};
use std::alloc::{AllocError, Global};
use std::fmt::Write;
use std::process::ExitCode;
use std::thread::Threads;
use std::{env, io};

/// The exit status after a refusal.
const REFUSED: u8 = 1;

/// The exit status if the words are wrong.
const USAGE_FAULT: u8 = 2;

/// What the words ask for.
#[derive(Drop)]
enum Task {
    /// Random tries.
    Tries(Plan),
    /// Two clients, one after the other.
    TwoClients,
}

impl Task {
    /// Reads the words of the command line. `None` if they are wrong.
    fn read(words: &[String]) -> Option<Task> {
        if words.is_empty() {
            Some(Task::TwoClients)
        } else {
            Plan::read(words).map(Task::Tries)
        }
    }
}

/// Does what the words ask for.
fn run<R: Threads + Sync, S: Sink>(
    rt: &R,
    alloc: Global,
    task: &Task,
    output: &mut S,
) -> Result<(), Refusal> {
    match task {
        Task::Tries(plan) => {
            let logs = logs_of(rt, alloc, plan)?;
            let recorded = Record::of_logs(alloc, &logs)?;
            write(alloc, &recorded, output)
        }
        Task::TwoClients => {
            let logs = ask_in_order(rt, alloc)?;
            write_accepted(alloc, &logs, output)
        }
    }
}

/// Writes a line for each reply that a client accepted.
fn write_accepted<S: Sink>(alloc: Global, logs: &Logs, output: &mut S) -> Result<(), Refusal> {
    let mut text = String::new(alloc);
    for number in 0..logs.shape().m() {
        let client = ClientId::of(number);
        for reply in logs.accepted(client) {
            let (number, place, answer) = (reply.number, reply.place, reply.answer);
            writeln!(text, "accepted {client} {number} {place} {answer}")?;
        }
    }
    write_output(output, text.as_bytes())
}

/// Returns what the words of the command line ask for. `None` if they are wrong.
fn task_of(rt: &HostRuntime) -> Option<Task> {
    let words = env::args(rt).ok()?;
    let words: Result<Vec<String>, AllocError> = words.skip(1).collect(rt.alloc());
    Task::read(words.ok()?.as_slice())
}

fn main(rt: HostRuntime) -> io::Result<ExitCode> {
    let mut errors = Outside(rt.stderr());
    let Some(task) = task_of(&rt) else {
        tell(
            &mut errors,
            b"usage: dsr_mail_tries [SEED TRIES SEATS SHAPE]\n",
        );
        return Ok(ExitCode::from(USAGE_FAULT));
    };
    match run(&rt, rt.alloc(), &task, &mut Outside(rt.stdout())) {
        Ok(()) => Ok(ExitCode::SUCCESS),
        Err(refusal) => {
            tell_refusal(&mut errors, refusal);
            Ok(ExitCode::from(REFUSED))
        }
    }
}
