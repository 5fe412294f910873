//! Services of one's own. `dsr_own_service COUNT [transcript]` serves the script on standard input in threads, through a gate that stops every host
//! once it was asked COUNT times, and prints the replies that the clients accepted, or the transcript of the run. `dsr_own_service in-turn SCRIPT TURN..`
//! serves a script through a gate with a schedule: hosts have their turns in this order, such as `r0 c1 !r0`, where `!` stops one, and each turn begins
//! with a byte of standard input. It writes which actor comes with which turn, and then the transcript.
#![tactic(auto)]

mod turnstile;

use crate::turnstile::{Turn, Turnstile};
use dsr_base::read_decimal;
use dsr_hosts::{ServeFault, serve};
use dsr_mail::Logs;
use dsr_names::{
    Actor, ClientId, Outside, Refusal, Sink, read_input, tell, tell_refusal, write_output,
};
use dsr_record::{Record, write};
use dsr_rounds::Gate;
use dsr_script::Script;
use std::alloc::{AllocError, Global};
use std::fmt::Write;
use std::io::{Stdin, Stdout};
use std::process::ExitCode;
use std::sync::Wait;
use std::sync::atomic::AtomicU64;
use std::sync::atomic::Ordering::SeqCst;
use std::thread::Threads;
use std::{env, io};

/// The exit status after a refusal.
const REFUSED: u8 = 1;

/// The exit status if the words are wrong.
const USAGE_FAULT: u8 = 2;

/// The usage message for a wrong command line.
const USAGE: &[u8] =
    b"usage: dsr_own_service COUNT [transcript], or dsr_own_service in-turn SCRIPT TURN..\n";

/// What the words ask for.
#[derive(Drop)]
enum Wanted<'a> {
    /// To serve the script on standard input through a gate that passes `most` checks, and write the transcript, or the replies that clients accept.
    Counted {
        most: u64,
        transcript: bool,
    },
    /// To serve this script by a schedule, and write the transcript.
    InTurn {
        script: &'a [u8],
        schedule: Vec<Turn>,
    },
}

/// A gate that passes the first `most` checks, whichever hosts ask, then refuses all.
#[derive(Drop)]
struct Count {
    most: u64,
    asked: AtomicU64,
}

impl Gate for Count {
    // it may refuse any actor
    ghost may_refuse = { λ gate actor. Unit {0} };

    fn pass(&self, _actor: Actor, _turn: u64) -> bool {
        self.asked.fetch_add(1, SeqCst) < self.most
    }
}

/// Serves the script, and writes the transcript, or the replies that clients accept, also if a fault ended the service.
fn serve_through<R: Threads + Wait + Sync, G: Gate + Sync, O: Sink>(
    rt: &R,
    alloc: Global,
    script: &Script,
    gate: &G,
    transcript: bool,
    output: &mut O,
) -> Result<(), Refusal> {
    let (logs, end) = ended(serve(rt, alloc, script, gate));
    if transcript {
        write_transcript(alloc, &logs, output)?;
    } else {
        write_accepted(alloc, &logs, output)?;
    }
    end
}

/// Returns the logs of a service that has ended, and why it did if a fault ended it.
fn ended(served: Result<Logs, ServeFault>) -> (Logs, Result<(), Refusal>) {
    match served {
        Ok(logs) => (logs, Ok(())),
        Err(fault) => (fault.logs, Err(fault.cause)),
    }
}

/// Writes the transcript of these logs.
fn write_transcript<O: Sink>(alloc: Global, logs: &Logs, output: &mut O) -> Result<(), Refusal> {
    let recorded = Record::of_logs(alloc, logs)?;
    write(alloc, &recorded, output)
}

/// Writes a line for each reply that a client accepted.
fn write_accepted<O: Sink>(alloc: Global, logs: &Logs, output: &mut O) -> Result<(), Refusal> {
    let mut text = String::new(alloc);
    for number in 0..logs.shape().m() {
        let client = ClientId::of(number);
        for reply in logs.accepted(client) {
            let (number, place, answer) = (reply.number, reply.place, reply.answer);
            writeln!(text, "accepted {client} {number} {place} {answer}")?;
        }
    }
    write_output(output, text.as_bytes())
}

/// Returns what the words ask for; `None` if they are wrong, or memory runs out.
fn wanted_by<'a>(alloc: Global, words: &'a [String]) -> Option<Wanted<'a>> {
    match words {
        [first, script, turns @ ..] if first.as_bytes() == b"in-turn".as_slice() => {
            let script = script.as_bytes();
            let schedule = read_schedule(alloc, turns)?;
            Some(Wanted::InTurn { script, schedule })
        }
        [most] => counted(most.as_bytes(), false),
        [most, word] if word.as_bytes() == b"transcript".as_slice() => {
            counted(most.as_bytes(), true)
        }
        _ => None,
    }
}

/// Returns what is wanted if this word is a count.
fn counted<'a>(word: &[u8], transcript: bool) -> Option<Wanted<'a>> {
    let most = read_decimal(word)?;
    Some(Wanted::Counted { most, transcript })
}

/// Returns the turns that the words spell, if each spells one.
fn read_schedule(alloc: Global, words: &[String]) -> Option<Vec<Turn>> {
    let mut turns = Vec::with_capacity(alloc, words.len()).ok()?;
    for word in words {
        turns.push(Turn::read(word.as_bytes())?).ok()?;
    }
    Some(turns)
}

/// Does what is wanted.
fn run<R: Threads + Wait + Sync>(
    rt: &R,
    alloc: Global,
    stdin: Stdin,
    stdout: Stdout,
    wanted: Wanted,
) -> Result<(), Refusal> {
    let mut output = Outside(stdout);
    match wanted {
        Wanted::Counted { most, transcript } => {
            let text = read_input(alloc, &mut Outside(stdin))?;
            let script = Script::read(alloc, text.as_slice())?;
            let asked = AtomicU64::new(0);
            let gate = Count { most, asked };
            serve_through(rt, alloc, &script, &gate, transcript, &mut output)
        }
        Wanted::InTurn { script, schedule } => {
            let script = Script::read(alloc, script)?;
            let gate = Turnstile::new(rt, alloc, stdin, stdout, schedule)?;
            serve_through(rt, alloc, &script, &gate, true, &mut output)
        }
    }
}

/// Returns the words of the command line.
fn words_of(rt: &HostRuntime) -> Option<Vec<String>> {
    let words: Result<Vec<String>, AllocError> = env::args(rt).ok()?.skip(1).collect(rt.alloc());
    words.ok()
}

fn main(rt: HostRuntime) -> io::Result<ExitCode> {
    let mut errors = Outside(rt.stderr());
    let words = words_of(&rt).unwrap_or(Vec::new(rt.alloc()));
    let Some(wanted) = wanted_by(rt.alloc(), words.as_slice()) else {
        tell(&mut errors, USAGE);
        return Ok(ExitCode::from(USAGE_FAULT));
    };
    match run(&rt, rt.alloc(), rt.stdin(), rt.stdout(), wanted) {
        Ok(()) => Ok(ExitCode::SUCCESS),
        Err(refusal) => {
            tell_refusal(&mut errors, refusal);
            Ok(ExitCode::from(REFUSED))
        }
    }
}
