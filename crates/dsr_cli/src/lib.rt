//! The program `dsr`, for any words, reader and writers.
#![tactic(auto)]

mod explain;
mod serve;
mod serve_report;
mod transcribe_service;

ghost use Rattle.std.specs.Prelude.{◌≡◌, ◌+◌, ◌<◌, ◌≤◌, Err, IfErr, IfOk, Ok, OnOk, length, map};
ghost use Rattle.dsr_names.specs.Limits.{most_calls};
ghost use Rattle.dsr_names.specs.Refusal.{refusal_line};
ghost use Rattle.dsr_names.specs.declared.refusal.Refusal.TheVariants.{WriteFailed};
ghost use Rattle.dsr_names.specs.Streams.{CanFailToTake, Sent, SentAll, SentPrefix, streams};
ghost use Rattle.dsr_command.specs.Asked.{asked_of};
ghost use Rattle.dsr_command.specs.declared.Task.TheVariants.{Play};
ghost use Rattle.dsr_command.specs.Readings.{IfDo, IfHelp, IfUsage, IfVersion, OnNoMemory, OnNoTask};
ghost use Rattle.dsr_reports.specs.Played.{LeftAfterPlay, PlayedAll, form_of};
ghost use Rattle.dsr_cli.specs.Status.{StatusFor, RanOut, HasEndedAs, IsAlone, LeftAfter, WhatShowingLeft, WhatTaskLeft, IfNoTask, ending_of, run_of, status_after, status_of};

use crate::explain::run_explain;
use crate::serve::run_serve;
use crate::transcribe_service::transcribe_service;
use dsr_command::{Reading, Task, read_words};
pub use dsr_explain::Outlet;
use dsr_history::run_apply;
use dsr_names::{Refusal, Sink, Source, tell, tell_refusal, write_output};
use dsr_reports::{run_check, run_play, transcribe_play};
use std::alloc::Global;
use std::convert::AsStr;
use std::sync::Wait;
use std::thread::Threads;

/// The exit status if all that was asked for was done.
const DONE: u8 = 0;

/// The exit status after a refusal other than running out of memory, and after a strict play with a refused event.
const REFUSED: u8 = 1;

/// The exit status after words that the program does not know, or that are not text.
pub const USAGE_FAULT: u8 = 2;

/// The exit status if memory ran out.
pub const NO_MEMORY: u8 = 3;

/// The end of a task that was not refused.
#[derive(Clone, Copy)]
enum Ending {
    /// The task was done.
    Done,
    /// A strict play was played and all its output written, but some of its events were refused.
    Unmet,
}

/// Does what the words ask for and returns the program's exit status: 0 if it was done, 1 after a refusal other
/// than running out of memory, 2 after words that the program does not know, and 3 if memory ran out. The words are those
/// after the program's own name; no words mean `apply`. A refusal is written on `errors` as `dsr: ` and its text, and a
/// usage fault as its text; the help and the version go to `output`. With 0 nothing is written on `errors`. Only a task
/// reads the input. `input`, `output` and `errors` are called at most `MOST_CALLS` times each.
///
/// A refused event does not refuse the play: the report counts it, and the transcript does not mention it. A strict play with a refused event
/// writes the same, but returns 1, with nothing on `errors`. If memory ran out for an event, the report or the transcript is written and then
/// `NoMemory` on `errors`. A refusal that ends a service before all clients are served is treated alike: the report or the transcript of what
/// was done until then is written, and then the refusal on `errors`; if memory ran out, perhaps only the refusal.
///
/// The explanation of a long play goes to `output` in parts, if that takes parts: if memory runs out, only the text about some of the first events may have
/// been written.
///
/// A service starts threads and waits for them; no other task does.
///
/// A program should end after the call: the memory of a play is not freed.
pub fn run<R: Threads + Wait + Sync, S: AsStr, I: Source, O: Outlet, E: Sink>(
    rt: &R,
    alloc: Global,
    words: &[S],
    input: &mut I,
    output: &mut O,
    errors: &mut E,
) -> u8
    ensures status { StatusFor (asked_of (map S.text words.now)) result
        (run_of (streams (I.input input.old) (O.output output.old) (O.output output.new)) (E.output errors.old) (E.output errors.new)) }
    ensures unread { IfNoTask (asked_of (map S.text words.now)) (input.new ≡ input.old) }
    ensures quiet { result ≡ 0 → errors.new ≡ errors.old }
    ensures reads { (I.input input.new).calls ≤ (I.input input.old).calls + most_calls }
    ensures writes { (O.output output.new).calls ≤ (O.output output.old).calls + most_calls }
    ensures tells { (E.output errors.new).calls ≤ (E.output errors.old).calls + most_calls }
{
    let reading = read_words(alloc, words);
    obey(rt, alloc, reading, input, output, errors)
}

/// Does the task, and returns the status that `run` returns after words that ask for this task. Requires a task that starts no threads, so it is
/// for callers that have none. The notes at `run` on strict plays, memory and calls hold here too.
pub fn run_task<I: Source, O: Outlet, E: Sink>(
    alloc: Global,
    task: Task,
    input: &mut I,
    output: &mut O,
    errors: &mut E,
) -> u8
    requires { IsAlone task }
    ensures task { WhatTaskLeft task result
        (run_of (streams (I.input input.old) (O.output output.old) (O.output output.new)) (E.output errors.old) (E.output errors.new)) }
    ensures quiet { result ≡ 0 → errors.new ≡ errors.old }
    ensures reads { (I.input input.new).calls ≤ (I.input input.old).calls + most_calls }
    ensures writes { (O.output output.new).calls ≤ (O.output output.old).calls + most_calls }
    ensures tells { (E.output errors.new).calls ≤ (E.output errors.old).calls + most_calls }
{
    let done = perform_alone(alloc, task, input, output);
    status_after(done, errors)
}

/// Does what the reading of the words says, and returns the status.
fn obey<R: Threads + Wait + Sync, I: Source, O: Outlet, E: Sink>(
    rt: &R,
    alloc: Global,
    reading: Reading,
    input: &mut I,
    output: &mut O,
    errors: &mut E,
) -> u8
    ensures task { IfDo reading (λ named. WhatTaskLeft named result
        (run_of (streams (I.input input.old) (O.output output.old) (O.output output.new)) (E.output errors.old) (E.output errors.new))) }
    ensures version { IfVersion reading (λ line. WhatShowingLeft line result
        (run_of (streams (I.input input.old) (O.output output.old) (O.output output.new)) (E.output errors.old) (E.output errors.new))) }
    ensures help { IfHelp reading (λ text. WhatShowingLeft text result
        (run_of (streams (I.input input.old) (O.output output.old) (O.output output.new)) (E.output errors.old) (E.output errors.new))) }
    ensures usage { IfUsage reading (λ text. (result ≡ 2) × (O.output output.new).contents ≡ (O.output output.old).contents
        × Sent text (E.output errors.old) (E.output errors.new)) }
    ensures no_memory { OnNoMemory reading (RanOut result
        (run_of (streams (I.input input.old) (O.output output.old) (O.output output.new)) (E.output errors.old) (E.output errors.new))) }
    ensures unread { OnNoTask reading (input.new ≡ input.old) }
    ensures quiet { result ≡ 0 → errors.new ≡ errors.old }
    ensures reads { (I.input input.new).calls ≤ (I.input input.old).calls + most_calls }
    ensures writes { (O.output output.new).calls ≤ (O.output output.old).calls + most_calls }
    ensures tells { (E.output errors.new).calls ≤ (E.output errors.old).calls + most_calls }
{
    match reading {
        Reading::Do(task) => {
            let done = perform(rt, alloc, task, input, output);
            status_after(done, errors)
        }
        Reading::Help(text) => show(text.as_str(), output, errors),
        Reading::Version(line) => show(line.as_str(), output, errors),
        Reading::Usage(text) => {
            tell(errors, text.as_bytes());
            USAGE_FAULT
        }
        Reading::NoMemory => refuse(errors, Refusal::NoMemory),
    }
}

/// Does the task.
#[tactic(auto, using(crate::proofs::StatusLemmas::endings))]
fn perform<R: Threads + Wait + Sync, I: Source, O: Outlet>(
    rt: &R,
    alloc: Global,
    task: Task,
    input: &mut I,
    output: &mut O,
) -> Result<Ending, Refusal>
    ensures done { IfOk result (λ ending. HasEndedAs ending task (streams (I.input input.old) (O.output output.old) (O.output output.new))) }
    ensures refused { IfErr result (λ refusal. LeftAfter task refusal (streams (I.input input.old) (O.output output.old) (O.output output.new))) }
    ensures reads { (I.input input.new).calls ≤ (I.input input.old).calls + most_calls }
    ensures writes { (O.output output.new).calls ≤ (O.output output.old).calls + most_calls }
{
    match task {
        Task::Serve { transcript: false } => ended(run_serve(rt, alloc, input, output)),
        Task::Serve { transcript: true } => ended(transcribe_service(rt, alloc, input, output)),
        Task::Apply | Task::Play { .. } | Task::Check | Task::Explain(_) => {
            perform_alone(alloc, task, input, output)
        }
    }
}

/// Does a task that starts no threads.
#[tactic(auto, using(crate::proofs::StatusLemmas::endings))]
fn perform_alone<I: Source, O: Outlet>(
    alloc: Global,
    task: Task,
    input: &mut I,
    output: &mut O,
) -> Result<Ending, Refusal>
    requires { IsAlone task }
    ensures done { IfOk result (λ ending. HasEndedAs ending task (streams (I.input input.old) (O.output output.old) (O.output output.new))) }
    ensures refused { IfErr result (λ refusal. LeftAfter task refusal (streams (I.input input.old) (O.output output.old) (O.output output.new))) }
    ensures reads { (I.input input.new).calls ≤ (I.input input.old).calls + most_calls }
    ensures writes { (O.output output.new).calls ≤ (O.output output.old).calls + most_calls }
{
    match task {
        Task::Apply => ended(run_apply(alloc, input, output)),
        Task::Play { strict, transcript } => perform_play(alloc, strict, transcript, input, output),
        Task::Serve { .. } => unreachable!(),
        Task::Check => ended(run_check(alloc, input, output)),
        Task::Explain(narrowing) => ended(run_explain(alloc, &narrowing, input, output)),
    }
}

/// Plays the play, strict or not, and writes its transcript or its report.
fn perform_play<I: Source, O: Sink>(
    alloc: Global,
    strict: bool,
    transcript: bool,
    input: &mut I,
    output: &mut O,
) -> Result<Ending, Refusal>
    ensures done { IfOk result (λ ending. HasEndedAs ending (Play strict transcript) (streams (I.input input.old) (O.output output.old) (O.output output.new))) }
    ensures refused { IfErr result (λ refusal. LeftAfter (Play strict transcript) refusal
        (streams (I.input input.old) (O.output output.old) (O.output output.new))) }
    ensures reads { (I.input input.new).calls ≤ (I.input input.old).calls + most_calls }
    ensures writes { (O.output output.new).calls ≤ (O.output output.old).calls + most_calls }
{
    match tell_play(alloc, transcript, input, output) {
        Ok(refused) => Ok(play_ending(strict, refused)),
        Err(refusal) => Err(refusal),
    }
}

/// Plays the play, writes its transcript or its report, and returns how many of its events were refused.
fn tell_play<I: Source, O: Sink>(
    alloc: Global,
    transcript: bool,
    input: &mut I,
    output: &mut O,
) -> Result<u64, Refusal>
    ensures done { IfOk result (λ refused. PlayedAll (form_of transcript) refused
        (streams (I.input input.old) (O.output output.old) (O.output output.new))) }
    ensures refused { IfErr result (λ refusal. LeftAfterPlay (form_of transcript) refusal
        (streams (I.input input.old) (O.output output.old) (O.output output.new))) }
    ensures reads { (I.input input.new).calls ≤ (I.input input.old).calls + most_calls }
    ensures writes { (O.output output.new).calls ≤ (O.output output.old).calls + most_calls }
{
    if transcript {
        transcribe_play(alloc, input, output)
    } else {
        run_play(alloc, input, output)
    }
}

/// Returns the end of a task that is either refused or done.
fn ended(done: Result<(), Refusal>) -> Result<Ending, Refusal>
    ensures done { OnOk done (result ≡ Ok Ending.Done) }
    ensures refused { IfErr done (λ refusal. result ≡ Err refusal) }
{
    match done {
        Ok(()) => Ok(Ending::Done),
        Err(refusal) => Err(refusal),
    }
}

/// Returns the end of a play with `refused` refused events.
fn play_ending(strict: bool, refused: u64) -> Ending
    ensures { result ≡ ending_of strict refused }
{
    if strict && 0 < refused {
        Ending::Unmet
    } else {
        Ending::Done
    }
}

/// Returns the exit status of a task with this end. Writes a refusal on `errors`, and nothing else.
fn status_after<E: Sink>(done: Result<Ending, Refusal>, errors: &mut E) -> u8
    ensures done { IfOk done (λ ending. result ≡ status_after ending) }
    ensures silent { OnOk done (errors.new ≡ errors.old) }
    ensures refused { IfErr done (λ refusal. (result ≡ status_of refusal)
        × Sent (refusal_line refusal) (E.output errors.old) (E.output errors.new)) }
    ensures quiet { result ≡ 0 → errors.new ≡ errors.old }
    ensures tells { (E.output errors.new).calls ≤ (E.output errors.old).calls + most_calls }
{
    match done {
        Ok(Ending::Done) => DONE,
        Ok(Ending::Unmet) => REFUSED,
        Err(refusal) => refuse(errors, refusal),
    }
}

/// Shows the text of the help or of the version. Returns 0 if all of it went out, and 1 if the sink failed, after a prefix of it.
fn show<O: Sink, E: Sink>(text: &str, output: &mut O, errors: &mut E) -> u8
    ensures whole { result ≡ 0 → SentAll text.now (O.output output.old) (O.output output.new) }
    ensures part { 0 < result → (result ≡ 1) × CanFailToTake (length text.now) (O.output output.old)
        × SentPrefix text.now (O.output output.old) (O.output output.new)
        × Sent (refusal_line WriteFailed) (E.output errors.old) (E.output errors.new) }
    ensures quiet { result ≡ 0 → errors.new ≡ errors.old }
    ensures writes { (O.output output.new).calls ≤ (O.output output.old).calls + most_calls }
    ensures tells { (E.output errors.new).calls ≤ (E.output errors.old).calls + most_calls }
{
    match write_output(output, text.as_bytes()) {
        Ok(()) => DONE,
        Err(refusal) => refuse(errors, refusal),
    }
}

/// Writes the refusal on `errors`, and returns the program's exit status for it.
fn refuse<E: Sink>(errors: &mut E, refusal: Refusal) -> u8
    ensures status { result ≡ status_of refusal }
    ensures some { 0 < result }
    ensures told { Sent (refusal_line refusal) (E.output errors.old) (E.output errors.new) }
    ensures tells { (E.output errors.new).calls ≤ (E.output errors.old).calls + most_calls }
{
    tell_refusal(errors, refusal);
    match refusal {
        Refusal::NoMemory => NO_MEMORY,
        _ => REFUSED,
    }
}
