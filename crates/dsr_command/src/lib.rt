//! The command line of the program `dsr`. `clap` reads it, except for `--version` and the words after `explain`.
#![tactic(auto)]

mod narrowing;

ghost use Rattle.std.specs.Prelude.{◌≡◌, ◌≢◌, ◌++◌, ◌≤◌, IfOk, codes, false, length, map};
ghost use Rattle.clap.specs.Words.{FailsBy, app_of, fault_of, found_of, kind_of, new_app, rows_of, rule_of, subcommand_of, subcommand_rows_of};
ghost use Rattle.clap.specs.declared.builder.command.Command.TheViews.{out-Command as fields_of};
ghost use Rattle.clap.specs.declared.error.kind.ErrorKind.TheVariants.{DisplayHelp, OutOfMemory, UnknownArgument};
ghost use Rattle.dsr_command.specs.Asked.{all_of_it, an_option, asked_after_explain, asked_of, has_two_hyphens, help, task, unknown, version};
ghost use Rattle.dsr_command.specs.CommandLine.{command_line, flag_rule, is_given, keeping, play_app, program, serve_app, task_entered};
ghost use Rattle.dsr_command.specs.ShownTexts.{IsHelp, IsUsage, title, usage_title, version_line};
ghost use Rattle.dsr_command.specs.Readings.{IfDo, IfHelp, IfUsage, IfVersion, OnHelp, OnUsage, OnVersion};
ghost use Rattle.dsr_command.specs.Wishes.{is_for_explain, is_for_version};
ghost use Rattle.std.proofs.Common.{rules};

use crate::narrowing::{Wish, wish_of};
use clap::error::ErrorKind;
use clap::{Arg, ArgAction, ArgMatches, Command, Error};
use dsr_base::Exact;
pub use narrowing::Narrowing;
use std::alloc::{AllocError, Global};
use std::convert::AsStr;

/// The version line: the program's version, and the logic in which it is proved, as `rt version` names it.
const VERSION: &str = "dsr 1.0.0 (rattle logic dac8208d650f15bf)\n";

/// The first sentence of each help.
const TITLE: &str = "dsr keeps a directory of named registers, each free or holding a number.";

const ABOUT: &str =
    "Clients send it numbered requests: read, write, swap (compare-and-set), remove. It answers each of them.\n\
`dsr apply` keeps one directory. `dsr play` has replicas keep one together, step by step, though some of them may\n\
be traitors; `dsr serve` runs such replicas in threads; `dsr check` checks whether a recorded play or service is a\n\
run, that is, whether each step may follow those before it; and `dsr explain` explains a play's outcome, or why a\n\
recorded step may not follow. Without a command `dsr` does what `dsr apply` does.";

const EXAMPLES: &str = "Example:\n  \
$ printf 'c0 1 write a 5\\nc1 1 swap a 5 6\\nc0 2 read a\\n' | dsr apply\n  \
0 written\n  \
1 swapped\n  \
2 held 6\n\n\
`dsr apply --help` says how to write a request, and what its answer means. `dsr play --help` does the same for\n\
plays and their reports, `dsr serve --help` for scripts, `dsr check --help` for transcripts, and\n\
`dsr explain --help` for explanations. `dsr --version` prints the version.\n\n\
Exit status:\n  \
0  the answers, the report, the transcript, the explanation, the help or the version was written\n  \
1  the input or, with --strict, an event was refused, a service ended early, or reading or writing failed\n  \
2  the words of the command line were not understood\n  \
3  memory ran out";

const APPLY_ABOUT: &str = "Read request lines from standard input, and write one line for each";

const APPLY_EXAMPLE: &str =
    "A line of the input is a request: CLIENT NUMBER OPERATION, with one space between them.\n\
Each line ends with a line feed, the last one too.\n\n  \
CLIENT     c0 to c31\n  \
NUMBER     1 to 1099511627775; a client numbers its own requests, in rising order\n  \
OPERATION  read NAME            answers what the register holds\n             \
write NAME VALUE     makes it hold VALUE\n             \
swap NAME OLD VALUE  compare-and-set: makes it hold VALUE if it holds OLD\n             \
remove NAME          makes it hold nothing\n  \
NAME       1 to 32 of the characters a-z 0-9 . _ -\n  \
VALUE      0 to 18446744073709551615\n  \
OLD        a VALUE, or none: the register holds nothing\n\n\
Each line is answered by a line PLACE ANSWER. PLACE is the number of requests that acted (were executed) before.\n\n  \
held OLD, removed OLD  what the register held\n  \
written, swapped       the register now holds VALUE\n  \
kept OLD               the register held OLD, not what the swap expected, and keeps it\n  \
full                   1,024 registers already hold a value\n\n\
A client that repeats its latest number gets the same answer again, and nothing changes; a lower number gets `old`.\n\n\
Example:\n  \
$ printf 'c0 1 write a 5\\nc0 2 swap a none 6\\nc0 2 swap a none 6\\nc0 1 read a\\n' | dsr apply\n  \
0 written\n  \
1 kept 5\n  \
1 kept 5\n  \
old\n\n\
Nothing is answered before the end of the input, which may have at most 16,777,216 bytes. If line N is the\n\
first bad one, the lines before it are answered, `dsr: bad text in line N` is printed on standard error, and the\n\
exit status is 1. Most often the last line feed is missing, the line ends with CRLF, it has a tab or two spaces,\n\
a number has a leading zero, or the request's number is 0.";

const PLAY_ABOUT: &str =
    "Read a play of replicas and clients from standard input, and write its outcome";

const PLAY_EXAMPLE: &str =
    "A play begins with the line `dsr-play 1 N F M TRAITORS`: N replicas, 1 to 16; at most F traitors among them, with\n\
N >= 2F+1; M clients, 1 to 32; and the traitors, such as r0+r2, or - for none. The other replicas and all clients\n\
are loyal. The lines after it are played in order. Each line ends with a line feed, the last one too. Replicas are r0\n\
to r15, clients c0 to c31.\n\n  \
post A B           the loyal actor A posts to B what the protocol has it post\n  \
post A B from C    the same; the replica A proposes its held requests of the clients C, such as c0+c1\n  \
post A B begin OP  the client A posts a new request to B; OP as in `dsr apply --help`\n  \
plant A B E        the traitor A posts the envelope E to B\n  \
take A B           A takes what B posted to it\n  \
tell A B           the client A tells the client B how much history it knows\n  \
posts A, posts A from C, posts *   A, or each loyal replica, posts to all replicas\n  \
plants A E                         the traitor A posts E to all replicas\n  \
takes A, takes *                   A, or each replica (traitors too), takes from all replicas\n  \
asks A, asks A begin OP            the client A posts to all replicas\n  \
hears A                            each replica (traitors too) takes from the client A\n  \
replies A                          each loyal replica posts to the client A (traitors do not)\n\n\
In a round a replica posts to all replicas, then takes from all, and so closes it. No loyal replica closes a round\n\
before it has taken from each traitor: each traitor A, too, has to post to all replicas, for example with\n\
`plants A empty`. In the first round of its own slot a replica may propose.\n\n\
E is empty; round NUMBER and chains; ask REQUEST~c0; reply NUMBER PLACE ANSWER; or seen PLACE. A chain is\n\
SLOT/VALUE/SIGNERS, such as 0/c0#1:write:a:5~c0/r0+r1; VALUE is idle without requests, for example 0/idle/r0.\n\n\
The report:\n  \
done N, refused N      how many events were done, and how many were refused and changed nothing\n  \
first I E NAME         the first refused event, counted from 0, and why\n  \
accepted C K PLACE A   the client C accepted the answer A, at this place, to its request K\n  \
seen C PLACE           how much history C knows: all places before this one\n  \
decided R VALUES       what the loyal replica R decided, slot by slot, idle for no request; - if no slot is closed\n  \
history N              how many requests acted (were executed); then each of them after its place\n\n\
With --transcript dsr writes the steps of all actors in place of the report, each post and each take in order;\n\
`dsr check --help` explains them.\n\n\
Example:\n  \
$ printf 'dsr-play 1 1 0 1 -\\nasks c0 begin write a 7\\nhears c0\\nposts r0 from c0\\ntakes *\\nreplies c0\\ntakes c0\\n' | dsr play\n  \
done 6\n  \
refused 0\n  \
accepted c0 1 0 written\n  \
seen c0 1\n  \
decided r0 c0#1:write:a:7\n  \
history 1\n  \
0 c0#1:write:a:7\n\n\
Nothing is played before the end of the input, which may have at most 16,777,216 bytes and represent at most\n\
1,000,000 events. If line L is bad, nothing is played: `dsr: bad text in line L` is printed on standard error, and the\n\
exit status is 1; if N, F, M or TRAITORS are outside their limits, it is `dsr: the shape is not allowed`. Refused\n\
events are not a fault: the status is 0, or 3 if memory ran out for one of them. With --strict it is 1 if any event\n\
was refused, or 3 as before; the output is the same, and standard error does not mention such events.";

const SERVE_ABOUT: &str =
    "Read a script from standard input, serve it by threads, and write the outcome";

const SERVE_EXAMPLE: &str =
    "A script begins with the line `dsr-serve 1 N F M TRAITORS`; N, F, M and TRAITORS are as in plays (`dsr play --help`).\n\
The other lines may be in any order. Each line ends with a line feed, the last one too.\n\n  \
ask C OP           the client C asks for OP, written as in `dsr apply --help`; one operation after another\n  \
script R NUM TO E  the traitor R posts the envelope E, written as in plays, to the actor TO in its round NUM, from 0 on\n\n\
At most one line `script` is allowed per traitor, round and actor. Without one, or if E would need a forged signature,\n\
the traitor posts `empty` to a replica and nothing to a client. Nor does it post to a client whose box is full: one that\n\
has not yet taken what this traitor posted to it before.\n\n\
Each replica, traitor and client is a thread of its own. A client asks the replicas for its next operation as soon as it\n\
has accepted the answer to the one before. The replicas make rounds until all clients are served, at most 4,096. Which\n\
of two clients comes first depends on the threads, and may differ each time.\n\n\
The report:\n  \
accepted C K PLACE A   the client C accepted the answer A, at this place, to its request K; client by client\n  \
history N              how many requests acted (were executed); then each of them after its place\n\n\
With --transcript dsr writes the steps of all actors in place of the report; `dsr check --help` explains them.\n\n\
Example:\n  \
$ printf 'dsr-serve 1 1 0 1 -\\nask c0 write a 7\\n' | dsr serve\n  \
accepted c0 1 0 written\n  \
history 1\n  \
0 c0#1:write:a:7\n\n\
A service may end before all clients are served. Then the report or the transcript shows what was done until then,\n\
standard error says why it ended, and the exit status is 1. For `no memory` it is 3, and the report may be missing:\n\n  \
dsr: no answer within the turns  a client accepted fewer replies than it has operations\n  \
dsr: a counter is exhausted      a next post would be past a limit, such as 2^40 posts from one actor to another\n  \
dsr: no thread                   a thread could not be started\n  \
dsr: no memory                   memory ran out\n\n\
Nothing is served before the end of the input, which may have at most 16,777,216 bytes. If line L is bad, nothing is\n\
served: `dsr: bad text in line L` is printed on standard error, and the exit status is 1; if N, F, M or TRAITORS are\n\
outside their limits, it is `dsr: the shape is not allowed`.";

/// The help's text about `--strict`, which only `play` has.
const STRICT_HELP: &str = "End with status 1 if an event was refused";

/// The help's text about `--transcript`, which `play` and `serve` have.
const TRANSCRIPT_HELP: &str = "Write the steps of all actors in place of the report";

const CHECK_ABOUT: &str =
    "Read a transcript from standard input, check whether it is a run, and write its outcome";

const CHECK_EXAMPLE: &str =
    "A transcript begins with the line `dsr-transcript 1 N F M TRAITORS`, or the same with 2 in place of 1; N, F, M and\n\
TRAITORS are as in plays. Each other line is a step of an actor. Each line ends with a line feed, the last one too.\n\n  \
A post B E  the actor A posted the envelope E to B\n  \
A take B E  A took the envelope E from B\n\n\
Envelopes, too, are written as in plays (`dsr play --help`). Version 1 has no lists of requests and no removals.\n\n\
The steps are a run if each may follow those before it: a loyal actor posts what the protocol has it post, and takes\n\
what it is due to take; a traitor posts anything that needs no forged signature; and what is taken is what was posted.\n\n\
The report:\n  \
run N                  the transcript is a run of N steps\n  \
accepted C K PLACE A   the client C accepted the answer A, at this place, to its request K\n  \
history N              how many requests acted (were executed); then each of them after its place\n\n\
Example:\n  \
$ printf 'dsr-play 1 1 0 1 -\\nasks c0 begin write a 7\\nhears c0\\nposts r0 from c0\\n' | dsr play --transcript\n  \
dsr-transcript 1 1 0 1 -\n  \
c0 post r0 ask c0#1:write:a:7~c0\n  \
r0 take c0 ask c0#1:write:a:7~c0\n  \
r0 post r0 round 0 0/c0#1:write:a:7~c0/r0\n  \
$ printf 'dsr-transcript 1 1 0 1 -\\nr0 post r0 round 0 0/idle/r0\\nr0 take r0 round 0 0/idle/r0\\n' | dsr check\n  \
run 2\n  \
history 0\n  \
$ printf 'dsr-transcript 1 1 0 1 -\\nr0 post r0 empty\\n' | dsr check\n  \
dsr: not a run at line 2\n\n\
The step in that line is the first that may not follow those before it; the header is line 1. Then nothing is written\n\
on standard output, and the exit status is 1. The same happens if line L is bad, with `dsr: bad text in line L`, and if\n\
N, F, M or TRAITORS are outside their limits, with `dsr: the shape is not allowed`. The input may have at most\n\
16,777,216 bytes.";

const EXPLAIN_ABOUT: &str = "Read a play or a transcript from standard input, and explain it";

const EXPLAIN_EXAMPLE: &str =
    "The play is written and played as `dsr play --help` says. In place of the report, the output explains the outcome: why\n\
events were refused, why loyal replicas decided what they did, and why clients accepted their answers.\n\n\
A transcript is written as `dsr check --help` says. The output names the first step that may not follow those before\n\
it, and says why it may not, what its actor would do there, and what the box holds. If each step may follow, the\n\
output says so. Only --data matters then.\n\n  \
NUM    a slot: 0 to 1099511627775, without leading zeros\n  \
ACTOR  a replica, r0 to r15, or a client, c0 to c31\n\n\
Each option may be given at most once, in any order. Without --slot, --actor and --refused everything is explained;\n\
with several of them, only what fits them all.\n\n\
Example:\n  \
$ dsr explain --slot 0 --actor r1 < FILE\n\n\
Nothing is played before the end of the input, which may have at most 16,777,216 bytes and represent at most\n\
1,000,000 events. For a bad line L the output gives the column of the fault and what was expected there. Then\n\
`dsr: bad text in line L` is printed on standard error, and the exit status is 1; if N, F, M or TRAITORS are outside\n\
their limits, it is `dsr: the shape is not allowed`. If the step in line L may not follow, it is\n\
`dsr: not a run at line L`. Refused events are not a fault.";

/// The help's text about the options of `explain`.
const SLOT_HELP: &str = "Explain only this slot";

const ACTOR_HELP: &str = "Explain only this actor";

const REFUSED_HELP: &str = "Explain only refused events";

const DATA_HELP: &str = "Write lines for programs in place of sentences";

/// The message about words after `explain` with a wrong value.
const EXPLAIN_VALUES: &str =
    "--slot takes a number below 2^40 as the next word, and --actor an actor, such as r0 or c31";

/// The message about a word `--`.
const SEPARATOR: &str = "unexpected argument '--' found";

/// The beginning of each text for unknown words.
const USAGE_TITLE: &str = "error: ";

/// The end of each text for unknown words.
const TIPS: &str = "\n  \
tip: to answer the requests in a file, run `dsr apply < FILE`\n  \
tip: to play the play in a file, run `dsr play < FILE`\n  \
tip: to serve the script in a file, run `dsr serve < FILE`\n  \
tip: to check the transcript in a file, run `dsr check < FILE`\n  \
tip: to see what they look like, run `dsr apply --help` and so on\n";

/// The length, in bytes, of the longest text from `clap` that is shown.
const MOST_SAID: usize = 3_700;

/// The text that is shown in place of a longer one.
const TOO_LONG: &str = "the message is too long to show\n";

/// A task that the program is asked to do.
#[derive(Clone, Copy, Debug, PartialEq, Eq)]
pub enum Task {
    /// Answer the request lines on standard input, one line for each.
    Apply,
    /// Play the play on standard input, and report its outcome.
    Play {
        /// Whether a refused event is a fault.
        strict: bool,
        /// Whether to write the transcript of all steps in place of the report.
        transcript: bool,
    },
    /// Serve the script on standard input by hosts in threads, and report its outcome.
    Serve {
        /// Whether to write the transcript of all steps in place of the report.
        transcript: bool,
    },
    /// Check the transcript on standard input, and report the run's outcome.
    Check,
    /// Explain the play or the transcript on standard input.
    Explain(Narrowing),
}

impl Exact for Task {
    ghost use Rattle.dsr_command.specs.Support.TaskEquality.{task_eq-Decides};

    ghost decides = { task_eq-Decides };

    ghost clones = { λ a b. Prim.search rules };
}

/// The meaning of a command line.
#[derive(Debug, Drop)]
pub enum Reading {
    /// Do this task.
    Do(Task),
    /// The words ask for the version: show this line on standard output and end with status 0.
    Version(String),
    /// The words ask for help: show this text on standard output and end with status 0.
    Help(String),
    /// The program does not know these words: show this text on standard error and end with
    /// status 2.
    Usage(String),
    /// Memory ran out.
    NoMemory,
}

/// Reads the words that follow the program's own name on its command line. `NoMemory` may be returned for any
/// words; every other reading only for words that ask for it.
pub fn read_words<S: AsStr>(alloc: Global, words: &[S]) -> Reading
    ensures task { IfDo result (λ done. asked_of (map S.text words.now) ≡ task done) }
    ensures version { OnVersion result (asked_of (map S.text words.now) ≡ version) }
    ensures help { OnHelp result (asked_of (map S.text words.now) ≡ help) }
    ensures usage { OnUsage result (asked_of (map S.text words.now) ≡ unknown) }
    ensures stated { IfVersion result (λ line. line ≡ version_line) }
    ensures shown { IfHelp result IsHelp }
    ensures told { IfUsage result IsUsage }
{
    if is_for_explain(words) {
        read_explain(alloc, &words[1..])
    } else if is_for_version(words) {
        read_version(alloc)
    } else {
        read_by_clap(alloc, words)
    }
}

/// Tells whether the first word is `explain`.
fn is_for_explain<S: AsStr>(words: &[S]) -> bool
    ensures { result ≡ is_for_explain (map S.text words.now) }
{
    match words {
        [] => false,
        [word, ..] => word.as_str() == "explain",
    }
}

/// Tells whether the only word is `--version`.
fn is_for_version<S: AsStr>(words: &[S]) -> bool
    ensures { result ≡ is_for_version (map S.text words.now) }
{
    match words {
        [word] => word.as_str() == "--version",
        _ => false,
    }
}

/// Returns the version as a text to show.
fn read_version(alloc: Global) -> Reading
    ensures task { IfDo result (λ _. ⊥) }
    ensures help { OnHelp result ⊥ }
    ensures usage { OnUsage result ⊥ }
    ensures stated { IfVersion result (λ line. line ≡ version_line) }
{
    match String::from_str(alloc, VERSION) {
        Ok(line) => Reading::Version(line),
        Err(_) => Reading::NoMemory,
    }
}

/// Reads the words after `explain`.
fn read_explain<S: AsStr>(alloc: Global, words: &[S]) -> Reading
    ensures task { IfDo result (λ done. asked_after_explain an_option all_of_it (map S.text words.now) ≡ task done) }
    ensures version { OnVersion result ⊥ }
    ensures help { OnHelp result (asked_after_explain an_option all_of_it (map S.text words.now) ≡ help) }
    ensures usage { OnUsage result (asked_after_explain an_option all_of_it (map S.text words.now) ≡ unknown) }
    ensures shown { IfHelp result IsHelp }
    ensures told { IfUsage result IsUsage }
{
    match wish_of(words) {
        Wish::Explain(narrowing) => Reading::Do(Task::Explain(narrowing)),
        Wish::Help => explain_help(alloc),
        Wish::Unknown => explain_refused(alloc, words),
    }
}

/// Returns the help of `explain`.
fn explain_help(alloc: Global) -> Reading
    ensures task { IfDo result (λ _. ⊥) }
    ensures version { OnVersion result ⊥ }
    ensures usage { OnUsage result ⊥ }
    ensures shown { IfHelp result IsHelp }
{
    match explain_text(alloc) {
        Ok(text) => titled(alloc, text.as_str()),
        Err(_) => Reading::NoMemory,
    }
}

fn explain_text(alloc: Global) -> Result<String, AllocError> {
    let mut command = explain_command(alloc)?;
    command.render_help()
}

/// Returns the usage fault of words after `explain` that ask for nothing known.
fn explain_refused<S: AsStr>(alloc: Global, words: &[S]) -> Reading
    ensures task { IfDo result (λ _. ⊥) }
    ensures version { OnVersion result ⊥ }
    ensures help { OnHelp result ⊥ }
    ensures told { IfUsage result IsUsage }
{
    match explain_fault(alloc, words) {
        Ok(text) => usage_of(alloc, text.as_str()),
        Err(_) => Reading::NoMemory,
    }
}

/// Returns the message about refused words: that of `clap` if it refuses them too; else, that `--` is unknown if it is
/// one of them; else, what values the options take.
fn explain_fault<S: AsStr>(alloc: Global, words: &[S]) -> Result<String, AllocError> {
    let command = explain_command(alloc)?;
    if let Err(error) = command.try_get_matches_from(words) {
        match error.kind() {
            ErrorKind::OutOfMemory => return Err(AllocError),
            ErrorKind::DisplayHelp => {}
            _ => return error.to_string(alloc),
        }
    }
    let said = if has_separator(words) {
        SEPARATOR
    } else {
        EXPLAIN_VALUES
    };
    let mut command = explain_command(alloc)?;
    let error = command.error(ErrorKind::ValueValidation, said)?;
    error.to_string(alloc)
}

/// Reads words by `clap`: those that do not begin with `explain`, and are not `--version` alone.
#[tactic(auto, using(crate::proofs::ReadingLemmas::readings))]
fn read_by_clap<S: AsStr>(alloc: Global, words: &[S]) -> Reading
    requires tasks { is_for_explain (map S.text words.now) ≡ false }
    requires more { is_for_version (map S.text words.now) ≡ false }
    ensures task { IfDo result (λ done. asked_of (map S.text words.now) ≡ task done) }
    ensures version { OnVersion result ⊥ }
    ensures help { OnHelp result (asked_of (map S.text words.now) ≡ help) }
    ensures usage { OnUsage result (asked_of (map S.text words.now) ≡ unknown) }
    ensures shown { IfHelp result IsHelp }
    ensures told { IfUsage result IsUsage }
{
    match parse(alloc, words) {
        Ok(_) if has_separator(words) => separator_refused(alloc),
        Ok(task) => Reading::Do(task),
        Err(error) => reading_of(alloc, &error),
    }
}

/// Returns the task that the words name if `clap` accepts them, else `clap`'s error.
fn parse<S: AsStr>(alloc: Global, words: &[S]) -> Result<Task, Error>
    ensures taken { FailsBy (fault_of command_line (map S.text words.now)) result }
    ensures task { IfOk result (λ named. named ≡ task_entered (subcommand_of command_line (map S.text words.now))) }
{
    let command = dsr_command(alloc)?;
    let matches = command.try_get_matches_from(words)?;
    Ok(task_of(&matches))
}

/// Returns the task that `clap` matched.
fn task_of(matches: &ArgMatches<'_>) -> Task
    ensures { result ≡ task_entered (subcommand_rows_of matches.now) }
{
    match matches.subcommand() {
        Some(("play", given)) => Task::Play {
            strict: is_given(given, "strict"),
            transcript: is_given(given, "transcript"),
        },
        Some(("serve", given)) => Task::Serve {
            transcript: is_given(given, "transcript"),
        },
        Some(("check", _)) => Task::Check,
        _ => Task::Apply,
    }
}

/// Tells whether the flag with this name was given.
fn is_given(given: &ArgMatches<'_>, name: &str) -> bool
    ensures { result ≡ is_given name.now (rows_of (found_of given.now)) }
{
    given.get_str(name) == Some("true")
}

/// Tells whether a word is `--`, which `clap` skips and the program does not know.
fn has_separator<S: AsStr>(words: &[S]) -> bool
    ensures { result ≡ has_two_hyphens (map S.text words.now) }
{
    for word in words {
        if word.as_str() == "--" {
            return true;
        }
    }
    false
}

/// Returns the usage fault of a word `--`.
fn separator_refused(alloc: Global) -> Reading
    ensures task { IfDo result (λ _. ⊥) }
    ensures version { OnVersion result ⊥ }
    ensures help { OnHelp result ⊥ }
    ensures shown { IfHelp result IsHelp }
    ensures told { IfUsage result IsUsage }
{
    match separator_error(alloc) {
        Ok(error) => reading_of(alloc, &error),
        Err(_) => Reading::NoMemory,
    }
}

fn separator_error(alloc: Global) -> Result<Error, AllocError>
    ensures { IfOk result (λ error. kind_of error ≡ UnknownArgument) }
{
    let mut command = dsr_command(alloc)?;
    command.error(ErrorKind::UnknownArgument, SEPARATOR)
}

/// Returns the reading that an error of the parse leads to.
fn reading_of(alloc: Global, error: &Error) -> Reading
    ensures task { IfDo result (λ _. ⊥) }
    ensures version { OnVersion result ⊥ }
    ensures help { OnHelp result (kind_of error.now ≡ DisplayHelp) }
    ensures usage { OnUsage result ((kind_of error.now ≢ DisplayHelp)
        × (kind_of error.now ≢ OutOfMemory)) }
    ensures shown { IfHelp result IsHelp }
    ensures told { IfUsage result IsUsage }
{
    let Ok(text) = error.to_string(alloc) else {
        return Reading::NoMemory;
    };
    match error.kind() {
        ErrorKind::OutOfMemory => Reading::NoMemory,
        ErrorKind::DisplayHelp => titled(alloc, text.as_str()),
        _ => usage_of(alloc, text.as_str()),
    }
}

/// Returns the usage fault with this text between the title and the tips.
fn usage_of(alloc: Global, text: &str) -> Reading
    ensures task { IfDo result (λ _. ⊥) }
    ensures version { OnVersion result ⊥ }
    ensures help { OnHelp result ⊥ }
    ensures told { IfUsage result IsUsage }
{
    let said = shortened(text.strip_prefix(USAGE_TITLE).unwrap_or(text));
    match format!(in alloc; "{USAGE_TITLE}{said}{TIPS}") {
        Ok(usage) => Reading::Usage(usage),
        Err(_) => Reading::NoMemory,
    }
}

/// Returns the help with this text after the title.
fn titled(alloc: Global, text: &str) -> Reading
    ensures task { IfDo result (λ _. ⊥) }
    ensures version { OnVersion result ⊥ }
    ensures usage { OnUsage result ⊥ }
    ensures shown { IfHelp result IsHelp }
    ensures whole { length text.now ≤ 3700 → IfHelp result (λ shown. shown ≡ title ++ (codes "\n\n" ++ text.now)) }
{
    let said = shortened(text);
    match format!(in alloc; "{TITLE}\n\n{said}") {
        Ok(help) => Reading::Help(help),
        Err(_) => Reading::NoMemory,
    }
}

/// Returns the text if it is short enough to show, else a line that says that it is not.
fn shortened(text: &str) -> &str
    ensures same { length text.now ≤ 3700 → result.now ≡ text.now }
    ensures short { length result.now ≤ 3700 }
{
    if text.len() <= MOST_SAID {
        text
    } else {
        TOO_LONG
    }
}

/// Creates the program's command, with its tasks and the text of its help.
fn dsr_command<'a>(alloc: Global) -> Result<Command<'a>, AllocError>
    ensures { IfOk result (λ command. (app_of command ≡ command_line)
        × ((fields_of command).has_globals ≡ false)) }
{
    let dsr = dsr_keeping(alloc)?;
    let dsr = dsr.subcommand(check_command(alloc))?;
    dsr.subcommand(explain_word(alloc))
}

/// Creates the command with the tasks that keep a directory.
fn dsr_keeping<'a>(alloc: Global) -> Result<Command<'a>, AllocError>
    ensures { IfOk result (λ command. (app_of command ≡ keeping)
        × ((fields_of command).has_globals ≡ false)) }
{
    let dsr = dsr_alone(alloc)?;
    let dsr = dsr.subcommand(apply_command(alloc))?;
    let dsr = dsr.subcommand(play_command(alloc)?)?;
    dsr.subcommand(serve_command(alloc)?)
}

fn dsr_alone<'a>(alloc: Global) -> Result<Command<'a>, AllocError>
    ensures { IfOk result (λ command. (app_of command ≡ program)
        × ((fields_of command).has_globals ≡ false)) }
{
    Command::new(alloc, "dsr")
        .about(ABOUT)
        .after_help(EXAMPLES)
        .no_binary_name(true)
        .disable_help_subcommand(true)
        .bin_name("dsr")
}

fn apply_command<'a>(alloc: Global) -> Command<'a>
    ensures app { app_of result ≡ new_app (codes "apply") }
    ensures local { (fields_of result).has_globals ≡ false }
{
    Command::new(alloc, "apply")
        .about(APPLY_ABOUT)
        .after_help(APPLY_EXAMPLE)
}

fn play_command<'a>(alloc: Global) -> Result<Command<'a>, AllocError>
    ensures { IfOk result (λ command. (app_of command ≡ play_app)
        × ((fields_of command).has_globals ≡ false)) }
{
    let play = Command::new(alloc, "play")
        .about(PLAY_ABOUT)
        .after_help(PLAY_EXAMPLE);
    let play = play.arg(flag(alloc, "strict", STRICT_HELP))?;
    play.arg(flag(alloc, "transcript", TRANSCRIPT_HELP))
}

fn serve_command<'a>(alloc: Global) -> Result<Command<'a>, AllocError>
    ensures { IfOk result (λ command. (app_of command ≡ serve_app)
        × ((fields_of command).has_globals ≡ false)) }
{
    let serve = Command::new(alloc, "serve")
        .about(SERVE_ABOUT)
        .after_help(SERVE_EXAMPLE);
    serve.arg(flag(alloc, "transcript", TRANSCRIPT_HELP))
}

/// Creates a flag with this name and this help text.
fn flag<'a>(alloc: Global, name: &'a str, text: &'a str) -> Arg<'a>
    ensures rule { rule_of result ≡ flag_rule name.now }
    ensures local { result.global ≡ false }
{
    Arg::new(alloc, name)
        .long(name)
        .action(ArgAction::SetTrue)
        .help(text)
}

fn check_command<'a>(alloc: Global) -> Command<'a>
    ensures app { app_of result ≡ new_app (codes "check") }
    ensures local { (fields_of result).has_globals ≡ false }
{
    Command::new(alloc, "check")
        .about(CHECK_ABOUT)
        .after_help(CHECK_EXAMPLE)
}

/// Creates `explain` as an entry in the list of commands.
fn explain_word<'a>(alloc: Global) -> Command<'a>
    ensures app { app_of result ≡ new_app (codes "explain") }
    ensures local { (fields_of result).has_globals ≡ false }
{
    Command::new(alloc, "explain").about(EXPLAIN_ABOUT)
}

/// Creates the command `explain` by itself, for its help and for messages about the words after it.
fn explain_command<'a>(alloc: Global) -> Result<Command<'a>, AllocError> {
    let explain = Command::new(alloc, "explain")
        .about(EXPLAIN_ABOUT)
        .after_help(EXPLAIN_EXAMPLE)
        .no_binary_name(true)
        .bin_name("dsr explain")?;
    let explain = explain.arg(option(alloc, "slot", "NUM", SLOT_HELP))?;
    let explain = explain.arg(option(alloc, "actor", "ACTOR", ACTOR_HELP))?;
    let explain = explain.arg(flag(alloc, "refused", REFUSED_HELP))?;
    explain.arg(flag(alloc, "data", DATA_HELP))
}

/// Creates an option with this name, this name for its value, and this help text.
fn option<'a>(alloc: Global, name: &'a str, value: &'a str, text: &'a str) -> Arg<'a> {
    Arg::new(alloc, name)
        .long(name)
        .value_name(value)
        .action(ArgAction::Set)
        .help(text)
}
