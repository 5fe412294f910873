//! The calls of transcripts.

use dsr_check::{Verdict, check};
use dsr_names::Outside;
use dsr_record::{NotedEntry, NotedStep, Record, Version, write};
use dsr_row_calls::{Answered, Failure, Said, Words, find, text_of, words_of};
use std::alloc::{AllocError, Global};
use std::fmt::Write;

/// A call at a record.
#[derive(Clone, Copy)]
enum Call {
    /// `version`: the version of its transcript.
    Version,
    /// `shape`: its shape.
    Shape,
    /// `count`: how many steps it has.
    Count,
    /// `step PLACE`: the step at this place.
    Step,
    /// `text`: its transcript.
    Text,
    /// `verdict`: whether it is a run, and the run's outcome.
    Verdict,
}

/// The calls by their verbs.
const CALLS: [(&str, Call); 6] = [
    ("version", Call::Version),
    ("shape", Call::Shape),
    ("count", Call::Count),
    ("step", Call::Step),
    ("text", Call::Text),
    ("verdict", Call::Verdict),
];

/// Opens `transcript TEXT`: the record that the transcript encodes.
pub(crate) fn open(alloc: Global, words: &Words) -> Result<Record, Failure> {
    let text = text_of(alloc, words.rest())?;
    Ok(Record::of_text(alloc, text.as_slice())?)
}

/// Makes the call of this verb at the record.
pub(crate) fn answer(alloc: Global, recorded: &Record, verb: &[u8], words: &mut Words) -> Answered {
    match find(&CALLS, verb)? {
        Call::Version => Ok(Said::Number(match recorded.version() {
            Version::One => 1,
            Version::Two => 2,
        })),
        Call::Shape => Ok(Said::Shape(recorded.shape())),
        Call::Count => Ok(Said::Number(recorded.entries().len() as u64)),
        Call::Step => step(alloc, recorded, words.number()?),
        Call::Text => text(alloc, recorded),
        Call::Verdict => verdict(alloc, &check(alloc, recorded)?),
    }
}

/// Answers `step PLACE`.
fn step(alloc: Global, recorded: &Record, place: u64) -> Answered {
    let Ok(place) = usize::try_from(place) else {
        return Ok(Said::Nothing);
    };
    match recorded.entries().get(place) {
        Some(step) => said_step(alloc, step),
        None => Ok(Said::Nothing),
    }
}

/// Answers with the step: its actor, what it did and with whom, and the envelope.
fn said_step(alloc: Global, step: &NotedStep) -> Answered {
    let (word, other) = match step.entry() {
        NotedEntry::Post { to, .. } => ("post", *to),
        NotedEntry::Take { from, .. } => ("take", *from),
    };
    let (actor, envelope) = (step.actor(), step.envelope());
    Ok(Said::Text(format!(in alloc; "{actor} {word} {other} {envelope}")?))
}

/// Answers `text`, if the steps can be written in a transcript.
fn text(alloc: Global, recorded: &Record) -> Answered {
    if !recorded.fits() {
        return Err(Failure::NoCall);
    }
    let mut text = Outside(Vec::new(alloc));
    write(alloc, recorded, &mut text)?;
    Ok(Said::Text(words_of(alloc, text.0.as_slice())?))
}

/// Answers `verdict`: how many steps there are, which replies were accepted, and which requests acted.
fn verdict(alloc: Global, verdict: &Verdict) -> Answered {
    let entries = verdict.entries();
    let mut text = format!(in alloc; "run {entries}")?;
    for (client, reply) in verdict.accepted() {
        let (number, place, answer) = (reply.number, reply.place, reply.answer);
        write!(text, " | accepted {client} {number} {place} {answer}")?;
    }
    write_history(&mut text, verdict)?;
    Ok(Said::Text(text))
}

/// Writes how many requests acted, and each after its place.
fn write_history(out: &mut String, verdict: &Verdict) -> Result<(), AllocError> {
    let history = verdict.history();
    let count = history.len();
    write!(out, " | history {count}")?;
    for place in 0..count {
        let request = &history[place];
        write!(out, " | {place} {request}")?;
    }
    Ok(())
}
