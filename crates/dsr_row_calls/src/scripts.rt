//! The calls of serve scripts.

use crate::said::{Answered, Failure, Said};
use crate::texts::{listed, text_of};
use crate::words::{Words, find};
use dsr_base::split_once;
use dsr_script::{Script, read_header};
use std::alloc::Global;

/// A call at a script.
#[derive(Clone, Copy)]
enum Call {
    /// `shape`: its shape.
    Shape,
    /// `ops CLIENT`: the operations of the client.
    Ops,
    /// `draft TRAITOR ROUND ACTOR`: the draft that the traitor is to post to the actor in this round.
    Draft,
}

/// The calls by their verbs.
const CALLS: [(&str, Call); 3] = [
    ("shape", Call::Shape),
    ("ops", Call::Ops),
    ("draft", Call::Draft),
];

/// Opens `script TEXT`: the script that the text encodes.
pub fn open(alloc: Global, words: &Words) -> Result<Script, Failure> {
    let text = text_of(alloc, words.rest())?;
    Ok(Script::read(alloc, text.as_slice())?)
}

/// Makes the call of this verb at the script.
pub fn answer(alloc: Global, script: &Script, verb: &[u8], words: &mut Words) -> Answered {
    match find(&CALLS, verb)? {
        Call::Shape => Ok(Said::Shape(script.shape())),
        Call::Ops => Ok(listed(alloc, script.ops(words.client()?), " | ")?),
        Call::Draft => draft(script, words),
    }
}

/// Answers `draft TRAITOR ROUND ACTOR`.
fn draft(script: &Script, words: &mut Words) -> Answered {
    let traitor = words.replica()?;
    let round = words.number()?;
    match script.draft(traitor, round, words.actor()?) {
        Some(draft) => Ok(Said::Envelope(draft.try_copy()?)),
        None => Ok(Said::Nothing),
    }
}

/// Answers `header TITLE | TEXT`: the shape of the header with this title at the beginning of the text.
pub fn header(alloc: Global, words: &Words) -> Answered {
    let (title, text) = words.pair()?;
    let text = text_of(alloc, text)?;
    shape_of_header(title, text.as_slice())
}

/// Answers with the shape in the header with this title at the beginning of the text.
fn shape_of_header(title: &[u8], text: &[u8]) -> Answered {
    if split_once(title, b'\n').is_some() {
        return Err(Failure::NoCall);
    }
    match read_header(title, text) {
        Ok(header) => Ok(Said::Shape(header.shape)),
        Err(refusal) => Err(Failure::Refused(refusal)),
    }
}
