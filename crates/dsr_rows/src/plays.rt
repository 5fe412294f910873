//! The calls of plays.

use dsr_envelope::{Clients, Pick};
use dsr_play::{Event, Play};
use dsr_row_calls::{Answered, Failure, Said, Words, find, text_of};
use std::alloc::{AllocError, Global};
use std::fmt::Write;

/// A call at a play.
#[derive(Clone, Copy)]
enum Call {
    /// `shape`: its shape.
    Shape,
    /// `count`: how many events it has.
    Count,
    /// `events`: its events, each as a line that represents only this event.
    Events,
}

/// The calls by their verbs.
const CALLS: [(&str, Call); 3] = [
    ("shape", Call::Shape),
    ("count", Call::Count),
    ("events", Call::Events),
];

/// Opens `play TEXT`: the play that the text encodes.
pub(crate) fn open(alloc: Global, words: &Words) -> Result<Play, Failure> {
    let text = text_of(alloc, words.rest())?;
    Ok(Play::read(alloc, text.as_slice())?)
}

/// Makes the call of this verb at the play.
pub(crate) fn answer(alloc: Global, play: &Play, verb: &[u8]) -> Answered {
    match find(&CALLS, verb)? {
        Call::Shape => Ok(Said::Shape(play.shape())),
        Call::Count => Ok(Said::Number(play.events().len() as u64)),
        Call::Events => events(alloc, play.events()),
    }
}

/// Answers `events`.
fn events(alloc: Global, events: &[Event]) -> Answered {
    let [first, rest @ ..] = events else {
        return Ok(Said::Nothing);
    };
    let mut text = String::new(alloc);
    write_event(&mut text, first)?;
    for event in rest {
        text.push_str(" | ")?;
        write_event(&mut text, event)?;
    }
    Ok(Said::Text(text))
}

/// Writes the line of an event.
fn write_event(out: &mut String, event: &Event) -> Result<(), AllocError> {
    match event {
        Event::Post { from, to, pick } => {
            write!(out, "post {from} {to}")?;
            write_pick(out, &pick.pick())?;
        }
        Event::Plant { from, to, draft } => write!(out, "plant {from} {to} {draft}")?,
        Event::Take { at, from } => write!(out, "take {at} {from}")?,
        Event::Tell { from, to } => write!(out, "tell {from} {to}")?,
    }
    Ok(())
}

/// Writes a choice, with a space before it.
fn write_pick(out: &mut String, pick: &Pick) -> Result<(), AllocError> {
    match pick {
        Pick::Plain => Ok(()),
        Pick::From(clients) => write_clients(out, clients),
        Pick::Begin(op) => write!(out, " begin {op}"),
    }
}

/// Writes the choice of these clients.
fn write_clients(out: &mut String, clients: &Clients) -> Result<(), AllocError> {
    let mut mark = " from ";
    for client in clients.as_slice() {
        write!(out, "{mark}{client}")?;
        mark = "+";
    }
    Ok(())
}
