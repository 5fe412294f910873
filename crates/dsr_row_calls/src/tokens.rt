//! Checks whether a text is a token.

ghost use Rattle.std.specs.Prelude.{◌≡◌, Ok, IsNone, IfSome, false};
ghost use Rattle.dsr_row_calls.specs.declared.said.Said.TheVariants.{Done, Whether};

use crate::said::{Answered, Failure, Said};
use crate::words::{Words, find};
use dsr_base::read_decimal;
use dsr_desk::{Content, Signers, Statement, read_content};
use dsr_names::{Actor, ClientId, Old, ReplicaId, Shape, read_num, read_old};
use dsr_request::{Answer, Joined, Name, Op, Request, Requests};
use dsr_script::Draft;
use std::alloc::Global;
use std::fmt::Display;

/// A kind of token.
#[derive(Clone, Copy)]
enum Kind {
    /// A number below 2^40.
    Number,
    /// A number below 2^64.
    Value,
    /// The contents of a register.
    Old,
    /// A replica.
    Replica,
    /// A client.
    Client,
    /// A replica or a client.
    Actor,
    /// A shape.
    Shape,
    /// A register's name.
    Name,
    /// An operation with spaces.
    Spaced,
    /// An operation with colons.
    Joined,
    /// An answer.
    Answer,
    /// Signers in their order.
    Signers,
    /// A request.
    Request,
    /// A request in the form of a line.
    Line,
    /// A list of requests.
    Requests,
    /// The requests of a slot, or idle.
    Content,
    /// A statement.
    Statement,
    /// A signed request.
    Signed,
    /// A chain.
    Chain,
    /// An envelope.
    Envelope,
}

/// The kinds by their words.
const KINDS: [(&str, Kind); 20] = [
    ("num", Kind::Number),
    ("val", Kind::Value),
    ("old", Kind::Old),
    ("replica", Kind::Replica),
    ("client", Kind::Client),
    ("actor", Kind::Actor),
    ("shape", Kind::Shape),
    ("name", Kind::Name),
    ("op", Kind::Spaced),
    ("joined-op", Kind::Joined),
    ("answer", Kind::Answer),
    ("signers", Kind::Signers),
    ("request", Kind::Request),
    ("request-line", Kind::Line),
    ("requests", Kind::Requests),
    ("content", Kind::Content),
    ("statement", Kind::Statement),
    ("signed-request", Kind::Signed),
    ("chain", Kind::Chain),
    ("envelope", Kind::Envelope),
];

/// Answers `token KIND BYTES`: whether the bytes are a token of this kind, and its value is written as the same bytes.
pub fn token(alloc: Global, words: &mut Words) -> Answered {
    let kind = find(&KINDS, words.next())?;
    let bytes = words.rest();
    match kind {
        Kind::Number => spells(alloc, read_num(bytes), bytes),
        Kind::Value => spells(alloc, read_decimal(bytes), bytes),
        Kind::Old => spells(alloc, old(bytes), bytes),
        Kind::Replica => spells(alloc, ReplicaId::read(bytes), bytes),
        Kind::Client => spells(alloc, ClientId::read(bytes), bytes),
        Kind::Actor => spells(alloc, Actor::read(bytes), bytes),
        Kind::Shape => spells(alloc, shape(bytes)?, bytes),
        Kind::Name => spells_name(alloc, bytes),
        Kind::Spaced => spells(alloc, Op::read(bytes, b' '), bytes),
        Kind::Joined => spells(alloc, joined_op(bytes), bytes),
        Kind::Answer => spells(alloc, Answer::read(bytes), bytes),
        Kind::Signers => spells(alloc, Signers::read(bytes), bytes),
        Kind::Request => spells(alloc, Request::read(bytes), bytes),
        Kind::Line => Ok(line(bytes)),
        Kind::Requests => spells(alloc, Requests::read(bytes), bytes),
        Kind::Content => spells(alloc, content(bytes), bytes),
        Kind::Statement => spells(alloc, Statement::read(bytes), bytes),
        Kind::Signed => spells_after(alloc, "ask ", bytes),
        Kind::Chain => spells_chain(alloc, bytes),
        Kind::Envelope => spells(alloc, Draft::read(alloc, bytes)?, bytes),
    }
}

/// Answers whether the bytes are the token of the value that they read as: ok, or that token; false without a value.
fn spells<T: Display + Drop>(alloc: Global, value: Option<T>, bytes: &[u8]) -> Answered
    ensures none { IsNone value → result ≡ Ok (Whether false) }
    ensures token { result ≡ Ok Done → IfSome value (λ v. IfSome (T.output v) (λ token. token ≡ bytes.now)) }
{
    let Some(value) = value else {
        return Ok(Said::Whether(false));
    };
    let token = value.to_string(alloc)?;
    if token.as_bytes() == bytes {
        Ok(Said::Done)
    } else {
        Ok(Said::Text(token))
    }
}

/// Tells whether the bytes, after `front`, are the text of an envelope.
fn spells_after(alloc: Global, front: &str, bytes: &[u8]) -> Answered {
    let mut text = Vec::new(alloc);
    text.extend_from_slice(front.as_bytes())?;
    text.extend_from_slice(bytes)?;
    spells(alloc, Draft::read(alloc, text.as_slice())?, text.as_slice())
}

/// Tells whether the bytes are the token of one chain.
fn spells_chain(alloc: Global, bytes: &[u8]) -> Answered {
    if bytes.contains(&b' ') {
        return Ok(Said::Whether(false));
    }
    spells_after(alloc, "round 0 ", bytes)
}

/// Tells whether the bytes are a request in the form of a line.
fn line(bytes: &[u8]) -> Said {
    match Request::read_line(bytes) {
        Some(_) => Said::Done,
        None => Said::Whether(false),
    }
}

/// Reads the contents of a register.
fn old(bytes: &[u8]) -> Option<Old> {
    Some(Old(read_old(bytes)?))
}

/// Reads an operation with colons.
fn joined_op(bytes: &[u8]) -> Option<Joined> {
    Some(Joined(Op::read(bytes, b':')?))
}

/// Reads the requests of a slot.
fn content(bytes: &[u8]) -> Option<Content> {
    Some(Content(read_content(bytes)?))
}

/// Tells whether the bytes are a name whose bytes and text are these bytes. Other bytes are refused.
fn spells_name(alloc: Global, bytes: &[u8]) -> Answered {
    let name = Name::read(bytes)?;
    if name.as_bytes() != bytes || name.as_str().as_bytes() != bytes {
        return Ok(Said::Whether(false));
    }
    spells(alloc, Some(name), bytes)
}

/// Reads a shape. A shape outside the limits is refused.
fn shape(bytes: &[u8]) -> Result<Option<Shape>, Failure> {
    match Shape::read(bytes) {
        Some(Ok(shape)) => Ok(Some(shape)),
        Some(Err(refusal)) => Err(Failure::Refused(refusal)),
        None => Ok(None),
    }
}
