//! The calls of shapes, refusals and requests.

use crate::said::{Answered, Failure, Said};
use crate::texts::words_of;
use crate::words::Words;
use dsr_names::{Actor, ClientId, Refusal, ReplicaId, Shape, tell_refusal};
use dsr_request::Request;
use std::alloc::Global;

/// A call of shapes, refusals or requests.
#[derive(Clone, Copy)]
pub enum Call {
    /// `shape-of N F M BITS`: the shape with N replicas, at most F traitors, and M clients, whose traitors are these bits.
    ShapeOf,
    /// `shape-parts SHAPE`: the number of replicas, the maximum number of traitors, the number of clients, and the traitors as bits.
    ShapeParts,
    /// `replica-of NUMBER`: the replica with this number.
    ReplicaOf,
    /// `client-of NUMBER`: the client with this number.
    ClientOf,
    /// `has SHAPE ACTOR`: whether the actor is one of the shape.
    Has,
    /// `is-loyal SHAPE ACTOR`: whether the actor is one of the shape, and not a traitor.
    IsLoyal,
    /// `sender SHAPE SLOT`: the replica that sends in the slot.
    Sender,
    /// `size SHAPE`: how many actors the shape has.
    Size,
    /// `place SHAPE ACTOR`: the place of the actor among all.
    Place,
    /// `actor-at SHAPE PLACE`: the actor at this place.
    ActorAt,
    /// `refusal NAME [LINE]`: the number of the refusal, and what it says.
    Refusal,
    /// `tell NAME [LINE]`: the line that reports the refusal.
    Tell,
    /// `request CLIENT NUMBER OPERATION`: the request of this client.
    Request,
    /// `request-parts REQUEST`: the client of the request, its number, its operation, and the name of the operation's register.
    RequestParts,
    /// `request-line LINE`: the request that the line contains.
    RequestLine,
}

/// The calls by their verbs.
pub const CALLS: [(&str, Call); 15] = [
    ("shape-of", Call::ShapeOf),
    ("shape-parts", Call::ShapeParts),
    ("replica-of", Call::ReplicaOf),
    ("client-of", Call::ClientOf),
    ("has", Call::Has),
    ("is-loyal", Call::IsLoyal),
    ("sender", Call::Sender),
    ("size", Call::Size),
    ("place", Call::Place),
    ("actor-at", Call::ActorAt),
    ("refusal", Call::Refusal),
    ("tell", Call::Tell),
    ("request", Call::Request),
    ("request-parts", Call::RequestParts),
    ("request-line", Call::RequestLine),
];

/// Makes the call.
pub fn answer(alloc: Global, call: Call, words: &mut Words) -> Answered {
    match call {
        Call::ShapeOf => shape_of(words),
        Call::ShapeParts => shape_parts(alloc, words),
        Call::ReplicaOf => replica_of(words),
        Call::ClientOf => client_of(words),
        Call::Has => has(words),
        Call::IsLoyal => is_loyal(words),
        Call::Sender => sender(words),
        Call::Size => size(words),
        Call::Place => place(words),
        Call::ActorAt => actor_at(words),
        Call::Refusal => refusal(alloc, words),
        Call::Tell => tell(alloc, words),
        Call::Request => request(words),
        Call::RequestParts => request_parts(alloc, words),
        Call::RequestLine => request_line(words),
    }
}

/// Answers `shape-of N F M BITS`.
fn shape_of(words: &mut Words) -> Answered {
    let (n, f, m) = (
        words.small_number()?,
        words.small_number()?,
        words.small_number()?,
    );
    match u16::try_from(words.number()?) {
        Ok(traitors) => Ok(Said::Shape(Shape::new(n, f, m, traitors)?)),
        Err(_) => Err(Failure::BadRow),
    }
}

/// Answers `shape-parts SHAPE`.
fn shape_parts(alloc: Global, words: &mut Words) -> Answered {
    let shape = words.shape()?;
    let (n, f, m, traitors) = (shape.n(), shape.f(), shape.m(), shape.traitors());
    Ok(Said::Text(format!(in alloc; "n {n} f {f} m {m} traitors {traitors}")?))
}

/// Answers `replica-of NUMBER`.
fn replica_of(words: &mut Words) -> Answered {
    let replica = ReplicaId::new(words.small_number()?)?;
    Ok(Said::Actor(Actor::Replica(replica)))
}

/// Answers `client-of NUMBER`.
fn client_of(words: &mut Words) -> Answered {
    let client = ClientId::new(words.small_number()?)?;
    Ok(Said::Actor(Actor::Client(client)))
}

/// Answers `has SHAPE ACTOR`.
fn has(words: &mut Words) -> Answered {
    let shape = words.shape()?;
    Ok(Said::Whether(shape.has(words.actor()?)))
}

/// Answers `is-loyal SHAPE ACTOR`.
fn is_loyal(words: &mut Words) -> Answered {
    let shape = words.shape()?;
    Ok(Said::Whether(shape.is_loyal(words.actor()?)))
}

/// Answers `sender SHAPE SLOT`.
fn sender(words: &mut Words) -> Answered {
    let shape = words.shape()?;
    let sender = shape.sender(words.number()?);
    Ok(Said::Actor(Actor::Replica(sender)))
}

/// Answers `size SHAPE`.
fn size(words: &mut Words) -> Answered {
    let shape = words.shape()?;
    Ok(Said::Number(shape.size() as u64))
}

/// Answers `place SHAPE ACTOR`.
fn place(words: &mut Words) -> Answered {
    let shape = words.shape()?;
    let actor = words.actor()?;
    Ok(Said::Number(shape.place(&actor) as u64))
}

/// Answers `actor-at SHAPE PLACE`.
fn actor_at(words: &mut Words) -> Answered {
    let shape = words.shape()?;
    let place = words.small_number()? as usize;
    if place >= shape.size() {
        return Err(Failure::NoCall);
    }
    Ok(Said::Actor(shape.actor_at(place)))
}

/// Answers `request CLIENT NUMBER OPERATION`.
fn request(words: &mut Words) -> Answered {
    let client = words.client()?;
    let number = words.number()?;
    Ok(Said::Request(Request::new(client, number, words.op()?)?))
}

/// Answers `request-parts REQUEST`.
fn request_parts(alloc: Global, words: &Words) -> Answered {
    let request = Request::read(words.rest()).ok_or(Failure::BadRow)?;
    let (client, number, op) = (request.client(), request.number(), request.op());
    let name = op.name();
    Ok(Said::Text(format!(in alloc; "{client} {number} {op} on {name}")?))
}

/// Answers `request-line LINE`.
fn request_line(words: &Words) -> Answered {
    Ok(Said::of_request(Request::read_line(words.rest())))
}

/// Returns all refusals; those that name a line name this one.
fn refusals(line: u64) -> [Refusal; 19] {
    [
        Refusal::BadShape,
        Refusal::BadName,
        Refusal::BadNumber,
        Refusal::Busy,
        Refusal::NotDue,
        Refusal::BoxFull,
        Refusal::BoxEmpty,
        Refusal::Forged,
        Refusal::Exhausted,
        Refusal::Stopped,
        Refusal::Unanswered,
        Refusal::NoMemory,
        Refusal::BadText { line },
        Refusal::NotARun { line },
        Refusal::NoActor,
        Refusal::WrongRole,
        Refusal::ReadFailed,
        Refusal::WriteFailed,
        Refusal::NoThread,
    ]
}

/// Takes the name of a refusal, and the line that it names.
fn refusal_of(words: &mut Words) -> Result<Refusal, Failure> {
    let word = words.next();
    let line = if words.is_empty() { 0 } else { words.number()? };
    for refusal in refusals(line) {
        if refusal.word().as_bytes() == word {
            return Ok(refusal);
        }
    }
    Err(Failure::BadRow)
}

/// Answers `refusal NAME [LINE]`.
fn refusal(alloc: Global, words: &mut Words) -> Answered {
    let refusal = refusal_of(words)?;
    let code = refusal.code();
    Ok(Said::Text(format!(in alloc; "{code} {refusal}")?))
}

/// Answers `tell NAME [LINE]`.
fn tell(alloc: Global, words: &mut Words) -> Answered {
    let refusal = refusal_of(words)?;
    let mut errors = Vec::with_capacity(alloc, 64)?;
    tell_refusal(&mut errors, refusal);
    Ok(Said::Text(words_of(alloc, errors.as_slice())?))
}
