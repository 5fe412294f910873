//! The calls of replicas.

use crate::desk::{Desk, draft_of_envelope};
use crate::logged::Logged;
use crate::said::{Answered, Failure, Said};
use crate::texts::listed;
use crate::words::{Words, find};
use dsr_base::Few;
use dsr_desk::{Content, Keys};
use dsr_envelope::{Clients, Envelope, Pick};
use dsr_names::{Actor, ClientId, ReplicaId};
use dsr_replica::Replica;
use std::alloc::Global;

/// A call at a replica.
#[derive(Clone, Copy)]
enum Call {
    /// `due`: what it does next with the replicas.
    Due,
    /// `in-flight`: the slots in flight.
    InFlight,
    /// `allows REPLICA [from CLIENTS]`: whether it may post to this replica with this choice.
    Allows,
    /// `refused REPLICA [from CLIENTS]`: the refusal of that post.
    Refused,
    /// `envelope REPLICA [from CLIENTS]`: what it would post.
    Envelope,
    /// `post REPLICA [from CLIENTS]`: what it posts.
    Post,
    /// `taken ACTOR ENVELOPE`: it takes the envelope from this actor.
    Taken,
    /// `passed-over REPLICA ENVELOPE`: whether it takes the envelope without a copy.
    PassedOver,
    /// `ask CLIENT SIGNED-REQUEST`: it takes the ask from this client.
    Ask,
    /// `held CLIENT`: the request of the client that it holds.
    Held,
    /// `reply CLIENT`: the reply that it posts to the client.
    Reply,
    /// `decided`: the contents of the closed slots.
    Decided,
    /// `history`: the requests that acted.
    History,
    /// `entries`: the number of entries of its log.
    Entries,
}

/// The calls by their verbs.
const CALLS: [(&str, Call); 14] = [
    ("due", Call::Due),
    ("in-flight", Call::InFlight),
    ("allows", Call::Allows),
    ("refused", Call::Refused),
    ("envelope", Call::Envelope),
    ("post", Call::Post),
    ("taken", Call::Taken),
    ("passed-over", Call::PassedOver),
    ("ask", Call::Ask),
    ("held", Call::Held),
    ("reply", Call::Reply),
    ("decided", Call::Decided),
    ("history", Call::History),
    ("entries", Call::Entries),
];

/// Opens `replica SHAPE REPLICA`: the replica of the shape, with an empty log.
pub fn open(alloc: Global, words: &mut Words) -> Result<Logged, Failure> {
    let shape = words.shape()?;
    let actor = Actor::Replica(words.replica()?);
    let mut keys = Keys::new(alloc, shape)?;
    let key = keys.take(actor).ok_or(Failure::NoCall)?;
    Logged::new(alloc, key, &shape)
}

/// Makes the call of this verb at the replica.
pub fn answer(desk: &Desk, logged: &mut Logged, verb: &[u8], words: &mut Words) -> Answered {
    let alloc = desk.alloc();
    match find(&CALLS, verb)? {
        Call::Due => Ok(Said::Due(logged.replica().due())),
        Call::InFlight => in_flight(alloc, logged.replica()),
        Call::Allows => allows(logged.replica(), words),
        Call::Refused => refused(logged.replica(), words),
        Call::Envelope => envelope(alloc, logged.replica(), words),
        Call::Post => post(alloc, logged, words),
        Call::Taken => taken(desk, logged, words),
        Call::PassedOver => {
            let from = words.replica()?;
            let envelope = desk.envelope(words.rest())?;
            Ok(Said::Whether(logged.pass_over(from, &envelope)?))
        }
        Call::Ask => ask(desk, logged, words),
        Call::Held => Ok(Said::of_request(logged.replica().held(words.client()?))),
        Call::Reply => reply(alloc, logged, words),
        Call::Decided => decided(alloc, logged.replica()),
        Call::History => Ok(listed(alloc, logged.replica().history(), " ")?),
        Call::Entries => Ok(Said::Number(logged.entries())),
    }
}

/// Takes a choice: the held requests of clients, or nothing in particular.
fn pick(words: &mut Words) -> Result<Pick, Failure> {
    if words.is_empty() {
        return Ok(Pick::Plain);
    }
    if words.next() != b"from".as_slice() {
        return Err(Failure::BadRow);
    }
    let list = Few::<ClientId, 8>::read(words.next()).ok_or(Failure::BadRow)?;
    let clients = Clients::of(list.as_slice()).ok_or(Failure::BadRow)?;
    Ok(Pick::From(clients))
}

/// Answers `in-flight`.
fn in_flight(alloc: Global, replica: &Replica) -> Answered {
    let mut slots = Vec::new(alloc);
    for state in replica.in_flight() {
        slots.push(state.slot())?;
    }
    Ok(listed(alloc, slots.as_slice(), " ")?)
}

/// Answers `allows REPLICA [from CLIENTS]`.
fn allows(replica: &Replica, words: &mut Words) -> Answered {
    let to = words.replica()?;
    Ok(Said::Whether(replica.allows(to, pick(words)?)))
}

/// Answers `refused REPLICA [from CLIENTS]`.
fn refused(replica: &Replica, words: &mut Words) -> Answered {
    let to = words.replica()?;
    match replica.refusal(to, pick(words)?) {
        Some(refusal) => Err(Failure::Refused(refusal)),
        None => Ok(Said::Nothing),
    }
}

/// Answers `envelope REPLICA [from CLIENTS]`.
fn envelope(alloc: Global, replica: &Replica, words: &mut Words) -> Answered {
    let to = words.replica()?;
    let pick = pick(words)?;
    said_post(alloc, replica, to, &pick)
}

/// Answers `post REPLICA [from CLIENTS]`. The answer is complete before the replica posts, so a call that lacks memory posts
/// nothing, and can be made again.
fn post(alloc: Global, logged: &mut Logged, words: &mut Words) -> Answered {
    let to = words.replica()?;
    let pick = pick(words)?;
    let said = said_post(alloc, logged.replica(), to, &pick)?;
    logged.post(alloc, to, &pick)?;
    Ok(said)
}

/// Answers `reply CLIENT`. The answer is complete before the replica posts, as in `post`.
fn reply(alloc: Global, logged: &mut Logged, words: &mut Words) -> Answered {
    let client = words.client()?;
    let said = said_envelope(alloc, logged.owed(client)?)?;
    logged.reply(client)?;
    Ok(said)
}

/// Answers `taken ACTOR ENVELOPE`.
fn taken(desk: &Desk, logged: &mut Logged, words: &mut Words) -> Answered {
    let from = words.actor()?;
    let envelope = desk.envelope(words.rest())?;
    match from {
        Actor::Replica(replica) => logged.take(replica, envelope)?,
        Actor::Client(client) => logged.take_ask(client, envelope)?,
    }
    Ok(Said::Done)
}

/// Answers `ask CLIENT SIGNED-REQUEST`.
fn ask(desk: &Desk, logged: &mut Logged, words: &mut Words) -> Answered {
    let client = words.client()?;
    let signed = desk.signed(words.rest())?;
    logged.take_ask(client, Envelope::ask(desk.alloc(), signed)?)?;
    Ok(Said::Done)
}

/// Answers `decided`.
fn decided(alloc: Global, replica: &Replica) -> Answered {
    let mut contents = Vec::new(alloc);
    for decision in replica.decided() {
        contents.push(Content(decision.content()))?;
    }
    Ok(listed(alloc, contents.as_slice(), " ")?)
}

/// Answers with what the replica posts to this replica with this choice.
fn said_post(alloc: Global, replica: &Replica, to: ReplicaId, pick: &Pick) -> Answered {
    let envelope = replica.envelope_for(alloc, to, *pick)?;
    said_envelope(alloc, Some(envelope))
}

/// Answers with the envelope, or with `Nothing`.
fn said_envelope(alloc: Global, envelope: Option<Envelope>) -> Answered {
    match envelope {
        Some(envelope) => Ok(Said::Envelope(draft_of_envelope(alloc, &envelope)?)),
        None => Ok(Said::Nothing),
    }
}
