//! The calls of clients.

use crate::desk::{Desk, draft_of_envelope};
use crate::said::{Answered, Failure, Said};
use crate::words::{Words, find};
use dsr_chain::SignedRequest;
use dsr_client::Client;
use dsr_desk::Keys;
use dsr_envelope::Envelope;
use dsr_names::{Actor, ClientId, NUMBER_END, Shape};
use std::alloc::Global;
use std::marker::Model;

/// A client, its shape, and its identity in the shape.
#[derive(Drop)]
pub struct Customer {
    client: Client,
    shape: Shape,
    me: ClientId,
}

impl Model for Customer {
    ghost use Rattle.std.specs.Prelude.{◌≡◌, ℕ};

    ghost Value = { ℕ };

    ghost view = { λ c. c.me };

    ghost invariant = { λ c. (c.client.shape ≡ c.shape) × (c.client.me ≡ c.me) };
}

/// A call at a client.
#[derive(Clone, Copy)]
enum Call {
    /// `begin OPERATION`: the number of the request that is outstanding from now on.
    Begin,
    /// `first-ask OPERATION`: the ask that `begin` would make.
    FirstAsk,
    /// `outstanding`: the number of the outstanding request.
    Outstanding,
    /// `ask-for REPLICA`: the ask of the outstanding request.
    AskFor,
    /// `taken ACTOR ENVELOPE`: the reply that the client accepts when it takes the envelope.
    Taken,
    /// `votes REPLY`: how many replicas gave this reply as their first one to the outstanding request.
    Votes,
    /// `told NUMBER`: another client reports its seen front.
    Told,
    /// `seen`: the seen front.
    Seen,
}

/// The calls by their verbs.
const CALLS: [(&str, Call); 8] = [
    ("begin", Call::Begin),
    ("first-ask", Call::FirstAsk),
    ("outstanding", Call::Outstanding),
    ("ask-for", Call::AskFor),
    ("taken", Call::Taken),
    ("votes", Call::Votes),
    ("told", Call::Told),
    ("seen", Call::Seen),
];

impl Customer {
    /// Opens `client SHAPE CLIENT`: the client of the shape before its first request.
    pub fn open(alloc: Global, words: &mut Words) -> Result<Customer, Failure> {
        let shape = words.shape()?;
        let me = words.client()?;
        if me.number() >= shape.m() {
            return Err(Failure::NoCall);
        }
        let mut keys = Keys::new(alloc, shape)?;
        let key = keys.take(Actor::Client(me)).ok_or(Failure::NoCall)?;
        let client = Client::new(key, &shape);
        Ok(Customer { client, shape, me })
    }

    /// Makes the call of this verb.
    pub fn answer(&mut self, desk: &Desk, verb: &[u8], words: &mut Words) -> Answered {
        match find(&CALLS, verb)? {
            Call::Begin => Ok(Said::Number(self.client.begin(words.op()?)?)),
            Call::FirstAsk => said_ask(desk.alloc(), self.client.first_ask(words.op()?)),
            Call::Outstanding => Ok(Said::of_number(self.client.outstanding())),
            Call::AskFor => said_ask(desk.alloc(), self.client.ask_for(words.replica()?)),
            Call::Taken => {
                let from = words.actor()?;
                self.taken(from, desk.envelope(words.rest())?)
            }
            Call::Votes => Ok(Said::Number(u64::from(self.client.tally().votes(&words.reply()?)))),
            Call::Told => self.told(words.number()?),
            Call::Seen => Ok(Said::Number(self.client.seen())),
        }
    }

    /// Answers `taken ACTOR ENVELOPE`.
    fn taken(&mut self, from: Actor, envelope: Envelope) -> Answered {
        if !self.shape.has(from) || from == Actor::Client(self.me) || !envelope.fits() {
            return Err(Failure::NoCall);
        }
        Ok(Said::of_reply(self.client.taken(from, envelope)))
    }

    /// Answers `told NUMBER`.
    fn told(&mut self, front: u64) -> Answered {
        if front >= NUMBER_END {
            return Err(Failure::NoCall);
        }
        self.client.told(front);
        Ok(Said::Done)
    }
}

/// Answers with the ask, or with `Nothing`.
fn said_ask(alloc: Global, ask: Option<SignedRequest>) -> Answered {
    match ask {
        Some(ask) => {
            let envelope = Envelope::ask(alloc, ask)?;
            Ok(Said::Envelope(draft_of_envelope(alloc, &envelope)?))
        }
        None => Ok(Said::Nothing),
    }
}
