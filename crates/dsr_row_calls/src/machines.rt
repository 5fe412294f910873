//! The calls of machines.

ghost use Rattle.std.specs.Prelude.{◌<◌, ◌↔◌, All, IsTrue};

use crate::said::{Answered, Failure, Said};
use crate::texts::listed;
use crate::words::{Words, find};
use dsr_desk::read_content;
use dsr_history::{MOST_REQUESTS, Machine, Request};
use dsr_names::{Old, Shape};
use std::alloc::Global;
use std::marker::Model;

/// A machine, and the number of its clients.
#[derive(Drop)]
pub struct Works {
    machine: Machine,
    clients: u8,
}

impl Model for Works {
    ghost use Rattle.std.specs.Prelude.{◌≡◌, ℕ};

    ghost Value = { ℕ };

    ghost view = { λ w. w.clients };

    ghost invariant = { λ w. w.machine.clients ≡ w.clients };
}

/// A call at a machine.
#[derive(Clone, Copy)]
enum Call {
    /// `accept CONTENT`: accepts a value with these requests, and answers how many of them acted.
    Accept,
    /// `kept CLIENT`: the client's last reply.
    Kept,
    /// `history`: the requests that acted.
    History,
    /// `answer-at PLACE`: the answer to the request at this place.
    AnswerAt,
    /// `get NAME`: what the register holds.
    Get,
    /// `room`: makes room for the next value.
    Room,
    /// `has-room`: whether there is room for the longest value.
    HasRoom,
}

/// The calls by their verbs.
const CALLS: [(&str, Call); 7] = [
    ("accept", Call::Accept),
    ("kept", Call::Kept),
    ("history", Call::History),
    ("answer-at", Call::AnswerAt),
    ("get", Call::Get),
    ("room", Call::Room),
    ("has-room", Call::HasRoom),
];

/// A number of requests that no row reaches.
const MANY: usize = 1_000_000;

impl Works {
    /// Opens `machine CLIENTS`: a machine for CLIENTS clients that has accepted nothing.
    pub fn open(alloc: Global, words: &mut Words) -> Result<Works, Failure> {
        let clients = words.small_number()?;
        let shape = Shape::new(1, 0, clients, 0)?;
        let machine = Machine::new(alloc, &shape)?;
        Ok(Works { machine, clients })
    }

    /// Makes the call of this verb.
    pub fn answer(&mut self, alloc: Global, verb: &[u8], words: &mut Words) -> Answered {
        match find(&CALLS, verb)? {
            Call::Accept => self.accept(words),
            Call::Kept => Ok(Said::of_reply(self.machine.kept(words.client()?))),
            Call::History => Ok(listed(alloc, self.machine.history(), " ")?),
            Call::AnswerAt => Ok(Said::of_answer(self.machine.answer_at(words.number()?))),
            Call::Get => Ok(Said::Old(Old(self.machine.get(&words.name()?)))),
            Call::Room => {
                self.machine.room()?;
                Ok(Said::Done)
            }
            Call::HasRoom => Ok(Said::Whether(self.machine.spare() >= MOST_REQUESTS)),
        }
    }

    /// Answers `accept CONTENT`.
    fn accept(&mut self, words: &mut Words) -> Answered {
        let content = read_content(words.rest()).ok_or(Failure::BadRow)?;
        let count = match content {
            Some(requests) => self.accept_requests(requests.as_slice())?,
            None => self.accept_requests(&[])?,
        };
        Ok(Said::Number(u64::from(count)))
    }

    /// Has the machine accept the requests, if they are of its clients.
    fn accept_requests(&mut self, requests: &[Request]) -> Result<u8, Failure> {
        if requests.len() > MOST_REQUESTS
            || !are_of(requests, self.clients)
            || self.machine.history().len() > MANY
        {
            return Err(Failure::NoCall);
        }
        Ok(self.machine.accept_value(requests)?)
    }
}

/// Tells whether the client of each request is below `clients`.
fn are_of(requests: &[Request], clients: u8) -> bool
    ensures { IsTrue result ↔ All (λ r. r.client < clients) requests.now }
{
    requests
        .iter()
        .all(|request| request.client().number() < clients)
}
