//! The calls of ledgers.

use crate::said::{Answered, Failure, Said};
use crate::words::{Words, find};
use dsr_ledger::Ledger;
use std::alloc::Global;
use std::marker::Model;

/// A ledger, and the number of its clients.
#[derive(Drop)]
pub struct Replies {
    ledger: Ledger,
    clients: u8,
}

impl Model for Replies {
    ghost use Rattle.std.specs.Prelude.{◌≡◌, ℕ, length};

    ghost Value = { ℕ };

    ghost view = { λ r. r.clients };

    ghost invariant = { λ r. length r.ledger ≡ r.clients };
}

/// A call at a ledger.
#[derive(Clone, Copy)]
enum Call {
    /// `acts CLIENT NUMBER`: whether a request of the client with this number would act.
    Acts,
    /// `note CLIENT REPLY`: makes the reply the client's last one.
    Note,
    /// `kept CLIENT`: the client's last reply.
    Kept,
}

/// The calls by their verbs.
const CALLS: [(&str, Call); 3] = [
    ("acts", Call::Acts),
    ("note", Call::Note),
    ("kept", Call::Kept),
];

impl Replies {
    /// Opens `ledger CLIENTS`: a ledger for CLIENTS clients, without replies.
    pub fn open(alloc: Global, words: &mut Words) -> Result<Replies, Failure> {
        let clients = words.small_number()?;
        let ledger = Ledger::new(alloc, clients)?;
        Ok(Replies { ledger, clients })
    }

    /// Makes the call of this verb.
    pub fn answer(&mut self, verb: &[u8], words: &mut Words) -> Answered {
        match find(&CALLS, verb)? {
            Call::Acts => self.acts(words),
            Call::Note => self.note(words),
            Call::Kept => Ok(Said::of_reply(self.ledger.kept(words.client()?))),
        }
    }

    /// Answers `acts CLIENT NUMBER`.
    fn acts(&self, words: &mut Words) -> Answered {
        let client = words.client()?;
        let number = words.number()?;
        if client.number() >= self.clients {
            return Err(Failure::NoCall);
        }
        Ok(Said::Whether(self.ledger.acts(client, number)))
    }

    /// Answers `note CLIENT REPLY`.
    fn note(&mut self, words: &mut Words) -> Answered {
        let client = words.client()?;
        let reply = words.reply()?;
        if client.number() >= self.clients || !self.ledger.acts(client, reply.number) {
            return Err(Failure::NoCall);
        }
        self.ledger.note(client, reply);
        Ok(Said::Done)
    }
}
