//! The calls of tallies.

use crate::said::{Answered, Failure, Said};
use crate::words::{Words, find};
use dsr_quorum::Tally;
use std::marker::Model;

/// A tally, and the number of its replicas.
#[derive(Drop)]
pub struct Votes {
    tally: Tally,
    n: u8,
}

impl Model for Votes {
    ghost use Rattle.std.specs.Prelude.{◌≡◌, ℕ};

    ghost Value = { ℕ };

    ghost view = { λ v. v.n };

    ghost invariant = { λ v. v.tally.n ≡ v.n };
}

/// A call at a tally.
#[derive(Clone, Copy)]
enum Call {
    /// `note REPLICA REPLY`: notes that the replica gave the reply.
    Note,
    /// `winner`: the reply that won.
    Winner,
    /// `votes REPLY`: how many replicas gave this reply as their first.
    Votes,
    /// `vote-of REPLICA`: the reply that the replica gave first.
    VoteOf,
    /// `clear`: forgets all notes.
    Clear,
}

/// The calls by their verbs.
const CALLS: [(&str, Call); 5] = [
    ("note", Call::Note),
    ("winner", Call::Winner),
    ("votes", Call::Votes),
    ("vote-of", Call::VoteOf),
    ("clear", Call::Clear),
];

impl Votes {
    /// Opens `tally F N`: an empty tally for N replicas, at most F of them liars.
    pub fn open(words: &mut Words) -> Result<Votes, Failure> {
        let f = words.small_number()?;
        let n = words.small_number()?;
        if n > 16 {
            return Err(Failure::NoCall);
        }
        Ok(Votes {
            tally: Tally::new(f, n),
            n,
        })
    }

    /// Makes the call of this verb.
    pub fn answer(&mut self, verb: &[u8], words: &mut Words) -> Answered {
        match find(&CALLS, verb)? {
            Call::Note => self.note(words),
            Call::Winner => Ok(Said::of_reply(self.tally.winner())),
            Call::Votes => Ok(Said::Number(u64::from(self.tally.votes(&words.reply()?)))),
            Call::VoteOf => self.vote_of(words),
            Call::Clear => {
                self.tally.clear();
                Ok(Said::Done)
            }
        }
    }

    /// Answers `note REPLICA REPLY`.
    fn note(&mut self, words: &mut Words) -> Answered {
        let replica = words.replica()?;
        let reply = words.reply()?;
        if replica.number() >= self.n {
            return Err(Failure::NoCall);
        }
        self.tally.note(replica, reply);
        Ok(Said::Done)
    }

    /// Answers `vote-of REPLICA`.
    fn vote_of(&self, words: &mut Words) -> Answered {
        let replica = words.replica()?;
        if replica.number() >= self.n {
            return Err(Failure::NoCall);
        }
        Ok(Said::of_reply(self.tally.vote_of(replica)))
    }
}
