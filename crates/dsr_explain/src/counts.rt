//! What matters in a play although nothing is refused: how often it happened, and the line of the first time. Only the end of an explanation in words has
//! it.

use crate::parts::Part::{Number, Text};
use crate::parts::put_parts;
use dsr_base::Exact;
use dsr_envelope::Envelope;
use dsr_ledger::Reply;
use dsr_names::{Actor, Refusal};
use dsr_notes::{ChainFate, Note};
use dsr_reasons::Writer;
use dsr_slot::Fate;
use dsr_world::Stage;
use std::alloc::Global;

/// For each replica, by its number, how many contents it kept for a slot before it decided the slot; `None` if it has not decided it.
pub(crate) type KeptBy = [Option<u8>; 16];

/// How often something happened, and the line in which it did so first.
#[derive(Clone, Copy)]
pub(crate) struct Count {
    pub(crate) number: u64,
    first: u64,
}

impl Count {
    /// It has not happened yet.
    pub(crate) const NONE: Count = Count {
        number: 0,
        first: 0,
    };

    /// Counts that it happened in this line.
    pub(crate) fn add(&mut self, line: u64) {
        if self.number == 0 {
            self.first = line;
        }
        self.number = self.number.saturating_add(1);
    }

    /// Writes how often it happened, and then `end`; nothing if it did not. `what` says what it is.
    pub(crate) fn write(&self, out: &mut Writer, what: &'static str, end: &'static str) {
        if self.number > 0 {
            put_parts(
                out,
                &[
                    Text(what),
                    Text(": "),
                    Number(self.number),
                    Text(", the first in line "),
                    Number(self.first),
                    Text(end),
                ],
            );
        }
    }
}

/// The first vote on a client's request: its reply, and the line in which the client took it.
#[derive(Clone, Copy)]
struct FirstVote {
    reply: Reply,
    line: u64,
}

/// How often each of these things happened, and how many contents replicas kept.
#[derive(Drop)]
pub(crate) struct NoteCounts {
    other_round: Count,
    improper: Count,
    not_in_flight: Count,
    unproposed: Count,
    stale: Count,
    unlike: Count,
    /// The line of the vote from which the first unlike one differs.
    unlike_which: u64,
    no_vote: Count,
    /// For each client, by its number, the first vote on its last request that has one.
    first_votes: [Option<FirstVote>; 32],
    /// By slot, how many contents replicas kept.
    pub(crate) kept: Vec<KeptBy>,
}

impl NoteCounts {
    /// Creates the counts before any event.
    pub(crate) fn new(alloc: Global) -> NoteCounts {
        NoteCounts {
            other_round: Count::NONE,
            improper: Count::NONE,
            not_in_flight: Count::NONE,
            unproposed: Count::NONE,
            stale: Count::NONE,
            unlike: Count::NONE,
            unlike_which: 0,
            no_vote: Count::NONE,
            first_votes: [None; 32],
            kept: Vec::new(alloc),
        }
    }

    /// Counts what these notes tell about an event of this line, which was done last. `actor` posted or took the envelope. `NoMemory` if memory runs out.
    pub(crate) fn add(
        &mut self,
        stage: &Stage,
        actor: &Actor,
        envelope: Option<&Envelope>,
        line: u64,
        notes: &[Note],
    ) -> Result<(), Refusal> {
        let mut has_proposed_nothing = false;
        for note in notes {
            match note {
                Note::OtherRound { .. } => self.other_round.add(line),
                Note::Chain {
                    fate: ChainFate::NotInFlight,
                    ..
                } => self.not_in_flight.add(line),
                Note::Chain {
                    fate: ChainFate::Read {
                        fate: Fate::Improper(_),
                        ..
                    },
                    ..
                } => self.improper.add(line),
                Note::Unproposed { .. } => has_proposed_nothing = true,
                Note::Stale { .. } => self.stale.add(line),
                Note::Vote { .. } => self.add_vote(actor, envelope, line),
                Note::NoVote { .. } => self.add_no_vote(stage, actor, line),
                Note::Decided { slot, kept } => self.add_kept(actor, *slot, *kept)?,
                Note::Chain { .. }
                | Note::Kept(_)
                | Note::Closed { .. }
                | Note::Acted { .. }
                | Note::Accepted { .. }
                | Note::Held { .. } => {}
            }
        }
        // A sender may hold several requests, each of which has a note.
        if has_proposed_nothing {
            self.unproposed.add(line);
        }
        Ok(())
    }

    /// Writes the line of each of these things that happened.
    pub(crate) fn write(&self, out: &mut Writer) {
        self.other_round.write(
            out,
            "taken envelopes that are not of the round in progress",
            "\n",
        );
        self.improper
            .write(out, "taken chains that are not proper", "\n");
        self.not_in_flight
            .write(out, "taken chains of a slot that is not in flight", "\n");
        self.unproposed.write(
            out,
            "slots in which the sender proposes nothing, though it holds a request",
            "\n",
        );
        self.stale
            .write(out, "decided requests that do not act", "\n");
        self.write_unlike(out);
        self.no_vote.write(
            out,
            "taken envelopes that give a waiting client no vote",
            "\n",
        );
    }

    /// Stores how many contents the actor kept for a slot that it decided.
    fn add_kept(&mut self, actor: &Actor, slot: u64, count: u8) -> Result<(), Refusal> {
        let Actor::Replica(replica) = actor else {
            return Ok(());
        };
        let place = slot as usize;
        if place >= self.kept.len() {
            self.kept.push([None; 16])?;
        }
        if place < self.kept.len() {
            self.kept[place][replica.number() as usize] = Some(count);
        }
        Ok(())
    }

    /// Counts the vote that this envelope is, if it differs from the first vote on the same request.
    fn add_vote(&mut self, actor: &Actor, envelope: Option<&Envelope>, line: u64) {
        let (Actor::Client(client), Some(Envelope::Reply(reply))) = (actor, envelope) else {
            return;
        };
        let place = client.number() as usize;
        let first = match self.first_votes[place] {
            Some(first) if first.reply.number == reply.number => first,
            _ => FirstVote {
                reply: *reply,
                line,
            },
        };
        self.first_votes[place] = Some(first);
        if !first.reply.same(reply) {
            if self.unlike.number == 0 {
                self.unlike_which = first.line;
            }
            self.unlike.add(line);
        }
    }

    /// Writes how many votes differ from the first one on the same request; nothing if none does.
    fn write_unlike(&self, out: &mut Writer) {
        self.unlike.write(
            out,
            "votes that differ from the first vote on the same request",
            "; it differs from a vote in line ",
        );
        if self.unlike.number > 0 {
            put_parts(out, &[Number(self.unlike_which), Text("\n")]);
        }
    }

    /// Counts an envelope that is no vote, if a request of the client is outstanding.
    fn add_no_vote(&mut self, stage: &Stage, actor: &Actor, line: u64) {
        let Actor::Client(client) = actor else {
            return;
        };
        match stage.client(*client) {
            Ok(client) if client.outstanding().is_some() => self.no_vote.add(line),
            _ => {}
        }
    }
}
