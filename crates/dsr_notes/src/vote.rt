//! What a client does with what it takes from a replica.

ghost use Rattle.std.specs.Prelude.{◌≡◌, ◌<◌, List, [], None};
ghost use Rattle.dsr_names.specs.declared.actor.Actor.TheVariants.{Replica as ReplicaNumber, Client as ClientNumber};
ghost use Rattle.dsr_envelope.specs.declared.entry.Entry.{Entry};
ghost use Rattle.dsr_play.specs.declared.event.Event.TheVariants.{Take};
ghost use Rattle.dsr_quorum.specs.Votes.{first_of};
ghost use Rattle.dsr_client.specs.Client.{StandsFor};
ghost use Rattle.dsr_client.specs.State.{state_after, outstanding};
ghost use Rattle.dsr_notes.specs.Support.Rest.{Foretells};
ghost use Rattle.dsr_notes.specs.Vote.{no_vote, vote_note, vote_or};
ghost use Rattle.dsr_notes.specs.declared.rest.Rest.TheVariants.{Reply as TheReply};

use crate::note::{NoVote, Note};
use crate::notes::Notes;
use dsr_client::Client;
use dsr_envelope::Envelope;
use dsr_ledger::Reply;
use dsr_names::{Actor, ClientId, ReplicaId, Shape};
use dsr_world::Stage;

/// Notes whether the envelope that a client is about to take from a replica is a vote. The reply that it may accept remains to be noted.
pub(crate) fn note_vote(stage: &Stage, client: ClientId, replica: ReplicaId, notes: &mut Notes)
    requires { notes.old.items ≡ [] }
    ensures { Foretells stage.now.shape stage.now.run (Take (ClientNumber client) (ReplicaNumber replica)) notes.new TheReply }
{
    let from = Actor::Replica(replica);
    let shape = stage.shape();
    let Ok(taker) = stage.client(client) else {
        return;
    };
    if !shape.has(from) {
        return;
    }
    if let Some(letter) = stage.in_box(&from, &Actor::Client(client)) {
        notes.add(vote_in(shape, taker, replica, letter.envelope()));
    }
}

/// Returns the note of an envelope from a replica, for a client that has not taken it yet: whether it is a vote.
fn vote_in(shape: &Shape, taker: &Client, replica: ReplicaId, envelope: &Envelope) -> Note
    requires shape { taker.now.shape ≡ shape.now }
    requires replica { replica < shape.now.n }
    ensures { (log : List Entry) → StandsFor taker.now log → result ≡ vote_note shape.now (state_after shape.now log) replica envelope.now }
{
    let Envelope::Reply(reply) = envelope else {
        return Note::NoVote {
            why: NoVote::NoReply,
        };
    };
    match no_vote(taker, replica, reply) {
        Some(why) => Note::NoVote { why },
        None => vote_for(shape, taker, replica, reply),
    }
}

/// Returns why a reply from a replica is not a vote; `None` if it is one.
fn no_vote(taker: &Client, replica: ReplicaId, reply: &Reply) -> Option<NoVote>
    requires replica { replica < taker.now.shape.n }
    ensures { (log : List Entry) → StandsFor taker.now log → result
        ≡ no_vote (outstanding taker.now.shape log) (first_of replica (state_after taker.now.shape log).notes) reply.now }
{
    let Some(outstanding) = taker.outstanding() else {
        return Some(NoVote::NothingOutstanding);
    };
    if reply.number != outstanding {
        return Some(NoVote::OtherNumber { outstanding });
    }
    match taker.tally().vote_of(replica) {
        Some(_) => Some(NoVote::HasVoted),
        None => None,
    }
}

/// Returns the note of a reply that is a vote: it is one vote more for this reply. Its contract is about a replica that has not voted yet.
fn vote_for(shape: &Shape, taker: &Client, replica: ReplicaId, reply: &Reply) -> Note
    requires shape { taker.now.shape ≡ shape.now }
    requires replica { replica < shape.now.n }
    ensures { (log : List Entry) → StandsFor taker.now log → first_of replica (state_after shape.now log).notes ≡ None
        → result ≡ vote_or shape.now (state_after shape.now log).notes replica reply.now None }
{
    let needed = shape.f() + 1;
    let count = taker.tally().votes(reply) + 1;
    Note::Vote { count, needed }
}
