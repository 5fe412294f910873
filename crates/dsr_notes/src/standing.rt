//! How far a replica is with a client's outstanding request.

ghost use Rattle.std.specs.Prelude.{◌≡◌, ◌<◌, List};
ghost use Rattle.std.specs.Option.{is_some};
ghost use Rattle.dsr_names.specs.Shape.{IsActor};
ghost use Rattle.dsr_names.specs.declared.actor.Actor.TheVariants.{Replica as ReplicaNumber, Client as ClientNumber};
ghost use Rattle.dsr_history.specs.History.{reply};
ghost use Rattle.dsr_envelope.specs.declared.entry.Entry.{Entry};
ghost use Rattle.dsr_replica.specs.Decided.{decided_requests};
ghost use Rattle.dsr_replica.specs.Held.{held};
ghost use Rattle.dsr_replica.specs.Replica.{StandsFor};
ghost use Rattle.dsr_quorum.specs.Votes.{first_of};
ghost use Rattle.dsr_client.specs.Issue.{asks_for};
ghost use Rattle.dsr_client.specs.State.{state_after};
ghost use Rattle.dsr_run.specs.Step.{log_of};
ghost use Rattle.dsr_world.specs.Event.{in_box};
ghost use Rattle.dsr_notes.specs.End.{ask_standing, has_acted, has_ask, is_reply_to, reply_standing, standing};

use dsr_envelope::Envelope;
use dsr_names::{Actor, ClientId, ReplicaId};
use dsr_replica::Replica;
use dsr_world::Stage;

/// How far a replica is with a client's outstanding request: the first of these that holds.
#[derive(Clone, Copy, Debug, PartialEq, Eq)]
pub enum Standing {
    /// The client has its vote.
    Voted,
    /// It is a traitor.
    IsTraitor,
    /// The request acted there, and its reply is in the box.
    ReplyLies,
    /// The request acted there, and the box to the client is empty.
    CanReply,
    /// The request acted there, and the box to the client holds something else.
    OtherLies,
    /// It holds the request.
    Holds,
    /// It has not taken the ask.
    AskLies,
    /// It has not taken an older ask, which is in the way.
    OlderLies,
    /// It was not asked, and the box is empty.
    Unasked,
}

/// Returns how far the replica is with the client's outstanding request, which has this number.
pub fn standing_of(stage: &Stage, client: ClientId, number: u64, replica: ReplicaId) -> Standing
    requires client { client < stage.now.shape.m }
    requires replica { replica < stage.now.shape.n }
    ensures { result ≡ standing stage.now.shape (log_of stage.now.run) client number replica }
{
    if has_voted(stage, client, replica) {
        return Standing::Voted;
    }
    let Ok(loyal) = stage.replica(replica) else {
        return Standing::IsTraitor;
    };
    if has_acted(loyal, client, number) {
        return reply_standing(stage, replica, client, number);
    }
    if holds(loyal, client, number) {
        return Standing::Holds;
    }
    ask_standing(stage, client, replica, number)
}

/// Tells whether the client has counted a reply of the replica to its outstanding request.
fn has_voted(stage: &Stage, client: ClientId, replica: ReplicaId) -> bool
    requires client { client < stage.now.shape.m }
    requires replica { replica < stage.now.shape.n }
    ensures { result ≡ is_some (first_of replica (state_after stage.now.shape (log_of stage.now.run (ClientNumber client))).notes) }
{
    match stage.client(client) {
        Ok(asker) => asker.tally().vote_of(replica).is_some(),
        Err(_) => unreachable!(),
    }
}

/// Tells whether the client's last request that acted at the replica has this number.
fn has_acted(loyal: &Replica, client: ClientId, number: u64) -> bool
    ensures { (log : List Entry) → StandsFor loyal.now log
        → result ≡ has_acted number (reply (decided_requests loyal.now.shape log) client) }
{
    match loyal.reply_for(client) {
        Some(Envelope::Reply(reply)) => reply.number == number,
        _ => false,
    }
}

/// Tells whether the replica holds the client's request with this number.
fn holds(loyal: &Replica, client: ClientId, number: u64) -> bool
    ensures { (log : List Entry) → StandsFor loyal.now log → result ≡ has_ask number (held loyal.now.shape client log) }
{
    match loyal.held(client) {
        Some(request) => request.number() == number,
        None => false,
    }
}

/// Returns how far the reply to the request with this number is, by what is in the box from the replica to the client.
fn reply_standing(stage: &Stage, replica: ReplicaId, client: ClientId, number: u64) -> Standing
    requires replica { replica < stage.now.shape.n }
    requires client { client < stage.now.shape.m }
    ensures { result ≡ reply_standing number (in_box (log_of stage.now.run) (ReplicaNumber replica) (ClientNumber client)) }
{
    match stage.in_box(&Actor::Replica(replica), &Actor::Client(client)) {
        None => Standing::CanReply,
        Some(letter) => {
            if is_reply_to(letter.envelope(), number) {
                Standing::ReplyLies
            } else {
                Standing::OtherLies
            }
        }
    }
}

/// Tells whether the envelope is the reply to a request with this number.
fn is_reply_to(envelope: &Envelope, number: u64) -> bool
    ensures { result ≡ is_reply_to number envelope.now }
{
    match envelope {
        Envelope::Reply(reply) => reply.number == number,
        _ => false,
    }
}

/// Returns how far the ask with this number is, by what is in the box from the client to the replica.
fn ask_standing(stage: &Stage, client: ClientId, replica: ReplicaId, number: u64) -> Standing
    requires client { client < stage.now.shape.m }
    requires replica { replica < stage.now.shape.n }
    ensures { result ≡ ask_standing number (in_box (log_of stage.now.run) (ClientNumber client) (ReplicaNumber replica)) }
{
    match stage.in_box(&Actor::Client(client), &Actor::Replica(replica)) {
        None => Standing::Unasked,
        Some(letter) => {
            if asks_for(letter.envelope(), number) {
                Standing::AskLies
            } else {
                Standing::OlderLies
            }
        }
    }
}

/// Tells whether the envelope asks for a request with this number.
fn asks_for(envelope: &Envelope, number: u64) -> bool
    ensures { result ≡ asks_for number envelope.now }
{
    match envelope {
        Envelope::Ask(ask) => ask.signed().request.number() == number,
        _ => false,
    }
}
