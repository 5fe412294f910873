ghost use Rattle.std.specs.Prelude.{◌≡◌, List, IfSome, IfNone, IsSome};
ghost use Rattle.dsr_names.specs.declared.actor.Actor.TheVariants.{Replica as ReplicaNumber};
ghost use Rattle.dsr_names.specs.Support.ActorEquality.{actor_eq};
ghost use Rattle.dsr_envelope.specs.declared.due.Due.TheVariants.{Post as PostTo};
ghost use Rattle.dsr_envelope.specs.declared.entry.Entry.{Entry};
ghost use Rattle.dsr_envelope.specs.declared.pick.Pick.TheVariants.{From};
ghost use Rattle.dsr_envelope.specs.Log.{due, rounds};
ghost use Rattle.dsr_replica.specs.Conduct.{envelope_to, is_due};
ghost use Rattle.dsr_replica.specs.Held.{all_held};
ghost use Rattle.dsr_replica.specs.Replica.{StandsFor};
ghost use Rattle.dsr_facts.specs.Undue.{IsFirstUnheld, IsUndueRound};

use dsr_envelope::{Clients, Due, Pick};
use dsr_names::{Actor, ClientId, ReplicaId};
use dsr_replica::Replica;

/// Why a post of a loyal replica or of a client, or a take of a loyal replica, is not due.
#[derive(Clone, Copy, Debug, PartialEq, Eq)]
pub enum Undue {
    /// This is due first with the replicas.
    First(Due),
    /// What is proposed was chosen at the post to replica 0.
    ChosenBefore,
    /// The slot that begins with the round has another sender, this one.
    OtherSender { slot: u64, sender: ReplicaId },
    /// No ask of this client is held.
    NothingHeld { client: ClientId },
    /// A replica begins no request.
    BeginsNothing,
    /// No request of the client has acted at the replica.
    NothingActed,
    /// A replica chooses nothing for a post to a client.
    NoChoice,
    /// A client proposes nothing.
    ProposesNothing,
    /// The client's request with this number is outstanding.
    Outstanding { number: u64 },
    /// No request of the client is outstanding.
    NothingOutstanding,
}

/// Returns why the replica, which is `me`, does not post to this replica by this choice. `None` exactly if it has an envelope for it. Requires
/// its round in progress, if the post is due. Allocates nothing.
pub fn undue_round(
    replica: &Replica,
    me: &Actor,
    round: u64,
    to: ReplicaId,
    pick: &Pick,
) -> Option<Undue>
    requires me { replica.now.me ≡ me.now }
    requires round { replica.now.next ≡ PostTo to → replica.now.round ≡ round }
    ensures some { (log : List Entry) → StandsFor replica.now log
        → IfSome result (IsUndueRound replica.now.shape replica.now.me log to pick.now) }
    ensures none { (log : List Entry) → StandsFor replica.now log
        → IfNone result (IsSome (envelope_to replica.now.shape replica.now.me log to pick.now)) }
{
    if !is_due(replica.due(), to) {
        return Some(Undue::First(replica.due()));
    }
    match pick {
        Pick::Plain => None,
        Pick::From(clients) => undue_choice(replica, me, round, to, clients),
        Pick::Begin(_) => Some(Undue::BeginsNothing),
    }
}

/// Returns why the replica does not propose the asks of these clients in a post to this replica; `None` if it does.
/// Requires its round in progress; the clauses speak of a post that is due.
fn undue_choice(
    replica: &Replica,
    me: &Actor,
    round: u64,
    to: ReplicaId,
    clients: &Clients,
) -> Option<Undue>
    requires me { replica.now.me ≡ me.now }
    requires round { (log : List Entry) → StandsFor replica.now log → rounds replica.now.shape log ≡ round }
    ensures some { (log : List Entry) → StandsFor replica.now log → due replica.now.shape log ≡ PostTo to
        → IfSome result (IsUndueRound replica.now.shape replica.now.me log to (From clients.now)) }
    ensures none { (log : List Entry) → StandsFor replica.now log → due replica.now.shape log ≡ PostTo to
        → IfNone result (IsSome (envelope_to replica.now.shape replica.now.me log to (From clients.now))) }
{
    if to.number() > 0 {
        return Some(Undue::ChosenBefore);
    }
    let sender = replica.shape().sender(round);
    if !is_replica(me, sender) {
        return Some(Undue::OtherSender {
            slot: round,
            sender,
        });
    }
    match first_unheld(replica, clients.as_slice()) {
        Some(client) => Some(Undue::NothingHeld { client }),
        None => None,
    }
}

/// Returns the first of these clients whose ask the replica does not hold.
fn first_unheld(replica: &Replica, clients: &[ClientId]) -> Option<ClientId>
    ensures some { (log : List Entry) → StandsFor replica.now log → IfSome result (IsFirstUnheld replica.now.shape log clients.now) }
    ensures none { (log : List Entry) → StandsFor replica.now log → IfNone result (IsSome (all_held replica.now.shape log clients.now)) }
{
    for client in clients {
        if replica.held(*client).is_none() {
            return Some(*client);
        }
    }
    None
}

/// Tells whether the post to this replica is due.
fn is_due(next: Due, to: ReplicaId) -> bool
    ensures { result ≡ is_due next to }
{
    match next {
        Due::Post(replica) => replica == to,
        Due::Take(_) => false,
    }
}

/// Tells whether the actor is this replica.
fn is_replica(actor: &Actor, replica: ReplicaId) -> bool
    ensures { result ≡ actor_eq actor.now (ReplicaNumber replica) }
{
    *actor == Actor::Replica(replica)
}
