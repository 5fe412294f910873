ghost use Rattle.std.specs.Prelude.{true, false, reverse, ◌≡◌, ◌≢◌, ◌↔◌, ℕ, ◌∷◌, List, None, Some, IfOk, IfSome, IfNone, IsOk, OnOk, OnErr, IsOkUnless, IsTrue, IsSome};
ghost use Rattle.dsr_names.specs.Shape.{Shape, is_traitor};
ghost use Rattle.dsr_names.specs.declared.actor.Actor.{Actor};
ghost use Rattle.dsr_names.specs.declared.actor.Actor.TheVariants.{Replica as ReplicaNumber, Client as ClientNumber};
ghost use Rattle.dsr_envelope.specs.declared.envelope.Envelope.{Envelope};
ghost use Rattle.dsr_envelope.specs.declared.entry.Entry.{Entry};
ghost use Rattle.dsr_envelope.specs.declared.entry.Entry.TheVariants.{Post, Take};
ghost use Rattle.dsr_envelope.specs.declared.pick.Pick.TheVariants.{Begin};
ghost use Rattle.dsr_replica.specs.Conduct.{envelope_to};
ghost use Rattle.dsr_replica.specs.Replica.{StandsFor};
ghost use Rattle.dsr_client.specs.Client.{StandsFor as StandsForClient};
ghost use Rattle.dsr_client.specs.State.{accepted, outstanding, seen};
ghost use Rattle.std.specs.Option.{option_map};
ghost use Rattle.dsr_node.specs.Conduct.{post_of, takes_from, is_undue};
ghost use Rattle.dsr_node.specs.Node.{Plays, PlaysReplica, IsHonest, IsClient, post_refusal, CanPost, MayTake, CanTake, HasRoomToTake, TakesReply, IsReplicaNumber, IsOutstandingAsk};

use crate::customer::Customer;
use dsr_client::Client;
use dsr_envelope::{Due, Envelope, Pick};
use dsr_ledger::Reply;
use dsr_names::{Actor, Refusal, ReplicaId};
use dsr_replica::Replica;
use dsr_request::Op;
use std::alloc::Global;

/// One actor with its own log. A loyal actor is a real replica or client; a traitor posts what it likes as long as it forges nothing,
/// so no code plays it.
#[derive(Drop)]
pub enum Node {
    /// A loyal replica.
    Loyal(Replica),
    /// A traitor.
    Traitor,
    /// A client.
    Client(Customer),
}

impl Node {
    /// Returns the refusal of a post to this actor by this choice, or `None` if it may be made: `NotDue` if the protocol has no such
    /// post now, else `Exhausted` if a counter would pass its limit. Allocates nothing. Requires that the node is not a traitor.
    #[inline(always)]
    pub fn refusal(&self, to: Actor, pick: Pick) -> Option<Refusal>
        requires { IsHonest self.now }
        ensures same { (shape : Shape) (me : Actor) (log : List Entry) → Plays shape me log self.now
            → result ≡ post_refusal shape log me to pick }
    {
        match self {
            Node::Loyal(replica) => replica_refusal(replica, to, pick),
            Node::Traitor => unreachable!(),
            Node::Client(customer) => client_refusal(customer.client(), to, pick),
        }
    }

    /// Makes the envelope that it posts to this actor by this choice. `NoMemory` if memory runs out. Requires that nothing refuses the post.
    #[inline(always)]
    pub fn envelope_for(&self, alloc: Global, to: Actor, pick: Pick) -> Result<Envelope, Refusal>
        requires { CanPost self.now to pick }
        ensures given { (shape : Shape) (me : Actor) (log : List Entry) → Plays shape me log self.now
            → post_refusal shape log me to pick ≡ None → IfOk result (λ envelope. post_of shape log me to pick ≡ Some envelope) }
        ensures refusal { IsOkUnless result Refusal.NoMemory }
    {
        match self {
            Node::Loyal(replica) => replica_envelope(alloc, replica, to, pick),
            Node::Traitor => unreachable!(),
            Node::Client(customer) => client_envelope(alloc, customer.client(), to, pick),
        }
    }

    /// Posts to this actor by this choice. Requires that nothing refuses the post.
    #[inline(always)]
    pub fn posted(&mut self, to: Actor, pick: Pick)
        requires { CanPost self.old to pick }
        ensures plays { (shape : Shape) (me : Actor) (log : List Entry) (envelope : Envelope) → Plays shape me log self.old
            → post_refusal shape log me to pick ≡ None → post_of shape log me to pick ≡ Some envelope → Plays shape me (Post to envelope ∷ log) self.new }
    {
        match self {
            Node::Loyal(replica) => {
                if let Actor::Replica(number) = to {
                    replica.posted(number, pick);
                }
            }
            Node::Traitor => unreachable!(),
            Node::Client(customer) => {
                if let Pick::Begin(op) = pick {
                    customer.begin(op);
                }
            }
        }
    }

    /// Makes room for what it may take. `NoMemory` if that is refused: then nothing changes, except that there may be more room. If
    /// there is room already, it cannot fail.
    #[inline(always)]
    pub fn room(&mut self) -> Result<(), Refusal>
        ensures plays { (shape : Shape) (me : Actor) (log : List Entry) → Plays shape me log self.old → Plays shape me log self.new }
        ensures room { OnOk result (HasRoomToTake self.new) }
        ensures has { HasRoomToTake self.old → IsOk result }
        ensures may { (from : Actor) (envelope : Envelope) → MayTake self.old from envelope → MayTake self.new from envelope }
        ensures refusal { IsOkUnless result Refusal.NoMemory }
    {
        match self {
            Node::Loyal(replica) => replica.room(),
            Node::Traitor => Ok(()),
            Node::Client(customer) => customer.room(),
        }
    }

    /// Tells whether this is a loyal replica, the other actor is a replica, and a take from it is not due.
    pub fn is_undue(&self, from: Actor) -> bool
        ensures { (shape : Shape) (me : Actor) (log : List Entry) → Plays shape me log self.now → result ≡ is_undue shape log me from }
    {
        match (self, from) {
            (Node::Loyal(replica), Actor::Replica(number)) => !takes_from(replica.due(), number),
            _ => false,
        }
    }

    /// Takes the envelope, which is lent, from this actor, and returns the reply that a client accepts with it, if any. It makes room for
    /// it, and copies the envelope only if something in it may be stored; the copy shares its chains or its request. Requires that the node
    /// may take it. `NoMemory` if memory runs out or one more handle is refused: then nothing changes, except that there may be more room.
    pub fn take(
        &mut self,
        alloc: Global,
        from: &Actor,
        envelope: &Envelope,
    ) -> Result<Option<Reply>, Refusal>
        requires { MayTake self.old from.now envelope.now }
        ensures plays { (shape : Shape) (me : Actor) (log : List Entry) → Plays shape me log self.old
            → OnOk result (Plays shape me (Take from.now envelope.now ∷ log) self.new) }
        ensures accepted { (shape : Shape) (me : Actor) (log : List Entry) → Plays shape me log self.old
            → IfOk result (TakesReply shape me log from.now envelope.now) }
        ensures stays { (shape : Shape) (me : Actor) (log : List Entry) → Plays shape me log self.old
            → OnErr result (Plays shape me log self.new) }
        ensures refusal { IsOkUnless result Refusal.NoMemory }
    {
        self.room()?;
        if self.passed_over(*from, envelope) {
            return Ok(None);
        }
        let copy = envelope.try_copy(alloc)?;
        Ok(self.taken(*from, copy))
    }

    /// Takes the envelope from this actor if nothing in it would be stored, and returns whether it did; if something may be, nothing
    /// changes. Requires that the node can take it.
    fn passed_over(&mut self, from: Actor, envelope: &Envelope) -> bool
        requires { CanTake self.old from envelope.now }
        ensures plays { IsTrue result → (shape : Shape) (me : Actor) (log : List Entry) → Plays shape me log self.old
            → Plays shape me (Take from envelope.now ∷ log) self.new }
        ensures none { IsTrue result → (shape : Shape) (me : Actor) (log : List Entry) → Plays shape me log self.old
            → TakesReply shape me log from envelope.now None }
        ensures same { result ≡ false → self.new ≡ self.old }
    {
        match self {
            Node::Loyal(replica) => match from {
                Actor::Replica(number) => replica.passed_over(number, envelope),
                Actor::Client(_) => false,
            },
            Node::Traitor => true,
            Node::Client(_) => false,
        }
    }

    /// Takes the envelope from this actor, and returns the reply that a client accepts with it, if any. It is for callers that own
    /// the envelope and have made room (`room`); `take` is for those to whom it is lent. Requires that the node can take it.
    #[inline(always)]
    pub fn taken(&mut self, from: Actor, envelope: Envelope) -> Option<Reply>
        requires { CanTake self.old from envelope }
        ensures plays { (shape : Shape) (me : Actor) (log : List Entry) → Plays shape me log self.old
            → Plays shape me (Take from envelope ∷ log) self.new }
        ensures accepted { (shape : Shape) (me : Actor) (log : List Entry) → Plays shape me log self.old
            → TakesReply shape me log from envelope result }
    {
        match self {
            Node::Loyal(replica) => {
                match from {
                    Actor::Replica(number) => replica.taken(number, envelope),
                    Actor::Client(client) => replica.ask_taken(client, envelope),
                }
                None
            }
            Node::Traitor => None,
            Node::Client(customer) => customer.taken(from, envelope),
        }
    }

    /// Returns the loyal replica, if the node is one.
    pub fn replica(&self) -> Option<&Replica>
        ensures loyal { (shape : Shape) (p : ℕ) (log : List Entry) → Plays shape (ReplicaNumber p) log self.now
            → IfSome result (λ replica. PlaysReplica shape p log replica.now) }
        ensures traitor { (shape : Shape) (p : ℕ) (log : List Entry) → Plays shape (ReplicaNumber p) log self.now
            → IfNone result (is_traitor shape p ≡ true) }
    {
        match self {
            Node::Loyal(replica) => Some(replica),
            Node::Traitor | Node::Client(_) => None,
        }
    }

    /// Returns the client. Requires that the node is one.
    pub fn client(&self) -> &Client
        requires { IsClient self.now }
        ensures { (shape : Shape) (c : ℕ) (log : List Entry) → Plays shape (ClientNumber c) log self.now
            → (result.now.me ≡ c) × (result.now.shape ≡ shape) × StandsForClient result.now log }
    {
        match self {
            Node::Client(customer) => customer.client(),
            Node::Loyal(_) | Node::Traitor => unreachable!(),
        }
    }

    /// Returns a client's seen front. Requires that the node is a client.
    pub fn seen(&self) -> u64
        requires { IsClient self.now }
        ensures { (shape : Shape) (c : ℕ) (log : List Entry) → Plays shape (ClientNumber c) log self.now → result ≡ seen shape log }
    {
        match self {
            Node::Client(customer) => customer.client().seen(),
            Node::Loyal(_) | Node::Traitor => unreachable!(),
        }
    }

    /// Returns the number of a client's outstanding request, or `None` if nothing is outstanding. Requires that the node is a client.
    pub fn outstanding(&self) -> Option<u64>
        requires { IsClient self.now }
        ensures { (shape : Shape) (c : ℕ) (log : List Entry) → Plays shape (ClientNumber c) log self.now
            → result ≡ option_map (λ ask. ask.request.number) (outstanding shape log) }
    {
        match self {
            Node::Client(customer) => customer.client().outstanding(),
            Node::Loyal(_) | Node::Traitor => unreachable!(),
        }
    }

    /// Tells whether the envelope is an ask with the number of a client's outstanding request. Requires that the node is a client.
    pub fn has_outstanding(&self, envelope: &Envelope) -> bool
        requires { IsClient self.now }
        ensures { (shape : Shape) (c : ℕ) (log : List Entry) → Plays shape (ClientNumber c) log self.now
            → IsTrue result ↔ IsOutstandingAsk shape log envelope.now }
    {
        match (self, envelope) {
            (Node::Client(customer), Envelope::Ask(ask)) => {
                customer.client().outstanding() == Some(ask.signed().request.number())
            }
            _ => false,
        }
    }

    /// Returns the replies that a client accepted, in the order of acceptance. Requires that the node is a client.
    pub fn accepted(&self) -> &[Reply]
        requires { IsClient self.now }
        ensures { (shape : Shape) (c : ℕ) (log : List Entry) → Plays shape (ClientNumber c) log self.now
            → result.now ≡ reverse (accepted shape log) }
    {
        match self {
            Node::Client(customer) => customer.accepted(),
            Node::Loyal(_) | Node::Traitor => unreachable!(),
        }
    }
}

/// Returns the refusal of a loyal replica's post to this actor by this choice, or `None` if it may be made.
fn replica_refusal(replica: &Replica, to: Actor, pick: Pick) -> Option<Refusal>
    ensures same { (p : ℕ) (log : List Entry) → replica.now.me ≡ ReplicaNumber p → StandsFor replica.now log
        → result ≡ post_refusal replica.now.shape log (ReplicaNumber p) to pick }
{
    match to {
        Actor::Replica(number) => round_refusal(replica, number, pick),
        Actor::Client(client) => match pick {
            Pick::Plain => match replica.reply_for(client) {
                Some(_) => None,
                None => Some(Refusal::NotDue),
            },
            Pick::From(_) | Pick::Begin(_) => Some(Refusal::NotDue),
        },
    }
}

/// Returns the refusal of a loyal replica's post to this replica by this choice, or `None` if it may be made.
fn round_refusal(replica: &Replica, to: ReplicaId, pick: Pick) -> Option<Refusal>
    ensures same { (p : ℕ) (log : List Entry) → replica.now.me ≡ ReplicaNumber p → StandsFor replica.now log
        → result ≡ post_refusal replica.now.shape log (ReplicaNumber p) (ReplicaNumber to) pick }
{
    // For the proof: the replica's shape and round are those of its log.
    let _due = replica.due();
    replica.refusal(to, pick)
}

/// Returns the refusal of a client's post to this actor by this choice, or `None` if it may be made.
fn client_refusal(client: &Client, to: Actor, pick: Pick) -> Option<Refusal>
    ensures same { (log : List Entry) → StandsForClient client.now log
        → result ≡ post_refusal client.now.shape log (ClientNumber client.now.me) to pick }
{
    if let Actor::Client(_) = to {
        return Some(Refusal::NotDue);
    }
    match pick {
        Pick::Plain => match client.outstanding() {
            Some(_) => None,
            None => Some(Refusal::NotDue),
        },
        Pick::From(_) => Some(Refusal::NotDue),
        Pick::Begin(op) => begin_refusal(client, to, op),
    }
}

/// Returns the refusal of a client's post that begins a request with this operation, or `None` if it may be made.
fn begin_refusal(client: &Client, to: Actor, op: Op) -> Option<Refusal>
    requires { IsReplicaNumber to }
    ensures same { (log : List Entry) → StandsForClient client.now log
        → result ≡ post_refusal client.now.shape log (ClientNumber client.now.me) to (Begin op) }
{
    if client.outstanding().is_some() {
        return Some(Refusal::NotDue);
    }
    match client.first_ask(op) {
        Some(_) => None,
        None => Some(Refusal::Exhausted),
    }
}

/// Makes the envelope that a loyal replica posts to this actor by this choice.
fn replica_envelope(
    alloc: Global,
    replica: &Replica,
    to: Actor,
    pick: Pick,
) -> Result<Envelope, Refusal>
    ensures given { (p : ℕ) (log : List Entry) → replica.now.me ≡ ReplicaNumber p → StandsFor replica.now log
        → IfOk result (λ envelope. post_of replica.now.shape log (ReplicaNumber p) to pick ≡ Some envelope) }
    ensures refusal { (p : ℕ) (log : List Entry) → replica.now.me ≡ ReplicaNumber p → StandsFor replica.now log
        → post_refusal replica.now.shape log (ReplicaNumber p) to pick ≡ None → IsOkUnless result Refusal.NoMemory }
{
    match to {
        Actor::Replica(number) => replica.envelope_for(alloc, number, pick),
        Actor::Client(client) => match pick {
            Pick::Plain => replica.reply_for(client).ok_or(Refusal::NotDue),
            Pick::From(_) | Pick::Begin(_) => Err(Refusal::NotDue),
        },
    }
}

/// Makes the envelope that a client posts to this actor by this choice.
fn client_envelope(
    alloc: Global,
    client: &Client,
    to: Actor,
    pick: Pick,
) -> Result<Envelope, Refusal>
    ensures given { (log : List Entry) → StandsForClient client.now log
        → post_refusal client.now.shape log (ClientNumber client.now.me) to pick ≡ None
        → IfOk result (λ envelope. post_of client.now.shape log (ClientNumber client.now.me) to pick ≡ Some envelope) }
    ensures refusal { (log : List Entry) → StandsForClient client.now log
        → post_refusal client.now.shape log (ClientNumber client.now.me) to pick ≡ None → IsOkUnless result Refusal.NoMemory }
{
    let ask = match pick {
        Pick::Plain => client.ask_for(ReplicaId::FIRST),
        Pick::From(_) => None,
        Pick::Begin(op) => client.first_ask(op),
    };
    match ask {
        Some(ask) => Envelope::ask(alloc, ask),
        None => Err(Refusal::NotDue),
    }
}

/// Tells whether the take from this replica is due.
fn takes_from(due: Due, replica: ReplicaId) -> bool
    ensures { result ≡ takes_from due replica }
{
    match due {
        Due::Post(_) => false,
        Due::Take(next) => next == replica,
    }
}
