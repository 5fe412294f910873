ghost use Rattle.std.specs.Bool.{OnFalse, OnTrue};
ghost use Rattle.std.specs.Prelude.{None, ◌≡◌, ◌≢◌, ◌↔◌, ◌∷◌, ◌<◌, ℕ, [], List, OnOk, IsTrue, IsOkUnless};
ghost use Rattle.dsr_names.specs.Shape.{Shape, IsActor};
ghost use Rattle.dsr_names.specs.declared.actor.Actor.TheVariants.{Client as ClientNumber, Replica as ReplicaNumber};
ghost use Rattle.dsr_envelope.specs.Limits.{IsEnvelope};
ghost use Rattle.dsr_envelope.specs.declared.envelope.Envelope.TheVariants.{Ask, Seen};
ghost use Rattle.dsr_envelope.specs.declared.entry.Entry.{Entry};
ghost use Rattle.dsr_envelope.specs.declared.entry.Entry.TheVariants.{Post, Take};
ghost use Rattle.dsr_client.specs.Client.{StandsFor};
ghost use Rattle.dsr_client.specs.Conduct.{IsNext};
ghost use Rattle.dsr_client.specs.State.{outstanding, seen};
ghost use Rattle.dsr_check.specs.Support.Party.{PlaysClient};

use dsr_chain::SignedRequest;
use dsr_client::Client;
use dsr_envelope::Envelope;
use dsr_ledger::Reply;
use dsr_names::{Actor, Refusal, ReplicaId};
use std::alloc::Global;

/// A client, and the replies that it accepted, in the order of acceptance.
#[derive(Drop)]
pub(crate) struct Customer {
    /// The client.
    pub(crate) client: Client,
    /// The replies that it accepted.
    pub(crate) accepted: Vec<Reply>,
}

impl Customer {
    /// Starts with a client that has accepted no reply.
    pub(crate) fn new(alloc: Global, client: Client) -> Customer
        ensures same { result.client ≡ client }
        ensures none { result.accepted.items ≡ [] }
    {
        Customer {
            client,
            accepted: Vec::new(alloc),
        }
    }

    /// Tells whether the client, which is `me`, may post this envelope to this actor next. If so, it has posted it.
    pub(crate) fn post(&mut self, me: &Actor, to: &Actor, envelope: &Envelope) -> bool
        ensures posts { (shape : Shape) (c : ℕ) (log : List Entry) → me.now ≡ ClientNumber c → PlaysClient shape c log self.old
            → IsActor shape to.now
            → OnTrue result (IsNext shape c log (Post to.now envelope.now) × PlaysClient shape c (Post to.now envelope.now ∷ log) self.new) }
        ensures not { (shape : Shape) (c : ℕ) (log : List Entry) → me.now ≡ ClientNumber c → PlaysClient shape c log self.old
            → IsEnvelope envelope.now → OnFalse result (¬ IsNext shape c log (Post to.now envelope.now)) }
    {
        match to {
            Actor::Replica(replica) => asks(&mut self.client, *replica, envelope),
            Actor::Client(_) => *to != *me && tells(&self.client, envelope),
        }
    }

    /// Takes the envelope, and notes the reply that the client accepts with it, if any. Requires that the envelope comes from another actor
    /// of the shape, and is within the limits. `NoMemory` if memory runs out.
    pub(crate) fn take(&mut self, from: &Actor, envelope: Envelope) -> Result<(), Refusal>
        requires actor { IsActor self.old.client.shape from.now }
        requires other { from.now ≢ ClientNumber self.old.client.me }
        requires fits { IsEnvelope envelope }
        ensures plays { (shape : Shape) (c : ℕ) (log : List Entry) → PlaysClient shape c log self.old
            → OnOk result (PlaysClient shape c (Take from.now envelope ∷ log) self.new) }
        ensures refusal { IsOkUnless result Refusal.NoMemory }
    {
        if let Some(reply) = self.client.taken(*from, envelope) {
            self.accepted.push(reply)?;
        }
        Ok(())
    }
}

/// Tells whether the client may post this envelope to this replica next: its outstanding request, or a new one if nothing
/// is outstanding. If so, it has posted it.
fn asks(client: &mut Client, to: ReplicaId, envelope: &Envelope) -> bool
    ensures me { client.new.me ≡ client.old.me }
    ensures shape { client.new.shape ≡ client.old.shape }
    ensures asks { (log : List Entry) → StandsFor client.old log → to < client.old.shape.n
        → OnTrue result (IsNext client.old.shape client.old.me log (Post (ReplicaNumber to) envelope.now)
        × StandsFor client.new (Post (ReplicaNumber to) envelope.now ∷ log)) }
    ensures not { (log : List Entry) → StandsFor client.old log → IsEnvelope envelope.now
        → OnFalse result (¬ IsNext client.old.shape client.old.me log (Post (ReplicaNumber to) envelope.now)) }
{
    let Envelope::Ask(ask) = envelope else {
        return false;
    };
    match client.ask_for(to) {
        Some(current) => current.same(ask.signed()),
        None => begins(client, to, ask.signed()),
    }
}

/// Tells whether the client, with no request outstanding, begins one by posting this ask to this replica. If so, it has begun it.
fn begins(client: &mut Client, to: ReplicaId, ask: &SignedRequest) -> bool
    ensures me { client.new.me ≡ client.old.me }
    ensures shape { client.new.shape ≡ client.old.shape }
    ensures begins { (log : List Entry) → StandsFor client.old log → to < client.old.shape.n
        → OnTrue result (IsNext client.old.shape client.old.me log (Post (ReplicaNumber to) (Ask ask.now))
        × StandsFor client.new (Post (ReplicaNumber to) (Ask ask.now) ∷ log)) }
    ensures not { (log : List Entry) → StandsFor client.old log → outstanding client.old.shape log ≡ None
        → IsEnvelope (Ask ask.now)
        → OnFalse result (¬ IsNext client.old.shape client.old.me log (Post (ReplicaNumber to) (Ask ask.now))) }
{
    let Some(first) = client.first_ask(ask.request.op()) else {
        return false;
    };
    if !first.same(ask) {
        return false;
    }
    let Ok(_number) = client.begin(ask.request.op()) else {
        unreachable!()
    };
    true
}

/// Tells whether the envelope is the client's seen front.
fn tells(client: &Client, envelope: &Envelope) -> bool
    ensures tells { (log : List Entry) → StandsFor client.now log → IsTrue result ↔ (envelope.now ≡ Seen (seen client.now.shape log)) }
{
    match envelope {
        Envelope::Seen(front) => *front == client.seen(),
        _ => false,
    }
}
