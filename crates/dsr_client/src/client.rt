ghost use Rattle.std.specs.Prelude.{◌≡◌, ◌≢◌, ◌⊎◌, ◌↔◌, ℕ, suc, ◌+◌, ◌^◌, ◌<◌, ◌≤◌, ◌∷◌, [], List, None, Some, IsSome, IsNone, IfOk, IfErr, IfSome, OnOk, OnErr, IsErrOf, IfNone, IsTrue};
ghost use Rattle.std.specs.Option.{option_map};
ghost use Rattle.dsr_names.specs.Shape.{IsActor};
ghost use Rattle.dsr_names.specs.declared.actor.Actor.{Actor};
ghost use Rattle.dsr_names.specs.declared.actor.Actor.TheVariants.{Replica, Client as AClient};
ghost use Rattle.dsr_chain.specs.declared.signed_request.SignedRequest.{SignedRequest};
ghost use Rattle.dsr_envelope.specs.Limits.{IsEnvelope};
ghost use Rattle.dsr_envelope.specs.declared.envelope.Envelope.TheVariants.{Ask, Reply as AReply, Seen};
ghost use Rattle.dsr_envelope.specs.declared.entry.Entry.{Entry};
ghost use Rattle.dsr_envelope.specs.declared.entry.Entry.TheVariants.{Post, Take};
ghost use Rattle.dsr_envelope.specs.declared.pick.Pick.TheVariants.{Begin};
ghost use Rattle.dsr_client.specs.Client.{StandsFor, MayBegin, IsClientOf};
ghost use Rattle.dsr_client.specs.Conduct.{ask_of, ask_to};
ghost use Rattle.dsr_client.specs.State.{state_after, outstanding, accepted, seen};
ghost use Rattle.dsr_quorum.specs.Tally.{StandsFor as Counts};

use dsr_chain::SignedRequest;
use dsr_desk::Key;
use dsr_envelope::Envelope;
use dsr_ledger::Reply;
use dsr_names::{Actor, ClientId, NUMBER_END, Refusal, ReplicaId, Shape};
use dsr_quorum::Tally;
use dsr_request::{Op, Request};
use std::marker::Model;

/// A client of a shape. It has at most one request outstanding, and believes a reply that more than f replicas give as
/// their first. It is of fixed size.
#[derive(Drop)]
pub struct Client {
    key: Key,
    me: ClientId,
    shape: Shape,
    outstanding: Option<SignedRequest>,
    accepted: u64,
    tally: Tally,
    seen: u64,
}

impl Model for Client {
    ghost use Rattle.dsr_client.specs.Client.{Client};
    ghost use Rattle.dsr_client.specs.Support.Client.{client_of, IsClientFields};

    ghost Value = { Client };

    ghost view = { client_of };

    ghost invariant = { IsClientFields };
}

impl Client {
    /// Creates a client that holds this key, before its first request. Requires that the key is that of a client of the
    /// shape.
    pub fn new(key: Key, shape: &Shape) -> Client
        requires { IsClientOf shape.now key }
        ensures me { key ≡ AClient result.me }
        ensures shape { result.shape ≡ shape.now }
        ensures stands { StandsFor result [] }
    {
        let me = client_of(key.signer(), shape);
        Client {
            key,
            me,
            shape: *shape,
            outstanding: None,
            accepted: 0,
            tally: Tally::new(shape.f(), shape.n()),
            seen: 0,
        }
    }

    /// Returns the number of the outstanding request, or `None` if nothing is outstanding.
    pub fn outstanding(&self) -> Option<u64>
        ensures same { result ≡ option_map (λ ask. ask.request.number) self.now.outstanding }
        ensures stands { (log : List Entry) → StandsFor self.now log
            → result ≡ option_map (λ ask. ask.request.number) (outstanding self.now.shape log) }
    {
        let ask = self.outstanding.as_ref()?;
        Some(ask.request.number())
    }

    /// Returns the votes for replies to the outstanding request.
    pub fn tally(&self) -> &Tally
        ensures same { result.now ≡ self.now.tally }
        ensures f { result.now.f ≡ self.now.shape.f }
        ensures n { result.now.n ≡ self.now.shape.n }
        ensures stands { (log : List Entry) → StandsFor self.now log → Counts result.now (state_after self.now.shape log).notes }
    {
        &self.tally
    }

    /// Returns the signed request that `begin` would make with this operation, or `None` if `begin` would refuse.
    pub fn first_ask(&self, op: Op) -> Option<SignedRequest>
        ensures ask { IfSome result (λ ask. ask ≡ ask_of self.now.me (suc self.now.accepted) op) }
        ensures when { IsSome result ↔ MayBegin self.now }
        ensures stands { (log : List Entry) → StandsFor self.now log
            → IfSome result (λ ask. ask_to self.now.shape self.now.me log (Begin op) ≡ Some (Ask ask)) }
    {
        self.next_ask(op)
    }

    /// Makes a request with this operation the outstanding one, and returns its number: one more than the count of accepted
    /// replies. This represents the first post of the request, to any replica. `Busy` if a request is outstanding, else
    /// `Exhausted` if the number would be 2^40: then nothing changes.
    pub fn begin(&mut self, op: Op) -> Result<u64, Refusal>
        ensures busy { IsErrOf result Refusal.Busy ↔ IsSome self.old.outstanding }
        ensures exhausted { IsErrOf result Refusal.Exhausted ↔ ((self.old.outstanding ≡ None) × (2 ^ 40 ≤ suc self.old.accepted)) }
        ensures refusals { IfErr result (λ e. (e ≡ Refusal.Busy) ⊎ (e ≡ Refusal.Exhausted)) }
        ensures unchanged { OnErr result (self.new ≡ self.old) }
        ensures number { IfOk result (λ number. number ≡ suc self.old.accepted) }
        ensures me { self.new.me ≡ self.old.me }
        ensures shape { self.new.shape ≡ self.old.shape }
        ensures stands { OnOk result ((log : List Entry) (q : ℕ) → StandsFor self.old log
            → StandsFor self.new (Post (Replica q) (Ask (ask_of self.old.me (suc self.old.accepted) op)) ∷ log)) }
        ensures given { OnOk result ((log : List Entry) → StandsFor self.old log
            → ask_to self.old.shape self.old.me log (Begin op) ≡ Some (Ask (ask_of self.old.me (suc self.old.accepted) op))) }
    {
        if self.outstanding.is_some() {
            return Err(Refusal::Busy);
        }
        let Some(ask) = self.next_ask(op) else {
            return Err(Refusal::Exhausted);
        };
        self.outstanding = Some(ask);
        self.tally.clear();
        Ok(ask.request.number())
    }

    /// Returns the outstanding request, signed, or `None` if nothing is outstanding. It may be posted to any replica at any time;
    /// that changes nothing in the client.
    pub fn ask_for(&self, _replica: ReplicaId) -> Option<SignedRequest>
        ensures same { result ≡ self.now.outstanding }
        ensures stands { (log : List Entry) → StandsFor self.now log
            → result ≡ outstanding self.now.shape log }
        ensures posted { (log : List Entry) (q : ℕ) (ask : SignedRequest) → StandsFor self.now log
            → result ≡ Some ask → StandsFor self.now (Post (Replica q) (Ask ask) ∷ log) }
    {
        let ask = self.outstanding.as_ref()?;
        Some(*ask)
    }

    /// Takes the envelope, and returns the reply that it accepts with it, if any. Requires that it comes from another
    /// actor of the shape, and is within the limits. From a replica a reply with the outstanding number counts, and from a
    /// client a seen front; all else is dropped.
    pub fn taken(&mut self, from: Actor, envelope: Envelope) -> Option<Reply>
        requires actor { IsActor self.old.shape from }
        requires other { from ≢ AClient self.old.me }
        requires fits { IsEnvelope envelope }
        ensures me { self.new.me ≡ self.old.me }
        ensures shape { self.new.shape ≡ self.old.shape }
        ensures stands { (log : List Entry) → StandsFor self.old log → StandsFor self.new (Take from envelope ∷ log) }
        ensures accepted { (log : List Entry) → StandsFor self.old log → IfSome result (λ reply.
            accepted self.old.shape (Take from envelope ∷ log) ≡ reply ∷ accepted self.old.shape log) }
        ensures none { (log : List Entry) → StandsFor self.old log → IfNone result
            (accepted self.old.shape (Take from envelope ∷ log) ≡ accepted self.old.shape log) }
    {
        match from {
            Actor::Replica(replica) => self.taken_from_replica(replica, &envelope),
            Actor::Client(_) => {
                self.taken_from_client(&envelope);
                None
            }
        }
    }

    /// Returns the seen front: how many first places of the history the client knows of, at most 2^40. It may be posted to another
    /// client at any time; that changes nothing in this one.
    pub fn seen(&self) -> u64
        ensures same { result ≡ self.now.seen }
        ensures most { result ≤ 2 ^ 40 }
        ensures stands { (log : List Entry) → StandsFor self.now log → result ≡ seen self.now.shape log }
        ensures posted { (log : List Entry) (c : ℕ) → StandsFor self.now log
            → StandsFor self.now (Post (AClient c) (Seen result) ∷ log) }
    {
        self.seen
    }

    /// Notes the seen front that another client posted, like `taken` for a `Seen`. Requires that it is below 2^40.
    pub fn told(&mut self, front: u64)
        requires { front < 2 ^ 40 }
        ensures me { self.new.me ≡ self.old.me }
        ensures shape { self.new.shape ≡ self.old.shape }
        ensures stands { (log : List Entry) (c : ℕ) → StandsFor self.old log
            → StandsFor self.new (Take (AClient c) (Seen front) ∷ log) }
    {
        self.seen = self.seen.max(front);
    }

    /// Makes the next request, with this operation and the client's signature; `None` if one is outstanding, or the next
    /// number would be 2^40. It is apart from `first_ask`, because the proof of `stands` there builds on this contract.
    fn next_ask(&self, op: Op) -> Option<SignedRequest>
        ensures ask { IfSome result (λ ask. ask ≡ ask_of self.now.me (suc self.now.accepted) op) }
        ensures when { IsSome result ↔ MayBegin self.now }
    {
        if self.outstanding.is_some() {
            return None;
        }
        let request = Request::new(self.me, self.accepted + 1, op).ok()?;
        Some(SignedRequest::by(request, &self.key))
    }

    /// Takes the envelope from a replica: a reply may count.
    fn taken_from_replica(&mut self, replica: ReplicaId, envelope: &Envelope) -> Option<Reply>
        requires inside { replica < self.old.shape.n }
        requires fits { IsEnvelope envelope.now }
        ensures me { self.new.me ≡ self.old.me }
        ensures shape { self.new.shape ≡ self.old.shape }
        ensures stands { (log : List Entry) → StandsFor self.old log → StandsFor self.new (Take (Replica replica) envelope.now ∷ log) }
        ensures accepted { (log : List Entry) → StandsFor self.old log → IfSome result (λ reply.
            accepted self.old.shape (Take (Replica replica) envelope.now ∷ log) ≡ reply ∷ accepted self.old.shape log) }
        ensures none { (log : List Entry) → StandsFor self.old log → IfNone result
            (accepted self.old.shape (Take (Replica replica) envelope.now ∷ log) ≡ accepted self.old.shape log) }
    {
        match envelope {
            Envelope::Reply(reply) => self.replied(replica, *reply),
            _ => None,
        }
    }

    /// Takes the envelope from another client: a seen front counts.
    fn taken_from_client(&mut self, envelope: &Envelope)
        requires fits { IsEnvelope envelope.now }
        ensures me { self.new.me ≡ self.old.me }
        ensures shape { self.new.shape ≡ self.old.shape }
        ensures stands { (log : List Entry) (c : ℕ) → StandsFor self.old log
            → StandsFor self.new (Take (AClient c) envelope.now ∷ log) }
    {
        if let Envelope::Seen(front) = envelope {
            self.told(*front);
        }
    }

    /// Notes the reply if its number is outstanding, and returns it if that accepts it.
    fn replied(&mut self, replica: ReplicaId, reply: Reply) -> Option<Reply>
        requires inside { replica < self.old.shape.n }
        requires place { reply.place < 2 ^ 40 }
        ensures me { self.new.me ≡ self.old.me }
        ensures shape { self.new.shape ≡ self.old.shape }
        ensures stands { (log : List Entry) → StandsFor self.old log → StandsFor self.new (Take (Replica replica) (AReply reply) ∷ log) }
        ensures accepted { (log : List Entry) → StandsFor self.old log → IfSome result (λ w.
            accepted self.old.shape (Take (Replica replica) (AReply reply) ∷ log) ≡ w ∷ accepted self.old.shape log) }
        ensures none { (log : List Entry) → StandsFor self.old log → IfNone result
            (accepted self.old.shape (Take (Replica replica) (AReply reply) ∷ log) ≡ accepted self.old.shape log) }
    {
        if !self.is_outstanding(reply.number) {
            return None;
        }
        self.tally.note(replica, reply);
        self.tally.winner()?;
        self.outstanding = None;
        self.accepted += 1;
        self.tally.clear();
        self.seen = self.seen.max(reply.place + 1);
        Some(reply)
    }

    /// Returns whether the outstanding request has this number.
    fn is_outstanding(&self, number: u64) -> bool
        ensures same { IsTrue result ↔ (option_map (λ ask. ask.request.number) self.now.outstanding ≡ Some number) }
        ensures more { IsTrue result → suc self.now.accepted < 2 ^ 40 }
        ensures unanswered { IsTrue result → self.now.tally.winner ≡ None }
        ensures tally_f { self.now.tally.f ≡ self.now.shape.f }
        ensures tally_n { self.now.tally.n ≡ self.now.shape.n }
    {
        match &self.outstanding {
            Some(ask) => ask.request.number() == number,
            None => false,
        }
    }
}

/// Returns the client that this actor is. Requires that it is a client of the shape.
fn client_of(actor: Actor, shape: &Shape) -> ClientId
    requires { IsClientOf shape.now actor }
    ensures same { actor ≡ AClient result }
    ensures inside { result < shape.now.m }
{
    match actor {
        Actor::Client(client) => client,
        Actor::Replica(_) => ClientId::FIRST,
    }
}
