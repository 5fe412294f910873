ghost use Rattle.std.specs.Prelude.{◌≡◌, ◌≢◌, ℕ, suc, ◌<◌, ◌≤◌, ◌∷◌, [], ◌++◌, List, None, Some, IfSome, IfNone, IsOk, OnOk, IsOkUnless};
ghost use Rattle.dsr_names.specs.Shape.{IsActor};
ghost use Rattle.dsr_names.specs.declared.actor.Actor.TheVariants.{Replica, Client as ClientNumber};
ghost use Rattle.dsr_envelope.specs.Limits.{IsEnvelope};
ghost use Rattle.dsr_envelope.specs.declared.envelope.Envelope.TheVariants.{Ask};
ghost use Rattle.dsr_envelope.specs.declared.entry.Entry.{Entry};
ghost use Rattle.dsr_envelope.specs.declared.entry.Entry.TheVariants.{Post, Take};
ghost use Rattle.dsr_client.specs.Client.{StandsFor, MayBegin};
ghost use Rattle.dsr_client.specs.Conduct.{ask_of};
ghost use Rattle.dsr_client.specs.State.{accepted};

use dsr_client::Client;
use dsr_envelope::Envelope;
use dsr_ledger::Reply;
use dsr_names::{Actor, Refusal};
use dsr_request::Op;
use std::alloc::Global;
use std::marker::Model;

/// A client, and the replies that it accepted, in the order of acceptance.
#[derive(Drop)]
pub struct Customer {
    client: Client,
    accepted: Vec<Reply>,
}

impl Model for Customer {
    ghost use Rattle.std.specs.Prelude.{◌-◌, vec_len, vec_capacity};
    ghost use Rattle.dsr_node.specs.Customer.{Customer};

    ghost Value = { Customer };

    ghost view = { λ c. record { client = c.client; accepted = c.accepted.items; room = vec_capacity c.accepted - vec_len c.accepted } };
}

impl Customer {
    /// Starts with a client that has accepted no reply.
    pub fn new(alloc: Global, client: Client) -> Customer
        ensures same { result.client ≡ client }
        ensures none { result.accepted ≡ [] }
    {
        Customer {
            client,
            accepted: Vec::new(alloc),
        }
    }

    /// Returns the client.
    pub fn client(&self) -> &Client
        ensures { result.now ≡ self.now.client }
    {
        &self.client
    }

    /// Returns the replies that it accepted, in the order of acceptance.
    pub fn accepted(&self) -> &[Reply]
        ensures { result.now ≡ self.now.accepted }
    {
        self.accepted.as_slice()
    }

    /// Begins a request with this operation. Requires that the client may begin one.
    pub fn begin(&mut self, op: Op)
        requires { MayBegin self.old.client }
        ensures me { self.new.client.me ≡ self.old.client.me }
        ensures shape { self.new.client.shape ≡ self.old.client.shape }
        ensures begun { (log : List Entry) (q : ℕ) → StandsFor self.old.client log
            → StandsFor self.new.client (Post (Replica q) (Ask (ask_of self.old.client.me (suc self.old.client.accepted) op)) ∷ log) }
        ensures rest { self.new ≡ record self.old { client = self.new.client } }
    {
        let Ok(_number) = self.client.begin(op) else {
            unreachable!()
        };
    }

    /// Makes room for one more accepted reply. `NoMemory` if that is refused: then nothing changes but the room. If there is room
    /// already, it cannot fail.
    pub fn room(&mut self) -> Result<(), Refusal>
        ensures same { self.new ≡ record self.old { room = self.new.room } }
        ensures room { OnOk result (0 < self.new.room) }
        ensures has { 0 < self.old.room → IsOk result }
        ensures refusal { IsOkUnless result Refusal.NoMemory }
    {
        if self.accepted.len() < self.accepted.capacity() {
            return Ok(());
        }
        match self.accepted.reserve(1) {
            Ok(()) => Ok(()),
            Err(_) => Err(Refusal::NoMemory),
        }
    }

    /// Takes the envelope, and returns the reply that the client accepts with it, if any. Requires that the envelope comes from
    /// another actor of the shape and is within the limits, and that there is room for one more reply.
    pub fn taken(&mut self, from: Actor, envelope: Envelope) -> Option<Reply>
        requires actor { IsActor self.old.client.shape from }
        requires other { from ≢ ClientNumber self.old.client.me }
        requires fits { IsEnvelope envelope }
        requires room { 0 < self.old.room }
        ensures me { self.new.client.me ≡ self.old.client.me }
        ensures shape { self.new.client.shape ≡ self.old.client.shape }
        ensures stands { (log : List Entry) → StandsFor self.old.client log → StandsFor self.new.client (Take from envelope ∷ log) }
        ensures accepted { (log : List Entry) → StandsFor self.old.client log → IfSome result (λ reply.
            accepted self.old.client.shape (Take from envelope ∷ log) ≡ reply ∷ accepted self.old.client.shape log) }
        ensures none { (log : List Entry) → StandsFor self.old.client log → IfNone result
            (accepted self.old.client.shape (Take from envelope ∷ log) ≡ accepted self.old.client.shape log) }
        ensures noted { IfSome result (λ reply. self.new.accepted ≡ self.old.accepted ++ reply ∷ []) }
        ensures rest { IfNone result (self.new.accepted ≡ self.old.accepted) }
    {
        let reply = self.client.taken(from, envelope)?;
        self.accepted.push_reserved(reply);
        Some(reply)
    }
}
