ghost use Rattle.std.specs.Prelude.{◌≡◌, ℕ, ◌<◌, ◌↔◌, Some, IsOk, IfOk, IsOkUnless};
ghost use Rattle.std.specs.Option.{SomeIff};
ghost use Rattle.dsr_names.specs.declared.actor.Actor.{Actor};
ghost use Rattle.dsr_names.specs.Actor.{actor_text, client_text, replica_text, IsNumbered};
ghost use Rattle.std.proofs.Common.{rules};
ghost use Rattle.dsr_base.specs.Reads.{Reads};

use crate::refusal::Refusal;
use crate::token::read_num;
use dsr_base::Exact;
use std::fmt;
use std::marker::Model;

/// A replica by its number, from 0 to 15.
#[derive(Clone, Copy, Debug, PartialEq, Eq)]
pub struct ReplicaId {
    number: u8,
}

impl Model for ReplicaId {
    ghost use Rattle.std.specs.Prelude.{ℕ, ◌<◌};

    ghost Value = { ℕ };

    ghost view = { λ r. r.number };

    ghost invariant = { λ r. r.number < 16 };

    ghost inverse = { λ n. record { number = n } };
}

impl ReplicaId {
    /// Replica 0.
    pub const FIRST: ReplicaId = ReplicaId { number: 0 };

    /// Returns the replica with this number. `NoActor` from 16 on.
    pub fn new(number: u8) -> Result<ReplicaId, Refusal>
        ensures ok { IfOk result (λ replica. replica ≡ number) }
        ensures when { IsOk result ↔ (number < 16) }
        ensures refusal { IsOkUnless result Refusal.NoActor }
    {
        if number < 16 {
            Ok(ReplicaId { number })
        } else {
            Err(Refusal::NoActor)
        }
    }

    /// Reads a replica's token, like `r0`. `None` exactly if the bytes are not one.
    pub fn read(bytes: &[u8]) -> Option<ReplicaId>
        ensures { Reads (λ (r : ℕ). r < 16) replica_text bytes.now result }
    {
        match Actor::read(bytes)? {
            Actor::Replica(replica) => Some(replica),
            Actor::Client(_) => None,
        }
    }

    /// Returns the replica with this number. Requires that it is below 16: `new` is for a number that may
    /// not be.
    pub fn of(number: u8) -> ReplicaId
        requires { number < 16 }
        ensures { result ≡ number }
    {
        ReplicaId { number }
    }

    /// Returns the replica's number, below 16.
    pub fn number(self) -> u8
        ensures same { result ≡ self }
        ensures small { result < 16 }
    {
        self.number
    }
}

impl fmt::Display for ReplicaId {
    ghost output = { λ replica. Some (replica_text replica) };

    fn fmt<W: fmt::Write>(&self, f: &mut fmt::Formatter<W>) -> fmt::Result {
        let number = self.number;
        write!(f, "r{number}")
    }
}

impl Exact for ReplicaId {
    ghost decides = { λ a b. Prim.search rules };

    ghost clones = { λ a b. Prim.search rules };
}

/// A client by its number, from 0 to 31.
#[derive(Clone, Copy, Debug, PartialEq, Eq)]
pub struct ClientId {
    number: u8,
}

impl Model for ClientId {
    ghost use Rattle.std.specs.Prelude.{ℕ, ◌<◌};

    ghost Value = { ℕ };

    ghost view = { λ c. c.number };

    ghost invariant = { λ c. c.number < 32 };

    ghost inverse = { λ n. record { number = n } };
}

impl ClientId {
    /// Client 0.
    pub const FIRST: ClientId = ClientId { number: 0 };

    /// Returns the client with this number. `NoActor` from 32 on.
    pub fn new(number: u8) -> Result<ClientId, Refusal>
        ensures ok { IfOk result (λ client. client ≡ number) }
        ensures when { IsOk result ↔ (number < 32) }
        ensures refusal { IsOkUnless result Refusal.NoActor }
    {
        if number < 32 {
            Ok(ClientId { number })
        } else {
            Err(Refusal::NoActor)
        }
    }

    /// Reads a client's token, like `c0`. `None` exactly if the bytes are not one.
    pub fn read(bytes: &[u8]) -> Option<ClientId>
        ensures { Reads (λ (c : ℕ). c < 32) client_text bytes.now result }
    {
        match Actor::read(bytes)? {
            Actor::Client(client) => Some(client),
            Actor::Replica(_) => None,
        }
    }

    /// Returns the client with this number. Requires that it is below 32: `new` is for a number that may
    /// not be.
    pub fn of(number: u8) -> ClientId
        requires { number < 32 }
        ensures { result ≡ number }
    {
        ClientId { number }
    }

    /// Returns the client's number, below 32.
    pub fn number(self) -> u8
        ensures same { result ≡ self }
        ensures small { result < 32 }
    {
        self.number
    }
}

impl fmt::Display for ClientId {
    ghost output = { λ client. Some (client_text client) };

    fn fmt<W: fmt::Write>(&self, f: &mut fmt::Formatter<W>) -> fmt::Result {
        let number = self.number;
        write!(f, "c{number}")
    }
}

impl Exact for ClientId {
    ghost decides = { λ a b. Prim.search rules };

    ghost clones = { λ a b. Prim.search rules };
}

/// The one who takes a step: a replica or a client.
#[derive(Clone, Copy, Debug, PartialEq, Eq)]
pub enum Actor {
    /// A replica, loyal or a traitor.
    Replica(ReplicaId),
    /// A client.
    Client(ClientId),
}

impl Actor {
    /// Reads an actor's token, like `r0` or `c31`. `None` exactly if the bytes are not one.
    pub fn read(bytes: &[u8]) -> Option<Actor>
        ensures { Reads IsNumbered actor_text bytes.now result }
    {
        if bytes.is_empty() {
            return None;
        }
        let number = read_num(&bytes[1..])?;
        match bytes[0] {
            b'r' => replica_of(number),
            b'c' => client_of(number),
            _ => None,
        }
    }
}

impl Exact for Actor {
    ghost use Rattle.dsr_names.specs.Support.ActorEquality.{actor_eq-Decides};

    ghost decides = { actor_eq-Decides };

    ghost clones = { λ a b. Prim.search rules };
}

impl fmt::Display for Actor {
    ghost output = { λ a. Some (actor_text a) };

    fn fmt<W: fmt::Write>(&self, f: &mut fmt::Formatter<W>) -> fmt::Result {
        match self {
            Actor::Replica(replica) => write!(f, "{replica}"),
            Actor::Client(client) => write!(f, "{client}"),
        }
    }
}

/// Returns the replica with this number; `None` from 16 on.
fn replica_of(number: u64) -> Option<Actor>
    ensures { SomeIff result (number < 16) (Actor.Replica number) }
{
    if number < 16 {
        Some(Actor::Replica(ReplicaId {
            number: number as u8,
        }))
    } else {
        None
    }
}

/// Returns the client with this number; `None` from 32 on.
fn client_of(number: u64) -> Option<Actor>
    ensures { SomeIff result (number < 32) (Actor.Client number) }
{
    if number < 32 {
        Some(Actor::Client(ClientId {
            number: number as u8,
        }))
    } else {
        None
    }
}
