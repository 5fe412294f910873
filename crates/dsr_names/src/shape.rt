ghost use Rattle.std.specs.Prelude.{◌≡◌, ◌<◌, ◌↔◌, IsOk, IfOk, IsTrue, IsOkUnless};
ghost use Rattle.std.proofs.Common.{rules};

use crate::actor::{Actor, ReplicaId};
use crate::bits::count_bits;
use crate::refusal::Refusal;
use dsr_base::Exact;
use std::marker::Model;

/// The number of replicas, the greatest number of traitors among them, the number of clients, and which
/// replicas are traitors.
#[derive(Clone, Copy, Debug, PartialEq, Eq)]
pub struct Shape {
    n: u8,
    f: u8,
    m: u8,
    traitors: u16,
}

impl Model for Shape {
    ghost use Rattle.dsr_names.specs.Shape.{Shape, IsAllowed};

    ghost Value = { Shape };

    ghost view = { λ s. record { n = s.n; f = s.f; m = s.m; traitors = s.traitors } };

    ghost invariant = { λ s. IsAllowed (record { n = s.n; f = s.f; m = s.m; traitors = s.traitors }) };

    ghost inverse = { λ s. record { n = s.n; f = s.f; m = s.m; traitors = s.traitors } };
}

impl Shape {
    ghost use Rattle.dsr_names.specs.Shape.{shape_of, sender, IsAllowed, IsActor, IsLoyal};

    /// Makes the shape of `n` replicas, at most `f` of them traitors, and `m` clients; bit i of
    /// `traitors` says that replica i is a traitor. `BadShape` if n is not 1 to 16, n is less than 2f+1,
    /// m is not 1 to 32, a bit from n on is set, or more than f bits are.
    pub fn new(n: u8, f: u8, m: u8, traitors: u16) -> Result<Shape, Refusal>
        ensures ok { IfOk result (λ shape. shape ≡ shape_of n f m traitors) }
        ensures when { IsOk result ↔ IsAllowed (shape_of n f m traitors) }
        ensures refusal { IsOkUnless result Refusal.BadShape }
    {
        let in_range = 0 < n && n <= 16 && f <= 7 && 2 * f < n && 0 < m && m <= 32;
        if !in_range {
            return Err(Refusal::BadShape);
        }
        if (traitors as u32) < 1 << n && count_bits(traitors, n) <= f {
            Ok(Shape { n, f, m, traitors })
        } else {
            Err(Refusal::BadShape)
        }
    }

    /// Returns the number of replicas, 1 to 16.
    pub fn n(&self) -> u8
        ensures same { result ≡ self.now.n }
        ensures allowed { IsAllowed self.now }
    {
        self.n
    }

    /// Returns the greatest number of traitors, 0 to 7.
    pub fn f(&self) -> u8
        ensures same { result ≡ self.now.f }
        ensures allowed { IsAllowed self.now }
    {
        self.f
    }

    /// Returns the number of clients, 1 to 32.
    pub fn m(&self) -> u8
        ensures same { result ≡ self.now.m }
        ensures allowed { IsAllowed self.now }
    {
        self.m
    }

    /// Returns the traitors: bit i is set if replica i is one.
    pub fn traitors(&self) -> u16
        ensures same { result ≡ self.now.traitors }
        ensures allowed { IsAllowed self.now }
    {
        self.traitors
    }

    /// Tells whether this is an actor of the shape: a replica below n, or a client below m.
    pub fn has(&self, actor: Actor) -> bool
        ensures { IsTrue result ↔ IsActor self.now actor }
    {
        match actor {
            Actor::Replica(replica) => replica.number() < self.n,
            Actor::Client(client) => client.number() < self.m,
        }
    }

    /// Tells whether this is an actor of the shape and not a traitor. All clients are loyal.
    pub fn is_loyal(&self, actor: Actor) -> bool
        ensures { IsTrue result ↔ IsLoyal self.now actor }
    {
        match actor {
            Actor::Replica(replica) => {
                let number = replica.number();
                number < self.n && (self.traitors >> number) & 1 == 0
            }
            Actor::Client(client) => client.number() < self.m,
        }
    }

    /// Returns the replica that is the sender of this slot: the replicas take turns.
    pub fn sender(&self, slot: u64) -> ReplicaId
        ensures same { result ≡ sender self.now slot }
        ensures inside { result < self.now.n }
    {
        let number = (slot % self.n as u64) as u8;
        ReplicaId::of(number)
    }
}

impl Exact for Shape {
    ghost decides = { λ a b. Prim.search rules };

    ghost clones = { λ a b. Prim.search rules };
}
