ghost use Rattle.std.specs.Prelude.{◌≡◌, ◌≢◌, ◌↔◌, Some, true, false, replicate, slice_get, slice_set, All, IsTrue, IsSome, IfOk, IfSome, OnSome, IfNone, IsOkUnless};
ghost use Rattle.std.specs.Bool.{OnTrue, OnFalse};
ghost use Rattle.dsr_names.specs.declared.actor.Actor.{Actor};

use crate::statement::Statement;
use dsr_names::{Actor, Refusal, Shape};
use std::alloc::Global;
use std::marker::Model;

/// The keys of a shape: one for each of its actors, to be taken once. A run must make only one `Keys`: a second one,
/// whatever its shape, gives second keys to the actors that both have.
#[derive(Drop)]
pub struct Keys {
    shape: Shape,
    replicas: Vec<bool>,
    clients: Vec<bool>,
}

impl Model for Keys {
    ghost use Rattle.std.specs.Prelude.{◌≡◌, length};
    ghost use Rattle.dsr_desk.specs.Keys.{Keys};

    ghost Value = { Keys };

    ghost view = { λ k. record { shape = k.shape; replicas = k.replicas.items; clients = k.clients.items } };

    ghost invariant = { λ k. (length k.replicas.items ≡ k.shape.n) × (length k.clients.items ≡ k.shape.m) };
}

/// What an actor signs with. One `Keys` has one key for each actor of its shape. A key is never copied, and only
/// `Keys::take` makes one.
#[derive(Drop)]
pub struct Key {
    holder: Actor,
}

impl Model for Key {
    ghost use Rattle.dsr_names.specs.declared.actor.Actor.{Actor};

    ghost Value = { Actor };

    ghost view = { λ k. k.holder };
}

/// The signature of an actor on a statement. Only `Key::sign` and `Links` create one, and `Links` come only from keys and
/// signatures. It is copied without allocating.
#[derive(Clone, Copy, Debug, PartialEq, Eq)]
pub struct Signature {
    signer: Actor,
    statement: Statement,
}

impl Model for Signature {
    ghost use Rattle.dsr_desk.specs.Signature.{Signature};

    ghost Value = { Signature };

    ghost view = { λ s. record { signer = s.signer; statement = s.statement } };

    ghost inverse = { λ s. record { signer = s.signer; statement = s.statement } };
}

impl Keys {
    ghost use Rattle.dsr_names.specs.Shape.{IsActor};
    ghost use Rattle.dsr_desk.specs.Keys.{is_taken, IsWhole};

    /// Makes all keys of the shape, none of them taken. `NoMemory` if memory runs out.
    pub fn new(alloc: Global, shape: Shape) -> Result<Keys, Refusal>
        ensures shape { IfOk result (λ keys. keys.shape ≡ shape) }
        ensures whole { IfOk result IsWhole }
        ensures refusal { IsOkUnless result Refusal.NoMemory }
    {
        let replicas = untaken(alloc, shape.n())?;
        let clients = untaken(alloc, shape.m())?;
        Ok(Keys {
            shape,
            replicas,
            clients,
        })
    }

    /// Takes the actor's key. `None` if the actor is not of the shape, or its key was taken before: then nothing
    /// changes.
    pub fn take(&mut self, actor: Actor) -> Option<Key>
        ensures key { IfSome result (λ key. key ≡ actor) }
        ensures when { IsSome result ↔ (IsActor self.old.shape actor × (is_taken self.old actor ≡ false)) }
        ensures taken { OnSome result (is_taken self.new actor ≡ true) }
        ensures others { (other : Actor) → other ≢ actor → is_taken self.new other ≡ is_taken self.old other }
        ensures shape { self.new.shape ≡ self.old.shape }
        ensures none { IfNone result (self.new ≡ self.old) }
    {
        let first = match actor {
            Actor::Replica(replica) => set_flag(&mut self.replicas, replica.number()),
            Actor::Client(client) => set_flag(&mut self.clients, client.number()),
        };
        if first {
            Some(Key { holder: actor })
        } else {
            None
        }
    }

    /// Returns the shape that the keys were made for.
    pub fn shape(&self) -> Shape
        ensures { result ≡ self.now.shape }
    {
        self.shape
    }

    /// Returns whether no key was taken yet.
    pub fn whole(&self) -> bool
        ensures { IsTrue result ↔ IsWhole self.now }
    {
        none_is_set(&self.replicas) && none_is_set(&self.clients)
    }
}

impl Key {
    ghost use Rattle.dsr_desk.specs.Signature.{signed};

    /// Returns the holder of the key.
    pub fn signer(&self) -> Actor
        ensures { result ≡ self.now }
    {
        self.holder
    }

    /// Signs the statement in the name of the key's holder.
    pub fn sign(&self, statement: Statement) -> Signature
        ensures { result ≡ signed self.now statement }
    {
        Signature {
            signer: self.holder,
            statement,
        }
    }
}

impl Signature {
    ghost use Rattle.dsr_desk.specs.Signature.{signed};

    /// Makes the signature of this signer on the statement, for callers that know that the signer made it.
    pub(crate) fn by(signer: Actor, statement: Statement) -> Signature
        ensures { result ≡ signed signer statement }
    {
        Signature { signer, statement }
    }

    /// Returns the signer.
    pub fn signer(&self) -> Actor
        ensures { result ≡ self.now.signer }
    {
        self.signer
    }

    /// Returns the statement that was signed.
    pub fn statement(&self) -> &Statement
        ensures { result.now ≡ self.now.statement }
    {
        &self.statement
    }

    /// Returns a copy. It goes through `clone`, so a clone equals its original too.
    pub fn copy(&self) -> Signature
        ensures { result ≡ self.now }
    {
        match self.clone() {
            Ok(signature) => signature,
            Err(_) => *self,
        }
    }

    /// Returns whether two signatures are by the same signer on the same statement.
    pub fn same(&self, other: &Signature) -> bool
        ensures { IsTrue result ↔ (self.now ≡ other.now) }
    {
        self == other
    }
}

/// Makes `count` flags, none set: no key is taken. `NoMemory` if memory runs out.
fn untaken(alloc: Global, count: u8) -> Result<Vec<bool>, Refusal>
    ensures unset { IfOk result (λ flags. flags.items ≡ replicate count false) }
    ensures refusal { IsOkUnless result Refusal.NoMemory }
{
    Ok(vec![in alloc; false; count as usize]?)
}

/// Returns whether no flag is set.
fn none_is_set(flags: &[bool]) -> bool
    ensures { IsTrue result ↔ All (λ flag. flag ≡ false) flags.now }
{
    flags.iter().all(|flag| !*flag)
}

/// Sets the flag at this place. Returns true if there is such a flag and it was not set.
fn set_flag(flags: &mut Vec<bool>, place: u8) -> bool
    ensures first { IsTrue result ↔ (slice_get flags.old.items place ≡ Some false) }
    ensures set { OnTrue result (flags.new.items ≡ slice_set flags.old.items place true) }
    ensures stays { OnFalse result (flags.new.items ≡ flags.old.items) }
{
    let place = place as usize;
    if place < flags.len() && !flags[place] {
        flags[place] = true;
        true
    } else {
        false
    }
}
