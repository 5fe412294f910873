//! The keys of a shape, taken one by one.

ghost use Rattle.std.specs.Prelude.{◌≡◌, ◌+◌, ◌≢◌, ◌<◌, false, length, IfOk, IsOkUnless};
ghost use Rattle.dsr_names.specs.declared.actor.Actor.{Actor};
ghost use Rattle.dsr_names.specs.declared.actor.Actor.TheVariants.{Replica as ReplicaNumber, Client as ClientNumber};
ghost use Rattle.dsr_desk.specs.Keys.{is_taken};
ghost use Rattle.dsr_record.specs.Keys.{HasAllKeys};

use dsr_desk::{Key, Keys};
use dsr_names::{Actor, ClientId, Refusal, ReplicaId, Shape};
use std::alloc::Global;

/// Makes one key for each actor of the shape: a notary, who signs what was recorded, holds all of them. `NoMemory` if memory runs out.
///
/// These are second keys of actors who have their own, so use them for envelopes that are compared, and never posted.
pub fn all_keys(alloc: Global, shape: &Shape) -> Result<Vec<Key>, Refusal>
    ensures all { IfOk result (λ keys. HasAllKeys shape.now keys.items) }
    ensures count { IfOk result (λ keys. length keys.items ≡ shape.now.n + shape.now.m) }
    ensures refusal { IsOkUnless result Refusal.NoMemory }
{
    let mut untaken = Keys::new(alloc, *shape)?;
    let mut keys = Vec::with_capacity(alloc, shape.n() as usize + shape.m() as usize)?;
    for number in 0..shape.n() {
        let key = replica_key(shape, &mut untaken, number);
        keys.push(key)?;
    }
    for number in 0..shape.m() {
        let key = client_key(shape, &mut untaken, number);
        keys.push(key)?;
    }
    Ok(keys)
}

/// Takes the key of a replica of the shape. Requires that it was not taken.
pub fn replica_key(shape: &Shape, keys: &mut Keys, number: u8) -> Key
    requires inside { number < shape.now.n }
    requires keys { keys.old.shape ≡ shape.now }
    requires untaken { is_taken keys.old (ReplicaNumber number) ≡ false }
    ensures keys { keys.new.shape ≡ keys.old.shape }
    ensures others { (other : Actor) → other ≢ ReplicaNumber number → is_taken keys.new other ≡ is_taken keys.old other }
    ensures key { result ≡ ReplicaNumber number }
{
    // For the proof: n is at most 16.
    let _n = shape.n();
    let Some(key) = keys.take(Actor::Replica(ReplicaId::of(number))) else {
        unreachable!()
    };
    key
}

/// Takes the key of a client of the shape. Requires that it was not taken.
pub fn client_key(shape: &Shape, keys: &mut Keys, number: u8) -> Key
    requires inside { number < shape.now.m }
    requires keys { keys.old.shape ≡ shape.now }
    requires untaken { is_taken keys.old (ClientNumber number) ≡ false }
    ensures keys { keys.new.shape ≡ keys.old.shape }
    ensures others { (other : Actor) → other ≢ ClientNumber number → is_taken keys.new other ≡ is_taken keys.old other }
    ensures key { result ≡ ClientNumber number }
{
    // For the proof: m is at most 32.
    let _m = shape.m();
    let Some(key) = keys.take(Actor::Client(ClientId::of(number))) else {
        unreachable!()
    };
    key
}
