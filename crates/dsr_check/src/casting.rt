ghost use Rattle.std.specs.Prelude.{◌≡◌, ◌+◌, ◌≢◌, ◌<◌, ◌++◌, [], ◌↔◌, true, false, IfOk, IfSome, IsSome, OnOk, IsOkUnless};
ghost use Rattle.std.specs.Option.{option_to_list};
ghost use Rattle.dsr_names.specs.Shape.{IsActor, is_traitor};
ghost use Rattle.dsr_names.specs.declared.actor.Actor.{Actor};
ghost use Rattle.dsr_names.specs.declared.actor.Actor.TheVariants.{Replica as ReplicaNumber, Client as ClientNumber};
ghost use Rattle.dsr_desk.specs.Keys.{is_taken};
ghost use Rattle.dsr_check.specs.Support.Audit.{AreCast, AreKeysBelow};
ghost use Rattle.dsr_check.specs.Support.Party.{Plays};

use crate::customer::Customer;
use crate::party::Party;
use dsr_client::Client;
use dsr_desk::{Key, Keys};
use dsr_names::{Refusal, Shape};
use dsr_record::{client_key, replica_key};
use dsr_replica::Replica;
use std::alloc::Global;

/// A party for each actor of the shape, in the order of the actors' places, and the traitors' keys.
#[derive(Drop)]
pub(crate) struct Parties {
    /// The parties, before their first steps.
    pub(crate) parties: Vec<Party>,
    /// The keys of the traitors.
    pub(crate) traitors: Vec<Key>,
}

/// Makes a party for each actor of the shape. `NoMemory` if memory runs out.
pub(crate) fn all_parties(alloc: Global, shape: &Shape) -> Result<Parties, Refusal>
    ensures parties { IfOk result (λ made. AreCast shape.now (shape.now.n + shape.now.m) made.parties.items) }
    ensures traitors { IfOk result (λ made. AreKeysBelow shape.now shape.now.n made.traitors.items) }
    ensures refusal { IsOkUnless result Refusal.NoMemory }
{
    let mut keys = Keys::new(alloc, *shape)?;
    let mut parties = Vec::with_capacity(alloc, shape.n() as usize + shape.m() as usize)?;
    let mut traitors = Vec::new(alloc);
    for number in 0..shape.n() {
        let (party, key) = replica_party(alloc, shape, &mut keys, number)?;
        parties.push(party)?;
        keep(&mut traitors, key)?;
    }
    for number in 0..shape.m() {
        parties.push(client_party(alloc, shape, &mut keys, number))?;
    }
    Ok(Parties { parties, traitors })
}

/// Makes the party of a replica of the shape, and its key if it is a traitor. `NoMemory` if memory runs out.
/// Requires that its key was not taken.
fn replica_party(
    alloc: Global,
    shape: &Shape,
    keys: &mut Keys,
    number: u8,
) -> Result<(Party, Option<Key>), Refusal>
    requires inside { number < shape.now.n }
    requires keys { keys.old.shape ≡ shape.now }
    requires untaken { is_taken keys.old (ReplicaNumber number) ≡ false }
    ensures keys { keys.new.shape ≡ keys.old.shape }
    ensures others { (other : Actor) → other ≢ ReplicaNumber number → is_taken keys.new other ≡ is_taken keys.old other }
    ensures plays { IfOk result (λ made. Plays shape.now (ReplicaNumber number) [] made.0) }
    ensures held { IfOk result (λ made. IfSome made.1 (λ key. key ≡ ReplicaNumber number)) }
    ensures traitor { IfOk result (λ made. IsSome made.1 ↔ (is_traitor shape.now number ≡ true)) }
    ensures refusal { IsOkUnless result Refusal.NoMemory }
{
    let key = replica_key(shape, keys, number);
    if shape.is_loyal(key.signer()) {
        Ok((Party::Loyal(Replica::new(alloc, key, shape)?), None))
    } else {
        Ok((Party::Traitor, Some(key)))
    }
}

/// Makes the party of a client of the shape. Requires that its key was not taken.
fn client_party(alloc: Global, shape: &Shape, keys: &mut Keys, number: u8) -> Party
    requires inside { number < shape.now.m }
    requires keys { keys.old.shape ≡ shape.now }
    requires untaken { is_taken keys.old (ClientNumber number) ≡ false }
    ensures keys { keys.new.shape ≡ keys.old.shape }
    ensures others { (other : Actor) → other ≢ ClientNumber number → is_taken keys.new other ≡ is_taken keys.old other }
    ensures plays { Plays shape.now (ClientNumber number) [] result }
{
    let key = client_key(shape, keys, number);
    Party::Client(Customer::new(alloc, Client::new(key, shape)))
}

/// Adds the key; does nothing for `None`. `NoMemory` if memory runs out.
fn keep(keys: &mut Vec<Key>, key: Option<Key>) -> Result<(), Refusal>
    ensures kept { OnOk result (keys.new.items ≡ keys.old.items ++ option_to_list key) }
    ensures refusal { IsOkUnless result Refusal.NoMemory }
{
    match key {
        Some(key) => match keys.push(key) {
            Ok(()) => Ok(()),
            Err(_) => Err(Refusal::NoMemory),
        },
        None => Ok(()),
    }
}
