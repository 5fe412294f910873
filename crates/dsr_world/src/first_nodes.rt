ghost use Rattle.std.specs.Prelude.{◌≡◌, ◌≢◌, ◌↔◌, ◌<◌, ◌++◌, [], true, false, IfOk, IfSome, IsSome, OnOk, IsOkUnless};
ghost use Rattle.std.specs.Option.{option_to_list};
ghost use Rattle.dsr_names.specs.Shape.{is_traitor};
ghost use Rattle.dsr_names.specs.declared.actor.Actor.{Actor};
ghost use Rattle.dsr_names.specs.declared.actor.Actor.TheVariants.{Replica as ReplicaNumber, Client as ClientNumber};
ghost use Rattle.dsr_desk.specs.Keys.{is_taken};
ghost use Rattle.dsr_node.specs.Node.{Plays};

use dsr_client::Client;
use dsr_desk::{Key, Keys};
use dsr_names::{Actor, ClientId, Refusal, ReplicaId, Shape};
use dsr_node::{Customer, Node};
use dsr_replica::Replica;
use std::alloc::Global;

/// Makes the node of a replica of the shape, and its key if it is a traitor. `NoMemory` if memory runs out. Requires that its key was not taken.
pub(crate) fn replica_node(
    alloc: Global,
    shape: &Shape,
    keys: &mut Keys,
    number: u8,
) -> Result<(Node, Option<Key>), Refusal>
    requires inside { number < shape.now.n }
    requires keys { keys.old.shape ≡ shape.now }
    requires untaken { is_taken keys.old (ReplicaNumber number) ≡ false }
    ensures keys { keys.new.shape ≡ keys.old.shape }
    ensures others { (other : Actor) → other ≢ ReplicaNumber number → is_taken keys.new other ≡ is_taken keys.old other }
    ensures plays { IfOk result (λ made. Plays shape.now (ReplicaNumber number) [] made.0) }
    ensures held { IfOk result (λ made. IfSome made.1 (λ key. key ≡ ReplicaNumber number)) }
    ensures traitor { IfOk result (λ made. IsSome made.1 ↔ (is_traitor shape.now number ≡ true)) }
    ensures refusal { IsOkUnless result Refusal.NoMemory }
{
    // For the proof: n is at most 16.
    let _n = shape.n();
    let actor = Actor::Replica(ReplicaId::of(number));
    let Some(key) = keys.take(actor) else {
        unreachable!()
    };
    if shape.is_loyal(key.signer()) {
        Ok((Node::Loyal(Replica::new(alloc, key, shape)?), None))
    } else {
        Ok((Node::Traitor, Some(key)))
    }
}

/// Makes the node of a client of the shape. Requires that its key was not taken.
pub(crate) fn client_node(alloc: Global, shape: &Shape, keys: &mut Keys, number: u8) -> Node
    requires inside { number < shape.now.m }
    requires keys { keys.old.shape ≡ shape.now }
    requires untaken { is_taken keys.old (ClientNumber number) ≡ false }
    ensures keys { keys.new.shape ≡ keys.old.shape }
    ensures others { (other : Actor) → other ≢ ClientNumber number → is_taken keys.new other ≡ is_taken keys.old other }
    ensures plays { Plays shape.now (ClientNumber number) [] result }
{
    // For the proof: m is at most 32.
    let _m = shape.m();
    let actor = Actor::Client(ClientId::of(number));
    let Some(key) = keys.take(actor) else {
        unreachable!()
    };
    Node::Client(Customer::new(alloc, Client::new(key, shape)))
}

/// Adds the key; does nothing for `None`. `NoMemory` if memory runs out.
pub(crate) fn keep(keys: &mut Vec<Key>, key: Option<Key>) -> Result<(), Refusal>
    ensures kept { OnOk result (keys.new.items ≡ keys.old.items ++ option_to_list key) }
    ensures refusal { IsOkUnless result Refusal.NoMemory }
{
    match key {
        Some(key) => match keys.push(key) {
            Ok(()) => Ok(()),
            Err(_) => Err(Refusal::NoMemory),
        },
        None => Ok(()),
    }
}
