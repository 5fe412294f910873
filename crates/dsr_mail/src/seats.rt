//! Makes the seats of all actors of a shape.

ghost use Rattle.std.specs.Prelude.{◌≡◌, ◌≢◌, ◌++◌, [], false, map, IfOk, OnOk, IsOkUnless};
ghost use Rattle.dsr_names.specs.Places.{size};
ghost use Rattle.dsr_names.specs.Shape.{IsActor};
ghost use Rattle.dsr_names.specs.declared.actor.Actor.{Actor};
ghost use Rattle.dsr_desk.specs.Keys.{is_taken, IsWhole};
ghost use Rattle.dsr_node.specs.Conduct.{is_traitor_of};
ghost use Rattle.dsr_node.specs.Node.{IsReplicaNumber};
ghost use Rattle.dsr_boxes.specs.Pass.{new_pass, new_passes};
ghost use Rattle.dsr_mail.specs.Leaving.{pass_if};
ghost use Rattle.dsr_mail.specs.Loyal.{IsClientActor};
ghost use Rattle.dsr_mail.specs.Seats.{is_loyal_replica, is_traitor_replica, is_client, actors_of};

use crate::client_seat::ClientSeat;
use crate::loyal::Loyal;
use crate::replica_seat::ReplicaSeat;
use crate::seat::Seat;
use crate::traitor_seat::TraitorSeat;
use dsr_boxes::{Pass, SharedBoxes};
use dsr_client::Client;
use dsr_desk::{Key, Keys};
use dsr_names::{Actor, Refusal, Shape};
use dsr_node::{Customer, Node};
use dsr_replica::Replica;
use std::alloc::Global;

/// The seats of all actors of a shape, each kind in the order of its actors' numbers.
#[derive(Drop)]
pub struct Seats {
    /// The loyal replicas' seats.
    pub replicas: Vec<ReplicaSeat>,
    /// The traitors' seats.
    pub traitors: Vec<TraitorSeat>,
    /// The clients' seats.
    pub clients: Vec<ClientSeat>,
}

impl Seats {
    /// Makes the seats of the actors with these passes, each with its key. `NoMemory` if memory runs out.
    pub(crate) fn of(
        alloc: Global,
        boxes: &SharedBoxes,
        passes: Vec<Pass>,
        keys: Keys,
    ) -> Result<Seats, Refusal>
        requires passes { passes.items ≡ new_passes boxes.now (size boxes.now.shape) }
        requires whole { IsWhole keys }
        requires same { keys.shape ≡ boxes.now.shape }
        ensures replicas { IfOk result (λ made. made.replicas.items ≡ map (new_pass boxes.now) (actors_of is_loyal_replica boxes.now.shape)) }
        ensures traitors { IfOk result (λ made. made.traitors.items ≡ map (new_pass boxes.now) (actors_of is_traitor_replica boxes.now.shape)) }
        ensures clients { IfOk result (λ made. made.clients.items ≡ map (new_pass boxes.now) (actors_of is_client boxes.now.shape)) }
        ensures refusal { IsOkUnless result Refusal.NoMemory }
    {
        let shape = boxes.shape();
        let mut keys = keys;
        let mut seats = Seats::none(alloc);
        for pass in passes {
            seats.add(alloc, shape, &mut keys, pass)?;
        }
        Ok(seats)
    }

    /// Creates empty lists of seats.
    fn none(alloc: Global) -> Seats
        ensures replicas { result.replicas.items ≡ [] }
        ensures traitors { result.traitors.items ≡ [] }
        ensures clients { result.clients.items ≡ [] }
    {
        Seats {
            replicas: Vec::new(alloc),
            traitors: Vec::new(alloc),
            clients: Vec::new(alloc),
        }
    }

    /// Adds the seat of the pass's actor, after those of its kind. `NoMemory` if memory runs out. Requires that the actor's key is not taken
    /// yet.
    fn add(
        &mut self,
        alloc: Global,
        shape: &Shape,
        keys: &mut Keys,
        pass: Pass,
    ) -> Result<(), Refusal>
        requires shape { pass.shape ≡ shape.now }
        requires first { pass.log ≡ [] }
        requires keys { keys.old.shape ≡ shape.now }
        requires untaken { is_taken keys.old pass.actor ≡ false }
        ensures keys { keys.new.shape ≡ keys.old.shape }
        ensures others { (other : Actor) → other ≢ pass.actor → is_taken keys.new other ≡ is_taken keys.old other }
        ensures replicas { OnOk result (self.new.replicas.items ≡ self.old.replicas.items ++ pass_if (is_loyal_replica shape.now pass.actor) pass) }
        ensures traitors { OnOk result (self.new.traitors.items ≡ self.old.traitors.items ++ pass_if (is_traitor_replica shape.now pass.actor) pass) }
        ensures clients { OnOk result (self.new.clients.items ≡ self.old.clients.items ++ pass_if (is_client shape.now pass.actor) pass) }
        ensures refusal { IsOkUnless result Refusal.NoMemory }
    {
        let actor = *pass.actor();
        // For the proof: what its contract says.
        let _n = shape.n();
        let Some(key) = keys.take(actor) else {
            unreachable!()
        };
        let seat = Seat::new(alloc, pass, *shape)?;
        match key.signer() {
            Actor::Client(_) => self.clients.push(client_seat(alloc, shape, seat, key))?,
            Actor::Replica(_) => {
                if shape.is_loyal(key.signer()) {
                    self.replicas.push(replica_seat(alloc, shape, seat, key)?)?;
                } else {
                    self.traitors.push(TraitorSeat::new(alloc, seat, key))?;
                }
            }
        }
        Ok(())
    }
}

/// Creates the seat of a loyal replica with this key. `NoMemory` if memory runs out.
fn replica_seat(alloc: Global, shape: &Shape, seat: Seat, key: Key) -> Result<ReplicaSeat, Refusal>
    requires shape { seat.shape ≡ shape.now }
    requires first { seat.log ≡ [] }
    requires key { key ≡ seat.actor }
    requires replica { IsReplicaNumber seat.actor }
    requires inside { IsActor shape.now seat.actor }
    requires loyal { is_traitor_of shape.now seat.actor ≡ false }
    ensures same { IfOk result (λ made. made ≡ seat) }
    ensures refusal { IsOkUnless result Refusal.NoMemory }
{
    let node = Node::Loyal(Replica::new(alloc, key, shape)?);
    Ok(ReplicaSeat::new(Loyal::new(seat, node)))
}

/// Creates the seat of a client with this key.
fn client_seat(alloc: Global, shape: &Shape, seat: Seat, key: Key) -> ClientSeat
    requires shape { seat.shape ≡ shape.now }
    requires first { seat.log ≡ [] }
    requires key { key ≡ seat.actor }
    requires client { IsClientActor seat.actor }
    requires inside { IsActor shape.now seat.actor }
    ensures { result ≡ seat }
{
    let node = Node::Client(Customer::new(alloc, Client::new(key, shape)));
    ClientSeat::new(Loyal::new(seat, node))
}
