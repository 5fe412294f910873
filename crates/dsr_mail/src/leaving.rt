//! The seats of all actors on their way out, by the places of their actors.

ghost use Rattle.std.specs.Prelude.{◌≡◌, ◌⊎◌, ◌<◌, ◌≢◌, suc, [], ◌∷◌};
ghost use Rattle.std.specs.Vec.Iter.{into_iter_items};
ghost use Rattle.dsr_base.specs.Member.{In};
ghost use Rattle.dsr_names.specs.Places.{size, actor_at};
ghost use Rattle.dsr_node.specs.Node.{Plays};
ghost use Rattle.dsr_boxes.specs.Pass.{Pass, IsPassOf};
ghost use Rattle.dsr_mail.specs.Leaving.{AreLeft};
ghost use Rattle.dsr_mail.specs.Seats.{is_loyal_replica, is_traitor_replica, is_client};

use crate::client_seat::ClientSeat;
use crate::log::Log;
use crate::loyal::Loyal;
use crate::replica_seat::ReplicaSeat;
use crate::seats::Seats;
use crate::traitor_seat::TraitorSeat;
use dsr_boxes::{Pass, SharedBoxes};
use dsr_names::Actor;
use dsr_node::Node;
use std::vec;

/// The seats that have not left yet.
#[derive(Drop)]
pub(crate) struct Leaving {
    replicas: vec::IntoIter<ReplicaSeat>,
    traitors: vec::IntoIter<TraitorSeat>,
    clients: vec::IntoIter<ClientSeat>,
}

impl Leaving {
    /// Creates a `Leaving` that still has all of these seats.
    pub(crate) fn all(seats: Seats) -> Leaving
        ensures replicas { into_iter_items result.replicas ≡ seats.replicas.items }
        ensures traitors { into_iter_items result.traitors ≡ seats.traitors.items }
        ensures clients { into_iter_items result.clients ≡ seats.clients.items }
    {
        Leaving {
            replicas: seats.replicas.into_iter(),
            traitors: seats.traitors.into_iter(),
            clients: seats.clients.into_iter(),
        }
    }

    /// Removes the seat of the actor at this place, and returns its pass, log and node. Requires that the seats from this place on are left.
    pub(crate) fn next(&mut self, boxes: &SharedBoxes, place: usize) -> (Pass, Log, Node)
        requires place { place < size boxes.now.shape }
        requires replicas { AreLeft boxes.now is_loyal_replica place (into_iter_items self.old.replicas) }
        requires traitors { AreLeft boxes.now is_traitor_replica place (into_iter_items self.old.traitors) }
        requires clients { AreLeft boxes.now is_client place (into_iter_items self.old.clients) }
        ensures replicas { AreLeft boxes.now is_loyal_replica (suc place) (into_iter_items self.new.replicas) }
        ensures traitors { AreLeft boxes.now is_traitor_replica (suc place) (into_iter_items self.new.traitors) }
        ensures clients { AreLeft boxes.now is_client (suc place) (into_iter_items self.new.clients) }
        ensures left_replicas { (seat : Pass) → In seat (into_iter_items self.old.replicas) → In seat (into_iter_items self.new.replicas) ⊎ (seat ≡ result.0) }
        ensures left_traitors { (seat : Pass) → In seat (into_iter_items self.old.traitors) → In seat (into_iter_items self.new.traitors) ⊎ (seat ≡ result.0) }
        ensures left_clients { (seat : Pass) → In seat (into_iter_items self.old.clients) → In seat (into_iter_items self.new.clients) ⊎ (seat ≡ result.0) }
        ensures boxes { IsPassOf boxes.now result.0 }
        ensures actor { result.0.actor ≡ actor_at boxes.now.shape place }
        ensures log { result.1 ≡ result.0.log }
        ensures plays { Plays boxes.now.shape result.0.actor result.0.log result.2 }
    {
        let shape = boxes.shape();
        let actor = shape.actor_at(place);
        match &actor {
            Actor::Client(_) => leave(first_of(&mut self.clients).into_loyal()),
            Actor::Replica(_) => {
                if shape.is_loyal(actor) {
                    leave(first_of(&mut self.replicas).into_loyal())
                } else {
                    leave_traitor(first_of(&mut self.traitors))
                }
            }
        }
    }
}

/// Removes and returns the first item that is left. Requires that one is left.
fn first_of<T>(left: &mut vec::IntoIter<T>) -> T
    requires { into_iter_items left.old ≢ [] }
    ensures { into_iter_items left.old ≡ result ∷ into_iter_items left.new }
{
    let Some(first) = left.next() else {
        unreachable!()
    };
    first
}

/// Splits a loyal actor's seat into its pass, log and node.
fn leave(loyal: Loyal) -> (Pass, Log, Node)
    ensures pass { result.0 ≡ loyal }
    ensures log { result.1 ≡ loyal.log }
    ensures plays { Plays loyal.shape loyal.actor loyal.log result.2 }
{
    let (seat, node) = loyal.into_parts();
    let (pass, log) = seat.into_parts();
    (pass, log, node)
}

/// Splits a traitor's seat into its pass, log and node.
fn leave_traitor(traitor: TraitorSeat) -> (Pass, Log, Node)
    ensures pass { result.0 ≡ traitor }
    ensures log { result.1 ≡ traitor.log }
    ensures plays { Plays traitor.shape traitor.actor traitor.log result.2 }
{
    // For the proof: what its contract says.
    let _replica = traitor.replica();
    let (pass, log) = traitor.into_seat().into_parts();
    (pass, log, Node::Traitor)
}
