//! The places of a shape's actors in one row.

ghost use Rattle.std.specs.Prelude.{◌≡◌, ℕ, ◌<◌, ◌≤◌};
ghost use Rattle.dsr_names.specs.Places.{size, place_of, actor_at};
ghost use Rattle.dsr_names.specs.Shape.{Shape as AShape, IsActor};
ghost use Rattle.dsr_names.specs.declared.actor.Actor.{Actor as AnActor};

use crate::actor::{Actor, ClientId, ReplicaId};
use crate::shape::Shape;

impl Shape {
    /// Returns the number of actors of the shape, at most 48.
    pub fn size(&self) -> usize
        ensures same { result ≡ size self.now }
        ensures few { result ≤ 48 }
    {
        self.n() as usize + self.m() as usize
    }

    /// Returns the place of an actor in a row of all, counted from 0: replicas first, then clients.
    pub fn place(&self, actor: &Actor) -> usize
        ensures { result ≡ place_of self.now actor.now }
    {
        match actor {
            Actor::Replica(replica) => replica.number() as usize,
            Actor::Client(client) => self.n() as usize + client.number() as usize,
        }
    }

    /// Returns the actor at this place. Requires that there is one.
    pub fn actor_at(&self, place: usize) -> Actor
        requires { place < size self.now }
        ensures same { result ≡ actor_at self.now place }
        ensures inside { IsActor self.now result }
    {
        let n = self.n() as usize;
        if place < n {
            Actor::Replica(ReplicaId::of(place as u8))
        } else {
            // For the proof: m is at most 32.
            let _m = self.m();
            Actor::Client(ClientId::of((place - n) as u8))
        }
    }
}

/// Each actor of the shape has a place of its own, and each place an actor.
pub fn each_actor_has_a_place()
    ensures below { (shape : AShape) (a : AnActor) → IsActor shape a → place_of shape a < size shape }
    ensures apart { (shape : AShape) (a b : AnActor) → IsActor shape a → IsActor shape b → place_of shape a ≡ place_of shape b → a ≡ b }
    ensures found { (shape : AShape) (a : AnActor) → IsActor shape a → actor_at shape (place_of shape a) ≡ a }
    ensures taken { (shape : AShape) (place : ℕ) → place < size shape → place_of shape (actor_at shape place) ≡ place }
{}
