ghost use Rattle.std.specs.Prelude.{◌≡◌, ◌<◌, ◌*◌, ◌+◌, vec_len};
ghost use Rattle.dsr_names.specs.Places.{size};
ghost use Rattle.dsr_names.specs.Shape.{IsActor};
ghost use Rattle.dsr_boxes.specs.Place.{slot_of, word_of};

use crate::rule::Memory;
use dsr_names::{Actor, Shape};
use std::marker::Model;
use std::sync::atomic::AtomicU64;

/// The boxes that threads share: one from each actor of a shape to each actor. A box holds at most one envelope.
#[derive(Drop)]
pub struct SharedBoxes {
    pub(crate) memory: Memory,
    pub(crate) shape: Shape,
    /// Each actor's note, at its place: the word on which it sleeps, or 0 (no box's word) if it does not sleep.
    pub(crate) sleepers: Vec<AtomicU64>,
}

impl Model for SharedBoxes {
    ghost use Rattle.std.specs.Prelude.{◌≡◌, vec_len};
    ghost use Rattle.dsr_boxes.specs.Pass.{SharedBoxes};
    ghost use Rattle.dsr_boxes.specs.Place.{IsSized};

    ghost Value = { SharedBoxes };

    ghost view = { λ b. record { id = b.memory.shared.table_id; shape = b.shape } };

    ghost invariant = { λ b. (b.memory.shared.key ≡ b.shape) × IsSized b.shape b.memory.shared.table_id (vec_len b.sleepers) };
}

impl SharedBoxes {
    /// Returns the shape of the boxes.
    pub fn shape(&self) -> &Shape
        ensures { result.now ≡ self.now.shape }
    {
        &self.shape
    }

    /// Returns the slot of the box from `from` to `to`. It is below 2,304 because at most 48 actors have boxes.
    pub(crate) fn slot_of(&self, from: &Actor, to: &Actor) -> usize
        requires from { IsActor self.now.shape from.now }
        requires to { IsActor self.now.shape to.now }
        ensures same { result ≡ slot_of self.now.shape from.now to.now }
        ensures few { result < 2304 }
    {
        self.shape.place(from) * self.shape.size() + self.shape.place(to)
    }

    /// Returns the word of the box from `from` to `to`.
    pub(crate) fn word_of(&self, from: &Actor, to: &Actor) -> usize
        requires from { IsActor self.now.shape from.now }
        requires to { IsActor self.now.shape to.now }
        ensures same { result ≡ word_of self.now.shape from.now to.now }
        ensures inside { result < self.now.id.words }
    {
        // For the proof: how many words there are.
        let _sized = &self.memory;
        // The first four words hold the shape.
        4 + self.slot_of(from, to)
    }
}
