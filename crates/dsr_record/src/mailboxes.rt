//! The boxes between the actors of logs that are merged.

ghost use Rattle.std.specs.Prelude.{◌↔◌, ◌∷◌, List, IsTrue};
ghost use Rattle.dsr_base.specs.Boxes.{AreSquare};
ghost use Rattle.dsr_names.specs.Places.{size};
ghost use Rattle.dsr_names.specs.Shape.{IsActor};
ghost use Rattle.dsr_run.specs.Run.{KeepsBox, other_of};
ghost use Rattle.dsr_run.specs.Step.{Step, log_of};
ghost use Rattle.dsr_record.specs.Support.Merging.{AreBoxes, CanMove};

use dsr_base::Boxes;
use dsr_envelope::{Entry, Envelope};
use dsr_names::{Actor, Shape};

/// An envelope that was posted and not yet taken.
#[derive(Drop)]
pub(crate) struct Held<'a> {
    /// The envelope, in the entry of its poster.
    pub(crate) envelope: &'a Envelope,
}

/// Tells whether the actor's entry can go on by its box: a post if the box is empty, a take if it holds that envelope.
pub(crate) fn can_move<'a>(
    shape: &Shape,
    boxes: &Boxes<Held<'a>>,
    actor: &Actor,
    entry: &Entry,
) -> bool
    requires square { AreSquare (size shape.now) boxes.now }
    requires actor { IsActor shape.now actor.now }
    requires other { IsActor shape.now (other_of entry.now) }
    ensures { (run : List Step) → AreBoxes shape.now (log_of run) boxes.now → IsTrue result ↔ KeepsBox (log_of run) actor.now entry.now }
{
    match entry {
        Entry::Post { to, .. } => boxes.item(shape.place(actor), shape.place(to)).is_none(),
        Entry::Take { from, envelope } => {
            match boxes.item(shape.place(from), shape.place(actor)) {
                Some(held) => held.envelope.same(envelope.envelope()),
                None => false,
            }
        }
    }
}

/// Moves the envelope of the actor's entry: a post puts it into its box, a take removes it. Requires that the entry can go on.
pub(crate) fn move_envelope<'a>(
    shape: &Shape,
    boxes: &mut Boxes<Held<'a>>,
    actor: &Actor,
    entry: &'a Entry,
)
    requires { CanMove shape.now boxes.old actor.now entry.now }
    ensures { (run : List Step) → AreBoxes shape.now (log_of run) boxes.old → KeepsBox (log_of run) actor.now entry.now
        → AreBoxes shape.now (log_of ((actor.now, entry.now) ∷ run)) boxes.new }
{
    match entry {
        Entry::Post { to, envelope } => {
            let envelope = envelope.envelope();
            boxes.put(shape.place(actor), shape.place(to), Held { envelope });
        }
        Entry::Take { from, .. } => {
            // The entry has the envelope already.
            let _held = boxes.take(shape.place(from), shape.place(actor));
        }
    }
}
