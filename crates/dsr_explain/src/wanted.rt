ghost use Rattle.std.specs.Prelude.{◌≡◌, ◌↔◌, IsTrue, IfSome, Some, Any};
ghost use Rattle.dsr_explain.specs.Waits.{wants_wait};
ghost use Rattle.dsr_explain.specs.Wanted.{WantsActor, WantsDone, WantsRefused, slot_of, wants_note};

use dsr_base::Exact;
use dsr_names::Actor;
use dsr_notes::Note;
use dsr_reasons::actor_of;
use dsr_world::Event;

/// Which events of a play to explain, and how.
#[derive(Clone, Copy, Debug)]
pub struct Wanted {
    /// If `Some`: only those that read a chain of this slot or decided it.
    pub slot: Option<u64>,
    /// If `Some`: only those in which this actor posts, takes or tells.
    pub actor: Option<Actor>,
    /// If true: only those that were refused.
    pub refused: bool,
    /// Whether to write data, one line for each note, in place of words.
    pub data: bool,
}

impl Wanted {
    /// Tells whether the event, which was done and has these notes, is wanted.
    pub(crate) fn has_done(&self, event: &Event, notes: &[Note]) -> bool
        ensures { IsTrue result ↔ WantsDone self.now event.now notes.now }
    {
        !self.refused && self.has_actor(event) && self.has_slot(notes)
    }

    /// Tells whether the event, which was refused, is wanted. It has a part in no slot.
    pub(crate) fn has_refused(&self, event: &Event) -> bool
        ensures { IsTrue result ↔ WantsRefused self.now event.now }
    {
        self.slot.is_none() && self.has_actor(event)
    }

    /// Tells whether the note of a wanted event is wanted. A note that concerns no single slot always is.
    pub(crate) fn has_note(&self, note: &Note) -> bool
        ensures { result ≡ wants_note self.now note.now }
    {
        match (self.slot, slot_of(note)) {
            (Some(wanted), Some(slot)) => slot == wanted,
            _ => true,
        }
    }

    /// Tells whether the events of all slots and actors are wanted.
    pub(crate) fn is_of_all(&self) -> bool {
        self.slot.is_none() && self.actor.is_none()
    }

    /// Tells whether the outcome of this slot is wanted.
    pub(crate) fn has_end_of(&self, slot: u64) -> bool {
        !self.refused && self.actor.is_none() && (self.slot.is_none() || self.slot == Some(slot))
    }

    /// Tells whether it is wanted for whom this actor waits.
    pub(crate) fn has_wait_of(&self, actor: Actor) -> bool
        ensures { result ≡ wants_wait self.now actor }
    {
        match self.actor {
            Some(wanted) => wanted.same(&actor),
            None => self.slot.is_none() && !self.refused,
        }
    }

    /// Tells whether the event is by the wanted actor, or any actor is wanted.
    fn has_actor(&self, event: &Event) -> bool
        ensures { IsTrue result ↔ WantsActor self.now event.now }
    {
        match self.actor {
            Some(wanted) => wanted.same(&actor_of(event)),
            None => true,
        }
    }

    /// Tells whether a note is about the wanted slot, or any slot is wanted.
    fn has_slot(&self, notes: &[Note]) -> bool
        ensures { IsTrue result ↔ IfSome self.now.slot (λ slot. Any (λ note. slot_of note ≡ Some slot) notes.now) }
    {
        match self.slot {
            Some(wanted) => notes.iter().any(|note| is_slot(slot_of(note), wanted)),
            None => true,
        }
    }
}

/// Tells whether there is a slot and it is this one.
fn is_slot(slot: Option<u64>, wanted: u64) -> bool
    ensures { IsTrue result ↔ (slot ≡ Some wanted) }
{
    match slot {
        Some(slot) => slot == wanted,
        None => false,
    }
}

/// Returns the slot that the note is about; `None` if it is about no single slot.
fn slot_of(note: &Note) -> Option<u64>
    ensures { result ≡ slot_of note.now }
{
    match note {
        Note::Kept(kept) => Some(kept.chain.slot()),
        Note::Chain { slot, .. }
        | Note::Unproposed { slot, .. }
        | Note::Decided { slot, .. }
        | Note::Acted { slot, .. }
        | Note::Stale { slot, .. } => Some(*slot),
        Note::OtherRound { .. }
        | Note::Closed { .. }
        | Note::Held { .. }
        | Note::Vote { .. }
        | Note::NoVote { .. }
        | Note::Accepted { .. } => None,
    }
}
