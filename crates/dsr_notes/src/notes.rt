//! The notes of an event, which remember whether memory ran out.

ghost use Rattle.std.specs.Prelude.{◌≡◌, ◌∷◌, [], true};
ghost use Rattle.dsr_notes.specs.Noting.{Adds, no_notes};

use crate::note::Note;
use std::alloc::Global;
use std::marker::Model;

/// What came of an event. If memory runs out for one of the notes, they remember it: then they are not all, and `step_noted` refuses once, at the end.
#[derive(Drop)]
pub struct Notes {
    items: Vec<Note>,
    /// Whether memory ran out: then the notes are not all.
    is_broken: bool,
}

impl Model for Notes {
    ghost use Rattle.dsr_notes.specs.Noting.{Notes};

    ghost Value = { Notes };

    ghost view = { λ notes. record { items = notes.items.items; is_broken = notes.is_broken } };
}

impl Notes {
    /// Creates an empty list of notes.
    pub fn new(alloc: Global) -> Notes
        ensures { result ≡ no_notes }
    {
        Notes {
            items: Vec::new(alloc),
            is_broken: false,
        }
    }

    /// Returns the notes in their order.
    pub fn as_slice(&self) -> &[Note]
        ensures value { result.now ≡ self.now.items }
    {
        self.items.as_slice()
    }

    /// Removes all notes, and forgets that memory ran out.
    pub(crate) fn clear(&mut self)
        ensures { self.new ≡ no_notes }
    {
        self.items.clear();
        self.is_broken = false;
    }

    /// Adds the note.
    pub(crate) fn add(&mut self, note: Note)
        ensures { Adds self.old self.new (note ∷ []) }
    {
        if self.items.push(note).is_err() {
            self.is_broken = true;
        }
    }

    /// Remembers that memory ran out.
    pub(crate) fn break_off(&mut self)
        ensures { self.new.is_broken ≡ true }
    {
        self.is_broken = true;
    }

    /// Tells whether memory ran out.
    pub(crate) fn is_broken(&self) -> bool
        ensures { result ≡ self.now.is_broken }
    {
        self.is_broken
    }
}
