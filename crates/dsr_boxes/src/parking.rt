//! How actors look at a box, sleep until it is in the wanted state, and wake each other. None of this changes a box, and no contract says anything
//! about it.
//!
//! A waiter first looks a few times, because to sleep and be woken takes longer than most waits. A sleeper first notes at its own place the word
//! on which it sleeps; then the system looks whether the word is still as the sleeper found it, and lets it sleep only then. An actor that
//! publishes or releases looks afterwards whether the actor at the box's other end has noted that word. Words, notes and the system's look have
//! one order: so either the change comes before the system's look, and the sleeper does not sleep, or the note comes before the changer's look,
//! and the sleeper is woken. No wake by a post or a take is lost. This needs three more facts. A poster waits while the word is 2 or 3, a taker
//! while it is 0 or 1: a claim and a fetch end neither wait, so they need not look. The word cannot return to what was found unless the sleeper
//! itself acts. And a place has one writer, because threads do not share a pass. If the box's other end does not sleep on it, a wake is one load.

ghost use Rattle.std.specs.Prelude.{◌≡◌, ◌<◌};
ghost use Rattle.dsr_names.specs.Places.{size};
ghost use Rattle.dsr_names.specs.Shape.{IsActor};

use crate::shared_boxes::SharedBoxes;
use crate::steps::{EMPTY, FULL};
use dsr_names::Actor;
use std::hint::spin_loop;
use std::sync::Wait;
use std::sync::atomic::Ordering::SeqCst;

/// The note of an actor that does not sleep. Word 0 exists but belongs to no box.
const AWAKE: u64 = 0;

/// How many times a waiter looks at a word before it prepares to sleep.
const LOOKS: u32 = 50;

impl SharedBoxes {
    /// Returns whether the word of a box is `wanted` at one look.
    pub(crate) fn looks(&self, poster: &Actor, taker: &Actor, wanted: u64) -> bool
        requires poster { IsActor self.now.shape poster.now }
        requires taker { IsActor self.now.shape taker.now }
    {
        let word = self.word_of(poster, taker);
        self.memory.shared.peek(word) == wanted
    }

    /// Puts the poster to sleep unless its box to the taker is empty. It may wake before the box is empty.
    pub(crate) fn sleep_until_empty<R: Wait>(&self, rt: &R, poster: &Actor, taker: &Actor)
        requires poster { IsActor self.now.shape poster.now }
        requires taker { IsActor self.now.shape taker.now }
    {
        let word = self.word_of(poster, taker);
        self.sleep_unless(rt, poster, word, EMPTY);
    }

    /// Puts the taker to sleep unless the poster's box to it is full. It may wake before the box is full.
    pub(crate) fn sleep_until_full<R: Wait>(&self, rt: &R, poster: &Actor, taker: &Actor)
        requires poster { IsActor self.now.shape poster.now }
        requires taker { IsActor self.now.shape taker.now }
    {
        let word = self.word_of(poster, taker);
        self.sleep_unless(rt, taker, word, FULL);
    }

    /// Wakes the taker of a box if it sleeps there.
    pub(crate) fn wake_taker(&self, poster: &Actor, taker: &Actor)
        requires poster { IsActor self.now.shape poster.now }
        requires taker { IsActor self.now.shape taker.now }
    {
        let word = self.word_of(poster, taker);
        self.wake_at(taker, word);
    }

    /// Wakes the poster of a box if it sleeps there.
    pub(crate) fn wake_poster(&self, poster: &Actor, taker: &Actor)
        requires poster { IsActor self.now.shape poster.now }
        requires taker { IsActor self.now.shape taker.now }
    {
        let word = self.word_of(poster, taker);
        self.wake_at(poster, word);
    }

    /// Wakes every actor that sleeps on a box now. It changes no word, so it may miss an actor that is about to sleep: to end others, call it
    /// again until they have ended.
    pub fn wake_all(&self) {
        for sleeper in self.sleepers.as_slice() {
            let word = sleeper.load(SeqCst) as usize;
            if word != AWAKE as usize && word < self.memory.word_count() {
                self.memory.shared.wake_all(word);
            }
        }
    }

    /// Puts the actor to sleep until a wake, unless a look finds the word `wanted` or the word changes before the actor sleeps.
    fn sleep_unless<R: Wait>(&self, rt: &R, sleeper: &Actor, word: usize, wanted: u64)
        requires sleeper { IsActor self.now.shape sleeper.now }
        requires word { word < self.now.id.words }
    {
        if self.comes_to(word, wanted) {
            return;
        }
        let found = self.memory.shared.peek(word);
        if found == wanted {
            return;
        }
        let place = self.shape.place(sleeper);
        self.sleepers[place].store(word as u64, SeqCst);
        // A word is at most 3, so that its low half is all of it.
        self.memory.shared.park(rt, word, (found % 4) as u32);
        self.sleepers[place].store(AWAKE, SeqCst);
    }

    /// Returns whether one of a few looks finds the word `wanted`.
    fn comes_to(&self, word: usize, wanted: u64) -> bool
        requires { word < self.now.id.words }
    {
        for _ in 0..LOOKS {
            if self.memory.shared.peek(word) == wanted {
                return true;
            }
            spin_loop();
        }
        false
    }

    /// Wakes the actor if it sleeps on this word.
    fn wake_at(&self, sleeper: &Actor, word: usize)
        requires sleeper { IsActor self.now.shape sleeper.now }
        requires word { word < self.now.id.words }
    {
        let place = self.shape.place(sleeper);
        if self.sleepers[place].load(SeqCst) == word as u64 {
            self.memory.shared.wake_all(word);
        }
    }
}
