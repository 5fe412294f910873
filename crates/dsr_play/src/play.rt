ghost use Rattle.std.specs.Prelude.{◌≡◌, ◌↔◌, ◌≤◌, ◌++◌, length, IfOk, IfErr, OnOk, IsTrue, IsOkUnless};
ghost use Rattle.dsr_play.specs.PlayText.{events_of};
ghost use Rattle.dsr_play.specs.Play.{Play as APlay, Spells, IsPlayRefusal};

use crate::event::Event;
use crate::play_events::TakesEvents;
use crate::play_line::PlayLine;
use dsr_names::{Refusal, Shape};
use dsr_text::{TakesLines, read_header, take_lines};
use std::alloc::Global;
use std::marker::Model;
use std::mem::forget;

/// The most events of a play.
pub const MOST_EVENTS: usize = 1_000_000;

/// What is to happen in one world: its shape, and the events, in order.
#[derive(Drop)]
pub struct Play {
    shape: Shape,
    events: Vec<Event>,
}

impl Model for Play {
    ghost use Rattle.dsr_play.specs.Play.{Play};
    ghost use Rattle.std.specs.Prelude.{◌≤◌, length};

    ghost Value = { Play };

    ghost view = { λ p. record { shape = p.shape; events = p.events.items } };

    ghost invariant = { λ p. length p.events.items ≤ 1000000 };
}

impl Play {
    /// Reads a play: a header `dsr-play 1 SHAPE`, then lines of one event or several each.
    ///
    /// `BadShape` if the header's shape is outside the limits, whatever follows it. `BadText` names the first bad line, counted
    /// from 1: a line that does not fit this grammar, that has no line feed, or that makes the events more than 1,000,000.
    /// `NoMemory` if memory runs out.
    pub fn read(alloc: Global, text: &[u8]) -> Result<Play, Refusal>
        ensures play { IfOk result (Spells text.now) }
        ensures refused { IfErr result (IsPlayRefusal text.now) }
        ensures when { (other : APlay) → Spells text.now other → IsOkUnless result Refusal.NoMemory }
        ensures only { (other : APlay) → Spells text.now other → IfOk result (λ play. play ≡ other) }
    {
        let header = match read_header(b"dsr-play 1".as_slice(), text) {
            Ok(header) => header,
            Err(refusal) => return Err(refusal),
        };
        let mut reading = Reading {
            shape: header.shape,
            events: Vec::new(alloc),
        };
        match take_lines(&mut reading, alloc, header.rest) {
            Ok(()) => Ok(reading.into_play()),
            Err(refusal) => Err(refusal),
        }
    }

    /// Returns the shape.
    pub fn shape(&self) -> Shape
        ensures { result ≡ self.now.shape }
    {
        self.shape
    }

    /// Returns the events, in order: at most 1,000,000.
    pub fn events(&self) -> &[Event]
        ensures same { result.now ≡ self.now.events }
        ensures few { length result.now ≤ 1000000 }
    {
        self.events.as_slice()
    }

    /// Leaves the play in memory, which is never freed then. This is for a program that ends soon, since to free a long play takes a while.
    pub fn leave(self) {
        forget(self);
    }
}

/// A play while its lines are read: its shape, and the events of the lines so far.
#[derive(Drop)]
struct Reading {
    shape: Shape,
    events: Vec<Event>,
}

impl Model for Reading {
    ghost use Rattle.dsr_play.specs.Play.{Play};

    ghost Value = { Play };

    ghost view = { λ r. record { shape = r.shape; events = r.events.items } };
}

impl Reading {
    /// Returns the play. Requires that its events are at most 1,000,000.
    fn into_play(self) -> Play
        requires { length self.events ≤ 1000000 }
        ensures { result ≡ self }
    {
        Play {
            shape: self.shape,
            events: self.events,
        }
    }

    /// Takes in the events that the line represents, and returns whether the events are then at most 1,000,000. If they are more,
    /// no play has them. `NoMemory` if memory runs out.
    fn add(&mut self, alloc: Global, line: PlayLine) -> Result<bool, Refusal>
        ensures taken { OnOk result (self.new.events ≡ self.old.events ++ events_of self.old.shape line) }
        ensures when { IfOk result (λ can. IsTrue can ↔ length (self.old.events ++ events_of self.old.shape line) ≤ 1000000) }
        ensures shape { self.new.shape ≡ self.old.shape }
        ensures refusal { IsOkUnless result Refusal.NoMemory }
    {
        let shape = self.shape;
        line.give_events(alloc, &shape, self)?;
        Ok(self.events.len() <= MOST_EVENTS)
    }
}

impl TakesEvents for Reading {
    ghost use Rattle.std.specs.Prelude.{◌≡◌};

    ghost shape = { λ play. play.shape };

    ghost took = { λ play events. play.events ≡ events };

    fn take_event(&mut self, _alloc: Global, event: Event) -> Result<(), Refusal> {
        match self.events.push(event) {
            Ok(()) => Ok(()),
            Err(_) => Err(Refusal::NoMemory),
        }
    }
}

impl TakesLines for Reading {
    type Line = PlayLine;

    ghost use Rattle.std.specs.Prelude.{◌≡◌};
    ghost use Rattle.dsr_play.specs.PlayText.{all_events, plays};

    ghost kind = { plays };

    ghost shape = { λ play. play.shape };

    ghost gives = { λ play lines. play.events ≡ all_events play.shape lines };

    fn read_line(&mut self, alloc: Global, bytes: &[u8]) -> Result<Option<PlayLine>, Refusal> {
        PlayLine::read(alloc, bytes)
    }

    fn take(&mut self, alloc: Global, line: PlayLine) -> Result<bool, Refusal> {
        self.add(alloc, line)
    }
}
