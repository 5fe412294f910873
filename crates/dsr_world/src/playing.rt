ghost use Rattle.std.specs.Prelude.{◌≡◌, ◌↔◌, ◌≤◌, ◌+◌, ◌∷◌, [], List, IfOk, IfErr, IsTrue, IsOkUnless};
ghost use Rattle.dsr_play.specs.Play.{IsPlayRefusal};
ghost use Rattle.dsr_play.specs.PlayText.{CanFollow};
ghost use Rattle.dsr_play.specs.TakenEvents.{TakesMore};
ghost use Rattle.dsr_play.specs.declared.play_line.PlayLine.{PlayLine as ALine};
ghost use Rattle.dsr_run.specs.Agreement.{HasAgreement};
ghost use Rattle.dsr_run.specs.Right.{IsRight};
ghost use Rattle.dsr_run.specs.Run.{IsRun};
ghost use Rattle.dsr_world.specs.Playing.{WasPlayed};
ghost use Rattle.dsr_world.specs.Support.PlayingFields.{Gives, Took};

use crate::entries::Entries;
use crate::run_end::RunEnd;
use crate::stage::Stage;
use dsr_names::{Refusal, Shape};
use dsr_play::{Event, MOST_EVENTS, PlayLine, TakesEvents};
use dsr_text::{TakesLines, read_header, take_lines};
use std::alloc::Global;
use std::marker::Model;

/// A stage on which the events of a play happened, and how they ended.
#[derive(Drop)]
pub struct Played {
    /// The stage after the last event.
    pub stage: Stage,
    /// How many events were done and refused.
    pub end: RunEnd,
}

/// Reads a play, as `Play::read` does, and makes each event happen on a new stage as soon as its line is read: one event at a time is in
/// memory. Refused events are skipped; if memory runs out for an event, it is refused with `NoMemory`, and
/// counted in `starved` too.
///
/// `BadShape` if the header's shape is outside the limits, whatever follows it. `BadText` names the first bad line, counted from 1: a
/// line that does not fit the grammar, that has no line feed, or that makes the events more than 1,000,000. `NoMemory` if memory runs
/// out for the stage or for what a line is read into. After a refusal nothing is left of the stage.
pub fn play_text(alloc: Global, text: &[u8]) -> Result<Played, Refusal>
    ensures played { IfOk result (λ played. WasPlayed text.now played.stage.shape played.stage.run played.end) }
    ensures run { IfOk result (λ played. IsRun played.stage.shape played.stage.run) }
    ensures agreement { IfOk result (λ played. HasAgreement played.stage.shape played.stage.run) }
    ensures right { IfOk result (λ played. IsRight played.stage.shape played.stage.run) }
    ensures refused { IfErr result (IsPlayRefusal text.now) }
{
    let header = match read_header(b"dsr-play 1".as_slice(), text) {
        Ok(header) => header,
        Err(refusal) => return Err(refusal),
    };
    let mut playing = Playing::new(alloc, header.shape)?;
    match take_lines(&mut playing, alloc, header.rest) {
        Ok(()) => Ok(playing.into_played()),
        Err(refusal) => Err(refusal),
    }
}

/// A play while its lines are read and played: the stage, how the events so far ended, and a list of entries that keeps no step.
/// Contracts see it as the stage and the end.
#[derive(Drop)]
struct Playing {
    stage: Stage,
    end: RunEnd,
    nothing: Entries,
}

impl Model for Playing {
    ghost use Rattle.dsr_world.specs.declared.playing.Played.{Played};

    ghost Value = { Played };

    ghost use Rattle.dsr_world.specs.Support.PlayingFields.{played_of, IsPlayingFields};

    ghost view = { played_of };

    ghost invariant = { IsPlayingFields };
}

impl Playing {
    /// Opens the stage of this shape, before any event. `NoMemory` if memory runs out.
    fn new(alloc: Global, shape: Shape) -> Result<Playing, Refusal>
        ensures shape { IfOk result (λ playing. playing.stage.shape ≡ shape) }
        ensures none { IfOk result (λ playing. Gives playing []) }
        ensures refusal { IsOkUnless result Refusal.NoMemory }
    {
        let stage = Stage::open(alloc, shape)?;
        Ok(Playing {
            stage,
            end: RunEnd::new(),
            nothing: Entries::not_kept(alloc),
        })
    }

    /// Makes the events of the line happen, and returns whether the events are then at most 1,000,000. If they are more, no play has them.
    /// `NoMemory` if there is no memory for an event: then some of them may have happened.
    fn play(&mut self, alloc: Global, line: PlayLine) -> Result<bool, Refusal>
        ensures taken { IfOk result (λ can. IsTrue can → (lines : List ALine) → Gives self.old lines → Gives self.new (line ∷ lines)) }
        ensures when { IfOk result (λ can. (lines : List ALine) → Gives self.old lines → IsTrue can ↔ CanFollow self.old.stage.shape lines line) }
        ensures shape { self.new.stage.shape ≡ self.old.stage.shape }
        ensures refusal { IsOkUnless result Refusal.NoMemory }
    {
        let shape = *self.stage.shape();
        line.give_events(alloc, &shape, self)?;
        Ok(self.has_room())
    }

    /// Makes the event happen, and counts how it ended. After more than 1,000,000 events it does nothing, since no play has them.
    #[inline(always)]
    fn happen(&mut self, alloc: Global, event: &Event)
        ensures took { TakesMore Took self.old self.new (event.now ∷ []) }
        ensures shape { self.new.stage.shape ≡ self.old.stage.shape }
    {
        if !self.has_room() {
            return;
        }
        let outcome = self.stage.step_in(alloc, event, &mut self.nothing).err();
        self.end.add(outcome);
    }

    /// Returns whether at most 1,000,000 events happened.
    fn has_room(&self) -> bool
        ensures { IsTrue result ↔ self.now.end.done + self.now.end.refused ≤ 1000000 }
    {
        self.end.done + self.end.refused <= MOST_EVENTS as u64
    }

    /// Returns the stage and how the events ended.
    fn into_played(self) -> Played
        ensures same { result ≡ self }
        ensures run { IsRun self.stage.shape self.stage.run }
        ensures agreement { HasAgreement self.stage.shape self.stage.run }
        ensures right { IsRight self.stage.shape self.stage.run }
    {
        // For the proof: the steps are a run, and at most f replicas are traitors.
        self.stage.steps_are_a_run();
        let _n = self.stage.shape().n();
        Played {
            stage: self.stage,
            end: self.end,
        }
    }
}

impl TakesEvents for Playing {
    ghost shape = { λ played. played.stage.shape };

    ghost took = { Took };

    #[inline(always)]
    fn take_event(&mut self, alloc: Global, event: Event) -> Result<(), Refusal> {
        self.happen(alloc, &event);
        Ok(())
    }
}

impl TakesLines for Playing {
    type Line = PlayLine;

    ghost use Rattle.dsr_play.specs.PlayText.{plays};
    ghost use Rattle.dsr_world.specs.Support.PlayingFields.{Gives, Took};

    ghost kind = { plays };

    ghost shape = { λ played. played.stage.shape };

    ghost gives = { Gives };

    fn read_line(&mut self, alloc: Global, bytes: &[u8]) -> Result<Option<PlayLine>, Refusal> {
        PlayLine::read(alloc, bytes)
    }

    fn take(&mut self, alloc: Global, line: PlayLine) -> Result<bool, Refusal> {
        self.play(alloc, line)
    }
}
