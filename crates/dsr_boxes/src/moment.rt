//! Moments: tokens without bytes that represent the run so far and that threads hand on. Whatever is done later, the run goes on from each moment. No
//! clause says that a moment is the present one: what `SharedBoxes::moment` ensures is true of a moment of no step too.

ghost use Rattle.std.specs.Prelude.{◌≡◌, length};
ghost use Rattle.dsr_base.specs.Growth.{Extends};
ghost use Rattle.dsr_names.specs.Places.{size};
ghost use Rattle.dsr_names.specs.Shape.{IsActor};
ghost use Rattle.dsr_envelope.specs.Log.{posted_to, taken_from};
ghost use Rattle.dsr_run.specs.Run.{IsRun};
ghost use Rattle.dsr_run.specs.Step.{log_of};
ghost use Rattle.dsr_boxes.specs.Box.{IsBoxIn};
ghost use Rattle.dsr_boxes.specs.Moment.{IsMomentOf, AreLogsAfter};
ghost use Rattle.dsr_boxes.specs.Pass.{IsPassOf, IsReturnedTo, logs_in};

use crate::box_state::BoxState;
use crate::pass::Pass;
use crate::returned::Returned;
use crate::rule::{Compare, Copy, LearnAll, Look, Meet, Recall, Remember, Remind, Show, Token};
use crate::shared_boxes::SharedBoxes;
use crate::steps::{EMPTY, EMPTYING, FILLING, FULL};
use dsr_names::Actor;
use std::marker::Model;

/// A moment of the boxes. It represents all steps taken up to it.
#[derive(Drop)]
pub struct Moment {
    pub(crate) token: Token,
}

impl Model for Moment {
    ghost use Rattle.std.specs.Prelude.{◌≡◌};
    ghost use Rattle.dsr_run.specs.Run.{IsRun};
    ghost use Rattle.dsr_boxes.specs.Moment.{Moment};
    ghost use Rattle.dsr_boxes.specs.View.{moment_in, looking_back};

    ghost Value = { Moment };

    ghost view = { λ m. record { id = m.token.table_id; shape = m.token.me.0.shape; run = moment_in m.token.me.0.part } };

    ghost invariant = { λ m. (m.token.me ≡ looking_back m.token.me.0.shape (moment_in m.token.me.0.part))
        × IsRun m.token.me.0.shape (moment_in m.token.me.0.part) };
}

impl SharedBoxes {
    /// Returns the present moment.
    pub fn moment(&self) -> Moment
        ensures boxes { IsMomentOf self.now result }
        ensures run { IsRun self.now.shape result.run }
    {
        // A token enters at a load; what it finds does not matter.
        let (_word, token) = self.memory.shared.load_new_seat::<Look>(0);
        Moment { token }
    }

    /// Looks at the box from `from` to `to`, and returns its state and the moment of this look. Requires actors of the shape.
    pub fn look_at(&self, from: &Actor, to: &Actor) -> (BoxState, Moment)
        requires from { IsActor self.now.shape from.now }
        requires to { IsActor self.now.shape to.now }
        ensures boxes { IsMomentOf self.now result.1 }
        ensures run { IsRun self.now.shape result.1.run }
        ensures state { IsBoxIn result.0 (posted_to to.now (log_of result.1.run from.now)) (taken_from from.now (log_of result.1.run to.now)) }
    {
        let word = self.word_of(from, to);
        let (found, token) = self.memory.shared.load_new_seat::<Look>(word);
        let state = match found {
            EMPTY => BoxState::Empty,
            FILLING => BoxState::BeingFilled,
            FULL => BoxState::Full,
            EMPTYING => BoxState::BeingEmptied,
            _ => unreachable!(),
        };
        (state, Moment { token })
    }

    /// Closes the boxes: the logs that came back are those of a run that goes on from the moment. Requires a moment of these boxes, and that the pass of
    /// each actor has come back to them.
    pub fn close_after(self, returned: Returned, moment: Moment)
        requires boxes { IsReturnedTo self returned }
        requires moment { IsMomentOf self moment }
        requires all { length returned.logs ≡ size self.shape }
        ensures run { AreLogsAfter self.shape moment.run (logs_in self.shape returned.logs) }
    {
        let mut returned = returned;
        let Moment { token: past } = moment;
        self.memory
            .shared
            .join_seat::<Remind>(&mut returned.token, past);
        self.memory.shared.load::<LearnAll>(&mut returned.token, 0);
    }
}

impl Pass {
    /// Returns the present moment, at which the actor's log is that of this pass. Requires a pass of these boxes.
    pub fn moment(&mut self, boxes: &SharedBoxes) -> Moment
        requires boxes { IsPassOf boxes.now self.old }
        ensures same { self.new ≡ self.old }
        ensures boxes { IsMomentOf boxes.now result }
        ensures run { IsRun boxes.now.shape result.run }
        ensures own { log_of result.run self.old.actor ≡ self.old.log }
    {
        boxes.memory.shared.load::<Remember>(&mut self.token, 0);
        let token = boxes.memory.shared.split_seat::<Show>(&mut self.token);
        Moment { token }
    }

    /// Shows the pass a moment, which is past from then on: the actor's log at that moment is the oldest part of the log of this pass, at most all of
    /// it. Requires a pass and a moment of these boxes.
    pub fn recall(&mut self, boxes: &SharedBoxes, moment: Moment)
        requires boxes { IsPassOf boxes.now self.old }
        requires moment { IsMomentOf boxes.now moment }
        ensures same { self.new ≡ self.old }
        ensures past { Extends self.old.log (log_of moment.run self.old.actor) }
    {
        let Moment { token } = moment;
        boxes
            .memory
            .shared
            .join_seat::<Recall>(&mut self.token, token);
        boxes.memory.shared.load::<Compare>(&mut self.token, 0);
    }
}

impl Moment {
    /// Returns a copy of this moment, for another thread. Requires a moment of these boxes.
    pub fn copy(&mut self, boxes: &SharedBoxes) -> Moment
        requires boxes { IsMomentOf boxes.now self.old }
        ensures same { self.new ≡ self.old }
        ensures copy { result ≡ self.old }
    {
        let token = boxes.memory.shared.split_seat::<Copy>(&mut self.token);
        Moment { token }
    }

    /// Replaces this moment by the present one, which goes on from this moment and from `other`. Requires moments of these boxes.
    pub fn meet(&mut self, boxes: &SharedBoxes, other: Moment)
        requires boxes { IsMomentOf boxes.now self.old }
        requires other { IsMomentOf boxes.now other }
        ensures boxes { IsMomentOf boxes.now self.new }
        ensures run { IsRun boxes.now.shape self.new.run }
        ensures own { Extends self.new.run self.old.run }
        ensures other { Extends self.new.run other.run }
    {
        let Moment { token } = other;
        boxes
            .memory
            .shared
            .join_seat::<Remind>(&mut self.token, token);
        boxes.memory.shared.load::<Meet>(&mut self.token, 0);
    }
}
