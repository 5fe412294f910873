ghost use Rattle.std.specs.Prelude.{◌≡◌, [], ◌∷◌, length};
ghost use Rattle.dsr_names.specs.Places.{size, place_of};
ghost use Rattle.dsr_run.specs.Run.{AreLogs};
ghost use Rattle.dsr_boxes.specs.Pass.{IsPassOf, IsReturnedTo, logs_in};
ghost use Rattle.dsr_boxes.specs.View.{keeping};

use crate::pass::Pass;
use crate::rule::{Enter, Gather, Learn, Token};
use crate::shared_boxes::SharedBoxes;
use std::marker::Model;

/// The passes that came back; `close` needs those of all actors. It represents their logs.
#[derive(Drop)]
pub struct Returned {
    pub(crate) token: Token,
}

impl Model for Returned {
    ghost use Rattle.std.specs.Prelude.{◌≡◌, []};
    ghost use Rattle.dsr_boxes.specs.Pass.{Returned};
    ghost use Rattle.dsr_boxes.specs.View.{keeping, logs_kept};

    ghost Value = { Returned };

    ghost view = { λ r. record { id = r.token.table_id; shape = r.token.me.0.shape; logs = logs_kept r.token.me.0.part } };

    ghost invariant = { λ r. r.token.me ≡ (keeping r.token.me.0.shape (logs_kept r.token.me.0.part), []) };
}

impl SharedBoxes {
    /// Makes a `Returned` to which no pass has come back yet.
    pub fn none_returned(&self) -> Returned
        ensures boxes { IsReturnedTo self.now result }
        ensures none { result.logs ≡ [] }
    {
        // A token enters at a load; what it finds does not matter.
        let (_word, token) = self.memory.shared.load_new_seat::<Enter>(0);
        Returned { token }
    }

    /// Closes the boxes and drops the envelopes that were not taken. The logs that came back are those of a run. Requires that the pass of each
    /// actor has come back to these boxes.
    pub fn close(self, returned: Returned)
        requires boxes { IsReturnedTo self returned }
        requires all { length returned.logs ≡ size self.shape }
        ensures run { AreLogs self.shape (logs_in self.shape returned.logs) }
    {
        let mut returned = returned;
        // At this load the rule holds, and the token has all logs: so the load shows that they are those of a run.
        self.memory.shared.load::<Learn>(&mut returned.token, 0);
    }
}

impl Returned {
    /// Takes back the pass of the actor of the next place. Requires a pass of these boxes.
    pub fn take_back(&mut self, boxes: &SharedBoxes, pass: Pass)
        requires boxes { IsReturnedTo boxes.now self.old }
        requires pass { IsPassOf boxes.now pass }
        requires next { place_of boxes.now.shape pass.actor ≡ length self.old.logs }
        ensures boxes { IsReturnedTo boxes.now self.new }
        ensures logs { self.new.logs ≡ pass.log ∷ self.old.logs }
    {
        let Pass { token, actor: _ } = pass;
        boxes
            .memory
            .shared
            .join_seat::<Gather>(&mut self.token, token);
    }
}
