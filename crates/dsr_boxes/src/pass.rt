ghost use Rattle.std.specs.Prelude.{◌≡◌, IfSome, IfNone, OnOk, OnErr, IsOkUnless};
ghost use Rattle.dsr_names.specs.Shape.{IsActor};
ghost use Rattle.dsr_names.specs.declared.refusal.Refusal.{Refusal};
ghost use Rattle.dsr_envelope.specs.declared.entry.Entry.TheVariants.{Post, Take};
ghost use Rattle.dsr_envelope.specs.Limits.{IsEnvelope};
ghost use Rattle.dsr_run.specs.OwnStep.{MayPost, HasPostsLeft};
ghost use Rattle.dsr_boxes.specs.Pass.{IsPassOf, IsInRun, with_entry, MayTake};

use crate::parcel::Parcel;
use crate::rule::Token;
use crate::shared_boxes::SharedBoxes;
use crate::steps::{EMPTY, FULL};
use dsr_names::{Actor, Refusal};
use std::marker::Model;
use std::sync::Wait;

/// The access token that one actor uses to post and to take. Each actor has one, and it is never copied.
#[derive(Drop)]
pub struct Pass {
    pub(crate) token: Token,
    pub(crate) actor: Actor,
}

impl Model for Pass {
    ghost use Rattle.std.specs.Prelude.{◌≡◌};
    ghost use Rattle.dsr_names.specs.Shape.{IsActor};
    ghost use Rattle.dsr_boxes.specs.Pass.{Pass, IsInRun};
    ghost use Rattle.dsr_boxes.specs.View.{log_in, resting};

    ghost Value = { Pass };

    ghost view = { λ p. record { id = p.token.table_id; shape = p.token.me.0.shape; actor = p.actor; log = log_in p.token.me.0.part } };

    ghost invariant = { λ p. (p.token.me ≡ resting p.token.me.0.shape p.actor (log_in p.token.me.0.part)) × IsActor p.token.me.0.shape p.actor
        × IsInRun p.token.me.0.shape p.actor (log_in p.token.me.0.part) };
}

impl Pass {
    /// Returns the actor. There is a run in which its log is that of this pass.
    pub fn actor(&self) -> &Actor
        ensures same { result.now ≡ self.now.actor }
        ensures inside { IsActor self.now.shape result.now }
        ensures run { IsInRun self.now.shape self.now.actor self.now.log }
    {
        &self.actor
    }

    /// Posts the parcel to the actor `to`, which is one step of a run. `BoxFull` if the box is not empty: the last envelope posted there was not
    /// taken, or its taker still empties the box. Then nothing is changed, and the parcel is dropped. It waits for nobody and allocates nothing.
    /// Requires that the own log allows the post.
    pub fn post(&mut self, boxes: &SharedBoxes, to: &Actor, parcel: Parcel) -> Result<(), Refusal>
        requires boxes { IsPassOf boxes.now self.old }
        requires to { IsActor self.old.shape to.now }
        requires conduct { MayPost self.old.shape self.old.actor self.old.log to.now parcel }
        requires few { HasPostsLeft self.old.log to.now }
        ensures posted { OnOk result (self.new ≡ with_entry self.old (Post to.now parcel)) }
        ensures full { OnErr result (self.new ≡ self.old) }
        ensures refusal { IsOkUnless result Refusal.BoxFull }
    {
        if !boxes.claim(&mut self.token, &self.actor, to) {
            return Err(Refusal::BoxFull);
        }
        boxes.publish(&mut self.token, &self.actor, to, parcel);
        boxes.wake_taker(&self.actor, to);
        Ok(())
    }

    /// Takes the envelope in the box from `from`, which is one step of a run. `None` if the box is not full: it is empty, or its poster still fills
    /// it. Then nothing is changed. It waits for nobody and allocates nothing. Requires that the own log allows the take.
    pub fn take(&mut self, boxes: &SharedBoxes, from: &Actor) -> Option<Parcel>
        requires boxes { IsPassOf boxes.now self.old }
        requires from { IsActor self.old.shape from.now }
        requires conduct { MayTake self.old.shape self.old.actor self.old.log from.now }
        ensures taken { IfSome result (λ parcel. self.new ≡ with_entry self.old (Take from.now parcel)) }
        ensures within { IfSome result IsEnvelope }
        ensures none { IfNone result (self.new ≡ self.old) }
    {
        if !boxes.fetch(&mut self.token, &self.actor, from) {
            return None;
        }
        let parcel = boxes.release(&mut self.token, &self.actor, from);
        boxes.wake_poster(from, &self.actor);
        Some(parcel)
    }

    /// Claims the own box to `to` and stops there, as a post that its thread never ends. Returns whether the box was empty, and so is claimed: then
    /// nobody can use it any more. For tests of what others can still do.
    pub fn claim_and_stop(self, boxes: &SharedBoxes, to: &Actor) -> bool
        requires boxes { IsPassOf boxes.now self }
        requires to { IsActor self.shape to.now }
    {
        let Pass { mut token, actor } = self;
        boxes.claim(&mut token, &actor, to)
    }

    /// Fetches the box from `from` and stops there, as a take that its thread never ends. Returns whether the box was full, and so is fetched: then
    /// nobody can use it any more. Requires that the own log allows the take. For tests of what others can still do.
    pub fn fetch_and_stop(self, boxes: &SharedBoxes, from: &Actor) -> bool
        requires boxes { IsPassOf boxes.now self }
        requires from { IsActor self.shape from.now }
        requires conduct { MayTake self.shape self.actor self.log from.now }
    {
        let Pass { mut token, actor } = self;
        boxes.fetch(&mut token, &actor, from)
    }

    /// Returns whether the own box to `to` looks empty. A look changes nothing, and costs less than a post that is refused; only a post shows whether
    /// the box is empty.
    pub fn looks_empty(&self, boxes: &SharedBoxes, to: &Actor) -> bool
        requires boxes { IsPassOf boxes.now self.now }
        requires to { IsActor self.now.shape to.now }
    {
        boxes.looks(&self.actor, to, EMPTY)
    }

    /// Returns whether the box from `from` looks full. A look changes nothing, and costs less than a take that finds nothing; only a take shows
    /// whether the box is full.
    pub fn looks_full(&self, boxes: &SharedBoxes, from: &Actor) -> bool
        requires boxes { IsPassOf boxes.now self.now }
        requires from { IsActor self.now.shape from.now }
    {
        boxes.looks(from, &self.actor, FULL)
    }

    /// Sleeps while the own box to `to` is not empty. It may return earlier. If `to` never takes, only `wake_all` or an early return ends the sleep.
    pub fn wait_to<R: Wait>(&self, rt: &R, boxes: &SharedBoxes, to: &Actor)
        requires boxes { IsPassOf boxes.now self.now }
        requires to { IsActor self.now.shape to.now }
    {
        boxes.sleep_until_empty(rt, &self.actor, to);
    }

    /// Sleeps while the box from `from` is not full. It may return earlier. If `from` never posts, only `wake_all` or an early return ends the sleep.
    pub fn wait_from<R: Wait>(&self, rt: &R, boxes: &SharedBoxes, from: &Actor)
        requires boxes { IsPassOf boxes.now self.now }
        requires from { IsActor self.now.shape from.now }
    {
        boxes.sleep_until_full(rt, from, &self.actor);
    }
}
