//! The steps on a box; each changes one word. A poster claims an empty box and publishes it; a taker fetches a full box and releases it.
//! After a claim or a fetch nothing can fail.

ghost use Rattle.std.specs.Prelude.{◌≡◌, ◌∷◌, None, Some};
ghost use Rattle.std.specs.Bool.{OnTrue, OnFalse};
ghost use Rattle.dsr_names.specs.Shape.{IsActor};
ghost use Rattle.dsr_envelope.specs.declared.envelope.Envelope.{Envelope};
ghost use Rattle.dsr_envelope.specs.declared.entry.Entry.TheVariants.{Post, Take};
ghost use Rattle.dsr_envelope.specs.Limits.{IsEnvelope};
ghost use Rattle.dsr_run.specs.OwnStep.{MayPost, HasPostsLeft};
ghost use Rattle.dsr_boxes.specs.Pass.{IsInRun, MayTake};
ghost use Rattle.dsr_boxes.specs.View.{log_in, resting, filling, emptying};

use crate::parcel::Parcel;
use crate::rule::{Claim, Fetch, Publish, Release, Token};
use crate::shared_boxes::SharedBoxes;
use dsr_names::Actor;

/// The word of a box that holds nothing.
pub(crate) const EMPTY: u64 = 0;
/// The word of a box that its poster fills.
pub(crate) const FILLING: u64 = 1;
/// The word of a box that holds an envelope.
pub(crate) const FULL: u64 = 2;
/// The word of a box that its taker empties.
pub(crate) const EMPTYING: u64 = 3;

impl SharedBoxes {
    /// Claims the own box to `to`, and returns true if it was empty: then only this token can use it, until it publishes.
    pub(crate) fn claim(&self, token: &mut Token, me: &Actor, to: &Actor) -> bool
        requires id { token.old.table_id ≡ self.now.id }
        requires me { IsActor self.now.shape me.now }
        requires to { IsActor self.now.shape to.now }
        requires rests { token.old.me ≡ resting self.now.shape me.now (log_in token.old.me.0.part) }
        ensures id { token.new.table_id ≡ token.old.table_id }
        ensures claimed { OnTrue result (token.new.me ≡ filling self.now.shape me.now (log_in token.old.me.0.part) to.now None) }
        ensures missed { OnFalse result (token.new.me ≡ token.old.me) }
    {
        let word = self.word_of(me, to);
        let found = self
            .memory
            .shared
            .compare_exchange::<Claim>(token, word, EMPTY, FILLING);
        found == EMPTY
    }

    /// Puts the parcel into the claimed box and publishes it: this is the post. Requires that the post may be next by the own log.
    pub(crate) fn publish(&self, token: &mut Token, me: &Actor, to: &Actor, parcel: Parcel)
        requires id { token.old.table_id ≡ self.now.id }
        requires me { IsActor self.now.shape me.now }
        requires to { IsActor self.now.shape to.now }
        requires fills { token.old.me ≡ filling self.now.shape me.now (log_in token.old.me.0.part) to.now None }
        requires conduct { MayPost self.now.shape me.now (log_in token.old.me.0.part) to.now parcel }
        requires few { HasPostsLeft (log_in token.old.me.0.part) to.now }
        ensures id { token.new.table_id ≡ token.old.table_id }
        ensures posted { token.new.me ≡ resting self.now.shape me.now (Post to.now parcel ∷ log_in token.old.me.0.part) }
        ensures run { IsInRun self.now.shape me.now (Post to.now parcel ∷ log_in token.old.me.0.part) }
    {
        let nothing = self
            .memory
            .shared
            .exchange(token, self.slot_of(me, to), Some(parcel));
        drop(nothing);
        let word = self.word_of(me, to);
        // It finds what the claim wrote: nobody else changes the word of a claimed box.
        self.memory
            .shared
            .compare_exchange::<Publish>(token, word, FILLING, FULL);
    }

    /// Fetches the box from `from`, and returns true if it was full: this is the take. Then only this token can use the box, until it
    /// releases it. Requires that the take may be next by the own log.
    pub(crate) fn fetch(&self, token: &mut Token, me: &Actor, from: &Actor) -> bool
        requires id { token.old.table_id ≡ self.now.id }
        requires me { IsActor self.now.shape me.now }
        requires from { IsActor self.now.shape from.now }
        requires rests { token.old.me ≡ resting self.now.shape me.now (log_in token.old.me.0.part) }
        requires conduct { MayTake self.now.shape me.now (log_in token.old.me.0.part) from.now }
        ensures id { token.new.table_id ≡ token.old.table_id }
        ensures fetched { OnTrue result ((envelope : Envelope) × IsEnvelope envelope
            × (token.new.me ≡ emptying self.now.shape me.now (Take from.now envelope ∷ log_in token.old.me.0.part) from.now (Some envelope))
            × IsInRun self.now.shape me.now (Take from.now envelope ∷ log_in token.old.me.0.part)) }
        ensures missed { OnFalse result (token.new.me ≡ token.old.me) }
    {
        let word = self.word_of(from, me);
        let found = self
            .memory
            .shared
            .compare_exchange::<Fetch>(token, word, FULL, EMPTYING);
        found == FULL
    }

    /// Takes the parcel out of the fetched box, and releases the box.
    pub(crate) fn release(&self, token: &mut Token, me: &Actor, from: &Actor) -> Parcel
        requires id { token.old.table_id ≡ self.now.id }
        requires me { IsActor self.now.shape me.now }
        requires from { IsActor self.now.shape from.now }
        requires full { (envelope : Envelope)
            × (token.old.me ≡ emptying self.now.shape me.now (log_in token.old.me.0.part) from.now (Some envelope)) }
        ensures id { token.new.table_id ≡ token.old.table_id }
        ensures taken { token.old.me ≡ emptying self.now.shape me.now (log_in token.old.me.0.part) from.now (Some result) }
        ensures released { token.new.me ≡ resting self.now.shape me.now (log_in token.old.me.0.part) }
    {
        let content = self
            .memory
            .shared
            .exchange(token, self.slot_of(from, me), None);
        let Some(parcel) = content else {
            unreachable!()
        };
        let word = self.word_of(from, me);
        // It finds what the fetch wrote: nobody else changes the word of a fetched box.
        self.memory
            .shared
            .compare_exchange::<Release>(token, word, EMPTYING, EMPTY);
        parcel
    }
}
