ghost use Rattle.std.specs.Prelude.{◌≡◌, ◌⊎◌, ℕ, ◌<◌, [], ◌∷◌, List, vec_len, vec_capacity, reverse, IfOk, IfErr, IfSome, IfNone, IsOk, OnOk, OnErr, IsOkUnless, None, Some, Ok, Err};
ghost use Rattle.dsr_base.specs.Growth.{Extends};
ghost use Rattle.dsr_names.specs.Shape.{IsActor};
ghost use Rattle.dsr_names.specs.declared.refusal.Refusal.{Refusal};
ghost use Rattle.dsr_names.specs.declared.actor.Actor.TheVariants.{Replica};
ghost use Rattle.dsr_envelope.specs.declared.entry.Entry.{Entry as AnEntry};
ghost use Rattle.dsr_envelope.specs.declared.entry.Entry.TheVariants.{Post, Take};
ghost use Rattle.dsr_envelope.specs.Limits.{IsEnvelope};
ghost use Rattle.dsr_run.specs.OwnStep.{MayPost, HasPostsLeft};
ghost use Rattle.dsr_run.specs.Run.{IsRun};
ghost use Rattle.dsr_run.specs.Step.{log_of};
ghost use Rattle.dsr_boxes.specs.Moment.{IsMomentOf};
ghost use Rattle.dsr_boxes.specs.Pass.{IsPassOf, IsInRun, with_entry, MayTake};
ghost use Rattle.dsr_mail.specs.Refusals.{is_spent, wait_refused};

use crate::log::Log;
use dsr_boxes::{Moment, Parcel, Pass, SharedBoxes};
use dsr_envelope::{Entry, Envelope};
use dsr_names::{Actor, ClientId, NUMBER_END, Refusal, ReplicaId, Shape};
use std::alloc::Global;
use std::marker::Model;
use std::sync::Wait;

/// What an actor of any kind has at the mail: its pass, its log, and how many envelopes it posted to each actor.
#[derive(Drop)]
pub(crate) struct Seat {
    pass: Pass,
    shape: Shape,
    entries: Vec<Entry>,
    /// How many envelopes it posted to each actor, by that actor's place.
    posts: Vec<u64>,
}

impl Model for Seat {
    ghost use Rattle.std.specs.Prelude.{◌≡◌, reverse};
    ghost use Rattle.dsr_boxes.specs.Pass.{Pass};
    ghost use Rattle.dsr_mail.specs.Counts.{AreCounts};

    ghost Value = { Pass };

    ghost view = { λ s. s.pass };

    ghost invariant = { λ s. (s.shape ≡ s.pass.shape) × (reverse s.entries.items ≡ s.pass.log) × AreCounts s.pass.shape s.pass.log s.posts.items };
}

impl Seat {
    /// Creates the seat of the pass's actor, which has done nothing yet. `NoMemory` if memory runs out: then the pass is dropped.
    pub(crate) fn new(alloc: Global, pass: Pass, shape: Shape) -> Result<Seat, Refusal>
        requires shape { pass.shape ≡ shape }
        requires first { pass.log ≡ [] }
        ensures same { IfOk result (λ seat. seat ≡ pass) }
        ensures refusal { IsOkUnless result Refusal.NoMemory }
    {
        let posts = vec![in alloc; 0; shape.size()]?;
        Ok(Seat {
            pass,
            shape,
            entries: Vec::new(alloc),
            posts,
        })
    }

    pub(crate) fn shape(&self) -> &Shape
        ensures { result.now ≡ self.now.shape }
    {
        &self.shape
    }

    /// Returns the actor. There is a run in which its log is that of this seat.
    pub(crate) fn actor(&self) -> &Actor
        ensures same { result.now ≡ self.now.actor }
        ensures inside { IsActor self.now.shape result.now }
        ensures run { IsInRun self.now.shape self.now.actor self.now.log }
    {
        self.pass.actor()
    }

    /// Tells whether no post to this actor is left: it has posted 2^40 - 1 envelopes to it. Requires an actor of the shape.
    pub(crate) fn is_spent(&self, to: &Actor) -> bool
        requires { IsActor self.now.shape to.now }
        ensures { result ≡ is_spent self.now.log to.now }
    {
        let posts = self.posts[self.shape.place(to)];
        posts >= NUMBER_END - 1
    }

    /// Tells whether the own box to `to` looks empty; only a post shows whether it is.
    pub(crate) fn looks_empty(&self, boxes: &SharedBoxes, to: &Actor) -> bool
        requires boxes { IsPassOf boxes.now self.now }
        requires to { IsActor self.now.shape to.now }
    {
        self.pass.looks_empty(boxes, to)
    }

    /// Tells whether the box from `from` looks full; only a take shows whether it is.
    pub(crate) fn looks_full(&self, boxes: &SharedBoxes, from: &Actor) -> bool
        requires boxes { IsPassOf boxes.now self.now }
        requires from { IsActor self.now.shape from.now }
    {
        self.pass.looks_full(boxes, from)
    }

    /// Tells whether the box from any actor looks full.
    pub(crate) fn has_mail(&self, boxes: &SharedBoxes) -> bool
        requires { IsPassOf boxes.now self.now }
    {
        for number in 0..self.shape.n() {
            if self.looks_full(boxes, &Actor::Replica(ReplicaId::of(number))) {
                return true;
            }
        }
        for number in 0..self.shape.m() {
            if self.looks_full(boxes, &Actor::Client(ClientId::of(number))) {
                return true;
            }
        }
        false
    }

    /// Returns the envelope of the newest entry, if that is a post to a replica.
    pub(crate) fn posted_last(&self) -> Option<&Envelope>
        ensures { IfSome result (λ x. (q : ℕ) × (older : List AnEntry) × (self.now.log ≡ Post (Replica q) x.now ∷ older)) }
    {
        match self.entries.last() {
            Some(
                Entry::Post {
                    to: Actor::Replica(_),
                    envelope,
                },
            ) => Some(envelope.envelope()),
            _ => None,
        }
    }

    /// Posts the envelope to `to`. `NoMemory` if memory runs out or one more handle is refused, `BoxFull` if the box is not empty: then
    /// nothing changes, and the envelope is dropped. Requires that the own log allows the post.
    pub(crate) fn post(
        &mut self,
        alloc: Global,
        boxes: &SharedBoxes,
        to: &Actor,
        envelope: Envelope,
    ) -> Result<(), Refusal>
        requires boxes { IsPassOf boxes.now self.old }
        requires to { IsActor self.old.shape to.now }
        requires conduct { MayPost self.old.shape self.old.actor self.old.log to.now envelope }
        requires few { HasPostsLeft self.old.log to.now }
        ensures posted { OnOk result (self.new ≡ with_entry self.old (Post to.now envelope)) }
        ensures unchanged { OnErr result (self.new ≡ self.old) }
        ensures refusal { IfErr result (λ refusal. (refusal ≡ Refusal.BoxFull) ⊎ (refusal ≡ Refusal.NoMemory)) }
    {
        let (parcel, own) = Parcel::of(alloc, envelope)?;
        make_room(&mut self.entries)?;
        match self.pass.post(boxes, to, parcel) {
            Ok(()) => {}
            Err(refusal) => return Err(refusal),
        }
        self.entries.push_reserved(Entry::Post {
            to: *to,
            envelope: own,
        });
        self.posts[self.shape.place(to)] += 1;
        Ok(())
    }

    /// Takes the envelope that `from` posted to this actor. `NoMemory` if memory runs out, `BoxEmpty` if the box is not full: then
    /// nothing changes. Requires that the own log allows the take.
    pub(crate) fn take(&mut self, boxes: &SharedBoxes, from: &Actor) -> Result<Envelope, Refusal>
        requires boxes { IsPassOf boxes.now self.old }
        requires from { IsActor self.old.shape from.now }
        requires conduct { MayTake self.old.shape self.old.actor self.old.log from.now }
        ensures taken { IfOk result (λ envelope. self.new ≡ with_entry self.old (Take from.now envelope)) }
        ensures within { IfOk result IsEnvelope }
        ensures unchanged { OnErr result (self.new ≡ self.old) }
        ensures refusal { IfErr result (λ refusal. (refusal ≡ Refusal.BoxEmpty) ⊎ (refusal ≡ Refusal.NoMemory)) }
    {
        make_room(&mut self.entries)?;
        let Some(parcel) = self.pass.take(boxes, from) else {
            return Err(Refusal::BoxEmpty);
        };
        let (envelope, letter) = parcel.into_parts();
        self.entries.push_reserved(Entry::Take {
            from: *from,
            envelope: letter,
        });
        Ok(envelope)
    }

    /// Returns the present moment, at which the actor's log is that of this seat.
    pub(crate) fn moment(&mut self, boxes: &SharedBoxes) -> Moment
        requires boxes { IsPassOf boxes.now self.old }
        ensures same { self.new ≡ self.old }
        ensures boxes { IsMomentOf boxes.now result }
        ensures run { IsRun boxes.now.shape result.run }
        ensures own { log_of result.run self.old.actor ≡ self.old.log }
    {
        self.pass.moment(boxes)
    }

    /// Shows the seat a moment, which is past from then on: the actor's log at that moment is the oldest part of its log, at most all of it.
    pub(crate) fn recall(&mut self, boxes: &SharedBoxes, moment: Moment)
        requires boxes { IsPassOf boxes.now self.old }
        requires moment { IsMomentOf boxes.now moment }
        ensures same { self.new ≡ self.old }
        ensures past { Extends self.old.log (log_of moment.run self.old.actor) }
    {
        self.pass.recall(boxes, moment);
    }

    /// Sleeps while the own box to the replica `to` is not empty. It may return earlier. `NoActor` if the shape has no such actor,
    /// `WrongRole` if `to` is a client.
    pub(crate) fn wait_to<R: Wait>(
        &self,
        rt: &R,
        boxes: &SharedBoxes,
        to: &Actor,
    ) -> Result<(), Refusal>
        requires { IsPassOf boxes.now self.now }
        ensures refused { (refusal : Refusal) → wait_refused self.now.shape to.now ≡ Some refusal → result ≡ Err refusal }
        ensures ok { wait_refused self.now.shape to.now ≡ None → result ≡ Ok tt }
    {
        if let Some(refusal) = self.wait_refusal(to) {
            return Err(refusal);
        }
        self.pass.wait_to(rt, boxes, to);
        Ok(())
    }

    /// Sleeps while the box from the replica `from` is not full. It may return earlier. `NoActor` if the shape has no such actor,
    /// `WrongRole` if `from` is a client.
    pub(crate) fn wait_from<R: Wait>(
        &self,
        rt: &R,
        boxes: &SharedBoxes,
        from: &Actor,
    ) -> Result<(), Refusal>
        requires { IsPassOf boxes.now self.now }
        ensures refused { (refusal : Refusal) → wait_refused self.now.shape from.now ≡ Some refusal → result ≡ Err refusal }
        ensures ok { wait_refused self.now.shape from.now ≡ None → result ≡ Ok tt }
    {
        if let Some(refusal) = self.wait_refusal(from) {
            return Err(refusal);
        }
        self.pass.wait_from(rt, boxes, from);
        Ok(())
    }

    /// Returns the refusal of a wait for this actor, or `None` if it is a replica of the shape.
    fn wait_refusal(&self, other: &Actor) -> Option<Refusal>
        ensures same { result ≡ wait_refused self.now.shape other.now }
        ensures inside { IfNone result (IsActor self.now.shape other.now) }
    {
        if !self.shape.has(*other) {
            return Some(Refusal::NoActor);
        }
        match other {
            Actor::Replica(_) => None,
            Actor::Client(_) => Some(Refusal::WrongRole),
        }
    }

    pub(crate) fn into_parts(self) -> (Pass, Log)
        ensures pass { result.0 ≡ self }
        ensures log { result.1 ≡ self.log }
    {
        (self.pass, Log::of(self.entries))
    }
}

/// Makes room for one more entry. `NoMemory` if that is refused: then the entries are as before.
fn make_room(entries: &mut Vec<Entry>) -> Result<(), Refusal>
    ensures same { entries.new.items ≡ entries.old.items }
    ensures room { OnOk result (vec_len entries.new < vec_capacity entries.new) }
    ensures refusal { IsOkUnless result Refusal.NoMemory }
{
    match entries.reserve(1) {
        Ok(()) => Ok(()),
        Err(_) => Err(Refusal::NoMemory),
    }
}
