ghost use Rattle.std.specs.Prelude.{◌≡◌, ◌⊎◌, [], None, Some, Ok, Err, IfOk, IfErr, OnOk, OnErr};
ghost use Rattle.dsr_names.specs.Shape.{IsActor};
ghost use Rattle.dsr_names.specs.declared.actor.Actor.TheVariants.{Replica};
ghost use Rattle.dsr_names.specs.declared.refusal.Refusal.{Refusal};
ghost use Rattle.dsr_envelope.specs.declared.envelope.Envelope.{Envelope};
ghost use Rattle.dsr_envelope.specs.declared.entry.Entry.TheVariants.{Post, Take};
ghost use Rattle.dsr_envelope.specs.Limits.{IsEnvelope};
ghost use Rattle.dsr_run.specs.OwnStep.{ForgesNone};
ghost use Rattle.dsr_run.specs.Run.{IsTraitor};
ghost use Rattle.dsr_boxes.specs.Pass.{IsPassOf, IsInRun, with_entry};
ghost use Rattle.dsr_mail.specs.Refusals.{IsRefusedBy, plant_refused, take_refused, wait_refused};

use crate::mail::Mail;
use crate::seat::Seat;
use dsr_desk::Key;
use dsr_envelope::Envelope;
use dsr_names::{Actor, Refusal, ReplicaId};
use dsr_script::{Draft, Known, build};
use std::alloc::Global;
use std::marker::Model;
use std::slice;
use std::sync::Wait;

/// The seat of a traitor: its log and its boxes at the mail, its key, and the signatures in what it took, which it can send on. It posts
/// what it likes as long as it forges nothing, and takes what it likes.
#[derive(Drop)]
pub struct TraitorSeat {
    seat: Seat,
    key: Key,
    known: Known,
}

impl Model for TraitorSeat {
    ghost use Rattle.dsr_boxes.specs.Pass.{Pass};
    ghost use Rattle.dsr_mail.specs.Traitor.{IsTraitorSeat};

    ghost Value = { Pass };

    ghost view = { λ s. s.seat };

    ghost invariant = { λ s. IsTraitorSeat s.seat s.key s.known.signatures };
}

impl TraitorSeat {
    /// Creates the seat of a traitor that holds its key and has done nothing yet.
    pub(crate) fn new(alloc: Global, seat: Seat, key: Key) -> TraitorSeat
        requires own { key ≡ seat.actor }
        requires traitor { IsTraitor seat.shape seat.actor }
        requires first { seat.log ≡ [] }
        ensures { result ≡ seat }
    {
        TraitorSeat {
            seat,
            key,
            known: Known::new(alloc),
        }
    }

    pub(crate) fn into_seat(self) -> Seat
        ensures { result ≡ self }
    {
        self.seat
    }

    /// Returns the actor. There is a run in which its log is that of this seat.
    pub fn actor(&self) -> Actor
        ensures same { result ≡ self.now.actor }
        ensures inside { IsActor self.now.shape result }
        ensures run { IsInRun self.now.shape self.now.actor self.now.log }
    {
        *self.seat.actor()
    }

    /// Returns the replica's number.
    pub fn replica(&self) -> ReplicaId
        ensures same { self.now.actor ≡ Replica result }
        ensures traitor { IsTraitor self.now.shape self.now.actor }
    {
        let Actor::Replica(replica) = self.seat.actor() else {
            unreachable!()
        };
        *replica
    }

    /// Posts to `to` the envelope that the draft describes. It waits for nobody. Refused with the first of these that holds: `NoActor` if the
    /// shape has no such actor; `Exhausted` if no post to `to` is left; `Forged` if a signature is neither the traitor's own nor in what it took. Then,
    /// in an order that no clause fixes, `NoMemory` if memory runs out, and `BoxFull` if the box is not empty (`to` has not taken the last envelope, or
    /// still empties the box). A refusal changes nothing. Requires a seat of this mail.
    pub fn try_post(
        &mut self,
        alloc: Global,
        mail: &Mail,
        to: Actor,
        draft: &Draft,
    ) -> Result<(), Refusal>
        requires mail { IsPassOf mail.now self.old }
        ensures ok { OnOk result (self.new ≡ with_entry self.old (Post to draft.now)) }
        ensures unforged { OnOk result (ForgesNone self.old.shape self.old.actor self.old.log draft.now) }
        ensures err { OnErr result (self.new ≡ self.old) }
        ensures refused { (refusal : Refusal) → plant_refused self.old.shape self.old.log to ≡ Some refusal → result ≡ Err refusal }
        ensures forged { plant_refused self.old.shape self.old.log to ≡ None → ¬ ForgesNone self.old.shape self.old.actor self.old.log draft.now
            → result ≡ Err Refusal.Forged }
        ensures honest { result ≡ Err Refusal.Forged → ¬ ForgesNone self.old.shape self.old.actor self.old.log draft.now }
        ensures last { IfErr result (λ refusal. (refusal ≡ Refusal.Forged)
            ⊎ IsRefusedBy (plant_refused self.old.shape self.old.log to) Refusal.BoxFull refusal) }
    {
        if let Some(refusal) = self.plant_refusal(&to) {
            return Err(refusal);
        }
        let envelope = match self.built(alloc, draft) {
            Ok(envelope) => envelope,
            Err(refusal) => return Err(refusal),
        };
        match self.seat.post(alloc, mail.boxes(), &to, envelope) {
            Ok(()) => {}
            Err(refusal) => return Err(refusal),
        }
        Ok(())
    }

    /// Takes the envelope that `from` posted to this traitor. It waits for nobody. `NoActor` if the shape has no such actor. Then, in an order that
    /// no clause fixes, `BoxEmpty` if the box is not full (it is empty, or `from` still fills it), and `NoMemory` if memory runs out. A refusal changes
    /// nothing. Requires a seat of this mail.
    pub fn try_take(&mut self, mail: &Mail, from: Actor) -> Result<(), Refusal>
        requires mail { IsPassOf mail.now self.old }
        ensures ok { OnOk result ((x : Envelope) × IsEnvelope x × (self.new ≡ with_entry self.old (Take from x))) }
        ensures err { OnErr result (self.new ≡ self.old) }
        ensures refused { (refusal : Refusal) → take_refused self.old.shape self.old.actor self.old.log from ≡ Some refusal → result ≡ Err refusal }
        ensures last { IfErr result (IsRefusedBy (take_refused self.old.shape self.old.actor self.old.log from) Refusal.BoxEmpty) }
    {
        if !self.seat.shape().has(from) {
            return Err(Refusal::NoActor);
        }
        if !self.seat.looks_full(mail.boxes(), &from) {
            return Err(Refusal::BoxEmpty);
        }
        let Ok(()) = self.known.room() else {
            return Err(Refusal::NoMemory);
        };
        let envelope = match self.seat.take(mail.boxes(), &from) {
            Ok(envelope) => envelope,
            Err(refusal) => return Err(refusal),
        };
        match self.known.learn(&envelope) {
            Ok(()) => Ok(()),
            Err(_) => unreachable!(),
        }
    }

    /// Sleeps while the replica `to` has not taken what this seat last posted to it. It may return earlier, so the caller tries again. `NoActor` if the
    /// shape has no such actor, `WrongRole` if `to` is a client: no replica waits for clients. Requires a seat of this mail.
    pub fn wait_to<R: Wait>(&self, rt: &R, mail: &Mail, to: Actor) -> Result<(), Refusal>
        requires mail { IsPassOf mail.now self.now }
        ensures refused { (refusal : Refusal) → wait_refused self.now.shape to ≡ Some refusal → result ≡ Err refusal }
        ensures ok { wait_refused self.now.shape to ≡ None → result ≡ Ok tt }
    {
        self.seat.wait_to(rt, mail.boxes(), &to)
    }

    /// Sleeps while the replica `from` has posted nothing that could be taken. It may return earlier, so the caller tries again. `NoActor` if the
    /// shape has no such actor, `WrongRole` if `from` is a client: no replica waits for clients. Requires a seat of this mail.
    pub fn wait_from<R: Wait>(&self, rt: &R, mail: &Mail, from: Actor) -> Result<(), Refusal>
        requires mail { IsPassOf mail.now self.now }
        ensures refused { (refusal : Refusal) → wait_refused self.now.shape from ≡ Some refusal → result ≡ Err refusal }
        ensures ok { wait_refused self.now.shape from ≡ None → result ≡ Ok tt }
    {
        self.seat.wait_from(rt, mail.boxes(), &from)
    }

    /// Wakes everybody who sleeps at the mail now, so that each tries again. It may miss a thread that is about to sleep: to end other threads, call it
    /// again until they have ended. Requires a seat of this mail.
    pub fn wake(&self, mail: &Mail)
        requires mail { IsPassOf mail.now self.now }
    {
        mail.boxes().wake_all();
    }

    /// Returns the own log's refusal of a post to this actor, if any.
    fn plant_refusal(&self, to: &Actor) -> Option<Refusal>
        ensures { result ≡ plant_refused self.now.shape self.now.log to.now }
    {
        if !self.seat.shape().has(*to) {
            return Some(Refusal::NoActor);
        }
        if self.seat.is_spent(to) {
            return Some(Refusal::Exhausted);
        }
        None
    }

    /// Makes the envelope that the draft describes. `Forged` if a signature is neither the traitor's own nor in what it took, `NoMemory` if
    /// memory runs out.
    fn built(&self, alloc: Global, draft: &Draft) -> Result<Envelope, Refusal>
        ensures same { IfOk result (λ envelope. envelope ≡ draft.now) }
        ensures within { IsEnvelope draft.now }
        ensures made { OnOk result (ForgesNone self.now.shape self.now.actor self.now.log draft.now) }
        ensures forged { (¬ ForgesNone self.now.shape self.now.actor self.now.log draft.now) → result ≡ Err Refusal.Forged }
        ensures honest { result ≡ Err Refusal.Forged → ¬ ForgesNone self.now.shape self.now.actor self.now.log draft.now }
        ensures refusal { IfErr result (λ refusal. (refusal ≡ Refusal.Forged) ⊎ (refusal ≡ Refusal.NoMemory)) }
    {
        let keys = slice::from_ref(&self.key);
        match build(alloc, draft, keys, &self.known) {
            Ok(envelope) => Ok(envelope),
            Err(refusal) => Err(refusal),
        }
    }
}
