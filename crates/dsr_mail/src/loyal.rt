ghost use Rattle.std.specs.Prelude.{◌≡◌, None, Some, if◌then◌else◌, Err, IfOk, IfErr, IfSome, IsOk, OnOk, OnErr, IsOkUnless};
ghost use Rattle.dsr_base.specs.Growth.{Extends};
ghost use Rattle.dsr_names.specs.Shape.{IsActor};
ghost use Rattle.dsr_names.specs.declared.refusal.Refusal.{Refusal};
ghost use Rattle.dsr_envelope.specs.declared.envelope.Envelope.{Envelope};
ghost use Rattle.dsr_envelope.specs.declared.envelope.Envelope.TheVariants.{Seen};
ghost use Rattle.dsr_envelope.specs.declared.entry.Entry.TheVariants.{Post, Take};
ghost use Rattle.dsr_envelope.specs.Limits.{IsEnvelope};
ghost use Rattle.dsr_client.specs.State.{seen};
ghost use Rattle.dsr_node.specs.Conduct.{post_of};
ghost use Rattle.dsr_node.specs.Node.{IsReplicaNumber, TakesReply, post_refusal};
ghost use Rattle.dsr_run.specs.Run.{IsRun};
ghost use Rattle.dsr_run.specs.Step.{log_of};
ghost use Rattle.dsr_boxes.specs.Moment.{IsMomentOf};
ghost use Rattle.dsr_boxes.specs.Pass.{IsPassOf, with_entry};
ghost use Rattle.dsr_mail.specs.Loyal.{IsLoyalSeat, IsReplicaOf, IsClientOf, IsClientActor};
ghost use Rattle.dsr_mail.specs.Seats.{KeepsLog};
ghost use Rattle.dsr_mail.specs.Refusals.{IsRefusedBy, is_spent, post_refused, take_refused, tell_refused};

use crate::seat::Seat;
use dsr_boxes::{Moment, SharedBoxes};
use dsr_envelope::{Envelope, Pick};
use dsr_ledger::Reply;
use dsr_names::{Actor, Refusal};
use dsr_node::{Node, are_clients, is_own_client, look_at};
use dsr_replica::Replica;
use std::alloc::Global;
use std::marker::Model;

/// The seat of a loyal replica or a client, with the node that plays it.
#[derive(Drop)]
pub(crate) struct Loyal {
    seat: Seat,
    node: Node,
}

impl Model for Loyal {
    ghost use Rattle.dsr_boxes.specs.Pass.{Pass};
    ghost use Rattle.dsr_mail.specs.Loyal.{IsLoyalSeat};

    ghost Value = { Pass };

    ghost view = { λ l. l.seat };

    ghost invariant = { λ l. IsLoyalSeat l.seat l.node };
}

impl Loyal {
    /// Creates the seat of a loyal actor that this node plays.
    pub(crate) fn new(seat: Seat, node: Node) -> Loyal
        requires { IsLoyalSeat seat node }
        ensures { result ≡ seat }
    {
        Loyal { seat, node }
    }

    pub(crate) fn seat(&self) -> &Seat
        ensures { result.now ≡ self.now }
    {
        &self.seat
    }

    /// Returns the node, which plays the actor over its log.
    pub(crate) fn node(&self) -> &Node
        ensures { IsLoyalSeat self.now result.now }
    {
        &self.node
    }

    pub(crate) fn into_parts(self) -> (Seat, Node)
        ensures seat { result.0 ≡ self }
        ensures node { IsLoyalSeat self result.1 }
    {
        (self.seat, self.node)
    }

    /// Returns the client's node. Requires that the actor is a client.
    pub(crate) fn client(&self) -> &Node
        requires { IsClientActor self.now.actor }
        ensures { IsClientOf self.now result.now }
    {
        &self.node
    }

    /// Returns the replica. Requires that the actor is one.
    pub(crate) fn replica(&self) -> &Replica
        requires { IsReplicaNumber self.now.actor }
        ensures { IsReplicaOf self.now result.now }
    {
        let Some(replica) = self.node.replica() else {
            unreachable!()
        };
        replica
    }

    /// Posts to `to` by the choice `pick`. Refused with the first of these that holds: `NoActor` if the shape has no such actor; `WrongRole` if
    /// both are clients; `NotDue` if the protocol has no such post now; `Exhausted` if a counter would pass its limit. Then with `BoxFull`, which a
    /// look finds before it asks for memory, or `NoMemory`. A refusal changes nothing.
    pub(crate) fn try_post(
        &mut self,
        alloc: Global,
        boxes: &SharedBoxes,
        to: &Actor,
        pick: &Pick,
    ) -> Result<(), Refusal>
        requires { IsPassOf boxes.now self.old }
        ensures ok { OnOk result ((x : Envelope) × (post_of self.old.shape self.old.log self.old.actor to.now pick.now ≡ Some x)
            × (self.new ≡ with_entry self.old (Post to.now x))) }
        ensures err { OnErr result (self.new ≡ self.old) }
        ensures refused { (refusal : Refusal) → post_refused self.old.shape self.old.actor self.old.log to.now pick.now ≡ Some refusal
            → result ≡ Err refusal }
        ensures last { IfErr result (IsRefusedBy (post_refused self.old.shape self.old.actor self.old.log to.now pick.now) Refusal.BoxFull) }
        ensures keeps { KeepsLog self.old.shape self.old.actor self.old.log }
    {
        if let Some(refusal) = self.post_refusal(to, pick) {
            return Err(refusal);
        }
        look_at(pick);
        // For the proof: what their contracts say.
        let _n = self.seat.shape().n();
        let _actor = self.seat.actor();
        // Make no envelope for a box that does not look empty.
        if !self.seat.looks_empty(boxes, to) {
            return Err(Refusal::BoxFull);
        }
        let Ok(envelope) = self.envelope_for(alloc, to, pick) else {
            return Err(Refusal::NoMemory);
        };
        match self.seat.post(alloc, boxes, to, envelope) {
            Ok(()) => {}
            Err(refusal) => return Err(refusal),
        }
        self.node.posted(*to, *pick);
        Ok(())
    }

    /// Takes from `from`, and returns the reply that a client accepts with it, if any. Refused with the first of these that holds: `NoActor` if
    /// the shape has no such actor; `WrongRole` if `from` is the client itself; `NotDue` if the protocol has no such take now. Then with `BoxEmpty`,
    /// which a look finds before it asks for memory, or `NoMemory`. A refusal changes nothing.
    pub(crate) fn try_take(
        &mut self,
        boxes: &SharedBoxes,
        from: &Actor,
    ) -> Result<Option<Reply>, Refusal>
        requires { IsPassOf boxes.now self.old }
        ensures ok { IfOk result (λ reply. (x : Envelope) × IsEnvelope x × (self.new ≡ with_entry self.old (Take from.now x))
            × TakesReply self.old.shape self.old.actor self.old.log from.now x reply) }
        ensures err { OnErr result (self.new ≡ self.old) }
        ensures refused { (refusal : Refusal) → take_refused self.old.shape self.old.actor self.old.log from.now ≡ Some refusal
            → result ≡ Err refusal }
        ensures last { IfErr result (IsRefusedBy (take_refused self.old.shape self.old.actor self.old.log from.now) Refusal.BoxEmpty) }
    {
        if let Some(refusal) = self.take_refusal(from) {
            return Err(refusal);
        }
        // For the proof: what its contract says.
        let _n = self.seat.shape().n();
        if !self.seat.looks_full(boxes, from) {
            return Err(Refusal::BoxEmpty);
        }
        let Ok(()) = self.node.room() else {
            return Err(Refusal::NoMemory);
        };
        match self.seat.take(boxes, from) {
            Ok(envelope) => Ok(self.node.taken(*from, envelope)),
            Err(refusal) => Err(refusal),
        }
    }

    /// Posts the seen front to the client `to`. Refused with the first of these that holds: `NoActor` if the shape has no such actor;
    /// `WrongRole` if the two are not different clients; `Exhausted` if no post to `to` is left. Then with `NoMemory`, or `BoxFull`. A refusal
    /// changes nothing.
    pub(crate) fn try_tell(
        &mut self,
        alloc: Global,
        boxes: &SharedBoxes,
        to: &Actor,
    ) -> Result<(), Refusal>
        requires { IsPassOf boxes.now self.old }
        ensures ok { OnOk result (self.new ≡ with_entry self.old (Post to.now (Seen (seen self.old.shape self.old.log)))) }
        ensures err { OnErr result (self.new ≡ self.old) }
        ensures refused { (refusal : Refusal) → tell_refused self.old.shape self.old.actor self.old.log to.now ≡ Some refusal
            → result ≡ Err refusal }
        ensures last { IfErr result (IsRefusedBy (tell_refused self.old.shape self.old.actor self.old.log to.now) Refusal.BoxFull) }
    {
        if let Some(refusal) = self.tell_refusal(to) {
            return Err(refusal);
        }
        let envelope = Envelope::Seen(self.node.seen());
        match self.seat.post(alloc, boxes, to, envelope) {
            Ok(()) => {}
            Err(refusal) => return Err(refusal),
        }
        Ok(())
    }

    /// Returns the present moment, at which the actor's log is that of this seat.
    pub(crate) fn moment(&mut self, boxes: &SharedBoxes) -> Moment
        requires boxes { IsPassOf boxes.now self.old }
        ensures same { self.new ≡ self.old }
        ensures boxes { IsMomentOf boxes.now result }
        ensures run { IsRun boxes.now.shape result.run }
        ensures own { log_of result.run self.old.actor ≡ self.old.log }
    {
        self.seat.moment(boxes)
    }

    /// Shows the seat a moment, which is past from then on: the actor's log at that moment is the oldest part of its log, at most all of it.
    pub(crate) fn recall(&mut self, boxes: &SharedBoxes, moment: Moment)
        requires boxes { IsPassOf boxes.now self.old }
        requires moment { IsMomentOf boxes.now moment }
        ensures same { self.new ≡ self.old }
        ensures past { Extends self.old.log (log_of moment.run self.old.actor) }
    {
        self.seat.recall(boxes, moment);
    }

    /// Makes the envelope of a post that the protocol allows. What the actor has just posted to a replica it posts to another as a copy, which shares
    /// its chains or its request. `NoMemory` if memory runs out or one more handle is refused.
    fn envelope_for(&self, alloc: Global, to: &Actor, pick: &Pick) -> Result<Envelope, Refusal>
        requires { post_refusal self.now.shape self.now.log self.now.actor to.now pick.now ≡ None }
        ensures given { IfOk result (λ x. post_of self.now.shape self.now.log self.now.actor to.now pick.now ≡ Some x) }
        ensures refusal { IsOkUnless result Refusal.NoMemory }
    {
        match self.posted_before(to, pick) {
            Some(envelope) => envelope.try_copy(alloc),
            None => self.node.envelope_for(alloc, *to, *pick),
        }
    }

    /// Returns the envelope that the actor has just posted to a replica, if this is a post to another. Requires that the protocol allows the post.
    fn posted_before(&self, to: &Actor, _pick: &Pick) -> Option<&Envelope>
        requires { post_refusal self.now.shape self.now.log self.now.actor to.now _pick.now ≡ None }
        ensures { IfSome result (λ x. post_of self.now.shape self.now.log self.now.actor to.now _pick.now ≡ Some x.now) }
    {
        // For the proof: what its contract says.
        let _n = self.seat.shape().n();
        match to {
            Actor::Replica(_) => self.seat.posted_last(),
            Actor::Client(_) => None,
        }
    }

    /// Returns the own log's refusal of a post to this actor by this choice, if any.
    fn post_refusal(&self, to: &Actor, pick: &Pick) -> Option<Refusal>
        ensures { result ≡ post_refused self.now.shape self.now.actor self.now.log to.now pick.now }
    {
        if !self.seat.shape().has(*to) {
            return Some(Refusal::NoActor);
        }
        if are_clients(self.seat.actor(), to) {
            return Some(Refusal::WrongRole);
        }
        match self.node.refusal(*to, *pick) {
            Some(refusal) => Some(refusal),
            None => self.spent_refusal(to),
        }
    }

    /// Returns the own log's refusal of a take from this actor, if any.
    fn take_refusal(&self, from: &Actor) -> Option<Refusal>
        ensures { result ≡ take_refused self.now.shape self.now.actor self.now.log from.now }
    {
        if !self.seat.shape().has(*from) {
            return Some(Refusal::NoActor);
        }
        if is_own_client(self.seat.actor(), from) {
            return Some(Refusal::WrongRole);
        }
        if self.node.is_undue(*from) {
            return Some(Refusal::NotDue);
        }
        None
    }

    /// Returns the own log's refusal of a post of the seen front to this actor, if any.
    fn tell_refusal(&self, to: &Actor) -> Option<Refusal>
        ensures { result ≡ tell_refused self.now.shape self.now.actor self.now.log to.now }
    {
        if !self.seat.shape().has(*to) {
            return Some(Refusal::NoActor);
        }
        let actor = self.seat.actor();
        if !are_clients(actor, to) || is_own_client(actor, to) {
            return Some(Refusal::WrongRole);
        }
        self.spent_refusal(to)
    }

    /// Returns `Exhausted` if no post to this actor is left. Requires an actor of the shape.
    fn spent_refusal(&self, to: &Actor) -> Option<Refusal>
        requires { IsActor self.now.shape to.now }
        ensures { result ≡ (if is_spent self.now.log to.now then Some Refusal.Exhausted else None) }
    {
        if self.seat.is_spent(to) {
            Some(Refusal::Exhausted)
        } else {
            None
        }
    }
}
