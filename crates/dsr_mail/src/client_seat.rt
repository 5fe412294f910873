ghost use Rattle.std.specs.Prelude.{◌≡◌, ◌↔◌, [], reverse, None, Some, Ok, Err, IfOk, IfErr, IsTrue, OnOk, OnErr};
ghost use Rattle.std.specs.Option.{option_map};
ghost use Rattle.dsr_base.specs.Growth.{Extends};
ghost use Rattle.dsr_base.specs.Member.{In};
ghost use Rattle.dsr_names.specs.Shape.{IsActor};
ghost use Rattle.dsr_names.specs.declared.actor.Actor.TheVariants.{Client};
ghost use Rattle.dsr_names.specs.declared.refusal.Refusal.{Refusal};
ghost use Rattle.dsr_request.specs.Request.{Request};
ghost use Rattle.dsr_ledger.specs.declared.reply.Reply.{Reply as AReply};
ghost use Rattle.dsr_envelope.specs.declared.envelope.Envelope.{Envelope};
ghost use Rattle.dsr_envelope.specs.declared.envelope.Envelope.TheVariants.{Seen};
ghost use Rattle.dsr_envelope.specs.declared.entry.Entry.TheVariants.{Post, Take};
ghost use Rattle.dsr_envelope.specs.Limits.{IsEnvelope};
ghost use Rattle.dsr_client.specs.Conduct.{IsClientLog};
ghost use Rattle.dsr_client.specs.State.{accepted, outstanding, seen};
ghost use Rattle.dsr_node.specs.Conduct.{post_of, AcceptsBy};
ghost use Rattle.dsr_run.specs.Linearizable.{HasResponse};
ghost use Rattle.dsr_run.specs.Run.{IsRun};
ghost use Rattle.dsr_run.specs.Step.{log_of};
ghost use Rattle.dsr_boxes.specs.Moment.{IsMomentOf};
ghost use Rattle.dsr_boxes.specs.Pass.{IsPassOf, IsInRun, with_entry};
ghost use Rattle.dsr_mail.specs.Loyal.{IsClientActor};
ghost use Rattle.dsr_mail.specs.Responses.{HasReceived};
ghost use Rattle.dsr_mail.specs.Refusals.{IsRefusedBy, HasAsked, post_refused, take_refused, tell_refused};

use crate::asked::Asked;
use crate::loyal::Loyal;
use crate::mail::Mail;
use dsr_boxes::Moment;
use dsr_envelope::Pick;
use dsr_ledger::Reply;
use dsr_names::{Actor, ClientId, Refusal, ReplicaId};
use std::alloc::Global;
use std::marker::Model;

/// The seat of a client: the client, its log, and its boxes at the mail.
#[derive(Drop)]
pub struct ClientSeat {
    loyal: Loyal,
    asked: Asked,
}

impl Model for ClientSeat {
    ghost use Rattle.dsr_boxes.specs.Pass.{Pass};
    ghost use Rattle.dsr_mail.specs.Asked.{AreAsked};
    ghost use Rattle.dsr_mail.specs.Loyal.{IsClientActor};

    ghost Value = { Pass };

    ghost view = { λ s. s.loyal };

    ghost invariant = { λ s. IsClientActor s.loyal.actor × AreAsked s.loyal.shape s.loyal.log s.asked };
}

impl ClientSeat {
    /// Creates the seat of a client that has done nothing yet.
    pub(crate) fn new(loyal: Loyal) -> ClientSeat
        requires client { IsClientActor loyal.actor }
        requires first { loyal.log ≡ [] }
        ensures { result ≡ loyal }
    {
        ClientSeat {
            loyal,
            asked: Asked::none(),
        }
    }

    pub(crate) fn into_loyal(self) -> Loyal
        ensures { result ≡ self }
    {
        self.loyal
    }

    /// Returns the actor. There is a run in which its log is that of this seat.
    pub fn actor(&self) -> Actor
        ensures same { result ≡ self.now.actor }
        ensures inside { IsActor self.now.shape result }
        ensures run { IsInRun self.now.shape self.now.actor self.now.log }
    {
        *self.loyal.seat().actor()
    }

    /// Returns the client's number.
    pub fn client(&self) -> ClientId
        ensures same { self.now.actor ≡ Client result }
        ensures conduct { IsClientLog self.now.shape result self.now.log }
    {
        // For the proof: what its contract says.
        let _node = self.loyal.node();
        let Actor::Client(client) = self.loyal.seat().actor() else {
            unreachable!()
        };
        *client
    }

    /// Posts to `to` by the choice `pick`. It waits for nobody. Refused with the first of these that holds: `NoActor` if the shape has no such
    /// actor; `WrongRole` if `to` is a client (`try_tell` posts to clients); `NotDue` if the protocol has no such post now; `Exhausted` if a counter
    /// would pass its limit. Then, in an order that no clause fixes, `BoxFull` if the box is not empty (`to` has not taken the last envelope, or still
    /// empties the box), and `NoMemory` if memory runs out. A refusal changes nothing. Requires a seat of this mail.
    pub fn try_post(
        &mut self,
        alloc: Global,
        mail: &Mail,
        to: Actor,
        pick: Pick,
    ) -> Result<(), Refusal>
        requires mail { IsPassOf mail.now self.old }
        ensures ok { OnOk result ((x : Envelope) × (post_of self.old.shape self.old.log self.old.actor to pick ≡ Some x)
            × (self.new ≡ with_entry self.old (Post to x))) }
        ensures err { OnErr result (self.new ≡ self.old) }
        ensures refused { (refusal : Refusal) → post_refused self.old.shape self.old.actor self.old.log to pick ≡ Some refusal → result ≡ Err refusal }
        ensures last { IfErr result (IsRefusedBy (post_refused self.old.shape self.old.actor self.old.log to pick) Refusal.BoxFull) }
    {
        match self.loyal.try_post(alloc, mail.boxes(), &to, &pick) {
            Ok(()) => {}
            Err(refusal) => return Err(refusal),
        }
        self.asked.note_post(&to, &pick);
        Ok(())
    }

    /// Takes the envelope that `from` posted to this client, and returns the reply that the client accepts with it, if any. It waits for
    /// nobody. Refused with the first of these that holds: `NoActor` if the shape has no such actor; `WrongRole` if `from` is the client
    /// itself. Then, in an order that no clause fixes, `BoxEmpty` if the box is not full (it is empty, or `from` still fills it), and `NoMemory` if
    /// memory runs out. A refusal changes nothing. Requires a seat of this mail.
    pub fn try_take(&mut self, mail: &Mail, from: Actor) -> Result<Option<Reply>, Refusal>
        requires mail { IsPassOf mail.now self.old }
        ensures ok { IfOk result (λ reply. (x : Envelope) × IsEnvelope x × (self.new ≡ with_entry self.old (Take from x))
            × AcceptsBy reply (accepted self.new.shape self.new.log) (accepted self.old.shape self.old.log)) }
        ensures err { OnErr result (self.new ≡ self.old) }
        ensures refused { (refusal : Refusal) → take_refused self.old.shape self.old.actor self.old.log from ≡ Some refusal → result ≡ Err refusal }
        ensures last { IfErr result (IsRefusedBy (take_refused self.old.shape self.old.actor self.old.log from) Refusal.BoxEmpty) }
    {
        let reply = match self.loyal.try_take(mail.boxes(), &from) {
            Ok(reply) => reply,
            Err(refusal) => return Err(refusal),
        };
        self.asked.note_reply(&reply);
        Ok(reply)
    }

    /// Posts the seen front to the client `to`. It waits for nobody. Refused with the first of these that holds: `NoActor` if the shape has no
    /// such actor; `WrongRole` if `to` is a replica or this client itself; `Exhausted` if no post to `to` is left. Then, in an order that no clause
    /// fixes, `NoMemory` if memory runs out, and `BoxFull` if the box is not empty (`to` has not taken the last envelope, or still empties the box). A
    /// refusal changes nothing. Requires a seat of this mail.
    pub fn try_tell(&mut self, alloc: Global, mail: &Mail, to: Actor) -> Result<(), Refusal>
        requires mail { IsPassOf mail.now self.old }
        ensures ok { OnOk result (self.new ≡ with_entry self.old (Post to (Seen (seen self.old.shape self.old.log)))) }
        ensures err { OnErr result (self.new ≡ self.old) }
        ensures refused { (refusal : Refusal) → tell_refused self.old.shape self.old.actor self.old.log to ≡ Some refusal → result ≡ Err refusal }
        ensures last { IfErr result (IsRefusedBy (tell_refused self.old.shape self.old.actor self.old.log to) Refusal.BoxFull) }
    {
        match self.loyal.try_tell(alloc, mail.boxes(), &to) {
            Ok(()) => {}
            Err(refusal) => return Err(refusal),
        }
        Ok(())
    }

    /// Returns the number of the outstanding request, or `None` if nothing is outstanding.
    pub fn outstanding(&self) -> Option<u64>
        ensures { result ≡ option_map (λ ask. ask.request.number) (outstanding self.now.shape self.now.log) }
    {
        self.loyal.client().outstanding()
    }

    /// Tells whether it has posted the outstanding request to this replica.
    pub fn asked(&self, replica: ReplicaId) -> bool
        ensures { IsTrue result ↔ HasAsked self.now.shape self.now.log replica }
    {
        // For the proof: the number is below 16.
        let _number = replica.number();
        self.asked.has(replica)
    }

    /// Returns the seen front.
    pub fn seen(&self) -> u64
        ensures { result ≡ seen self.now.shape self.now.log }
    {
        self.loyal.client().seen()
    }

    /// Returns the replies that it accepted, in the order of acceptance.
    pub fn accepted(&self) -> &[Reply]
        ensures { result.now ≡ reverse (accepted self.now.shape self.now.log) }
    {
        self.loyal.client().accepted()
    }

    /// Returns the present moment, which the caller may hand to another thread. At this moment the client's log is that of this seat, so each reply
    /// that the client has accepted is the response to a request of its own. Requires a seat of this mail.
    pub fn moment(&mut self, mail: &Mail) -> Moment
        requires mail { IsPassOf mail.now self.old }
        ensures same { self.new ≡ self.old }
        ensures mail { IsMomentOf mail.now result }
        ensures run { IsRun mail.now.shape result.run }
        ensures own { log_of result.run self.old.actor ≡ self.old.log }
        ensures answered { (reply : AReply) → In reply (accepted self.old.shape self.old.log)
            → (request : Request) × (self.old.actor ≡ Client request.client) × HasResponse self.old.shape (log_of result.run) request reply }
        ensures responses { (request : Request) (reply : AReply) → self.old.actor ≡ Client request.client
            → HasReceived self.old.shape self.old.log request reply → HasResponse self.old.shape (log_of result.run) request reply }
    {
        // For the proof: what its contract says.
        let _client = self.client();
        self.loyal.moment(mail.boxes())
    }

    /// Shows the seat a moment, which is past from then on: the client's log at that moment is the oldest part of its log, at most all of it. What
    /// it asks for the first time after this comes after what the moment shows (`Mail::close_after`). Requires a seat and a moment of this mail.
    pub fn recall(&mut self, mail: &Mail, moment: Moment)
        requires mail { IsPassOf mail.now self.old }
        requires moment { IsMomentOf mail.now moment }
        ensures same { self.new ≡ self.old }
        ensures past { Extends self.old.log (log_of moment.run self.old.actor) }
    {
        self.loyal.recall(mail.boxes(), moment);
    }

    /// Wakes everybody who sleeps at the mail now, so that each tries again. It may miss a thread that is about to sleep: to end other threads, call it
    /// again until they have ended. Requires a seat of this mail.
    pub fn wake(&self, mail: &Mail)
        requires mail { IsPassOf mail.now self.now }
    {
        mail.boxes().wake_all();
    }
}
