ghost use Rattle.std.specs.Prelude.{◌≡◌, ◌↔◌, ◌<◌, ◌^◌, [], None, Some, Ok, Err, IfErr, IsSome, IsTrue, OnOk, OnErr};
ghost use Rattle.std.specs.Option.{option_map};
ghost use Rattle.dsr_names.specs.Shape.{IsActor, IsLoyal};
ghost use Rattle.dsr_names.specs.declared.actor.Actor.TheVariants.{Replica};
ghost use Rattle.dsr_names.specs.declared.refusal.Refusal.{Refusal};
ghost use Rattle.dsr_envelope.specs.declared.envelope.Envelope.{Envelope};
ghost use Rattle.dsr_envelope.specs.declared.entry.Entry.TheVariants.{Post, Take};
ghost use Rattle.dsr_envelope.specs.Limits.{IsEnvelope};
ghost use Rattle.dsr_envelope.specs.Log.{due, rounds};
ghost use Rattle.dsr_replica.specs.Conduct.{IsLoyalLog, envelope_to, reply_to};
ghost use Rattle.dsr_replica.specs.Held.{held};
ghost use Rattle.dsr_node.specs.Conduct.{post_of};
ghost use Rattle.dsr_node.specs.Node.{IsReplicaNumber};
ghost use Rattle.dsr_run.specs.Eager.{last_proposed};
ghost use Rattle.dsr_boxes.specs.Pass.{IsPassOf, IsInRun, with_entry};
ghost use Rattle.dsr_mail.specs.Refusals.{IsRefusedBy, post_refused, take_refused, wait_refused};
ghost use Rattle.dsr_mail.specs.Serving.{IsUnanswered};

use crate::loyal::Loyal;
use crate::mail::Mail;
use crate::serving::Serving;
use dsr_envelope::{Due, Envelope, Pick};
use dsr_names::{Actor, ClientId, Refusal, ReplicaId};
use dsr_request::Request;
use std::alloc::Global;
use std::marker::Model;
use std::sync::Wait;

/// The seat of a loyal replica: the replica, its log, and its boxes at the mail.
#[derive(Drop)]
pub struct ReplicaSeat {
    loyal: Loyal,
    serving: Serving,
}

impl Model for ReplicaSeat {
    ghost use Rattle.std.specs.Prelude.{◌≡◌};
    ghost use Rattle.dsr_node.specs.Node.{IsReplicaNumber};
    ghost use Rattle.dsr_run.specs.Eager.{last_proposed};
    ghost use Rattle.dsr_boxes.specs.Pass.{Pass};
    ghost use Rattle.dsr_mail.specs.Serving.{AreUnanswered};

    ghost Value = { Pass };

    ghost view = { λ s. s.loyal };

    ghost invariant = { λ s. IsReplicaNumber s.loyal.actor × AreUnanswered s.loyal.log s.serving.marks × (s.serving.picked ≡ last_proposed s.loyal.shape s.loyal.log) };
}

impl ReplicaSeat {
    /// Creates the seat of a loyal replica that has done nothing yet.
    pub(crate) fn new(loyal: Loyal) -> ReplicaSeat
        requires replica { IsReplicaNumber loyal.actor }
        requires first { loyal.log ≡ [] }
        ensures { result ≡ loyal }
    {
        ReplicaSeat {
            loyal,
            serving: Serving::none(),
        }
    }

    pub(crate) fn into_loyal(self) -> Loyal
        ensures { result ≡ self }
    {
        self.loyal
    }

    /// Returns the actor. There is a run in which its log is that of this seat.
    pub fn actor(&self) -> Actor
        ensures same { result ≡ self.now.actor }
        ensures inside { IsActor self.now.shape result }
        ensures run { IsInRun self.now.shape self.now.actor self.now.log }
    {
        *self.loyal.seat().actor()
    }

    /// Returns the replica's number.
    pub fn replica(&self) -> ReplicaId
        ensures same { self.now.actor ≡ Replica result }
        ensures loyal { IsLoyal self.now.shape self.now.actor }
    {
        // For the proof: what its contract says.
        let _replica = self.loyal.replica();
        let Actor::Replica(replica) = self.loyal.seat().actor() else {
            unreachable!()
        };
        *replica
    }

    /// Returns what it does next with the replicas.
    pub fn due(&self) -> Due
        ensures same { result ≡ due self.now.shape self.now.log }
        ensures conduct { IsLoyalLog self.now.shape self.now.actor self.now.log }
    {
        // For the proof: what its contract says.
        let _node = self.loyal.node();
        self.loyal.replica().due()
    }

    /// Tells whether it may post to this replica by this choice: the post is due, the choice gives an envelope, and the round is below 2^36.
    pub fn allows(&self, to: ReplicaId, pick: Pick) -> bool
        ensures { IsTrue result ↔ (IsSome (envelope_to self.now.shape self.now.actor self.now.log to pick) × (rounds self.now.shape self.now.log < 2 ^ 36)) }
    {
        self.loyal.replica().allows(to, pick)
    }

    /// Returns the request that is held for this client.
    pub fn held(&self, client: ClientId) -> Option<Request>
        ensures { result ≡ option_map (λ ask. ask.request) (held self.now.shape client self.now.log) }
    {
        self.loyal.replica().held(client)
    }

    /// Returns the envelope with the reply to the client's last request that acted, or `None` if none did.
    pub fn reply_for(&self, client: ClientId) -> Option<Envelope>
        ensures { result ≡ reply_to self.now.shape self.now.log client }
    {
        self.loyal.replica().reply_for(client)
    }

    /// Tells whether the replica took something from the client and has not posted to it since: its newest entry with the client is a take.
    pub fn is_unanswered(&self, client: ClientId) -> bool
        ensures { IsTrue result ↔ IsUnanswered client self.now.log }
    {
        // For the proof: the number is below 32.
        let _number = client.number();
        self.serving.has(client)
    }

    /// Returns the last client that it proposed, in a slot of its own, or `None` if it proposed none.
    pub fn last_picked(&self) -> Option<ClientId>
        ensures { result ≡ last_proposed self.now.shape self.now.log }
    {
        self.serving.picked()
    }

    /// Tells whether anybody's box to this replica looks full; only a take shows whether it is. Requires a seat of this mail.
    pub fn has_mail(&self, mail: &Mail) -> bool
        requires mail { IsPassOf mail.now self.now }
    {
        self.loyal.seat().has_mail(mail.boxes())
    }

    /// Posts to `to` by the choice `pick`. It waits for nobody. Refused with the first of these that holds: `NoActor` if the shape has no such
    /// actor; `NotDue` if the protocol has no such post now; `Exhausted` if a counter would pass its limit. Then, in an order that no clause fixes,
    /// `BoxFull` if the box is not empty (`to` has not taken the last envelope, or still empties the box), and `NoMemory` if memory runs out. A refusal
    /// changes nothing. Requires a seat of this mail.
    pub fn try_post(
        &mut self,
        alloc: Global,
        mail: &Mail,
        to: Actor,
        pick: Pick,
    ) -> Result<(), Refusal>
        requires mail { IsPassOf mail.now self.old }
        ensures ok { OnOk result ((x : Envelope) × (post_of self.old.shape self.old.log self.old.actor to pick ≡ Some x)
            × (self.new ≡ with_entry self.old (Post to x))) }
        ensures err { OnErr result (self.new ≡ self.old) }
        ensures refused { (refusal : Refusal) → post_refused self.old.shape self.old.actor self.old.log to pick ≡ Some refusal → result ≡ Err refusal }
        ensures last { IfErr result (IsRefusedBy (post_refused self.old.shape self.old.actor self.old.log to pick) Refusal.BoxFull) }
    {
        match self.loyal.try_post(alloc, mail.boxes(), &to, &pick) {
            Ok(()) => {}
            Err(refusal) => return Err(refusal),
        }
        self.serving.note_post(&to, &pick);
        Ok(())
    }

    /// Takes the envelope that `from` posted to this replica. It waits for nobody. Refused with the first of these that holds: `NoActor` if the
    /// shape has no such actor; `NotDue` if `from` is a replica and the take is not due. Then, in an order that no clause fixes, `BoxEmpty` if the box
    /// is not full (it is empty, or `from` still fills it), and `NoMemory` if memory runs out. A refusal changes nothing. Requires a seat of this mail.
    pub fn try_take(&mut self, mail: &Mail, from: Actor) -> Result<(), Refusal>
        requires mail { IsPassOf mail.now self.old }
        ensures ok { OnOk result ((x : Envelope) × IsEnvelope x × (self.new ≡ with_entry self.old (Take from x))) }
        ensures err { OnErr result (self.new ≡ self.old) }
        ensures refused { (refusal : Refusal) → take_refused self.old.shape self.old.actor self.old.log from ≡ Some refusal → result ≡ Err refusal }
        ensures last { IfErr result (IsRefusedBy (take_refused self.old.shape self.old.actor self.old.log from) Refusal.BoxEmpty) }
    {
        match self.loyal.try_take(mail.boxes(), &from) {
            Ok(_) => {}
            Err(refusal) => return Err(refusal),
        }
        self.serving.note_take(&from);
        Ok(())
    }

    /// Sleeps while the replica `to` has not taken what this seat last posted to it. It may return earlier, so the caller tries again. `NoActor` if the
    /// shape has no such actor, `WrongRole` if `to` is a client: no replica waits for clients. Requires a seat of this mail.
    pub fn wait_to<R: Wait>(&self, rt: &R, mail: &Mail, to: Actor) -> Result<(), Refusal>
        requires mail { IsPassOf mail.now self.now }
        ensures refused { (refusal : Refusal) → wait_refused self.now.shape to ≡ Some refusal → result ≡ Err refusal }
        ensures ok { wait_refused self.now.shape to ≡ None → result ≡ Ok tt }
    {
        self.loyal.seat().wait_to(rt, mail.boxes(), &to)
    }

    /// Sleeps while the replica `from` has posted nothing that could be taken. It may return earlier, so the caller tries again. `NoActor` if the
    /// shape has no such actor, `WrongRole` if `from` is a client: no replica waits for clients. Requires a seat of this mail.
    pub fn wait_from<R: Wait>(&self, rt: &R, mail: &Mail, from: Actor) -> Result<(), Refusal>
        requires mail { IsPassOf mail.now self.now }
        ensures refused { (refusal : Refusal) → wait_refused self.now.shape from ≡ Some refusal → result ≡ Err refusal }
        ensures ok { wait_refused self.now.shape from ≡ None → result ≡ Ok tt }
    {
        self.loyal.seat().wait_from(rt, mail.boxes(), &from)
    }

    /// Wakes everybody who sleeps at the mail now, so that each tries again. It may miss a thread that is about to sleep: to end other threads, call it
    /// again until they have ended. Requires a seat of this mail.
    pub fn wake(&self, mail: &Mail)
        requires mail { IsPassOf mail.now self.now }
    {
        mail.boxes().wake_all();
    }
}
