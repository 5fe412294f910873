ghost use Rattle.std.specs.Prelude.{IfSome, IfNone, ◌⊎◌, ◌≡◌, ◌↔◌, ℕ, ◌<◌, ◌≤◌, ◌+◌, [], List, Option, Some, Err, length, reverse, IfOk, IsOk, OnErr, IsOkUnless};
ghost use Rattle.dsr_names.specs.Shape.{IsLoyal};
ghost use Rattle.dsr_names.specs.declared.actor.Actor.TheVariants.{Replica as ReplicaNumber, Client as ClientNumber};
ghost use Rattle.dsr_base.specs.Growth.{Extends};
ghost use Rattle.dsr_base.specs.Member.{In};
ghost use Rattle.dsr_history.specs.History.{IsLegal};
ghost use Rattle.dsr_names.specs.declared.refusal.Refusal.{Refusal};
ghost use Rattle.dsr_world.specs.Event.{HasDone, IsRefusedBy, IsForgedAtLast, refusal_of};
ghost use Rattle.dsr_run.specs.History.{accepted_by, decided_at, history, seen_by};
ghost use Rattle.dsr_world.specs.Outcome.{HasEnded};
ghost use Rattle.dsr_run.specs.Agreement.{HasAgreement};
ghost use Rattle.dsr_run.specs.Linearizable.{IsLinearization, IsLinearizable};
ghost use Rattle.dsr_run.specs.Right.{IsRight, IsRightReply, TookAllReplies, HasReplyTo};
ghost use Rattle.dsr_ledger.specs.declared.reply.Reply.{Reply as AReply};
ghost use Rattle.dsr_run.specs.Run.{IsRun};
ghost use Rattle.dsr_run.specs.Step.{Step, log_of};

use crate::entries::Entries;
use crate::run_end::RunEnd;
use crate::stage::Stage;
use dsr_envelope::Entry;
use dsr_ledger::Reply;
use dsr_names::{Actor, ClientId, Refusal, ReplicaId, Shape};
use dsr_play::Event;
use dsr_request::Request;
use dsr_slot::Decision;
use std::alloc::Global;
use std::marker::Model;

/// All actors of a shape, the boxes between them, and every step that they have taken: a run. A loyal actor is a real replica or
/// client; a traitor posts anything that forges nothing.
#[derive(Drop)]
pub struct World {
    stage: Stage,
    entries: Entries,
}

impl Model for World {
    ghost use Rattle.dsr_world.specs.World.{World};
    ghost use Rattle.dsr_world.specs.Support.WorldFields.{world_of, IsWorldFields};

    ghost Value = { World };

    ghost view = { world_of };

    ghost invariant = { IsWorldFields };
}

impl World {
    /// Makes the world of this shape before any step. `NoMemory` if memory runs out.
    pub fn open(alloc: Global, shape: Shape) -> Result<World, Refusal>
        ensures shape { IfOk result (λ world. world.shape ≡ shape) }
        ensures empty { IfOk result (λ world. world.run ≡ []) }
        ensures refusal { IsOkUnless result Refusal.NoMemory }
    {
        let stage = Stage::open(alloc, shape)?;
        Ok(World {
            stage,
            entries: Entries::kept(alloc),
        })
    }

    /// Returns the shape.
    pub fn shape(&self) -> &Shape
        ensures { result.now ≡ self.now.shape }
    {
        self.stage.shape()
    }

    /// Returns its stage: the actors and the boxes as its run left them.
    pub fn stage(&self) -> &Stage
        ensures shape { result.now.shape ≡ self.now.shape }
        ensures run { result.now.run ≡ self.now.run }
    {
        &self.stage
    }

    /// Returns the steps of its run, in order: who took each, and the entry of that actor's log.
    pub fn entries(&self) -> &[(Actor, Entry)]
        ensures same { result.now ≡ reverse self.now.run }
        ensures run { IsRun self.now.shape self.now.run }
    {
        // For the proof: the steps are a run.
        self.stage.steps_are_a_run();
        self.entries.as_slice()
    }

    /// Returns the replies that a client accepted, in the order of acceptance. `NoActor` if it is not a client of the shape.
    pub fn accepted(&self, client: ClientId) -> Result<&[Reply], Refusal>
        ensures same { IfOk result (λ replies. replies.now ≡ reverse (accepted_by self.now.shape (log_of self.now.run) client)) }
        ensures when { IsOk result ↔ client < self.now.shape.m }
        ensures refusal { IsOkUnless result Refusal.NoActor }
        ensures right { (reply : AReply) → IfOk result (λ replies. In reply replies.now
            → IsRightReply self.now.shape (history self.now.shape (log_of self.now.run)) (log_of self.now.run (ClientNumber client)) reply) }
        ensures answered { (number : ℕ) → TookAllReplies self.now.shape (log_of self.now.run (ClientNumber client)) number
            → IfOk result (λ replies. HasReplyTo number replies.now) }
    {
        self.stage.accepted(client)
    }

    /// Returns a client's seen front, which is at most the length of the history. `NoActor` if it is not a client of the shape.
    pub fn seen(&self, client: ClientId) -> Result<u64, Refusal>
        ensures same { IfOk result (λ front. front ≡ seen_by self.now.shape (log_of self.now.run) client) }
        ensures within { IfOk result (λ front. front ≤ length (history self.now.shape (log_of self.now.run))) }
        ensures when { IsOk result ↔ client < self.now.shape.m }
        ensures refusal { IsOkUnless result Refusal.NoActor }
    {
        self.stage.seen(client)
    }

    /// Returns what a loyal replica decided for its closed slots, in the order of the slots. `NoActor` if it is not a replica of the
    /// shape, `WrongRole` if it is a traitor.
    pub fn decided(&self, replica: ReplicaId) -> Result<&[Decision], Refusal>
        ensures same { IfOk result (λ values. values.now ≡ reverse (decided_at self.now.shape (log_of self.now.run) replica)) }
        ensures when { IsOk result ↔ IsLoyal self.now.shape (ReplicaNumber replica) }
        ensures outside { (result ≡ Err Refusal.NoActor) ↔ self.now.shape.n ≤ replica }
        ensures refusal { OnErr result (result ≡ Err Refusal.NoActor ⊎ result ≡ Err Refusal.WrongRole) }
    {
        self.stage.decided(replica)
    }

    /// Returns the history: the requests that acted, in order, at the loyal replica with the most closed slots.
    pub fn history(&self) -> &[Request]
        ensures same { result.now ≡ reverse (history self.now.shape (log_of self.now.run)) }
        ensures linearizes { IsLinearization self.now.shape self.now.run (reverse result.now) }
        ensures legal { IsLegal (history self.now.shape (log_of self.now.run)) }
        ensures grew { (earlier : List Step) → Extends self.now.run earlier
            → Extends (history self.now.shape (log_of self.now.run)) (history self.now.shape (log_of earlier)) }
    {
        self.stage.history()
    }

    /// Makes the event happen, and returns the reply that a client accepts with it, if any.
    ///
    /// Refused with the first of these that holds: `NoActor` if an actor is not one of the shape; `WrongRole` if this is not the
    /// actor's part; `NotDue` if the actor's protocol has no such step now; `Exhausted` if a counter would pass its limit; `BoxFull`
    /// or `BoxEmpty` if the box of a post is full, or that of a take empty; `Forged` if a traitor's envelope has a signature that is
    /// neither a traitor's nor posted by its signer; `NoMemory` if memory runs out. After each of them the world is as before.
    pub fn step(&mut self, alloc: Global, event: &Event) -> Result<Option<Reply>, Refusal>
        ensures done { IfOk result (HasDone self.old.shape self.new.run self.old.run event.now) }
        ensures refused { (refusal : Refusal) → refusal_of self.old.shape (log_of self.old.run) event.now ≡ Some refusal → result ≡ Err refusal }
        ensures forged { (result ≡ Err Refusal.Forged) ↔ IsForgedAtLast self.old.shape (log_of self.old.run) event.now }
        ensures last { (refusal : Refusal) → result ≡ Err refusal → IsRefusedBy self.old.shape (log_of self.old.run) event.now refusal }
        ensures unchanged { OnErr result (self.new ≡ self.old) }
        ensures shape { self.new.shape ≡ self.old.shape }
    {
        self.stage.step_in(alloc, event, &mut self.entries)
    }

    /// Makes each of the events happen in turn, skipping refused ones, and returns how many were done and refused. If memory runs out
    /// for an event, it is refused with `NoMemory`, and counted in `starved` too.
    pub fn run(&mut self, alloc: Global, events: &[Event]) -> RunEnd
        ensures ended { HasEnded self.old.shape self.new.run self.old.run events.now result }
        ensures all { result.done + result.refused ≡ length events.now }
        ensures grew { Extends self.new.run self.old.run }
        ensures done { length self.new.run ≡ result.done + length self.old.run }
        ensures shape { self.new.shape ≡ self.old.shape }
        ensures run { IsRun self.new.shape self.new.run }
        ensures agreement { HasAgreement self.new.shape self.new.run }
        ensures right { IsRight self.new.shape self.new.run }
        ensures linearizable { IsLinearizable self.new.shape self.new.run }
    {
        self.stage.run_in(alloc, events, &mut self.entries)
    }
}
