ghost use Rattle.std.specs.Prelude.{IfSome, IfNone, ◌⊎◌, OnOk, ◌≡◌, ◌↔◌, ◌&&◌, ℕ, ◌<◌, ◌≤◌, ◌+◌, [], List, Option, None, Some, Err, length, reverse, IfOk, IsOk, OnErr, IsTrue, IsOkUnless};
ghost use Rattle.std.specs.Option.{option_map};
ghost use Rattle.dsr_names.specs.Shape.{IsActor, IsLoyal, is_traitor};
ghost use Rattle.dsr_names.specs.declared.actor.Actor.TheVariants.{Replica as ReplicaNumber, Client as ClientNumber};
ghost use Rattle.dsr_node.specs.Node.{PlaysReplica};
ghost use Rattle.dsr_client.specs.Client.{StandsFor as StandsForClient};
ghost use Rattle.dsr_names.specs.declared.refusal.Refusal.TheVariants.{NoActor, WrongRole};
ghost use Rattle.dsr_envelope.specs.declared.envelope.Envelope.{Envelope};
ghost use Rattle.dsr_envelope.specs.Limits.{IsEnvelope};
ghost use Rattle.dsr_envelope.specs.Log.{posted_to};
ghost use Rattle.dsr_play.specs.declared.event.Event.TheVariants.{Post, Plant, Take, Tell};
ghost use Rattle.dsr_base.specs.Growth.{Extends};
ghost use Rattle.dsr_base.specs.Member.{In};
ghost use Rattle.dsr_history.specs.History.{IsLegal};
ghost use Rattle.dsr_desk.specs.Signature.{Signature, signed};
ghost use Rattle.dsr_envelope.specs.Envelope.{Carries};
ghost use Rattle.dsr_names.specs.declared.actor.Actor.{Actor};
ghost use Rattle.dsr_names.specs.declared.refusal.Refusal.{Refusal};
ghost use Rattle.dsr_world.specs.Event.{in_box, HasDone, IsRefusedBy, IsForgedAtLast, is_full, refusal_of};
ghost use Rattle.dsr_node.specs.Conduct.{is_actor, are_clients, is_own_client, post_of};
ghost use Rattle.dsr_envelope.specs.declared.entry.Entry.TheVariants.{Post as PostEntry};
ghost use Rattle.dsr_envelope.specs.declared.pick.Pick.TheVariants.{Plain};
ghost use Rattle.dsr_client.specs.Conduct.{ask_to};
ghost use Rattle.dsr_run.specs.History.{accepted_by, decided_at, history, seen_by};
ghost use Rattle.dsr_world.specs.Outcome.{HasEnded};
ghost use Rattle.dsr_run.specs.Agreement.{HasAgreement};
ghost use Rattle.dsr_run.specs.Linearizable.{IsLinearization, IsLinearizable};
ghost use Rattle.dsr_run.specs.Right.{IsRight, IsRightReply, TookAllReplies, HasReplyTo};
ghost use Rattle.dsr_ledger.specs.declared.reply.Reply.{Reply as AReply};
ghost use Rattle.dsr_run.specs.Run.{IsRun, IsTraitor, IsMadeOrPosted, ForgesNothing};
ghost use Rattle.dsr_run.specs.Step.{Step, log_of};
ghost use Rattle.dsr_world.specs.Stage.{last_taken};
ghost use Rattle.dsr_world.specs.Support.StageFields.{box_refusal};
ghost use Rattle.dsr_world.specs.Support.EntriesFields.{AreOf};

use crate::entries::Entries;
use crate::first_nodes::{client_node, keep, replica_node};
use crate::letters::{keep_letter, kept_of, learn, lent, no_letters};
use crate::local_letter::LocalLetter;
use crate::replies::Replies;
use crate::run_end::RunEnd;
use crate::steps::Steps;
use dsr_base::Boxes;
use dsr_client::Client;
use dsr_desk::{Key, Keys};
use dsr_envelope::{Envelope, Letter, Pick};
use dsr_ledger::Reply;
use dsr_names::{Actor, ClientId, NUMBER_END, Refusal, ReplicaId, Shape};
use dsr_node::{Node, are_clients, is_own_client, is_traitor, look_at};
use dsr_play::Event;
use dsr_replica::Replica;
use dsr_request::Request;
use dsr_script::{Draft, Forged, Known, build, forged_in};
use dsr_slot::Decision;
use std::alloc::Global;
use std::marker::Model;
use std::mem::forget;

/// All actors of a shape and the boxes between them, without a record of their steps, which are a run. A loyal actor is a real
/// replica or client; a traitor posts anything that forges nothing. Only proofs know the run; a `World` keeps it too.
#[derive(Drop)]
pub struct Stage {
    shape: Shape,
    nodes: Vec<Node>,
    boxes: Boxes<LocalLetter>,
    keys: Vec<Key>,
    known: Known,
    /// The letter that each loyal actor last posted to replica 0, at the actor's place; `None` if no such letter is stored.
    letters: Vec<Option<LocalLetter>>,
    replies: Replies,
    steps: Steps,
}

impl Model for Stage {
    ghost use Rattle.dsr_world.specs.Stage.{Stage};
    ghost use Rattle.dsr_world.specs.Support.StageFields.{stage_of, IsStageFields};

    ghost Value = { Stage };

    ghost view = { stage_of };

    ghost invariant = { IsStageFields };
}

impl Stage {
    /// Makes the stage of this shape before any step. `NoMemory` if memory runs out.
    pub fn open(alloc: Global, shape: Shape) -> Result<Stage, Refusal>
        ensures shape { IfOk result (λ stage. stage.shape ≡ shape) }
        ensures empty { IfOk result (λ stage. stage.run ≡ []) }
        ensures refusal { IsOkUnless result Refusal.NoMemory }
    {
        let count = shape.n() as usize + shape.m() as usize;
        let mut keys = Keys::new(alloc, shape)?;
        let mut nodes = Vec::with_capacity(alloc, count)?;
        let mut traitors = Vec::new(alloc);
        for number in 0..shape.n() {
            let (node, key) = replica_node(alloc, &shape, &mut keys, number)?;
            nodes.push(node)?;
            keep(&mut traitors, key)?;
        }
        for number in 0..shape.m() {
            nodes.push(client_node(alloc, &shape, &mut keys, number))?;
        }
        Ok(Stage {
            shape,
            nodes,
            boxes: Boxes::new(alloc, count)?,
            keys: traitors,
            known: Known::new(alloc),
            letters: no_letters(alloc, count)?,
            replies: Replies::for_clients(alloc, shape.m())?,
            steps: Steps::new(),
        })
    }

    /// Returns the shape.
    pub fn shape(&self) -> &Shape
        ensures { result.now ≡ self.now.shape }
    {
        &self.shape
    }

    /// States that its steps are a run. It does nothing.
    pub fn steps_are_a_run(&self)
        ensures { IsRun self.now.shape self.now.run }
    {
        // For the proof: what the fields represent is a run.
        let _n = self.shape.n();
    }

    /// Returns the replies that a client accepted, in the order of acceptance. `NoActor` if it is not a client of the shape.
    pub fn accepted(&self, client: ClientId) -> Result<&[Reply], Refusal>
        ensures same { IfOk result (λ replies. replies.now ≡ reverse (accepted_by self.now.shape (log_of self.now.run) client)) }
        ensures when { IsOk result ↔ client < self.now.shape.m }
        ensures refusal { IsOkUnless result Refusal.NoActor }
        ensures right { (reply : AReply) → IfOk result (λ replies. In reply replies.now
            → IsRightReply self.now.shape (history self.now.shape (log_of self.now.run)) (log_of self.now.run (ClientNumber client)) reply) }
        ensures answered { (number : ℕ) → TookAllReplies self.now.shape (log_of self.now.run (ClientNumber client)) number
            → IfOk result (λ replies. HasReplyTo number replies.now) }
    {
        if client.number() >= self.shape.m() {
            return Err(Refusal::NoActor);
        }
        Ok(self.nodes[self.shape.place(&Actor::Client(client))].accepted())
    }

    /// Returns a client's seen front, which is at most the length of the history. `NoActor` if it is not a client of the shape.
    pub fn seen(&self, client: ClientId) -> Result<u64, Refusal>
        ensures same { IfOk result (λ front. front ≡ seen_by self.now.shape (log_of self.now.run) client) }
        ensures within { IfOk result (λ front. front ≤ length (history self.now.shape (log_of self.now.run))) }
        ensures when { IsOk result ↔ client < self.now.shape.m }
        ensures refusal { IsOkUnless result Refusal.NoActor }
    {
        if client.number() >= self.shape.m() {
            return Err(Refusal::NoActor);
        }
        Ok(self.nodes[self.shape.place(&Actor::Client(client))].seen())
    }

    /// Returns a loyal replica. `NoActor` if it is not a replica of the shape, `WrongRole` if it is a traitor.
    pub fn replica(&self, replica: ReplicaId) -> Result<&Replica, Refusal>
        ensures plays { IfOk result (λ loyal. PlaysReplica self.now.shape replica (log_of self.now.run (ReplicaNumber replica)) loyal.now) }
        ensures when { IsOk result ↔ IsLoyal self.now.shape (ReplicaNumber replica) }
        ensures outside { (result ≡ Err Refusal.NoActor) ↔ self.now.shape.n ≤ replica }
        ensures refusal { OnErr result (result ≡ Err Refusal.NoActor ⊎ result ≡ Err Refusal.WrongRole) }
    {
        if replica.number() >= self.shape.n() {
            return Err(Refusal::NoActor);
        }
        match self.nodes[replica.number() as usize].replica() {
            Some(loyal) => Ok(loyal),
            None => Err(Refusal::WrongRole),
        }
    }

    /// Returns a client. `NoActor` if it is not a client of the shape.
    pub fn client(&self, client: ClientId) -> Result<&Client, Refusal>
        ensures stands { IfOk result (λ c. StandsForClient c.now (log_of self.now.run (ClientNumber client))) }
        ensures me { IfOk result (λ c. c.now.me ≡ client) }
        ensures shape { IfOk result (λ c. c.now.shape ≡ self.now.shape) }
        ensures when { IsOk result ↔ client < self.now.shape.m }
        ensures refusal { IsOkUnless result Refusal.NoActor }
    {
        if client.number() >= self.shape.m() {
            return Err(Refusal::NoActor);
        }
        Ok(self.nodes[self.shape.place(&Actor::Client(client))].client())
    }

    /// Returns the letter in the box from one actor to another: the first that was posted there and not taken. Requires two actors of the shape.
    pub fn in_box(&self, from: &Actor, to: &Actor) -> Option<&Letter>
        requires from { IsActor self.now.shape from.now }
        requires to { IsActor self.now.shape to.now }
        ensures { option_map (λ letter. letter.now) result ≡ in_box (log_of self.now.run) from.now to.now }
    {
        let (poster, taker) = (self.shape.place(from), self.shape.place(to));
        let local = self.boxes.item(poster, taker)?;
        Some(local.letter())
    }

    /// Returns the letter that was taken last; `None` before the first take.
    pub fn last_taken(&self) -> Option<&Letter>
        ensures { option_map (λ letter. letter.now) result ≡ last_taken self.now.run }
    {
        self.steps.last_taken()
    }

    /// Returns how many envelopes were posted into the box from one actor to another. Requires two actors of the shape.
    pub fn posts(&self, from: &Actor, to: &Actor) -> u64
        requires from { IsActor self.now.shape from.now }
        requires to { IsActor self.now.shape to.now }
        ensures { result ≡ length (posted_to to.now (log_of self.now.run from.now)) }
    {
        let (poster, taker) = (self.shape.place(from), self.shape.place(to));
        self.boxes.posts(poster, taker)
    }

    /// Returns a signature in the draft for which the stage would refuse a traitor's post of it as forged now: the signature is not a
    /// traitor's, and its signer has not posted it. `None` exactly if the draft has no such signature. In a shape without traitors the
    /// answer says nothing about forgery, because there the stage does not note the posts.
    pub fn forged_in(&self, draft: &Draft) -> Option<Forged>
        ensures carried { IfSome result (λ forged. Carries draft.now (signed forged.signer forged.statement)) }
        ensures forged { (p : ℕ) → IsTraitor self.now.shape (ReplicaNumber p)
            → IfSome result (λ forged. ¬ IsMadeOrPosted self.now.shape (log_of self.now.run) (signed forged.signer forged.statement)) }
        ensures none { (p : ℕ) → IsTraitor self.now.shape (ReplicaNumber p)
            → IfNone result ((s : Signature) → Carries draft.now s → IsMadeOrPosted self.now.shape (log_of self.now.run) s) }
    {
        forged_in(draft, self.keys.as_slice(), &self.known)
    }

    /// Returns what a loyal replica decided for its closed slots, in the order of the slots. `NoActor` if it is not a replica of the
    /// shape, `WrongRole` if it is a traitor.
    pub fn decided(&self, replica: ReplicaId) -> Result<&[Decision], Refusal>
        ensures same { IfOk result (λ values. values.now ≡ reverse (decided_at self.now.shape (log_of self.now.run) replica)) }
        ensures when { IsOk result ↔ IsLoyal self.now.shape (ReplicaNumber replica) }
        ensures outside { (result ≡ Err Refusal.NoActor) ↔ self.now.shape.n ≤ replica }
        ensures refusal { OnErr result (result ≡ Err Refusal.NoActor ⊎ result ≡ Err Refusal.WrongRole) }
    {
        match self.replica(replica) {
            Ok(loyal) => Ok(loyal.decided()),
            Err(refusal) => Err(refusal),
        }
    }

    /// Returns the history: the requests that acted, in order, at the loyal replica with the most closed slots.
    pub fn history(&self) -> &[Request]
        ensures same { result.now ≡ reverse (history self.now.shape (log_of self.now.run)) }
        ensures linearizes { IsLinearization self.now.shape self.now.run (reverse result.now) }
        ensures legal { IsLegal (history self.now.shape (log_of self.now.run)) }
        ensures grew { (earlier : List Step) → Extends self.now.run earlier
            → Extends (history self.now.shape (log_of self.now.run)) (history self.now.shape (log_of earlier)) }
    {
        let mut history: &[Request] = &[];
        let mut closed = 0;
        for number in 0..self.shape.n() {
            if let Some(replica) = self.nodes[number as usize].replica() {
                let decided = replica.decided();
                if decided.len() > closed {
                    closed = decided.len();
                    history = replica.history();
                }
            }
        }
        history
    }

    /// Makes the event happen, and returns the reply that a client accepts with it, if any.
    ///
    /// Refused with the first of these that holds: `NoActor` if an actor is not one of the shape; `WrongRole` if this is not the
    /// actor's part; `NotDue` if the actor's protocol has no such step now; `Exhausted` if a counter would pass its limit; `BoxFull`
    /// or `BoxEmpty` if the box of a post is full, or that of a take empty; `Forged` if a traitor's envelope has a signature that is
    /// neither a traitor's nor posted by its signer; `NoMemory` if memory runs out. After each of them the stage is as before.
    pub fn step(&mut self, alloc: Global, event: &Event) -> Result<Option<Reply>, Refusal>
        ensures done { IfOk result (HasDone self.old.shape self.new.run self.old.run event.now) }
        ensures refused { (refusal : Refusal) → refusal_of self.old.shape (log_of self.old.run) event.now ≡ Some refusal → result ≡ Err refusal }
        ensures forged { (result ≡ Err Refusal.Forged) ↔ IsForgedAtLast self.old.shape (log_of self.old.run) event.now }
        ensures last { (refusal : Refusal) → result ≡ Err refusal → IsRefusedBy self.old.shape (log_of self.old.run) event.now refusal }
        ensures unchanged { OnErr result (self.new ≡ self.old) }
        ensures shape { self.new.shape ≡ self.old.shape }
    {
        let mut nothing = Entries::not_kept(alloc);
        self.step_in(alloc, event, &mut nothing)
    }

    /// Leaves the stage in memory, which is never freed then. This is for a program that ends soon, since to free a long run takes a while.
    pub fn leave(self) {
        forget(self);
    }

    /// Makes the event happen as `step` does, and adds its step to the entries if they are kept. It and what it calls are inlined where the
    /// kind of the event is known, as in the lines of a play: only one branch of each is left there.
    #[inline(always)]
    pub(crate) fn step_in(
        &mut self,
        alloc: Global,
        event: &Event,
        entries: &mut Entries,
    ) -> Result<Option<Reply>, Refusal>
        ensures done { IfOk result (HasDone self.old.shape self.new.run self.old.run event.now) }
        ensures refused { (refusal : Refusal) → refusal_of self.old.shape (log_of self.old.run) event.now ≡ Some refusal → result ≡ Err refusal }
        ensures forged { (result ≡ Err Refusal.Forged) ↔ IsForgedAtLast self.old.shape (log_of self.old.run) event.now }
        ensures last { (refusal : Refusal) → result ≡ Err refusal → IsRefusedBy self.old.shape (log_of self.old.run) event.now refusal }
        ensures unchanged { OnErr result (self.new ≡ self.old) }
        ensures shape { self.new.shape ≡ self.old.shape }
        ensures kept { entries.new.are_kept ≡ entries.old.are_kept }
        ensures added { OnOk result (AreOf entries.old self.old.run → AreOf entries.new self.new.run) }
        ensures left { OnErr result (entries.new.items.items ≡ entries.old.items.items) }
    {
        match event {
            Event::Post { from, to, pick } => self.post(alloc, from, to, &pick.pick(), entries),
            Event::Plant { from, to, draft } => self.plant(alloc, from, to, draft, entries),
            Event::Take { at, from } => self.take(alloc, at, from, entries),
            Event::Tell { from, to } => self.tell(alloc, from, to, entries),
        }
    }

    /// Makes each of the events happen in turn, skipping refused ones, and returns how many were done and refused; adds their steps to
    /// the entries if they are kept. If memory runs out for an event, it is refused with `NoMemory`, and counted in `starved` too.
    pub(crate) fn run_in(
        &mut self,
        alloc: Global,
        events: &[Event],
        entries: &mut Entries,
    ) -> RunEnd
        ensures ended { HasEnded self.old.shape self.new.run self.old.run events.now result }
        ensures all { result.done + result.refused ≡ length events.now }
        ensures grew { Extends self.new.run self.old.run }
        ensures done { length self.new.run ≡ result.done + length self.old.run }
        ensures shape { self.new.shape ≡ self.old.shape }
        ensures run { IsRun self.new.shape self.new.run }
        ensures agreement { HasAgreement self.new.shape self.new.run }
        ensures right { IsRight self.new.shape self.new.run }
        ensures linearizable { IsLinearizable self.new.shape self.new.run }
        ensures kept { entries.new.are_kept ≡ entries.old.are_kept }
        ensures added { AreOf entries.old self.old.run → AreOf entries.new self.new.run }
    {
        let mut end = RunEnd::new();
        for event in events {
            let outcome = self.step_in(alloc, event, entries).err();
            end.add(outcome);
        }
        // For the proof: at most f replicas are traitors.
        let _n = self.shape.n();
        end
    }

    /// Makes a loyal actor post.
    #[inline(always)]
    fn post(
        &mut self,
        alloc: Global,
        from: &Actor,
        to: &Actor,
        pick: &Pick,
        entries: &mut Entries,
    ) -> Result<Option<Reply>, Refusal>
        ensures done { IfOk result (HasDone self.old.shape self.new.run self.old.run (Post from.now to.now pick.now)) }
        ensures refused { (refusal : Refusal)
            → refusal_of self.old.shape (log_of self.old.run) (Post from.now to.now pick.now) ≡ Some refusal → result ≡ Err refusal }
        ensures last { (refusal : Refusal) → result ≡ Err refusal
            → IsRefusedBy self.old.shape (log_of self.old.run) (Post from.now to.now pick.now) refusal }
        ensures unchanged { OnErr result (self.new ≡ self.old) }
        ensures shape { self.new.shape ≡ self.old.shape }
        ensures kept { entries.new.are_kept ≡ entries.old.are_kept }
        ensures added { OnOk result (AreOf entries.old self.old.run → AreOf entries.new self.new.run) }
        ensures left { OnErr result (entries.new.items.items ≡ entries.old.items.items) }
    {
        if let Some(refusal) = self.post_refusal(from, to, pick) {
            return Err(refusal);
        }
        look_at(pick);
        // For the proof: at most f replicas are traitors.
        let _n = self.shape.n();
        let (poster, taker) = (self.shape.place(from), self.shape.place(to));
        let Ok(letter) = self.letter_for(alloc, from, to, pick) else {
            return Err(Refusal::NoMemory);
        };
        let again = kept_of(to, &letter)?;
        self.replies.note(to, &letter)?;
        let copy = entries.make_room_for(&letter)?;
        learn(
            &mut self.known,
            self.keys.as_slice(),
            from,
            to,
            letter.envelope(),
        )?;
        self.nodes[poster].posted(*to, *pick);
        keep_letter(&mut self.letters, poster, again);
        self.steps.add_post(from, to, &letter);
        self.boxes.put(poster, taker, letter);
        entries.keep_post(from, to, copy);
        Ok(None)
    }

    /// Makes the letter of a loyal actor's post, which nothing refuses. What a replica posts to replica 0 it posts as the same letter
    /// to the others in that round, and a client's ask of replica 0 goes to the others as the same letter. `NoMemory` if memory runs
    /// out or one more handle is refused.
    #[inline(always)]
    fn letter_for(
        &self,
        alloc: Global,
        from: &Actor,
        to: &Actor,
        pick: &Pick,
    ) -> Result<LocalLetter, Refusal>
        requires { refusal_of self.now.shape (log_of self.now.run) (Post from.now to.now pick.now) ≡ None }
        ensures given { IfOk result (λ letter. post_of self.now.shape (log_of self.now.run from.now) from.now to.now pick.now ≡ Some letter) }
        ensures refusal { IsOkUnless result Refusal.NoMemory }
    {
        if let Some(letter) = self.posted_before(from, to, pick) {
            return letter.try_copy();
        }
        let poster = self.shape.place(from);
        let Ok(envelope) = self.nodes[poster].envelope_for(alloc, *to, *pick) else {
            return Err(Refusal::NoMemory);
        };
        self.replies.letter_of(alloc, to, envelope)
    }

    /// Returns the letter that a loyal actor posted to replica 0 and now posts again: a replica's of the round in progress, to another
    /// replica, or a client's ask with the outstanding request. `None` for any other post, and if no such letter is stored.
    #[inline(always)]
    fn posted_before(&self, from: &Actor, to: &Actor, pick: &Pick) -> Option<&LocalLetter>
        requires { refusal_of self.now.shape (log_of self.now.run) (Post from.now to.now pick.now) ≡ None }
        ensures { IfSome result (λ letter. post_of self.now.shape (log_of self.now.run from.now) from.now to.now pick.now ≡ Some letter.now) }
    {
        match (from, to, pick) {
            (Actor::Replica(poster), Actor::Replica(taker), Pick::Plain) if taker.number() > 0 => {
                self.letters[poster.number() as usize].as_ref()
            }
            (Actor::Client(client), Actor::Replica(_), Pick::Plain) => self.asked_before(*client),
            _ => None,
        }
    }

    /// Returns the stored ask that a client posted to replica 0; `None` if the client does not have its request outstanding.
    fn asked_before(&self, client: ClientId) -> Option<&LocalLetter>
        requires { client < self.now.shape.m }
        ensures { IfSome result (λ letter. ask_to self.now.shape client (log_of self.now.run (ClientNumber client)) Plain ≡ Some letter.now) }
    {
        let place = self.shape.place(&Actor::Client(client));
        let letter = self.letters[place].as_ref()?;
        if self.nodes[place].has_outstanding(letter.envelope()) {
            Some(letter)
        } else {
            None
        }
    }

    /// Makes an actor take.
    #[inline(always)]
    fn take(
        &mut self,
        alloc: Global,
        at: &Actor,
        from: &Actor,
        entries: &mut Entries,
    ) -> Result<Option<Reply>, Refusal>
        ensures done { IfOk result (HasDone self.old.shape self.new.run self.old.run (Take at.now from.now)) }
        ensures refused { (refusal : Refusal)
            → refusal_of self.old.shape (log_of self.old.run) (Take at.now from.now) ≡ Some refusal → result ≡ Err refusal }
        ensures last { (refusal : Refusal) → result ≡ Err refusal
            → IsRefusedBy self.old.shape (log_of self.old.run) (Take at.now from.now) refusal }
        ensures unchanged { OnErr result (self.new ≡ self.old) }
        ensures shape { self.new.shape ≡ self.old.shape }
        ensures kept { entries.new.are_kept ≡ entries.old.are_kept }
        ensures added { OnOk result (AreOf entries.old self.old.run → AreOf entries.new self.new.run) }
        ensures left { OnErr result (entries.new.items.items ≡ entries.old.items.items) }
    {
        if let Some(refusal) = self.take_refusal(at, from) {
            return Err(refusal);
        }
        // For the proof: at most f replicas are traitors.
        let _n = self.shape.n();
        let (poster, taker) = (self.shape.place(from), self.shape.place(at));
        let held = lent(&self.boxes, poster, taker);
        let copy = entries.make_room_for(held)?;
        let Ok(reply) = self.nodes[taker].take(alloc, from, held.envelope()) else {
            return Err(Refusal::NoMemory);
        };
        let letter = self.boxes.take(poster, taker);
        self.steps.add_take(at, from, letter);
        entries.keep_take(at, from, copy);
        Ok(reply)
    }

    /// Makes a client post its seen front to another. It is separate from `step`, as few events are of its kind.
    #[inline(never)]
    fn tell(
        &mut self,
        alloc: Global,
        from: &Actor,
        to: &Actor,
        entries: &mut Entries,
    ) -> Result<Option<Reply>, Refusal>
        ensures done { IfOk result (HasDone self.old.shape self.new.run self.old.run (Tell from.now to.now)) }
        ensures refused { (refusal : Refusal)
            → refusal_of self.old.shape (log_of self.old.run) (Tell from.now to.now) ≡ Some refusal → result ≡ Err refusal }
        ensures last { (refusal : Refusal) → result ≡ Err refusal
            → IsRefusedBy self.old.shape (log_of self.old.run) (Tell from.now to.now) refusal }
        ensures unchanged { OnErr result (self.new ≡ self.old) }
        ensures shape { self.new.shape ≡ self.old.shape }
        ensures kept { entries.new.are_kept ≡ entries.old.are_kept }
        ensures added { OnOk result (AreOf entries.old self.old.run → AreOf entries.new self.new.run) }
        ensures left { OnErr result (entries.new.items.items ≡ entries.old.items.items) }
    {
        if let Some(refusal) = self.tell_refusal(from, to) {
            return Err(refusal);
        }
        // For the proof: at most f replicas are traitors.
        let _n = self.shape.n();
        let (poster, taker) = (self.shape.place(from), self.shape.place(to));
        let envelope = Envelope::Seen(self.nodes[poster].seen());
        let letter = LocalLetter::of(alloc, envelope)?;
        let copy = entries.make_room_for(&letter)?;
        learn(
            &mut self.known,
            self.keys.as_slice(),
            from,
            to,
            letter.envelope(),
        )?;
        self.steps.add_post(from, to, &letter);
        self.boxes.put(poster, taker, letter);
        entries.keep_post(from, to, copy);
        Ok(None)
    }

    /// Makes a traitor post. It is separate from `step`, whose frame it would make ten times as large.
    #[inline(never)]
    fn plant(
        &mut self,
        alloc: Global,
        from: &Actor,
        to: &Actor,
        draft: &Draft,
        entries: &mut Entries,
    ) -> Result<Option<Reply>, Refusal>
        ensures done { IfOk result (HasDone self.old.shape self.new.run self.old.run (Plant from.now to.now draft.now)) }
        ensures refused { (refusal : Refusal)
            → refusal_of self.old.shape (log_of self.old.run) (Plant from.now to.now draft.now) ≡ Some refusal → result ≡ Err refusal }
        ensures last { (refusal : Refusal) → result ≡ Err refusal
            → IsRefusedBy self.old.shape (log_of self.old.run) (Plant from.now to.now draft.now) refusal }
        ensures unchanged { OnErr result (self.new ≡ self.old) }
        ensures shape { self.new.shape ≡ self.old.shape }
        ensures forged { IsForgedAtLast self.old.shape (log_of self.old.run) (Plant from.now to.now draft.now) → result ≡ Err Refusal.Forged }
        ensures kept { entries.new.are_kept ≡ entries.old.are_kept }
        ensures added { OnOk result (AreOf entries.old self.old.run → AreOf entries.new self.new.run) }
        ensures left { OnErr result (entries.new.items.items ≡ entries.old.items.items) }
    {
        let envelope = match self.unforged(alloc, from, to, draft) {
            Ok(envelope) => envelope,
            Err(refusal) => return Err(refusal),
        };
        // For the proof: at most f replicas are traitors.
        let _n = self.shape.n();
        let (poster, taker) = (self.shape.place(from), self.shape.place(to));
        let letter = LocalLetter::of(alloc, envelope)?;
        let copy = entries.make_room_for(&letter)?;
        self.steps.add_post(from, to, &letter);
        self.boxes.put(poster, taker, letter);
        entries.keep_post(from, to, copy);
        Ok(None)
    }

    /// Makes the envelope that a traitor is to post. The refusals are those of `step`.
    fn unforged(
        &self,
        alloc: Global,
        from: &Actor,
        to: &Actor,
        draft: &Draft,
    ) -> Result<Envelope, Refusal>
        ensures same { IfOk result (λ envelope. envelope ≡ draft.now) }
        ensures within { OnOk result (IsEnvelope draft.now) }
        ensures none { OnOk result (refusal_of self.now.shape (log_of self.now.run) (Plant from.now to.now draft.now) ≡ None) }
        ensures made { OnOk result (ForgesNothing self.now.shape (log_of self.now.run) (PostEntry to.now draft.now)) }
        ensures refused { (refusal : Refusal)
            → refusal_of self.now.shape (log_of self.now.run) (Plant from.now to.now draft.now) ≡ Some refusal → result ≡ Err refusal }
        ensures last { (refusal : Refusal) → result ≡ Err refusal
            → IsRefusedBy self.now.shape (log_of self.now.run) (Plant from.now to.now draft.now) refusal }
        ensures forged { IsForgedAtLast self.now.shape (log_of self.now.run) (Plant from.now to.now draft.now) → result ≡ Err Refusal.Forged }
    {
        if let Some(refusal) = self.plant_refusal(from, to, draft) {
            return Err(refusal);
        }
        match build(alloc, draft, self.keys.as_slice(), &self.known) {
            Ok(envelope) => Ok(envelope),
            Err(refusal) => Err(refusal),
        }
    }

    /// Returns the refusal of a loyal actor's post; `None` if the post is allowed.
    #[inline(always)]
    fn post_refusal(&self, from: &Actor, to: &Actor, pick: &Pick) -> Option<Refusal>
        ensures { result ≡ refusal_of self.now.shape (log_of self.now.run) (Post from.now to.now pick.now) }
    {
        if !self.are_actors(from, to) {
            return Some(Refusal::NoActor);
        }
        if is_traitor(&self.shape, from) || are_clients(from, to) {
            return Some(Refusal::WrongRole);
        }
        let place = self.shape.place(from);
        match self.nodes[place].refusal(*to, *pick) {
            Some(refusal) => Some(refusal),
            None => self.box_refusal(from, to),
        }
    }

    /// Returns the refusal of a traitor's post for any reason but its signatures; `None` if only they, or a lack of memory, can refuse it.
    fn plant_refusal(&self, from: &Actor, to: &Actor, _draft: &Draft) -> Option<Refusal>
        ensures { result ≡ refusal_of self.now.shape (log_of self.now.run) (Plant from.now to.now _draft.now) }
    {
        if !self.are_actors(from, to) {
            return Some(Refusal::NoActor);
        }
        if !is_traitor(&self.shape, from) {
            return Some(Refusal::WrongRole);
        }
        self.box_refusal(from, to)
    }

    /// Returns the refusal of a take; `None` if the take is allowed.
    fn take_refusal(&self, at: &Actor, from: &Actor) -> Option<Refusal>
        ensures { result ≡ refusal_of self.now.shape (log_of self.now.run) (Take at.now from.now) }
    {
        if !self.are_actors(at, from) {
            return Some(Refusal::NoActor);
        }
        if is_own_client(at, from) {
            return Some(Refusal::WrongRole);
        }
        let place = self.shape.place(at);
        if self.nodes[place].is_undue(*from) {
            return Some(Refusal::NotDue);
        }
        if !self.is_full(from, at) {
            return Some(Refusal::BoxEmpty);
        }
        None
    }

    /// Returns the refusal of an actor's post of its seen front to another; `None` if the post is allowed.
    fn tell_refusal(&self, from: &Actor, to: &Actor) -> Option<Refusal>
        ensures { result ≡ refusal_of self.now.shape (log_of self.now.run) (Tell from.now to.now) }
    {
        if !self.are_actors(from, to) {
            return Some(Refusal::NoActor);
        }
        if !are_clients(from, to) || is_own_client(from, to) {
            return Some(Refusal::WrongRole);
        }
        self.box_refusal(from, to)
    }

    /// Returns why the box from one actor to another refuses a post; `None` if it does not.
    fn box_refusal(&self, from: &Actor, to: &Actor) -> Option<Refusal>
        requires from { IsActor self.now.shape from.now }
        requires to { IsActor self.now.shape to.now }
        ensures { result ≡ box_refusal (log_of self.now.run) from.now to.now }
    {
        let posts = self
            .boxes
            .posts(self.shape.place(from), self.shape.place(to));
        if posts >= NUMBER_END - 1 {
            return Some(Refusal::Exhausted);
        }
        if self.is_full(from, to) {
            return Some(Refusal::BoxFull);
        }
        None
    }

    /// Tells whether the box from one actor to another holds an envelope.
    fn is_full(&self, from: &Actor, to: &Actor) -> bool
        requires from { IsActor self.now.shape from.now }
        requires to { IsActor self.now.shape to.now }
        ensures { result ≡ is_full (log_of self.now.run) from.now to.now }
    {
        self.boxes
            .item(self.shape.place(from), self.shape.place(to))
            .is_some()
    }

    /// Tells whether both are actors of the shape.
    fn are_actors(&self, one: &Actor, other: &Actor) -> bool
        ensures same { result ≡ (is_actor self.now.shape one.now && is_actor self.now.shape other.now) }
        ensures one { IsTrue result → IsActor self.now.shape one.now }
        ensures other { IsTrue result → IsActor self.now.shape other.now }
    {
        self.shape.has(*one) && self.shape.has(*other)
    }
}
