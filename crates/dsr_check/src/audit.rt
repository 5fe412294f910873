ghost use Rattle.std.specs.Bool.{OnFalse, OnTrue};
ghost use Rattle.std.specs.Prelude.{◌≡◌, ◌<◌, true, false, None, Some, slice_index_or, ◌⊎◌, ◌↔◌, ◌∷◌, ℕ, [], List, Any, IfOk, IfSome, IfNone, OnOk, OnSome, IsTrue, IsOkUnless, length};
ghost use Rattle.dsr_base.specs.Member.{In};
ghost use Rattle.dsr_names.specs.Shape.{IsActor, IsLoyal};
ghost use Rattle.dsr_base.specs.Boxes.{box_at};
ghost use Rattle.dsr_check.specs.declared.held.Held.{Held as AHeld};
ghost use Rattle.dsr_names.specs.declared.actor.Actor.{Actor};
ghost use Rattle.dsr_names.specs.declared.actor.Actor.TheVariants.{Replica as ReplicaNumber};
ghost use Rattle.dsr_desk.specs.Signature.{Signature};
ghost use Rattle.dsr_envelope.specs.Envelope.{Carries};
ghost use Rattle.dsr_envelope.specs.Limits.{IsEnvelope};
ghost use Rattle.dsr_envelope.specs.declared.entry.Entry.TheVariants.{Post, Take};
ghost use Rattle.dsr_script.specs.Held.{IsUnforged};
ghost use Rattle.dsr_run.specs.OwnStep.{KeepsOwn};
ghost use Rattle.dsr_run.specs.Run.{IsNextStep};
ghost use Rattle.dsr_run.specs.Step.{Step, log_of};
ghost use Rattle.dsr_check.specs.declared.party.Party.{Party as AParty};
ghost use Rattle.dsr_check.specs.Support.Audit.{ForgesNone, IsPosted, Holds, IsFirstOf, IsOpen, is_posted_again, with_first, Stands, StandsFor, box_of};

use crate::casting::all_parties;
use crate::held::Held;
use crate::party::Party;
use dsr_base::Boxes;
use dsr_desk::Key;
use dsr_envelope::{Envelope, Letter, Pick};
use dsr_names::{Actor, NUMBER_END, Refusal, ReplicaId, Shape};
use dsr_record::{NotedEntry, NotedStep, all_keys};
use dsr_script::{Draft, Known, build, each_draft_has_a_text, spelled_is_within_limits};
use std::alloc::Global;

/// All actors of a shape and the boxes between them, after the steps that the audit followed so far. These steps are a run.
#[derive(Drop)]
pub(crate) struct Audit<'a> {
    /// The shape.
    pub(crate) shape: Shape,
    /// The actors' parties, at their places.
    pub(crate) parties: Vec<Party>,
    /// The boxes between them.
    pub(crate) boxes: Boxes<Held<'a>>,
    /// A key for each actor: a notary has all of them, to make envelopes from data.
    pub(crate) notary: Vec<Key>,
    /// The traitors' keys.
    pub(crate) keys: Vec<Key>,
    /// The signatures of loyal actors that traitors know.
    pub(crate) known: Known,
    /// The envelope that each actor last posted to replica 0, at its place: a loyal replica posts it to the others in that round too.
    pub(crate) firsts: Vec<Option<Held<'a>>>,
}

impl<'a> Audit<'a> {
    /// Makes the audit of this shape before any step. `NoMemory` if memory runs out.
    pub(crate) fn open(alloc: Global, shape: Shape) -> Result<Audit<'a>, Refusal>
        ensures shape { IfOk result (λ audit. audit.shape ≡ shape) }
        ensures stands { IfOk result (λ audit. StandsFor audit []) }
        ensures refusal { IsOkUnless result Refusal.NoMemory }
    {
        let made = all_parties(alloc, &shape)?;
        let notary = all_keys(alloc, &shape)?;
        let count = shape.n() as usize + shape.m() as usize;
        let boxes = Boxes::new(alloc, count)?;
        let firsts = no_firsts(alloc, count)?;
        Ok(Audit {
            shape,
            parties: made.parties,
            boxes,
            notary,
            keys: made.traitors,
            known: Known::new(alloc),
            firsts,
        })
    }

    /// Tells whether the step may be next, and follows it if so. After a step that may not, drop the audit. `NoMemory` if memory runs out.
    pub(crate) fn follow(&mut self, alloc: Global, step: &'a NotedStep) -> Result<bool, Refusal>
        requires { Stands self.old }
        ensures shape { self.new.shape ≡ self.old.shape }
        ensures next { (run : List Step) → StandsFor self.old run
            → IfOk result (λ next. OnTrue next (StandsFor self.new (step.now ∷ run))) }
        ensures not { (run : List Step) → StandsFor self.old run
            → IfOk result (λ next. OnFalse next (¬ IsNextStep self.old.shape (log_of run) step.now)) }
        ensures refusal { IsOkUnless result Refusal.NoMemory }
    {
        let actor = step.actor();
        match step.entry() {
            NotedEntry::Post { to, envelope } => self.post(alloc, &actor, to, envelope),
            NotedEntry::Take { from, envelope } => self.take(alloc, &actor, from, envelope),
        }
    }

    /// Tells whether this post may be next, and follows it if so.
    fn post(
        &mut self,
        alloc: Global,
        from: &Actor,
        to: &Actor,
        draft: &'a Draft,
    ) -> Result<bool, Refusal>
        requires { Stands self.old }
        ensures shape { self.new.shape ≡ self.old.shape }
        ensures next { (run : List Step) → StandsFor self.old run
            → IfOk result (λ next. OnTrue next (StandsFor self.new ((from.now, Post to.now draft.now) ∷ run))) }
        ensures not { (run : List Step) → StandsFor self.old run
            → IfOk result (λ next. OnFalse next (¬ IsNextStep self.old.shape (log_of run) (from.now, Post to.now draft.now))) }
        ensures refusal { IsOkUnless result Refusal.NoMemory }
    {
        if !self.shape.has(*from) || !self.shape.has(*to) || !self.is_open(from, to) {
            return Ok(false);
        }
        let made = self.post_to_replica(alloc, from, to, draft)?;
        if made {
            return Ok(true);
        }
        let Some(envelope) = self.unforged(alloc, from, draft)? else {
            return Ok(false);
        };
        let held = Held { envelope, draft };
        let next = self.put(alloc, from, to, held)?;
        Ok(next)
    }

    /// Tells whether this take may be next, and follows it if so.
    fn take(
        &mut self,
        alloc: Global,
        at: &Actor,
        from: &Actor,
        draft: &Draft,
    ) -> Result<bool, Refusal>
        requires { Stands self.old }
        ensures shape { self.new.shape ≡ self.old.shape }
        ensures next { (run : List Step) → StandsFor self.old run
            → IfOk result (λ next. OnTrue next (StandsFor self.new ((at.now, Take from.now draft.now) ∷ run))) }
        ensures not { (run : List Step) → StandsFor self.old run
            → IfOk result (λ next. OnFalse next (¬ IsNextStep self.old.shape (log_of run) (at.now, Take from.now draft.now))) }
        ensures refusal { IsOkUnless result Refusal.NoMemory }
    {
        if !self.shape.has(*at) || !self.shape.has(*from) || !self.holds(from, at, draft) {
            return Ok(false);
        }
        let (poster, taker) = (self.shape.place(from), self.shape.place(at));
        let held = self.boxes.take(poster, taker);
        let next = self.parties[taker].take(alloc, at, from, held.envelope.envelope())?;
        Ok(next)
    }

    /// Tells whether a loyal replica may post next, to a replica, what is recorded like this; it may say no. If it says yes, follows that, else
    /// changes nothing.
    fn post_to_replica(
        &mut self,
        alloc: Global,
        from: &Actor,
        to: &Actor,
        draft: &'a Draft,
    ) -> Result<bool, Refusal>
        requires stands { Stands self.old }
        requires from { IsActor self.old.shape from.now }
        requires to { IsActor self.old.shape to.now }
        requires open { IsOpen (box_of self.old from.now to.now) }
        ensures next { (run : List Step) → StandsFor self.old run
            → IfOk result (λ made. OnTrue made (StandsFor self.new ((from.now, Post to.now draft.now) ∷ run))) }
        ensures shape { self.new.shape ≡ self.old.shape }
        ensures stays { IfOk result (λ made. OnFalse made (self.new ≡ self.old)) }
        ensures refusal { IsOkUnless result Refusal.NoMemory }
    {
        match (from, to) {
            (Actor::Replica(poster), Actor::Replica(taker)) if taker.number() > 0 => {
                let again = self.repeat(*poster, *taker, draft)?;
                Ok(again)
            }
            (Actor::Replica(poster), Actor::Replica(taker)) => {
                let chosen = self.post_chosen(alloc, *poster, *taker, draft)?;
                Ok(chosen)
            }
            _ => Ok(false),
        }
    }

    /// Tells whether a loyal replica may post next, to a replica other than 0, what it last posted to replica 0, recorded like this. If so,
    /// follows that, else changes nothing.
    fn repeat(&mut self, from: ReplicaId, to: ReplicaId, draft: &'a Draft) -> Result<bool, Refusal>
        requires stands { Stands self.old }
        requires from { from < self.old.shape.n }
        requires to { to < self.old.shape.n }
        requires later { 0 < to }
        requires open { IsOpen (box_at self.old.boxes from to) }
        ensures next { (run : List Step) → StandsFor self.old run
            → IfOk result (λ again. OnTrue again (StandsFor self.new ((ReplicaNumber from, Post (ReplicaNumber to) draft.now) ∷ run))) }
        ensures shape { self.new.shape ≡ self.old.shape }
        ensures stays { IfOk result (λ again. OnFalse again (self.new ≡ self.old)) }
        ensures refusal { IsOkUnless result Refusal.NoMemory }
    {
        let (poster, taker) = (from.number() as usize, to.number() as usize);
        let Some(envelope) = copy_of(&self.firsts[poster], draft)? else {
            return Ok(false);
        };
        if !self.parties[poster].can_repeat(to) {
            return Ok(false);
        }
        self.parties[poster].posted(to, Pick::Plain);
        self.boxes.put(poster, taker, Held { envelope, draft });
        Ok(true)
    }

    /// Tells whether a loyal replica may post to this replica next what is recorded like this, by the choice that this shows. If so, follows
    /// that, else changes nothing.
    fn post_chosen(
        &mut self,
        alloc: Global,
        from: ReplicaId,
        to: ReplicaId,
        draft: &'a Draft,
    ) -> Result<bool, Refusal>
        requires stands { Stands self.old }
        requires from { from < self.old.shape.n }
        requires to { to < self.old.shape.n }
        requires open { IsOpen (box_at self.old.boxes from to) }
        ensures next { (run : List Step) → StandsFor self.old run
            → IfOk result (λ chosen. OnTrue chosen (StandsFor self.new ((ReplicaNumber from, Post (ReplicaNumber to) draft.now) ∷ run))) }
        ensures shape { self.new.shape ≡ self.old.shape }
        ensures stays { IfOk result (λ chosen. OnFalse chosen (self.new ≡ self.old)) }
        ensures refusal { IsOkUnless result Refusal.NoMemory }
    {
        // For the proof: the limits of the shape.
        let _n = self.shape.n();
        let poster = from.number() as usize;
        let Some(chosen) = self.parties[poster].chosen(alloc, to, draft)? else {
            return Ok(false);
        };
        let envelope = Letter::of(alloc, chosen.envelope)?;
        self.parties[poster].posted(to, chosen.pick);
        let held = Held { envelope, draft };
        self.deliver(&Actor::Replica(from), &Actor::Replica(to), held)?;
        Ok(true)
    }

    /// Tells whether the box from one actor to another can get one more envelope.
    fn is_open(&self, from: &Actor, to: &Actor) -> bool
        requires stands { Stands self.now }
        requires from { IsActor self.now.shape from.now }
        requires to { IsActor self.now.shape to.now }
        ensures { IsTrue result ↔ IsOpen (box_of self.now from.now to.now) }
    {
        let (poster, taker) = (self.shape.place(from), self.shape.place(to));
        self.boxes.item(poster, taker).is_none() && self.boxes.posts(poster, taker) < NUMBER_END - 1
    }

    /// Tells whether the box from one actor to another holds an envelope that was recorded like this one.
    fn holds(&self, from: &Actor, to: &Actor, draft: &Draft) -> bool
        requires stands { Stands self.now }
        requires from { IsActor self.now.shape from.now }
        requires to { IsActor self.now.shape to.now }
        ensures { IsTrue result ↔ Holds (box_of self.now from.now to.now) draft.now }
    {
        match self
            .boxes
            .item(self.shape.place(from), self.shape.place(to))
        {
            Some(held) => held.draft.same(draft),
            None => false,
        }
    }

    /// Makes the envelope that the draft records; `None` if an actor of the shape that posts it would forge a signature. A loyal actor's
    /// envelope is the one that is stored, if that was recorded so. `NoMemory` if memory runs out or one more handle is refused.
    fn unforged(
        &self,
        alloc: Global,
        from: &Actor,
        draft: &Draft,
    ) -> Result<Option<Letter>, Refusal>
        requires stands { Stands self.now }
        requires from { IsActor self.now.shape from.now }
        ensures same { IfOk result (λ made. IfSome made (λ envelope. envelope ≡ draft.now)) }
        ensures within { IsEnvelope draft.now }
        ensures unforged { (run : List Step) → StandsFor self.now run
            → IfOk result (λ made. OnSome made (ForgesNone self.now.shape (log_of run) from.now draft.now)) }
        ensures forged { (run : List Step) (to : Actor) → StandsFor self.now run
            → IfOk result (λ made. IfNone made (¬ IsNextStep self.now.shape (log_of run) (from.now, Post to draft.now))) }
        ensures refusal { IsOkUnless result Refusal.NoMemory }
    {
        // For the proof: what a draft records is within the limits.
        each_draft_has_a_text(draft);
        spelled_is_within_limits();
        if self.shape.is_loyal(*from) {
            if let Some(envelope) = copy_of(&self.firsts[self.shape.place(from)], draft)? {
                return Ok(Some(envelope));
            }
            let made = made_by(alloc, draft, self.notary.as_slice(), &Known::new(alloc))?;
            return Ok(made);
        }
        let made = made_by(alloc, draft, self.keys.as_slice(), &self.known)?;
        Ok(made)
    }

    /// Tells whether the protocol of an actor lets it post this envelope, which forges nothing. If so, puts the envelope into its box.
    /// Requires that the box is open.
    fn put(
        &mut self,
        alloc: Global,
        from: &Actor,
        to: &Actor,
        held: Held<'a>,
    ) -> Result<bool, Refusal>
        requires stands { Stands self.old }
        requires from { IsActor self.old.shape from.now }
        requires to { IsActor self.old.shape to.now }
        requires open { IsOpen (box_of self.old from.now to.now) }
        requires within { IsEnvelope held.envelope }
        requires recorded { held.draft.now ≡ held.envelope }
        requires unforged { (run : List Step) → StandsFor self.old run → ForgesNone self.old.shape (log_of run) from.now held.envelope }
        ensures shape { self.new.shape ≡ self.old.shape }
        ensures next { (run : List Step) → StandsFor self.old run
            → IfOk result (λ next. OnTrue next (StandsFor self.new ((from.now, Post to.now held.entry.envelope) ∷ run))) }
        ensures not { (run : List Step) → StandsFor self.old run
            → IfOk result (λ next. OnFalse next (¬ KeepsOwn self.old.shape from.now (log_of run from.now) (Post to.now held.entry.envelope))) }
        ensures refusal { IsOkUnless result Refusal.NoMemory }
    {
        let poster = self.shape.place(from);
        let next = self.parties[poster].post(alloc, from, to, held.envelope.envelope())?;
        if !next {
            return Ok(false);
        }
        self.deliver(from, to, held)?;
        Ok(true)
    }

    /// Puts what an actor's party has posted into its box. Notes its signatures as known, if traitors can send them on, and stores a post to
    /// replica 0. `NoMemory` if memory runs out or one more handle is refused.
    fn deliver(&mut self, from: &Actor, to: &Actor, held: Held<'a>) -> Result<(), Refusal>
        requires { (run : List Step) × (parties : List AParty) × IsPosted self.old run parties from.now to.now held }
        ensures shape { self.new.shape ≡ self.old.shape }
        ensures next { (run : List Step) (parties : List AParty) → IsPosted self.old run parties from.now to.now held.entry
            → OnOk result (StandsFor self.new ((from.now, Post to.now held.entry.envelope) ∷ run)) }
        ensures refusal { IsOkUnless result Refusal.NoMemory }
    {
        let (poster, taker) = (self.shape.place(from), self.shape.place(to));
        learn(
            &mut self.known,
            self.keys.as_slice(),
            &self.shape,
            from,
            to,
            held.envelope.envelope(),
        )?;
        let first = first_of(to, &held)?;
        keep_first(&mut self.firsts, poster, first);
        self.boxes.put(poster, taker, held);
        Ok(())
    }
}

/// Makes the envelope that the draft records, with these keys; `None` if their holders would forge a signature. `NoMemory` if memory runs out.
fn made_by(
    alloc: Global,
    draft: &Draft,
    keys: &[Key],
    known: &Known,
) -> Result<Option<Letter>, Refusal>
    ensures same { IfOk result (λ made. IfSome made (λ envelope. envelope ≡ draft.now)) }
    ensures within { IsEnvelope draft.now }
    ensures unforged { IfOk result (λ made. OnSome made (IsUnforged keys.now known.now.signatures draft.now)) }
    ensures forged { IfOk result (λ made. IfNone made (¬ IsUnforged keys.now known.now.signatures draft.now)) }
    ensures refusal { IsOkUnless result Refusal.NoMemory }
{
    match build(alloc, draft, keys, known) {
        Ok(envelope) => Ok(Some(Letter::of(alloc, envelope)?)),
        Err(Refusal::Forged) => Ok(None),
        Err(_) => Err(Refusal::NoMemory),
    }
}

/// Notes the signatures of a post as known if its poster is loyal and traitors could send them on. It notes nothing of a replica's post to a
/// replica other than replica 0: the same was posted to replica 0, so those signatures are already known. `NoMemory` if memory runs out.
fn learn(
    known: &mut Known,
    keys: &[Key],
    shape: &Shape,
    from: &Actor,
    to: &Actor,
    envelope: &Envelope,
) -> Result<(), Refusal>
    ensures learned { IsLoyal shape.now from.now → is_posted_again from.now to.now ≡ false → (holder : Actor) → Any (λ h. h ≡ holder) keys.now → (s : Signature)
        → OnOk result (In s known.new.signatures ↔ (In s known.old.signatures ⊎ Carries envelope.now s)) }
    ensures stays { (IsLoyal shape.now from.now → is_posted_again from.now to.now ≡ true) → OnOk result (known.new.signatures ≡ known.old.signatures) }
    ensures refusal { IsOkUnless result Refusal.NoMemory }
{
    if keys.is_empty() || is_posted_again(from, to) || !shape.is_loyal(*from) {
        return Ok(());
    }
    known.learn(envelope)
}

/// Tells whether a replica posts to a replica other than replica 0. A loyal one has posted the same to replica 0 already.
fn is_posted_again(from: &Actor, to: &Actor) -> bool
    ensures { result ≡ is_posted_again from.now to.now }
{
    match (from, to) {
        (Actor::Replica(_), Actor::Replica(taker)) => taker.number() > 0,
        _ => false,
    }
}

/// Returns `count` entries, all `None`: nothing is stored. `NoMemory` if memory runs out.
fn no_firsts<'a>(alloc: Global, count: usize) -> Result<Vec<Option<Held<'a>>>, Refusal>
    ensures count { IfOk result (λ firsts. length firsts.items ≡ count) }
    ensures none { IfOk result (λ firsts. (place : ℕ) → slice_index_or firsts.items place None ≡ None) }
    ensures refusal { IsOkUnless result Refusal.NoMemory }
{
    let mut firsts = Vec::with_capacity(alloc, count)?;
    for _ in 0..count {
        firsts.push(None)?;
    }
    Ok(firsts)
}

/// Returns another handle of the stored envelope; `None` if nothing is stored, or the recorded draft differs from this one. `NoMemory` if one
/// more handle is refused.
fn copy_of(first: &Option<Held>, draft: &Draft) -> Result<Option<Letter>, Refusal>
    ensures copy { IfOk result (λ copy. IfSome copy (λ envelope. (held : AHeld) × (first.now ≡ Some held) × (held.draft.now ≡ draft.now) × (envelope ≡ held.envelope))) }
    ensures refusal { IsOkUnless result Refusal.NoMemory }
{
    match first {
        Some(held) => {
            if !held.draft.same(draft) {
                return Ok(None);
            }
            let envelope = held.envelope.try_copy()?;
            Ok(Some(envelope))
        }
        None => Ok(None),
    }
}

/// Returns what is to be stored for a post: a copy of a post to replica 0, `None` for any other. `NoMemory` if one more handle is refused.
fn first_of<'a>(to: &Actor, held: &Held<'a>) -> Result<Option<Held<'a>>, Refusal>
    ensures first { IfOk result (λ first. IsFirstOf to.now held.now first) }
    ensures refusal { IsOkUnless result Refusal.NoMemory }
{
    match to {
        Actor::Replica(taker) if taker.number() == 0 => {
            let envelope = held.envelope.try_copy()?;
            Ok(Some(Held {
                envelope,
                draft: held.draft,
            }))
        }
        _ => Ok(None),
    }
}

/// Stores an actor's post at the actor's place; does nothing for `None`.
fn keep_first<'a>(firsts: &mut Vec<Option<Held<'a>>>, place: usize, first: Option<Held<'a>>)
    requires { place < length firsts.old.items }
    ensures { firsts.new.items ≡ with_first firsts.old.items place first.entry }
{
    if let Some(held) = first {
        firsts[place] = Some(held);
    }
}
