ghost use Rattle.std.specs.Bool.{OnFalse, OnTrue};
ghost use Rattle.std.specs.Prelude.{Some, IfSome, ◌↔◌, IsTrue, ◌≡◌, ◌∷◌, ◌<◌, ◌^◌, ℕ, List, IfOk, IsOkUnless};
ghost use Rattle.dsr_names.specs.Shape.{Shape, IsActor};
ghost use Rattle.dsr_names.specs.declared.actor.Actor.TheVariants.{Replica as ReplicaNumber, Client as ClientNumber};
ghost use Rattle.dsr_envelope.specs.Limits.{IsEnvelope};
ghost use Rattle.dsr_envelope.specs.Log.{due, rounds};
ghost use Rattle.dsr_envelope.specs.Pick.{IsPick};
ghost use Rattle.dsr_envelope.specs.declared.due.Due.TheVariants.{Take as TakeFrom};
ghost use Rattle.dsr_envelope.specs.declared.entry.Entry.{Entry};
ghost use Rattle.dsr_envelope.specs.declared.entry.Entry.TheVariants.{Post, Take};
ghost use Rattle.dsr_replica.specs.Conduct.{IsNext, envelope_to, reply_to};
ghost use Rattle.dsr_envelope.specs.declared.envelope.Envelope.{Envelope as AnEnvelope};
ghost use Rattle.dsr_envelope.specs.declared.pick.Pick.TheVariants.{Plain};
ghost use Rattle.dsr_replica.specs.Replica.{Allows, StandsFor};
ghost use Rattle.dsr_run.specs.OwnStep.{KeepsOwn};
ghost use Rattle.dsr_run.specs.Run.{KeepsRounds};
ghost use Rattle.dsr_check.specs.Support.Party.{CanGet, CanPost, HasWithin, Plays, PlaysClient, PostsWithin};

use crate::customer::Customer;
use crate::shown::{pick_of, shown_clients};
use dsr_envelope::{Due, Envelope, Pick};
use dsr_names::{Actor, ClientId, Refusal, ReplicaId};
use dsr_replica::Replica;
use dsr_script::Draft;
use std::alloc::Global;

/// What a loyal replica posts to another: its choice, and the envelope.
#[derive(Drop)]
pub(crate) struct Chosen {
    pub(crate) pick: Pick,
    pub(crate) envelope: Envelope,
}

/// A party repeats an actor's steps. A loyal actor is a real replica or client; a traitor may do anything but forge, so it needs no
/// code.
#[derive(Drop)]
pub(crate) enum Party {
    /// A loyal replica.
    Loyal(Replica),
    /// A traitor.
    Traitor,
    /// A client.
    Client(Customer),
}

impl Party {
    /// Tells whether the protocol of the actor, which is `me`, lets it post this envelope to this actor next. If so, it has
    /// posted it. `NoMemory` if memory runs out.
    pub(crate) fn post(
        &mut self,
        alloc: Global,
        me: &Actor,
        to: &Actor,
        envelope: &Envelope,
    ) -> Result<bool, Refusal>
        ensures posts { (shape : Shape) (log : List Entry) → Plays shape me.now log self.old → IsActor shape to.now
            → IfOk result (λ posts. OnTrue posts (KeepsOwn shape me.now log (Post to.now envelope.now)
            × Plays shape me.now (Post to.now envelope.now ∷ log) self.new)) }
        ensures not { (shape : Shape) (log : List Entry) → Plays shape me.now log self.old → IsEnvelope envelope.now
            → IfOk result (λ posts. OnFalse posts (¬ KeepsOwn shape me.now log (Post to.now envelope.now))) }
        ensures refusal { IsOkUnless result Refusal.NoMemory }
    {
        match self {
            Party::Loyal(replica) => replica_posts(alloc, replica, me, to, envelope),
            Party::Traitor => Ok(true),
            Party::Client(customer) => Ok(customer.post(me, to, envelope)),
        }
    }

    /// Tells whether the actor is a loyal replica that may post to this replica next by the plain choice.
    pub(crate) fn can_repeat(&self, to: ReplicaId) -> bool
        ensures { IsTrue result ↔ CanPost self.now to Plain }
    {
        match self {
            Party::Loyal(replica) => replica.allows(to, Pick::Plain),
            Party::Traitor | Party::Client(_) => false,
        }
    }

    /// Makes the envelope that the actor may post to this replica next by the choice that the draft shows, if it is a loyal replica that may
    /// post so, and the draft records that envelope; else returns `None`. `NoMemory` if memory runs out or one more handle is refused.
    pub(crate) fn chosen(
        &self,
        alloc: Global,
        to: ReplicaId,
        draft: &Draft,
    ) -> Result<Option<Chosen>, Refusal>
        requires { PostsWithin self.now to }
        ensures can { IfOk result (λ made. IfSome made (λ chosen. CanPost self.now to chosen.pick)) }
        ensures pick { IfOk result (λ made. IfSome made (λ chosen. IsPick chosen.pick)) }
        ensures recorded { IfOk result (λ made. IfSome made (λ chosen. chosen.envelope ≡ draft.now)) }
        ensures given { (shape : Shape) (p : ℕ) (log : List Entry) → Plays shape (ReplicaNumber p) log self.now
            → IfOk result (λ made. IfSome made (λ chosen. envelope_to shape (ReplicaNumber p) log to chosen.pick ≡ Some chosen.envelope)) }
        ensures refusal { IsOkUnless result Refusal.NoMemory }
    {
        match self {
            Party::Loyal(replica) => {
                let pick = shown_pick(replica, to, draft);
                post_by(alloc, replica, to, &pick, draft)
            }
            Party::Traitor | Party::Client(_) => Ok(None),
        }
    }

    /// Posts to this replica by this choice. Requires that it can.
    pub(crate) fn posted(&mut self, to: ReplicaId, pick: Pick)
        requires { CanPost self.old to pick }
        ensures posts { (shape : Shape) (p : ℕ) (log : List Entry) (envelope : AnEnvelope) → Plays shape (ReplicaNumber p) log self.old → IsPick pick
            → ((other : AnEnvelope) → envelope_to shape (ReplicaNumber p) log to pick ≡ Some other → envelope ≡ other)
            → KeepsOwn shape (ReplicaNumber p) log (Post (ReplicaNumber to) envelope)
            × Plays shape (ReplicaNumber p) (Post (ReplicaNumber to) envelope ∷ log) self.new }
    {
        match self {
            Party::Loyal(replica) => replica.posted(to, pick),
            Party::Traitor | Party::Client(_) => unreachable!(),
        }
    }

    /// Tells whether the protocol of the actor, which is `me`, lets it take this envelope from this actor next. If so, it has
    /// taken it; it copies the envelope only if something in it may be stored. `NoMemory` if memory runs out or one more handle is refused.
    pub(crate) fn take(
        &mut self,
        alloc: Global,
        me: &Actor,
        from: &Actor,
        envelope: &Envelope,
    ) -> Result<bool, Refusal>
        requires { CanGet self.old me.now from.now envelope.now }
        ensures takes { (shape : Shape) (log : List Entry) → Plays shape me.now log self.old → IsActor shape from.now
            → IfOk result (λ takes. OnTrue takes (KeepsOwn shape me.now log (Take from.now envelope.now)
            × Plays shape me.now (Take from.now envelope.now ∷ log) self.new)) }
        ensures not { (shape : Shape) (log : List Entry) → Plays shape me.now log self.old
            → IfOk result (λ takes. OnFalse takes (¬ KeepsOwn shape me.now log (Take from.now envelope.now))) }
        ensures refusal { IsOkUnless result Refusal.NoMemory }
    {
        match self {
            Party::Loyal(replica) => match from {
                Actor::Replica(number) => replica_takes(alloc, replica, *number, envelope),
                Actor::Client(client) => {
                    let copy = envelope.try_copy(alloc)?;
                    replica.ask_taken(*client, copy);
                    Ok(true)
                }
            },
            Party::Traitor => Ok(true),
            Party::Client(customer) => {
                if *from == *me {
                    return Ok(false);
                }
                let copy = envelope.try_copy(alloc)?;
                customer.take(from, copy)?;
                Ok(true)
            }
        }
    }
}

/// Tells whether a loyal replica may post this envelope to this actor next. If so, it has posted it.
fn replica_posts(
    alloc: Global,
    replica: &mut Replica,
    me: &Actor,
    to: &Actor,
    envelope: &Envelope,
) -> Result<bool, Refusal>
    ensures me { replica.new.me ≡ replica.old.me }
    ensures shape { replica.new.shape ≡ replica.old.shape }
    ensures posts { (log : List Entry) → replica.old.me ≡ me.now → StandsFor replica.old log → IsActor replica.old.shape to.now
        → IfOk result (λ posts. OnTrue posts (IsNext replica.old.shape me.now log (Post to.now envelope.now)
        × KeepsRounds replica.old.shape log (Post to.now envelope.now) × StandsFor replica.new (Post to.now envelope.now ∷ log))) }
    ensures not { (log : List Entry) → replica.old.me ≡ me.now → StandsFor replica.old log
        → IfOk result (λ posts. OnFalse posts (¬ (IsNext replica.old.shape me.now log (Post to.now envelope.now)
        × KeepsRounds replica.old.shape log (Post to.now envelope.now)))) }
    ensures refusal { IsOkUnless result Refusal.NoMemory }
{
    match to {
        Actor::Replica(number) => sends(alloc, replica, me, *number, envelope),
        Actor::Client(client) => Ok(replies(replica, *client, envelope)),
    }
}

/// Tells whether a loyal replica may post this envelope to this replica next. If so, it has posted it.
fn sends(
    alloc: Global,
    replica: &mut Replica,
    me: &Actor,
    to: ReplicaId,
    envelope: &Envelope,
) -> Result<bool, Refusal>
    ensures me { replica.new.me ≡ replica.old.me }
    ensures shape { replica.new.shape ≡ replica.old.shape }
    ensures sends { (log : List Entry) → replica.old.me ≡ me.now → StandsFor replica.old log
        → IfOk result (λ sends. OnTrue sends (IsNext replica.old.shape me.now log (Post (ReplicaNumber to) envelope.now)
        × (rounds replica.old.shape log < 2 ^ 36) × StandsFor replica.new (Post (ReplicaNumber to) envelope.now ∷ log))) }
    ensures not { (log : List Entry) → replica.old.me ≡ me.now → StandsFor replica.old log
        → IfOk result (λ sends. OnFalse sends (¬ (IsNext replica.old.shape me.now log (Post (ReplicaNumber to) envelope.now)
        × (rounds replica.old.shape log < 2 ^ 36)))) }
    ensures refusal { IsOkUnless result Refusal.NoMemory }
{
    let shape = replica.shape();
    let clients = shown_clients(alloc, &shape, me, to, envelope)?;
    if !replica.allows(to, pick_of(&clients)) {
        return Ok(false);
    }
    let Ok(ours) = replica.envelope_for(alloc, to, pick_of(&clients)) else {
        return Err(Refusal::NoMemory);
    };
    if !ours.same(envelope) {
        return Ok(false);
    }
    replica.posted(to, pick_of(&clients));
    Ok(true)
}

/// Makes the envelope that a loyal replica may post to this replica next by this choice, if it may post so, and the draft records that envelope;
/// else returns `None`.
fn post_by(
    alloc: Global,
    replica: &Replica,
    to: ReplicaId,
    pick: &Pick,
    draft: &Draft,
) -> Result<Option<Chosen>, Refusal>
    requires { HasWithin replica.now to }
    ensures can { IfOk result (λ made. IfSome made (λ chosen. Allows replica.now to chosen.pick)) }
    ensures pick { IfOk result (λ made. IfSome made (λ chosen. IsPick chosen.pick)) }
    ensures recorded { IfOk result (λ made. IfSome made (λ chosen. chosen.envelope ≡ draft.now)) }
    ensures given { (log : List Entry) → StandsFor replica.now log
        → IfOk result (λ made. IfSome made (λ chosen. envelope_to replica.now.shape replica.now.me log to chosen.pick ≡ Some chosen.envelope)) }
    ensures refusal { IsOkUnless result Refusal.NoMemory }
{
    if !replica.allows(to, *pick) {
        return Ok(None);
    }
    let Ok(envelope) = replica.envelope_for(alloc, to, *pick) else {
        return Err(Refusal::NoMemory);
    };
    let made = Draft::of(alloc, &envelope)?;
    if made.same(draft) {
        Ok(Some(Chosen {
            pick: *pick,
            envelope,
        }))
    } else {
        Ok(None)
    }
}

/// Returns the choice that the draft shows at a post of a loyal replica to this one: a sender's at its post to replica 0, else the plain one.
/// It needs no contract, since what the replica posts by it is compared with the draft.
fn shown_pick(replica: &Replica, to: ReplicaId, draft: &Draft) -> Pick {
    match draft.last_clients() {
        Some(clients) if to.number() == 0 && replica.allows(to, Pick::From(clients)) => {
            Pick::From(clients)
        }
        _ => Pick::Plain,
    }
}

/// Tells whether the envelope is a loyal replica's reply to this client.
fn replies(replica: &Replica, client: ClientId, envelope: &Envelope) -> bool
    ensures replies { (log : List Entry) → StandsFor replica.now log
        → OnTrue result ((reply_to replica.now.shape log client ≡ Some envelope.now) × StandsFor replica.now (Post (ClientNumber client) envelope.now ∷ log)) }
    ensures not { (log : List Entry) → StandsFor replica.now log
        → OnFalse result (reply_to replica.now.shape log client ≡ Some envelope.now → ⊥) }
{
    match replica.reply_for(client) {
        Some(reply) => reply.same(envelope),
        None => false,
    }
}

/// Tells whether a loyal replica may take from this replica next. If so, it has taken this envelope.
fn replica_takes(
    alloc: Global,
    replica: &mut Replica,
    from: ReplicaId,
    envelope: &Envelope,
) -> Result<bool, Refusal>
    ensures me { replica.new.me ≡ replica.old.me }
    ensures shape { replica.new.shape ≡ replica.old.shape }
    ensures takes { (log : List Entry) → StandsFor replica.old log
        → IfOk result (λ takes. OnTrue takes ((due replica.old.shape log ≡ TakeFrom from) × StandsFor replica.new (Take (ReplicaNumber from) envelope.now ∷ log))) }
    ensures not { (log : List Entry) → StandsFor replica.old log
        → IfOk result (λ takes. OnFalse takes (due replica.old.shape log ≡ TakeFrom from → ⊥)) }
    ensures refusal { IsOkUnless result Refusal.NoMemory }
{
    if replica.due() != Due::Take(from) {
        return Ok(false);
    }
    replica.room()?;
    if !replica.passed_over(from, envelope) {
        let copy = envelope.try_copy(alloc)?;
        replica.taken(from, copy);
    }
    Ok(true)
}
