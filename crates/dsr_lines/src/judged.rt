//! What a recorded step is: an event that nothing refuses, or a fault.

ghost use Rattle.std.specs.Prelude.{◌≡◌, ◌↔◌, ℕ, Some, IfOk, IfSome, IfNone, IsTrue, IsOkUnless};
ghost use Rattle.dsr_names.specs.Shape.{Shape as AShape};
ghost use Rattle.dsr_names.specs.declared.actor.Actor.{Actor as AnActor};
ghost use Rattle.dsr_names.specs.declared.actor.Actor.TheVariants.{Client as ClientNumber, Replica as ReplicaNumber};
ghost use Rattle.dsr_envelope.specs.declared.entry.Entry.TheVariants.{Post as PostEntry, Take as TakeEntry};
ghost use Rattle.dsr_envelope.specs.declared.envelope.Envelope.{Envelope as AnEnvelope};
ghost use Rattle.dsr_envelope.specs.declared.pick.Pick.TheVariants.{Plain};
ghost use Rattle.dsr_play.specs.declared.event.Event.TheVariants.{Post};
ghost use Rattle.dsr_run.specs.Run.{IsTraitor};
ghost use Rattle.dsr_run.specs.Step.{Logs, log_of};
ghost use Rattle.dsr_world.specs.Event.{step_of, MayBeDone};
ghost use Rattle.dsr_lines.specs.Begun.{BeginsTwice};
ghost use Rattle.dsr_lines.specs.Line.{IsEventOf};
ghost use Rattle.dsr_lines.specs.Support.Judged.{IsJudged, IsOther};

use crate::begun::{choice_of, client_twice, clients_begun};
use crate::line_fault::LineFault;
use crate::notary::{Made, Notary};
use crate::wanted::{shown_pick, wanted_post};
use dsr_envelope::{Envelope, Pick};
use dsr_facts::{Fault, how_differs, take_fault, why_refused};
use dsr_names::{Actor, ClientId, Refusal, ReplicaId, Shape};
use dsr_play::Choice;
use dsr_record::{NotedEntry, NotedStep};
use dsr_script::Draft;
use dsr_world::{Event, Stage};
use std::alloc::Global;

/// What is found out about a recorded step before the stage goes on by it.
#[derive(Drop)]
pub(crate) enum Judged {
    /// It is the step of this event, which nothing refuses.
    May(Event),
    /// It may not follow, for this reason.
    Not(LineFault),
}

/// Finds out whether the step may follow in this stage. `NoMemory` if memory runs out.
pub(crate) fn judge(
    alloc: Global,
    stage: &Stage,
    notary: &Notary,
    step: &NotedStep,
) -> Result<Judged, Refusal>
    requires { notary.now ≡ stage.now.shape }
    ensures judged { IfOk result (IsJudged stage.now.shape (log_of stage.now.run) step.now) }
    ensures refusal { IsOkUnless result Refusal.NoMemory }
{
    let actor = step.actor();
    match step.entry() {
        NotedEntry::Post { to, envelope } => judge_post(alloc, stage, notary, &actor, to, envelope),
        NotedEntry::Take { from, envelope } => judge_take(alloc, stage, &actor, from, envelope),
    }
}

/// Finds out whether an actor may take this envelope from another next. `NoMemory` if memory runs out.
#[tactic(auto, using(crate::proofs::JudgedLemmas::take_other, crate::proofs::JudgedLemmas::take_step))]
fn judge_take(
    alloc: Global,
    stage: &Stage,
    at: &Actor,
    from: &Actor,
    found: &Draft,
) -> Result<Judged, Refusal>
    ensures judged { IfOk result (IsJudged stage.now.shape (log_of stage.now.run) (at.now, TakeEntry from.now found.now)) }
    ensures refusal { IsOkUnless result Refusal.NoMemory }
{
    let fault = take_fault(alloc, stage, at, from, found)?;
    let event = Event::Take {
        at: *at,
        from: *from,
    };
    match &fault {
        Some(Fault::Refused(cause)) => Ok(Judged::Not(LineFault::Refused {
            event,
            cause: *cause,
        })),
        Some(Fault::OtherHeld) => Ok(Judged::Not(LineFault::OtherHeld)),
        Some(Fault::OtherPosted { .. }) => unreachable!(),
        None => Ok(Judged::May(event)),
    }
}

/// Finds out whether an actor may post this envelope to another next. `NoMemory` if memory runs out.
#[tactic(auto, using(crate::proofs::JudgedLemmas::outside_told))]
fn judge_post(
    alloc: Global,
    stage: &Stage,
    notary: &Notary,
    from: &Actor,
    to: &Actor,
    found: &Draft,
) -> Result<Judged, Refusal>
    requires { notary.now ≡ stage.now.shape }
    ensures judged { IfOk result (IsJudged stage.now.shape (log_of stage.now.run) (from.now, PostEntry to.now found.now)) }
    ensures refusal { IsOkUnless result Refusal.NoMemory }
{
    if is_traitor(stage.shape(), from) {
        return judge_plant(stage, from, to, found);
    }
    match notary.made(alloc, found)? {
        Made::Whole(envelope) => judge_loyal(alloc, stage, from, to, envelope),
        Made::Outside(forged) => Ok(Judged::Not(LineFault::SignedOutside(forged))),
    }
}

/// Finds out whether a traitor may post this envelope next. `NoMemory` if one more handle is refused.
#[tactic(auto, using(crate::proofs::JudgedLemmas::plant_told, crate::proofs::JudgedLemmas::plant_step))]
fn judge_plant(stage: &Stage, from: &Actor, to: &Actor, found: &Draft) -> Result<Judged, Refusal>
    requires { IsTraitor stage.now.shape from.now }
    ensures judged { IfOk result (IsJudged stage.now.shape (log_of stage.now.run) (from.now, PostEntry to.now found.now)) }
    ensures refusal { IsOkUnless result Refusal.NoMemory }
{
    let event = Event::Plant {
        from: *from,
        to: *to,
        draft: found.try_copy()?,
    };
    match why_refused(stage, &event) {
        Some(cause) => Ok(Judged::Not(LineFault::Refused { event, cause })),
        None => Ok(Judged::May(event)),
    }
}

/// Finds out whether an actor that is not a traitor may post this envelope next. `NoMemory` if memory runs out.
fn judge_loyal(
    alloc: Global,
    stage: &Stage,
    from: &Actor,
    to: &Actor,
    found: Envelope,
) -> Result<Judged, Refusal>
    requires { IsTraitor stage.now.shape from.now → ⊥ }
    ensures judged { IfOk result (IsJudged stage.now.shape (log_of stage.now.run) (from.now, PostEntry to.now found)) }
    ensures refusal { IsOkUnless result Refusal.NoMemory }
{
    match (from, to) {
        (Actor::Replica(poster), Actor::Replica(taker)) => {
            judge_round(alloc, stage, *poster, *taker, found)
        }
        (Actor::Replica(_), Actor::Client(_)) => {
            judge_pick(alloc, stage, from, to, &Pick::Plain, found)
        }
        (Actor::Client(client), Actor::Replica(_)) => {
            let pick = shown_pick(stage, *client, &found);
            judge_pick(alloc, stage, from, to, &pick, found)
        }
        (Actor::Client(client), Actor::Client(other)) => {
            Ok(judge_tell(stage, *client, *other, found))
        }
    }
}

/// Finds out whether a loyal replica may post this envelope to a replica next. `NoMemory` if memory runs out.
fn judge_round(
    alloc: Global,
    stage: &Stage,
    from: ReplicaId,
    to: ReplicaId,
    found: Envelope,
) -> Result<Judged, Refusal>
    requires { IsTraitor stage.now.shape (ReplicaNumber from) → ⊥ }
    ensures judged { IfOk result (IsJudged stage.now.shape (log_of stage.now.run) (ReplicaNumber from, PostEntry (ReplicaNumber to) found)) }
    ensures refusal { IsOkUnless result Refusal.NoMemory }
{
    let (from, taker) = (Actor::Replica(from), Actor::Replica(to));
    let clients = clients_begun(alloc, stage.shape(), &from, to, &found)?;
    match client_twice(clients.as_slice()) {
        Some(client) => judge_twice(alloc, stage, from, taker, client),
        None => {
            let pick = choice_of(clients.as_slice());
            judge_pick(alloc, stage, &from, &taker, &pick, found)
        }
    }
}

/// Returns why a replica may not begin a slot of its own with two requests of this client: its post is refused, or no replica does so. `NoMemory` if
/// memory runs out.
fn judge_twice(
    alloc: Global,
    stage: &Stage,
    from: Actor,
    to: Actor,
    client: ClientId,
) -> Result<Judged, Refusal>
    ensures judged { (found : AnEnvelope) → IsEventOf stage.now.shape (log_of stage.now.run) (from, PostEntry to found) (Post from to Plain)
        → BeginsTwice stage.now.shape (from, PostEntry to found) client
        → IfOk result (IsJudged stage.now.shape (log_of stage.now.run) (from, PostEntry to found)) }
    ensures refusal { IsOkUnless result Refusal.NoMemory }
{
    let event = Event::Post {
        from,
        to,
        pick: Choice::of(alloc, Pick::Plain)?,
    };
    let fault = match why_refused(stage, &event) {
        Some(cause) => LineFault::Refused { event, cause },
        None => LineFault::ClientTwice(client),
    };
    Ok(Judged::Not(fault))
}

/// Finds out whether a loyal actor may post this envelope by this choice next. `NoMemory` if memory runs out.
fn judge_pick(
    alloc: Global,
    stage: &Stage,
    from: &Actor,
    to: &Actor,
    pick: &Pick,
    found: Envelope,
) -> Result<Judged, Refusal>
    ensures judged { IsEventOf stage.now.shape (log_of stage.now.run) (from.now, PostEntry to.now found) (Post from.now to.now pick.now)
        → ((c : ℕ) → BeginsTwice stage.now.shape (from.now, PostEntry to.now found) c → ⊥)
        → IfOk result (IsJudged stage.now.shape (log_of stage.now.run) (from.now, PostEntry to.now found)) }
    ensures refusal { IsOkUnless result Refusal.NoMemory }
{
    let event = Event::Post {
        from: *from,
        to: *to,
        pick: Choice::of(alloc, *pick)?,
    };
    if let Some(cause) = why_refused(stage, &event) {
        return Ok(Judged::Not(LineFault::Refused { event, cause }));
    }
    let wanted = wanted_post(alloc, stage, from, to, pick)?;
    Ok(judged_by(event, wanted, found))
}

/// Finds out whether a client may post this envelope to another client next.
fn judge_tell(stage: &Stage, from: ClientId, to: ClientId, found: Envelope) -> Judged
    ensures { IsJudged stage.now.shape (log_of stage.now.run) (ClientNumber from, PostEntry (ClientNumber to) found) result }
{
    let event = Event::Tell {
        from: Actor::Client(from),
        to: Actor::Client(to),
    };
    if let Some(cause) = why_refused(stage, &event) {
        return Judged::Not(LineFault::Refused { event, cause });
    }
    match stage.seen(from) {
        Ok(front) => judged_by(event, Envelope::Seen(front), found),
        Err(_) => unreachable!(),
    }
}

/// Finds out whether the posted envelope is the wanted one: the one that this event posts, which nothing refuses.
#[tactic(auto, using(crate::proofs::JudgedLemmas::other_told, crate::proofs::JudgedLemmas::same_step))]
fn judged_by(event: Event, wanted: Envelope, found: Envelope) -> Judged
    ensures { (shape : AShape) (logs : Logs) (from to : AnActor) → MayBeDone shape logs event
        → step_of shape logs event ≡ Some (from, PostEntry to wanted) → IsEventOf shape logs (from, PostEntry to found) event
        → ((c : ℕ) → BeginsTwice shape (from, PostEntry to found) c → ⊥) → IsJudged shape logs (from, PostEntry to found) result }
{
    match other_posted(wanted, found) {
        Some(fault) => Judged::Not(fault),
        None => Judged::May(event),
    }
}

/// Returns how the posted envelope differs from the wanted one. `None` exactly if it does not.
fn other_posted(wanted: Envelope, found: Envelope) -> Option<LineFault>
    ensures some { IfSome result (IsOther wanted found) }
    ensures none { IfNone result (wanted ≡ found) }
{
    if wanted.same(&found) {
        return None;
    }
    match how_differs(&wanted, &found) {
        Some(how) => Some(LineFault::OtherPosted {
            wanted,
            posted: found,
            how,
        }),
        None => unreachable!(),
    }
}

/// Tells whether this is a traitor of the shape.
fn is_traitor(shape: &Shape, actor: &Actor) -> bool
    ensures { IsTrue result ↔ IsTraitor shape.now actor.now }
{
    match actor {
        Actor::Replica(_) => shape.has(*actor) && !shape.is_loyal(*actor),
        Actor::Client(_) => false,
    }
}
