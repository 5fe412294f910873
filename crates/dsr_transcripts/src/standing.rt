//! What an actor's own log has due, and what a box holds.

ghost use Rattle.std.specs.Prelude.{◌≡◌, ◌<◌, ◌++◌, false, codes, IfOk, IsOkUnless, IsTrue, string_bytes};
ghost use Rattle.dsr_names.specs.Actor.{replica_text};
ghost use Rattle.dsr_names.specs.Shape.{IsActor, is_traitor};
ghost use Rattle.dsr_names.specs.declared.actor.Actor.TheVariants.{Replica as ReplicaNumber, Client as ClientNumber};
ghost use Rattle.dsr_envelope.specs.Log.{due};
ghost use Rattle.dsr_node.specs.Conduct.{is_actor};
ghost use Rattle.dsr_run.specs.Step.{log_of};
ghost use Rattle.dsr_world.specs.Event.{in_box};
ghost use Rattle.dsr_reasons.specs.Reason.{one_of};
ghost use Rattle.dsr_transcripts.specs.Standing.{box_line, current_number, due_line, entry_box_line, held_text, next_text, number_text, own_number, standing_line};

use crate::words::{put_actor, text_of};
use dsr_envelope::Due;
use dsr_facts::{client_of, loyal_of};
use dsr_names::{Actor, ClientId, Refusal, ReplicaId, Shape};
use dsr_reasons::Writer;
use dsr_record::{NotedEntry, NotedStep};
use dsr_script::Draft;
use dsr_world::Stage;
use std::alloc::Global;

/// Writes what the actor's own log has due; nothing if it is not an actor of the shape.
pub(crate) fn write_standing(out: &mut Writer, as_data: bool, stage: &Stage, actor: &Actor)
    ensures { out.new ≡ out.old ++ standing_line as_data stage.now.shape (log_of stage.now.run) actor.now }
{
    if !is_inside(stage.shape(), actor) {
        return;
    }
    match actor {
        Actor::Replica(replica) => write_due(out, as_data, stage, *replica),
        Actor::Client(client) => write_outstanding(out, as_data, stage, *client),
    }
}

/// Tells whether this is an actor of the shape.
fn is_inside(shape: &Shape, actor: &Actor) -> bool
    ensures same { result ≡ is_actor shape.now actor.now }
    ensures inside { IsTrue result → IsActor shape.now actor.now }
{
    shape.has(*actor)
}

/// Writes what the log of a replica of the shape has due; nothing is due for a traitor.
fn write_due(out: &mut Writer, as_data: bool, stage: &Stage, replica: ReplicaId)
    requires { replica < stage.now.shape.n }
    ensures { out.new ≡ out.old
        ++ due_line as_data stage.now.shape (log_of stage.now.run) (ReplicaNumber replica) }
{
    put_actor(out, as_data, "due ", "    due at ", Actor::Replica(replica));
    if is_traitor(stage.shape(), replica) {
        return out.put_one(as_data, " -\n", ": nothing, since it is a traitor\n");
    }
    write_next(out, as_data, due_of(stage, replica))
}

/// Tells whether a replica of the shape is a traitor.
fn is_traitor(shape: &Shape, replica: ReplicaId) -> bool
    requires { replica < shape.now.n }
    ensures { result ≡ is_traitor shape.now replica }
{
    !shape.is_loyal(Actor::Replica(replica))
}

/// Returns what a loyal replica does next with the replicas.
fn due_of(stage: &Stage, replica: ReplicaId) -> Due
    requires inside { replica < stage.now.shape.n }
    requires loyal { is_traitor stage.now.shape replica ≡ false }
    ensures { result ≡ due stage.now.shape (log_of stage.now.run (ReplicaNumber replica)) }
{
    loyal_of(stage, replica).due()
}

/// Writes what a loyal replica does next with the replicas.
fn write_next(out: &mut Writer, as_data: bool, next: Due)
    ensures { out.new ≡ out.old ++ next_text as_data next }
{
    match next {
        Due::Post(to) => put_replica(out, as_data, " post ", ": the post to ", to),
        Due::Take(from) => put_replica(out, as_data, " take ", ": the take from ", from),
    }
}

/// Writes the end of a line: the word or the end of a sentence, and the replica's name.
fn put_replica(
    out: &mut Writer,
    as_data: bool,
    word: &'static str,
    before: &'static str,
    replica: ReplicaId,
)
    ensures { out.new ≡ out.old
        ++ (one_of as_data word.now before.now ++ (replica_text replica ++ codes "\n")) }
{
    put_actor(out, as_data, word, before, Actor::Replica(replica));
    out.put("\n");
}

/// Writes which request of a client of the shape is outstanding.
fn write_outstanding(out: &mut Writer, as_data: bool, stage: &Stage, client: ClientId)
    requires { client < stage.now.shape.m }
    ensures { out.new ≡ out.old
        ++ due_line as_data stage.now.shape (log_of stage.now.run) (ClientNumber client) }
{
    put_actor(
        out,
        as_data,
        "due ",
        "    outstanding at ",
        Actor::Client(client),
    );
    write_number(out, as_data, outstanding_of(stage, client))
}

/// Returns the number of the outstanding request of a client of the shape.
fn outstanding_of(stage: &Stage, client: ClientId) -> Option<u64>
    requires { client < stage.now.shape.m }
    ensures { result ≡ own_number stage.now.shape (log_of stage.now.run) (ClientNumber client) }
{
    client_of(stage, client).outstanding()
}

/// Returns the number of the actor's outstanding request; `None` for a replica, and for an actor that is not of the shape.
pub(crate) fn current_of(stage: &Stage, actor: &Actor) -> Option<u64>
    ensures { result ≡ current_number stage.now.shape (log_of stage.now.run) actor.now }
{
    if !is_inside(stage.shape(), actor) {
        return None;
    }
    match actor {
        Actor::Replica(_) => None,
        Actor::Client(client) => outstanding_of(stage, *client),
    }
}

/// Writes the number of an outstanding request, or that there is none.
fn write_number(out: &mut Writer, as_data: bool, current: Option<u64>)
    ensures { out.new ≡ out.old ++ number_text as_data current }
{
    let Some(number) = current else {
        return out.put_one(as_data, " -\n", ": nothing\n");
    };
    out.put_one(as_data, " ", ": request ");
    out.put_number(number);
    out.put("\n");
}

/// Returns what the box holds into which the step posts, or from which it takes; nothing if one of its ends is not an actor of the shape.
pub(crate) fn tell_box(
    alloc: Global,
    as_data: bool,
    stage: &Stage,
    step: &NotedStep,
) -> Result<String, Refusal>
    ensures told { IfOk result (λ told. string_bytes told ≡ entry_box_line as_data stage.now.shape (log_of stage.now.run) step.now.0 step.now.1) }
    ensures refusal { IsOkUnless result Refusal.NoMemory }
{
    let actor = step.actor();
    match step.entry() {
        NotedEntry::Post { to, .. } => tell_between(alloc, as_data, stage, &actor, to),
        NotedEntry::Take { from, .. } => tell_between(alloc, as_data, stage, from, &actor),
    }
}

/// Returns what the box from one actor to another holds; nothing if one of them is not an actor of the shape.
fn tell_between(
    alloc: Global,
    as_data: bool,
    stage: &Stage,
    from: &Actor,
    to: &Actor,
) -> Result<String, Refusal>
    ensures told { IfOk result (λ told. string_bytes told ≡ box_line as_data stage.now.shape (log_of stage.now.run) from.now to.now) }
    ensures refusal { IsOkUnless result Refusal.NoMemory }
{
    if !is_inside(stage.shape(), from) {
        return Ok(String::new(alloc));
    }
    if !is_inside(stage.shape(), to) {
        return Ok(String::new(alloc));
    }
    let held = held_in(alloc, stage, from, to)?;
    let shown = tell_held(alloc, as_data, &held)?;
    let mut out = Writer::new(alloc);
    put_actor(&mut out, as_data, "box ", "    in the box from ", *from);
    put_actor(&mut out, as_data, " ", " to ", *to);
    out.put_text(&shown);
    out.finish()
}

/// Returns a draft of the envelope in the box from one actor of the shape to another; `None` if the box is empty.
fn held_in(alloc: Global, stage: &Stage, from: &Actor, to: &Actor) -> Result<Option<Draft>, Refusal>
    requires from { IsActor stage.now.shape from.now }
    requires to { IsActor stage.now.shape to.now }
    ensures same { IfOk result (λ held. held ≡ in_box (log_of stage.now.run) from.now to.now) }
    ensures refusal { IsOkUnless result Refusal.NoMemory }
{
    // For the proof: the logs are those of a run.
    stage.steps_are_a_run();
    let Some(letter) = stage.in_box(from, to) else {
        return Ok(None);
    };
    let held = Draft::of(alloc, letter.envelope())?;
    Ok(Some(held))
}

/// Returns the text that a box is empty, or holds this envelope.
fn tell_held(alloc: Global, as_data: bool, held: &Option<Draft>) -> Result<String, Refusal>
    ensures told { IfOk result (λ told. string_bytes told ≡ held_text as_data held.now) }
    ensures refusal { IsOkUnless result Refusal.NoMemory }
{
    let mut out = Writer::new(alloc);
    let Some(held) = held else {
        out.put_one(as_data, " -\n", ": nothing\n");
        return out.finish();
    };
    let shown = text_of(alloc, held)?;
    out.put_one(as_data, " ", ": ");
    out.put_text(&shown);
    out.put("\n");
    out.finish()
}
