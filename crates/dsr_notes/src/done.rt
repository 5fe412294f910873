//! Makes an event happen, and notes what came of it.

ghost use Rattle.std.specs.Prelude.{◌≡◌, ◌≢◌, [], Err, IfOk, OnOk};
ghost use Rattle.dsr_run.specs.Step.{log_of};
ghost use Rattle.dsr_world.specs.Event.{HasDone, IsRefusedBy, MayBeDone};
ghost use Rattle.dsr_notes.specs.Notes.{IsNoted};
ghost use Rattle.dsr_notes.specs.Support.Rest.{Foretells};

use crate::ask::note_ask;
use crate::notes::Notes;
use crate::reading::note_reading;
use crate::rest::{Rest, note_rest};
use crate::unproposed::note_unproposed;
use crate::vote::note_vote;
use dsr_ledger::Reply;
use dsr_names::{Actor, Refusal};
use dsr_world::{Event, Stage};
use std::alloc::Global;

/// Makes the event happen in the stage, as `Stage::step` does, and replaces the notes by those of the event. If it returns a refusal, the notes are
/// none that count. `NoMemory` may come although the event was done: the stage must not be used then.
pub fn step_noted(
    alloc: Global,
    stage: &mut Stage,
    event: &Event,
    notes: &mut Notes,
) -> Result<Option<Reply>, Refusal>
    ensures done { IfOk result (HasDone stage.old.shape stage.new.run stage.old.run event.now) }
    ensures may { OnOk result (MayBeDone stage.old.shape (log_of stage.old.run) event.now) }
    ensures noted { OnOk result (IsNoted stage.old.shape stage.old.run event.now notes.new.items) }
    ensures refused { (refusal : Refusal) → refusal ≢ Refusal.NoMemory → result ≡ Err refusal
        → IsRefusedBy stage.old.shape (log_of stage.old.run) event.now refusal × (stage.new ≡ stage.old) }
    ensures shape { stage.new.shape ≡ stage.old.shape }
{
    notes.clear();
    let rest = note_before(stage, event, notes);
    let reply = stage.step(alloc, event)?;
    note_rest(stage, &rest, reply, notes);
    if notes.is_broken() {
        return Err(Refusal::NoMemory);
    }
    Ok(reply)
}

/// Notes what will come of the event, if it is done, and returns what remains to be noted then.
fn note_before(stage: &Stage, event: &Event, notes: &mut Notes) -> Rest
    requires { notes.old.items ≡ [] }
    ensures { Foretells stage.now.shape stage.now.run event.now notes.new result }
{
    match event {
        Event::Take {
            at: Actor::Replica(replica),
            from: Actor::Replica(from),
        } => note_reading(stage, *replica, *from, notes),
        Event::Take {
            at: Actor::Replica(replica),
            from: Actor::Client(client),
        } => {
            note_ask(stage, *replica, *client, notes);
            Rest::Nothing
        }
        Event::Take {
            at: Actor::Client(client),
            from: Actor::Replica(replica),
        } => {
            note_vote(stage, *client, *replica, notes);
            Rest::Reply
        }
        Event::Post {
            from: Actor::Replica(replica),
            to: Actor::Replica(to),
            pick,
        } => {
            note_unproposed(stage, *replica, *to, pick, notes);
            Rest::Nothing
        }
        _ => Rest::Nothing,
    }
}
