//! The parts of a stage that notes are about.

ghost use Rattle.std.specs.Prelude.{◌≡◌, None, IfNone, IfSome};
ghost use Rattle.dsr_chain.specs.Content.{content};
ghost use Rattle.dsr_run.specs.Step.{log_of};
ghost use Rattle.dsr_explain.specs.Lines.{decided_content};

use dsr_names::Actor;
use dsr_request::Requests;
use dsr_slot::Decision;
use dsr_world::Stage;

/// Returns the requests that the actor decided for the slot. `None` if it decided idle, has not closed the slot, or is no loyal replica of the shape.
pub(crate) fn content_of(stage: &Stage, actor: &Actor, slot: u64) -> Option<Requests>
    ensures { result ≡ decided_content stage.now.shape (log_of stage.now.run) actor.now slot }
{
    match decision_of(stage, actor, slot) {
        Some(decision) => decision.content(),
        None => None,
    }
}

/// Returns what the actor decided for the slot. `None` if it has not closed the slot, or is no loyal replica of the shape.
pub(crate) fn decision_of<'a>(stage: &'a Stage, actor: &Actor, slot: u64) -> Option<&'a Decision>
    ensures some { IfSome result (λ decision. content decision.now ≡ decided_content stage.now.shape (log_of stage.now.run) actor.now slot) }
    ensures none { IfNone result (None ≡ decided_content stage.now.shape (log_of stage.now.run) actor.now slot) }
{
    let Actor::Replica(replica) = actor else {
        return None;
    };
    match stage.decided(*replica) {
        Ok(decided) => match decided.get(slot as usize) {
            Some(decision) => Some(decision),
            None => None,
        },
        Err(_) => None,
    }
}
