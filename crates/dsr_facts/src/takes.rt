ghost use Rattle.std.specs.Prelude.{◌≡◌, true, Some, IfOk, IfSome, IfNone, IsOkUnless};
ghost use Rattle.dsr_names.specs.Shape.{Shape as AShape, IsActor};
ghost use Rattle.dsr_names.specs.declared.actor.Actor.{Actor as AnActor};
ghost use Rattle.dsr_envelope.specs.declared.entry.Entry.TheVariants.{Take};
ghost use Rattle.dsr_envelope.specs.declared.envelope.Envelope.{Envelope as AnEnvelope};
ghost use Rattle.dsr_run.specs.Run.{IsNextStep};
ghost use Rattle.dsr_run.specs.Step.{Logs, log_of};
ghost use Rattle.dsr_world.specs.Event.{in_box, is_full};
ghost use Rattle.dsr_facts.specs.TakeFault.{HoldsTakeFault};
ghost use Rattle.dsr_facts.specs.declared.fault.Fault.{Fault as AFault};

use crate::cause::take_cause;
use crate::fault::Fault;
use dsr_names::{Actor, Refusal};
use dsr_script::Draft;
use dsr_world::Stage;
use std::alloc::Global;

/// Returns why the recorded take of this envelope may not follow in this stage. `None` exactly if it may. `NoMemory` if memory runs out.
pub fn take_fault(
    alloc: Global,
    stage: &Stage,
    at: &Actor,
    from: &Actor,
    found: &Draft,
) -> Result<Option<Fault>, Refusal>
    ensures some { IfOk result (λ fault. IfSome fault (HoldsTakeFault stage.now.shape (log_of stage.now.run) at.now from.now found.now)) }
    ensures none { IfOk result (λ fault. IfNone fault (IsNextStep stage.now.shape (log_of stage.now.run) (at.now, Take from.now found.now))) }
    ensures refusal { IsOkUnless result Refusal.NoMemory }
{
    if let Some(cause) = take_cause(stage, at, from) {
        return Ok(Some(Fault::Refused(cause)));
    }
    // For the proof: the limits of the shape, and that the logs are those of a run.
    let _n = stage.shape().n();
    stage.steps_are_a_run();
    let held = held_in(alloc, stage, from, at)?;
    if held.same(found) {
        Ok(None)
    } else {
        Ok(Some(Fault::OtherHeld))
    }
}

/// Returns a draft of the envelope in the box from one actor to another. Requires that the box holds one. `NoMemory` if memory runs out.
fn held_in(alloc: Global, stage: &Stage, from: &Actor, to: &Actor) -> Result<Draft, Refusal>
    requires from { IsActor stage.now.shape from.now }
    requires to { IsActor stage.now.shape to.now }
    requires full { is_full (log_of stage.now.run) from.now to.now ≡ true }
    ensures same { IfOk result (λ held. in_box (log_of stage.now.run) from.now to.now ≡ Some held) }
    ensures refusal { IsOkUnless result Refusal.NoMemory }
{
    // For the proof: the logs are those of a run.
    stage.steps_are_a_run();
    let Some(letter) = stage.in_box(from, to) else {
        unreachable!()
    };
    let held = Draft::of(alloc, letter.envelope())?;
    Ok(held)
}

/// If a fault holds, the take may not follow.
pub fn take_faults_stop()
    ensures { (shape : AShape) (logs : Logs) (at from : AnActor) (found : AnEnvelope) (fault : AFault)
        → HoldsTakeFault shape logs at from found fault → IsNextStep shape logs (at, Take from found) → ⊥ }
{}
