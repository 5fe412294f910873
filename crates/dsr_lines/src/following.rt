ghost use Rattle.std.specs.Prelude.{◌≡◌, ◌∷◌, Some, IfOk, IfSome, IfNone, OnOk, OnErr, OnSome, IsOkUnless};
ghost use Rattle.dsr_run.specs.Run.{IsNextStep};
ghost use Rattle.dsr_run.specs.Step.{Step, log_of};
ghost use Rattle.dsr_world.specs.Event.{step_of, MayBeDone};
ghost use Rattle.dsr_lines.specs.Line.{HoldsFault};

use crate::judged::{Judged, judge};
use crate::line_fault::LineFault;
use crate::notary::Notary;
use dsr_names::Refusal;
use dsr_record::NotedStep;
use dsr_world::{Event, Stage};
use std::alloc::Global;

/// Lets the stage go on by the recorded step, and returns why not, if the step may not follow. `None` exactly if it may: then the stage's run
/// has it. After a fault and after `NoMemory`, which comes if memory runs out, the stage is as before. Requires a notary of the stage's shape.
pub fn follow(
    alloc: Global,
    stage: &mut Stage,
    notary: &Notary,
    step: &NotedStep,
) -> Result<Option<LineFault>, Refusal>
    requires { notary.now ≡ stage.old.shape }
    ensures some { IfOk result (λ fault. IfSome fault (HoldsFault stage.old.shape (log_of stage.old.run) step.now)) }
    ensures stops { IfOk result (λ fault. OnSome fault (¬ IsNextStep stage.old.shape (log_of stage.old.run) step.now)) }
    ensures none { IfOk result (λ fault. IfNone fault (IsNextStep stage.old.shape (log_of stage.old.run) step.now)) }
    ensures run { IfOk result (λ fault. IfNone fault (stage.new.run ≡ step.now ∷ stage.old.run)) }
    ensures stays { IfOk result (λ fault. OnSome fault (stage.new ≡ stage.old)) }
    ensures failed { OnErr result (stage.new ≡ stage.old) }
    ensures shape { stage.new.shape ≡ stage.old.shape }
    ensures refusal { IsOkUnless result Refusal.NoMemory }
{
    // For the proof: the steps before this one are a run.
    stage.steps_are_a_run();
    let judged = judge(alloc, stage, notary, step)?;
    match judged {
        Judged::Not(fault) => Ok(Some(fault)),
        Judged::May(event) => match go_on(alloc, stage, &event) {
            Ok(()) => Ok(None),
            Err(refusal) => Err(refusal),
        },
    }
}

/// Makes the event happen. Requires that nothing refuses it. `NoMemory` if memory runs out.
fn go_on(alloc: Global, stage: &mut Stage, event: &Event) -> Result<(), Refusal>
    requires { MayBeDone stage.old.shape (log_of stage.old.run) event.now }
    ensures run { OnOk result ((step : Step) → step_of stage.old.shape (log_of stage.old.run) event.now ≡ Some step
        → stage.new.run ≡ step ∷ stage.old.run) }
    ensures next { OnOk result ((step : Step) → step_of stage.old.shape (log_of stage.old.run) event.now ≡ Some step
        → IsNextStep stage.old.shape (log_of stage.old.run) step) }
    ensures failed { OnErr result (stage.new ≡ stage.old) }
    ensures shape { stage.new.shape ≡ stage.old.shape }
    ensures refusal { IsOkUnless result Refusal.NoMemory }
{
    let done = stage.step(alloc, event);
    // For the proof: the steps are a run, with the event's own if it happened.
    stage.steps_are_a_run();
    match done {
        Ok(_) => Ok(()),
        Err(Refusal::NoMemory) => Err(Refusal::NoMemory),
        Err(_) => unreachable!(),
    }
}
