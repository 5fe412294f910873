ghost use Rattle.std.specs.Prelude.{◌≡◌, ℕ, false, IfOk, IfSome, IfNone, IsOkUnless};
ghost use Rattle.dsr_names.specs.Shape.{Shape as AShape, IsLoyal, is_traitor};
ghost use Rattle.dsr_names.specs.declared.actor.Actor.TheVariants.{Replica as ReplicaNumber};
ghost use Rattle.dsr_envelope.specs.declared.entry.Entry.TheVariants.{Post};
ghost use Rattle.dsr_envelope.specs.declared.envelope.Envelope.{Envelope as AnEnvelope};
ghost use Rattle.dsr_run.specs.Run.{IsNextStep};
ghost use Rattle.dsr_run.specs.Step.{Logs, log_of};
ghost use Rattle.dsr_facts.specs.PostFault.{HoldsPostFault};
ghost use Rattle.dsr_facts.specs.declared.fault.Fault.{Fault as AFault};

use crate::cause::{loyal_of, post_cause};
use crate::difference::how_differs;
use crate::fault::Fault;
use crate::shown::{pick_of, shown_clients};
use dsr_envelope::Envelope;
use dsr_names::{Actor, Refusal, ReplicaId};
use dsr_world::Stage;
use std::alloc::Global;

/// Returns why a loyal replica's recorded post of this envelope to a replica may not follow in this stage. `None` exactly if it may.
/// `NoMemory` if memory runs out.
pub fn post_fault(
    alloc: Global,
    stage: &Stage,
    from: ReplicaId,
    to: ReplicaId,
    found: &Envelope,
) -> Result<Option<Fault>, Refusal>
    requires { IsLoyal stage.now.shape (ReplicaNumber from) }
    ensures some { IfOk result (λ fault. IfSome fault (HoldsPostFault stage.now.shape (log_of stage.now.run) from to found.now)) }
    ensures none { IfOk result (λ fault. IfNone fault
        (IsNextStep stage.now.shape (log_of stage.now.run) (ReplicaNumber from, Post (ReplicaNumber to) found.now))) }
    ensures refusal { IsOkUnless result Refusal.NoMemory }
{
    // For the proof: the limits of the shape, and that the logs are those of a run.
    let _n = stage.shape().n();
    stage.steps_are_a_run();
    let clients = shown_clients(alloc, stage.shape(), &Actor::Replica(from), to, found)?;
    if let Some(cause) = post_cause(
        stage,
        &Actor::Replica(from),
        &Actor::Replica(to),
        &pick_of(&clients),
    ) {
        return Ok(Some(Fault::Refused(cause)));
    }
    let Ok(wanted) = loyal_of(stage, from).envelope_for(alloc, to, pick_of(&clients)) else {
        return Err(Refusal::NoMemory);
    };
    match how_differs(&wanted, found) {
        Some(how) => Ok(Some(Fault::OtherPosted { wanted, how })),
        None => Ok(None),
    }
}

/// If a fault holds, the post may not follow.
pub fn post_faults_stop()
    ensures { (shape : AShape) (logs : Logs) (p q : ℕ) (found : AnEnvelope) (fault : AFault) → is_traitor shape p ≡ false
        → HoldsPostFault shape logs p q found fault → IsNextStep shape logs (ReplicaNumber p, Post (ReplicaNumber q) found) → ⊥ }
{}
