ghost use Rattle.std.specs.Prelude.{◌≡◌, ℕ, List, IfOk, IfSome, IfNone, IsOkUnless};
ghost use Rattle.dsr_names.specs.Shape.{Shape};
ghost use Rattle.dsr_names.specs.declared.actor.Actor.{Actor as AnActor};
ghost use Rattle.dsr_envelope.specs.declared.due.Due.TheVariants.{Post as PostTo};
ghost use Rattle.dsr_envelope.specs.declared.entry.Entry.{Entry};
ghost use Rattle.dsr_envelope.specs.declared.envelope.Envelope.{Envelope as AnEnvelope};
ghost use Rattle.dsr_replica.specs.Replica.{StandsFor};
ghost use Rattle.dsr_facts.specs.Fault.{HoldsRoundFault, MayPostRound};
ghost use Rattle.dsr_facts.specs.declared.fault.Fault.{Fault as AFault};

use crate::cause::{Cause, Limit};
use crate::difference::{Difference, how_differs};
use crate::shown::{pick_of, shown_clients};
use crate::undue::undue_round;
use dsr_envelope::Envelope;
use dsr_names::{Actor, Refusal, ReplicaId};
use dsr_replica::Replica;
use std::alloc::Global;

/// Why a recorded take, or a recorded post of a loyal replica to a replica, may not follow.
#[derive(Drop)]
pub enum Fault {
    /// The event that it would be is refused, with this cause.
    Refused(Cause),
    /// The box holds another envelope.
    OtherHeld,
    /// The actor posts `wanted` there, from which the envelope differs by `how`.
    OtherPosted { wanted: Envelope, how: Difference },
}

/// Returns why the replica, which is `me`, may not post this envelope to this replica next, by its own log. `None` exactly if it may, whatever
/// the box holds. Requires its round in progress, if the post is due. `NoMemory` if memory runs out.
pub fn round_fault(
    alloc: Global,
    replica: &Replica,
    me: &Actor,
    round: u64,
    to: ReplicaId,
    found: &Envelope,
) -> Result<Option<Fault>, Refusal>
    requires me { replica.now.me ≡ me.now }
    requires round { replica.now.next ≡ PostTo to → replica.now.round ≡ round }
    ensures some { (log : List Entry) → StandsFor replica.now log
        → IfOk result (λ fault. IfSome fault (HoldsRoundFault replica.now.shape me.now log to found.now)) }
    ensures none { (log : List Entry) → StandsFor replica.now log
        → IfOk result (λ fault. IfNone fault (MayPostRound replica.now.shape me.now log to found.now)) }
    ensures refusal { IsOkUnless result Refusal.NoMemory }
{
    let shape = replica.shape();
    let clients = shown_clients(alloc, &shape, me, to, found)?;
    if let Some(why) = undue_round(replica, me, round, to, &pick_of(&clients)) {
        return Ok(Some(Fault::Refused(Cause::NotDue(why))));
    }
    if !replica.allows(to, pick_of(&clients)) {
        return Ok(Some(Fault::Refused(Cause::Exhausted(Limit::Rounds))));
    }
    let Ok(wanted) = replica.envelope_for(alloc, to, pick_of(&clients)) else {
        return Err(Refusal::NoMemory);
    };
    match how_differs(&wanted, found) {
        Some(how) => Ok(Some(Fault::OtherPosted { wanted, how })),
        None => Ok(None),
    }
}

/// If a fault holds, the replica may not post the envelope.
pub fn round_faults_stop()
    ensures { (shape : Shape) (me : AnActor) (log : List Entry) (q : ℕ) (found : AnEnvelope) (fault : AFault)
        → HoldsRoundFault shape me log q found fault → MayPostRound shape me log q found → ⊥ }
{}
