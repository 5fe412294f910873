//! What a loyal replica does next with the replicas.

ghost use Rattle.std.specs.Prelude.{◌≡◌, ◌<◌, ◌↔◌, IsSome, IfSome};
ghost use Rattle.dsr_names.specs.Shape.{IsActor, IsLoyal};
ghost use Rattle.dsr_names.specs.declared.actor.Actor.TheVariants.{Replica as ReplicaNumber};
ghost use Rattle.dsr_replica.specs.Counts.{IsInside};
ghost use Rattle.dsr_run.specs.Step.{log_of};
ghost use Rattle.dsr_world.specs.Event.{is_full};
ghost use Rattle.dsr_notes.specs.End.{IsNextOf, is_there};

use dsr_envelope::Due;
use dsr_names::{Actor, ReplicaId};
use dsr_world::Stage;

/// The next step of a loyal replica with the replicas.
#[derive(Clone, Copy, Debug)]
pub struct Next {
    /// What is due.
    pub due: Due,
    /// The round in progress.
    pub round: u64,
    /// Whether the box to which it posts, or from which it takes, holds an envelope.
    pub is_there: bool,
}

/// Returns what the replica does next with the replicas; `None` exactly if it is no loyal replica of the shape.
pub fn next_of(stage: &Stage, replica: ReplicaId) -> Option<Next>
    ensures next { IfSome result (IsNextOf stage.now.shape (log_of stage.now.run) replica) }
    ensures some { IsSome result ↔ IsLoyal stage.now.shape (ReplicaNumber replica) }
{
    let Ok(loyal) = stage.replica(replica) else {
        return None;
    };
    let due = loyal.due();
    Some(Next {
        due,
        round: loyal.round(),
        is_there: is_there(stage, replica, &due),
    })
}

/// Tells whether the box that this step of a replica needs holds an envelope. Requires that the step is with a replica of the shape.
fn is_there(stage: &Stage, replica: ReplicaId, due: &Due) -> bool
    requires replica { replica < stage.now.shape.n }
    requires inside { IsInside stage.now.shape.n due.now }
    ensures { result ≡ is_there (log_of stage.now.run) replica due.now }
{
    let me = Actor::Replica(replica);
    match due {
        Due::Post(to) => is_full(stage, &me, &Actor::Replica(*to)),
        Due::Take(from) => is_full(stage, &Actor::Replica(*from), &me),
    }
}

/// Tells whether the box from one actor to another holds an envelope.
fn is_full(stage: &Stage, from: &Actor, to: &Actor) -> bool
    requires from { IsActor stage.now.shape from.now }
    requires to { IsActor stage.now.shape to.now }
    ensures { result ≡ is_full (log_of stage.now.run) from.now to.now }
{
    stage.in_box(from, to).is_some()
}
