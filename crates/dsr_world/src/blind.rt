//! The law that what events do does not depend on who else is a traitor: the contract of a function that does nothing.

ghost use Rattle.std.specs.Prelude.{◌≡◌};
ghost use Rattle.dsr_names.specs.Shape.{Shape, AgreeButForTraitors};
ghost use Rattle.dsr_node.specs.Conduct.{is_traitor_of};
ghost use Rattle.dsr_play.specs.Event.{actor_of};
ghost use Rattle.dsr_play.specs.declared.event.Event.{Event};
ghost use Rattle.dsr_run.specs.Step.{Logs};
ghost use Rattle.dsr_world.specs.Event.{step_of, refusal_of};

/// Under two shapes that differ at most in their traitors, and whatever the logs, an event is the same step. And, forgery aside, it is
/// refused alike if its actor is a traitor under both or under neither.
pub fn events_are_blind()
    ensures events { (shape other : Shape) → AgreeButForTraitors shape other → (logs : Logs) (event : Event)
        → step_of shape logs event ≡ step_of other logs event }
    ensures refusals { (shape other : Shape) → AgreeButForTraitors shape other → (logs : Logs) (event : Event)
        → is_traitor_of shape (actor_of event) ≡ is_traitor_of other (actor_of event) → refusal_of shape logs event ≡ refusal_of other logs event }
{}
