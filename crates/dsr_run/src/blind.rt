//! What loyal actors do, decide, accept and see does not depend on who the traitors are. States these laws as contracts of functions that
//! do nothing.

ghost use Rattle.std.specs.Prelude.{◌≡◌, ◌↔◌, ℕ, List};
ghost use Rattle.dsr_base.specs.Growth.{Extends};
ghost use Rattle.dsr_names.specs.Shape.{Shape, shape_of, AgreeButForTraitors, HasFewTraitors, IsLoyal};
ghost use Rattle.dsr_names.specs.declared.actor.Actor.{Actor};
ghost use Rattle.dsr_envelope.specs.declared.entry.Entry.{Entry};
ghost use Rattle.dsr_replica.specs.Conduct.{IsNext, IsLoyalLog};
ghost use Rattle.dsr_envelope.specs.Log.{due, rounds};
ghost use Rattle.dsr_client.specs.Conduct.{IsClientLog, IsNext as IsNextOfClient};
ghost use Rattle.dsr_client.specs.State.{outstanding};
ghost use Rattle.dsr_run.specs.Blind.{AddsTraitors};
ghost use Rattle.dsr_run.specs.History.{decided_at, accepted_by, seen_by, history};
ghost use Rattle.dsr_run.specs.Run.{IsNextStep, IsRun, AreLogs};
ghost use Rattle.dsr_run.specs.Step.{Step, Logs, log_of};

/// Loyal actors do not know who the traitors are. Under two shapes that differ at most in their traitors, and whatever the logs: each
/// entry, and each log, keeps the protocol of a loyal replica, or of a client, under both or under neither; the same is due, decided,
/// outstanding, accepted and seen. Who else is a traitor does not matter: a step of an actor that is loyal under both may be next under
/// both or under neither.
pub fn loyal_actors_are_blind()
    ensures replicas { (shape other : Shape) → AgreeButForTraitors shape other → (me : Actor) (log : List Entry) (entry : Entry)
        → IsNext shape me log entry ↔ IsNext other me log entry }
    ensures loyal_logs { (shape other : Shape) → AgreeButForTraitors shape other → (me : Actor) (log : List Entry)
        → IsLoyalLog shape me log ↔ IsLoyalLog other me log }
    ensures clients { (shape other : Shape) → AgreeButForTraitors shape other → (c : ℕ) (log : List Entry) (entry : Entry)
        → IsNextOfClient shape c log entry ↔ IsNextOfClient other c log entry }
    ensures client_logs { (shape other : Shape) → AgreeButForTraitors shape other → (c : ℕ) (log : List Entry)
        → IsClientLog shape c log ↔ IsClientLog other c log }
    ensures due { (shape other : Shape) → AgreeButForTraitors shape other → (log : List Entry) → due shape log ≡ due other log }
    ensures rounds { (shape other : Shape) → AgreeButForTraitors shape other → (log : List Entry) → rounds shape log ≡ rounds other log }
    ensures decided { (shape other : Shape) → AgreeButForTraitors shape other → (logs : Logs) (p : ℕ)
        → decided_at shape logs p ≡ decided_at other logs p }
    ensures outstanding { (shape other : Shape) → AgreeButForTraitors shape other → (log : List Entry)
        → outstanding shape log ≡ outstanding other log }
    ensures accepted { (shape other : Shape) → AgreeButForTraitors shape other → (logs : Logs) (c : ℕ)
        → accepted_by shape logs c ≡ accepted_by other logs c }
    ensures seen { (shape other : Shape) → AgreeButForTraitors shape other → (logs : Logs) (c : ℕ) → seen_by shape logs c ≡ seen_by other logs c }
    ensures steps { (shape other : Shape) → AgreeButForTraitors shape other → (logs : Logs) (step : Step)
        → IsLoyal shape step.0 → IsLoyal other step.0 → IsNextStep shape logs step ↔ IsNextStep other logs step }
{}

/// A traitor may do all that a loyal replica does: a run of a shape is a run of each shape with more traitors, and the same holds for
/// logs. So no log shows that a replica is loyal, and a run without traitors is a run with any traitors. With more traitors fewer
/// replicas determine the history: if at most f were traitors before, the new history is a prefix of the old one.
pub fn traitors_may_be_loyal()
    ensures runs { (shape other : Shape) → AddsTraitors shape other → (run : List Step) → IsRun shape run → IsRun other run }
    ensures logs { (shape other : Shape) → AddsTraitors shape other → (logs : Logs) → AreLogs shape logs → AreLogs other logs }
    ensures none { (n f m traitors : ℕ) (run : List Step) → IsRun (shape_of n f m 0) run → IsRun (shape_of n f m traitors) run }
    ensures history { (shape other : Shape) → AddsTraitors shape other → HasFewTraitors shape → (run : List Step) → IsRun shape run
        → Extends (history shape (log_of run)) (history other (log_of run)) }
{}
