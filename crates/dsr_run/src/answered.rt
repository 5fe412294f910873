//! Bounded response: a request that an eager loyal replica holds acts within a stated number of closed rounds, and one more envelope from
//! each loyal replica then answers its client. States these laws of runs as contracts of functions that do nothing.

ghost use Rattle.std.specs.Prelude.{◌≡◌, ℕ, ◌+◌, ◌*◌, ◌<◌, ◌≤◌, List};
ghost use Rattle.dsr_base.specs.Growth.{Extends};
ghost use Rattle.dsr_names.specs.Shape.{Shape, shape_of, HasFewTraitors, IsLoyal};
ghost use Rattle.dsr_names.specs.declared.actor.Actor.{Actor};
ghost use Rattle.dsr_names.specs.declared.actor.Actor.TheVariants.{Replica};
ghost use Rattle.dsr_chain.specs.declared.signed_request.SignedRequest.{SignedRequest};
ghost use Rattle.dsr_envelope.specs.declared.due.Due.TheVariants.{Post as PostTo};
ghost use Rattle.dsr_envelope.specs.declared.entry.Entry.{Entry};
ghost use Rattle.dsr_envelope.specs.declared.entry.Entry.TheVariants.{Post};
ghost use Rattle.dsr_envelope.specs.declared.envelope.Envelope.{Envelope};
ghost use Rattle.dsr_envelope.specs.Log.{due, rounds};
ghost use Rattle.dsr_replica.specs.Conduct.{IsNext};
ghost use Rattle.dsr_run.specs.Answered.{IsHeldEagerly, rounds_to_act, HasActed, ActsWithin, TookSince};
ghost use Rattle.dsr_run.specs.Eager.{ProposesNext};
ghost use Rattle.dsr_run.specs.History.{accepted_by};
ghost use Rattle.dsr_run.specs.Right.{HasReplyTo};
ghost use Rattle.dsr_run.specs.Run.{IsRun, AreLogs};
ghost use Rattle.dsr_run.specs.Step.{Step, Logs, log_of};

/// To be eager is a way to be loyal: in a shape with a client, whenever the post to replica 0 is due, there is an envelope that is both
/// what a loyal replica may post next and eager. This says nothing about limits and boxes.
pub fn loyal_replicas_may_be_eager()
    ensures { (shape : Shape) → 0 < shape.m → (me : Actor) (log : List Entry) → due shape log ≡ PostTo 0
        → (envelope : Envelope) × IsNext shape me log (Post (Replica 0) envelope) × ProposesNext shape me log envelope }
{}

/// Held requests act, if at most f replicas are traitors. Let a loyal replica hold a client's request when it has closed t rounds, and let
/// it be eager from then on: it begins each slot of its own with the requests of the first 8 clients that wait, in turn. Then the request
/// has acted at each loyal replica that has closed t + n * turns(m) + f + 1 rounds. No other replica need propose anything, and traitors
/// do what they like. Nothing says that rounds close. What holds for a run holds for its logs, whatever the order of its steps.
pub fn eager_replicas_answer()
    ensures runs { (shape : Shape) → HasFewTraitors shape → ActsWithin shape (rounds_to_act shape) }
    ensures logs { (shape : Shape) (logs : Logs) → HasFewTraitors shape → AreLogs shape logs
        → (ask : SignedRequest) (t : ℕ) → IsHeldEagerly shape logs ask t
        → (q : ℕ) → IsLoyal shape (Replica q) → t + rounds_to_act shape ≤ rounds shape (logs (Replica q))
        → HasActed shape (logs (Replica q)) ask.request }
{}

/// Clients are answered if at most f replicas are traitors and n is at least 2f+1. Let an eager loyal replica hold a client's request
/// since it closed t rounds, and look at a moment when each loyal replica has closed t + n * turns(m) + f + 1 rounds. One envelope that
/// each loyal replica posts to the client after that moment is enough: when the client has taken one from each, it has accepted a reply to
/// its request. Nothing says that replicas post these envelopes or that the client takes them, and what traitors do plays no part.
pub fn clients_are_answered_in_time()
    ensures runs { (shape : Shape) (run moment : List Step) → HasFewTraitors shape → 2 * shape.f < shape.n → IsRun shape run → Extends run moment
        → (ask : SignedRequest) (t : ℕ) → IsHeldEagerly shape (log_of moment) ask t
        → ((q : ℕ) → IsLoyal shape (Replica q) → (t + rounds_to_act shape ≤ rounds shape (log_of moment (Replica q)))
        × TookSince (log_of run) (log_of moment) ask.request.client q)
        → HasReplyTo ask.request.number (accepted_by shape (log_of run) ask.request.client) }
    ensures logs { (shape : Shape) (logs earlier : Logs) → HasFewTraitors shape → 2 * shape.f < shape.n → AreLogs shape logs
        → AreLogs shape earlier → ((a : Actor) → Extends (logs a) (earlier a))
        → (ask : SignedRequest) (t : ℕ) → IsHeldEagerly shape earlier ask t
        → ((q : ℕ) → IsLoyal shape (Replica q) → (t + rounds_to_act shape ≤ rounds shape (earlier (Replica q)))
        × TookSince logs earlier ask.request.client q)
        → HasReplyTo ask.request.number (accepted_by shape logs ask.request.client) }
{}

/// For two shapes no smaller number of rounds is enough. With one replica and nine clients the number is 3, and in some run a request has
/// not acted after 2 rounds. With three replicas, f = 1 and one client the number is 5, and in some run a request has not acted after 4.
pub fn eager_replicas_answer_no_sooner()
    ensures one { (rounds_to_act (shape_of 1 0 9 0) ≡ 3) × ¬ ActsWithin (shape_of 1 0 9 0) 2 }
    ensures three { (rounds_to_act (shape_of 3 1 1 0) ≡ 5) × ¬ ActsWithin (shape_of 3 1 1 0) 4 }
{}
