//! An actor's own log and the box that it uses are enough for its next step; and the laws of runs, for logs alone. States these laws as
//! contracts of functions that do nothing.

ghost use Rattle.std.specs.Prelude.{◌≡◌, ◌⊎◌, ◌↔◌, ℕ, ◌<◌, ◌≤◌, ◌^◌, List, [], ◌∷◌, ◌++◌, length};
ghost use Rattle.dsr_base.specs.Growth.{Extends};
ghost use Rattle.dsr_base.specs.Member.{In};
ghost use Rattle.dsr_names.specs.Shape.{Shape, IsAllowed, HasFewTraitors, IsActor, IsLoyal};
ghost use Rattle.dsr_names.specs.declared.actor.Actor.{Actor};
ghost use Rattle.dsr_names.specs.declared.actor.Actor.TheVariants.{Replica, Client};
ghost use Rattle.dsr_history.specs.History.{IsLegal};
ghost use Rattle.dsr_ledger.specs.declared.reply.Reply.{Reply as AReply};
ghost use Rattle.dsr_desk.specs.Signature.{Signature};
ghost use Rattle.dsr_envelope.specs.declared.envelope.Envelope.{Envelope};
ghost use Rattle.dsr_envelope.specs.declared.entry.Entry.TheVariants.{Post, Take};
ghost use Rattle.dsr_envelope.specs.Limits.{IsEnvelope};
ghost use Rattle.dsr_envelope.specs.Log.{posted_to, taken_from};
ghost use Rattle.dsr_replica.specs.Conduct.{IsLoyalLog};
ghost use Rattle.dsr_replica.specs.Posts.{WasTaken};
ghost use Rattle.dsr_client.specs.Conduct.{IsClientLog};
ghost use Rattle.dsr_run.specs.History.{accepted_by, decided_at, seen_by, history};
ghost use Rattle.dsr_envelope.specs.Envelope.{Carries};
ghost use Rattle.dsr_run.specs.Known.{KnowsPosts};
ghost use Rattle.dsr_run.specs.OwnStep.{KeepsOwn, MayPost, HasPostsLeft};
ghost use Rattle.dsr_run.specs.Right.{IsRightReply};
ghost use Rattle.dsr_run.specs.Run.{IsRun, IsNextStep, AreLogs, IsMadeOrPosted, IsTraitor, ForgesNothing};
ghost use Rattle.dsr_run.specs.Step.{Step, Logs, log_of};

/// An actor's own log and the one box that it uses are enough for its next step: in an allowed shape, a post that its own log
/// allows, into a box whose posted envelopes are all taken and which gets fewer than 2^40 of them, may be next in the run; so may a
/// take that its own log allows, from a box that holds an envelope. What such a box holds is within the limits. An actor that is
/// not of the shape has done nothing.
pub fn own_logs_are_enough()
    ensures post { (shape : Shape) (logs : Logs) (me to : Actor) (envelope : Envelope) → IsAllowed shape → AreLogs shape logs
        → IsActor shape me → IsActor shape to → MayPost shape me (logs me) to envelope → HasPostsLeft (logs me) to
        → posted_to to (logs me) ≡ taken_from me (logs to) → IsNextStep shape logs (me, Post to envelope) }
    ensures take { (shape : Shape) (logs : Logs) (me from : Actor) (envelope : Envelope) → IsAllowed shape → AreLogs shape logs
        → IsActor shape me → IsActor shape from → KeepsOwn shape me (logs me) (Take from envelope)
        → posted_to me (logs from) ≡ taken_from from (logs me) ++ envelope ∷ [] → IsNextStep shape logs (me, Take from envelope) }
    ensures within { (shape : Shape) (logs : Logs) (me from : Actor) (envelope : Envelope) → AreLogs shape logs
        → posted_to me (logs from) ≡ taken_from from (logs me) ++ envelope ∷ [] → IsEnvelope envelope }
    ensures outside { (shape : Shape) (logs : Logs) → AreLogs shape logs → (a : Actor) → ¬ IsActor shape a → logs a ≡ [] }
{}

/// What holds for runs holds for their logs, whatever the order of the steps. For logs of a run, if at most f replicas are traitors,
/// loyal replicas agree, and each reply that a client accepted is right by their history. However many are traitors, each log keeps its
/// actor's protocol, each box is empty or holds one envelope, and what was taken is not forged. The history depends on the logs alone,
/// and the numbers of each client rise in it.
pub fn logs_are_right()
    ensures agreement { (shape : Shape) (logs : Logs) → HasFewTraitors shape → AreLogs shape logs
        → (p q : ℕ) → IsLoyal shape (Replica p) → IsLoyal shape (Replica q)
        → Extends (decided_at shape logs p) (decided_at shape logs q) ⊎ Extends (decided_at shape logs q) (decided_at shape logs p) }
    ensures replies { (shape : Shape) (logs : Logs) → HasFewTraitors shape → AreLogs shape logs → (c : ℕ) (reply : AReply)
        → In reply (accepted_by shape logs c) → IsRightReply shape (history shape logs) (logs (Client c)) reply }
    ensures replicas { (shape : Shape) (logs : Logs) → AreLogs shape logs → (p : ℕ) → IsLoyal shape (Replica p)
        → IsLoyalLog shape (Replica p) (logs (Replica p)) }
    ensures clients { (shape : Shape) (logs : Logs) → AreLogs shape logs → (c : ℕ) → IsClientLog shape c (logs (Client c)) }
    ensures boxes { (shape : Shape) (logs : Logs) → AreLogs shape logs → (a b : Actor)
        → (posted_to b (logs a) ≡ taken_from a (logs b))
        ⊎ ((envelope : Envelope) × (posted_to b (logs a) ≡ taken_from a (logs b) ++ envelope ∷ [])) }
    ensures taken { (shape : Shape) (logs : Logs) → AreLogs shape logs → (a : Actor) (s : Signature) → WasTaken (logs a) s
        → IsMadeOrPosted shape logs s }
    ensures history { (shape : Shape) (logs other : Logs) → ((a : Actor) → logs a ≡ other a) → history shape logs ≡ history shape other }
    ensures legal { (shape : Shape) (logs : Logs) → IsLegal (history shape logs) }
{}

/// The counters of logs of a run stay within the limits: fewer than 2^40 envelopes are posted into a box, and the history has
/// at most 2^39 requests. If at most f replicas are traitors, no client has seen more than the history has, and accepted
/// replies have numbers below 2^40.
pub fn counters_are_kept()
    ensures posts { (shape : Shape) (logs : Logs) → AreLogs shape logs → (a b : Actor) → length (posted_to b (logs a)) < 2 ^ 40 }
    ensures seen { (shape : Shape) (logs : Logs) → HasFewTraitors shape → AreLogs shape logs → (c : ℕ)
        → seen_by shape logs c ≤ length (history shape logs) }
    ensures few { (shape : Shape) (logs : Logs) → AreLogs shape logs → length (history shape logs) ≤ 2 ^ 39 }
    ensures numbers { (shape : Shape) (logs : Logs) → HasFewTraitors shape → AreLogs shape logs → (c : ℕ) (reply : AReply)
        → In reply (accepted_by shape logs c) → reply.number < 2 ^ 40 }
{}

/// The known signatures of loyal actors' posts grow by what a loyal actor posts, and by nothing else: with each post of a loyal actor
/// the signatures that it carries become known, and any other step makes nothing known. They decide what is forged: in a run a post
/// forges nothing exactly if each signature that it carries is by a traitor, or known.
pub fn posts_are_known()
    ensures posted { (shape : Shape) (older : List Step) (known new : List Signature) (a to : Actor) (envelope : Envelope)
        → KnowsPosts shape (log_of older) known → IsLoyal shape a → ((s : Signature) → In s new ↔ (In s known ⊎ Carries envelope s))
        → KnowsPosts shape (log_of ((a, Post to envelope) ∷ older)) new }
    ensures still { (shape : Shape) (older : List Step) (known : List Signature) (step : Step) → KnowsPosts shape (log_of older) known
        → ((to : Actor) (envelope : Envelope) → step.1 ≡ Post to envelope → IsLoyal shape step.0 → ⊥)
        → KnowsPosts shape (log_of (step ∷ older)) known }
    ensures decides { (shape : Shape) (run : List Step) (known : List Signature) (to : Actor) (envelope : Envelope) → IsRun shape run
        → KnowsPosts shape (log_of run) known → ForgesNothing shape (log_of run) (Post to envelope)
        ↔ ((s : Signature) → Carries envelope s → IsTraitor shape s.signer ⊎ In s known) }
{}
