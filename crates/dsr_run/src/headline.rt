//! The headline: what clients accept is right. States laws of runs as contracts of functions that do nothing.

ghost use Rattle.std.specs.Prelude.{◌≡◌, ℕ, ◌*◌, ◌<◌, List};
ghost use Rattle.dsr_base.specs.Growth.{Extends};
ghost use Rattle.dsr_base.specs.Member.{In};
ghost use Rattle.dsr_names.specs.Shape.{Shape, HasFewTraitors};
ghost use Rattle.dsr_names.specs.declared.actor.Actor.{Actor};
ghost use Rattle.dsr_names.specs.declared.actor.Actor.TheVariants.{Client};
ghost use Rattle.dsr_request.specs.Request.{Request};
ghost use Rattle.dsr_ledger.specs.declared.reply.Reply.{Reply as AReply};
ghost use Rattle.dsr_run.specs.History.{accepted_by, history};
ghost use Rattle.dsr_run.specs.Linearizable.{IsInvoked, HasResponse, Precedes, IsLinearization, AreStronglyLinearizable, LinearizesLogs};
ghost use Rattle.dsr_run.specs.Right.{IsRightReply, IsRight, TookAllReplies, HasReplyTo};
ghost use Rattle.dsr_run.specs.Run.{IsRun, AreLogs};
ghost use Rattle.dsr_run.specs.Step.{Step, Logs, log_of};

/// Every run is right if at most f replicas are traitors. For each reply that a client accepted, the request that the client posted under its
/// number is in the history at the reply's place, with the reply's answer, and that place is not before what the client knew of the history just
/// before it first asked; no number of a client is in the history twice; and the history at each earlier time is a prefix of it.
pub fn runs_are_right()
    ensures right { (shape : Shape) (run : List Step) → HasFewTraitors shape → IsRun shape run → IsRight shape run }
    ensures replies { (shape : Shape) (run : List Step) → HasFewTraitors shape → IsRun shape run → (c : ℕ) (reply : AReply)
        → In reply (accepted_by shape (log_of run) c) → IsRightReply shape (history shape (log_of run)) (log_of run (Client c)) reply }
{}

/// A client is answered, if at most f replicas are traitors and n is at least 2f+1: if it took a reply to its request from each
/// loyal replica while the request was outstanding, it has accepted a reply to it. What traitors do plays no part.
pub fn clients_are_answered()
    ensures { (shape : Shape) (run : List Step) → HasFewTraitors shape → 2 * shape.f < shape.n → IsRun shape run
        → (c number : ℕ) → TookAllReplies shape (log_of run (Client c)) number → HasReplyTo number (accepted_by shape (log_of run) c) }
{}

/// Runs are strongly linearizable, in the order of their steps, if at most f replicas are traitors: each request that is answered seems to
/// act at one instant between its client's first ask for it and the reply that the client accepts, and what seems to have happened stays
/// so. For logs, one order linearizes every run with these logs, whatever the order of its steps.
///
/// By any clock: let the logs of all actors be those of a run both at an earlier and at a later moment, the later ones being longer or
/// equal. If one request has a response at the earlier moment, and another one, of any client, is not yet invoked then but has a response
/// at the later moment, then the other one has the greater place.
pub fn runs_are_linearizable()
    ensures strongly { (shape : Shape) → HasFewTraitors shape → AreStronglyLinearizable shape }
    ensures logs { (shape : Shape) (logs : Logs) → HasFewTraitors shape → (order : List Request) × LinearizesLogs shape logs order }
    ensures moments { (shape : Shape) (logs earlier : Logs) → HasFewTraitors shape → AreLogs shape logs → AreLogs shape earlier
        → ((a : Actor) → Extends (logs a) (earlier a)) → (first second : Request) (reply later : AReply)
        → HasResponse shape earlier first reply → ¬ IsInvoked earlier second → HasResponse shape logs second later → reply.place < later.place }
{}

/// The history linearizes a run, if at most f replicas are traitors. It is a function of the logs alone.
pub fn history_linearizes()
    ensures run { (shape : Shape) (run : List Step) → HasFewTraitors shape → IsRun shape run
        → IsLinearization shape run (history shape (log_of run)) }
    ensures logs { (shape : Shape) (logs : Logs) → HasFewTraitors shape → LinearizesLogs shape logs (history shape logs) }
{}

/// What `real_time` means for answered requests, in any run and any order that linearizes it: if the first one has its response at a
/// moment when the second is not yet invoked, the second has the greater place.
pub fn linearizations_keep_real_time()
    ensures { (shape : Shape) (run moment : List Step) (order : List Request) → IsLinearization shape run order → Extends run moment
        → (first second : Request) (reply later : AReply) → HasResponse shape (log_of moment) first reply → ¬ IsInvoked (log_of moment) second
        → HasResponse shape (log_of run) second later → reply.place < later.place }
{}

/// Each client invokes one request after another: of two requests that a client has invoked, the one with the smaller number precedes the
/// other in real time, however many replicas are traitors. Since a number names one request (`numbers_name_one_request`) and has one
/// accepted reply (`accepted_replies_are_numbered`), runs are well-formed histories (Herlihy and Wing 1990).
pub fn clients_take_turns()
    ensures { (shape : Shape) (run : List Step) → IsRun shape run → (first second : Request) → IsInvoked (log_of run) first
        → IsInvoked (log_of run) second → first.client ≡ second.client → first.number < second.number → Precedes shape run first second }
{}
