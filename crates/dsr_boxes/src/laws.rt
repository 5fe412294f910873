//! Laws of the boxes, stated as contracts of functions that do nothing: the rule, in plain terms, which holds at every moment; what each atomic
//! step does to it; and how moments order requests.

ghost use Rattle.std.specs.Prelude.{◌≡◌, ℕ, ◌+◌, ◌*◌, ◌<◌, List, [], ◌∷◌, ◌++◌, None, Some, length, replicate, slice_index, slice_set};
ghost use mathlib.Core.Option.{some};
ghost use lib.ListN.{get_elem?};
ghost use Rattle.atomic_table.specs.Table.{takes, gives, keeps, opening, stepped};
ghost use Rattle.dsr_base.specs.Growth.{Extends};
ghost use Rattle.dsr_names.specs.Places.{size, place_of, actor_at};
ghost use Rattle.dsr_names.specs.Shape.{Shape, IsActor, IsAllowed, HasFewTraitors};
ghost use Rattle.dsr_names.specs.declared.actor.Actor.TheVariants.{Client};
ghost use Rattle.dsr_ledger.specs.declared.reply.Reply.{Reply as AReply};
ghost use Rattle.dsr_request.specs.Request.{Request};
ghost use Rattle.dsr_chain.specs.declared.signed_request.SignedRequest.{SignedRequest};
ghost use Rattle.dsr_client.specs.Accepted.{WasPosted};
ghost use Rattle.dsr_names.specs.declared.actor.Actor.{Actor as AnActor};
ghost use Rattle.dsr_envelope.specs.declared.envelope.Envelope.{Envelope};
ghost use Rattle.dsr_envelope.specs.declared.entry.Entry.{Entry};
ghost use Rattle.dsr_envelope.specs.declared.entry.Entry.TheVariants.{Post, Take};
ghost use Rattle.dsr_run.specs.OwnStep.{MayPost, HasPostsLeft};
ghost use Rattle.dsr_run.specs.Linearizable.{HasResponse, Precedes};
ghost use Rattle.dsr_run.specs.Run.{IsRun};
ghost use Rattle.dsr_run.specs.Step.{Step, Logs, log_of};
ghost use Rattle.dsr_boxes.specs.declared.view.Doing.TheVariants.{Resting, Filling, Emptying};
ghost use Rattle.dsr_boxes.specs.declared.view.View.{View as AView};
ghost use Rattle.dsr_boxes.specs.Moment.{AreLogsAfter};
ghost use Rattle.dsr_boxes.specs.Moves.{IsMoment, GoesOn, with_views};
ghost use Rattle.dsr_boxes.specs.Pass.{MayTake};
ghost use Rattle.dsr_boxes.specs.Place.{slot_of, word_of};
ghost use Rattle.dsr_boxes.specs.Play.{spent};
ghost use Rattle.dsr_boxes.specs.Rule.{Table as ATable, Kept, IsOf, Stands, first_view};
ghost use Rattle.dsr_boxes.specs.View.{sitting, keeping};

/// If the boxes keep the rule, there are logs of a run: the passes have these logs, and each box agrees with them.
pub fn every_moment_is_of_a_run()
    ensures { (shape : Shape) (table : ATable) → Kept shape table → (logs : Logs) × IsMoment shape table logs }
{}

/// Each atomic step on a box keeps the rule. A publish adds the poster's post to the run, and a fetch adds the taker's take of the box's envelope. A
/// claim, a release, and an exchange or a look that leaves the word as it is, add nothing. Nor does it add anything to split a pass, to take one
/// back, to make a new one for nobody, or to change what a pass knows to something true. New boxes keep the rule, and their run has no step.
pub fn steps_keep_the_rule()
    ensures claim { (shape : Shape) (table : ATable) (kept : Kept shape table) (id : ℕ) (me to : AnActor) (log : List Entry) → IsActor shape me → IsActor shape to
        → get_elem? table.views id ≡ some (sitting shape me log Resting) → slice_index table.words (word_of shape me to) ≡ 0
        → GoesOn shape table kept (stepped table (word_of shape me to) 1 id [] (sitting shape me log (Filling to)) (takes (slot_of shape me to) None)) [] }
    ensures publish { (shape : Shape) (table : ATable) (kept : Kept shape table) (id : ℕ) (me to : AnActor) (log : List Entry) (x : Envelope) → IsActor shape me → IsActor shape to
        → get_elem? table.views id ≡ some (sitting shape me log (Filling to)) → MayPost shape me log to x → HasPostsLeft log to
        → GoesOn shape table kept
        (stepped table (word_of shape me to) 2 id ((slot_of shape me to, Some x) ∷ []) (sitting shape me (Post to x ∷ log) Resting) gives) ((me, Post to x) ∷ []) }
    ensures fetch { (shape : Shape) (table : ATable) (kept : Kept shape table) (id : ℕ) (me source : AnActor) (log : List Entry) → IsActor shape me → IsActor shape source
        → get_elem? table.views id ≡ some (sitting shape me log Resting) → slice_index table.words (word_of shape source me) ≡ 2 → MayTake shape me log source
        → (x : Envelope) × GoesOn shape table kept
        (stepped table (word_of shape source me) 3 id [] (sitting shape me (Take source x ∷ log) (Emptying source)) (takes (slot_of shape source me) (Some x)))
        ((me, Take source x) ∷ []) }
    ensures release { (shape : Shape) (table : ATable) (kept : Kept shape table) (id : ℕ) (me source : AnActor) (log : List Entry) → IsActor shape me → IsActor shape source
        → get_elem? table.views id ≡ some (sitting shape me log (Emptying source))
        → GoesOn shape table kept (stepped table (word_of shape source me) 0 id ((slot_of shape source me, None) ∷ []) (sitting shape me log Resting) gives) [] }
    ensures miss { (shape : Shape) (table : ATable) (kept : Kept shape table) (word id : ℕ) (v : AView) → get_elem? table.views id ≡ some v
        → GoesOn shape table kept (stepped table word (slice_index table.words word) id [] v keeps) [] }
    ensures open { (shape : Shape) → IsAllowed shape → (kept : Kept shape (opening
        (shape.n ∷ shape.f ∷ shape.m ∷ shape.traitors ∷ replicate (size shape * size shape) 0) (replicate (size shape * size shape) None) (first_view shape)))
        × (kept.run ≡ []) }
    ensures part { (shape : Shape) (table : ATable) (kept : Kept shape table) (id : ℕ) (log : List Entry) (logs : List (List Entry)) → length logs < size shape
        → get_elem? table.views id ≡ some (keeping shape (log ∷ logs))
        → GoesOn shape table kept (with_views table
        (slice_set table.views id (keeping shape logs) ++ sitting shape (actor_at shape (length logs)) log Resting ∷ [])) [] }
    ensures gather { (shape : Shape) (table : ATable) (kept : Kept shape table) (id other : ℕ) (me : AnActor) (log : List Entry) (logs : List (List Entry))
        → place_of shape me ≡ length logs → get_elem? table.views id ≡ some (keeping shape logs) → ¬ (other ≡ id)
        → get_elem? (slice_set table.views id (keeping shape (log ∷ logs))) other ≡ some (sitting shape me log Resting)
        → GoesOn shape table kept (with_views table (slice_set (slice_set table.views id (keeping shape (log ∷ logs))) other spent)) [] }
    ensures know { (shape : Shape) (table : ATable) (kept : Kept shape table) (id : ℕ) (v w : AView) → get_elem? table.views id ≡ some v
        → ((a : AnActor) → IsOf shape w.part a → IsOf shape v.part a) → Stands shape table.words kept.run w.part
        → GoesOn shape table kept (with_views table (slice_set table.views id w)) [] }
    ensures enter { (shape : Shape) (table : ATable) (kept : Kept shape table) (w : AView) → ((a : AnActor) → ¬ IsOf shape w.part a)
        → Stands shape table.words kept.run w.part → GoesOn shape table kept (with_views table (table.views ++ w ∷ [])) [] }
{}

/// A moment that is handed on orders requests. Let a first request have a response at some moment, and let the client of a second request be shown
/// this moment while, by its own log, it has not asked for the second request. Then the first request precedes the second in real time, in the run
/// that goes on from the moment to the end. If at most f replicas are traitors and the second request has a response at the end, it has the greater
/// place.
pub fn moments_order_requests()
    ensures precedes { (shape : Shape) (past : List Step) (logs : Logs) (own : List Entry) (first second : Request) (reply : AReply)
        → HasResponse shape (log_of past) first reply → Extends own (log_of past (Client second.client)) → ((ask : SignedRequest) → ask.request ≡ second → ¬ WasPosted own ask)
        → (after : AreLogsAfter shape past logs) → Precedes shape after.run first second }
    ensures places { (shape : Shape) (past : List Step) (logs : Logs) (own : List Entry) (first second : Request) (reply later : AReply)
        → HasFewTraitors shape → IsRun shape past → HasResponse shape (log_of past) first reply → Extends own (log_of past (Client second.client))
        → ((ask : SignedRequest) → ask.request ≡ second → ¬ WasPosted own ask) → AreLogsAfter shape past logs → HasResponse shape logs second later → reply.place < later.place }
{}
