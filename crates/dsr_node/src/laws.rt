//! Laws about what follows for one actor from its own log, stated as contracts of functions that do nothing.

ghost use Rattle.std.specs.Prelude.{◌≡◌, ℕ, ◌<◌, ◌^◌, false, List, None, Some};
ghost use Rattle.dsr_names.specs.Shape.{Shape, is_traitor, IsActor, AgreeButForTraitors};
ghost use Rattle.dsr_names.specs.declared.actor.Actor.{Actor};
ghost use Rattle.dsr_names.specs.declared.actor.Actor.TheVariants.{Replica, Client};
ghost use Rattle.dsr_envelope.specs.declared.envelope.Envelope.{Envelope};
ghost use Rattle.dsr_envelope.specs.declared.entry.Entry.{Entry};
ghost use Rattle.dsr_envelope.specs.declared.entry.Entry.TheVariants.{Post, Take};
ghost use Rattle.dsr_envelope.specs.declared.pick.Pick.{Pick};
ghost use Rattle.dsr_envelope.specs.Limits.{IsEnvelope};
ghost use Rattle.dsr_envelope.specs.Log.{rounds};
ghost use Rattle.dsr_envelope.specs.Pick.{IsPick};
ghost use Rattle.dsr_replica.specs.Conduct.{IsNext};
ghost use Rattle.dsr_client.specs.Conduct.{IsNext as IsNextOfClient};
ghost use Rattle.dsr_client.specs.State.{outstanding};
ghost use Rattle.dsr_node.specs.Conduct.{post_of, is_exhausted, is_undue, is_traitor_of, HasSpelledOp};

/// A choice keeps the protocol. What a loyal replica or a client posts by it to an actor of the shape may be its next post. If nothing
/// is exhausted, a replica's post to a replica is in a round below 2^36, and a client's new request is within the limits. A loyal
/// replica's take that is not undue keeps the protocol too.
pub fn choices_keep_conduct()
    ensures replicas { (shape : Shape) (log : List Entry) (p : ℕ) (to : Actor) (pick : Pick) (envelope : Envelope)
        → IsActor shape to → IsPick pick → post_of shape log (Replica p) to pick ≡ Some envelope → IsNext shape (Replica p) log (Post to envelope) }
    ensures rounds { (shape : Shape) (log : List Entry) (p q : ℕ) (pick : Pick)
        → is_exhausted shape log (Replica p) (Replica q) pick ≡ false → rounds shape log < 2 ^ 36 }
    ensures clients { (shape : Shape) (log : List Entry) (c : ℕ) (to : Actor) (pick : Pick) (envelope : Envelope)
        → IsActor shape to → post_of shape log (Client c) to pick ≡ Some envelope → IsNextOfClient shape c log (Post to envelope) }
    ensures new { (shape : Shape) (log : List Entry) (c : ℕ) (to : Actor) (pick : Pick) (envelope : Envelope)
        → c < 32 → HasSpelledOp pick → outstanding shape log ≡ None → post_of shape log (Client c) to pick ≡ Some envelope
        → is_exhausted shape log (Client c) to pick ≡ false → IsEnvelope envelope }
    ensures takes { (shape : Shape) (log : List Entry) (p : ℕ) (from : Actor) (envelope : Envelope)
        → IsActor shape from → is_traitor shape p ≡ false → is_undue shape log (Replica p) from ≡ false
        → IsNext shape (Replica p) log (Take from envelope) }
{}

/// What an actor posts by a choice, and whether a counter is exhausted, does not depend on who the traitors are; nor does whether a take is undue,
/// for an actor that is a traitor under both shapes or under neither.
pub fn choices_are_blind()
    ensures posts { (shape other : Shape) → AgreeButForTraitors shape other → (log : List Entry) (from to : Actor) (pick : Pick)
        → post_of shape log from to pick ≡ post_of other log from to pick }
    ensures exhausted { (shape other : Shape) → AgreeButForTraitors shape other → (log : List Entry) (from to : Actor) (pick : Pick)
        → is_exhausted shape log from to pick ≡ is_exhausted other log from to pick }
    ensures undue { (shape other : Shape) → AgreeButForTraitors shape other → (log : List Entry) (at from : Actor)
        → is_traitor_of shape at ≡ is_traitor_of other at → is_undue shape log at from ≡ is_undue other log at from }
{}
