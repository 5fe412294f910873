//! States the laws of voting as contracts of functions that do nothing.

ghost use Rattle.std.specs.Prelude.{◌≡◌, ℕ, ◌+◌, ◌*◌, ◌<◌, ◌≤◌, Bool, true, List, None, Some};
ghost use Rattle.dsr_base.specs.Bits.{count_below};
ghost use Rattle.dsr_names.specs.Shape.{Shape, IsLoyal, HasFewTraitors};
ghost use Rattle.dsr_names.specs.declared.actor.Actor.TheVariants.{Replica};
ghost use Rattle.dsr_ledger.specs.declared.reply.Reply.{Reply};
ghost use Rattle.dsr_quorum.specs.Votes.{Note, first_of, votes, winner};

/// If at most f replicas are traitors, one of any f+1 different replicas is loyal, whatever they have in common. So a reply with more than f votes is the
/// first reply of a loyal replica. The winner has more than f votes; without a winner, no reply has more than f.
pub fn enough_votes_have_a_loyal_one()
    ensures one { (shape : Shape) (gave : ℕ → Bool) → HasFewTraitors shape → shape.f < count_below gave shape.n
        → (p : ℕ) × IsLoyal shape (Replica p) × (gave p ≡ true) }
    ensures loyal { (shape : Shape) (notes : List Note) (reply : Reply) → HasFewTraitors shape
        → shape.f < votes shape.n notes reply
        → (p : ℕ) × IsLoyal shape (Replica p) × (first_of p notes ≡ Some reply) }
    ensures winner { (f n : ℕ) (notes : List Note) (reply : Reply) → winner f n notes ≡ Some reply → f < votes n notes reply }
    ensures none { (f n : ℕ) (notes : List Note) (reply : Reply) → winner f n notes ≡ None → votes n notes reply ≤ f }
{}

/// If n is greater than 2f, at most f replicas are traitors, and the first reply of each loyal replica is the same, that
/// reply has more than f votes and wins.
pub fn loyal_replicas_are_enough()
    ensures votes { (shape : Shape) (notes : List Note) (reply : Reply) → HasFewTraitors shape → 2 * shape.f < shape.n
        → ((p : ℕ) → IsLoyal shape (Replica p) → first_of p notes ≡ Some reply) → shape.f < votes shape.n notes reply }
    ensures winner { (shape : Shape) (notes : List Note) (reply : Reply) → HasFewTraitors shape → 2 * shape.f < shape.n
        → ((p : ℕ) → IsLoyal shape (Replica p) → first_of p notes ≡ Some reply) → winner shape.f shape.n notes ≡ Some reply }
{}
