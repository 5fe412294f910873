//! States the laws of one slot as contracts of functions that do nothing.

ghost use Rattle.std.specs.Prelude.{◌≡◌, ◌≢◌, ℕ, ◌<◌, ◌≤◌, List, All, AllPairs, length};
ghost use Rattle.dsr_base.specs.Growth.{IsPrefixOf};
ghost use Rattle.dsr_base.specs.Member.{In};
ghost use Rattle.dsr_names.specs.Shape.{Shape, IsLoyal, HasFewTraitors, AgreeButForTraitors};
ghost use Rattle.dsr_names.specs.declared.actor.Actor.{Actor};
ghost use Rattle.dsr_names.specs.declared.actor.Actor.TheVariants.{Replica};
ghost use Rattle.dsr_chain.specs.Content.{content, signed_in};
ghost use Rattle.dsr_chain.specs.Proper.{IsAsked, IsProper, sender_of};
ghost use Rattle.dsr_chain.specs.Chain.{Chain};
ghost use Rattle.dsr_chain.specs.declared.slot_value.SlotValue.{SlotValue};
ghost use Rattle.dsr_slot.specs.declared.kept.Kept.{Kept};
ghost use Rattle.dsr_slot.specs.Broadcast.{Exchange, IsBroadcast, AreTraitorsSilent, decided_by};
ghost use Rattle.dsr_slot.specs.Conduct.{posted};
ghost use Rattle.dsr_slot.specs.Decision.{decided};
ghost use Rattle.dsr_slot.specs.Keeping.{content_of, kept_after};
ghost use Rattle.dsr_slot.specs.Kept.{CameFrom, Hears};

/// Agreement and validity of the broadcast (Dolev and Strong 1983). Whatever the traitors give to whom in the f+1 rounds of a slot, if they are at most f, all
/// loyal replicas decide the same; and if the sender is loyal they decide the value, however many are traitors. Three premises: each loyal replica gives every
/// replica what its protocol asks for; a traitor gives a loyal replica's signature on a link of the slot only if that replica posted the signature; and each
/// request of the value is signed by its client, a client of the shape.
///
/// Whatever a replica reads, each request of what it decides is signed by its client, a client of the shape. And for
/// every value whose requests are signed so there is such an exchange: one in which traitors give nothing at all.
pub fn agreement_and_validity()
    ensures agreement { (shape : Shape) (slot : ℕ) (value : SlotValue) (given : Exchange)
        → HasFewTraitors shape → IsBroadcast shape slot value given
        → (p q : ℕ) → IsLoyal shape (Replica p) → IsLoyal shape (Replica q)
        → decided_by shape slot given p ≡ decided_by shape slot given q }
    ensures validity { (shape : Shape) (slot : ℕ) (value : SlotValue) (given : Exchange)
        → IsBroadcast shape slot value given
        → IsLoyal shape (sender_of shape slot) → (p : ℕ) → IsLoyal shape (Replica p)
        → decided_by shape slot given p ≡ value }
    ensures asked { (shape : Shape) (slot : ℕ) (read : ℕ → List Chain)
        → All (IsAsked shape) (signed_in (decided shape slot read)) }
    ensures some { (shape : Shape) (slot : ℕ) (value : SlotValue) → All (IsAsked shape) (signed_in value)
        → (given : Exchange) × IsBroadcast shape slot value given × AreTraitorsSilent shape given }
{}

/// The rules never look at who is a traitor. Two shapes that differ at most in their traitors give the same: what a
/// replica keeps in the first rounds of a slot, whatever it reads; what it posts, whatever it has kept; and what it
/// decides.
pub fn rules_are_blind()
    ensures kept { (shape other : Shape) → AgreeButForTraitors shape other
        → (slot : ℕ) (read : ℕ → List Chain) (rounds : ℕ)
        → kept_after shape slot read rounds ≡ kept_after other slot read rounds }
    ensures posted { (shape other : Shape) → AgreeButForTraitors shape other
        → (slot : ℕ) (me : Actor) (value : SlotValue) (round : ℕ) (kept : List Kept)
        → posted shape slot me value round kept ≡ posted other slot me value round kept }
    ensures decided { (shape other : Shape) → AgreeButForTraitors shape other
        → (slot : ℕ) (read : ℕ → List Chain) → decided shape slot read ≡ decided other slot read }
{}

/// What a replica keeps in the first `rounds` rounds of a slot, whatever it reads: at most two chains, of distinct
/// contents, each read in the round stored with it, and proper for that round. What is kept stays, and later chains
/// come after it. And for each proper chain that the replica read in those rounds, it keeps that content or two others.
pub fn first_two_contents_are_kept()
    ensures few { (shape : Shape) (slot : ℕ) (read : ℕ → List Chain) (rounds : ℕ)
        → length (kept_after shape slot read rounds) ≤ 2 }
    ensures distinct { (shape : Shape) (slot : ℕ) (read : ℕ → List Chain) (rounds : ℕ)
        → AllPairs (λ k l. content_of k ≢ content_of l) (kept_after shape slot read rounds) }
    ensures came { (shape : Shape) (slot : ℕ) (read : ℕ → List Chain) (rounds : ℕ) (k : Kept)
        → In k (kept_after shape slot read rounds) → CameFrom shape slot read rounds k }
    ensures stays { (shape : Shape) (slot : ℕ) (read : ℕ → List Chain) (rounds later : ℕ) → rounds ≤ later
        → IsPrefixOf (kept_after shape slot read rounds) (kept_after shape slot read later) }
    ensures heard { (shape : Shape) (slot : ℕ) (read : ℕ → List Chain) (rounds round : ℕ) (chain : Chain)
        → 0 < round → round ≤ rounds → In chain (read round) → IsProper shape slot round chain
        → Hears (kept_after shape slot read rounds) (content chain.value) }
{}
