//! States the laws of the calendar as contracts of functions that do nothing.

ghost use Rattle.std.specs.Prelude.{◌≡◌, ℕ, ◌-◌, ◌<◌, ◌≤◌, ◌↔◌};
ghost use Rattle.dsr_names.specs.Shape.{Shape, AgreeButForTraitors};
ghost use Rattle.dsr_rotation.specs.Calendar.{first_round, last_round, closed_slots};

/// Slots begin in their order, each in the round with its number, and close in their order, one with each round
/// from round f on: after t rounds all but the last f of the t slots that began are closed, and none if t is at
/// most f. A slot is among the closed ones exactly if its last round is over, and stays so.
pub fn slots_close_in_turn()
    ensures counted { (shape : Shape) (t : ℕ) → closed_slots shape t ≡ t - shape.f }
    ensures closed { (shape : Shape) (slot t : ℕ) → (slot < closed_slots shape t) ↔ (last_round shape slot < t) }
    ensures stays { (shape : Shape) (t later : ℕ) → t ≤ later → closed_slots shape t ≤ closed_slots shape later }
    ensures begins { (shape : Shape) (slot : ℕ) → first_round shape slot ≡ slot }
    ensures in_order { (shape : Shape) (slot later : ℕ) → slot < later → first_round shape slot < first_round shape later }
{}

/// The calendar never looks at who is a traitor. Under two shapes that differ at most in their traitors each slot
/// begins in the same round, and as many slots are closed after as many rounds.
pub fn calendar_is_blind()
    ensures begins { (shape other : Shape) → AgreeButForTraitors shape other
        → (slot : ℕ) → first_round shape slot ≡ first_round other slot }
    ensures closed { (shape other : Shape) → AgreeButForTraitors shape other
        → (t : ℕ) → closed_slots shape t ≡ closed_slots other t }
{}
