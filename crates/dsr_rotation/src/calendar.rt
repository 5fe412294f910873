ghost use Rattle.std.specs.Prelude.{◌≡◌, ℕ, suc, ◌+◌, ◌<◌, ◌≤◌, ◌↔◌, Some, IsSome, IsNone, IfSome};
ghost use Rattle.dsr_names.specs.Shape.{sender};
ghost use Rattle.dsr_rotation.specs.Calendar.{first_round, last_round, IsInFlight, IsRoundOf, ClosesWith, closed_slots};
ghost use Rattle.std.proofs.Common.{rules};

use dsr_base::Exact;
use dsr_names::{ReplicaId, Shape};
use std::marker::Model;

/// The slots from `first` to `last`, both included.
#[derive(Clone, Copy, Debug, PartialEq, Eq)]
pub struct Slots {
    /// The least slot.
    pub first: u64,
    /// The greatest slot.
    pub last: u64,
}

/// When each slot is broadcast: slot k begins in global round k, takes f+1 rounds, and closes with
/// round k+f. Slots and rounds are counted from 0, the rounds of a slot from 1.
#[derive(Clone, Copy, Debug, PartialEq, Eq)]
pub struct Calendar {
    shape: Shape,
}

impl Model for Calendar {
    ghost use Rattle.dsr_names.specs.Shape.{Shape};

    ghost Value = { Shape };

    ghost view = { λ c. c.shape };

    ghost inverse = { λ shape. record { shape = shape } };
}

impl Calendar {
    /// Makes the calendar of this shape.
    pub fn new(shape: &Shape) -> Calendar
        ensures { result ≡ shape.now }
    {
        Calendar { shape: *shape }
    }

    /// Returns the shape whose calendar it is.
    pub fn shape(&self) -> Shape
        ensures { result ≡ self.now }
    {
        self.shape
    }

    /// Returns the slots in flight in global round `t`. The last of them begins with that round. The first is
    /// the next to close: its number is the count of slots that are closed before round `t`.
    #[tactic(auto, using(crate::proofs::Closing::closed_slots_count), unfolding(crate::specs::Calendar::first_round))]
    pub fn slots_in(&self, t: u64) -> Slots
        ensures in_flight { (slot : ℕ) → IsInFlight self.now slot t
            ↔ ((result.first ≤ slot) × (slot ≤ result.last)) }
        ensures beginning { (slot : ℕ) → (result.last ≡ slot) ↔ (first_round self.now slot ≡ t) }
        ensures next_to_close { result.first ≡ closed_slots self.now t }
        ensures closed { (slot : ℕ) → (slot < result.first) ↔ (last_round self.now slot < t) }
        ensures from_the_start { t < self.now.f → result.first ≡ 0 }
        ensures some { result.first ≤ result.last }
        ensures few { result.last ≤ result.first + self.now.f }
        ensures no_later { result.last ≤ t }
    {
        let first = t.saturating_sub(self.shape.f() as u64);
        Slots { first, last: t }
    }

    /// Returns which of a slot's rounds, 1 to f+1, falls in global round `t`. `None` if the slot is not in
    /// flight.
    #[tactic(auto, unfolding(crate::specs::Calendar::first_round))]
    pub fn round_of(&self, slot: u64, t: u64) -> Option<u8>
        ensures round { (r : ℕ) → (result ≡ Some r) ↔ IsRoundOf self.now slot t r }
        ensures when { IsSome result ↔ IsInFlight self.now slot t }
    {
        let earlier = t.checked_sub(slot)?;
        if earlier > self.shape.f() as u64 {
            return None;
        }
        Some(earlier as u8 + 1)
    }

    /// Returns the slot that closes with global round `t`, the next in the order of slots. `None` exactly if
    /// `t` is below f.
    #[tactic(auto, using(crate::proofs::Closing::closed_slots_count), unfolding(crate::specs::Calendar::first_round))]
    pub fn closes(&self, t: u64) -> Option<u64>
        ensures slot { (slot : ℕ) → (result ≡ Some slot) ↔ ClosesWith self.now slot t }
        ensures when { IsSome result ↔ (self.now.f ≤ t) }
        ensures next { (slot : ℕ) → (result ≡ Some slot)
            ↔ ((closed_slots self.now t ≡ slot) × (closed_slots self.now (suc t) ≡ suc slot)) }
        ensures none { IsNone result ↔ (closed_slots self.now (suc t) ≡ closed_slots self.now t) }
        ensures before { (slot : ℕ) → (slot < closed_slots self.now t) ↔ (last_round self.now slot < t) }
        ensures no_later { IfSome result (λ slot. slot ≤ t) }
    {
        t.checked_sub(self.shape.f() as u64)
    }

    /// Returns the replica that is the sender of this slot: the replicas take turns.
    pub fn sender(&self, slot: u64) -> ReplicaId
        ensures same { result ≡ sender self.now slot }
        ensures inside { result < self.now.n }
    {
        self.shape.sender(slot)
    }
}

impl Exact for Slots {
    ghost decides = { λ a b. Prim.search rules };

    ghost clones = { λ a b. Prim.search rules };
}

impl Exact for Calendar {
    ghost decides = { λ a b. Prim.search rules };

    ghost clones = { λ a b. Prim.search rules };
}
