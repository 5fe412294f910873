ghost use Rattle.std.specs.Prelude.{◌≡◌, ℕ, suc, ◌+◌, ◌<◌, ◌≤◌, ◌^◌, ◌∷◌, ◌++◌, [], All, length, map, false, None, IfOk, IfSome, IsOkUnless, vec_capacity, if◌then◌else◌};
ghost use Rattle.dsr_names.specs.Shape.{Shape};
ghost use Rattle.dsr_chain.specs.Content.{signed_in};
ghost use Rattle.dsr_chain.specs.Proper.{IsAsked};
ghost use Rattle.dsr_chain.specs.Content.{value_of};
ghost use Rattle.dsr_rotation.specs.Calendar.{closed_slots};
ghost use Rattle.dsr_slot.specs.SlotState.{SlotState, opened, with_chain, with_closed};
ghost use Rattle.dsr_replica.specs.Replica.{AreInFlight};
ghost use Rattle.dsr_replica.specs.Support.Flights.{HasOpenRound, IsFirstLast, AreOf, with_chains, is_begun, slot_post, posts_of, rest_of, next_flights, first_decided, decided_with};

use dsr_chain::{Chain, SignedRequest};
use dsr_desk::Key;
use dsr_names::{Actor, Refusal, Shape};
use dsr_rotation::Calendar;
use dsr_slot::{Decision, SlotState};
use std::alloc::Global;
use std::marker::Model;

/// The slots in flight in the round in progress, by their numbers: at most f+1.
#[derive(Drop)]
pub(crate) struct Flights {
    shape: Shape,
    round: u64,
    slots: Vec<SlotState>,
}

impl Model for Flights {
    ghost use Rattle.dsr_replica.specs.Support.Flights.{Flights};
    ghost use Rattle.dsr_replica.specs.Support.FlightsFields.{IsFlightsFields, flights_of};

    ghost Value = { Flights };

    ghost view = { flights_of };

    ghost invariant = { IsFlightsFields };
}

impl Flights {
    /// Creates the slots in flight in round 0: slot 0. `NoMemory` if memory runs out.
    pub(crate) fn new(alloc: Global, shape: &Shape) -> Result<Flights, Refusal>
        ensures opened { IfOk result (λ flights. flights ≡ record { shape = shape.now; round = 0; slots = opened shape.now 0 ∷ [] }) }
        ensures refusal { IsOkUnless result Refusal.NoMemory }
    {
        let mut slots = Vec::with_capacity(alloc, shape.f() as usize + 1)?;
        slots.push_reserved(SlotState::new(shape, 0));
        Ok(Flights {
            shape: *shape,
            round: 0,
            slots,
        })
    }

    /// Returns the shape.
    pub(crate) fn shape(&self) -> Shape
        ensures { result ≡ self.now.shape }
    {
        self.shape
    }

    /// Returns the round in progress.
    pub(crate) fn round(&self) -> u64
        ensures same { result ≡ self.now.round }
        ensures in_flight { AreInFlight self.now.shape self.now.round self.now.slots (closed_slots self.now.shape self.now.round) }
    {
        self.round
    }

    /// Returns the slots in flight.
    pub(crate) fn slots(&self) -> &[SlotState]
        ensures same { result.now ≡ self.now.slots }
        ensures in_flight { AreInFlight self.now.shape self.now.round self.now.slots (closed_slots self.now.shape self.now.round) }
    {
        self.slots.as_slice()
    }

    /// Returns whether one of these chains would be kept if they were read in the round in progress. If none would, reading
    /// them changes nothing.
    pub(crate) fn would_keep(&self, chains: &[Chain]) -> bool
        ensures { result ≡ false → map (with_chains chains.now) self.now.slots ≡ self.now.slots }
    {
        for chain in chains {
            if self.would_keep_one(chain) {
                return true;
            }
        }
        false
    }

    /// Returns whether the chain would be kept if it were read in the round in progress.
    fn would_keep_one(&self, chain: &Chain) -> bool
        ensures { result ≡ false → map (λ s. with_chain s chain.now) self.now.slots ≡ self.now.slots }
    {
        let first = Calendar::new(&self.shape).slots_in(self.round).first;
        let Some(place) = chain.slot().checked_sub(first) else {
            return false;
        };
        if place >= self.slots.len() as u64 {
            return false;
        }
        self.slots[place as usize].would_keep(chain)
    }

    /// Reads a chain in the round in progress: in its own slot, if that is in flight.
    pub(crate) fn read(&mut self, chain: Chain)
        ensures { self.new ≡ record self.old { slots = map (λ s. with_chain s chain) self.old.slots } }
    {
        let first = Calendar::new(&self.shape).slots_in(self.round).first;
        let Some(place) = chain.slot().checked_sub(first) else {
            return;
        };
        if place < self.slots.len() as u64 {
            self.slots[place as usize].read(chain);
        }
    }

    /// Reads these chains in the round in progress, in their order.
    pub(crate) fn read_all(&mut self, mut chains: Vec<Chain>)
        ensures { self.new ≡ record self.old { slots = map (with_chains chains.items) self.old.slots } }
    {
        for chain in chains.drain(..) {
            self.read(chain);
        }
    }

    /// Closes the round in progress, and returns the decision of the slot that closes with it, or `None` if no slot closes. The
    /// slot of the next round begins. Requires that the round is below 2^36.
    pub(crate) fn close(&mut self) -> Option<Decision>
        requires { self.old.round < 2 ^ 36 }
        ensures decided { result ≡ decided_with self.old.shape self.old.round self.old.slots }
        ensures asked { IfSome result (λ value. All (IsAsked self.old.shape) (signed_in value)) }
        ensures next { self.new ≡ next_flights self.old }
        ensures in_flight { AreInFlight self.old.shape self.old.round self.old.slots (closed_slots self.old.shape self.old.round) }
    {
        let all_go_on = self.round < self.shape.f() as u64;
        let decision = decide_first(&mut self.slots, all_go_on);
        close_each(&mut self.slots);
        self.round += 1;
        self.slots
            .push_reserved(SlotState::new(&self.shape, self.round));
        decision
    }

    /// Returns what the key's holder posts in the round in progress if it proposes the value with these signed requests: for each
    /// slot in flight the chains that it relays, and the one that it starts. Requires at most 8 requests. `NoMemory` if memory
    /// runs out or one more handle is refused.
    pub(crate) fn posts(
        &self,
        alloc: Global,
        key: &Key,
        signed: &[SignedRequest],
    ) -> Result<Vec<Chain>, Refusal>
        requires { length signed.now ≤ 8 }
        ensures posts { IfOk result (λ chains. chains.items ≡ posts_of key.now (value_of signed.now) self.now.slots) }
        ensures refusal { IsOkUnless result Refusal.NoMemory }
    {
        let mut chains = Vec::new(alloc);
        for slot in self.slots.as_slice() {
            let mut part = slot_post(alloc, slot, key, signed)?;
            chains.append(&mut part)?;
        }
        Ok(chains)
    }
}

/// Takes out the first slot and returns its decision, unless all slots go on. Requires that then there is a first slot,
/// in its last round.
fn decide_first(slots: &mut Vec<SlotState>, all_go_on: bool) -> Option<Decision>
    requires last { all_go_on ≡ false → IsFirstLast slots.old.items }
    ensures decided { result ≡ (if all_go_on then None else first_decided slots.old.items) }
    ensures asked { (shape : Shape) → AreOf shape slots.old.items → IfSome result (λ value. All (IsAsked shape) (signed_in value)) }
    ensures rest { slots.new.items ≡ (if all_go_on then slots.old.items else rest_of slots.old.items) }
    ensures room { vec_capacity slots.new ≡ vec_capacity slots.old }
{
    if all_go_on {
        return None;
    }
    let mut first = slots.remove(0);
    first.close();
    Some(first.into_decision())
}

/// Closes the round in progress of each slot.
fn close_each(slots: &mut Vec<SlotState>)
    requires { All HasOpenRound slots.old.items }
    ensures closed { slots.new.items ≡ map with_closed slots.old.items }
    ensures room { vec_capacity slots.new ≡ vec_capacity slots.old }
{
    for place in 0..slots.len() {
        slots[place].close();
    }
}

/// Returns what the key's holder posts for the slot in the round after its closed ones, given that it proposes the value with
/// these signed requests.
fn slot_post(
    alloc: Global,
    slot: &SlotState,
    key: &Key,
    signed: &[SignedRequest],
) -> Result<Vec<Chain>, Refusal>
    requires { length signed.now ≤ 8 }
    ensures posts { IfOk result (λ chains. chains.items ≡ slot_post key.now (value_of signed.now) slot.now) }
    ensures refusal { IsOkUnless result Refusal.NoMemory }
{
    let mut chains = slot.relays(alloc, slot.closed_rounds() + 1, key)?;
    if begins(slot, key) {
        chains.push(Chain::start_with(alloc, slot.slot(), signed, key)?)?;
    }
    Ok(chains)
}

/// Returns whether the key's holder is the sender of the slot, and the slot is in its first round.
fn begins(slot: &SlotState, key: &Key) -> bool
    ensures { result ≡ is_begun key.now slot.now }
{
    let sender = Actor::Replica(slot.shape().sender(slot.slot()));
    slot.closed_rounds() == 0 && key.signer() == sender
}
