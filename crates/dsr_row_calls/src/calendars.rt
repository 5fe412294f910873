//! The calls of calendars.

ghost use Rattle.std.specs.Prelude.{◌≡◌, ℕ, ◌≤◌, ◌↔◌, Some};
ghost use Rattle.dsr_names.specs.Shape.{sender};
ghost use Rattle.dsr_rotation.specs.Calendar.{IsInFlight, ClosesWith};

use crate::said::{Answered, Said};
use crate::words::Words;
use dsr_names::{ReplicaId, Shape};
use dsr_rotation::{Calendar, Slots};
use std::alloc::Global;

/// What a calendar says about a global round.
#[derive(Clone, Copy)]
struct Plan {
    /// The slots in flight.
    slots: Slots,
    /// The slot that closes with the round.
    closes: Option<u64>,
    /// The sender of the slot that begins with the round.
    sender: ReplicaId,
}

/// Returns what the calendar of the shape says about this global round.
fn plan_of(shape: &Shape, round: u64) -> Plan
    ensures slots { (slot : ℕ) → IsInFlight shape.now slot round
        ↔ ((result.slots.first ≤ slot) × (slot ≤ result.slots.last)) }
    ensures closes { (slot : ℕ) → (result.closes ≡ Some slot) ↔ ClosesWith shape.now slot round }
    ensures sender { result.sender ≡ sender shape.now result.slots.last }
{
    let calendar = Calendar::new(shape);
    let slots = calendar.slots_in(round);
    Plan {
        slots,
        closes: calendar.closes(round),
        sender: calendar.sender(slots.last),
    }
}

/// Answers `calendar SHAPE ROUND`: the slots in flight in this global round, the one that closes with it, and the sender of the one that begins.
pub fn calendar(alloc: Global, words: &mut Words) -> Answered {
    let shape = words.shape()?;
    let plan = plan_of(&shape, words.number()?);
    let (first, last, sender) = (plan.slots.first, plan.slots.last, plan.sender);
    let closes = Said::of_number(plan.closes);
    Ok(Said::Text(format!(in alloc; "slots {first} {last} closes {closes} sender {sender}")?))
}

/// Answers `round-of SHAPE SLOT ROUND`: the round of the slot, counted from 1, that this global round is.
pub fn round_of(words: &mut Words) -> Answered {
    let calendar = Calendar::new(&words.shape()?);
    let slot = words.number()?;
    match calendar.round_of(slot, words.number()?) {
        Some(round) => Ok(Said::Number(u64::from(round))),
        None => Ok(Said::Nothing),
    }
}
