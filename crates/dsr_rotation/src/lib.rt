//! The calendar: in which global rounds each slot is broadcast, and by whom.
#![tactic(auto)]

mod calendar;
mod laws;

pub use calendar::{Calendar, Slots};
pub use laws::{calendar_is_blind, slots_close_in_turn};
