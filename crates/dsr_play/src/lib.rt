//! Plays: events, which are what is to happen in a world, and the texts that write them.
#![tactic(auto)]

mod choice;
mod event;
mod laws;
mod play;
mod play_events;
mod play_line;

pub use choice::Choice;
pub use event::Event;
pub use laws::each_event_has_a_line;
pub use play::{MOST_EVENTS, Play};
pub use play_events::TakesEvents;
pub use play_line::PlayLine;
