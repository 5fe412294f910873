//! What came of each event of a play that was done, as data, apart from words: the fate of each chain that a loyal replica takes; what it had kept for a
//! slot that closes, what it decides, and which requests act; whether a client has a vote, and what it accepts; and, at the end, who waits for whom.
//!
//! The notes of an event are proved to be exactly those that `specs/Notes` defines, by the logs before it.
#![tactic(auto)]

mod ask;
mod closing;
mod done;
mod next;
mod note;
mod notes;
mod reading;
mod rest;
mod standing;
mod unproposed;
mod vote;

pub use done::step_noted;
pub use next::{Next, next_of};
pub use note::{ChainFate, NoVote, Note};
pub use notes::Notes;
pub use standing::{Standing, standing_of};
