//! Explains a transcript: that its steps are a run, or which of them is the first that may not follow those before it, and why: the one cause, what its
//! actor's own log has due, and what the box holds.
//!
//! The explanation of a transcript is proved to the letter (`explain_transcript`). If a text is not a transcript, `dsr_trouble` finds the first place at which it is wrong.
#![tactic(auto)]

mod account;
mod differing;
mod standing;
mod stop;
mod why;
mod words;

pub use account::{Account, explain_transcript};
