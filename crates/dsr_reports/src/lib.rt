//! Plays a play, or checks a transcript, and writes the report on it, or the transcript of the play.
#![tactic(auto)]

mod check;
mod play;
mod report;
mod transcribe;

pub use check::run_check;
pub use play::run_play;
pub use report::{write_history, write_replies};
pub use transcribe::transcribe_play;
