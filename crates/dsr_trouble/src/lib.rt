//! Where a text goes wrong that is not a play: its first bad line, the first byte with which no play goes on, and what was expected there. Also how many
//! events a line of a play represents.
//!
//! The wording, and that the line and the column are the right ones, is tested and not proved.
#![tactic(auto)]

mod counts;
mod expected;
mod scan;
mod scan_envelope;
mod scan_other;
mod scan_play;
mod trouble;
mod trouble_other;

pub use counts::Counts;
pub use trouble::trouble_of;
