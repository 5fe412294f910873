//! Explains the outcome of a play: each event with its line, the fate of each chain, what was decided and which of its requests acted, who voted
//! for which reply, why an event was refused, and who waits for whom at the end.
//!
//! Which facts are told is proved, and the lines that tell them, to the letter: `dsr_notes` and `dsr_facts` find them, this crate and `dsr_reasons` spell
//! them. How an envelope is spelled, and what words say at the end of counts, slots and boxes, is tested.
#![tactic(auto)]

mod chain_lines;
mod chain_texts;
mod counts;
mod ending;
mod heads;
mod lines;
mod nothing;
mod outlet;
mod parts;
mod pieces;
mod places;
mod posts;
mod shared;
mod short;
mod standing;
mod story;
mod summary;
mod telling;
mod texts;
mod tokens;
mod verb;
mod waiting;
mod wanted;

pub use outlet::Outlet;
pub use telling::explain;
pub use wanted::Wanted;
