//! Voting: which reply of the replicas a client may believe.
#![tactic(auto)]

mod laws;
mod tally;

pub use laws::{enough_votes_have_a_loyal_one, loyal_replicas_are_enough};
pub use tally::Tally;
