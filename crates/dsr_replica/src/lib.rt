//! A loyal replica over its log: what it posts and takes, and what it decides and replies.
#![tactic(auto)]

mod decided;
mod flights;
mod held;
mod laws;
mod proposal;
mod replica;

pub use dsr_envelope::{Chains, Clients, Due, Entry, Envelope, Letter, Pick};
pub use laws::{
    calls_keep_a_log_loyal, closed_rounds_stay, conduct_is_blind, due_posts_can_be_made,
    envelopes_tell_choices, held_asks_can_be_proposed, last_requests_are_replied, limits_are_kept,
    other_envelopes_are_silent, own_asks_are_held, posts_and_takes_keep_step, posts_follow_the_log,
    signatures_are_own_or_taken,
};
pub use replica::Replica;
