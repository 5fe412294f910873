//! A client over its log: what it asks for, which replies it accepts, and what it has seen of the history.
#![tactic(auto)]

mod client;
mod laws;

pub use client::Client;
pub use laws::{
    accepted_replies_are_numbered, accepted_replies_have_enough_votes, asks_tell_choices,
    calls_keep_a_clients_log, clients_are_blind, issue_fronts_are_of_first_asks,
    loyal_replies_are_accepted, numbers_name_one_request, seen_fronts_only_grow, takes_settle,
};
