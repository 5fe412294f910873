//! The sequential directory as a machine: which requests act, in which order, and how each is answered.
#![tactic(auto)]

mod apply;
mod laws;
mod machine;
mod service;

pub use apply::run_apply;
pub use dsr_request::{MOST_REQUESTS, Request, Requests};
pub use laws::{history_is_legal, history_only_grows, requests_keep_their_places};
pub use machine::Machine;
