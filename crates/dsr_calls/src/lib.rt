//! Calls in which a client waits at a mail for a reply: it asks the replicas in turn, and takes what each of them replies.
#![tactic(auto)]

mod calls;
mod laws;
mod visits;

pub use calls::{ask, go_on};
pub use laws::calls_follow_each_other;
