//! The last reply given to each client, which shows whether a request is new.
#![tactic(auto)]

mod ledger;
mod reply;

pub use ledger::Ledger;
pub use reply::Reply;
