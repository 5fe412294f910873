//! Chains: the value of a slot with the signatures on it, and when a chain is proper.
#![tactic(auto)]

mod batch;
mod chain;
mod check;
mod fault;
mod laws;
mod shared_value;
mod signatures;
mod signed_request;
mod slot_value;

pub use batch::Batch;
pub use chain::Chain;
pub use fault::ChainFault;
pub use laws::{content_determines_requests, proper_means_no_fault, tests_decide_the_facts};
pub use signed_request::SignedRequest;
pub use slot_value::SlotValue;
