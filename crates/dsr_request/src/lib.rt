//! What clients ask for: names of registers, operations and their answers, requests, and how texts write them.
#![tactic(auto)]

mod answer;
mod name;
mod op;
mod request;
mod request_text;
mod requests;

pub use answer::Answer;
pub use name::Name;
pub use op::{Joined, Op};
pub use request::Request;
pub use requests::{MOST_REQUESTS, Requests};
