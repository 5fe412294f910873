//! Facts about plays and recorded runs, apart from words: why an event is refused, and why a recorded take, or a recorded post of a loyal replica to a
//! replica, may not follow.
#![tactic(auto)]

mod cause;
mod difference;
mod fault;
mod posts;
mod shown;
mod takes;
mod undue;

pub use cause::{Cause, Limit, Part, causes_refuse, client_of, loyal_of, why_refused};
pub use difference::{Difference, Parting, how_differs};
pub use fault::{Fault, round_fault, round_faults_stop};
pub use posts::{post_fault, post_faults_stop};
pub use shown::{pick_of, shown_clients};
pub use takes::{take_fault, take_faults_stop};
pub use undue::{Undue, undue_round};
