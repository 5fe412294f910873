//! Why a recorded step may not follow those before it, as data: each step is judged as the event that it would be in a play, over a stage
//! that goes on with the steps before it.
#![tactic(auto)]

mod begun;
mod following;
mod judged;
mod line_fault;
mod notary;
mod record_fault;
mod wanted;

pub use following::follow;
pub use line_fault::{LineFault, line_faults_stop};
pub use notary::Notary;
pub use record_fault::{Followed, Stop, follow_all};
