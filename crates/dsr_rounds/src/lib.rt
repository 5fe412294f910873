//! The hosts of replicas and traitors: loops in which each does its work at its seat, round by round, and
//! waits for the others.
#![tactic(auto)]

mod alone;
mod end;
mod gate;
mod host;
mod replica;
mod ring;
mod stop;
mod traitor;
mod turn;

pub use alone::{run_replica, run_traitor};
pub use end::End;
pub use gate::Gate;
pub use host::Host;
pub use stop::{Ended, Noted, Stop, Told};
pub use turn::Turn;
