//! Checks whether recorded steps are a run, and what it gave. A real replica or client repeats the recorded steps of each loyal actor.
#![tactic(auto)]

mod audit;
mod casting;
mod checking;
mod customer;
mod held;
mod judging;
mod party;
mod shown;
mod table;
mod telling;
mod verdict;

pub use checking::check;
pub use judging::{judge, verdicts_are_judged_right};
pub use verdict::Verdict;
