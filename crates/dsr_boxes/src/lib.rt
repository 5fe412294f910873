//! The boxes between the actors of a shape, shared by threads: each actor posts and takes with a pass of its own, without a lock, and
//! whatever the threads do, their logs are those of a run.
#![tactic(auto)]

mod box_state;
mod laws;
mod moment;
mod open;
mod parcel;
mod parking;
mod pass;
mod returned;
mod rule;
mod shared_boxes;
mod steps;
mod view;

pub use box_state::BoxState;
pub use laws::{every_moment_is_of_a_run, moments_order_requests, steps_keep_the_rule};
pub use moment::Moment;
pub use parcel::Parcel;
pub use pass::Pass;
pub use returned::Returned;
pub use shared_boxes::SharedBoxes;
