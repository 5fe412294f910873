//! One actor of any kind (a loyal replica, a client, or a traitor) with its own log: what it posts
//! and takes, and which posts and takes its log refuses.
#![tactic(auto)]

mod customer;
mod laws;
mod node;
mod roles;

pub use customer::Customer;
pub use laws::{choices_are_blind, choices_keep_conduct};
pub use node::Node;
pub use roles::{are_clients, is_own_client, is_traitor, look_at};
