//! One slot of the broadcast: what a replica keeps, relays and decides, and that all loyal replicas decide
//! the same.
#![tactic(auto)]

mod decision;
mod fate;
mod kept;
mod laws;
mod slot_state;

pub use decision::Decision;
pub use fate::Fate;
pub use kept::Kept;
pub use laws::{agreement_and_validity, first_two_contents_are_kept, rules_are_blind};
pub use slot_state::SlotState;
