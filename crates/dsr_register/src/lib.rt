//! The directory of registers, one operation at a time.
#![tactic(auto)]

mod directory;
mod table;

pub use directory::Directory;
pub use dsr_request::{Answer, Joined, Name, Op};
