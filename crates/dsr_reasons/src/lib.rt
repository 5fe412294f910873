//! Why an event of a play is refused, as text: a line of data or of words, proved to the letter. `dsr_facts` finds the cause. It also
//! has the writer with which reports and explanations write their lines.
#![tactic(auto)]

mod actors;
mod why;
mod writer;

pub use actors::{actor_of, other_of};
pub use why::write_why;
pub use writer::{Writer, one_of};
