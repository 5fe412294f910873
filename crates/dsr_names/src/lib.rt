//! The names that every layer of the directory uses: actors and shapes, refusals, the tokens of
//! numbers, and whole inputs and outputs.
#![tactic(auto)]

mod actor;
mod actor_token;
mod bits;
mod input;
mod output;
mod outside;
mod places;
mod refusal;
mod replicas;
mod shape;
mod shape_text;
mod token;
mod told;

pub use actor::{Actor, ClientId, ReplicaId};
pub use input::{MOST_BYTES, MOST_CALLS, Source, read_input};
pub use output::{Sink, write_output};
pub use outside::Outside;
pub use places::each_actor_has_a_place;
pub use refusal::Refusal;
pub use shape::Shape;
pub use token::{NUMBER_END, Old, read_num, read_old};
pub use told::{tell, tell_refusal};
