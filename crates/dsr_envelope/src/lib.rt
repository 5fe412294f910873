//! What actors send each other: envelopes, the letters that hold them, the entries of a log, and the choices that a log leaves open.
#![tactic(auto)]

mod chains;
mod clients;
mod due;
mod entry;
mod envelope;
mod letter;
mod limits;
mod pick;
mod shared_ask;

pub use chains::Chains;
pub use clients::Clients;
pub use due::Due;
pub use entry::Entry;
pub use envelope::Envelope;
pub use letter::Letter;
pub use pick::Pick;
pub use shared_ask::SharedAsk;
