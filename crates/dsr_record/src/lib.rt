//! Recorded runs as data: a shape and the steps of all actors in one order. Also the texts that write them, and the keys of the actors of a run.
#![tactic(auto)]

mod files;
mod keys;
mod last_reads;
mod laws;
mod mailboxes;
mod merging;
mod noted;
mod record;
mod recording;
mod transcript;
mod version;

pub use files::{read, write};
pub use keys::{all_keys, client_key, replica_key};
pub use laws::{each_step_has_a_line, transcripts_spell_their_records};
pub use noted::{NotedEntry, NotedStep};
pub use record::Record;
pub use version::Version;
