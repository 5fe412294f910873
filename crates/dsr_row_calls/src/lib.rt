//! The calls that rows make at parts: how a row names them, and the text of what they answer.
#![tactic(auto)]

pub mod calendars;
pub mod chains;
mod clients;
mod desk;
pub mod directories;
mod drafts;
pub mod envelopes;
pub mod keys;
mod ledgers;
mod logged;
mod machines;
pub mod names;
pub mod replicas;
mod said;
pub mod same;
pub mod scripts;
pub mod slots;
mod tallies;
mod texts;
pub mod tokens;
mod words;

pub use clients::Customer;
pub use desk::Desk;
pub use drafts::Forger;
pub use ledgers::Replies;
pub use logged::Logged;
pub use machines::Works;
pub use said::{Answered, Failure, Said};
pub use tallies::Votes;
pub use texts::{text_of, words_of};
pub use words::{Words, find};
