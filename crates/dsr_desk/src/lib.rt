//! The desk, the signature authority: keys, and the signatures that only their holders make.
//!
//! A signature here is ideal: a value that says who signed which statement. Only a key makes one, by `Key::sign`, or in turn with
//! others by `Links`, and one `Keys` gives each key once. So in a run that makes one `Keys`, whoever holds a signature holds what that
//! signer signed. No type keeps code from making a second `Keys`.
#![tactic(auto)]

mod content_text;
mod keys;
mod links;
mod shared_content;
mod signers;
mod statement;
mod statement_text;

pub use content_text::{Content, read_content};
pub use keys::{Key, Keys, Signature};
pub use links::Links;
pub use signers::{MOST_SIGNERS, Signers};
pub use statement::Statement;
