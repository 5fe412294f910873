//! Envelopes as data: what a traitor is to post, and the only place that makes envelopes from it. It makes them with held keys and
//! with signatures that were seen, so no signature is forged.
#![tactic(auto)]

mod brief;
mod building;
mod draft;
mod draft_text;
mod forged;
mod known;
mod known_signature;
mod laws;
mod ops;
mod place;
mod plain;
mod plan;
mod said;
mod said_chain;
mod said_display;
mod said_hash;
mod said_text;
mod same;
mod script;
mod serve_line;

pub use building::build;
pub use draft::Draft;
pub use dsr_text::{Header, read_header};
pub use forged::{Forged, forged_in};
pub use known::Known;
pub use laws::{each_draft_has_a_text, nobody_forges, spelled_is_within_limits, texts_tell_drafts};
pub use script::Script;
