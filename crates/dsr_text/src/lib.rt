//! What the texts of this project have in common: a header, lines after it, and items joined by a mark.
#![tactic(auto)]

mod header;
mod items;
mod lines;

pub use header::{Header, read_header};
pub use items::{Item, read_items, write_more};
pub use lines::{TakesLines, take_lines};
