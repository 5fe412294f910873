//! What the directory's types are built on: lists of bounded length that are copied without allocating, and
//! what reads and writes every text: cuts, decimals, and items joined by a mark.
#![tactic(auto)]

mod boxes;
mod decimal;
mod exact;
mod few;
mod few_text;
mod split;
mod token;
mod up_to;
mod up_to_text;

pub use boxes::{Boxes, MailBox};
pub use decimal::read_decimal;
pub use exact::Exact;
pub use few::Few;
pub use split::{split_once, split_outside};
pub use token::Token;
pub use up_to::UpTo;
