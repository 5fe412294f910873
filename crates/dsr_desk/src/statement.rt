ghost use Rattle.std.specs.Prelude.{◌≡◌, ◌↔◌, IsTrue};

use crate::signers::Signers;
use dsr_request::{Request, Requests};

/// What an actor signs. A statement is copied without allocating.
#[derive(Clone, Copy, Debug, PartialEq, Eq)]
pub enum Statement {
    /// A client asks for this request.
    Ask(Request),
    /// This slot's value has these requests, or is idle, and the actors in `before` signed it before.
    Link {
        /// The slot. A link with a slot from 2^40 on is written too, but no reader reads it.
        slot: u64,
        /// The content of the slot's value: its requests without their signatures, `None` if it is idle.
        value: Option<Requests>,
        /// The actors that signed before, in their order.
        before: Signers,
    },
}

impl Statement {
    /// Returns a copy. It goes through `clone`, so a clone equals its original too.
    pub fn copy(&self) -> Statement
        ensures { result ≡ self.now }
    {
        match self.clone() {
            Ok(statement) => statement,
            Err(_) => *self,
        }
    }

    /// Returns whether two statements are equal.
    pub fn same(&self, other: &Statement) -> bool
        ensures { IsTrue result ↔ (self.now ≡ other.now) }
    {
        self == other
    }
}
