ghost use Rattle.std.specs.Prelude.{◌≡◌, ℕ, ◌<◌, ◌↔◌, List, Some, IsTrue, get_or};
ghost use Rattle.dsr_base.specs.Reads.{Reads};
ghost use Rattle.dsr_base.specs.Split.{IsPart};

use std::fmt;

/// An item that texts write as a token, and join to others of its kind by a mark.
pub trait Token: Copy + fmt::Display {
    // the items that have a token
    ghost is: { Self → Type 0 };

    // an item's token
    ghost text: { Self → List ℕ };

    ghost MARK: { ℕ };

    /// The byte that joins these tokens.
    const MARK: u8;

    /// Reads an item's token. `None` exactly if the bytes are not one.
    fn read(bytes: &[u8]) -> Option<Self>
        ensures { Reads is text bytes.now result };

    /// Tells whether the item has a token.
    fn fits(&self) -> bool
        ensures { IsTrue result ↔ is self.now };

    ghost ascii: { MARK < 128 };

    // no token has the mark outside parentheses, and none ends inside them
    ghost apart: { (x : Self) → is x → IsPart MARK (text x) };

    // every token begins with a byte above that of a dash, so that none is a dash or empty
    ghost begun: { (x : Self) → is x → 45 < get_or (text x) 0 0 };

    ghost shown: { (x : Self) → Self.output x ≡ Some (text x) };
}
