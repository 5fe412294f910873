ghost use Rattle.std.specs.Prelude.{◌↔◌, Some, IsTrue};
ghost use Rattle.dsr_base.specs.Reads.{Reads};
ghost use Rattle.dsr_base.specs.Joined.{AreUpTo, joined_or_dash};

use crate::few::Few;
use crate::token::Token;
use crate::up_to::UpTo;
use std::fmt;

impl<T: Token, const N: usize> UpTo<T, N> {
    /// Reads a list's text: `-` for the empty one, or 1 to `N` tokens joined by their mark. `None` exactly if
    /// the bytes are not such a text.
    pub fn read(bytes: &[u8]) -> Option<Self>
        ensures { Reads (AreUpTo T.is N) (joined_or_dash T.MARK T.text) bytes.now result }
    {
        if bytes == b"-".as_slice() {
            return Some(UpTo::new());
        }
        Some(UpTo {
            list: Some(Few::read(bytes)?),
        })
    }

    /// Tells whether the list has a text: each item has a token.
    pub fn fits(&self) -> bool
        ensures { IsTrue result ↔ AreUpTo T.is N self.now }
    {
        self.as_slice().iter().all(|item| item.fits())
    }
}

impl<T: Token, const N: usize> fmt::Display for UpTo<T, N> {
    ghost output = { λ list. Some (joined_or_dash T.MARK T.text list) };

    fn fmt<W: fmt::Write>(&self, f: &mut fmt::Formatter<W>) -> fmt::Result {
        match &self.list {
            None => f.write_str("-"),
            Some(list) => write!(f, "{list}"),
        }
    }
}
