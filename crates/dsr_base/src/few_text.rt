ghost use Rattle.std.specs.Prelude.{◌≤◌, ◌↔◌, Some, IsTrue};
ghost use Rattle.dsr_base.specs.Reads.{Reads};
ghost use Rattle.dsr_base.specs.Joined.{AreFew, joined};

use crate::few::Few;
use crate::split::split_outside;
use crate::token::Token;
use std::fmt;

impl<T: Token, const N: usize> Few<T, N> {
    /// Reads a list's text: 1 to `N` tokens joined by their mark. `None` exactly if the bytes are not such a
    /// text.
    pub fn read(bytes: &[u8]) -> Option<Self>
        ensures { Reads (AreFew T.is N) (joined T.MARK T.text) bytes.now result }
    {
        read_joined(bytes, N)
    }

    /// Tells whether the list has a text: each item has a token.
    pub fn fits(&self) -> bool
        ensures { IsTrue result ↔ AreFew T.is N self.now }
    {
        self.as_slice().iter().all(|item| item.fits())
    }
}

impl<T: Token, const N: usize> fmt::Display for Few<T, N> {
    ghost output = { λ list. Some (joined T.MARK T.text list) };

    fn fmt<W: fmt::Write>(&self, f: &mut fmt::Formatter<W>) -> fmt::Result {
        match self.as_slice() {
            [] => Ok(()),
            [first, rest @ ..] => {
                write!(f, "{first}")?;
                let mark = T::MARK as char;
                for item in rest {
                    write!(f, "{mark}{item}")?;
                }
                Ok(())
            }
        }
    }
}

/// Reads the text of a list of at most `most` items.
fn read_joined<T: Token, const N: usize>(bytes: &[u8], most: usize) -> Option<Few<T, N>>
    requires { most ≤ N }
    ensures { Reads (AreFew T.is most) (joined T.MARK T.text) bytes.now result }
{
    if most == 0 {
        return None;
    }
    match split_outside(bytes, T::MARK) {
        None => match T::read(bytes) {
            Some(only) => Some(Few::one(only)),
            None => None,
        },
        Some((front, rest)) => {
            let first = T::read(front)?;
            let others: Few<T, N> = read_joined(rest, most - 1)?;
            others.after(first)
        }
    }
}
