ghost use Rattle.std.specs.Prelude.{◌≡◌, ◌<◌, ◌≤◌, ◌↔◌, ◌++◌, ◌∷◌, [], length, IsTrue};

use crate::exact::Exact;
use crate::few::Few;
use std::alloc::AllocError;
use std::marker::Model;

/// A list of at most `N` items, of fixed size, copied without allocating.
#[derive(Copy, Debug)]
pub struct UpTo<T: Copy, const N: usize> {
    pub(crate) list: Option<Few<T, N>>,
}

impl<T: Copy, const N: usize> Model for UpTo<T, N> {
    ghost use Rattle.std.specs.Prelude.{List};

    ghost Value = { List T };

    ghost use Rattle.dsr_base.specs.Support.UpTo.{IsUpTo, items_of, up_to_fields, fields_back};

    ghost view = { λ a. items_of a.list };

    ghost invariant = { λ a. IsUpTo N a.list };

    ghost inverse = { up_to_fields N };

    ghost inverse_ok = { λ a h. fields_back N a h };
}

impl<T: Copy, const N: usize> UpTo<T, N> {
    /// Creates the empty list.
    pub fn new() -> Self
        ensures { result ≡ [] }
    {
        UpTo { list: None }
    }

    /// Puts the item at the end of the list. Requires that it has fewer than `N`.
    pub fn push(&mut self, item: T)
        requires { length self.old < N }
        ensures { self.new ≡ self.old ++ item ∷ [] }
    {
        match &mut self.list {
            None => self.list = Some(Few::one(item)),
            Some(list) => list.push(item),
        }
    }

    /// Returns the items in their order, at most `N` of them.
    pub fn as_slice(&self) -> &[T]
        ensures same { result.now ≡ self.now }
        ensures few { length self.now ≤ N }
    {
        match &self.list {
            None => &[],
            Some(list) => list.as_slice(),
        }
    }

    /// Returns the number of items, at most `N`.
    pub fn len(&self) -> usize
        ensures same { result ≡ length self.now }
        ensures few { result ≤ N }
    {
        self.as_slice().len()
    }

    /// Tells whether the list is empty.
    pub fn is_empty(&self) -> bool
        ensures { IsTrue result ↔ (self.now ≡ []) }
    {
        self.list.is_none()
    }
}

impl<T: Exact, const N: usize> UpTo<T, N> {
    /// Tells whether two lists have the same items in the same order.
    pub fn same(&self, other: &Self) -> bool
        ensures { IsTrue result ↔ (self.now ≡ other.now) }
    {
        self == other
    }
}

impl<T: Copy, const N: usize> Clone for UpTo<T, N> {
    ghost use Rattle.std.specs.Prelude.{⊤};

    ghost is_clone = { λ a b. a ≡ b };

    ghost is_infallible = { λ _. ⊤ };

    fn clone(&self) -> Result<Self, AllocError> {
        Ok(*self)
    }
}

impl<T: Copy + PartialEq, const N: usize> PartialEq for UpTo<T, N> {
    ghost use Rattle.std.specs.Cmp.Lexicographic.{pointwise, lists_per};

    ghost eq = { pointwise T.eq };

    ghost laws = { lists_per T.PartialEq.laws };

    fn eq(&self, other: &Self) -> bool {
        self.as_slice() == other.as_slice()
    }
}

impl<T: Copy + Eq, const N: usize> Eq for UpTo<T, N> {
    ghost use Rattle.std.specs.Cmp.Lexicographic.{lists_equiv};

    ghost laws = { lists_equiv T.Eq.laws };
}
