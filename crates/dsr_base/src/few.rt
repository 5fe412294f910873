ghost use Rattle.std.specs.Prelude.{◌≡◌, ◌<◌, ◌≤◌, ◌↔◌, ◌++◌, ◌∷◌, [], length, slice_get, IsSome, IfSome, IsTrue};
ghost use Rattle.std.specs.Option.{SomeIff};

use crate::exact::Exact;
use std::alloc::AllocError;
use std::marker::Model;

/// A list of 1 to `N` items, of fixed size, copied without allocating.
// The length is a `usize`, so that no caller has to show that `N` fits into less. Beside items of 8-byte
// alignment it takes no more room than a `u8`.
#[derive(Copy, Debug)]
pub struct Few<T: Copy, const N: usize> {
    items: [T; N],
    len: usize,
}

impl<T: Copy, const N: usize> Model for Few<T, N> {
    ghost use Rattle.std.specs.Prelude.{List, take};

    ghost Value = { List T };

    ghost use Rattle.dsr_base.specs.Support.Few.{IsFew, few_fields, fields_back};

    ghost view = { λ a. take a.len a.items };

    ghost invariant = { λ a. IsFew N a.items a.len };

    ghost inverse = { few_fields N };

    ghost inverse_ok = { λ a h. fields_back N a h };
}

impl<T: Copy, const N: usize> Few<T, N> {
    /// Makes the list with this one item. Requires that `N` is not 0.
    pub fn one(item: T) -> Self
        requires { 0 < N }
        ensures { result ≡ item ∷ [] }
    {
        Few {
            items: [item; N],
            len: 1,
        }
    }

    /// Makes the list with these items. `None` if `items` is empty or longer than `N`.
    pub fn of(items: &[T]) -> Option<Self>
        ensures some { IfSome result (λ list. list ≡ items.now) }
        ensures when { IsSome result ↔ ((0 < length items.now) × (length items.now ≤ N)) }
    {
        match items {
            [first, rest @ ..] if rest.len() < N => Some(Few::led(*first, rest)),
            _ => None,
        }
    }

    /// Makes the list with this item first and then those of this list. `None` if that is more than `N`.
    pub fn after(&self, first: T) -> Option<Self>
        ensures { SomeIff result (length self.now < N) (first ∷ self.now) }
    {
        if self.len() < N {
            Some(Few::led(first, self.as_slice()))
        } else {
            None
        }
    }

    // Makes the list with this item first and then the others.
    fn led(first: T, rest: &[T]) -> Self
        requires { length rest.now < N }
        ensures { result ≡ first ∷ rest.now }
    {
        let mut list = Few::one(first);
        for item in rest {
            list.push(*item);
        }
        list
    }

    /// Puts the item at the end of the list. Requires that it has fewer than `N`.
    pub fn push(&mut self, item: T)
        requires { length self.old < N }
        ensures { self.new ≡ self.old ++ item ∷ [] }
    {
        self.items[self.len] = item;
        self.len += 1;
    }

    /// Returns the items in their order, 1 to `N` of them.
    pub fn as_slice(&self) -> &[T]
        ensures same { result.now ≡ self.now }
        ensures some { 0 < length self.now }
        ensures few { length self.now ≤ N }
    {
        &self.items[..self.len]
    }

    /// Returns the number of items, 1 to `N`.
    pub fn len(&self) -> usize
        ensures same { result ≡ length self.now }
        ensures some { 0 < result }
        ensures few { result ≤ N }
    {
        self.as_slice().len()
    }

    /// Returns the item at `place`, counted from 0, or `None` past the end.
    pub fn get(&self, place: usize) -> Option<T>
        ensures { result ≡ slice_get self.now place }
    {
        self.as_slice().get(place).copied()
    }
}

impl<T: Exact, const N: usize> Few<T, N> {
    /// Tells whether two lists have the same items in the same order.
    pub fn same(&self, other: &Self) -> bool
        ensures { IsTrue result ↔ (self.now ≡ other.now) }
    {
        self == other
    }
}

impl<T: Copy, const N: usize> Clone for Few<T, N> {
    ghost use Rattle.std.specs.Prelude.{⊤};

    ghost is_clone = { λ a b. a ≡ b };

    ghost is_infallible = { λ _. ⊤ };

    fn clone(&self) -> Result<Self, AllocError> {
        Ok(*self)
    }
}

impl<T: Copy + PartialEq, const N: usize> PartialEq for Few<T, N> {
    ghost use Rattle.std.specs.Cmp.Lexicographic.{pointwise, lists_per};

    ghost eq = { pointwise T.eq };

    ghost laws = { lists_per T.PartialEq.laws };

    fn eq(&self, other: &Self) -> bool {
        self.as_slice() == other.as_slice()
    }
}

impl<T: Copy + Eq, const N: usize> Eq for Few<T, N> {
    ghost use Rattle.std.specs.Cmp.Lexicographic.{lists_equiv};

    ghost laws = { lists_equiv T.Eq.laws };
}
