ghost use Rattle.std.specs.Prelude.{◌≡◌, ◌↔◌, IsTrue};
ghost use Rattle.std.specs.Bool.{Decides};

/// A type whose `==` holds exactly for equal values, and whose clones equal their original.
pub trait Exact: Copy + Eq {
    ghost decides: { (a b : Self) → Decides (Self.eq a b) (a ≡ b) };

    ghost clones: { (a b : Self) → Self.is_clone a b → a ≡ b };

    /// Tells whether two values are equal.
    final fn same(&self, other: &Self) -> bool
        ensures { IsTrue result ↔ (self.now ≡ other.now) }
    {
        self == other
    }

    /// Returns a copy. It goes through `clone`, so a clone equals its original too.
    final fn copy(&self) -> Self
        ensures { result ≡ self.now }
    {
        match self.clone() {
            Ok(value) => value,
            Err(_) => *self,
        }
    }
}
