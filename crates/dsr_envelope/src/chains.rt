ghost use Rattle.std.specs.Prelude.{◌≡◌, ◌↔◌, ◌≤◌, IfOk, IsTrue, All, length, IsOkUnless};

use dsr_chain::Chain;
use dsr_names::Refusal;
use std::alloc::Global;
use std::marker::Model;

/// The chains of an envelope, in their order.
#[derive(Drop)]
pub struct Chains {
    items: Vec<Chain>,
}

impl Model for Chains {
    ghost use Rattle.std.specs.Prelude.{List};
    ghost use Rattle.dsr_chain.specs.Chain.{Chain};

    ghost Value = { List Chain };

    ghost view = { λ c. c.items.items };
}

impl Chains {
    /// Makes the chains of an envelope from this list.
    pub fn of(items: Vec<Chain>) -> Chains
        ensures { result ≡ items.items }
    {
        Chains { items }
    }

    /// Returns the chains as a list that can be changed.
    pub fn into_vec(self) -> Vec<Chain>
        ensures { result.items ≡ self }
    {
        self.items
    }

    /// Returns the chains in their order.
    pub fn as_slice(&self) -> &[Chain]
        ensures { result.now ≡ self.now }
    {
        self.items.as_slice()
    }

    /// Returns a copy, in which each chain shares what it holds. `NoMemory` if memory runs out or one more
    /// handle is refused.
    pub fn try_copy(&self, alloc: Global) -> Result<Chains, Refusal>
        ensures same { IfOk result (λ copy. copy ≡ self.now) }
        ensures refusal { IsOkUnless result Refusal.NoMemory }
    {
        let mut items = Vec::with_capacity(alloc, self.items.len())?;
        for chain in self.items.as_slice() {
            items.push(chain.try_copy()?)?;
        }
        Ok(Chains { items })
    }

    /// Returns whether two lists have the same chains in the same order.
    pub fn same(&self, other: &Chains) -> bool
        ensures { IsTrue result ↔ (self.now ≡ other.now) }
    {
        are_same(self.as_slice(), other.as_slice())
    }
}

/// Returns whether two lists have the same chains in the same order.
fn are_same(ours: &[Chain], theirs: &[Chain]) -> bool
    ensures { IsTrue result ↔ (ours.now ≡ theirs.now) }
{
    match (ours, theirs) {
        ([], []) => true,
        ([our_first, our_rest @ ..], [their_first, their_rest @ ..]) => {
            our_first.same(their_first) && are_same(our_rest, their_rest)
        }
        _ => false,
    }
}
