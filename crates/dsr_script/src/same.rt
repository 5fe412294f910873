//! Tells whether two drafts describe one envelope.

ghost use Rattle.std.specs.Prelude.{◌≡◌, ◌↔◌, IsTrue};
ghost use Rattle.dsr_script.specs.Support.Described.{described};

use crate::brief::Brief;
use crate::draft::Draft;
use crate::plan::Plan;
use crate::said::SaidRequest;
use crate::said_chain::SaidChain;

/// A type whose values can be compared.
pub(crate) trait Same {
    /// Tells whether both are equal.
    fn same(&self, other: &Self) -> bool
        ensures { IsTrue result ↔ (self.now ≡ other.now) };
}

impl Draft {
    /// Tells whether two drafts describe the same envelope.
    pub fn same(&self, other: &Draft) -> bool
        ensures { IsTrue result ↔ (self.now ≡ other.now) }
    {
        match (self.plan(), other.plan()) {
            (None, None) => true,
            (Some(ours), Some(theirs)) => are_same_plans(ours, theirs),
            _ => false,
        }
    }
}

/// Tells whether two drafts with these cases describe the same envelope.
fn are_same_plans(ours: &Plan, theirs: &Plan) -> bool
    ensures { IsTrue result ↔ (described ours.now ≡ described theirs.now) }
{
    match (ours, theirs) {
        (
            Plan::Round { round, chains },
            Plan::Round {
                round: other_round,
                chains: other_chains,
            },
        ) => round == other_round && are_same(chains.as_slice(), other_chains.as_slice()),
        (Plan::Ask(ask), Plan::Ask(other)) => ask.same(other),
        (Plan::Reply(reply), Plan::Reply(other)) => reply == other,
        (Plan::Seen(front), Plan::Seen(other)) => front == other,
        _ => false,
    }
}

impl Same for SaidChain {
    fn same(&self, other: &SaidChain) -> bool {
        self.slot() == other.slot()
            && are_same(self.asks(), other.asks())
            && are_same(self.links(), other.links())
    }
}

impl Same for SaidRequest {
    fn same(&self, other: &SaidRequest) -> bool {
        self.request() == other.request() && self.brief().same(other.brief())
    }
}

impl Same for Brief {
    fn same(&self, other: &Brief) -> bool {
        self.signer() == other.signer()
            && match (self.other(), other.other()) {
                (None, None) => true,
                (Some(ours), Some(theirs)) => ours.same(theirs),
                _ => false,
            }
    }
}

/// Tells whether two lists have the same items in the same order.
fn are_same<T: Same>(ours: &[T], theirs: &[T]) -> bool
    ensures { IsTrue result ↔ (ours.now ≡ theirs.now) }
{
    match (ours, theirs) {
        ([], []) => true,
        ([our_first, our_rest @ ..], [their_first, their_rest @ ..]) => {
            our_first.same(their_first) && are_same(our_rest, their_rest)
        }
        _ => false,
    }
}
