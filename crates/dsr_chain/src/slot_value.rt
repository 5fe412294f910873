ghost use Rattle.std.specs.Prelude.{◌≡◌, ◌<◌, ◌≤◌, ◌↔◌, ◌∷◌, [], length, map, IsTrue, IfSome, IfNone};
ghost use Rattle.dsr_chain.specs.Support.SignedLists.{content_of as content_in};

use crate::batch::Batch;
use crate::signed_request::SignedRequest;
use dsr_request::{Request, Requests};

/// The value of a slot: idle, or signed requests. It is copied without allocating.
#[derive(Clone, Copy, Debug, PartialEq, Eq)]
pub enum SlotValue {
    /// No request.
    Idle,
    /// These requests, in their order.
    Act(Batch),
}

impl SlotValue {
    ghost use Rattle.dsr_chain.specs.Content.{content, requests_in, signed_in, value_of};

    /// Returns what a link of a chain covers: the requests without their signatures, or `None` if
    /// it is idle.
    pub fn content(&self) -> Option<Requests>
        ensures same { result ≡ content self.now }
        ensures requests { IfSome result (λ requests. requests ≡ requests_in self.now) }
        ensures idle { IfNone result (requests_in self.now ≡ []) }
    {
        content_of(self.signed())
    }

    /// Returns its signed requests: at most 8, none if it is idle.
    pub fn signed(&self) -> &[SignedRequest]
        ensures same { result.now ≡ signed_in self.now }
        ensures few { length (signed_in self.now) ≤ 8 }
        ensures value { value_of (signed_in self.now) ≡ self.now }
    {
        match self {
            SlotValue::Idle => &[],
            SlotValue::Act(batch) => batch.as_slice(),
        }
    }

    /// Returns a copy. It goes through `clone`, so a clone equals its original too.
    pub fn copy(&self) -> SlotValue
        ensures { result ≡ self.now }
    {
        match self.clone() {
            Ok(value) => value,
            Err(_) => *self,
        }
    }

    /// Returns whether two values have the same signed requests in the same order, or both have none.
    pub fn same(&self, other: &SlotValue) -> bool
        ensures { IsTrue result ↔ (self.now ≡ other.now) }
    {
        self == other
    }
}

/// Returns the requests without their signatures, or `None` if the list is empty.
pub(crate) fn content_of(signed: &[SignedRequest]) -> Option<Requests>
    requires { length signed.now ≤ 8 }
    ensures { result ≡ content_in signed.now }
{
    match signed {
        [] => None,
        [first, rest @ ..] => Some(requests_of(first.request, rest)),
    }
}

/// Returns `first` and then the others, without their signatures.
fn requests_of(first: Request, rest: &[SignedRequest]) -> Requests
    requires { length rest.now < 8 }
    ensures { result ≡ first ∷ map (λ s. s.request) rest.now }
{
    let mut requests = Requests::one(first);
    for signed in rest {
        requests.push(signed.request);
    }
    requests
}
