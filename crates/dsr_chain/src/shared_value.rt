ghost use Rattle.std.specs.Prelude.{◌≡◌, ◌≤◌, ◌↔◌, map, length, IsTrue, IfOk, IsOkUnless};
ghost use Rattle.dsr_chain.specs.Content.{content, signed_in, value_of};

use crate::batch::Batch;
use crate::signed_request::SignedRequest;
use crate::slot_value::{SlotValue, content_of};
use dsr_names::Refusal;
use dsr_request::Requests;
use std::alloc::Global;
use std::marker::Model;
use std::sync::Arc;

/// The signed requests of a slot's value, which several chains share; an empty list if the value is idle.
#[derive(Drop)]
pub(crate) struct SharedValue {
    signed: Arc<Vec<SignedRequest>, Global>,
}

impl Model for SharedValue {
    ghost use Rattle.std.specs.Prelude.{length, ◌≤◌};
    ghost use Rattle.std.specs.Arc.{arc_value};
    ghost use Rattle.dsr_chain.specs.declared.slot_value.SlotValue.{SlotValue};
    ghost use Rattle.dsr_chain.specs.Content.{value_of};

    ghost Value = { SlotValue };

    ghost view = { λ v. value_of (arc_value v.signed).items };

    ghost invariant = { λ v. length (arc_value v.signed).items ≤ 8 };
}

impl SharedValue {
    /// Makes the value with these signed requests, to be shared.
    pub(crate) fn of(alloc: Global, signed: &[SignedRequest]) -> Result<SharedValue, Refusal>
        requires few { length signed.now ≤ 8 }
        ensures made { IfOk result (λ shared. shared ≡ value_of signed.now) }
        ensures refusal { IsOkUnless result Refusal.NoMemory }
    {
        let signed = signed.to_vec(alloc)?;
        let signed = Arc::new(alloc, signed)?;
        Ok(SharedValue { signed })
    }

    /// Returns another handle of the same value.
    pub(crate) fn try_share(&self) -> Result<SharedValue, Refusal>
        ensures same { IfOk result (λ shared. shared ≡ self.now) }
        ensures refusal { IsOkUnless result Refusal.NoMemory }
    {
        match Arc::try_clone(&self.signed) {
            Ok(signed) => Ok(SharedValue { signed }),
            Err(_) => Err(Refusal::NoMemory),
        }
    }

    /// Returns the value itself.
    pub(crate) fn value(&self) -> SlotValue
        ensures { result ≡ self.now }
    {
        match Batch::of(self.signed.as_slice()) {
            Some(batch) => SlotValue::Act(batch),
            None => SlotValue::Idle,
        }
    }

    /// Returns its signed requests, none if it is idle.
    pub(crate) fn signed(&self) -> &[SignedRequest]
        ensures same { result.now ≡ signed_in self.now }
        ensures few { length result.now ≤ 8 }
        ensures value { value_of result.now ≡ self.now }
    {
        self.signed.as_slice()
    }

    /// Returns its requests without their signatures, or `None` if it is idle.
    pub(crate) fn content(&self) -> Option<Requests>
        ensures { result ≡ content self.now }
    {
        content_of(self.signed.as_slice())
    }

    /// Returns whether two values have the same requests in the same order, or both have none.
    pub(crate) fn same_content(&self, other: &SharedValue) -> bool
        ensures { IsTrue result ↔ (content self.now ≡ content other.now) }
    {
        have_same_requests(self.signed.as_slice(), other.signed.as_slice())
    }

    /// Returns whether two values are equal.
    pub(crate) fn same(&self, other: &SharedValue) -> bool
        ensures { IsTrue result ↔ (self.now ≡ other.now) }
    {
        self.signed.as_slice() == other.signed.as_slice()
    }
}

/// Returns whether two lists have the same requests in the same order, with whatever signatures beside them.
fn have_same_requests(ours: &[SignedRequest], theirs: &[SignedRequest]) -> bool
    ensures { IsTrue result ↔ (map (λ s. s.request) ours.now ≡ map (λ s. s.request) theirs.now) }
{
    match (ours, theirs) {
        ([], []) => true,
        ([our_first, our_rest @ ..], [their_first, their_rest @ ..]) => {
            our_first.request == their_first.request && have_same_requests(our_rest, their_rest)
        }
        _ => false,
    }
}
