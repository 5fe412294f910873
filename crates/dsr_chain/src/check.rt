ghost use Rattle.std.specs.Prelude.{◌≡◌, ◌<◌, ◌≤◌, ◌↔◌, ◌+◌, Any, Some, length, slice_get, IsTrue, IsOk, IfErr, IfSome, IfNone};
ghost use Rattle.dsr_names.specs.declared.actor.Actor.{Actor};
ghost use Rattle.dsr_chain.specs.Proper.{IsReplica, IsAsked, IsProper};
ghost use Rattle.dsr_chain.specs.Faults.{StandsTwice, HasNoFault, IsFirstFault};

use crate::chain::{Chain, stands_in};
use crate::fault::ChainFault;
use crate::signed_request::SignedRequest;
use dsr_names::{Actor, ReplicaId, Shape};

impl Chain {
    /// Checks whether the chain is proper for this round of the slot. If it is not, returns the first
    /// fault that holds, in the order of `ChainFault`. Requires that the round is one of the slot's, 1
    /// to f+1.
    pub fn check(&self, shape: &Shape, slot: u64, round: u8) -> Result<(), ChainFault>
        requires some { 0 < round }
        requires within { round ≤ shape.now.f + 1 }
        ensures proper { IsOk result ↔ IsProper shape.now slot round self.now }
        ensures fault { IfErr result (IsFirstFault shape.now slot round self.now) }
    {
        match self.first_fault(shape, slot, round) {
            Some(fault) => Err(fault),
            None => Ok(()),
        }
    }

    /// Finds the first fault that holds.
    fn first_fault(&self, shape: &Shape, slot: u64, round: u8) -> Option<ChainFault>
        ensures some { IfSome result (IsFirstFault shape.now slot round self.now) }
        ensures none { IfNone result (HasNoFault shape.now slot round self.now) }
    {
        let signers = self.signers();
        let signers = signers.as_slice();
        if self.slot() != slot {
            Some(ChainFault::OtherSlot)
        } else if signers.len() != round as usize {
            Some(ChainFault::WrongCount)
        } else if !begins_with(signers, shape.sender(slot)) {
            Some(ChainFault::WrongSender)
        } else if has_no_replica(shape, signers) {
            Some(ChainFault::NoReplica)
        } else if stands_twice(signers) {
            Some(ChainFault::SignedTwice)
        } else if self.has_misfit() {
            Some(ChainFault::Misfit)
        } else if has_bad_request(shape, self.signed()) {
            Some(ChainFault::BadRequest)
        } else {
            None
        }
    }
}

/// Returns whether the actor is a replica of the shape.
fn is_replica(shape: &Shape, actor: Actor) -> bool
    ensures { IsTrue result ↔ IsReplica shape.now actor }
{
    matches!(actor, Actor::Replica(_)) && shape.has(actor)
}

/// Returns whether the first of the signers is this replica.
fn begins_with(signers: &[Actor], sender: ReplicaId) -> bool
    ensures { IsTrue result ↔ (slice_get signers.now 0 ≡ Some (Actor.Replica sender)) }
{
    signers.first().copied() == Some(Actor::Replica(sender))
}

/// Returns whether one of the signers is not a replica of the shape.
fn has_no_replica(shape: &Shape, signers: &[Actor]) -> bool
    ensures { IsTrue result ↔ Any (λ a. ¬ IsReplica shape.now a) signers.now }
{
    signers.iter().any(|signer| !is_replica(shape, *signer))
}

/// Returns whether one actor is a signer at two places.
fn stands_twice(signers: &[Actor]) -> bool
    ensures { IsTrue result ↔ StandsTwice signers.now }
{
    match signers {
        [] => false,
        [first, rest @ ..] => stands_in(*first, rest) || stands_twice(rest),
    }
}

/// Returns whether one of the requests lacks the signature of its client, a client of the shape.
fn has_bad_request(shape: &Shape, signed: &[SignedRequest]) -> bool
    ensures { IsTrue result ↔ Any (λ s. ¬ IsAsked shape.now s) signed.now }
{
    signed.iter().any(|request| !request.is_asked(shape))
}
