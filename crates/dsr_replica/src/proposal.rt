ghost use Rattle.std.specs.Prelude.{◌≡◌, ◌<◌, ◌≤◌, Some, List, length, IfOk, IsSome, IsOkUnless};
ghost use Rattle.dsr_chain.specs.Content.{value_of};
ghost use Rattle.dsr_chain.specs.declared.signed_request.SignedRequest.{SignedRequest};
ghost use Rattle.dsr_chain.specs.declared.slot_value.SlotValue.TheVariants.{Idle, Act};
ghost use Rattle.dsr_replica.specs.Replica.{asks_of};

use crate::held::Asks;
use dsr_chain::SignedRequest;
use dsr_names::{ClientId, Refusal};
use dsr_request::MOST_REQUESTS;
use std::alloc::Global;
use std::marker::Model;

/// The signed requests of the value that a replica proposes in the round in progress; an empty list if the value is idle. It has
/// room for as many as a value can have, so proposing allocates nothing, and moves no more than them.
#[derive(Drop)]
pub(crate) struct Proposal {
    asks: Vec<SignedRequest>,
}

impl Model for Proposal {
    ghost use Rattle.dsr_chain.specs.declared.slot_value.SlotValue.{SlotValue};
    ghost use Rattle.dsr_chain.specs.Content.{value_of};
    ghost use Rattle.dsr_replica.specs.Support.ProposalFields.{IsProposalFields};

    ghost Value = { SlotValue };

    ghost view = { λ p. value_of p.asks.items };

    ghost invariant = { IsProposalFields };
}

impl Proposal {
    /// Creates the idle value. `NoMemory` if the room is refused.
    pub(crate) fn idle(alloc: Global) -> Result<Proposal, Refusal>
        ensures idle { IfOk result (λ proposal. proposal ≡ Idle) }
        ensures refusal { IsOkUnless result Refusal.NoMemory }
    {
        let asks = Vec::with_capacity(alloc, MOST_REQUESTS)?;
        Ok(Proposal { asks })
    }

    /// Returns the signed requests of the value, at most 8.
    pub(crate) fn signed(&self) -> &[SignedRequest]
        ensures value { value_of result.now ≡ self.now }
        ensures few { length result.now ≤ 8 }
    {
        self.asks.as_slice()
    }

    /// Makes the value idle.
    pub(crate) fn clear(&mut self)
        ensures { self.new ≡ Idle }
    {
        self.asks.clear();
    }

    /// Proposes the asks held for these clients, in this order. Requires 1 to 8 clients, and an ask held for each.
    pub(crate) fn propose(&mut self, asks: &Asks, clients: &[ClientId])
        requires some { 0 < length clients.now }
        requires few { length clients.now ≤ 8 }
        requires held { IsSome (asks_of asks.now clients.now) }
        ensures { (list : List SignedRequest) → asks_of asks.now clients.now ≡ Some list → self.new ≡ Act list }
    {
        self.asks.clear();
        asks.add_to(clients, &mut self.asks);
    }
}
