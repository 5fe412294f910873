ghost use Rattle.std.specs.Prelude.{◌≡◌};
ghost use Rattle.dsr_chain.specs.Content.{content, signed_in};
ghost use Rattle.dsr_chain.specs.declared.slot_value.SlotValue.TheVariants.{Idle};

use dsr_chain::{Chain, SignedRequest, SlotValue};
use dsr_request::Requests;
use std::marker::Model;

/// What is decided for a slot: the value of the chain that is held, or idle if none is. A chain is a handle, so
/// a list of decisions copies no value, and an idle slot holds nothing.
#[derive(Drop)]
pub struct Decision {
    chain: Option<Chain>,
}

impl Model for Decision {
    ghost use Rattle.dsr_chain.specs.declared.slot_value.SlotValue.{SlotValue};
    ghost use Rattle.dsr_slot.specs.Support.Decision.{held_value};

    ghost Value = { SlotValue };

    ghost view = { λ d. held_value d.chain };
}

impl Decision {
    /// Returns the value that was decided.
    pub fn value(&self) -> SlotValue
        ensures { result ≡ self.now }
    {
        match &self.chain {
            Some(chain) => chain.value(),
            None => SlotValue::Idle,
        }
    }

    /// Returns its requests without the signatures beside them, or `None` if it is idle.
    pub fn content(&self) -> Option<Requests>
        ensures { result ≡ content self.now }
    {
        match &self.chain {
            Some(chain) => chain.content(),
            None => None,
        }
    }

    /// Returns its signed requests, none if it is idle.
    pub fn signed(&self) -> &[SignedRequest]
        ensures { result.now ≡ signed_in self.now }
    {
        match &self.chain {
            Some(chain) => chain.signed(),
            None => &[],
        }
    }

    /// Decides the chain's value. A chain with the idle value is dropped.
    pub(crate) fn of(chain: Chain) -> Decision
        ensures { result ≡ chain.value }
    {
        if chain.signed().is_empty() {
            return Decision::idle();
        }
        Decision { chain: Some(chain) }
    }

    /// Decides idle.
    pub(crate) fn idle() -> Decision
        ensures { result ≡ Idle }
    {
        Decision { chain: None }
    }
}
