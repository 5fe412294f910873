ghost use Rattle.std.specs.Prelude.{◌≡◌, IfOk, IsOkUnless};

use dsr_chain::SignedRequest;
use dsr_names::Refusal;
use std::alloc::Global;
use std::marker::Model;
use std::sync::Arc;

/// A signed request that envelopes share.
#[derive(Drop)]
pub struct SharedAsk {
    ask: Arc<SignedRequest, Global>,
}

impl Model for SharedAsk {
    ghost use Rattle.std.specs.Arc.{arc_value};
    ghost use Rattle.dsr_chain.specs.declared.signed_request.SignedRequest.{SignedRequest};

    ghost Value = { SignedRequest };

    ghost view = { λ a. arc_value a.ask };
}

impl SharedAsk {
    /// Puts the signed request behind a handle, to be shared. `NoMemory` if memory runs out.
    pub fn of(alloc: Global, ask: SignedRequest) -> Result<SharedAsk, Refusal>
        ensures made { IfOk result (λ shared. shared ≡ ask) }
        ensures refusal { IsOkUnless result Refusal.NoMemory }
    {
        let ask = Arc::new(alloc, ask)?;
        Ok(SharedAsk { ask })
    }

    /// Returns the signed request.
    pub fn signed(&self) -> &SignedRequest
        ensures { result.now ≡ self.now }
    {
        &self.ask
    }

    /// Returns another handle of the same signed request. `NoMemory` if one more handle is refused.
    pub fn try_copy(&self) -> Result<SharedAsk, Refusal>
        ensures same { IfOk result (λ copy. copy ≡ self.now) }
        ensures refusal { IsOkUnless result Refusal.NoMemory }
    {
        match Arc::try_clone(&self.ask) {
            Ok(ask) => Ok(SharedAsk { ask }),
            Err(_) => Err(Refusal::NoMemory),
        }
    }
}
