ghost use Rattle.std.proofs.Common.{rules};

use crate::clients::Clients;
use dsr_base::Exact;
use dsr_request::Op;

/// What a loyal actor chooses to post if its protocol leaves a choice.
#[derive(Clone, Copy, Debug, PartialEq, Eq)]
pub enum Pick {
    /// The default: a sender proposes idle, and a client asks again for its outstanding request.
    Plain,
    /// The held requests of these clients, in this order.
    From(Clients),
    /// A new request with this operation.
    Begin(Op),
}

impl Exact for Pick {
    ghost use Rattle.dsr_envelope.specs.Support.PickEquality.{pick_eq-Decides};

    ghost decides = { pick_eq-Decides (λ xs ys. Prim.search rules) };

    ghost clones = { λ a b. Prim.search rules };
}
