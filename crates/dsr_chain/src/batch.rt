ghost use Rattle.std.proofs.Common.{rules};
ghost use Rattle.dsr_chain.specs.Support.SignedRequestEquality.{signed_request_eq-Decides};

use crate::signed_request::SignedRequest;
use dsr_base::{Exact, Few};
use dsr_request::MOST_REQUESTS;

/// A list of 1 to 8 signed requests, of fixed size, copied without allocating.
pub type Batch = Few<SignedRequest, MOST_REQUESTS>;

impl Exact for SignedRequest {
    ghost decides = { signed_request_eq-Decides };

    ghost clones = { λ a b. Prim.search rules };
}
