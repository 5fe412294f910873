ghost use Rattle.std.proofs.Common.{rules};

use dsr_base::Exact;
use dsr_request::Answer;

/// What a replica replies to a client's request: the request's number, its place in the history, counted
/// from 0, and its answer there.
#[derive(Clone, Copy, Debug, PartialEq, Eq)]
pub struct Reply {
    /// The number under which the client issued the request.
    pub number: u64,
    /// The number of requests before it in the history.
    pub place: u64,
    /// The directory's answer there.
    pub answer: Answer,
}

impl Exact for Reply {
    ghost decides = { λ a b. Prim.search rules };

    ghost clones = { λ a b. Prim.search rules };
}
