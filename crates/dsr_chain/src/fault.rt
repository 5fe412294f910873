ghost use Rattle.std.proofs.Common.{rules};

use dsr_base::Exact;
use thiserror::Error;

/// Why a chain is not proper. If several of these hold, a check returns the first.
#[derive(Clone, Copy, Debug, PartialEq, Eq, Error)]
pub enum ChainFault {
    /// The chain is for another slot.
    #[error("the chain is of another slot")]
    OtherSlot,
    /// The number of signatures is not the round's number.
    #[error("the chain does not have as many signatures as the round's number")]
    WrongCount,
    /// The first signer is not the sender of the slot.
    #[error("the first signer is not the sender of the slot")]
    WrongSender,
    /// A signer is not a replica of the shape.
    #[error("a signer is no replica of the shape")]
    NoReplica,
    /// A signer signed twice.
    #[error("a signer signed twice")]
    SignedTwice,
    /// A signature is on a statement that does not fit its place.
    #[error("a signature is on a statement that does not fit its place")]
    Misfit,
    /// A request's client is not in the shape, or the signature beside the request is not that client's
    /// on that request.
    #[error("a request is not signed by its client, a client of the shape")]
    BadRequest,
}

impl Exact for ChainFault {
    ghost decides = { λ a b. Prim.search rules };

    ghost clones = { λ a b. Prim.search rules };
}
