use dsr_desk::{Links, Signature};

/// The signatures of a chain.
#[derive(Drop)]
pub(crate) enum Signatures {
    /// Each signature is on the link that fits its place; only the signers are stored.
    InTurn(Links),
    /// At least one signature is on another statement; all are stored as they were given.
    Given(Vec<Signature>),
}
