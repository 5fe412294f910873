//! Checks whether what an envelope carries is within the limits of the texts that encode it.

ghost use Rattle.std.specs.Prelude.{◌↔◌, All, IsTrue};
ghost use Rattle.dsr_envelope.specs.Limits.{IsSignature, IsSigned, IsChain, AreChains, IsReply};

use dsr_base::Token;
use dsr_chain::{Chain, SignedRequest};
use dsr_desk::Signature;
use dsr_ledger::Reply;
use dsr_names::NUMBER_END;
use dsr_request::MOST_REQUESTS;

/// The greatest number of chains in an envelope.
const MOST_CHAINS: usize = 32;

/// The greatest number of signatures on a chain.
const MOST_SIGNATURES: usize = 16;

/// Returns whether the reply's number and place are within the limits.
pub(crate) fn reply_fits(reply: &Reply) -> bool
    ensures { IsTrue result ↔ IsReply reply.now }
{
    reply.number > 0 && reply.number < NUMBER_END && reply.place < NUMBER_END
}

/// Returns whether there are at most 32 chains, each within the limits.
pub(crate) fn chains_fit(chains: &[Chain]) -> bool
    ensures { IsTrue result ↔ AreChains chains.now }
{
    chains.len() <= MOST_CHAINS && chains.iter().all(|chain| chain_fits(chain))
}

/// Returns whether the chain is within the limits.
fn chain_fits(chain: &Chain) -> bool
    ensures { IsTrue result ↔ IsChain chain.now }
{
    chain.slot() < NUMBER_END
        && chain.signed().len() <= MOST_REQUESTS
        && chain.signed().iter().all(|ask| signed_fits(ask))
        && chain.signature_count() <= MOST_SIGNATURES
        && signatures_fit(chain)
}

/// Returns whether each of the chain's signatures is within the limits.
fn signatures_fit(chain: &Chain) -> bool
    ensures { IsTrue result ↔ All IsSignature chain.now.signatures }
{
    for place in 0..chain.signature_count() {
        if !signature_fits(&chain.signature(place)) {
            return false;
        }
    }
    true
}

/// Returns whether the request and the signature beside it are within the limits.
pub(crate) fn signed_fits(ask: &SignedRequest) -> bool
    ensures { IsTrue result ↔ IsSigned ask.now }
{
    ask.request.fits() && signature_fits(&ask.signature)
}

/// Returns whether the signer and the statement are within the limits.
fn signature_fits(signature: &Signature) -> bool
    ensures { IsTrue result ↔ IsSignature signature.now }
{
    signature.signer().fits() && signature.statement().fits()
}
