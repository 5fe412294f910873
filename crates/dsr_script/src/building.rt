ghost use Rattle.std.specs.Prelude.{◌≡◌, ◌≤◌, ◌↔◌, ◌⊎◌, [], All, Any, Err, length, IfOk, IfErr, IfSome, IsSome, IsTrue, IsOkUnless};
ghost use Rattle.dsr_chain.specs.Support.SignedLists.{value_of as value_in, content_of as content_in};
ghost use Rattle.dsr_envelope.specs.Limits.{IsEnvelope};
ghost use Rattle.dsr_script.specs.Held.{IsHeldOrKnown, IsUnforged};
ghost use Rattle.dsr_script.specs.Support.Described.{described};
ghost use Rattle.dsr_desk.specs.declared.statement.Statement.TheVariants.{Link};
ghost use Rattle.dsr_script.specs.Support.Links.{said_by, said_in};
ghost use Rattle.dsr_script.specs.Support.Carried.{IsByHolder, IsHeldRequest, IsHeldChain, IsHeldEnvelope};
ghost use Rattle.dsr_script.specs.Support.Said.{said_of};

use crate::brief::Brief;
use crate::draft::Draft;
use crate::known::Known;
use crate::plan::Plan;
use crate::said::{Said, SaidRequest};
use crate::said_chain::{SaidChain, link_at};
use crate::said_text::content_of;
use dsr_chain::{Batch, Chain, SignedRequest, SlotValue};
use dsr_desk::{Key, Signature, Signers};
use dsr_envelope::{Chains, Envelope};
use dsr_names::{Actor, Refusal};
use dsr_request::Requests;
use std::alloc::Global;

/// Makes the envelope that the draft describes: signs for the holders of the keys, and takes every other signature from the known
/// ones. `Forged` if a signature is neither by the holder of one of the keys nor known; `NoMemory` if memory runs out. What a draft
/// describes is always within the limits of envelopes.
pub fn build(alloc: Global, draft: &Draft, keys: &[Key], known: &Known) -> Result<Envelope, Refusal>
    ensures same { IfOk result (λ envelope. envelope ≡ draft.now) }
    ensures unforged { IfOk result (λ envelope. IsUnforged keys.now known.now.signatures envelope) }
    ensures forged { (result ≡ Err Refusal.Forged) ↔ (¬ IsUnforged keys.now known.now.signatures draft.now) }
    ensures refusal { IfErr result (λ refusal. (refusal ≡ Refusal.Forged) ⊎ (refusal ≡ Refusal.NoMemory)) }
    ensures within { IsEnvelope draft.now }
{
    match draft.plan() {
        None => Ok(Envelope::Empty),
        Some(plan) => build_plan(alloc, plan, keys, known),
    }
}

/// Makes the envelope that the plan describes, like `build`.
fn build_plan(alloc: Global, plan: &Plan, keys: &[Key], known: &Known) -> Result<Envelope, Refusal>
    ensures same { IfOk result (λ envelope. envelope ≡ described plan.now) }
    ensures unforged { IfOk result (λ envelope. IsUnforged keys.now known.now.signatures envelope) }
    ensures forged { (result ≡ Err Refusal.Forged) ↔ (¬ IsUnforged keys.now known.now.signatures (described plan.now)) }
    ensures refusal { IfErr result (λ refusal. (refusal ≡ Refusal.Forged) ⊎ (refusal ≡ Refusal.NoMemory)) }
{
    if is_unforged(plan, keys, known) {
        envelope_of(alloc, plan, keys, known)
    } else {
        Err(Refusal::Forged)
    }
}

/// Tells whether each signature in the plan is by the holder of one of the keys, or is known.
fn is_unforged(plan: &Plan, keys: &[Key], known: &Known) -> bool
    ensures { IsTrue result ↔ IsHeldEnvelope keys.now known.now.signatures (described plan.now) }
{
    match plan {
        Plan::Round { chains, .. } => are_chains_held(chains.as_slice(), keys, known),
        Plan::Ask(ask) => is_ask_held(ask, keys, known),
        Plan::Reply(_) | Plan::Seen(_) => true,
    }
}

/// Makes the envelope that the plan describes. Requires that none of its signatures is forged.
fn envelope_of(alloc: Global, plan: &Plan, keys: &[Key], known: &Known) -> Result<Envelope, Refusal>
    requires { IsHeldEnvelope keys.now known.now.signatures (described plan.now) }
    ensures same { IfOk result (λ envelope. envelope ≡ described plan.now) }
    ensures refusal { IsOkUnless result Refusal.NoMemory }
{
    Ok(match plan {
        Plan::Round { round, chains } => {
            let chains = chains_of(alloc, chains.as_slice(), keys, known)?;
            Envelope::Round {
                round: *round,
                chains: Chains::of(chains),
            }
        }
        Plan::Ask(ask) => Envelope::ask(alloc, request_of(ask, keys, known))?,
        Plan::Reply(reply) => Envelope::Reply(*reply),
        Plan::Seen(front) => Envelope::Seen(*front),
    })
}

/// Tells whether no signature in the chains is forged.
fn are_chains_held(chains: &[SaidChain], keys: &[Key], known: &Known) -> bool
    ensures { IsTrue result ↔ All (IsHeldChain keys.now known.now.signatures) chains.now }
{
    for chain in chains {
        if !is_chain_held(chain, keys, known) {
            return false;
        }
    }
    true
}

/// Tells whether no signature in the chain is forged.
fn is_chain_held(chain: &SaidChain, keys: &[Key], known: &Known) -> bool
    ensures { IsTrue result ↔ IsHeldChain keys.now known.now.signatures chain.now }
{
    are_links_held(chain.slot(), chain.asks(), chain.links(), keys, known)
        && chain.asks().iter().all(|ask| is_ask_held(ask, keys, known))
}

/// Tells whether none of these signatures, which a chain with this slot and these requests describes, is forged. The content takes much
/// room, so the code makes it only if some signer's key is missing.
fn are_links_held(
    slot: u64,
    asks: &[SaidRequest],
    links: &[Brief],
    keys: &[Key],
    known: &Known,
) -> bool
    requires asks { length asks.now ≤ 8 }
    requires links { length links.now ≤ 16 }
    ensures { IsTrue result ↔ All (IsHeldOrKnown keys.now known.now.signatures) (said_by slot (content_in asks.now) [] links.now) }
{
    are_signers_held(links, keys) || are_links_held_in(slot, &content_of(asks), links, keys, known)
}

/// Tells whether each signer's key is among the keys.
fn are_signers_held(links: &[Brief], keys: &[Key]) -> bool
    ensures { IsTrue result ↔ All (IsByHolder keys.now) links.now }
{
    for link in links {
        if !is_signer_held(link, keys) {
            return false;
        }
    }
    true
}

/// Tells whether the signer's key is among the keys.
fn is_signer_held(link: &Brief, keys: &[Key]) -> bool
    ensures { IsTrue result ↔ IsByHolder keys.now link.now }
{
    key_of(keys, link.signer()).is_some()
}

/// Tells whether none of these signatures, which a chain with this slot and content describes, is forged.
fn are_links_held_in(
    slot: u64,
    content: &Option<Requests>,
    links: &[Brief],
    keys: &[Key],
    known: &Known,
) -> bool
    requires { length links.now ≤ 16 }
    ensures { IsTrue result ↔ All (IsHeldOrKnown keys.now known.now.signatures) (said_by slot content.now [] links.now) }
{
    let mut before = Signers::new();
    for link in links {
        if !is_link_held(slot, content, &before, link, keys, known) {
            return false;
        }
        before.push(link.signer());
    }
    true
}

/// Tells whether the signature that a chain with this slot and content describes after these signers is not forged. What it says in
/// full takes much room, so the code makes that only if none of the keys is the signer's.
pub(crate) fn is_link_held(
    slot: u64,
    content: &Option<Requests>,
    before: &Signers,
    link: &Brief,
    keys: &[Key],
    known: &Known,
) -> bool
    ensures { IsTrue result ↔ IsHeldOrKnown keys.now known.now.signatures (said_in (Link slot content.now before.now) link.now) }
{
    if is_signer_held(link, keys) {
        return true;
    }
    let fitting = link_at(slot, content, *before);
    known.find(&link.said_in(&fitting)).is_some()
}

/// Tells whether the signature beside the request is not forged.
fn is_ask_held(ask: &SaidRequest, keys: &[Key], known: &Known) -> bool
    ensures { IsTrue result ↔ IsHeldRequest keys.now known.now.signatures ask.now }
{
    let fitting = ask.fitting();
    is_held(&ask.said_in(&fitting), keys, known)
}

/// Tells whether the signature is by the holder of one of the keys, or is known.
pub(crate) fn is_held(said: &Said<'_>, keys: &[Key], known: &Known) -> bool
    ensures { IsTrue result ↔ IsHeldOrKnown keys.now known.now.signatures (said_of said.now) }
{
    key_of(keys, said.signer()).is_some() || known.find(said).is_some()
}

/// Returns the key of this signer; `None` if it is not among the keys.
fn key_of(keys: &[Key], signer: Actor) -> Option<&Key>
    ensures signer { IfSome result (λ key. key.now ≡ signer) }
    ensures when { IsSome result ↔ Any (λ holder. holder ≡ signer) keys.now }
{
    for key in keys {
        if key.signer() == signer {
            return Some(key);
        }
    }
    None
}

/// Makes the chains that these describe.
fn chains_of(
    alloc: Global,
    said: &[SaidChain],
    keys: &[Key],
    known: &Known,
) -> Result<Vec<Chain>, Refusal>
    requires { All (IsHeldChain keys.now known.now.signatures) said.now }
    ensures same { IfOk result (λ chains. chains.items ≡ said.now) }
    ensures refusal { IsOkUnless result Refusal.NoMemory }
{
    let mut chains = Vec::with_capacity(alloc, said.len())?;
    for chain in said {
        chains.push(chain_of(alloc, chain, keys, known)?)?;
    }
    Ok(chains)
}

/// Makes the chain that this describes.
fn chain_of(alloc: Global, said: &SaidChain, keys: &[Key], known: &Known) -> Result<Chain, Refusal>
    requires { IsHeldChain keys.now known.now.signatures said.now }
    ensures same { IfOk result (λ chain. chain ≡ said.now) }
    ensures refusal { IsOkUnless result Refusal.NoMemory }
{
    let value = value_of(alloc, said.asks(), keys, known)?;
    let content = content_of(said.asks());
    let signatures = signatures_of(alloc, said.slot(), &content, said.links(), keys, known)?;
    Chain::of(alloc, said.slot(), value, signatures)
}

/// Makes the value with the requests that these describe.
fn value_of(
    alloc: Global,
    said: &[SaidRequest],
    keys: &[Key],
    known: &Known,
) -> Result<SlotValue, Refusal>
    requires held { All (IsHeldRequest keys.now known.now.signatures) said.now }
    requires few { length said.now ≤ 8 }
    ensures same { IfOk result (λ value. value ≡ value_in said.now) }
    ensures refusal { IsOkUnless result Refusal.NoMemory }
{
    let mut asks = Vec::with_capacity(alloc, said.len())?;
    for ask in said {
        asks.push(request_of(ask, keys, known))?;
    }
    Ok(match Batch::of(asks.as_slice()) {
        Some(batch) => SlotValue::Act(batch),
        None => SlotValue::Idle,
    })
}

/// Makes the signatures that a chain with this slot and content describes.
fn signatures_of(
    alloc: Global,
    slot: u64,
    content: &Option<Requests>,
    links: &[Brief],
    keys: &[Key],
    known: &Known,
) -> Result<Vec<Signature>, Refusal>
    requires held { All (IsHeldOrKnown keys.now known.now.signatures) (said_by slot content.now [] links.now) }
    requires few { length links.now ≤ 16 }
    ensures same { IfOk result (λ signatures. signatures.items ≡ said_by slot content.now [] links.now) }
    ensures few { IfOk result (λ signatures. length signatures.items ≤ 16) }
    ensures refusal { IsOkUnless result Refusal.NoMemory }
{
    let mut signatures = Vec::with_capacity(alloc, links.len())?;
    let mut before = Signers::new();
    for link in links {
        let fitting = link_at(slot, content, before);
        signatures.push(signature_of(&link.said_in(&fitting), keys, known))?;
        before.push(link.signer());
    }
    Ok(signatures)
}

/// Makes the signed request that this describes.
fn request_of(said: &SaidRequest, keys: &[Key], known: &Known) -> SignedRequest
    requires { IsHeldOrKnown keys.now known.now.signatures said.now.signature }
    ensures { result ≡ said.now }
{
    let fitting = said.fitting();
    SignedRequest {
        request: said.request(),
        signature: signature_of(&said.said_in(&fitting), keys, known),
    }
}

/// Returns the signature that says this: signs with the signer's key if it is among the keys, else takes the known one.
fn signature_of(said: &Said<'_>, keys: &[Key], known: &Known) -> Signature
    requires { IsHeldOrKnown keys.now known.now.signatures (said_of said.now) }
    ensures { result ≡ said_of said.now }
{
    match key_of(keys, said.signer()) {
        Some(key) => key.sign(said.statement().copy()),
        None => known.find(said).unwrap().copy(),
    }
}
