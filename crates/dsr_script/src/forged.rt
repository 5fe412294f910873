//! Finds a signature in a draft that would be forged.

ghost use Rattle.std.specs.Prelude.{◌≡◌, ◌+◌, ◌≤◌, length, map, IfSome, IfNone};
ghost use Rattle.dsr_base.specs.Member.{In};
ghost use Rattle.dsr_desk.specs.Signature.{Signature, signed};
ghost use Rattle.dsr_envelope.specs.Envelope.{Carries, IsOn};
ghost use Rattle.dsr_script.specs.Held.{IsHeldOrKnown, IsUnforged};
ghost use Rattle.dsr_script.specs.Support.Described.{described};
ghost use Rattle.dsr_script.specs.Support.Links.{said_by};
ghost use Rattle.dsr_script.specs.Support.Said.{said_of};
ghost use Rattle.dsr_script.specs.Support.Carried.{IsOnOne};

use crate::brief::Brief;
use crate::building::{is_held, is_link_held};
use crate::draft::Draft;
use crate::known::Known;
use crate::plan::Plan;
use crate::said::{Said, SaidRequest};
use crate::said_chain::{SaidChain, link_at};
use crate::said_text::content_of;
use dsr_desk::{Key, Signers, Statement};
use dsr_names::Actor;
use dsr_request::Requests;

/// A signature that a holder of these keys who knows these signatures may not post: its claimed signer and statement.
#[derive(Clone, Copy, Debug)]
pub struct Forged {
    /// The claimed signer.
    pub signer: Actor,
    /// The claimed statement.
    pub statement: Statement,
}

/// Returns a signature in the draft for which `build` refuses it as forged: it is neither by the holder of one of the keys nor known. `None`
/// exactly if the draft has no such signature. If it has several, the contract leaves open which one this is. (The code returns the first: it
/// goes through the chains in their order, and in each through its links before its requests.)
pub fn forged_in(draft: &Draft, keys: &[Key], known: &Known) -> Option<Forged>
    ensures carried { IfSome result (λ forged. Carries draft.now (signed forged.signer forged.statement)) }
    ensures forged { IfSome result (λ forged. ¬ IsHeldOrKnown keys.now known.now.signatures (signed forged.signer forged.statement)) }
    ensures none { IfNone result (IsUnforged keys.now known.now.signatures draft.now) }
{
    match draft.plan() {
        None => None,
        Some(plan) => forged_in_plan(plan, keys, known),
    }
}

/// Returns a forged signature in the plan.
fn forged_in_plan(plan: &Plan, keys: &[Key], known: &Known) -> Option<Forged>
    ensures carried { IfSome result (λ forged. Carries (described plan.now) (signed forged.signer forged.statement)) }
    ensures forged { IfSome result (λ forged. ¬ IsHeldOrKnown keys.now known.now.signatures (signed forged.signer forged.statement)) }
    ensures none { IfNone result (IsUnforged keys.now known.now.signatures (described plan.now)) }
{
    match plan {
        Plan::Round { chains, .. } => forged_in_chains(chains.as_slice(), keys, known),
        Plan::Ask(ask) => forged_request(ask, keys, known),
        Plan::Reply(_) | Plan::Seen(_) => None,
    }
}

/// Returns a forged signature in the chains.
fn forged_in_chains(chains: &[SaidChain], keys: &[Key], known: &Known) -> Option<Forged>
    ensures carried { IfSome result (λ forged. IsOnOne chains.now (signed forged.signer forged.statement)) }
    ensures forged { IfSome result (λ forged. ¬ IsHeldOrKnown keys.now known.now.signatures (signed forged.signer forged.statement)) }
    ensures none { IfNone result ((s : Signature) → IsOnOne chains.now s → IsHeldOrKnown keys.now known.now.signatures s) }
{
    match chains {
        [] => None,
        [first, rest @ ..] => {
            if let Some(forged) = forged_in_chain(first, keys, known) {
                return Some(forged);
            }
            forged_in_chains(rest, keys, known)
        }
    }
}

/// Returns a forged signature in the chain.
fn forged_in_chain(chain: &SaidChain, keys: &[Key], known: &Known) -> Option<Forged>
    ensures carried { IfSome result (λ forged. IsOn (signed forged.signer forged.statement) chain.now) }
    ensures forged { IfSome result (λ forged. ¬ IsHeldOrKnown keys.now known.now.signatures (signed forged.signer forged.statement)) }
    ensures none { IfNone result ((s : Signature) → IsOn s chain.now → IsHeldOrKnown keys.now known.now.signatures s) }
{
    let content = content_of(chain.asks());
    if let Some(forged) = forged_link(
        chain.slot(),
        &content,
        &Signers::new(),
        chain.links(),
        keys,
        known,
    ) {
        return Some(forged);
    }
    forged_beside(chain.asks(), keys, known)
}

/// Returns a forged signature among these, which a chain with this slot and content describes after these signers.
fn forged_link(
    slot: u64,
    content: &Option<Requests>,
    before: &Signers,
    links: &[Brief],
    keys: &[Key],
    known: &Known,
) -> Option<Forged>
    requires { length before.now + length links.now ≤ 16 }
    ensures carried { IfSome result (λ forged. In (signed forged.signer forged.statement) (said_by slot content.now before.now links.now)) }
    ensures forged { IfSome result (λ forged. ¬ IsHeldOrKnown keys.now known.now.signatures (signed forged.signer forged.statement)) }
    ensures none { IfNone result ((s : Signature) → In s (said_by slot content.now before.now links.now) → IsHeldOrKnown keys.now known.now.signatures s) }
{
    match links {
        [] => None,
        [link, rest @ ..] => {
            if !is_link_held(slot, content, before, link, keys, known) {
                let fitting = link_at(slot, content, *before);
                return Some(forged_of(&link.said_in(&fitting)));
            }
            let mut after = *before;
            after.push(link.signer());
            forged_link(slot, content, &after, rest, keys, known)
        }
    }
}

/// Returns a forged signature among those beside these requests.
fn forged_beside(asks: &[SaidRequest], keys: &[Key], known: &Known) -> Option<Forged>
    ensures carried { IfSome result (λ forged. In (signed forged.signer forged.statement) (map (λ r. r.signature) asks.now)) }
    ensures forged { IfSome result (λ forged. ¬ IsHeldOrKnown keys.now known.now.signatures (signed forged.signer forged.statement)) }
    ensures none { IfNone result ((s : Signature) → In s (map (λ r. r.signature) asks.now) → IsHeldOrKnown keys.now known.now.signatures s) }
{
    match asks {
        [] => None,
        [first, rest @ ..] => {
            if let Some(forged) = forged_request(first, keys, known) {
                return Some(forged);
            }
            forged_beside(rest, keys, known)
        }
    }
}

/// Returns the signature beside the request; `None` if it is not forged.
fn forged_request(ask: &SaidRequest, keys: &[Key], known: &Known) -> Option<Forged>
    ensures carried { IfSome result (λ forged. ask.now.signature ≡ signed forged.signer forged.statement) }
    ensures forged { IfSome result (λ forged. ¬ IsHeldOrKnown keys.now known.now.signatures (signed forged.signer forged.statement)) }
    ensures none { IfNone result (IsHeldOrKnown keys.now known.now.signatures ask.now.signature) }
{
    let fitting = ask.fitting();
    let said = ask.said_in(&fitting);
    if is_held(&said, keys, known) {
        None
    } else {
        Some(forged_of(&said))
    }
}

/// Returns the forged signature that this describes.
fn forged_of(said: &Said<'_>) -> Forged
    ensures { signed result.signer result.statement ≡ said_of said.now }
{
    Forged {
        signer: said.signer(),
        statement: said.statement().copy(),
    }
}
