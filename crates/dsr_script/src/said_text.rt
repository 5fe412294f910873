//! Reads the parts of drafts.

ghost use Rattle.std.specs.Prelude.{◌≡◌, refl, ◌↔◌, ◌≤◌, [], All, None, Some, length, IfOk, IfSome, IsTrue, IsOkUnless};
ghost use Rattle.std.specs.Option.{option_map};
ghost use Rattle.std.proofs.Common.{lit<};
ghost use Rattle.dsr_base.specs.Joined.{joined_or_dash, AreUpTo};
ghost use Rattle.dsr_base.specs.Reads.{Reads};
ghost use Rattle.dsr_chain.specs.Chain.{Chain};
ghost use Rattle.dsr_chain.specs.Support.SignedLists.{value_of, content_of as content_in};
ghost use Rattle.dsr_envelope.specs.Limits.{IsSigned};
ghost use Rattle.dsr_script.specs.ChainText.{signed_text, value_text, chain_text, spelled_links, IsValue, IsSpelledChain};
ghost use Rattle.dsr_script.specs.SignatureText.{spelled_text};
ghost use Rattle.dsr_script.specs.Support.AskText.{ask_apart};
ghost use Rattle.dsr_script.specs.Support.ChainParts.{chain_parts, chain_apart};
ghost use Rattle.dsr_script.specs.Support.Links.{said_by};
ghost use Rattle.dsr_script.specs.Support.SpelledText.{IsSpelled, spelled_apart, pair_of};

use crate::brief::Brief;
use crate::said::SaidRequest;
use crate::said_chain::{SaidChain, link_at};
use dsr_base::{split_once, split_outside};
use dsr_desk::{MOST_SIGNERS, Signers};
use dsr_names::{Refusal, read_num};
use dsr_request::{MOST_REQUESTS, Request, Requests};
use dsr_text::{Item, read_items};
use std::alloc::Global;

/// Texts join what they say about signatures by plus signs.
impl Item for Brief {
    ghost is = { IsSpelled };

    ghost text = { spelled_text };

    ghost MARK = { 43 };

    const MARK: u8 = b'+';

    fn read(alloc: Global, bytes: &[u8]) -> Result<Option<Brief>, Refusal> {
        Brief::read(alloc, bytes)
    }

    ghost apart = { spelled_apart };

    ghost ascii = { lit< tt };

    ghost shown = { λ _. refl };
}

/// Texts join signed requests by commas.
impl Item for SaidRequest {
    ghost is = { IsSigned };

    ghost text = { signed_text };

    ghost MARK = { 44 };

    const MARK: u8 = b',';

    fn read(alloc: Global, bytes: &[u8]) -> Result<Option<SaidRequest>, Refusal> {
        SaidRequest::read(alloc, bytes)
    }

    ghost apart = { ask_apart };

    ghost ascii = { lit< tt };

    ghost shown = { λ _. refl };
}

/// Each chain of an envelope has a space before it.
impl Item for SaidChain {
    ghost is = { IsSpelledChain };

    ghost text = { chain_text };

    ghost MARK = { 32 };

    const MARK: u8 = b' ';

    fn read(alloc: Global, bytes: &[u8]) -> Result<Option<SaidChain>, Refusal> {
        SaidChain::read(alloc, bytes)
    }

    ghost apart = { chain_apart };

    ghost ascii = { lit< tt };

    ghost shown = { λ _. refl };
}

impl SaidChain {
    /// Reads a chain's text, like `0/c0#1:write:a:5~c0/r0`. The inner `None` means exactly that the bytes are not one. `NoMemory` if memory runs out.
    pub(crate) fn read(alloc: Global, bytes: &[u8]) -> Result<Option<SaidChain>, Refusal>
        ensures read { IfOk result (λ chain. Reads IsSpelledChain chain_text bytes.now chain) }
        ensures refusal { IsOkUnless result Refusal.NoMemory }
    {
        let Some((slot, rest)) = split_once(bytes, b'/') else {
            return Ok(None);
        };
        let Some((value, links)) = split_outside(rest, b'/') else {
            return Ok(None);
        };
        let asks = read_value(alloc, value)?;
        let links = read_links(alloc, links)?;
        chain_of_parts(alloc, read_num(slot), asks, links)
    }
}

/// Makes the chain from its parts. `None` if one is missing, or a link is the long form of what fits its place. `NoMemory` if memory runs out.
fn chain_of_parts(
    alloc: Global,
    slot: Option<u64>,
    asks: Option<Vec<SaidRequest>>,
    links: Option<Vec<Brief>>,
) -> Result<Option<SaidChain>, Refusal>
    requires asks { IfSome asks (λ list. length list.items ≤ 8) }
    requires links { IfSome links (λ list. length list.items ≤ 16) }
    ensures made { IfOk result (λ chain. (x : Chain) → (chain ≡ Some x)
        ↔ (pair_of slot (pair_of (option_map (λ list. value_of list.items) asks) (option_map (λ list. list.items) links)) ≡ Some (chain_parts x))) }
    ensures refusal { IsOkUnless result Refusal.NoMemory }
{
    match (slot, asks, links) {
        (Some(slot), Some(asks), Some(links)) => {
            if are_links(slot, asks.as_slice(), links.as_slice()) {
                Ok(Some(SaidChain::of_parts(slot, asks, links)))
            } else {
                Ok(None)
            }
        }
        _ => Ok(None),
    }
}

/// Reads the signed requests of a value: `idle`, or 1 to 8 joined by commas.
fn read_value(alloc: Global, bytes: &[u8]) -> Result<Option<Vec<SaidRequest>>, Refusal>
    ensures read { IfOk result (λ asks. Reads IsValue value_text bytes.now (option_map (λ list. value_of list.items) asks)) }
    ensures few { IfOk result (λ asks. IfSome asks (λ list. length list.items ≤ 8)) }
    ensures refusal { IsOkUnless result Refusal.NoMemory }
{
    if bytes == b"idle".as_slice() {
        return Ok(Some(Vec::new(alloc)));
    }
    read_items(alloc, bytes, MOST_REQUESTS)
}

/// Reads what a text says about a chain's signatures: `-` for none, or at most 16 joined by plus signs.
fn read_links(alloc: Global, bytes: &[u8]) -> Result<Option<Vec<Brief>>, Refusal>
    ensures read { IfOk result (λ links. Reads (AreUpTo IsSpelled 16) (joined_or_dash 43 spelled_text) bytes.now (option_map (λ list. list.items) links)) }
    ensures few { IfOk result (λ links. IfSome links (λ list. length list.items ≤ 16)) }
    ensures refusal { IsOkUnless result Refusal.NoMemory }
{
    if bytes == b"-".as_slice() {
        return Ok(Some(Vec::new(alloc)));
    }
    read_items(alloc, bytes, MOST_SIGNERS)
}

/// Tells whether none of these is the long form of what fits its place in a chain with this slot and these requests. What fits takes much
/// room, so the code makes it only if one of these has another statement.
fn are_links(slot: u64, asks: &[SaidRequest], links: &[Brief]) -> bool
    requires asks { length asks.now ≤ 8 }
    requires links { length links.now ≤ 16 }
    ensures { IsTrue result ↔ (links.now ≡ spelled_links slot (content_in asks.now) [] (said_by slot (content_in asks.now) [] links.now)) }
{
    are_short(links) || are_links_in(slot, &content_of(asks), links)
}

/// Tells whether these name only signers.
fn are_short(links: &[Brief]) -> bool
    ensures { IsTrue result ↔ All (λ link. link.other ≡ None) links.now }
{
    links.iter().all(|link| link.is_short())
}

/// Tells whether none of these is the long form of what fits its place in a chain with this slot and content.
fn are_links_in(slot: u64, content: &Option<Requests>, links: &[Brief]) -> bool
    requires { length links.now ≤ 16 }
    ensures { IsTrue result ↔ (links.now ≡ spelled_links slot content.now [] (said_by slot content.now [] links.now)) }
{
    let mut before = Signers::new();
    for link in links {
        if !link.is_said(&link_at(slot, content, before)) {
            return false;
        }
        before.push(link.signer());
    }
    true
}

/// Returns the requests without the signatures beside them; `None` for an empty list.
pub(crate) fn content_of(asks: &[SaidRequest]) -> Option<Requests>
    requires { length asks.now ≤ 8 }
    ensures { result ≡ content_in asks.now }
{
    if asks.is_empty() {
        return None;
    }
    let mut requests: [Request; MOST_REQUESTS] = [asks[0].request(); MOST_REQUESTS];
    for i in 0..asks.len() {
        requests[i] = asks[i].request();
    }
    Requests::of(&requests[..asks.len()])
}
