ghost use Rattle.std.specs.Prelude.{◌≡◌, ◌≤◌, [], All, length, map, IfOk, IsOkUnless};
ghost use Rattle.dsr_desk.specs.declared.statement.Statement.TheVariants.{Link};
ghost use Rattle.dsr_chain.specs.Chain.{chain_of};
ghost use Rattle.dsr_chain.specs.Support.SignedLists.{value_of, content_of as content_in};
ghost use Rattle.dsr_chain.specs.Content.{content, signed_in};
ghost use Rattle.dsr_envelope.specs.Limits.{IsChain};
ghost use Rattle.dsr_script.specs.ChainText.{spelled_links, IsSpelledChain};
ghost use Rattle.dsr_script.specs.Support.Links.{AreKept, said_by};
ghost use Rattle.dsr_script.specs.Support.SpelledText.{short_form};

use crate::brief::Brief;
use crate::said::{Said, SaidRequest};
use dsr_chain::{Chain, SignedRequest};
use dsr_desk::{Signers, Statement};
use dsr_names::{Actor, Refusal};
use dsr_request::Requests;
use std::alloc::Global;
use std::marker::Model;

/// A chain as data: at most 8 requests and at most 16 signatures, each as what a text says about it.
#[derive(Drop)]
pub(crate) struct SaidChain {
    slot: u64,
    asks: Vec<SaidRequest>,
    links: Vec<Brief>,
}

impl Model for SaidChain {
    ghost use Rattle.dsr_chain.specs.Chain.{Chain, chain_of};
    ghost use Rattle.dsr_chain.specs.Support.SignedLists.{value_of, content_of as content_in};
    ghost use Rattle.dsr_script.specs.Support.Links.{AreKept, said_by};
    ghost use Rattle.std.specs.Prelude.{[]};

    ghost Value = { Chain };

    ghost view = { λ c. chain_of c.slot (value_of c.asks.items) (said_by c.slot (content_in c.asks.items) [] c.links.items) };

    ghost invariant = { λ c. AreKept c.slot c.asks.items c.links.items };
}

impl SaidChain {
    ghost use Rattle.dsr_chain.specs.Content.{signed_in, content};

    /// Makes the chain as data. `NoMemory` if memory runs out.
    pub(crate) fn of(alloc: Global, chain: &Chain) -> Result<SaidChain, Refusal>
        requires { IsChain chain.now }
        ensures same { IfOk result (λ said. said ≡ chain.now) }
        ensures spelled { IfOk result IsSpelledChain }
        ensures refusal { IsOkUnless result Refusal.NoMemory }
    {
        let asks = said_requests(alloc, chain.signed())?;
        let links = links_of(alloc, chain)?;
        Ok(SaidChain {
            slot: chain.slot(),
            asks,
            links,
        })
    }

    /// Makes the chain from its parts.
    pub(crate) fn of_parts(slot: u64, asks: Vec<SaidRequest>, links: Vec<Brief>) -> SaidChain
        requires { AreKept slot asks.items links.items }
        ensures { result ≡ chain_of slot (value_of asks.items) (said_by slot (content_in asks.items) [] links.items) }
    {
        SaidChain { slot, asks, links }
    }

    /// Returns the slot that the chain is for.
    pub(crate) fn slot(&self) -> u64
        ensures { result ≡ self.now.slot }
    {
        self.slot
    }

    /// Returns the signed requests of its value, none if that is idle.
    pub(crate) fn asks(&self) -> &[SaidRequest]
        ensures same { result.now ≡ signed_in self.now.value }
        ensures few { length (signed_in self.now.value) ≤ 8 }
        ensures value { value_of (signed_in self.now.value) ≡ self.now.value }
    {
        self.asks.as_slice()
    }

    /// Returns what a text says about its signatures, in their order.
    pub(crate) fn links(&self) -> &[Brief]
        ensures said { said_by self.now.slot (content self.now.value) [] result.now ≡ self.now.signatures }
        ensures kept { result.now ≡ spelled_links self.now.slot (content self.now.value) [] self.now.signatures }
        ensures few { length result.now ≤ 16 }
    {
        self.links.as_slice()
    }
}

/// Chains as data, in their order.
#[derive(Drop)]
pub(crate) struct SaidChains {
    items: Vec<SaidChain>,
}

impl Model for SaidChains {
    ghost use Rattle.std.specs.Prelude.{List};
    ghost use Rattle.dsr_chain.specs.Chain.{Chain};

    ghost Value = { List Chain };

    ghost view = { λ c. c.items.items };
}

impl SaidChains {
    /// Makes the chains as data. `NoMemory` if memory runs out.
    pub(crate) fn of(alloc: Global, chains: &[Chain]) -> Result<SaidChains, Refusal>
        requires { All IsChain chains.now }
        ensures same { IfOk result (λ said. said ≡ chains.now) }
        ensures spelled { IfOk result (All IsSpelledChain) }
        ensures refusal { IsOkUnless result Refusal.NoMemory }
    {
        let mut items = Vec::with_capacity(alloc, chains.len())?;
        for chain in chains {
            items.push(SaidChain::of(alloc, chain)?)?;
        }
        Ok(SaidChains { items })
    }

    /// Makes this from a list of chains.
    pub(crate) fn of_vec(items: Vec<SaidChain>) -> SaidChains
        ensures { result ≡ items.items }
    {
        SaidChains { items }
    }

    /// Returns the chains, in their order.
    pub(crate) fn as_slice(&self) -> &[SaidChain]
        ensures { result.now ≡ self.now }
    {
        self.items.as_slice()
    }
}

/// Returns what a text says about the chain's signatures. `NoMemory` if memory runs out.
fn links_of(alloc: Global, chain: &Chain) -> Result<Vec<Brief>, Refusal>
    ensures same { IfOk result (λ links. links.items ≡ spelled_links chain.now.slot (content chain.now.value) [] chain.now.signatures) }
    ensures refusal { IsOkUnless result Refusal.NoMemory }
{
    if chain.has_misfit() {
        links_compared(alloc, chain)
    } else {
        links_by(alloc, chain.signers().as_slice())
    }
}

/// Returns what a text says about signatures by `signers`, each on the link that fits its place.
fn links_by(alloc: Global, signers: &[Actor]) -> Result<Vec<Brief>, Refusal>
    ensures same { IfOk result (λ links. links.items ≡ map short_form signers.now) }
    ensures refusal { IsOkUnless result Refusal.NoMemory }
{
    let mut links = Vec::with_capacity(alloc, signers.len())?;
    for signer in signers {
        links.push(Brief::by(*signer))?;
    }
    Ok(links)
}

/// Returns what a text says about the chain's signatures, comparing each with the link that fits its place.
fn links_compared(alloc: Global, chain: &Chain) -> Result<Vec<Brief>, Refusal>
    ensures same { IfOk result (λ links. links.items ≡ spelled_links chain.now.slot (content chain.now.value) [] chain.now.signatures) }
    ensures refusal { IsOkUnless result Refusal.NoMemory }
{
    let content = chain.content();
    let count = chain.signature_count();
    let mut links = Vec::with_capacity(alloc, count)?;
    let mut before = Signers::new();
    for place in 0..count {
        let signature = chain.signature(place);
        let fitting = link_at(chain.slot(), &content, before);
        links.push(Brief::at(alloc, &Said::of(&signature), &fitting)?)?;
        before.push(signature.signer());
    }
    Ok(links)
}

/// Makes the statement that fits in a chain with this slot and content, after these signers.
pub(crate) fn link_at(slot: u64, content: &Option<Requests>, before: Signers) -> Statement
    ensures { result ≡ Link slot content.now before }
{
    Statement::Link {
        slot,
        value: *content,
        before,
    }
}

/// Makes these requests as data, with what the signatures beside them say.
fn said_requests(alloc: Global, signed: &[SignedRequest]) -> Result<Vec<SaidRequest>, Refusal>
    ensures same { IfOk result (λ said. said.items ≡ signed.now) }
    ensures refusal { IsOkUnless result Refusal.NoMemory }
{
    let mut said = Vec::with_capacity(alloc, signed.len())?;
    for ask in signed {
        said.push(SaidRequest::of(alloc, ask)?)?;
    }
    Ok(said)
}
