ghost use Rattle.std.specs.Prelude.{◌≡◌, ℕ, ◌+◌, ◌<◌, ◌≤◌, ◌&&◌, ◌++◌, ◌↔◌, List, None, Some, IfOk, IsOkUnless, IsSome, IsTrue, length, slice_index_or, slice_set, vec_capacity};
ghost use Rattle.std.specs.Option.{option_map};
ghost use Rattle.dsr_chain.specs.declared.signed_request.SignedRequest.{SignedRequest};
ghost use Rattle.dsr_envelope.specs.declared.envelope.Envelope.TheVariants.{Ask};
ghost use Rattle.dsr_replica.specs.Held.{is_own_ask, gives_way, held_with};
ghost use Rattle.dsr_replica.specs.Replica.{ask_of, asks_of};
ghost use Rattle.dsr_replica.specs.Support.Asks.{asks_with};

use dsr_chain::SignedRequest;
use dsr_envelope::{Envelope, SharedAsk};
use dsr_names::{ClientId, Refusal, Shape};
use std::alloc::Global;
use std::marker::Model;

/// The ask that the replica holds for each client of a shape: the client's pending request, or `None`.
#[derive(Drop)]
pub(crate) struct Asks {
    list: Vec<Option<SharedAsk>>,
}

impl Model for Asks {
    ghost use Rattle.std.specs.Prelude.{List, Option};
    ghost use Rattle.dsr_chain.specs.declared.signed_request.SignedRequest.{SignedRequest};

    ghost Value = { List (Option SignedRequest) };

    ghost view = { λ a. a.list.items };
}

impl Asks {
    /// Creates an empty place for each client of the shape. `NoMemory` if the memory for them is refused.
    pub(crate) fn new(alloc: Global, shape: &Shape) -> Result<Asks, Refusal>
        ensures none { IfOk result (λ asks. (client : ℕ) → ask_of asks client ≡ None) }
        ensures count { IfOk result (λ asks. length asks ≡ shape.now.m) }
        ensures refusal { IsOkUnless result Refusal.NoMemory }
    {
        let mut list = Vec::with_capacity(alloc, shape.m() as usize)?;
        for _ in 0..shape.m() {
            list.push(None)?;
        }
        Ok(Asks { list })
    }

    /// Returns the ask held for this client.
    pub(crate) fn get(&self, client: ClientId) -> Option<&SignedRequest>
        ensures { option_map (λ ask. ask.now) result ≡ ask_of self.now client }
    {
        match self.list.as_slice().get(client.number() as usize) {
            Some(Some(ask)) => Some(ask.signed()),
            _ => None,
        }
    }

    /// Takes an envelope from the client: holds its ask, if the client signed it as its own and no ask with a greater
    /// number is held.
    pub(crate) fn take(&mut self, shape: &Shape, client: ClientId, envelope: Envelope)
        requires { client < length self.old }
        ensures { self.new ≡ asks_with shape.now client self.old envelope }
    {
        match envelope {
            Envelope::Ask(ask) => self.hold(shape, client, ask),
            _ => {}
        }
    }

    /// Holds the client's ask, if the client signed it as its own and no ask with a greater number is held.
    fn hold(&mut self, shape: &Shape, client: ClientId, ask: SharedAsk)
        requires { client < length self.old }
        ensures { self.new ≡ asks_with shape.now client self.old (Ask ask) }
    {
        let place = client.number() as usize;
        if is_to_be_held(shape, client, &self.list[place], ask.signed()) {
            self.list[place] = Some(ask);
        }
    }

    /// Returns whether an ask is held for each of these clients.
    pub(crate) fn has_each(&self, clients: &[ClientId]) -> bool
        ensures { IsTrue result ↔ IsSome (asks_of self.now clients.now) }
    {
        match clients {
            [] => true,
            [first, rest @ ..] => self.has(*first) && self.has_each(rest),
        }
    }

    /// Returns whether an ask is held for this client.
    fn has(&self, client: ClientId) -> bool
        ensures { IsTrue result ↔ IsSome (ask_of self.now client) }
    {
        match self.list.as_slice().get(client.number() as usize) {
            Some(ask) => ask.is_some(),
            None => false,
        }
    }

    /// Puts the asks held for these clients, in this order, at the end of the list. Allocates nothing. Requires that one is held
    /// for each, and room for them.
    pub(crate) fn add_to(&self, clients: &[ClientId], list: &mut Vec<SignedRequest>)
        requires held { IsSome (asks_of self.now clients.now) }
        requires room { length list.old.items + length clients.now ≤ vec_capacity list.old }
        ensures added { (asks : List SignedRequest) → asks_of self.now clients.now ≡ Some asks → list.new.items ≡ list.old.items ++ asks }
        ensures room { vec_capacity list.new ≡ vec_capacity list.old }
    {
        if let [first, rest @ ..] = clients {
            list.push_reserved(*self.get(*first).unwrap());
            self.add_to(rest, list);
        }
    }
}

/// Returns whether the client signed the ask as its own, and what is held gives way to it.
fn is_to_be_held(
    shape: &Shape,
    client: ClientId,
    held: &Option<SharedAsk>,
    ask: &SignedRequest,
) -> bool
    ensures { result ≡ (is_own_ask shape.now client ask.now && gives_way held.now ask.now.request.number) }
{
    is_own_ask(shape, client, ask) && gives_way(held, ask.request.number())
}

/// Returns whether the client signed the ask as its own.
fn is_own_ask(shape: &Shape, client: ClientId, ask: &SignedRequest) -> bool
    ensures { result ≡ is_own_ask shape.now client ask.now }
{
    ask.request.client() == client && ask.is_asked(shape)
}

/// Returns whether what is held gives way to an ask with this number.
fn gives_way(held: &Option<SharedAsk>, number: u64) -> bool
    ensures { result ≡ gives_way held.now number }
{
    match held {
        Some(ask) => ask.signed().request.number() <= number,
        None => true,
    }
}
