//! With what a recorded post begins a slot of its replica.

ghost use Rattle.std.specs.Prelude.{◌≡◌, ◌↔◌, ℕ, [], Any, IfOk, IfSome, IfNone, IsTrue, IsOkUnless};
ghost use Rattle.dsr_envelope.specs.Pick.{IsPick};
ghost use Rattle.dsr_envelope.specs.declared.pick.Pick.TheVariants.{Plain};
ghost use Rattle.dsr_replica.specs.Shown.{choice_of as choice_of_clients};
ghost use Rattle.dsr_lines.specs.Begun.{ComesTwice, clients_begun, clients_of as clients_of_asks, slot_asks};

use dsr_chain::{Chain, SignedRequest};
use dsr_envelope::{Clients, Envelope, Pick};
use dsr_facts::pick_of;
use dsr_names::{Actor, ClientId, Refusal, ReplicaId, Shape};
use std::alloc::Global;

/// Returns the clients whose requests begin a slot of this replica, by its post, in their order; none if the post begins no slot.
/// `NoMemory` if memory runs out.
pub(crate) fn clients_begun(
    alloc: Global,
    shape: &Shape,
    me: &Actor,
    to: ReplicaId,
    envelope: &Envelope,
) -> Result<Vec<ClientId>, Refusal>
    ensures clients { IfOk result (λ clients. clients.items ≡ clients_begun shape.now me.now to envelope.now) }
    ensures refusal { IsOkUnless result Refusal.NoMemory }
{
    if to.number() > 0 {
        return Ok(Vec::new(alloc));
    }
    match envelope {
        Envelope::Round { round, chains } => {
            if *me == Actor::Replica(shape.sender(*round)) {
                clients_of(alloc, slot_asks(*round, chains.as_slice()))
            } else {
                Ok(Vec::new(alloc))
            }
        }
        _ => Ok(Vec::new(alloc)),
    }
}

/// Returns a client that comes twice in this list. `None` exactly if there is no such client.
pub(crate) fn client_twice(clients: &[ClientId]) -> Option<ClientId>
    ensures some { IfSome result (λ client. ComesTwice client clients.now) }
    ensures none { IfNone result ((c : ℕ) → ComesTwice c clients.now → ⊥) }
{
    match clients {
        [] => None,
        [first, rest @ ..] => {
            if is_among(*first, rest) {
                Some(*first)
            } else {
                client_twice(rest)
            }
        }
    }
}

/// Returns the choice to propose the held requests of these clients; the plain choice if that one cannot be made.
pub(crate) fn choice_of(clients: &[ClientId]) -> Pick
    ensures made { IsPick (choice_of_clients clients.now) → result ≡ choice_of_clients clients.now }
    ensures plain { (IsPick (choice_of_clients clients.now) → ⊥) → result ≡ Plain }
{
    pick_of(&Clients::of(clients))
}

/// Tells whether the client is one of these.
fn is_among(client: ClientId, others: &[ClientId]) -> bool
    ensures { IsTrue result ↔ Any (λ (other : ℕ). other ≡ client) others.now }
{
    others.iter().any(|other| *other == client)
}

/// Returns the requests in the last of these chains that is of this slot; none if no chain is.
fn slot_asks<'a>(slot: u64, chains: &'a [Chain]) -> &'a [SignedRequest]
    ensures { result.now ≡ slot_asks slot [] chains.now }
{
    let mut asks: &[SignedRequest] = &[];
    for chain in chains {
        if chain.slot() == slot {
            asks = chain.signed();
        }
    }
    asks
}

/// Returns the clients of these requests, in their order. `NoMemory` if memory runs out.
fn clients_of(alloc: Global, asks: &[SignedRequest]) -> Result<Vec<ClientId>, Refusal>
    ensures clients { IfOk result (λ clients. clients.items ≡ clients_of_asks asks.now) }
    ensures refusal { IsOkUnless result Refusal.NoMemory }
{
    let mut clients = Vec::with_capacity(alloc, asks.len())?;
    for ask in asks {
        clients.push(ask.request.client())?;
    }
    Ok(clients)
}
