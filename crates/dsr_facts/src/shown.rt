ghost use Rattle.std.specs.Prelude.{◌≡◌, IfOk, IsOkUnless, map};
ghost use Rattle.dsr_envelope.specs.Pick.{IsPick};
ghost use Rattle.dsr_envelope.specs.declared.pick.Pick.TheVariants.{Plain};
ghost use Rattle.dsr_replica.specs.Shown.{choice_of, last_value, shown_choice};
ghost use Rattle.dsr_chain.specs.declared.slot_value.SlotValue.TheVariants.{Idle};
ghost use Rattle.dsr_chain.specs.Content.{requests_in};
ghost use Rattle.dsr_facts.specs.Fault.{choice_by};

use dsr_chain::{Chain, SignedRequest};
use dsr_envelope::{Clients, Envelope, Pick};
use dsr_names::{Actor, Refusal, ReplicaId, Shape};
use std::alloc::Global;

/// Returns the clients whose requests a loyal replica's post to this replica shows as chosen; `None` for the plain choice,
/// and if it shows clients that cannot be a choice. Whatever the replica's log is, no other choice gives this envelope.
/// `NoMemory` if memory runs out.
pub fn shown_clients(
    alloc: Global,
    shape: &Shape,
    me: &Actor,
    to: ReplicaId,
    envelope: &Envelope,
) -> Result<Option<Clients>, Refusal>
    ensures shown { IsPick (shown_choice shape.now me.now to envelope.now)
        → IfOk result (λ clients. choice_by clients ≡ shown_choice shape.now me.now to envelope.now) }
    ensures plain { (IsPick (shown_choice shape.now me.now to envelope.now) → ⊥) → IfOk result (λ clients. choice_by clients ≡ Plain) }
    ensures refusal { IsOkUnless result Refusal.NoMemory }
{
    if to.number() > 0 {
        return Ok(None);
    }
    match envelope {
        Envelope::Round { round, chains } => {
            if *me == Actor::Replica(shape.sender(*round)) {
                last_clients(alloc, chains.as_slice())
            } else {
                Ok(None)
            }
        }
        _ => Ok(None),
    }
}

/// Makes the choice of these clients; without clients, the plain one.
pub fn pick_of(clients: &Option<Clients>) -> Pick
    ensures { result ≡ choice_by clients.now }
{
    match clients {
        Some(clients) => Pick::From(*clients),
        None => Pick::Plain,
    }
}

/// Returns the clients of the requests in the last chain, if they can be chosen.
fn last_clients(alloc: Global, chains: &[Chain]) -> Result<Option<Clients>, Refusal>
    ensures shown { IsPick (choice_of (map (λ r. r.client) (requests_in (last_value Idle chains.now))))
        → IfOk result (λ clients. choice_by clients ≡ choice_of (map (λ r. r.client) (requests_in (last_value Idle chains.now)))) }
    ensures plain { (IsPick (choice_of (map (λ r. r.client) (requests_in (last_value Idle chains.now)))) → ⊥)
        → IfOk result (λ clients. choice_by clients ≡ Plain) }
    ensures refusal { IsOkUnless result Refusal.NoMemory }
{
    match chains {
        [] => Ok(None),
        [.., last] => clients_in(alloc, last.signed()),
    }
}

/// Returns the clients of these requests, if they can be chosen.
fn clients_in(alloc: Global, asks: &[SignedRequest]) -> Result<Option<Clients>, Refusal>
    ensures shown { IsPick (choice_of (map (λ r. r.client) (map (λ ask. ask.request) asks.now)))
        → IfOk result (λ clients. choice_by clients ≡ choice_of (map (λ r. r.client) (map (λ ask. ask.request) asks.now))) }
    ensures plain { (IsPick (choice_of (map (λ r. r.client) (map (λ ask. ask.request) asks.now))) → ⊥)
        → IfOk result (λ clients. choice_by clients ≡ Plain) }
    ensures refusal { IsOkUnless result Refusal.NoMemory }
{
    let mut clients = Vec::with_capacity(alloc, asks.len())?;
    for ask in asks {
        clients.push(ask.request.client())?;
    }
    Ok(Clients::of(clients.as_slice()))
}
