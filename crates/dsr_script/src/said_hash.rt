//! Hashes a signature, so that it can be found. Everything that it says is hashed: a traitor can write any number of signatures that
//! differ in only one part, and each must still be found at once.

ghost use Rattle.std.specs.Prelude.{◌≡◌, fold, flat_map};
ghost use Rattle.dsr_script.specs.Support.SignatureHash.{actor_fed, op_fed, request_fed};
ghost use Rattle.dsr_script.specs.Support.Said.{said_fed, said_fed_alike};

use crate::said::Said;
use dsr_desk::Statement;
use dsr_names::Actor;
use dsr_request::{Op, Request};
use std::hash::{Hash, Hasher};

impl Hash for Said<'_> {
    ghost hash_input = { said_fed };

    ghost respects_eq = { said_fed_alike };

    fn hash<H: Hasher>(&self, state: &mut H) {
        feed_actor(&self.signer(), state);
        match self.statement() {
            Statement::Ask(request) => feed_request(request, state),
            Statement::Link {
                slot,
                value,
                before,
            } => {
                state.write_u64(*slot);
                if let Some(requests) = value {
                    feed_requests(requests.as_slice(), state);
                }
                feed_actors(before.as_slice(), state);
            }
        }
    }
}

/// Feeds the hasher an actor.
fn feed_actor<H: Hasher>(actor: &Actor, state: &mut H)
    ensures { state.new ≡ fold H.write state.old (actor_fed actor.now) }
{
    match actor {
        Actor::Replica(replica) => state.write_u8(replica.number()),
        Actor::Client(client) => state.write_u8(client.number() + 16),
    }
}

/// Feeds the hasher actors, in their order.
fn feed_actors<H: Hasher>(actors: &[Actor], state: &mut H)
    ensures { state.new ≡ fold H.write state.old (flat_map actor_fed actors.now) }
{
    if let [first, rest @ ..] = actors {
        feed_actor(first, state);
        feed_actors(rest, state);
    }
}

/// Feeds the hasher a request.
fn feed_request<H: Hasher>(request: &Request, state: &mut H)
    ensures { state.new ≡ fold H.write state.old (request_fed request.now) }
{
    state.write_u8(request.client().number());
    state.write_u64(request.number());
    feed_op(&request.op(), state);
}

/// Feeds the hasher requests, in their order.
fn feed_requests<H: Hasher>(requests: &[Request], state: &mut H)
    ensures { state.new ≡ fold H.write state.old (flat_map request_fed requests.now) }
{
    if let [first, rest @ ..] = requests {
        feed_request(first, state);
        feed_requests(rest, state);
    }
}

/// Feeds the hasher an operation.
fn feed_op<H: Hasher>(op: &Op, state: &mut H)
    ensures { state.new ≡ fold H.write state.old (op_fed op.now) }
{
    op.name().hash(state);
    match op {
        Op::Read { .. } => state.write_u8(0),
        Op::Write { value, .. } => {
            state.write_u8(1);
            state.write_u64(*value);
        }
        Op::Swap { from, to, .. } => {
            state.write_u8(2);
            from.hash(state);
            state.write_u64(*to);
        }
        Op::Remove { .. } => state.write_u8(3),
    }
}
