//! Pieces of lines that name several things.

ghost use Rattle.std.specs.Prelude.{◌≡◌, ◌<◌, ◌++◌, map};
ghost use Rattle.std.specs.Fmt.{decimal};
ghost use Rattle.dsr_base.specs.Joined.{more_joined};
ghost use Rattle.dsr_names.specs.Actor.{actor_text};
ghost use Rattle.dsr_request.specs.RequestText.{request_token};
ghost use Rattle.dsr_request.specs.RequestsText.{requests_text};
ghost use Rattle.dsr_desk.specs.ContentText.{content_text};
ghost use Rattle.dsr_chain.specs.Content.{content};

use crate::tokens::Tokens;
use dsr_chain::{Chain, SignedRequest};
use dsr_names::Actor;
use dsr_reasons::Writer;
use dsr_slot::Decision;

/// The maximum number of replicas.
pub(crate) const MOST_REPLICAS: usize = 16;

/// The maximum number of actors: these replicas and 32 clients.
pub(crate) const MOST_ACTORS: usize = 48;

/// Returns the place of an actor, the same for every shape: the clients come after 16 replicas.
pub(crate) fn place_of(actor: Actor) -> usize
    ensures { result < 48 }
{
    match actor {
        Actor::Replica(replica) => replica.number() as usize,
        Actor::Client(client) => client.number() as usize + MOST_REPLICAS,
    }
}

/// Appends the text and the actor's name.
pub(crate) fn put_named(out: &mut Writer, text: &'static str, actor: Actor)
    ensures { out.new ≡ out.old ++ (text.now ++ actor_text actor) }
{
    out.put(text);
    out.put_name(actor);
}

/// Appends the text and the number.
pub(crate) fn put_numbered(out: &mut Writer, text: &'static str, number: u64)
    ensures { out.new ≡ out.old ++ (text.now ++ decimal number) }
{
    out.put(text);
    out.put_number(number);
}

/// Appends the content of the chain: its requests, joined by commas, or that it is idle.
pub(crate) fn put_content(out: &mut Writer, tokens: &mut Tokens, chain: &Chain)
    ensures { out.new ≡ out.old ++ content_text (content chain.now.value) }
{
    match chain.signed() {
        [] => out.put("idle"),
        signed => put_requests(out, tokens, signed),
    }
}

/// Appends the content that was decided.
pub(crate) fn put_decision(out: &mut Writer, tokens: &mut Tokens, decision: &Decision)
    ensures { out.new ≡ out.old ++ content_text (content decision.now) }
{
    match decision.content() {
        None => out.put("idle"),
        Some(_) => put_requests(out, tokens, decision.signed()),
    }
}

/// Appends these requests, joined by commas.
fn put_requests(out: &mut Writer, tokens: &mut Tokens, signed: &[SignedRequest])
    ensures { out.new ≡ out.old ++ requests_text (map (λ s. s.request) signed.now) }
{
    match signed {
        [] => {}
        [first, others @ ..] => {
            tokens.put_request(out, &first.request);
            put_more(out, tokens, others)
        }
    }
}

/// Appends these requests, each after a comma.
fn put_more(out: &mut Writer, tokens: &mut Tokens, signed: &[SignedRequest])
    ensures { out.new ≡ out.old
        ++ more_joined 44 request_token (map (λ s. s.request) signed.now) }
{
    match signed {
        [] => {}
        [first, others @ ..] => {
            out.put(",");
            tokens.put_request(out, &first.request);
            put_more(out, tokens, others)
        }
    }
}
