//! The text of an envelope, put together from the texts of its requests. It is the one that a draft of the envelope has, for which there is no need to make
//! the draft: most envelopes have no signature on a statement that does not fit its place.

use crate::pieces::{put_named, put_numbered};
use crate::tokens::Tokens;
use dsr_chain::{Chain, SignedRequest};
use dsr_desk::Statement;
use dsr_envelope::Envelope;
use dsr_ledger::Reply;
use dsr_reasons::Writer;

/// Tells whether a text writes each signature of the envelope as its signer alone, because all are on the statements that fit their places.
pub(crate) fn is_short(envelope: &Envelope) -> bool {
    match envelope {
        Envelope::Round { chains, .. } => {
            for chain in chains.as_slice() {
                if !is_short_chain(chain) {
                    return false;
                }
            }
            true
        }
        Envelope::Ask(ask) => is_short_ask(ask.signed()),
        Envelope::Empty | Envelope::Reply(_) | Envelope::Seen(_) => true,
    }
}

/// Tells whether a text writes each signature of the chain as its signer alone.
fn is_short_chain(chain: &Chain) -> bool {
    for ask in chain.signed() {
        if !is_short_ask(ask) {
            return false;
        }
    }
    !chain.has_misfit()
}

/// Tells whether a text writes the signature beside the request as its signer alone.
fn is_short_ask(ask: &SignedRequest) -> bool {
    match ask.signature.statement() {
        Statement::Ask(asked) => *asked == ask.request,
        Statement::Link { .. } => false,
    }
}

/// Writes the envelope, with each signature as its signer alone.
pub(crate) fn write_short(out: &mut Writer, tokens: &mut Tokens, envelope: &Envelope) {
    match envelope {
        Envelope::Empty => out.put("empty"),
        Envelope::Round { round, chains } => {
            put_numbered(out, "round ", *round);
            for chain in chains.as_slice() {
                put_chain(out, tokens, chain);
            }
        }
        Envelope::Ask(ask) => {
            out.put("ask ");
            put_ask(out, tokens, ask.signed());
        }
        Envelope::Reply(reply) => put_reply(out, reply),
        Envelope::Seen(front) => put_numbered(out, "seen ", *front),
    }
}

/// Writes the reply.
fn put_reply(out: &mut Writer, reply: &Reply) {
    put_numbered(out, "reply ", reply.number);
    put_numbered(out, " ", reply.place);
    out.put(" ");
    out.put_answer(&reply.answer);
}

/// Writes the chain, with a space before it.
fn put_chain(out: &mut Writer, tokens: &mut Tokens, chain: &Chain) {
    put_numbered(out, " ", chain.slot());
    out.put("/");
    match chain.signed() {
        [] => out.put("idle"),
        [first, others @ ..] => {
            put_ask(out, tokens, first);
            for ask in others {
                out.put(",");
                put_ask(out, tokens, ask);
            }
        }
    }
    out.put("/");
    out.put_signers(chain.signers().as_slice());
}

/// Writes the request with who signed it.
fn put_ask(out: &mut Writer, tokens: &mut Tokens, ask: &SignedRequest) {
    tokens.put_request(out, &ask.request);
    put_named(out, "~", ask.signature.signer());
}
