ghost use Rattle.std.specs.Prelude.{◌≡◌, ◌<◌, ◌^◌, ◌∷◌, ◌++◌, IfOk, IsOkUnless};
ghost use Rattle.std.specs.Fmt.{decimal};
ghost use Rattle.dsr_base.specs.Reads.{Reads};
ghost use Rattle.dsr_names.specs.Actor.{IsNumbered, actor_text, replica_text};
ghost use Rattle.dsr_names.specs.declared.actor.Actor.TheVariants.{Client};
ghost use Rattle.dsr_request.specs.OpText.{op_text, IsOp};
ghost use Rattle.dsr_script.specs.EnvelopeText.{envelope_text, IsSpelledEnvelope};
ghost use Rattle.dsr_script.specs.declared.serve_line.ServeLine.TheVariants.{Ask, Post};
ghost use Rattle.dsr_script.specs.Script.{place_of};
ghost use Rattle.dsr_script.specs.ServeText.{line_text, IsLine};

use crate::draft::Draft;
use crate::place::Place;
use dsr_base::{Token, split_once};
use dsr_names::{Actor, ClientId, Refusal, ReplicaId, read_num};
use dsr_request::Op;
use std::alloc::Global;

/// A line of a serve script.
#[derive(Drop)]
pub(crate) enum ServeLine {
    /// The next operation that a client asks for.
    Ask {
        /// The client.
        client: ClientId,
        /// The operation.
        op: Op,
    },
    /// A traitor's post.
    Post {
        /// The traitor, the round and the other end.
        place: Place,
        /// The envelope that it posts there.
        draft: Draft,
    },
}

impl ServeLine {
    /// Reads a line's text, without its line feed. The inner `None` means exactly that the bytes are not one.
    /// `NoMemory` if memory runs out.
    pub(crate) fn read(alloc: Global, bytes: &[u8]) -> Result<Option<ServeLine>, Refusal>
        ensures read { IfOk result (λ line. Reads IsLine line_text bytes.now line) }
        ensures refusal { IsOkUnless result Refusal.NoMemory }
    {
        let Some((word, rest)) = split_once(bytes, b' ') else {
            return Ok(None);
        };
        if word == b"ask".as_slice() {
            match read_ask(rest) {
                Some(fields) => Ok(Some(ask_line(fields))),
                None => Ok(None),
            }
        } else if word == b"script".as_slice() {
            match read_script(alloc, rest)? {
                Some(fields) => Ok(Some(draft_line(fields))),
                None => Ok(None),
            }
        } else {
            Ok(None)
        }
    }
}

/// Makes the line with this client and operation.
fn ask_line(fields: (ClientId, Op)) -> ServeLine
    ensures { result ≡ Ask fields.0 fields.1 }
{
    let (client, op) = fields;
    ServeLine::Ask { client, op }
}

/// Makes the line with this traitor, round, other end and draft.
fn draft_line(fields: (ReplicaId, (u64, (Actor, Draft)))) -> ServeLine
    ensures { result ≡ Post (place_of fields.0 fields.1.0 fields.1.1.0) fields.1.1.1 }
{
    let (from, (round, (to, draft))) = fields;
    let place = Place { from, round, to };
    ServeLine::Post { place, draft }
}

/// Reads the client and its operation.
fn read_ask(bytes: &[u8]) -> Option<(ClientId, Op)>
    ensures { Reads (λ p. (p.0 < 32) × IsOp p.1) (λ p. actor_text (Client p.0) ++ 32 ∷ op_text 32 p.1) bytes.now result }
{
    let (client, op) = split_once(bytes, b' ')?;
    let client = ClientId::read(client)?;
    let op = Op::read(op, b' ')?;
    Some((client, op))
}

/// Reads the traitor, the round, the other end and the draft.
fn read_script(
    alloc: Global,
    bytes: &[u8],
) -> Result<Option<(ReplicaId, (u64, (Actor, Draft)))>, Refusal>
    ensures read { IfOk result (Reads (λ p. (p.0 < 16) × ((p.1.0 < 2 ^ 40) × (IsNumbered p.1.1.0 × IsSpelledEnvelope p.1.1.1)))
        (λ p. replica_text p.0 ++ 32 ∷ (decimal p.1.0 ++ 32 ∷ (actor_text p.1.1.0 ++ 32 ∷ envelope_text p.1.1.1))) bytes.now) }
    ensures refusal { IsOkUnless result Refusal.NoMemory }
{
    let Some((from, rest)) = split_once(bytes, b' ') else {
        return Ok(None);
    };
    let Some(from) = ReplicaId::read(from) else {
        return Ok(None);
    };
    match read_round(alloc, rest)? {
        Some(on) => Ok(Some((from, on))),
        None => Ok(None),
    }
}

/// Reads the round, the other end and the draft.
fn read_round(alloc: Global, bytes: &[u8]) -> Result<Option<(u64, (Actor, Draft))>, Refusal>
    ensures read { IfOk result (Reads (λ p. (p.0 < 2 ^ 40) × (IsNumbered p.1.0 × IsSpelledEnvelope p.1.1))
        (λ p. decimal p.0 ++ 32 ∷ (actor_text p.1.0 ++ 32 ∷ envelope_text p.1.1)) bytes.now) }
    ensures refusal { IsOkUnless result Refusal.NoMemory }
{
    let Some((round, rest)) = split_once(bytes, b' ') else {
        return Ok(None);
    };
    let Some(round) = read_num(round) else {
        return Ok(None);
    };
    match read_end(alloc, rest)? {
        Some(end) => Ok(Some((round, end))),
        None => Ok(None),
    }
}

/// Reads the other end and the draft.
fn read_end(alloc: Global, bytes: &[u8]) -> Result<Option<(Actor, Draft)>, Refusal>
    ensures read { IfOk result (Reads (λ p. IsNumbered p.0 × IsSpelledEnvelope p.1)
        (λ p. actor_text p.0 ++ 32 ∷ envelope_text p.1) bytes.now) }
    ensures refusal { IsOkUnless result Refusal.NoMemory }
{
    let Some((to, draft)) = split_once(bytes, b' ') else {
        return Ok(None);
    };
    let Some(to) = Actor::read(to) else {
        return Ok(None);
    };
    match Draft::read(alloc, draft)? {
        Some(draft) => Ok(Some((to, draft))),
        None => Ok(None),
    }
}
