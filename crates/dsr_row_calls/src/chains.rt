//! The calls of chains and signed requests.

ghost use Rattle.std.specs.Prelude.{◌<◌, ◌≤◌, ◌+◌, ◌↔◌, IsSome, IfSome, IsOk, IfErr};
ghost use Rattle.dsr_chain.specs.Faults.{IsFirstFault};
ghost use Rattle.dsr_chain.specs.Proper.{IsProper};

use crate::desk::{Desk, draft_of_round, text_of_value};
use crate::keys::Signed;
use crate::said::{Answered, Failure, Said, word_of};
use crate::words::{Words, find};
use dsr_chain::{Chain, ChainFault};
use dsr_desk::Content;
use dsr_names::Shape;
use std::alloc::Global;

/// Answers `check SHAPE SLOT ROUND CHAIN`: whether the chain is proper for this round of the slot.
pub fn check(desk: &Desk, words: &mut Words) -> Answered {
    let shape = words.shape()?;
    let slot = words.number()?;
    let round = words.small_number()?;
    let chain = desk.chain(words.rest())?;
    match found(&chain, &shape, slot, round) {
        Some(found) => Ok(Said::of_check(found)),
        None => Err(Failure::NoCall),
    }
}

/// Returns what the check of the chain finds; `None` if the slot has no such round.
fn found(chain: &Chain, shape: &Shape, slot: u64, round: u8) -> Option<Result<(), ChainFault>>
    ensures when { IsSome result ↔ ((0 < round) × (round ≤ shape.now.f + 1)) }
    ensures proper { IfSome result (λ found. IsOk found ↔ IsProper shape.now slot round chain.now) }
    ensures fault { IfSome result (λ found. IfErr found (IsFirstFault shape.now slot round chain.now)) }
{
    if round == 0 || round > shape.f() + 1 {
        return None;
    }
    Some(chain.check(shape, slot, round))
}

/// Answers `asked SHAPE SIGNED-REQUEST`: whether the request has the signature of its client, a client of the shape.
pub fn asked(desk: &Desk, words: &mut Words) -> Answered {
    let shape = words.shape()?;
    let signed = desk.signed(words.rest())?;
    Ok(Said::Whether(signed.is_asked(&shape)))
}

/// Answers `parts CHAIN`: its slot, its value, its content, how many signed requests it has, its signers and their number.
pub fn parts(desk: &Desk, words: &Words) -> Answered {
    let chain = desk.chain(words.rest())?;
    parts_of(desk.alloc(), &chain)
}

/// Returns the parts of the chain as a line.
fn parts_of(alloc: Global, chain: &Chain) -> Answered {
    let value = text_of_value(alloc, chain.value())?;
    let (slot, content) = (chain.slot(), Content(chain.content()));
    let (requests, signers) = (chain.signed().len(), chain.signers());
    let count = chain.signature_count();
    Ok(Said::Text(format!(in alloc;
        "slot {slot} value {value} content {content} requests {requests} signers {signers} count {count}"
    )?))
}

/// Answers `signature PLACE CHAIN`: the signature at this place of the chain.
pub fn signature(desk: &Desk, words: &mut Words) -> Answered {
    let place = words.small_number()? as usize;
    let chain = desk.chain(words.rest())?;
    if place >= chain.signature_count() {
        return Err(Failure::NoCall);
    }
    let signed = Signed(chain.signature(place));
    Ok(Said::Text(signed.to_string(desk.alloc())?))
}

/// Answers `has-signer ACTOR CHAIN`: whether a signature of the chain is the actor's.
pub fn has_signer(desk: &Desk, words: &mut Words) -> Answered {
    let actor = words.actor()?;
    let chain = desk.chain(words.rest())?;
    Ok(Said::Whether(chain.has_signer(actor)))
}

/// Answers `has-misfit CHAIN`: whether a signature of the chain does not fit its place.
pub fn has_misfit(desk: &Desk, words: &Words) -> Answered {
    let chain = desk.chain(words.rest())?;
    Ok(Said::Whether(chain.has_misfit()))
}

/// Answers `start ACTOR SLOT VALUE`: the parts of the chain with only the actor's signature.
pub fn start(desk: &Desk, words: &mut Words) -> Answered {
    let key = desk.key(words.actor()?)?;
    let slot = words.number()?;
    let value = desk.value(words.rest())?;
    let chain = Chain::start(desk.alloc(), slot, value, key)?;
    parts_of(desk.alloc(), &chain)
}

/// Answers `extend ACTOR CHAIN`: the envelope of round 0 with the chain, longer by the actor's signature. If memory is refused, the chain that
/// is given back is extended once more.
pub fn extend(desk: &Desk, words: &mut Words) -> Answered {
    let key = desk.key(words.actor()?)?;
    let chain = desk.chain(words.rest())?;
    if chain.signature_count() >= 16 {
        return Err(Failure::NoCall);
    }
    let back = match chain.extend(desk.alloc(), key) {
        Ok(longer) => return said_chain(desk.alloc(), longer),
        Err((back, _)) => back,
    };
    if back.signature_count() >= 16 {
        return Err(Failure::NoCall);
    }
    match back.extend(desk.alloc(), key) {
        Ok(longer) => said_chain(desk.alloc(), longer),
        Err((_, refusal)) => Err(Failure::Refused(refusal)),
    }
}

/// Returns the envelope of round 0 with this chain.
fn said_chain(alloc: Global, chain: Chain) -> Answered {
    let mut chains = Vec::new(alloc);
    chains.push(chain)?;
    Ok(Said::Envelope(draft_of_round(alloc, 0, chains)?))
}

/// All faults.
const FAULTS: [ChainFault; 7] = [
    ChainFault::OtherSlot,
    ChainFault::WrongCount,
    ChainFault::WrongSender,
    ChainFault::NoReplica,
    ChainFault::SignedTwice,
    ChainFault::Misfit,
    ChainFault::BadRequest,
];

/// Answers `fault FAULT`: what the fault says.
pub fn fault(alloc: Global, words: &Words) -> Answered {
    for fault in FAULTS {
        if word_of(fault).as_bytes() == words.rest() {
            return Ok(Said::Text(fault.to_string(alloc)?));
        }
    }
    Err(Failure::BadRow)
}
