//! The calls of envelopes.

use crate::desk::{Desk, draft_of};
use crate::said::{Answered, Failure, Said};
use crate::words::{Words, find};
use dsr_chain::{Chain, SlotValue};
use dsr_envelope::{Chains, Envelope};
use dsr_names::{Actor, ReplicaId};
use std::alloc::Global;

/// Answers `plain ENVELOPE`: whether the envelope has no list and no removal.
pub fn plain(alloc: Global, words: &Words) -> Answered {
    Ok(Said::Whether(draft_of(alloc, words.rest())?.is_plain()))
}

/// A kind of envelope to make from parts, which may be outside the limits.
#[derive(Clone, Copy)]
enum Kind {
    /// `round ROUND SLOT COUNT`: COUNT chains that replica 0 starts for the slot, with the value idle.
    Round,
    /// `reply REPLY`.
    Reply,
    /// `seen NUMBER`.
    Seen,
}

/// The kinds by their words.
const KINDS: [(&str, Kind); 3] = [
    ("round", Kind::Round),
    ("reply", Kind::Reply),
    ("seen", Kind::Seen),
];

/// Answers `fits KIND PARTS`: whether the envelope is within the limits.
pub fn fits(desk: &Desk, words: &mut Words) -> Answered {
    let envelope = match find(&KINDS, words.next())? {
        Kind::Round => round(desk, words)?,
        Kind::Reply => Envelope::Reply(words.reply()?),
        Kind::Seen => Envelope::Seen(words.number()?),
    };
    Ok(Said::Whether(envelope.fits()))
}

/// Makes the envelope of `round ROUND SLOT COUNT`.
fn round(desk: &Desk, words: &mut Words) -> Result<Envelope, Failure> {
    let round = words.number()?;
    let slot = words.number()?;
    let count = words.small_number()?;
    let key = desk.key(Actor::Replica(ReplicaId::FIRST))?;
    let mut chains = Vec::new(desk.alloc());
    for _ in 0..count {
        chains.push(Chain::start(desk.alloc(), slot, SlotValue::Idle, key)?)?;
    }
    let chains = Chains::of(chains);
    Ok(Envelope::Round { round, chains })
}
