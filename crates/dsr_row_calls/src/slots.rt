//! The calls of slots.

use crate::desk::{Desk, draft_of_round, text_of_value};
use crate::said::{Answered, Failure, Said};
use crate::words::{Words, find};
use dsr_chain::Chain;
use dsr_desk::Content;
use dsr_names::Actor;
use dsr_script::Draft;
use dsr_slot::{Decision, Kept, SlotState};
use std::alloc::Global;

/// A call at a slot.
#[derive(Clone, Copy)]
enum Call {
    /// `read CHAIN`: what becomes of the chain in the round after the closed ones.
    Read,
    /// `would-keep CHAIN`: whether the chain would be kept in that round.
    WouldKeep,
    /// `close`: closes the round after the closed ones, and answers how many are closed.
    Close,
    /// `close-round CHAIN ..`: the same, after these chains were read.
    CloseRound,
    /// `relays REPLICA`: what the replica posts for the slot in the round after the closed ones.
    Relays,
    /// `relays-in ROUND REPLICA`: what the replica posts for the slot in this round.
    RelaysIn,
    /// `kept`: the chains that are kept, each in an envelope of the round in which it was read.
    Kept,
    /// `decide`: the content that is decided.
    Decide,
    /// `take-decision`: the same, and the value that is decided, with the number of its signed requests.
    TakeDecision,
    /// `number`: the slot's number.
    Number,
    /// `shape`: the shape in which it is broadcast.
    Shape,
}

/// The calls by their verbs.
const CALLS: [(&str, Call); 11] = [
    ("read", Call::Read),
    ("would-keep", Call::WouldKeep),
    ("close", Call::Close),
    ("close-round", Call::CloseRound),
    ("relays", Call::Relays),
    ("relays-in", Call::RelaysIn),
    ("kept", Call::Kept),
    ("decide", Call::Decide),
    ("take-decision", Call::TakeDecision),
    ("number", Call::Number),
    ("shape", Call::Shape),
];

/// Opens `slot SHAPE SLOT`: the slot before any of its rounds is closed.
pub fn open(words: &mut Words) -> Result<SlotState, Failure> {
    let shape = words.shape()?;
    Ok(SlotState::new(&shape, words.number()?))
}

/// Makes the call of this verb at the slot.
pub fn answer(desk: &Desk, state: &mut SlotState, verb: &[u8], words: &mut Words) -> Answered {
    match find(&CALLS, verb)? {
        Call::Read => read(state, desk.chain(words.rest())?),
        Call::WouldKeep => would_keep(state, &desk.chain(words.rest())?),
        Call::Close => close(state),
        Call::CloseRound => close_round(state, desk.chains(words.rest())?),
        Call::Relays => relays(desk, state, next_round(state), words),
        Call::RelaysIn => {
            let round = words.small_number()?;
            relays(desk, state, round, words)
        }
        Call::Kept => kept(desk.alloc(), state),
        Call::Decide => Ok(decide(state)),
        Call::TakeDecision => take_decision(desk.alloc(), state),
        Call::Number => Ok(Said::Number(state.slot())),
        Call::Shape => Ok(Said::Shape(state.shape())),
    }
}

/// Returns the round after the closed ones.
fn next_round(state: &SlotState) -> u8 {
    state.closed_rounds() + 1
}

/// Answers `read CHAIN`, if a round is left.
fn read(state: &mut SlotState, chain: Chain) -> Answered {
    // from here on the prover knows that at most f+1 rounds are closed
    let _closed = state.closed_rounds();
    if state.decide().is_some() {
        return Err(Failure::NoCall);
    }
    let fate = state.fate(&chain);
    state.read(chain);
    Ok(Said::Fate(fate))
}

/// Answers `would-keep CHAIN`, if a round is left.
fn would_keep(state: &SlotState, chain: &Chain) -> Answered {
    // For the proof: the number of closed rounds is within the shape's.
    let _closed = state.closed_rounds();
    if state.decide().is_some() {
        return Err(Failure::NoCall);
    }
    Ok(Said::Whether(state.would_keep(chain)))
}

/// Answers `close`, if a round is left.
fn close(state: &mut SlotState) -> Answered {
    // For the proof: the number of closed rounds is within the shape's.
    let _closed = state.closed_rounds();
    if state.decide().is_some() {
        return Err(Failure::NoCall);
    }
    state.close();
    Ok(Said::Number(u64::from(state.closed_rounds())))
}

/// Answers `close-round CHAIN ..`, if a round is left.
fn close_round(state: &mut SlotState, mut chains: Vec<Chain>) -> Answered {
    let closed = state.closed_rounds();
    if state.decide().is_some() {
        return Err(Failure::NoCall);
    }
    state.close_round(closed + 1, &mut chains);
    Ok(Said::Number(u64::from(state.closed_rounds())))
}

/// Answers `relays-in ROUND REPLICA`.
fn relays(desk: &Desk, state: &SlotState, round: u8, words: &mut Words) -> Answered {
    let key = desk.key(Actor::Replica(words.replica()?))?;
    let chains = state.relays(desk.alloc(), round, key)?;
    if chains.is_empty() {
        return Ok(Said::Envelope(Draft::empty()));
    }
    Ok(Said::Envelope(draft_of_round(desk.alloc(), u64::from(round), chains)?))
}

/// Answers `kept`.
fn kept(alloc: Global, state: &SlotState) -> Answered {
    let copy = state.try_copy()?;
    match copy.kept() {
        (None, _) => Ok(Said::Nothing),
        (Some(first), None) => said_kept(alloc, first, None),
        (Some(first), Some(second)) => said_kept(alloc, first, Some(second)),
    }
}

/// Answers with one or two kept chains.
fn said_kept(alloc: Global, first: &Kept, second: Option<&Kept>) -> Answered {
    let one = draft_of_kept(alloc, first)?;
    match second {
        None => Ok(Said::Envelope(one)),
        Some(second) => {
            let other = draft_of_kept(alloc, second)?;
            Ok(Said::Text(format!(in alloc; "{one} | {other}")?))
        }
    }
}

/// Returns the envelope of the round in which the chain was read, with that chain.
fn draft_of_kept(alloc: Global, kept: &Kept) -> Result<Draft, Failure> {
    let mut chains = Vec::new(alloc);
    chains.push(kept.chain.try_copy()?)?;
    draft_of_round(alloc, u64::from(kept.round), chains)
}

/// Answers `decide`.
fn decide(state: &SlotState) -> Said {
    match state.decide() {
        Some(value) => Said::Content(Content(value.content())),
        None => Said::Nothing,
    }
}

/// Answers `take-decision`, if the last round is closed, from a copy of the state, which this consumes.
fn take_decision(alloc: Global, state: &SlotState) -> Answered {
    let copy = state.try_copy()?;
    // For the proof: the number of closed rounds is within the shape's.
    let _closed = copy.closed_rounds();
    if copy.decide().is_none() {
        return Err(Failure::NoCall);
    }
    said_decision(alloc, &copy.into_decision())
}

/// Answers with the decided content, the value, and the number of its signed requests.
fn said_decision(alloc: Global, decision: &Decision) -> Answered {
    let value = text_of_value(alloc, decision.value())?;
    let (content, requests) = (Content(decision.content()), decision.signed().len());
    Ok(Said::Text(format!(in alloc; "{content} value {value} requests {requests}")?))
}
