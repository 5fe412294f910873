//! What becomes of the chains of an envelope, found before it is taken.

ghost use Rattle.std.specs.Prelude.{◌≡◌, ◌≢◌, ◌++◌, suc, ◌≤◌, ◌==◌, List, [], true, false, length, map, IfOk, IfSome, IfNone, if◌then◌else◌};
ghost use Rattle.std.specs.Option.{option_map, option_to_list};
ghost use Rattle.std.specs.List.{find, list_any};
ghost use Rattle.dsr_base.specs.Member.{In};
ghost use Rattle.dsr_names.specs.declared.actor.Actor.TheVariants.{Replica as ReplicaNumber};
ghost use Rattle.dsr_rotation.specs.Calendar.{closed_slots};
ghost use Rattle.dsr_chain.specs.Chain.{Chain as AChain};
ghost use Rattle.dsr_slot.specs.Fate.{IsFate};
ghost use Rattle.dsr_slot.specs.Keeping.{keep};
ghost use Rattle.dsr_slot.specs.SlotState.{SlotState as AState};
ghost use Rattle.dsr_envelope.specs.Envelope.{chains_for};
ghost use Rattle.dsr_envelope.specs.declared.due.Due.TheVariants.{Take as TakeFrom};
ghost use Rattle.dsr_envelope.specs.declared.entry.Entry.{Entry as AnEntry};
ghost use Rattle.dsr_play.specs.declared.event.Event.TheVariants.{Take};
ghost use Rattle.dsr_replica.specs.Decided.{slot_kept};
ghost use Rattle.dsr_replica.specs.Replica.{StandsFor};
ghost use Rattle.dsr_notes.specs.Closing.{closes};
ghost use Rattle.dsr_notes.specs.Noting.{Adds};
ghost use Rattle.dsr_notes.specs.Reading.{AreFates, IsChainFate, silence};
ghost use Rattle.dsr_notes.specs.Support.Reading.{AddsLast, AddsRead};
ghost use Rattle.dsr_notes.specs.Support.Rest.{Foretells};
ghost use Rattle.dsr_notes.specs.declared.note.Note.{Note as ANote};
ghost use Rattle.dsr_notes.specs.declared.note.Note.TheVariants.{Kept as KeptNote};

use crate::closing::Closing;
use crate::note::{ChainFate, Note};
use crate::notes::Notes;
use crate::rest::Rest;
use dsr_chain::Chain;
use dsr_envelope::{Due, Envelope};
use dsr_names::{Actor, Refusal, ReplicaId};
use dsr_replica::Replica;
use dsr_slot::{Fate, Kept, SlotState};
use dsr_world::Stage;

/// Notes what a replica makes of the envelope that it is about to take from another one, if it is loyal and the take is due, and, if the take closes a slot,
/// which chains it will have kept for it. Returns what remains to be noted once the envelope is taken.
pub(crate) fn note_reading(
    stage: &Stage,
    replica: ReplicaId,
    from: ReplicaId,
    notes: &mut Notes,
) -> Rest
    requires { notes.old.items ≡ [] }
    ensures { Foretells stage.now.shape stage.now.run (Take (ReplicaNumber replica) (ReplicaNumber from)) notes.new result }
{
    let Ok(loyal) = stage.replica(replica) else {
        return Rest::Nothing;
    };
    if loyal.due() != Due::Take(from) {
        return Rest::Nothing;
    }
    let Some(letter) = stage.in_box(&Actor::Replica(from), &Actor::Replica(replica)) else {
        return Rest::Nothing;
    };
    match note_envelope(loyal, from, letter.envelope(), notes) {
        None => Rest::Nothing,
        Some(kept) => Rest::Close(Closing {
            replica,
            round: loyal.round(),
            kept,
            acted: loyal.history().len(),
        }),
    }
}

/// Notes what the replica makes of this envelope. If the take from this replica closes a round, notes which chains the replica will have kept for the slot that
/// closes with it, and returns how many those are. Requires that the take is due.
fn note_envelope(
    loyal: &Replica,
    from: ReplicaId,
    envelope: &Envelope,
    notes: &mut Notes,
) -> Option<u8>
    requires { loyal.now.next ≡ TakeFrom from }
    ensures none { IfNone result ((suc from ≢ loyal.now.shape.n)
        × ((log : List AnEntry) → StandsFor loyal.now log → AddsRead loyal.now.shape log envelope.now notes.old notes.new [])) }
    ensures last { IfSome result (λ kept. (suc from ≡ loyal.now.shape.n)
        × ((log : List AnEntry) → StandsFor loyal.now log → AddsLast loyal.now.shape log from envelope.now notes.old notes.new kept)) }
{
    let round = loyal.round();
    let chains = note_chains(envelope, round, notes);
    note_fates(loyal, chains, notes);
    if from.number() + 1 == loyal.shape().n() {
        Some(note_kept(loyal, chains, notes))
    } else {
        None
    }
}

/// Returns the chains that the envelope carries for this round. Notes if it is neither empty nor one of this round.
fn note_chains<'a>(envelope: &'a Envelope, round: u64, notes: &mut Notes) -> &'a [Chain]
    ensures chains { result.now ≡ chains_for round envelope.now }
    ensures silence { Adds notes.old notes.new (silence round envelope.now) }
{
    match envelope {
        Envelope::Round {
            round: posted,
            chains,
        } if *posted == round => chains.as_slice(),
        Envelope::Empty => &[],
        _ => {
            notes.add(Note::OtherRound { round });
            &[]
        }
    }
}

/// Notes the fate of each of these chains of an envelope, in their order.
fn note_fates(loyal: &Replica, chains: &[Chain], notes: &mut Notes)
    ensures { (log : List AnEntry) → StandsFor loyal.now log → notes.new.is_broken ≡ false → (notes.old.is_broken ≡ false)
        × (fates : List ANote) × AreFates loyal.now.shape log [] chains.now fates × (notes.new.items ≡ notes.old.items ++ fates) }
{
    for place in 0..chains.len() {
        let chain = &chains[place];
        match fate_of(loyal, &chains[..place], chain) {
            Ok(fate) => notes.add(Note::Chain {
                place: place as u64,
                slot: chain.slot(),
                fate,
            }),
            Err(_) => notes.break_off(),
        }
    }
}

/// Returns what becomes of the chain once these chains of its envelope are read. `NoMemory` if one more handle is refused.
fn fate_of(loyal: &Replica, before: &[Chain], chain: &Chain) -> Result<ChainFate, Refusal>
    ensures { (log : List AnEntry) → StandsFor loyal.now log → IfOk result (IsChainFate loyal.now.shape log before.now chain.now) }
{
    // For the proof: the round in progress is the number of closed rounds.
    let _round = loyal.round();
    let Some(state) = state_of(loyal.in_flight(), chain.slot()) else {
        return Ok(ChainFate::NotInFlight);
    };
    let round = state.closed_rounds() + 1;
    let fate = fate_after(state, before, chain)?;
    Ok(ChainFate::Read { round, fate })
}

/// Returns the state of this slot, or `None` if none of these is its state.
fn state_of(states: &[SlotState], slot: u64) -> Option<&SlotState>
    ensures { option_map (λ state. state.now) result ≡ find (λ (state : AState). state.slot == slot) states.now }
{
    states.iter().find(|state| state.slot() == slot)
}

/// Returns what becomes of the chain in this slot once these chains of its envelope are read. Requires that at most f of the slot's rounds are closed. Most
/// chains are the first of their slot in their envelope: then nothing is copied. `NoMemory` if one more handle is refused.
fn fate_after(state: &SlotState, before: &[Chain], chain: &Chain) -> Result<Fate, Refusal>
    requires within { state.now.closed ≤ state.now.shape.f }
    ensures { IfOk result (λ fate. IsFate state.now.shape state.now.slot (suc state.now.closed)
        (keep state.now.shape state.now.slot (suc state.now.closed) state.now.kept before.now) chain.now fate) }
{
    if has_chain_of(before, state.slot()) {
        let after = after_reading(state, before)?;
        return Ok(after.fate(chain));
    }
    Ok(state.fate(chain))
}

/// Tells whether one of the chains is of this slot.
fn has_chain_of(chains: &[Chain], slot: u64) -> bool
    ensures { result ≡ list_any (λ (chain : AChain). chain.slot == slot) chains.now }
{
    chains.iter().any(|chain| chain.slot() == slot)
}

/// Returns the state of the slot once these chains are read in the round after the closed ones. Requires that at most f of the slot's rounds are closed.
/// `NoMemory` if one more handle is refused.
fn after_reading(state: &SlotState, chains: &[Chain]) -> Result<SlotState, Refusal>
    requires within { state.now.closed ≤ state.now.shape.f }
    ensures { IfOk result (λ after. after
        ≡ record state.now { kept = keep state.now.shape state.now.slot (suc state.now.closed) state.now.kept chains.now }) }
{
    let mut after = state.try_copy()?;
    for chain in chains {
        if chain.slot() == state.slot() {
            after.read(chain.try_copy()?);
        }
    }
    Ok(after)
}

/// Notes which chains the replica will have kept for the slot that closes with the round in progress, once these chains are read, and returns how many
/// those are. Notes nothing and returns 0 if no slot closes.
fn note_kept(loyal: &Replica, chains: &[Chain], notes: &mut Notes) -> u8
    ensures kept { (log : List AnEntry) → StandsFor loyal.now log → Adds notes.old notes.new
        (if closes loyal.now.shape loyal.now.round
        then map KeptNote (keep loyal.now.shape (closed_slots loyal.now.shape loyal.now.round) (suc loyal.now.shape.f)
        (slot_kept loyal.now.shape log (closed_slots loyal.now.shape loyal.now.round) (suc loyal.now.shape.f)) chains.now)
        else []) }
    ensures count { (log : List AnEntry) → StandsFor loyal.now log → closes loyal.now.shape loyal.now.round ≡ true → notes.new.is_broken ≡ false → result
        ≡ length (keep loyal.now.shape (closed_slots loyal.now.shape loyal.now.round) (suc loyal.now.shape.f)
        (slot_kept loyal.now.shape log (closed_slots loyal.now.shape loyal.now.round) (suc loyal.now.shape.f)) chains.now) }
{
    // For the proof: the round in progress is the number of closed rounds, and which slots are in flight.
    let (_round, _states) = (loyal.round(), loyal.in_flight());
    let Some(state) = closing_slot(loyal) else {
        return 0;
    };
    match after_reading(state, chains) {
        Ok(closing) => note_each(&closing, notes),
        Err(_) => {
            notes.break_off();
            0
        }
    }
}

/// Returns the state of the slot that closes with the round in progress, or `None` if none does.
fn closing_slot(loyal: &Replica) -> Option<&SlotState>
    ensures some { IfSome result (λ state. In state.now loyal.now.slots × (state.now.slot ≡ closed_slots loyal.now.shape loyal.now.round)
        × (closes loyal.now.shape loyal.now.round ≡ true)) }
    ensures none { IfNone result (closes loyal.now.shape loyal.now.round ≡ false) }
{
    let oldest = loyal.in_flight().first()?;
    if oldest.closed_rounds() < oldest.shape().f() {
        return None;
    }
    Some(oldest)
}

/// Notes the chains that are kept for the slot, in their order, and returns how many those are.
fn note_each(state: &SlotState, notes: &mut Notes) -> u8
    ensures kept { Adds notes.old notes.new (map KeptNote state.now.kept) }
    ensures count { result ≡ length state.now.kept }
{
    let (first, second) = state.kept();
    note_one(first, notes);
    note_one(second, notes);
    u8::from(first.is_some()) + u8::from(second.is_some())
}

/// Notes that the chain is kept; does nothing for `None`.
fn note_one(kept: Option<&Kept>, notes: &mut Notes)
    ensures { Adds notes.old notes.new (map KeptNote (option_to_list (option_map (λ k. k.now) kept.entry))) }
{
    if let Some(kept) = kept {
        match kept.try_copy() {
            Ok(kept) => notes.add(Note::Kept(kept)),
            Err(_) => notes.break_off(),
        }
    }
}
