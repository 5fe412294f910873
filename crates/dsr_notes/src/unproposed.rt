//! What a loyal replica could propose, and does not.

ghost use Rattle.std.specs.Prelude.{◌≡◌, ◌↔◌, [], false, List, Any, IsTrue, IfSome, IfNone};
ghost use Rattle.dsr_names.specs.declared.actor.Actor.TheVariants.{Replica as ReplicaNumber};
ghost use Rattle.dsr_request.specs.Request.{Request as ARequest};
ghost use Rattle.dsr_history.specs.History.{reply};
ghost use Rattle.dsr_chain.specs.Content.{signed_in};
ghost use Rattle.dsr_envelope.specs.Log.{rounds};
ghost use Rattle.dsr_envelope.specs.declared.entry.Entry.{Entry};
ghost use Rattle.dsr_envelope.specs.declared.pick.Pick.TheVariants.{Plain};
ghost use Rattle.dsr_play.specs.declared.event.Event.TheVariants.{Post};
ghost use Rattle.dsr_replica.specs.Decided.{decided_requests};
ghost use Rattle.dsr_replica.specs.Replica.{StandsFor};
ghost use Rattle.dsr_notes.specs.Noting.{Adds};
ghost use Rattle.dsr_notes.specs.Support.Rest.{Foretells};
ghost use Rattle.dsr_notes.specs.Unproposed.{has_passed, IsKept, IsWaiting, IsNoteOf, AreWaiting};
ghost use Rattle.dsr_notes.specs.declared.note.Note.{Note as ANote};
ghost use Rattle.dsr_notes.specs.declared.rest.Rest.TheVariants.{Nothing};

use crate::note::Note;
use crate::notes::Notes;
use dsr_chain::SignedRequest;
use dsr_envelope::{Envelope, Pick};
use dsr_names::{ClientId, ReplicaId};
use dsr_play::Choice;
use dsr_replica::Replica;
use dsr_request::Request;
use dsr_slot::{Kept, SlotState};
use dsr_world::Stage;

/// Notes which requests a replica could propose with its post by this choice, if it is loyal, the slot that begins is its own, and it chooses to
/// propose nothing.
pub(crate) fn note_unproposed(
    stage: &Stage,
    replica: ReplicaId,
    to: ReplicaId,
    pick: &Choice,
    notes: &mut Notes,
)
    requires { notes.old.items ≡ [] }
    ensures { Foretells stage.now.shape stage.now.run (Post (ReplicaNumber replica) (ReplicaNumber to) pick.now) notes.new Nothing }
{
    if !proposes_nothing(to, pick) {
        return;
    }
    let Ok(loyal) = stage.replica(replica) else {
        return;
    };
    let slot = loyal.round();
    if loyal.shape().sender(slot) == replica {
        note_waiting(loyal, slot, notes);
    }
}

/// Tells whether a loyal replica's post to this replica by this choice proposes nothing in the slot that begins: it is the post to replica 0, and plain.
fn proposes_nothing(to: ReplicaId, pick: &Choice) -> bool
    ensures { IsTrue result ↔ (to ≡ 0) × (pick.now ≡ Plain) }
{
    match pick.pick() {
        Pick::Plain => to.number() == 0,
        Pick::From(_) | Pick::Begin(_) => false,
    }
}

/// Notes the waiting requests of all clients, in the clients' order. Requires the slot that begins with the round.
fn note_waiting(loyal: &Replica, slot: u64, notes: &mut Notes)
    requires { (log : List Entry) → StandsFor loyal.now log → rounds loyal.now.shape log ≡ slot }
    ensures { (log : List Entry) → StandsFor loyal.now log
        → (waiting : List ANote) × AreWaiting loyal.now.shape log loyal.now.shape.m waiting × Adds notes.old notes.new waiting }
{
    for number in 0..loyal.shape().m() {
        note_client(loyal, slot, ClientId::of(number), notes);
    }
}

/// Notes the client's request that waits, if one does. Requires what `note_waiting` requires.
fn note_client(loyal: &Replica, slot: u64, client: ClientId, notes: &mut Notes)
    requires { (log : List Entry) → StandsFor loyal.now log → rounds loyal.now.shape log ≡ slot }
    ensures { (log : List Entry) → StandsFor loyal.now log
        → (waiting : List ANote) × IsNoteOf loyal.now.shape log client waiting × Adds notes.old notes.new waiting }
{
    if let Some(request) = waiting_of(loyal, client) {
        notes.add(Note::Unproposed { slot, request });
    }
}

/// Returns the client's request that the replica holds. `None` if the replica holds none, or if the request, or a later one of the client, acted there, or
/// if the request is in a chain that the replica keeps.
fn waiting_of(loyal: &Replica, client: ClientId) -> Option<Request>
    ensures some { (log : List Entry) → StandsFor loyal.now log → IfSome result (λ request. IsWaiting loyal.now.shape log client request) }
    ensures none { (log : List Entry) → StandsFor loyal.now log
        → IfNone result ((request : ARequest) → ¬ IsWaiting loyal.now.shape log client request) }
{
    let request = loyal.held(client)?;
    if has_passed(loyal, client, request.number()) || is_kept(loyal, &request) {
        None
    } else {
        Some(request)
    }
}

/// Tells whether a request of the client with this or a greater number acted at the replica.
fn has_passed(loyal: &Replica, client: ClientId, number: u64) -> bool
    ensures { (log : List Entry) → StandsFor loyal.now log → result ≡ has_passed (reply (decided_requests loyal.now.shape log) client) number }
{
    match loyal.reply_for(client) {
        Some(Envelope::Reply(reply)) => reply.number >= number,
        _ => false,
    }
}

/// Tells whether the replica keeps a chain with the request for a slot in flight.
fn is_kept(loyal: &Replica, request: &Request) -> bool
    ensures { (log : List Entry) → StandsFor loyal.now log → IsTrue result ↔ IsKept loyal.now.shape log request.now }
{
    // For the proof: the round of its log.
    let _round = loyal.round();
    one_keeps(loyal.in_flight(), request)
}

/// Tells whether a chain with the request is kept for one of these slots.
fn one_keeps(states: &[SlotState], request: &Request) -> bool
    ensures { IsTrue result
        ↔ Any (λ state. Any (λ kept. Any (λ ask. ask.request ≡ request.now) (signed_in kept.chain.value)) state.kept) states.now }
{
    states.iter().any(|state| keeps(state, request))
}

/// Tells whether a chain with the request is kept for the slot.
fn keeps(state: &SlotState, request: &Request) -> bool
    ensures { IsTrue result ↔ Any (λ kept. Any (λ ask. ask.request ≡ request.now) (signed_in kept.chain.value)) state.now.kept }
{
    let (first, second) = state.kept();
    is_in(first, request) || is_in(second, request)
}

/// Tells whether there is a chain and it has the request.
fn is_in(kept: Option<&Kept>, request: &Request) -> bool
    ensures some { IfSome kept.entry (λ k. IsTrue result ↔ Any (λ ask. ask.request ≡ request.now) (signed_in k.now.chain.value)) }
    ensures none { IfNone kept.entry (result ≡ false) }
{
    match kept {
        Some(kept) => has(kept.chain.signed(), request),
        None => false,
    }
}

/// Tells whether the request is one of these.
fn has(asks: &[SignedRequest], request: &Request) -> bool
    ensures { IsTrue result ↔ Any (λ ask. ask.request ≡ request.now) asks.now }
{
    asks.iter().any(|ask| ask.request == *request)
}
