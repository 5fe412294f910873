//! What a loyal replica decides when it closes a round, found after the take that closes it.

ghost use Rattle.std.specs.Prelude.{◌≡◌, ◌<◌, ◌++◌, ◌∷◌, List, length, map, reverse, IsTrue};
ghost use Rattle.dsr_names.specs.declared.actor.Actor.TheVariants.{Replica as ReplicaNumber};
ghost use Rattle.dsr_request.specs.Request.{Request as ARequest};
ghost use Rattle.dsr_history.specs.History.{acting, requests_of, rises_above};
ghost use Rattle.dsr_chain.specs.Content.{requests_in};
ghost use Rattle.dsr_chain.specs.declared.slot_value.SlotValue.{SlotValue};
ghost use Rattle.dsr_run.specs.Step.{log_of};
ghost use Rattle.dsr_notes.specs.Closing.{outcomes};
ghost use Rattle.dsr_notes.specs.Noting.{Adds};
ghost use Rattle.dsr_notes.specs.Support.Rest.{HasClosed, closing_notes};
ghost use Rattle.dsr_notes.specs.declared.note.Note.TheVariants.{Decided as DecidedNote};

use crate::note::Note;
use crate::notes::Notes;
use dsr_names::ReplicaId;
use dsr_replica::Replica;
use dsr_request::Request;
use dsr_slot::Decision;
use dsr_world::Stage;

/// The round that a loyal replica closes with a take, as it is known before the take.
#[derive(Clone, Copy)]
pub(crate) struct Closing {
    pub(crate) replica: ReplicaId,
    pub(crate) round: u64,
    /// How many chains the replica will have kept for the slot that closes with the round; 0 if none does.
    pub(crate) kept: u8,
    /// How many requests have acted.
    pub(crate) acted: usize,
}

/// Notes the round, which was just closed, and, if a slot closed with it, what the replica decided and which of the requests acted.
pub(crate) fn note_closing(stage: &Stage, closing: &Closing, notes: &mut Notes)
    requires { HasClosed stage.now.shape (log_of stage.now.run) closing.now }
    ensures { Adds notes.old notes.new (closing_notes stage.now.shape (log_of stage.now.run (ReplicaNumber closing.now.replica)) closing.now) }
{
    let Ok(loyal) = stage.replica(closing.replica) else {
        unreachable!()
    };
    notes.add(Note::Closed {
        round: closing.round,
    });
    // Once a slot has closed, one closes with every round.
    if let Some(decision) = loyal.decided().last() {
        note_decision(loyal, decision, closing, notes);
    }
}

/// Notes the replica's last decision, and which of the requests acted, if as many acted before as `closing` says.
fn note_decision(loyal: &Replica, decision: &Decision, closing: &Closing, notes: &mut Notes)
    ensures { (older : List SlotValue) → loyal.now.values ≡ decision.now ∷ older
        → closing.now.acted ≡ length (acting (requests_of (map requests_in older)))
        → Adds notes.old notes.new (DecidedNote (length older) closing.now.kept
        ∷ outcomes (length older) (requests_of (map requests_in older)) (requests_in decision.now)) }
{
    let slot = loyal.decided().len().saturating_sub(1) as u64;
    notes.add(Note::Decided {
        slot,
        kept: closing.kept,
    });
    if let Some(requests) = decision.content() {
        note_outcomes(
            slot,
            requests.as_slice(),
            loyal.history(),
            closing.acted,
            notes,
        );
    }
}

/// Notes for each of these requests, which were decided for the slot, whether it acted, if this many acted before. Those that acted are the last in the
/// history, in their order.
fn note_outcomes(
    slot: u64,
    requests: &[Request],
    history: &[Request],
    acted: usize,
    notes: &mut Notes,
)
    ensures { (older : List ARequest) → acted ≡ length (acting older) → history.now ≡ reverse (acting (reverse requests.now ++ older))
        → Adds notes.old notes.new (outcomes slot older requests.now) }
{
    let mut place = acted;
    for request in requests {
        if is_next(history, place, request) {
            notes.add(Note::Acted {
                slot,
                place: place as u64,
                request: *request,
            });
            place += 1;
        } else {
            notes.add(Note::Stale {
                slot,
                request: *request,
            });
        }
    }
}

/// Tells whether the request acted, if this many acted before: it is at that place of the history. A request that did not act is not there, because what
/// acted next is of another client or has a greater number.
fn is_next(history: &[Request], place: usize, request: &Request) -> bool
    ensures acted { (newer older : List ARequest) → place ≡ length (acting older)
        → history.now ≡ reverse (acting (newer ++ request.now ∷ older)) → result ≡ rises_above request.now older }
    ensures within { IsTrue result → place < length history.now }
{
    place < history.len() && history[place] == *request
}
