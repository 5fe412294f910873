//! Whose requests a replica proposes next, and to whom it owes a reply. Both depend only on what its seat knows, so a call goes on from the end of the
//! call before it.

ghost use Rattle.std.specs.Prelude.{◌≡◌, ◌↔◌, ◌⊎◌, ◌<◌, ◌≤◌, [], false, length, Some, IsSome, IfSome, IsTrue};
ghost use Rattle.std.specs.Option.{option_map};
ghost use Rattle.dsr_names.specs.declared.actor.Actor.TheVariants.{Replica};
ghost use Rattle.dsr_history.specs.History.{reply};
ghost use Rattle.dsr_envelope.specs.declared.due.Due.TheVariants.{Post as PostTo};
ghost use Rattle.dsr_envelope.specs.declared.envelope.Envelope.TheVariants.{Reply};
ghost use Rattle.dsr_envelope.specs.Log.{due};
ghost use Rattle.dsr_envelope.specs.Pick.{IsClients};
ghost use Rattle.dsr_ledger.specs.declared.reply.Reply.{Reply as AReply};
ghost use Rattle.dsr_replica.specs.Conduct.{reply_to};
ghost use Rattle.dsr_replica.specs.Decided.{decided_requests};
ghost use Rattle.dsr_node.specs.Conduct.{post_of, is_exhausted};
ghost use Rattle.dsr_run.specs.Eager.{is_waiting, last_proposed, next_client, first_in_turn, next_proposed};
ghost use Rattle.dsr_rounds.specs.Eagerness.{IsEagerPick, with_waiting};
ghost use Rattle.dsr_rounds.specs.Replicas.{IsOwed};

use dsr_envelope::{Clients, Envelope, Pick};
use dsr_mail::ReplicaSeat;
use dsr_names::{ClientId, ReplicaId};
use std::marker::Model;

/// The most clients whose requests one slot carries.
const MOST_PICKED: usize = 8;

/// The clients of a replica, in a ring.
#[derive(Drop)]
pub(crate) struct Ring {
    /// The number of clients.
    clients: u8,
}

impl Model for Ring {
    ghost use Rattle.std.specs.Prelude.{ℕ, ◌<◌, ◌≤◌};

    ghost Value = { ℕ };

    ghost view = { λ r. r.clients };

    ghost invariant = { λ r. (0 < r.clients) × (r.clients ≤ 32) };
}

impl Ring {
    /// Makes a ring of `clients` clients, 1 to 32.
    pub(crate) fn of(clients: u8) -> Ring
        requires some { 0 < clients }
        requires few { clients ≤ 32 }
        ensures { result ≡ clients }
    {
        Ring { clients }
    }

    /// Returns whether each client was answered since the last take from it.
    pub(crate) fn is_answered(&self, seat: &ReplicaSeat) -> bool {
        for number in 0..self.clients {
            if let Ok(client) = ClientId::new(number) {
                if seat.is_unanswered(client) {
                    return false;
                }
            }
        }
        true
    }

    /// Returns the choice for the post to replica 0, which must be due. The choice names the first 8 clients in the ring whose pending requests would
    /// act; it is `Plain` if no pending request would act or the replica may not propose these now, for example in another replica's slot. The ring
    /// begins after the client that was proposed last.
    pub(crate) fn proposal(&self, seat: &ReplicaSeat) -> Pick
        requires due { due seat.now.shape seat.now.log ≡ PostTo 0 }
        requires ring { self.now ≡ seat.now.shape.m }
        ensures given { IsSome (post_of seat.now.shape seat.now.log seat.now.actor (Replica 0) result) }
        ensures eager { IsEagerPick seat.now 0 result }
    {
        // For the proof: that it is a replica, whose protocol has a post.
        let _replica = seat.replica();
        let _due = seat.due();
        let Some(clients) = self.waiting(seat).clients() else {
            return Pick::Plain;
        };
        let pick = Pick::From(clients);
        if !is_allowed(seat, &pick) {
            return Pick::Plain;
        }
        pick
    }

    /// Returns the first 8 clients in the ring whose pending requests would act.
    fn waiting(&self, seat: &ReplicaSeat) -> Waiting
        requires ring { self.now ≡ seat.now.shape.m }
        ensures next { result ≡ next_proposed seat.now.shape seat.now.log }
        ensures good { (result ≡ []) ⊎ IsClients result }
    {
        let mut waiting = Waiting::none();
        let mut number = self.first(seat);
        for passed in 0..self.clients {
            waiting.add_if_held(seat, ClientId::of(number));
            number = self.after(number);
        }
        waiting
    }

    /// Returns the number of the first client of the ring: the one after the client that was picked last, or client 0 if none was picked yet.
    fn first(&self, seat: &ReplicaSeat) -> u8
        ensures first { result ≡ first_in_turn self.now (last_proposed seat.now.shape seat.now.log) }
        ensures inside { result < self.now }
    {
        // For the proof: that there is a client.
        let _clients = self.clients;
        match seat.last_picked() {
            Some(last) => self.after(last.number()),
            None => 0,
        }
    }

    /// Returns the number of the next client in the ring.
    fn after(&self, number: u8) -> u8
        ensures next { result ≡ next_client self.now number }
        ensures inside { result < self.now }
        ensures small { self.now ≤ 32 }
    {
        if number < self.clients.saturating_sub(1) {
            number + 1
        } else {
            0
        }
    }
}

/// Some clients, in the order of the ring.
#[derive(Drop)]
struct Waiting {
    list: [ClientId; MOST_PICKED],
    count: usize,
}

impl Model for Waiting {
    ghost use Rattle.std.specs.Prelude.{◌≡◌, ℕ, ◌≤◌, List, length, take};

    ghost Value = { List ℕ };

    ghost view = { λ w. take w.count w.list };

    ghost invariant = { λ w. (length w.list ≡ 8) × (w.count ≤ 8) };
}

impl Waiting {
    /// Makes an empty list.
    fn none() -> Waiting
        ensures { result ≡ [] }
    {
        Waiting {
            list: [ClientId::FIRST; MOST_PICKED],
            count: 0,
        }
    }

    /// Adds the client if its pending request would act and there is room.
    fn add_if_held(&mut self, seat: &ReplicaSeat, client: ClientId)
        ensures added { self.new ≡ with_waiting seat.now.shape seat.now.log client self.old }
        ensures few { length self.new ≤ 8 }
    {
        if self.count < MOST_PICKED && acts(seat, client) {
            self.list[self.count] = client;
            self.count += 1;
        }
    }

    /// Returns the clients, or `None` if the list is empty or names a client twice.
    fn clients(&self) -> Option<Clients>
        ensures some { IfSome result (λ list. list ≡ self.now) }
        ensures when { IsSome result ↔ IsClients self.now }
    {
        Clients::of(&self.list[..self.count])
    }
}

/// Returns whether the replica owes the client a reply: it has not answered the client since the last take from it, and the client's pending request
/// is the one that the reply is for.
pub(crate) fn owes(seat: &ReplicaSeat, client: ClientId) -> bool
    ensures owed { IsTrue result ↔ IsOwed seat.now.shape seat.now.log client }
    ensures reply { IsTrue result → IsSome (reply_to seat.now.shape seat.now.log client) }
{
    if !seat.is_unanswered(client) {
        return false;
    }
    match (seat.held(client), replied_number(seat, client)) {
        (Some(held), Some(number)) => held.number() == number,
        _ => false,
    }
}

/// Returns whether the client's pending request would act: its number is above that of the client's last request that acted.
fn acts(seat: &ReplicaSeat, client: ClientId) -> bool
    ensures { result ≡ is_waiting seat.now.shape seat.now.log client }
{
    match (seat.held(client), replied_number(seat, client)) {
        (Some(held), Some(number)) => held.number() > number,
        (Some(_), None) => true,
        (None, _) => false,
    }
}

/// Returns the number of the client's last request that acted, or `None` if none acted yet.
fn replied_number(seat: &ReplicaSeat, client: ClientId) -> Option<u64>
    ensures last { result ≡ option_map (λ (r : AReply). r.number) (reply (decided_requests seat.now.shape seat.now.log) client) }
    ensures some { IsSome result → IsSome (reply_to seat.now.shape seat.now.log client) }
    ensures number { IfSome result (λ number. (reply : AReply) × (reply_to seat.now.shape seat.now.log client ≡ Some (Reply reply))
        × (reply.number ≡ number)) }
{
    match seat.reply_for(client) {
        Some(Envelope::Reply(reply)) => Some(reply.number),
        _ => None,
    }
}

/// Returns whether the replica may post to replica 0 by this choice, for which fewer than 2^36 rounds must be closed.
fn is_allowed(seat: &ReplicaSeat, pick: &Pick) -> bool
    ensures { IsTrue result ↔ (IsSome (post_of seat.now.shape seat.now.log seat.now.actor (Replica 0) pick.now)
        × (is_exhausted seat.now.shape seat.now.log seat.now.actor (Replica 0) pick.now ≡ false)) }
{
    // For the proof: that it is a replica.
    let _replica = seat.replica();
    seat.allows(ReplicaId::FIRST, *pick)
}
