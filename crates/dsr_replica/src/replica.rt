ghost use Rattle.std.specs.Prelude.{◌≡◌, ℕ, suc, ◌+◌, ◌<◌, ◌≤◌, ◌^◌, ◌↔◌, ◌∷◌, [], List, Some, All, length, map, reverse, OnOk, IsOk, IfOk, IsSome, IsTrue, IsOkUnless, None, Err, IfErr, IfSome, IsNone, ◌⊎◌, false};
ghost use Rattle.std.specs.Option.{option_map};
ghost use Rattle.dsr_names.specs.Shape.{Shape, IsActor};
ghost use Rattle.dsr_names.specs.Support.ActorEquality.{actor_eq};
ghost use Rattle.dsr_base.specs.Member.{In};
ghost use Rattle.dsr_chain.specs.Proper.{sender_of};
ghost use Rattle.dsr_chain.specs.Content.{requests_in};
ghost use Rattle.dsr_chain.specs.Content.{value_of as value_with};
ghost use Rattle.dsr_chain.specs.declared.slot_value.SlotValue.{SlotValue};
ghost use Rattle.dsr_history.specs.History.{acted};
ghost use Rattle.dsr_rotation.specs.Calendar.{closed_slots};
ghost use Rattle.dsr_names.specs.declared.actor.Actor.TheVariants.{Replica as ReplicaNumber, Client as ClientNumber};
ghost use Rattle.dsr_envelope.specs.declared.entry.Entry.{Entry};
ghost use Rattle.dsr_envelope.specs.declared.entry.Entry.TheVariants.{Post, Take};
ghost use Rattle.dsr_envelope.specs.declared.due.Due.TheVariants.{Post as PostTo, Take as TakeFrom};
ghost use Rattle.dsr_envelope.specs.declared.pick.Pick.TheVariants.{From};
ghost use Rattle.dsr_envelope.specs.declared.envelope.Envelope.{Envelope};
ghost use Rattle.dsr_replica.specs.Conduct.{envelope_to, is_due, reply_to};
ghost use Rattle.dsr_replica.specs.Decided.{decided_values, decided_requests, slot_read};
ghost use Rattle.dsr_slot.specs.SlotState.{SlotState as SlotStateOf, HasRead};
ghost use Rattle.dsr_envelope.specs.Envelope.{chains_for, round_envelope};
ghost use Rattle.dsr_replica.specs.Held.{held};
ghost use Rattle.dsr_envelope.specs.Log.{due, rounds};
ghost use Rattle.dsr_envelope.specs.Pick.{IsPick};
ghost use Rattle.dsr_replica.specs.Replica.{AreInFlight, Replica, HasRoom, StandsFor, ask_of, value_of, value_for, Allows, IsPostRefusal};
ghost use Rattle.dsr_replica.specs.Support.Flights.{with_chains, posts_of};
ghost use Rattle.dsr_replica.specs.Support.Decisions.{HasRoom as HasPlaces};
ghost use Rattle.dsr_replica.specs.Support.ReplicaFields.{with_envelope, with_decided, next_round, after_post_to, IsAfterTake};

use crate::decided::Decisions;
use crate::flights::Flights;
use crate::held::Asks;
use crate::proposal::Proposal;
use dsr_chain::{Chain, SignedRequest};
use dsr_desk::Key;
use dsr_envelope::{Chains, Clients, Due, Envelope, Pick};
use dsr_names::{Actor, ClientId, Refusal, ReplicaId, Shape};
use dsr_request::Request;
use dsr_slot::{Decision, SlotState};
use std::alloc::Global;
use std::marker::Model;

/// The first round that is never begun.
const ROUND_END: u64 = 1 << 36;

/// A loyal replica, over its log of what it posted and took. It stores no log: contracts say which log it represents.
#[derive(Drop)]
pub struct Replica {
    key: Key,
    due: Due,
    flights: Flights,
    decisions: Decisions,
    proposed: Proposal,
    asks: Asks,
}

impl Model for Replica {
    ghost use Rattle.dsr_replica.specs.Replica.{Replica};
    ghost use Rattle.dsr_replica.specs.Support.ReplicaFields.{IsReplicaFields, replica_of};

    ghost Value = { Replica };

    ghost view = { replica_of };

    ghost invariant = { IsReplicaFields };
}

impl Replica {
    /// Creates the replica that holds this key, with an empty log. Requires that the key's holder is an actor of the shape; the
    /// law about the chains that it posts requires a replica. `NoMemory` if memory runs out: then the key is dropped.
    pub fn new(alloc: Global, key: Key, shape: &Shape) -> Result<Replica, Refusal>
        requires { IsActor shape.now key }
        ensures stands { IfOk result (λ replica. StandsFor replica []) }
        ensures me { IfOk result (λ replica. replica.me ≡ key) }
        ensures shape { IfOk result (λ replica. replica.shape ≡ shape.now) }
        ensures refusal { IsOkUnless result Refusal.NoMemory }
    {
        // For the proof: the limits of the shape.
        let _n = shape.n();
        let flights = Flights::new(alloc, shape)?;
        let decisions = Decisions::new(alloc, shape)?;
        let proposed = Proposal::idle(alloc)?;
        let asks = Asks::new(alloc, shape)?;
        Ok(Replica {
            key,
            due: Due::Post(ReplicaId::FIRST),
            flights,
            decisions,
            proposed,
            asks,
        })
    }

    /// Returns the shape.
    pub fn shape(&self) -> Shape
        ensures { result ≡ self.now.shape }
    {
        self.flights.shape()
    }

    /// Returns what it does next with the replicas.
    pub fn due(&self) -> Due
        ensures same { result ≡ self.now.next }
        ensures stands { (log : List Entry) → StandsFor self.now log → result ≡ due self.now.shape log }
        ensures round { (log : List Entry) → StandsFor self.now log → rounds self.now.shape log ≡ self.now.round }
        ensures most { self.now.round ≤ 2 ^ 36 }
    {
        self.due
    }

    /// Returns the round in progress: the number of rounds that it closed, at most 2^36.
    pub fn round(&self) -> u64
        ensures same { result ≡ self.now.round }
        ensures stands { (log : List Entry) → StandsFor self.now log → result ≡ rounds self.now.shape log }
        ensures most { result ≤ 2 ^ 36 }
    {
        self.flights.round()
    }

    /// Returns the slots in flight in the round in progress, by their numbers: from the first that is not closed to the one
    /// that begins with this round, so at most f+1. Each has closed its earlier rounds, and has read what came in them and
    /// in this round so far.
    pub fn in_flight(&self) -> &[SlotState]
        ensures same { result.now ≡ self.now.slots }
        ensures slots { AreInFlight self.now.shape self.now.round result.now (closed_slots self.now.shape self.now.round) }
        ensures stands { (log : List Entry) (state : SlotStateOf) → StandsFor self.now log → In state result.now
            → HasRead state (slot_read state.shape log state.slot) }
    {
        self.flights.slots()
    }

    /// Returns whether it may post to this replica by this choice: the post is due, the choice gives an envelope, and the round
    /// is below 2^36.
    pub fn allows(&self, to: ReplicaId, pick: Pick) -> bool
        ensures allowed { IsTrue result ↔ Allows self.now to pick }
        ensures stands { (log : List Entry) → StandsFor self.now log
            → IsTrue result ↔ (IsSome (envelope_to self.now.shape self.now.me log to pick) × (rounds self.now.shape log < 2 ^ 36)) }
        ensures pick { IsPick pick }
    {
        look_at(&pick);
        self.is_allowed(to, pick)
    }

    /// Makes the envelope for the post to replica `to` by this choice. `NotDue` exactly if the post is not due or the choice is not
    /// allowed there. Else `Exhausted` exactly in round 2^36; else `NoMemory` if memory runs out or one more handle is refused.
    pub fn envelope_for(
        &self,
        alloc: Global,
        to: ReplicaId,
        pick: Pick,
    ) -> Result<Envelope, Refusal>
        ensures given { (log : List Entry) → StandsFor self.now log
            → IfOk result (λ envelope. envelope_to self.now.shape self.now.me log to pick ≡ Some envelope) }
        ensures not_due { (log : List Entry) → StandsFor self.now log
            → (result ≡ Err Refusal.NotDue) ↔ (envelope_to self.now.shape self.now.me log to pick ≡ None) }
        ensures exhausted { (log : List Entry) → StandsFor self.now log → (result ≡ Err Refusal.Exhausted)
            ↔ (IsSome (envelope_to self.now.shape self.now.me log to pick) × (rounds self.now.shape log ≡ 2 ^ 36)) }
        ensures refusal { IfErr result IsPostRefusal }
        ensures pick { IsPick pick }
    {
        look_at(&pick);
        if !self.has_value(to, pick) {
            return Err(Refusal::NotDue);
        }
        if self.flights.round() >= ROUND_END {
            return Err(Refusal::Exhausted);
        }
        self.chosen(alloc, to, pick)
    }

    /// Returns the refusal of a post to replica `to` by this choice, or `None` if the post is allowed: `NotDue` exactly if the
    /// post is not due or the choice is not allowed there; else `Exhausted` exactly in round 2^36. Allocates nothing.
    pub fn refusal(&self, to: ReplicaId, pick: Pick) -> Option<Refusal>
        ensures not_due { (log : List Entry) → StandsFor self.now log
            → (result ≡ Some Refusal.NotDue) ↔ (envelope_to self.now.shape self.now.me log to pick ≡ None) }
        ensures exhausted { (log : List Entry) → StandsFor self.now log → (result ≡ Some Refusal.Exhausted)
            ↔ (IsSome (envelope_to self.now.shape self.now.me log to pick) × (rounds self.now.shape log ≡ 2 ^ 36)) }
        ensures none { IsNone result ↔ Allows self.now to pick }
        ensures refusal { IfSome result (λ e. (e ≡ Refusal.NotDue) ⊎ (e ≡ Refusal.Exhausted)) }
        ensures pick { IsPick pick }
    {
        look_at(&pick);
        if !self.has_value(to, pick) {
            return Some(Refusal::NotDue);
        }
        if self.flights.round() >= ROUND_END {
            return Some(Refusal::Exhausted);
        }
        None
    }

    /// Notes the post to this replica by this choice. Requires that it is allowed.
    #[inline(always)]
    pub fn posted(&mut self, to: ReplicaId, pick: Pick)
        requires { Allows self.old to pick }
        ensures stands { (log : List Entry) (envelope : Envelope) → StandsFor self.old log
            → envelope_to self.old.shape self.old.me log to pick ≡ Some envelope → StandsFor self.new (Post (ReplicaNumber to) envelope ∷ log) }
        ensures room { HasRoom self.old → HasRoom self.new }
        ensures me { self.new.me ≡ self.old.me }
        ensures shape { self.new.shape ≡ self.old.shape }
    {
        self.post(to, pick);
    }

    /// Makes room for what the next take may decide. `NoMemory` if it is refused: then nothing changes, except that there may
    /// be more room. It is not refused if there is room already.
    pub fn room(&mut self) -> Result<(), Refusal>
        ensures ok { OnOk result (HasRoom self.new) }
        ensures has { HasRoom self.old → IsOk result }
        ensures refusal { IsOkUnless result Refusal.NoMemory }
        ensures same { self.new ≡ record self.old { requests = self.new.requests; places = self.new.places } }
        ensures stands { (log : List Entry) → StandsFor self.old log → StandsFor self.new log }
        ensures no_less { HasRoom self.old → HasRoom self.new }
    {
        self.decisions.room()
    }

    /// Returns whether there is room for what the next take may decide.
    pub fn has_room(&self) -> bool
        ensures { IsTrue result ↔ HasRoom self.now }
    {
        self.decisions.has_room()
    }

    /// Returns the decisions of the closed slots, by their numbers.
    pub fn decided(&self) -> &[Decision]
        ensures same { result.now ≡ reverse self.now.values }
        ensures stands { (log : List Entry) → StandsFor self.now log → result.now ≡ reverse (decided_values self.now.shape log) }
    {
        self.decisions.list()
    }

    /// Returns the requests that acted, in their order.
    pub fn history(&self) -> &[Request]
        ensures same { result.now ≡ reverse (acted (map requests_in self.now.values)) }
        ensures stands { (log : List Entry) → StandsFor self.now log → result.now ≡ reverse (acted (decided_requests self.now.shape log)) }
    {
        self.decisions.history()
    }

    /// Returns the envelope with the reply to the client's last request that acted, or `None` if none did. It may be posted to
    /// the client at any time; that changes nothing in the replica.
    pub fn reply_for(&self, client: ClientId) -> Option<Envelope>
        ensures stands { (log : List Entry) → StandsFor self.now log → result ≡ reply_to self.now.shape log client }
        ensures posted { (log : List Entry) (envelope : Envelope) → StandsFor self.now log
            → result ≡ Some envelope → StandsFor self.now (Post (ClientNumber client) envelope ∷ log) }
    {
        self.decisions.kept(client).map(Envelope::Reply)
    }

    /// Takes the envelope from this replica. The last take of a round closes it. Allocates nothing. Requires that the take is
    /// due, and room for what it may decide. An envelope of another kind or round counts as no chains.
    pub fn taken(&mut self, from: ReplicaId, envelope: Envelope)
        requires due { self.old.next ≡ TakeFrom from }
        requires room { HasRoom self.old }
        ensures stands { (log : List Entry) → StandsFor self.old log → StandsFor self.new (Take (ReplicaNumber from) envelope ∷ log) }
        ensures me { self.new.me ≡ self.old.me }
        ensures shape { self.new.shape ≡ self.old.shape }
    {
        self.read(envelope);
        self.go_on_after(from);
    }

    /// Takes the envelope from this replica if none of its chains would be kept, and returns true. Otherwise changes nothing and
    /// returns false, and `taken` takes it. So most envelopes need no copy. Allocates nothing. Requires what `taken` requires.
    #[inline(always)]
    pub fn passed_over(&mut self, from: ReplicaId, envelope: &Envelope) -> bool
        requires due { self.old.next ≡ TakeFrom from }
        requires room { HasRoom self.old }
        ensures stands { IsTrue result → (log : List Entry) → StandsFor self.old log
            → StandsFor self.new (Take (ReplicaNumber from) envelope.now ∷ log) }
        ensures same { result ≡ false → self.new ≡ self.old }
        ensures me { self.new.me ≡ self.old.me }
        ensures shape { self.new.shape ≡ self.old.shape }
    {
        if self.would_keep(envelope) {
            return false;
        }
        self.go_on_after(from);
        true
    }

    /// Takes the envelope from this client. Allocates nothing. Requires that the client is one of the shape. An ask is dropped
    /// if the client did not sign it as its own, or if an ask with a greater number is held.
    pub fn ask_taken(&mut self, client: ClientId, envelope: Envelope)
        requires { client < self.old.shape.m }
        ensures stands { (log : List Entry) → StandsFor self.old log → StandsFor self.new (Take (ClientNumber client) envelope ∷ log) }
        ensures rest { self.new ≡ record self.old { asks = self.new.asks } }
    {
        let shape = self.flights.shape();
        self.asks.take(&shape, client, envelope);
    }

    /// Returns the request that is held for this client.
    pub fn held(&self, client: ClientId) -> Option<Request>
        ensures same { result ≡ option_map (λ ask. ask.request) (ask_of self.now.asks client) }
        ensures stands { (log : List Entry) → StandsFor self.now log → result ≡ option_map (λ ask. ask.request) (held self.now.shape client log) }
    {
        match self.asks.get(client) {
            Some(ask) => Some(ask.request),
            None => None,
        }
    }

    /// Makes the envelope of the round in progress by this choice. Requires that the choice is allowed.
    fn chosen(&self, alloc: Global, to: ReplicaId, pick: Pick) -> Result<Envelope, Refusal>
        requires { IsSome (value_for self.now to pick) }
        ensures made { (value : SlotValue) → value_for self.now to pick ≡ Some value
            → IfOk result (λ envelope. envelope ≡ round_envelope self.now.round (posts_of self.now.me value self.now.slots)) }
        ensures refusal { IsOkUnless result Refusal.NoMemory }
        ensures in_flight { AreInFlight self.now.shape self.now.round self.now.slots (closed_slots self.now.shape self.now.round) }
    {
        if to.number() > 0 {
            return self.made(alloc, self.proposed.signed());
        }
        match pick {
            Pick::From(clients) => self.made_from(alloc, clients),
            Pick::Plain | Pick::Begin(_) => self.made(alloc, &[]),
        }
    }

    /// Makes the envelope of the round in progress that proposes the asks held for these clients. Requires that the
    /// choice is allowed.
    fn made_from(&self, alloc: Global, clients: Clients) -> Result<Envelope, Refusal>
        requires { IsSome (value_of self.now (From clients)) }
        ensures made { (value : SlotValue) → value_of self.now (From clients) ≡ Some value
            → IfOk result (λ envelope. envelope ≡ round_envelope self.now.round (posts_of self.now.me value self.now.slots)) }
        ensures refusal { IsOkUnless result Refusal.NoMemory }
        ensures in_flight { AreInFlight self.now.shape self.now.round self.now.slots (closed_slots self.now.shape self.now.round) }
    {
        // from here on the prover knows that the slots are in flight
        let _round = self.flights.round();
        let clients = clients.as_slice();
        let mut asks = Vec::with_capacity(alloc, clients.len())?;
        self.asks.add_to(clients, &mut asks);
        self.made(alloc, asks.as_slice())
    }

    /// Makes the envelope of the round in progress, with the chains that are posted if the value with these signed
    /// requests is proposed.
    fn made(&self, alloc: Global, signed: &[SignedRequest]) -> Result<Envelope, Refusal>
        requires { length signed.now ≤ 8 }
        ensures made { IfOk result (λ envelope. envelope
            ≡ round_envelope self.now.round (posts_of self.now.me (value_with signed.now) self.now.slots)) }
        ensures refusal { IsOkUnless result Refusal.NoMemory }
        ensures in_flight { AreInFlight self.now.shape self.now.round self.now.slots (closed_slots self.now.shape self.now.round) }
    {
        let round = self.flights.round();
        let chains = self.flights.posts(alloc, &self.key, signed)?;
        Ok(envelope_of(round, chains))
    }

    /// Returns whether the post is due, the choice allowed, and the round below 2^36. It is apart from `allows`, because the
    /// proof of `stands` there builds on this contract.
    fn is_allowed(&self, to: ReplicaId, pick: Pick) -> bool
        ensures { IsTrue result ↔ Allows self.now to pick }
    {
        self.has_value(to, pick) && self.flights.round() < ROUND_END
    }

    /// Returns whether the post to this replica is due, and the choice allowed there.
    fn has_value(&self, to: ReplicaId, pick: Pick) -> bool
        ensures { IsTrue result ↔ IsSome (value_for self.now to pick) }
    {
        if !is_due(self.due, to) {
            return false;
        }
        match pick {
            Pick::Plain => true,
            Pick::From(clients) => to.number() == 0 && self.may_propose(clients),
            Pick::Begin(_) => false,
        }
    }

    /// Returns whether the replica is the sender of the slot that begins with the round, and holds an ask for each of these clients.
    fn may_propose(&self, clients: Clients) -> bool
        ensures { IsTrue result ↔ IsSome (value_of self.now (From clients)) }
    {
        self.is_sender() && self.asks.has_each(clients.as_slice())
    }

    /// Returns whether the replica is the sender of the slot that begins with the round.
    fn is_sender(&self) -> bool
        ensures { result ≡ actor_eq self.now.me (sender_of self.now.shape self.now.round) }
    {
        let sender = Actor::Replica(self.flights.shape().sender(self.flights.round()));
        self.key.signer() == sender
    }

    /// Notes the post to this replica by this choice. Requires that it is allowed. It is apart from `posted`, because the proof of
    /// `stands` there builds on this contract.
    #[inline(always)]
    fn post(&mut self, to: ReplicaId, pick: Pick)
        requires { Allows self.old to pick }
        ensures { (value : SlotValue) → value_for self.old to pick ≡ Some value
            → self.new ≡ record self.old { next = after_post_to self.old.shape.n to; proposed = value } }
    {
        if to.number() == 0 {
            self.propose(pick);
        }
        self.due = due_after(to, self.flights.shape().n());
    }

    /// Proposes what the choice proposes at the post to replica 0. Requires that it is allowed there.
    fn propose(&mut self, pick: Pick)
        requires { IsSome (value_of self.old pick) }
        ensures { (value : SlotValue) → value_of self.old pick ≡ Some value → self.new ≡ record self.old { proposed = value } }
    {
        match pick {
            Pick::From(clients) => self.proposed.propose(&self.asks, clients.as_slice()),
            Pick::Plain | Pick::Begin(_) => self.proposed.clear(),
        }
    }

    /// Makes the take from this replica due. Requires that it is one of the shape, and that the round is below 2^36.
    fn take_next_from(&mut self, number: u8)
        requires inside { number < self.old.shape.n }
        requires below { self.old.round < 2 ^ 36 }
        ensures { self.new ≡ record self.old { next = TakeFrom number } }
    {
        // For the proof: n is at most 16.
        let _n = self.flights.shape().n();
        self.due = Due::Take(replica_of(number));
    }

    /// Makes due what follows the take from this replica, and closes the round after the last one. Requires that this
    /// take is due, and room for what it may decide.
    #[inline(always)]
    fn go_on_after(&mut self, from: ReplicaId)
        requires due { self.old.next ≡ TakeFrom from }
        requires room { HasRoom self.old }
        ensures after { IsAfterTake self.old from self.new }
        ensures me { self.new.me ≡ self.old.me }
        ensures shape { self.new.shape ≡ self.old.shape }
    {
        let next = from.number() + 1;
        if next < self.flights.shape().n() {
            self.take_next_from(next);
        } else {
            self.close();
        }
    }

    /// Returns whether one of the envelope's chains would be kept if it were read in the round in progress.
    fn would_keep(&self, envelope: &Envelope) -> bool
        ensures nothing { result ≡ false → with_envelope self.now envelope.now ≡ self.now }
        ensures in_flight { AreInFlight self.now.shape self.now.round self.now.slots (closed_slots self.now.shape self.now.round) }
    {
        keeps_one(&self.flights, envelope)
    }

    /// Reads the envelope in the round in progress.
    fn read(&mut self, envelope: Envelope)
        ensures read { self.new ≡ with_envelope self.old envelope }
        ensures in_flight { AreInFlight self.old.shape self.old.round self.old.slots (closed_slots self.old.shape self.old.round) }
    {
        read_envelope(&mut self.flights, envelope);
    }

    /// Closes the round in progress. Requires room for what it decides, and that the round is below 2^36.
    fn close(&mut self)
        requires room { HasRoom self.old }
        requires below { self.old.round < 2 ^ 36 }
        ensures { self.new ≡ record (next_round self.old) { requests = self.new.requests; places = self.new.places } }
    {
        let decision = self.flights.close();
        add_decided(&mut self.decisions, decision);
        self.due = Due::Post(ReplicaId::FIRST);
    }
}

/// Makes the envelope of a round with these chains; an empty list gives the empty envelope.
fn envelope_of(round: u64, chains: Vec<Chain>) -> Envelope
    ensures { result ≡ round_envelope round chains.items }
{
    if chains.is_empty() {
        return Envelope::Empty;
    }
    Envelope::Round {
        round,
        chains: Chains::of(chains),
    }
}

/// Shows the prover that the clients of a choice are 1 to 8 different ones; does nothing else.
fn look_at(pick: &Pick)
    ensures { IsPick pick.now }
{
    match pick {
        Pick::From(clients) => {
            let _clients = clients.as_slice();
        }
        Pick::Plain | Pick::Begin(_) => {}
    }
}

/// Returns whether the post to this replica is due.
fn is_due(due: Due, to: ReplicaId) -> bool
    ensures { result ≡ is_due due to }
{
    match due {
        Due::Post(next) => next == to,
        Due::Take(_) => false,
    }
}

/// Returns what is due after a post to this replica, one of n.
fn due_after(to: ReplicaId, n: u8) -> Due
    requires { n ≤ 16 }
    ensures { to < n → result ≡ after_post_to n to }
{
    let next = to.number() + 1;
    if next < n {
        Due::Post(replica_of(next))
    } else {
        Due::Take(ReplicaId::FIRST)
    }
}

/// Returns the replica with this number, which is below 16.
fn replica_of(number: u8) -> ReplicaId
    requires { number < 16 }
    ensures { result ≡ number }
{
    match ReplicaId::new(number) {
        Ok(replica) => replica,
        Err(_) => ReplicaId::FIRST,
    }
}

/// Reads the envelope's chains in the round in progress. Reads nothing if the envelope belongs to another round.
fn read_envelope(flights: &mut Flights, envelope: Envelope)
    ensures read { flights.new ≡ record flights.old { slots = map (with_chains (chains_for flights.old.round envelope)) flights.old.slots } }
    ensures in_flight { AreInFlight flights.old.shape flights.old.round flights.old.slots (closed_slots flights.old.shape flights.old.round) }
{
    let current = flights.round();
    match envelope {
        Envelope::Round { round, chains } => {
            if round == current {
                flights.read_all(chains.into_vec());
            }
        }
        _ => {}
    }
}

/// Returns whether one of the envelope's chains would be kept if it were read in the round in progress; false if the envelope
/// belongs to another round.
fn keeps_one(flights: &Flights, envelope: &Envelope) -> bool
    ensures nothing { result ≡ false
        → map (with_chains (chains_for flights.now.round envelope.now)) flights.now.slots ≡ flights.now.slots }
    ensures in_flight { AreInFlight flights.now.shape flights.now.round flights.now.slots (closed_slots flights.now.shape flights.now.round) }
{
    let current = flights.round();
    match envelope {
        Envelope::Round { round, chains } => {
            *round == current && flights.would_keep(chains.as_slice())
        }
        _ => false,
    }
}

/// Adds the decision; does nothing for `None`.
fn add_decided(decisions: &mut Decisions, decision: Option<Decision>)
    requires room { HasPlaces decisions.old }
    requires clients { (value : SlotValue) → decision ≡ Some value → All (λ r. r.client < decisions.old.clients) (requests_in value) }
    requires short { length decisions.old.values < 2 ^ 36 }
    ensures values { decisions.new.values ≡ with_decided decision decisions.old.values }
    ensures clients { decisions.new.clients ≡ decisions.old.clients }
{
    match decision {
        Some(decision) => decisions.add(decision),
        None => {}
    }
}
