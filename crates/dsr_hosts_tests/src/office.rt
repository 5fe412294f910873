//! A mail, with the seats of all its actors.

ghost use Rattle.std.specs.Prelude.{◌≡◌, ◌<◌, length, All, IfSome};
ghost use Rattle.dsr_boxes.specs.Pass.{IsPassOf};
ghost use Rattle.dsr_mail.specs.Seats.{is_loyal_replica, is_traitor_replica, is_client, AreSeatsOf};
ghost use Rattle.dsr_hosts_tests.specs.Same.{IsSameSeat};

use dsr_calls::{ask, go_on};
use dsr_desk::Keys;
use dsr_envelope::Pick;
use dsr_ledger::Reply;
use dsr_mail::{ClientSeat, Logs, Mail, ReplicaSeat, Seats, TraitorSeat};
use dsr_names::{Actor, ClientId, Refusal, ReplicaId, Shape};
use dsr_request::Op;
use dsr_rounds::{Gate, run_replica, run_traitor};
use dsr_script::Script;
use std::alloc::Global;
use std::sync::Wait;

/// A mail, and the seats of all its actors.
#[derive(Drop)]
pub(crate) struct Office {
    mail: Mail,
    seats: Seats,
    ghost replicas: { AreSeatsOf mail is_loyal_replica seats.replicas.items },
    ghost traitors: { AreSeatsOf mail is_traitor_replica seats.traitors.items },
    ghost clients: { AreSeatsOf mail is_client seats.clients.items },
}

impl Office {
    /// Opens a mail of this shape. `NoMemory` if memory runs out.
    pub(crate) fn open(alloc: Global, shape: Shape) -> Result<Office, Refusal> {
        let keys = Keys::new(alloc, shape)?;
        let (mail, seats) = Mail::open(alloc, shape, keys)?;
        Ok(Office { mail, seats })
    }

    /// Gives all seats back to the mail, closes it, and returns the logs.
    pub(crate) fn close(self) -> Logs {
        let Office { mail, seats } = self;
        mail.close(seats)
    }

    /// Returns the first client's seat.
    pub(crate) fn client(&self) -> Option<&ClientSeat> {
        self.seats.clients.first()
    }

    /// Has a loyal replica post to another, without a proposal. `NoActor` if it has no seat.
    pub(crate) fn post(
        &mut self,
        alloc: Global,
        replica: &ReplicaId,
        to: &Actor,
    ) -> Result<(), Refusal> {
        let Some(place) = replica_place(self.seats.replicas.as_slice(), replica) else {
            return Err(Refusal::NoActor);
        };
        post_plain(&mut self.seats.replicas[place], alloc, &self.mail, to)
    }

    /// Has a loyal replica take from another. `NoActor` if it has no seat.
    pub(crate) fn take(&mut self, replica: &ReplicaId, from: &Actor) -> Result<(), Refusal> {
        let Some(place) = replica_place(self.seats.replicas.as_slice(), replica) else {
            return Err(Refusal::NoActor);
        };
        take_from(&mut self.seats.replicas[place], &self.mail, from)
    }

    /// Tells whether a loyal replica has mail.
    pub(crate) fn has_mail(&self) -> bool {
        one_has_mail(&self.mail, self.seats.replicas.as_slice())
    }

    /// Has the first client ask. `NoActor` if the office has no client.
    pub(crate) fn ask(&mut self, alloc: Global, op: &Op, turns: u64) -> Result<Reply, Refusal> {
        let Some(place) = client_place(self.seats.clients.as_slice(), &ClientId::FIRST) else {
            return Err(Refusal::NoActor);
        };
        client_asks(&mut self.seats.clients[place], alloc, &self.mail, op, turns)
    }

    /// Has the first client go on. `NoActor` if the office has no client.
    pub(crate) fn go_on(&mut self, alloc: Global, turns: u64) -> Result<Reply, Refusal> {
        let Some(place) = client_place(self.seats.clients.as_slice(), &ClientId::FIRST) else {
            return Err(Refusal::NoActor);
        };
        client_goes_on(&mut self.seats.clients[place], alloc, &self.mail, turns)
    }

    /// Has a client post. `NoActor` if it has no seat.
    pub(crate) fn client_post(
        &mut self,
        alloc: Global,
        client: &ClientId,
        to: &Actor,
        pick: &Pick,
    ) -> Result<(), Refusal> {
        let Some(place) = client_place(self.seats.clients.as_slice(), client) else {
            return Err(Refusal::NoActor);
        };
        client_posts(&mut self.seats.clients[place], alloc, &self.mail, to, pick)
    }

    /// Has a client take, and returns the reply that it accepts by that, if any. `NoActor` if it has no seat.
    pub(crate) fn client_take(
        &mut self,
        client: &ClientId,
        from: &Actor,
    ) -> Result<Option<Reply>, Refusal> {
        let Some(place) = client_place(self.seats.clients.as_slice(), client) else {
            return Err(Refusal::NoActor);
        };
        client_takes(&mut self.seats.clients[place], &self.mail, from)
    }

    /// Has a client tell another its seen front. `NoActor` if it has no seat.
    pub(crate) fn tell(
        &mut self,
        alloc: Global,
        client: &ClientId,
        to: &Actor,
    ) -> Result<(), Refusal> {
        let Some(place) = client_place(self.seats.clients.as_slice(), client) else {
            return Err(Refusal::NoActor);
        };
        client_tells(&mut self.seats.clients[place], alloc, &self.mail, to)
    }

    /// Has replica 0 make rounds. `NoActor` if it has no seat.
    pub(crate) fn run_replica<R: Wait, G: Gate>(
        &mut self,
        rt: &R,
        alloc: Global,
        gate: &G,
        rounds: u64,
    ) -> Result<(), Refusal> {
        let Some(place) = replica_place(self.seats.replicas.as_slice(), &ReplicaId::FIRST) else {
            return Err(Refusal::NoActor);
        };
        replica_runs(
            rt,
            alloc,
            &self.mail,
            &mut self.seats.replicas[place],
            gate,
            rounds,
        )
    }

    /// Has a traitor make rounds by a script. `NoActor` if it has no seat.
    pub(crate) fn run_traitor<R: Wait, G: Gate>(
        &mut self,
        rt: &R,
        alloc: Global,
        traitor: &Actor,
        script: &Script,
        gate: &G,
        rounds: u64,
    ) -> Result<(), Refusal> {
        let Some(place) = traitor_place(self.seats.traitors.as_slice(), traitor) else {
            return Err(Refusal::NoActor);
        };
        traitor_runs(
            rt,
            alloc,
            &self.mail,
            &mut self.seats.traitors[place],
            script,
            gate,
            rounds,
        )
    }
}

/// Tells whether one of these seats has mail.
fn one_has_mail(mail: &Mail, seats: &[ReplicaSeat]) -> bool
    requires { All (IsPassOf mail.now) seats.now }
{
    for seat in seats {
        if seat.has_mail(mail) {
            return true;
        }
    }
    false
}

/// Returns the place of a loyal replica's seat.
fn replica_place(seats: &[ReplicaSeat], replica: &ReplicaId) -> Option<usize>
    ensures { IfSome result (λ place. place < length seats.now) }
{
    for place in 0..seats.len() {
        if seats[place].replica().number() == replica.number() {
            return Some(place);
        }
    }
    None
}

/// Returns the place of a traitor's seat.
fn traitor_place(seats: &[TraitorSeat], actor: &Actor) -> Option<usize>
    ensures { IfSome result (λ place. place < length seats.now) }
{
    for place in 0..seats.len() {
        if seats[place].actor() == *actor {
            return Some(place);
        }
    }
    None
}

/// Returns the place of a client's seat.
fn client_place(seats: &[ClientSeat], client: &ClientId) -> Option<usize>
    ensures { IfSome result (λ place. place < length seats.now) }
{
    for place in 0..seats.len() {
        if seats[place].client().number() == client.number() {
            return Some(place);
        }
    }
    None
}

/// Posts from a loyal replica's seat without a proposal.
fn post_plain(seat: &mut ReplicaSeat, alloc: Global, mail: &Mail, to: &Actor) -> Result<(), Refusal>
    requires { IsPassOf mail.now seat.old }
    ensures { IsSameSeat seat.old seat.new }
{
    match seat.try_post(alloc, mail, *to, Pick::Plain) {
        Ok(()) => Ok(()),
        Err(refusal) => Err(refusal),
    }
}

/// Takes at a loyal replica's seat.
fn take_from(seat: &mut ReplicaSeat, mail: &Mail, from: &Actor) -> Result<(), Refusal>
    requires { IsPassOf mail.now seat.old }
    ensures { IsSameSeat seat.old seat.new }
{
    match seat.try_take(mail, *from) {
        Ok(()) => Ok(()),
        Err(refusal) => Err(refusal),
    }
}

/// Posts from a client's seat.
fn client_posts(
    seat: &mut ClientSeat,
    alloc: Global,
    mail: &Mail,
    to: &Actor,
    pick: &Pick,
) -> Result<(), Refusal>
    requires { IsPassOf mail.now seat.old }
    ensures { IsSameSeat seat.old seat.new }
{
    match seat.try_post(alloc, mail, *to, *pick) {
        Ok(()) => Ok(()),
        Err(refusal) => Err(refusal),
    }
}

/// Takes at a client's seat.
fn client_takes(seat: &mut ClientSeat, mail: &Mail, from: &Actor) -> Result<Option<Reply>, Refusal>
    requires { IsPassOf mail.now seat.old }
    ensures { IsSameSeat seat.old seat.new }
{
    match seat.try_take(mail, *from) {
        Ok(reply) => Ok(reply),
        Err(refusal) => Err(refusal),
    }
}

/// Tells the seen front from a client's seat.
fn client_tells(
    seat: &mut ClientSeat,
    alloc: Global,
    mail: &Mail,
    to: &Actor,
) -> Result<(), Refusal>
    requires { IsPassOf mail.now seat.old }
    ensures { IsSameSeat seat.old seat.new }
{
    match seat.try_tell(alloc, mail, *to) {
        Ok(()) => Ok(()),
        Err(refusal) => Err(refusal),
    }
}

/// Asks from a client's seat.
fn client_asks(
    seat: &mut ClientSeat,
    alloc: Global,
    mail: &Mail,
    op: &Op,
    turns: u64,
) -> Result<Reply, Refusal>
    requires { IsPassOf mail.now seat.old }
    ensures { IsSameSeat seat.old seat.new }
{
    ask(alloc, mail, seat, *op, turns)
}

/// Goes on with the outstanding request at a client's seat.
fn client_goes_on(
    seat: &mut ClientSeat,
    alloc: Global,
    mail: &Mail,
    turns: u64,
) -> Result<Reply, Refusal>
    requires { IsPassOf mail.now seat.old }
    ensures { IsSameSeat seat.old seat.new }
{
    go_on(alloc, mail, seat, turns)
}

/// Makes rounds at a loyal replica's seat.
fn replica_runs<R: Wait, G: Gate>(
    rt: &R,
    alloc: Global,
    mail: &Mail,
    seat: &mut ReplicaSeat,
    gate: &G,
    rounds: u64,
) -> Result<(), Refusal>
    requires { IsPassOf mail.now seat.old }
    ensures { IsSameSeat seat.old seat.new }
{
    run_replica(rt, alloc, mail, seat, gate, rounds)
}

/// Makes rounds at a traitor's seat by a script.
fn traitor_runs<R: Wait, G: Gate>(
    rt: &R,
    alloc: Global,
    mail: &Mail,
    seat: &mut TraitorSeat,
    script: &Script,
    gate: &G,
    rounds: u64,
) -> Result<(), Refusal>
    requires { IsPassOf mail.now seat.old }
    ensures { IsSameSeat seat.old seat.new }
{
    run_traitor(rt, alloc, mail, seat, script, gate, rounds)
}
