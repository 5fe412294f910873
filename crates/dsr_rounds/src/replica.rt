//! The rounds of a replica.

ghost use Rattle.std.specs.Prelude.{◌≡◌, ◌<◌, false, IfOk, IfErr, OnOk, OnErr, IsSome};
ghost use Rattle.dsr_names.specs.Shape.{IsActor};
ghost use Rattle.dsr_names.specs.declared.actor.Actor.TheVariants.{Replica};
ghost use Rattle.dsr_envelope.specs.declared.entry.Entry.TheVariants.{Post, Take};
ghost use Rattle.dsr_envelope.specs.declared.due.Due.TheVariants.{Post as PostTo, Take as TakeFrom};
ghost use Rattle.dsr_envelope.specs.declared.envelope.Envelope.{Envelope};
ghost use Rattle.dsr_envelope.specs.Log.{due, rounds};
ghost use Rattle.dsr_node.specs.Conduct.{post_of, is_undue};
ghost use Rattle.dsr_boxes.specs.Pass.{IsPassOf, with_entry};
ghost use Rattle.dsr_calls.specs.Calls.{GoesOn};
ghost use Rattle.dsr_rounds.specs.Eagerness.{WasEager, IsEagerPost, IsEagerPick, HasPosted, HasTriedPost};
ghost use Rattle.dsr_rounds.specs.Ends.{HostEnd, HasTried, turn_after};
ghost use Rattle.dsr_rounds.specs.Turns.{HasTurns, KeepsTurns};
ghost use Rattle.dsr_rounds.specs.Replicas.{HasClosed, IsOwed, AnswersOwed, DoesDuty, KeepsRound, IsAtPost, IsTaking};

use crate::end::End;
use crate::gate::Gate;
use crate::host::{Host, was_made};
use crate::ring::{Ring, owes};
use crate::turn::Turn;
use dsr_envelope::{Due, Pick};
use dsr_mail::ReplicaSeat;
use dsr_names::{Actor, ClientId, ReplicaId, Shape};
use std::hint::spin_loop;
use std::sync::Wait;
use std::thread;

/// How often a replica that has answered all clients lets others run before it begins a round without mail. On a busy machine each time may take
/// milliseconds.
const IDLE_YIELDS: u32 = 1;

/// How often a replica that has not answered all clients lets others run then.
const BUSY_YIELDS: u32 = 4;

/// How often a replica that has answered all clients looks for mail after that: some microseconds.
const IDLE_LOOKS: u32 = 64;

impl<'a, R: Wait, G: Gate> Host<'a, R, G> {
    /// Makes `rounds` rounds of the replica. In each it tries once to take from each client, posts to all replicas, takes from all replicas, and
    /// tries once to post to each client to which it owes a reply. If a round is begun already, it is the first of them. `Told` if the service tells
    /// its hosts to stop before that, `Fault` if a refusal ends the host; what the replica did until then stays in the seat's log. Requires a seat of
    /// the host's mail.
    pub fn run_replica(&self, seat: &mut ReplicaSeat, rounds: u64) -> Result<(), End>
        requires mail { IsPassOf self.now.mail.now seat.old }
        ensures closed { OnOk result (HasClosed seat.old seat.new rounds) }
        ensures log { GoesOn seat.new seat.old }
        ensures answers { AnswersOwed seat.new seat.old }
        ensures eager { WasEager seat.new seat.old }
        ensures turns { HasTurns (G.may_pass self.now.gate.now) seat.old seat.new }
        ensures end { IfErr result (HostEnd (G.may_refuse self.now.gate.now) self.now.stop.now seat.new) }
    {
        let mut turn = Turn::first();
        let ring = Ring::of(self.mail.shape().m());
        for round in 0..rounds {
            self.make_round(seat, &mut turn, &ring)?;
        }
        Ok(())
    }

    /// Makes one round, or what is left of the one that is begun.
    fn make_round(&self, seat: &mut ReplicaSeat, turn: &mut Turn, ring: &Ring) -> Result<(), End>
        requires mail { IsPassOf self.now.mail.now seat.old }
        requires ring { ring.now ≡ seat.old.shape.m }
        ensures closed { OnOk result (HasClosed seat.old seat.new 1) }
        ensures duty { DoesDuty seat.new seat.old }
        ensures turns { KeepsTurns (G.may_pass self.now.gate.now) seat.old seat.new turn.old.number turn.new.number }
        ensures end { IfErr result (HostEnd (G.may_refuse self.now.gate.now) self.now.stop.now seat.new) }
    {
        self.rest_without_mail(seat, ring);
        self.take_from_clients(seat, turn)?;
        self.post_all(seat, turn, ring)?;
        self.take_all(seat, turn)?;
        self.answer_clients(seat, turn)
    }

    /// Lets others run first while no mail comes: for a moment if all clients are answered, so that slow clients have more time until the rounds of a
    /// host are used up; a few times if some are not, so that more of their requests come into one slot.
    fn rest_without_mail(&self, seat: &ReplicaSeat, ring: &Ring)
        requires mail { IsPassOf self.now.mail.now seat.now }
    {
        let is_idle = ring.is_answered(seat);
        let yields = if is_idle { IDLE_YIELDS } else { BUSY_YIELDS };
        for _ in 0..yields {
            if seat.has_mail(self.mail) {
                return;
            }
            thread::yield_now();
        }
        if is_idle {
            self.look_for_mail(seat);
        }
    }

    /// Looks for mail again and again for a moment, until some comes.
    fn look_for_mail(&self, seat: &ReplicaSeat)
        requires mail { IsPassOf self.now.mail.now seat.now }
    {
        for _ in 0..IDLE_LOOKS {
            if seat.has_mail(self.mail) {
                return;
            }
            spin_loop();
        }
    }

    /// Tries once to take from each client.
    fn take_from_clients(&self, seat: &mut ReplicaSeat, turn: &mut Turn) -> Result<(), End>
        requires mail { IsPassOf self.now.mail.now seat.old }
        ensures kept { KeepsRound seat.new seat.old }
        ensures turns { KeepsTurns (G.may_pass self.now.gate.now) seat.old seat.new turn.old.number turn.new.number }
        ensures end { IfErr result (HostEnd (G.may_refuse self.now.gate.now) self.now.stop.now seat.new) }
    {
        for number in 0..self.mail.shape().m() {
            self.take_from_client(seat, turn, ClientId::of(number))?;
        }
        Ok(())
    }

    /// Tries once to take from a client.
    fn take_from_client(
        &self,
        seat: &mut ReplicaSeat,
        turn: &mut Turn,
        client: ClientId,
    ) -> Result<(), End>
        requires mail { IsPassOf self.now.mail.now seat.old }
        requires inside { client < seat.old.shape.m }
        ensures kept { KeepsRound seat.new seat.old }
        ensures turns { KeepsTurns (G.may_pass self.now.gate.now) seat.old seat.new turn.old.number turn.new.number }
        ensures end { IfErr result (HostEnd (G.may_refuse self.now.gate.now) self.now.stop.now seat.new) }
    {
        // For the proof: that it is a replica.
        let _replica = seat.replica();
        self.try_take(seat, turn, &Actor::Client(client))?;
        Ok(())
    }

    /// Posts to all replicas to which it has not posted in this round.
    fn post_all(&self, seat: &mut ReplicaSeat, turn: &mut Turn, ring: &Ring) -> Result<(), End>
        requires mail { IsPassOf self.now.mail.now seat.old }
        requires ring { ring.now ≡ seat.old.shape.m }
        ensures posted { OnOk result (IsTaking (due seat.new.shape seat.new.log)) }
        ensures rounds { OnOk result (rounds seat.new.shape seat.new.log ≡ rounds seat.old.shape seat.old.log) }
        ensures duty { DoesDuty seat.new seat.old }
        ensures turns { KeepsTurns (G.may_pass self.now.gate.now) seat.old seat.new turn.old.number turn.new.number }
        ensures end { IfErr result (HostEnd (G.may_refuse self.now.gate.now) self.now.stop.now seat.new) }
    {
        let shape = self.mail.shape();
        let first = next_post(seat, shape);
        for number in first..shape.n() {
            self.post_next(seat, turn, ring, ReplicaId::of(number))?;
        }
        Ok(())
    }

    /// Makes the due post, which is to the replica `to`.
    fn post_next(
        &self,
        seat: &mut ReplicaSeat,
        turn: &mut Turn,
        ring: &Ring,
        to: ReplicaId,
    ) -> Result<(), End>
        requires mail { IsPassOf self.now.mail.now seat.old }
        requires inside { to < seat.old.shape.n }
        requires due { due seat.old.shape seat.old.log ≡ PostTo to }
        requires ring { ring.now ≡ seat.old.shape.m }
        ensures posted { OnOk result ((envelope : Envelope) × (seat.new ≡ with_entry seat.old (Post (Replica to) envelope)) × IsEagerPost seat.old to envelope) }
        ensures unchanged { OnErr result (seat.new ≡ seat.old) }
        ensures turns { KeepsTurns (G.may_pass self.now.gate.now) seat.old seat.new turn.old.number turn.new.number }
        ensures end { IfErr result (HostEnd (G.may_refuse self.now.gate.now) self.now.stop.now seat.new) }
    {
        let pick = choice(seat, ring, to);
        self.post_to(seat, turn, to, &pick)
    }

    /// Posts to the replica `to` by the choice `pick` once the box is empty. Requires that the choice gives a post there.
    fn post_to(
        &self,
        seat: &mut ReplicaSeat,
        turn: &mut Turn,
        to: ReplicaId,
        pick: &Pick,
    ) -> Result<(), End>
        requires mail { IsPassOf self.now.mail.now seat.old }
        requires inside { to < seat.old.shape.n }
        requires given { IsSome (post_of seat.old.shape seat.old.log seat.old.actor (Replica to) pick.now) }
        ensures posted { OnOk result (HasPosted seat.old seat.new (Replica to) pick.now) }
        ensures unchanged { OnErr result (seat.new ≡ seat.old) }
        ensures turns { KeepsTurns (G.may_pass self.now.gate.now) seat.old seat.new turn.old.number turn.new.number }
        ensures end { IfErr result (HostEnd (G.may_refuse self.now.gate.now) self.now.stop.now seat.new) }
    {
        for _ in self.rt.forever() {
            if self.try_post(seat, turn, &Actor::Replica(to), pick)? {
                return Ok(());
            }
            // A wait may end early; the next try shows whether the box is free.
            let _ = seat.wait_to(self.rt, self.mail, Actor::Replica(to));
        }
        unreachable!()
    }

    /// Takes from all replicas from which it has not taken in this round.
    fn take_all(&self, seat: &mut ReplicaSeat, turn: &mut Turn) -> Result<(), End>
        requires mail { IsPassOf self.now.mail.now seat.old }
        requires taking { IsTaking (due seat.old.shape seat.old.log) }
        ensures closed { OnOk result (HasClosed seat.old seat.new 1) }
        ensures duty { DoesDuty seat.new seat.old }
        ensures turns { KeepsTurns (G.may_pass self.now.gate.now) seat.old seat.new turn.old.number turn.new.number }
        ensures end { IfErr result (HostEnd (G.may_refuse self.now.gate.now) self.now.stop.now seat.new) }
    {
        let Due::Take(first) = seat.due() else {
            unreachable!()
        };
        for number in first.number()..self.mail.shape().n() {
            self.take_from(seat, turn, ReplicaId::of(number))?;
        }
        Ok(())
    }

    /// Takes from the replica `from` once the box is full. Requires that the take is due.
    fn take_from(&self, seat: &mut ReplicaSeat, turn: &mut Turn, from: ReplicaId) -> Result<(), End>
        requires mail { IsPassOf self.now.mail.now seat.old }
        requires inside { from < seat.old.shape.n }
        requires due { due seat.old.shape seat.old.log ≡ TakeFrom from }
        ensures taken { OnOk result ((envelope : Envelope) × (seat.new ≡ with_entry seat.old (Take (Replica from) envelope))) }
        ensures unchanged { OnErr result (seat.new ≡ seat.old) }
        ensures turns { KeepsTurns (G.may_pass self.now.gate.now) seat.old seat.new turn.old.number turn.new.number }
        ensures end { IfErr result (HostEnd (G.may_refuse self.now.gate.now) self.now.stop.now seat.new) }
    {
        // For the proof: that it is a loyal replica.
        let _replica = seat.replica();
        for _ in self.rt.forever() {
            if self.try_take(seat, turn, &Actor::Replica(from))? {
                return Ok(());
            }
            // A wait may end early; the next try shows whether the box is full.
            let _ = seat.wait_from(self.rt, self.mail, Actor::Replica(from));
        }
        unreachable!()
    }

    /// Tries once to post to each client to which it owes a reply.
    fn answer_clients(&self, seat: &mut ReplicaSeat, turn: &mut Turn) -> Result<(), End>
        requires mail { IsPassOf self.now.mail.now seat.old }
        ensures kept { KeepsRound seat.new seat.old }
        ensures turns { KeepsTurns (G.may_pass self.now.gate.now) seat.old seat.new turn.old.number turn.new.number }
        ensures end { IfErr result (HostEnd (G.may_refuse self.now.gate.now) self.now.stop.now seat.new) }
    {
        for number in 0..self.mail.shape().m() {
            self.answer_client(seat, turn, ClientId::of(number))?;
        }
        Ok(())
    }

    /// Tries once to post to a client if the replica owes it a reply. If the box is full, the replica tries again after the next round.
    fn answer_client(
        &self,
        seat: &mut ReplicaSeat,
        turn: &mut Turn,
        client: ClientId,
    ) -> Result<(), End>
        requires mail { IsPassOf self.now.mail.now seat.old }
        requires inside { client < seat.old.shape.m }
        ensures kept { KeepsRound seat.new seat.old }
        ensures tried { IsOwed seat.old.shape seat.old.log client → OnOk result (turn.new.number ≡ turn_after turn.old.number) }
        ensures turns { KeepsTurns (G.may_pass self.now.gate.now) seat.old seat.new turn.old.number turn.new.number }
        ensures end { IfErr result (HostEnd (G.may_refuse self.now.gate.now) self.now.stop.now seat.new) }
    {
        if !owes(seat, client) {
            return Ok(());
        }
        // For the proof: that it is a replica.
        let _replica = seat.replica();
        self.try_post(seat, turn, &Actor::Client(client), &Pick::Plain)?;
        Ok(())
    }

    /// Asks whether to go on, and tries to post to `to` by the choice `pick`. Returns false if the box is not empty. Requires that the choice gives a
    /// post there.
    fn try_post(
        &self,
        seat: &mut ReplicaSeat,
        turn: &mut Turn,
        to: &Actor,
        pick: &Pick,
    ) -> Result<bool, End>
        requires mail { IsPassOf self.now.mail.now seat.old }
        requires inside { IsActor seat.old.shape to.now }
        requires given { IsSome (post_of seat.old.shape seat.old.log seat.old.actor to.now pick.now) }
        ensures tried { IfOk result (HasTriedPost seat.old seat.new to.now pick.now) }
        ensures passed { OnOk result (G.may_pass self.now.gate.now seat.old.actor turn.old.number) }
        ensures next { OnOk result (turn.new.number ≡ turn_after turn.old.number) }
        ensures unchanged { OnErr result (seat.new ≡ seat.old) }
        ensures turns { KeepsTurns (G.may_pass self.now.gate.now) seat.old seat.new turn.old.number turn.new.number }
        ensures end { IfErr result (HostEnd (G.may_refuse self.now.gate.now) self.now.stop.now seat.new) }
    {
        // For the proof: that it is a loyal replica.
        let _replica = seat.replica();
        self.pass(seat.actor(), turn)?;
        was_made(seat.try_post(self.alloc, self.mail, *to, *pick))
    }

    /// Asks whether to go on, and tries to take from `from`. Returns false if the box is not full. Requires that a take from a replica is due.
    fn try_take(&self, seat: &mut ReplicaSeat, turn: &mut Turn, from: &Actor) -> Result<bool, End>
        requires mail { IsPassOf self.now.mail.now seat.old }
        requires inside { IsActor seat.old.shape from.now }
        requires due { is_undue seat.old.shape seat.old.log seat.old.actor from.now ≡ false }
        ensures tried { IfOk result (HasTried (Take from.now) seat.old seat.new) }
        ensures passed { OnOk result (G.may_pass self.now.gate.now seat.old.actor turn.old.number) }
        ensures next { OnOk result (turn.new.number ≡ turn_after turn.old.number) }
        ensures unchanged { OnErr result (seat.new ≡ seat.old) }
        ensures turns { KeepsTurns (G.may_pass self.now.gate.now) seat.old seat.new turn.old.number turn.new.number }
        ensures end { IfErr result (HostEnd (G.may_refuse self.now.gate.now) self.now.stop.now seat.new) }
    {
        // For the proof: that it is a loyal replica.
        let _replica = seat.replica();
        self.pass(seat.actor(), turn)?;
        was_made(seat.try_take(self.mail, *from))
    }
}

/// Returns the choice for the due post, which is to the replica `to`.
fn choice(seat: &ReplicaSeat, ring: &Ring, to: ReplicaId) -> Pick
    requires due { due seat.now.shape seat.now.log ≡ PostTo to }
    requires ring { ring.now ≡ seat.now.shape.m }
    ensures given { IsSome (post_of seat.now.shape seat.now.log seat.now.actor (Replica to) result) }
    ensures eager { IsEagerPick seat.now to result }
{
    if to.number() == 0 {
        return ring.proposal(seat);
    }
    // For the proof: that it is a replica, whose protocol has a post.
    let _replica = seat.replica();
    let _due = seat.due();
    Pick::Plain
}

/// Returns the number of the replica to which the next post of the round is due, or the number of replicas if the round has no post left.
fn next_post(seat: &ReplicaSeat, shape: &Shape) -> u8
    requires { shape.now ≡ seat.now.shape }
    ensures { IsAtPost seat.now.shape.n result (due seat.now.shape seat.now.log) }
{
    let n = shape.n();
    match seat.due() {
        Due::Post(to) => to.number(),
        Due::Take(_) => n,
    }
}
