//! The rounds of a traitor.

ghost use Rattle.std.specs.Prelude.{◌≡◌, ◌<◌, IfOk, IfErr, OnOk, OnErr};
ghost use Rattle.dsr_names.specs.Shape.{IsActor};
ghost use Rattle.dsr_names.specs.declared.actor.Actor.TheVariants.{Replica};
ghost use Rattle.dsr_envelope.specs.declared.entry.Entry.TheVariants.{Post, Take};
ghost use Rattle.dsr_envelope.specs.declared.envelope.Envelope.{Envelope};
ghost use Rattle.dsr_envelope.specs.declared.envelope.Envelope.TheVariants.{Empty};
ghost use Rattle.dsr_boxes.specs.Pass.{IsPassOf, with_entry};
ghost use Rattle.dsr_calls.specs.Calls.{GoesOn};
ghost use Rattle.dsr_rounds.specs.Ends.{HostEnd, HasTried, turn_after};
ghost use Rattle.dsr_rounds.specs.Turns.{HasTurns, KeepsTurns};
ghost use Rattle.dsr_rounds.specs.Tries.{TriesTake, TriesTakes, TriesPost, TriesPosts};
ghost use Rattle.dsr_rounds.specs.Traitors.{RanScript, IsBetweenRounds, Follows, StillFollows, StillTakes, IsPlanned, IsPlanting, IsScripted, HasPlanted, KeepsCounts, PostsToClients, PostsDrafts, TakesFromAll, MakesRound, count_at};

use crate::end::End;
use crate::gate::Gate;
use crate::host::{Host, was_made};
use crate::turn::Turn;
use dsr_mail::TraitorSeat;
use dsr_names::{Actor, ClientId, Refusal, ReplicaId};
use dsr_script::{Draft, Script};
use std::sync::Wait;

/// What came of a try to post a draft.
#[derive(Clone, Copy, Debug, PartialEq, Eq)]
pub(crate) enum Planting {
    /// It was posted.
    Made,
    /// It would be forged.
    Forged,
    /// The box was full.
    Full,
}

impl<'a, R: Wait, G: Gate> Host<'a, R, G> {
    /// Makes `rounds` rounds of the traitor by the script, from its round 0 on. In each round the traitor tries once to take from each client; posts the
    /// round's draft to each replica, or the empty envelope if the script has no draft there or the draft would be forged; tries once to post to each
    /// client for which the script has a draft that would not be forged; and takes from all replicas. After an `Err` a round may be open at the seat. Do
    /// not give such a seat to another call: it might wait for ever, because an envelope that the traitor posted to itself may fill its box, and it
    /// takes that envelope only after its posts.
    pub fn run_traitor(
        &self,
        seat: &mut TraitorSeat,
        script: &Script,
        rounds: u64,
    ) -> Result<(), End>
        requires mail { IsPassOf self.now.mail.now seat.old }
        ensures ran { OnOk result (RanScript script.now rounds seat.old seat.new) }
        ensures between { OnOk result (IsBetweenRounds seat.old → IsBetweenRounds seat.new) }
        ensures follows { Follows script.now seat.old seat.new }
        ensures turns { HasTurns (G.may_pass self.now.gate.now) seat.old seat.new }
        ensures log { GoesOn seat.new seat.old }
        ensures end { IfErr result (HostEnd (G.may_refuse self.now.gate.now) self.now.stop.now seat.new) }
    {
        let mut turn = Turn::first();
        for round in 0..rounds {
            self.make_scripted_round(seat, &mut turn, script, round)?;
        }
        Ok(())
    }

    /// Makes one round by the script.
    fn make_scripted_round(
        &self,
        seat: &mut TraitorSeat,
        turn: &mut Turn,
        script: &Script,
        round: u64,
    ) -> Result<(), End>
        requires mail { IsPassOf self.now.mail.now seat.old }
        ensures made { OnOk result (MakesRound script.now round seat.old seat.new) }
        ensures follows { OnErr result (StillFollows script.now (count_at round 0) (count_at round 0) seat.old seat.new) }
        ensures log { GoesOn seat.new seat.old }
        ensures turns { KeepsTurns (G.may_pass self.now.gate.now) seat.old seat.new turn.old.number turn.new.number }
        ensures end { IfErr result (HostEnd (G.may_refuse self.now.gate.now) self.now.stop.now seat.new) }
    {
        self.take_from_each_client(seat, turn)?;
        self.post_drafts(seat, turn, script, round)?;
        self.post_drafts_to_clients(seat, turn, script, round)?;
        self.take_from_each(seat, turn, round)
    }

    /// Tries once to take from each client.
    fn take_from_each_client(&self, seat: &mut TraitorSeat, turn: &mut Turn) -> Result<(), End>
        requires mail { IsPassOf self.now.mail.now seat.old }
        ensures tried { OnOk result (TriesTakes (G.may_pass self.now.gate.now) self.now.mail.now.shape.m seat.old seat.new turn.old.number turn.new.number) }
        ensures kept { KeepsCounts seat.old seat.new }
        ensures turns { KeepsTurns (G.may_pass self.now.gate.now) seat.old seat.new turn.old.number turn.new.number }
        ensures end { IfErr result (HostEnd (G.may_refuse self.now.gate.now) self.now.stop.now seat.new) }
    {
        for number in 0..self.mail.shape().m() {
            self.take_once(seat, turn, ClientId::of(number))?;
        }
        Ok(())
    }

    /// Tries once to take from a client.
    fn take_once(
        &self,
        seat: &mut TraitorSeat,
        turn: &mut Turn,
        client: ClientId,
    ) -> Result<(), End>
        requires mail { IsPassOf self.now.mail.now seat.old }
        requires inside { client < seat.old.shape.m }
        ensures tried { OnOk result (TriesTake (G.may_pass self.now.gate.now) client seat.old seat.new turn.old.number turn.new.number) }
        ensures kept { KeepsCounts seat.old seat.new }
        ensures turns { KeepsTurns (G.may_pass self.now.gate.now) seat.old seat.new turn.old.number turn.new.number }
        ensures end { IfErr result (HostEnd (G.may_refuse self.now.gate.now) self.now.stop.now seat.new) }
    {
        let _taken = self.try_take_of(seat, turn, &Actor::Client(client))?;
        Ok(())
    }

    /// Posts the drafts of the round to all replicas.
    fn post_drafts(
        &self,
        seat: &mut TraitorSeat,
        turn: &mut Turn,
        script: &Script,
        round: u64,
    ) -> Result<(), End>
        requires mail { IsPassOf self.now.mail.now seat.old }
        ensures posted { OnOk result (PostsDrafts script.now round seat.old.shape.n seat.old seat.new) }
        ensures follows { OnErr result (StillFollows script.now (count_at round 0) (count_at round 0) seat.old seat.new) }
        ensures log { GoesOn seat.new seat.old }
        ensures turns { KeepsTurns (G.may_pass self.now.gate.now) seat.old seat.new turn.old.number turn.new.number }
        ensures end { IfErr result (HostEnd (G.may_refuse self.now.gate.now) self.now.stop.now seat.new) }
    {
        for number in 0..self.mail.shape().n() {
            self.post_planned(seat, turn, script, round, ReplicaId::of(number))?;
        }
        Ok(())
    }

    /// Posts the round's draft to a replica once the box is empty. Posts the empty envelope instead if the script has no draft there or the draft would
    /// be forged.
    fn post_planned(
        &self,
        seat: &mut TraitorSeat,
        turn: &mut Turn,
        script: &Script,
        round: u64,
        to: ReplicaId,
    ) -> Result<(), End>
        requires mail { IsPassOf self.now.mail.now seat.old }
        requires inside { to < seat.old.shape.n }
        ensures posted { OnOk result ((envelope : Envelope) × (seat.new ≡ with_entry seat.old (Post (Replica to) envelope))
            × IsPlanned script.now seat.old.shape seat.old.actor seat.old.log round to envelope) }
        ensures unchanged { OnErr result (seat.new ≡ seat.old) }
        ensures turns { KeepsTurns (G.may_pass self.now.gate.now) seat.old seat.new turn.old.number turn.new.number }
        ensures end { IfErr result (HostEnd (G.may_refuse self.now.gate.now) self.now.stop.now seat.new) }
    {
        if self.post_scripted(seat, turn, script, round, to)? {
            return Ok(());
        }
        self.post_empty(seat, turn, to)
    }

    /// Posts the round's draft to a replica once the box is empty. Returns whether it did: false if the script has no draft there or the draft would be
    /// forged.
    fn post_scripted(
        &self,
        seat: &mut TraitorSeat,
        turn: &mut Turn,
        script: &Script,
        round: u64,
        to: ReplicaId,
    ) -> Result<bool, End>
        requires mail { IsPassOf self.now.mail.now seat.old }
        requires inside { to < seat.old.shape.n }
        ensures posted { IfOk result (IsScripted script.now round seat.old seat.new to) }
        ensures unchanged { OnErr result (seat.new ≡ seat.old) }
        ensures turns { KeepsTurns (G.may_pass self.now.gate.now) seat.old seat.new turn.old.number turn.new.number }
        ensures end { IfErr result (HostEnd (G.may_refuse self.now.gate.now) self.now.stop.now seat.new) }
    {
        match script.draft(seat.replica(), round, Actor::Replica(to)) {
            Some(draft) => self.post_draft(seat, turn, to, draft),
            None => Ok(false),
        }
    }

    /// Posts the empty envelope to a replica once the box is empty.
    fn post_empty(&self, seat: &mut TraitorSeat, turn: &mut Turn, to: ReplicaId) -> Result<(), End>
        requires mail { IsPassOf self.now.mail.now seat.old }
        requires inside { to < seat.old.shape.n }
        ensures posted { OnOk result (seat.new ≡ with_entry seat.old (Post (Replica to) Empty)) }
        ensures unchanged { OnErr result (seat.new ≡ seat.old) }
        ensures turns { KeepsTurns (G.may_pass self.now.gate.now) seat.old seat.new turn.old.number turn.new.number }
        ensures end { IfErr result (HostEnd (G.may_refuse self.now.gate.now) self.now.stop.now seat.new) }
    {
        match self.post_draft(seat, turn, to, &Draft::empty()) {
            Ok(true) => Ok(()),
            Ok(false) => unreachable!(),
            Err(end) => Err(end),
        }
    }

    /// Posts what the draft describes to a replica once the box is empty. Returns whether it did: false if the draft would be forged.
    fn post_draft(
        &self,
        seat: &mut TraitorSeat,
        turn: &mut Turn,
        to: ReplicaId,
        draft: &Draft,
    ) -> Result<bool, End>
        requires mail { IsPassOf self.now.mail.now seat.old }
        requires inside { to < seat.old.shape.n }
        ensures posted { IfOk result (IsPlanting seat.old seat.new to draft.now) }
        ensures unchanged { OnErr result (seat.new ≡ seat.old) }
        ensures turns { KeepsTurns (G.may_pass self.now.gate.now) seat.old seat.new turn.old.number turn.new.number }
        ensures end { IfErr result (HostEnd (G.may_refuse self.now.gate.now) self.now.stop.now seat.new) }
    {
        for _ in self.rt.forever() {
            match self.try_plant(seat, turn, &Actor::Replica(to), draft)? {
                Planting::Made => return Ok(true),
                Planting::Forged => return Ok(false),
                Planting::Full => {}
            }
            // A wait may end early; the next try shows whether the box is free.
            let _ = seat.wait_to(self.rt, self.mail, Actor::Replica(to));
        }
        unreachable!()
    }

    /// Tries once to post to each client for which the script has a draft of the round that would not be forged.
    fn post_drafts_to_clients(
        &self,
        seat: &mut TraitorSeat,
        turn: &mut Turn,
        script: &Script,
        round: u64,
    ) -> Result<(), End>
        requires mail { IsPassOf self.now.mail.now seat.old }
        ensures tried { OnOk result (TriesPosts (G.may_pass self.now.gate.now) script.now round self.now.mail.now.shape.m seat.old seat.new turn.old.number turn.new.number) }
        ensures kept { PostsToClients script.now round self.now.mail.now.shape.n seat.old seat.new }
        ensures turns { KeepsTurns (G.may_pass self.now.gate.now) seat.old seat.new turn.old.number turn.new.number }
        ensures end { IfErr result (HostEnd (G.may_refuse self.now.gate.now) self.now.stop.now seat.new) }
    {
        for number in 0..self.mail.shape().m() {
            self.post_once(seat, turn, script, round, ClientId::of(number))?;
        }
        Ok(())
    }

    /// Tries once to post the round's draft to a client. Posts nothing if the script has no draft for it or the draft would be forged.
    fn post_once(
        &self,
        seat: &mut TraitorSeat,
        turn: &mut Turn,
        script: &Script,
        round: u64,
        client: ClientId,
    ) -> Result<(), End>
        requires mail { IsPassOf self.now.mail.now seat.old }
        requires inside { client < seat.old.shape.m }
        ensures tried { OnOk result (TriesPost (G.may_pass self.now.gate.now) script.now round client seat.old seat.new turn.old.number turn.new.number) }
        ensures kept { PostsToClients script.now round self.now.mail.now.shape.n seat.old seat.new }
        ensures turns { KeepsTurns (G.may_pass self.now.gate.now) seat.old seat.new turn.old.number turn.new.number }
        ensures end { IfErr result (HostEnd (G.may_refuse self.now.gate.now) self.now.stop.now seat.new) }
    {
        let Some(draft) = script.draft(seat.replica(), round, Actor::Client(client)) else {
            return Ok(());
        };
        let _planting = self.try_plant(seat, turn, &Actor::Client(client), draft)?;
        Ok(())
    }

    /// Takes from all replicas.
    fn take_from_each(&self, seat: &mut TraitorSeat, turn: &mut Turn, round: u64) -> Result<(), End>
        requires mail { IsPassOf self.now.mail.now seat.old }
        ensures taken { OnOk result (TakesFromAll round seat.old.shape.n seat.old seat.new) }
        ensures follows { OnErr result (StillTakes round seat.old seat.new) }
        ensures log { GoesOn seat.new seat.old }
        ensures turns { KeepsTurns (G.may_pass self.now.gate.now) seat.old seat.new turn.old.number turn.new.number }
        ensures end { IfErr result (HostEnd (G.may_refuse self.now.gate.now) self.now.stop.now seat.new) }
    {
        for number in 0..self.mail.shape().n() {
            self.take_sent(seat, turn, ReplicaId::of(number))?;
        }
        Ok(())
    }

    /// Takes from a replica once its box is full.
    fn take_sent(&self, seat: &mut TraitorSeat, turn: &mut Turn, from: ReplicaId) -> Result<(), End>
        requires mail { IsPassOf self.now.mail.now seat.old }
        requires inside { from < seat.old.shape.n }
        ensures taken { OnOk result ((envelope : Envelope) × (seat.new ≡ with_entry seat.old (Take (Replica from) envelope))) }
        ensures unchanged { OnErr result (seat.new ≡ seat.old) }
        ensures turns { KeepsTurns (G.may_pass self.now.gate.now) seat.old seat.new turn.old.number turn.new.number }
        ensures end { IfErr result (HostEnd (G.may_refuse self.now.gate.now) self.now.stop.now seat.new) }
    {
        for _ in self.rt.forever() {
            if self.try_take_of(seat, turn, &Actor::Replica(from))? {
                return Ok(());
            }
            // A wait may end early; the next try shows whether the box is full.
            let _ = seat.wait_from(self.rt, self.mail, Actor::Replica(from));
        }
        unreachable!()
    }

    /// Asks whether to go on, and tries to post what the draft describes to an actor.
    fn try_plant(
        &self,
        seat: &mut TraitorSeat,
        turn: &mut Turn,
        to: &Actor,
        draft: &Draft,
    ) -> Result<Planting, End>
        requires mail { IsPassOf self.now.mail.now seat.old }
        requires inside { IsActor seat.old.shape to.now }
        ensures tried { IfOk result (HasPlanted seat.old seat.new to.now draft.now) }
        ensures passed { OnOk result (G.may_pass self.now.gate.now seat.old.actor turn.old.number) }
        ensures next { OnOk result (turn.new.number ≡ turn_after turn.old.number) }
        ensures unchanged { OnErr result (seat.new ≡ seat.old) }
        ensures turns { KeepsTurns (G.may_pass self.now.gate.now) seat.old seat.new turn.old.number turn.new.number }
        ensures end { IfErr result (HostEnd (G.may_refuse self.now.gate.now) self.now.stop.now seat.new) }
    {
        // For the proof: that it is a traitor.
        let _replica = seat.replica();
        self.pass(seat.actor(), turn)?;
        match seat.try_post(self.alloc, self.mail, *to, draft) {
            Ok(()) => Ok(Planting::Made),
            Err(Refusal::Forged) => Ok(Planting::Forged),
            Err(Refusal::BoxFull) => Ok(Planting::Full),
            Err(refusal) => Err(End::Fault(refusal)),
        }
    }

    /// Asks whether to go on, and tries to take from an actor.
    fn try_take_of(
        &self,
        seat: &mut TraitorSeat,
        turn: &mut Turn,
        from: &Actor,
    ) -> Result<bool, End>
        requires mail { IsPassOf self.now.mail.now seat.old }
        requires inside { IsActor seat.old.shape from.now }
        ensures tried { IfOk result (HasTried (Take from.now) seat.old seat.new) }
        ensures passed { OnOk result (G.may_pass self.now.gate.now seat.old.actor turn.old.number) }
        ensures next { OnOk result (turn.new.number ≡ turn_after turn.old.number) }
        ensures unchanged { OnErr result (seat.new ≡ seat.old) }
        ensures turns { KeepsTurns (G.may_pass self.now.gate.now) seat.old seat.new turn.old.number turn.new.number }
        ensures end { IfErr result (HostEnd (G.may_refuse self.now.gate.now) self.now.stop.now seat.new) }
    {
        // For the proof: that it is a traitor.
        let _replica = seat.replica();
        self.pass(seat.actor(), turn)?;
        was_made(seat.try_take(self.mail, *from))
    }
}
