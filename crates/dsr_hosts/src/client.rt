//! The operations of a client.

ghost use Rattle.std.specs.Prelude.{◌≡◌, ℕ, true, None, Some, reverse, IsErrOf, OnOk, OnErr, IfErr, IsSome, IsNone};
ghost use Rattle.dsr_names.specs.declared.refusal.Refusal.TheVariants.{Unanswered};
ghost use Rattle.dsr_rounds.specs.declared.end.End.TheVariants.{Fault};
ghost use Rattle.dsr_client.specs.State.{accepted, outstanding};
ghost use Rattle.dsr_script.specs.Script.{ops_of};
ghost use Rattle.dsr_boxes.specs.Pass.{IsPassOf};
ghost use Rattle.dsr_calls.specs.Calls.{GoesOn, number_of};
ghost use Rattle.dsr_hosts.specs.Causes.{ClientRefusal, IsUnserved};
ghost use Rattle.dsr_hosts.specs.Hosted.{ClientEnd, IsServed};
ghost use Rattle.dsr_hosts.specs.Requests.{HasMade, Answers, Keeps};
ghost use Rattle.dsr_hosts.specs.Seats.{IsNewSeat};
ghost use Rattle.dsr_hosts.specs.Turns.{HasCallCourse, IsCall, CallsFor, CallsForEach};

use crate::over::Calls;
use crate::service::Service;
use dsr_calls::{ask, calls_follow_each_other, go_on};
use dsr_mail::ClientSeat;
use dsr_names::Refusal;
use dsr_request::Op;
use dsr_rounds::{End, Gate, Turn};
use std::sync::Wait;

/// The number of turns of one call of a client.
const TURNS: u64 = 1000;

impl<'a, R: Wait, G: Gate> Service<'a, R, G> {
    /// Makes all operations of the client, in the script's order. Requires a seat of the service's mail, at which nothing was done.
    pub(crate) fn make_all(&self, seat: &mut ClientSeat) -> Result<(), End>
        requires { IsNewSeat self.now.host.mail.now seat.old }
        ensures log { GoesOn seat.new seat.old }
        ensures served { OnOk result (IsServed self.now.script.now seat.new) }
        ensures calls { OnOk result ((turn : ℕ) × CallsForEach (G.may_pass self.now.host.gate.now) (reverse (ops_of self.now.script.now (number_of seat.old.actor)))
            seat.old seat.new 0 turn) }
        ensures unserved { OnErr result (IsUnserved self.now.script.now seat.new) }
        ensures end { IfErr result (ClientEnd (G.may_refuse self.now.host.gate.now) seat.new) }
    {
        let mut turn = Turn::first();
        for op in self.script.ops(seat.client()) {
            self.make(seat, &mut turn, op, &mut Calls::none())?;
        }
        Ok(())
    }

    /// Makes one operation: asks again and again until the reply is accepted. If the hosts of all replicas and traitors have ended, it makes one more
    /// call, and ends with `Unanswered` if that brings no reply. Requires a seat of the service's mail, with nothing outstanding.
    fn make(
        &self,
        seat: &mut ClientSeat,
        turn: &mut Turn,
        op: &Op,
        calls: &mut Calls,
    ) -> Result<(), End>
        requires mail { IsPassOf self.now.host.mail.now seat.old }
        requires idle { outstanding seat.old.shape seat.old.log ≡ None }
        ensures log { GoesOn seat.new seat.old }
        ensures made { OnOk result (HasMade op.now seat.old seat.new) }
        ensures same { OnErr result (accepted seat.new.shape seat.new.log ≡ accepted seat.old.shape seat.old.log) }
        ensures calls { CallsFor (G.may_pass self.now.host.gate.now) op.now seat.old seat.new turn.old.number turn.new.number result }
        ensures last { IsErrOf result (Fault Unanswered) → calls.new.last ≡ true }
        ensures end { IfErr result (ClientEnd (G.may_refuse self.now.host.gate.now) seat.new) }
    {
        for _ in self.host.rt.forever() {
            calls.begin(self.look_over());
            self.host.pass(seat.actor(), turn)?;
            match self.call(seat, op, calls) {
                Ok(()) => return Ok(()),
                Err(Refusal::Unanswered) => {
                    if calls.is_last() {
                        return Err(End::Fault(Refusal::Unanswered));
                    }
                }
                Err(refusal) => return Err(End::Fault(refusal)),
            }
        }
        unreachable!()
    }

    /// Makes one call for the operation: goes on with the outstanding request, or asks if nothing is outstanding. Requires a seat of the service's
    /// mail.
    fn call(&self, seat: &mut ClientSeat, op: &Op, calls: &mut Calls) -> Result<(), Refusal>
        requires { IsPassOf self.now.host.mail.now seat.old }
        ensures log { GoesOn seat.new seat.old }
        ensures answered { OnOk result (Answers op.now seat.old seat.new) }
        ensures awaited { OnErr result (Keeps op.now seat.old seat.new) }
        ensures refused { IfErr result (ClientRefusal (G.may_refuse self.now.host.gate.now) seat.new) }
        ensures course { IsCall op.now seat.old seat.new result }
        ensures last { calls.new.last ≡ calls.old.over }
    {
        calls.note();
        if seat.outstanding().is_some() {
            self.go_on_for(seat, op)
        } else {
            self.ask_for(seat, op)
        }
    }

    /// Goes on with the outstanding request. Requires a seat of the service's mail, and an outstanding request.
    fn go_on_for(&self, seat: &mut ClientSeat, op: &Op) -> Result<(), Refusal>
        requires mail { IsPassOf self.now.host.mail.now seat.old }
        requires outstanding { IsSome (outstanding seat.old.shape seat.old.log) }
        ensures log { GoesOn seat.new seat.old }
        ensures answered { OnOk result (Answers op.now seat.old seat.new) }
        ensures awaited { OnErr result (Keeps op.now seat.old seat.new) }
        ensures course { HasCallCourse None seat.old seat.new result }
        ensures refused { IfErr result (ClientRefusal (G.may_refuse self.now.host.gate.now) seat.new) }
    {
        // The contract alone names the operation: it is that of the outstanding request.
        let _ = op;
        // For the proof: what their contracts say.
        calls_follow_each_other();
        let _client = seat.client();
        match go_on(self.host.alloc, self.host.mail, seat, TURNS) {
            Ok(_) => Ok(()),
            Err(refusal) => Err(refusal),
        }
    }

    /// Asks for the operation. Requires a seat of the service's mail, and that nothing is outstanding.
    fn ask_for(&self, seat: &mut ClientSeat, op: &Op) -> Result<(), Refusal>
        requires mail { IsPassOf self.now.host.mail.now seat.old }
        requires idle { IsNone (outstanding seat.old.shape seat.old.log) }
        ensures log { GoesOn seat.new seat.old }
        ensures answered { OnOk result (Answers op.now seat.old seat.new) }
        ensures awaited { OnErr result (Keeps op.now seat.old seat.new) }
        ensures course { HasCallCourse (Some op.now) seat.old seat.new result }
        ensures refused { IfErr result (ClientRefusal (G.may_refuse self.now.host.gate.now) seat.new) }
    {
        // For the proof: what their contracts say.
        calls_follow_each_other();
        let _client = seat.client();
        match ask(self.host.alloc, self.host.mail, seat, *op, TURNS) {
            Ok(_) => Ok(()),
            Err(refusal) => Err(refusal),
        }
    }
}
