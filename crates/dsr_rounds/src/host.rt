//! What hosts share.

ghost use Rattle.std.specs.Prelude.{◌≡◌, ◌⊎◌, IfErr, OnOk};
ghost use Rattle.dsr_rounds.specs.Ends.{IsPassEnd, IsTried, turn_after};

use crate::end::End;
use crate::gate::Gate;
use crate::stop::Stop;
use crate::turn::Turn;
use dsr_mail::Mail;
use dsr_names::{Actor, Refusal};
use std::alloc::Global;
use std::sync::Wait;

/// What a host works with besides its seat: the runtime, the allocator, the mail, the gate that it asks, and what tells it to stop.
#[derive(Drop)]
pub struct Host<'a, R, G> {
    /// The runtime, in which it waits.
    pub rt: &'a R,
    /// Where it allocates.
    pub alloc: Global,
    /// The mail of its seat.
    pub mail: &'a Mail,
    /// What lets it go on.
    pub gate: &'a G,
    /// What tells it to stop.
    pub stop: &'a Stop,
}

impl<'a, R: Wait, G: Gate> Host<'a, R, G> {
    /// Asks whether the actor goes on with its next turn. With `Ok` the gate may let this turn pass, and the turn is counted. `Told` if the
    /// service told its hosts to stop, `Stopped` if the gate answers false; then the turn may be counted or not.
    pub fn pass(&self, actor: Actor, turn: &mut Turn) -> Result<(), End>
        ensures passed { OnOk result (G.may_pass self.now.gate.now actor turn.old.number) }
        ensures next { OnOk result (turn.new.number ≡ turn_after turn.old.number) }
        ensures later { (turn.new.number ≡ turn.old.number) ⊎ (turn.new.number ≡ turn_after turn.old.number) }
        ensures end { IfErr result (IsPassEnd (G.may_refuse self.now.gate.now) self.now.stop.now actor) }
    {
        if self.stop.is_told() {
            return Err(End::Told);
        }
        if !self.gate.pass(actor, turn.count()) {
            return Err(End::Fault(Refusal::Stopped));
        }
        Ok(())
    }
}

/// Returns whether the try succeeded: false if the box was full or empty, after which the host can try again. Any other refusal ends the host.
pub(crate) fn was_made(tried: Result<(), Refusal>) -> Result<bool, End>
    ensures { IsTried tried result }
{
    match tried {
        Ok(()) => Ok(true),
        Err(Refusal::BoxFull) => Ok(false),
        Err(Refusal::BoxEmpty) => Ok(false),
        Err(refusal) => Err(End::Fault(refusal)),
    }
}
