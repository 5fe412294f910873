ghost use Rattle.std.specs.Prelude.{◌≡◌, ◌⊎◌, Some, ◌<◌, ◌≤◌, ◌+◌, ◌-◌, length, IsSome, IfOk, IfErr, OnOk, OnErr};
ghost use Rattle.dsr_client.specs.State.{outstanding};
ghost use Rattle.dsr_boxes.specs.Pass.{IsPassOf};
ghost use Rattle.dsr_mail.specs.Refusals.{HasAsked};
ghost use Rattle.dsr_calls.specs.Calls.{GoesOn, number_of, awaited, AddsTurns};
ghost use Rattle.dsr_calls.specs.Limits.{CallRefusal};
ghost use Rattle.dsr_calls.specs.Course.{IsAskTurn, IsTakeTurn, IsVisit, IsRefusedVisit, ask_refused};
ghost use Rattle.dsr_mail.specs.Refusals.{take_refused};
ghost use Rattle.dsr_names.specs.declared.actor.Actor.TheVariants.{Replica};
ghost use Rattle.dsr_names.specs.declared.refusal.Refusal.TheVariants.{NoMemory};
ghost use Rattle.dsr_calls.specs.Visits.{pick_beside, HasAskTurn, HasTakeTurn, Keeps, Becomes};

use dsr_envelope::Pick;
use dsr_ledger::Reply;
use dsr_mail::{ClientSeat, Mail};
use dsr_names::{Actor, Refusal, ReplicaId};
use dsr_request::Op;
use std::alloc::Global;

/// Makes the turns at one replica: asks it, unless it was asked already, and takes what it posted, if a turn is left. Returns the reply
/// accepted by that take, if any. A box found full or empty uses up its turn. The refusals are those of `CallRefusal`. Requires a seat of
/// this mail, a replica of the shape, a request to wait for, and a turn.
pub(crate) fn visit(
    alloc: Global,
    mail: &Mail,
    seat: &mut ClientSeat,
    replica: ReplicaId,
    op: &Option<Op>,
    left: &mut u64,
) -> Result<Option<Reply>, Refusal>
    requires mail { IsPassOf mail.now seat.old }
    requires inside { replica < seat.old.shape.n }
    requires due { IsSome (awaited seat.old.shape (number_of seat.old.actor) seat.old.log op.now) }
    requires turn { 0 < left.old }
    ensures log { GoesOn seat.new seat.old }
    ensures ok { IfOk result (Becomes op.now seat.old seat.new) }
    ensures err { OnErr result (Keeps op.now seat.old seat.new) }
    ensures refused { IfErr result (CallRefusal seat.new) }
    ensures added { AddsTurns seat.old op.now seat.new }
    ensures few { length seat.new.log + left.new ≤ length seat.old.log + left.old }
    ensures turns { OnOk result (left.new < left.old) }
    ensures visited { IfOk result (λ reply. IsVisit op.now replica seat.old left.old seat.new left.new reply) }
    ensures stopped { IfErr result (λ refusal. IsRefusedVisit op.now replica seat.old left.old seat.new refusal) }
{
    // For the proof: what its contract says.
    let _client = seat.client();
    match post_turn(alloc, mail, seat, replica, op, left) {
        Ok(()) => {}
        Err(refusal) => return Err(refusal),
    }
    take_turn(mail, seat, replica, left)
}

/// Asks the replica, unless it was asked already, which takes no turn. A full box uses up the turn.
fn post_turn(
    alloc: Global,
    mail: &Mail,
    seat: &mut ClientSeat,
    replica: ReplicaId,
    op: &Option<Op>,
    left: &mut u64,
) -> Result<(), Refusal>
    requires mail { IsPassOf mail.now seat.old }
    requires inside { replica < seat.old.shape.n }
    requires due { IsSome (awaited seat.old.shape (number_of seat.old.actor) seat.old.log op.now) }
    requires turn { 0 < left.old }
    ensures ok { OnOk result (HasAskTurn op.now replica seat.old seat.new) }
    ensures asked { HasAsked seat.old.shape seat.old.log replica → (seat.new ≡ seat.old) × (left.new ≡ left.old) }
    ensures err { OnErr result (seat.new ≡ seat.old) }
    ensures refused { IfErr result (CallRefusal seat.old) }
    ensures few { length seat.new.log + left.new ≤ length seat.old.log + left.old }
    ensures turns { left.new ≤ left.old }
    ensures turn { OnOk result (IsAskTurn op.now replica seat.old left.old seat.new left.new) }
    ensures stopped { IfErr result (λ refusal. (¬ HasAsked seat.old.shape seat.old.log replica)
        × ((ask_refused op.now replica seat.old ≡ Some refusal) ⊎ (refusal ≡ NoMemory))) }
{
    // For the proof: what its contract says.
    let _client = seat.client();
    if seat.asked(replica) {
        return Ok(());
    }
    *left -= 1;
    let pick = choice(seat, op);
    match seat.try_post(alloc, mail, Actor::Replica(replica), pick) {
        Ok(()) => Ok(()),
        Err(Refusal::BoxFull) => Ok(()),
        Err(refusal) => Err(refusal),
    }
}

/// Returns the choice that asks for the awaited request: `Plain` if a request is outstanding or `op` is `None`, else the choice to begin
/// one for `op`.
fn choice(seat: &ClientSeat, op: &Option<Op>) -> Pick
    ensures { result ≡ pick_beside (outstanding seat.now.shape seat.now.log) op.now }
{
    if seat.outstanding().is_some() {
        return Pick::Plain;
    }
    match op {
        Some(op) => Pick::Begin(*op),
        None => Pick::Plain,
    }
}

/// Takes from the replica, if a turn is left, and returns the reply accepted by that take, if any. An empty box uses up the turn.
fn take_turn(
    mail: &Mail,
    seat: &mut ClientSeat,
    replica: ReplicaId,
    left: &mut u64,
) -> Result<Option<Reply>, Refusal>
    requires mail { IsPassOf mail.now seat.old }
    requires inside { replica < seat.old.shape.n }
    ensures ok { IfOk result (HasTakeTurn replica seat.old seat.new) }
    ensures err { OnErr result (seat.new ≡ seat.old) }
    ensures refused { IfErr result (CallRefusal seat.old) }
    ensures few { length seat.new.log + left.new ≤ length seat.old.log + left.old }
    ensures turns { left.new ≡ left.old - 1 }
    ensures turn { IfOk result (λ reply. IsTakeTurn replica seat.old left.old seat.new left.new reply) }
    ensures stopped { IfErr result (λ refusal. (0 < left.old)
        × ((take_refused seat.old.shape seat.old.actor seat.old.log (Replica replica) ≡ Some refusal) ⊎ (refusal ≡ NoMemory))) }
{
    // For the proof: what its contract says.
    let _client = seat.client();
    if *left == 0 {
        return Ok(None);
    }
    *left -= 1;
    match seat.try_take(mail, Actor::Replica(replica)) {
        Ok(reply) => Ok(reply),
        Err(Refusal::BoxEmpty) => Ok(None),
        Err(refusal) => Err(refusal),
    }
}
