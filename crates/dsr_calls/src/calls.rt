ghost use Rattle.std.specs.Prelude.{◌≡◌, ◌⊎◌, ◌↔◌, ◌+◌, ◌<◌, ◌≤◌, ◌==◌, suc, length, None, Some, if◌then◌else◌, IsSome, IsNone, IfOk, IfErr, OnErr, IsErrOf};
ghost use Rattle.dsr_names.specs.declared.refusal.Refusal.{Refusal};
ghost use Rattle.dsr_client.specs.State.{accepted, outstanding};
ghost use Rattle.dsr_boxes.specs.Pass.{IsPassOf};
ghost use Rattle.dsr_calls.specs.Calls.{GoesOn, number_of, awaited, Awaits, AddsTurns, Answers};
ghost use Rattle.dsr_calls.specs.Course.{HasCourse};
ghost use Rattle.dsr_calls.specs.Limits.{CallRefusal};

use crate::visits::visit;
use dsr_ledger::Reply;
use dsr_mail::{ClientSeat, Mail};
use dsr_names::{Refusal, ReplicaId};
use dsr_request::Op;
use std::alloc::Global;
use std::thread;

/// Asks for the operation `op`, and returns the reply that the client accepts to it. It goes through the replicas again and again, from replica 0 on:
/// at each replica one turn goes to a post, unless that replica was asked already, and one to a take. A turn adds its entry to the log, or nothing.
/// The first post that succeeds begins the request. `Busy` if and only if a request is outstanding: then nothing is changed. `Unanswered` if the
/// `turns` run out: the request may have begun, and then it is outstanding, for `go_on`. `Exhausted` if a counter of the client would pass its limit;
/// `NoMemory` if memory runs out. After each of these refusals nothing more is accepted than before. Requires a seat of this mail.
pub fn ask(
    alloc: Global,
    mail: &Mail,
    seat: &mut ClientSeat,
    op: Op,
    turns: u64,
) -> Result<Reply, Refusal>
    requires mail { IsPassOf mail.now seat.old }
    ensures log { GoesOn seat.new seat.old }
    ensures turns { AddsTurns seat.old (Some op) seat.new }
    ensures few { length seat.new.log ≤ length seat.old.log + turns }
    ensures course { IsNone (outstanding seat.old.shape seat.old.log) → HasCourse (Some op) turns seat.old seat.new result }
    ensures busy { IsErrOf result Refusal.Busy ↔ IsSome (outstanding seat.old.shape seat.old.log) }
    ensures unchanged { IsErrOf result Refusal.Busy → seat.new ≡ seat.old }
    ensures answered { IfOk result (Answers seat.old (Some op) seat.new) }
    ensures awaited { OnErr result (Awaits seat.old (Some op) seat.new) }
    ensures same { OnErr result (accepted seat.new.shape seat.new.log ≡ accepted seat.old.shape seat.old.log) }
    ensures refused { IfErr result (λ refusal. (refusal ≡ Refusal.Busy) ⊎ CallRefusal seat.new refusal) }
{
    // For the proof: what its contract says.
    let _client = seat.client();
    if seat.outstanding().is_some() {
        return Err(Refusal::Busy);
    }
    go_round(alloc, mail, seat, &Some(op), turns)
}

/// Goes on with the outstanding request, and returns the reply that the client accepts to it. It goes through the replicas as `ask` does. `NotDue` if
/// and only if nothing is outstanding: then nothing is changed. `Unanswered` if the `turns` run out; `Exhausted` if a counter of the client would
/// pass its limit; `NoMemory` if memory runs out. After each of these refusals nothing more is accepted than before. Requires a seat of this mail.
pub fn go_on(
    alloc: Global,
    mail: &Mail,
    seat: &mut ClientSeat,
    turns: u64,
) -> Result<Reply, Refusal>
    requires mail { IsPassOf mail.now seat.old }
    ensures log { GoesOn seat.new seat.old }
    ensures turns { AddsTurns seat.old None seat.new }
    ensures few { length seat.new.log ≤ length seat.old.log + turns }
    ensures course { IsSome (outstanding seat.old.shape seat.old.log) → HasCourse None turns seat.old seat.new result }
    ensures idle { IsErrOf result Refusal.NotDue ↔ IsNone (outstanding seat.old.shape seat.old.log) }
    ensures unchanged { IsErrOf result Refusal.NotDue → seat.new ≡ seat.old }
    ensures answered { IfOk result (Answers seat.old None seat.new) }
    ensures awaited { OnErr result (Awaits seat.old None seat.new) }
    ensures same { OnErr result (accepted seat.new.shape seat.new.log ≡ accepted seat.old.shape seat.old.log) }
    ensures refused { IfErr result (λ refusal. (refusal ≡ Refusal.NotDue) ⊎ CallRefusal seat.new refusal) }
{
    if seat.outstanding().is_none() {
        return Err(Refusal::NotDue);
    }
    go_round(alloc, mail, seat, &None, turns)
}

/// Goes through the replicas again and again until a reply is accepted, the `turns` run out, or a turn is refused. Requires a seat of this mail, and
/// a request to wait for: the outstanding one, or a new one for the operation `op`.
fn go_round(
    alloc: Global,
    mail: &Mail,
    seat: &mut ClientSeat,
    op: &Option<Op>,
    turns: u64,
) -> Result<Reply, Refusal>
    requires mail { IsPassOf mail.now seat.old }
    requires due { IsSome (awaited seat.old.shape (number_of seat.old.actor) seat.old.log op.now) }
    ensures log { GoesOn seat.new seat.old }
    ensures turns { AddsTurns seat.old op.now seat.new }
    ensures few { length seat.new.log ≤ length seat.old.log + turns }
    ensures course { HasCourse op.now turns seat.old seat.new result }
    ensures answered { IfOk result (Answers seat.old op.now seat.new) }
    ensures awaited { OnErr result (Awaits seat.old op.now seat.new) }
    ensures same { OnErr result (accepted seat.new.shape seat.new.log ≡ accepted seat.old.shape seat.old.log) }
    ensures refused { IfErr result (CallRefusal seat.new) }
{
    // For the proof: what its contract says.
    let _client = seat.client();
    let n = mail.shape().n();
    let mut left = turns;
    let mut number = 0;
    while left > 0 {
        let replica = ReplicaId::of(number);
        match visit(alloc, mail, seat, replica, op, &mut left) {
            Ok(Some(reply)) => return Ok(reply),
            Ok(None) => {}
            Err(refusal) => return Err(refusal),
        }
        number = next_after(number, n);
    }
    Err(Refusal::Unanswered)
}

/// Returns the number of the replica after this one. After the last it returns 0, and lets other threads run first.
fn next_after(number: u8, n: u8) -> u8
    requires { number < n }
    ensures next { result ≡ (if suc number == n then 0 else suc number) }
    ensures inside { result < n }
{
    if number + 1 < n {
        number + 1
    } else {
        thread::yield_now();
        0
    }
}
