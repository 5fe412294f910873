//! Two clients, of which the second asks after it was shown a moment at which the first had its reply.

ghost use Rattle.std.specs.Prelude.{◌≡◌, ◌∷◌, [], IfOk};
ghost use Rattle.dsr_base.specs.Growth.{Extends};
ghost use Rattle.dsr_names.specs.Shape.{shape_of};
ghost use Rattle.dsr_names.specs.declared.actor.Actor.TheVariants.{Replica, Client};
ghost use Rattle.dsr_run.specs.Step.{log_of};
ghost use Rattle.dsr_boxes.specs.Moment.{IsMomentOf};
ghost use Rattle.dsr_boxes.specs.Pass.{IsPassOf, new_pass};
ghost use Rattle.dsr_mail.specs.Seats.{is_loyal_replica, is_traitor_replica, is_client, AreSeatsOf};
ghost use Rattle.dsr_mail_tries.specs.Order.{IsBetween, IsInOrder};
ghost use Rattle.dsr_mail_tries.specs.Same.{IsSameSeat};

use crate::asking::ask_in_threads;
use dsr_boxes::Moment;
use dsr_desk::Keys;
use dsr_mail::{ClientSeat, Logs, Mail, ReplicaSeat, Seats};
use dsr_names::{Refusal, Shape};
use dsr_request::{Name, Op};
use std::alloc::Global;
use std::thread::Threads;

/// Opens a mail of one replica and two clients. Client 0 writes 7 to the register `a`, and then client 1 reads it. Returns the logs, in which the place
/// of client 0's reply is lower than that of client 1's. `Unanswered` if a thread waited for another in vain; `NoMemory` if memory runs out.
pub(crate) fn ask_in_order<R: Threads>(rt: &R, alloc: Global) -> Result<Logs, Refusal>
    ensures ordered { IfOk result IsInOrder }
{
    let shape = Shape::new(1, 0, 2, 0)?;
    let keys = Keys::new(alloc, shape)?;
    let (mail, mut seats) = Mail::open(alloc, shape, keys)?;
    match ask_from_seats(rt, alloc, &mail, &mut seats) {
        Ok(moment) => Ok(mail.close_after(seats, moment)),
        Err(refusal) => Err(refusal),
    }
}

/// Has both clients ask from their seats, which are new. Returns a moment between the two. All seats are given back.
fn ask_from_seats<R: Threads>(
    rt: &R,
    alloc: Global,
    mail: &Mail,
    seats: &mut Seats,
) -> Result<Moment, Refusal>
    requires shape { mail.now.shape ≡ shape_of 1 0 2 0 }
    requires replicas { seats.old.replicas.items ≡ new_pass mail.now (Replica 0) ∷ [] }
    requires traitors { seats.old.traitors.items ≡ [] }
    requires clients { seats.old.clients.items ≡ new_pass mail.now (Client 0) ∷ new_pass mail.now (Client 1) ∷ [] }
    ensures replicas { AreSeatsOf mail.now is_loyal_replica seats.new.replicas.items }
    ensures traitors { AreSeatsOf mail.now is_traitor_replica seats.new.traitors.items }
    ensures clients { AreSeatsOf mail.now is_client seats.new.clients.items }
    ensures moment { IfOk result (IsMomentOf mail.now) }
    ensures between { IfOk result (IsBetween seats.new.clients.items) }
{
    let Some(mut replica) = seats.replicas.pop() else {
        unreachable!()
    };
    let Some(mut second) = seats.clients.pop() else {
        unreachable!()
    };
    let Some(mut first) = seats.clients.pop() else {
        unreachable!()
    };
    let ended = both_ask(rt, alloc, mail, &mut replica, &mut first, &mut second);
    seats.replicas.push_reserved(replica);
    seats.clients.push_reserved(first);
    seats.clients.push_reserved(second);
    ended
}

/// Has the first client write 7 to the register `a`. The second client is shown the moment of the reply, and then reads the register. Returns this moment.
fn both_ask<R: Threads>(
    rt: &R,
    alloc: Global,
    mail: &Mail,
    replica: &mut ReplicaSeat,
    first: &mut ClientSeat,
    second: &mut ClientSeat,
) -> Result<Moment, Refusal>
    requires replica { IsPassOf mail.now replica.old }
    requires first { IsPassOf mail.now first.old }
    requires second { IsPassOf mail.now second.old }
    ensures replica { IsSameSeat replica.old replica.new }
    ensures first { IsSameSeat first.old first.new }
    ensures second { IsSameSeat second.old second.new }
    ensures moment { IfOk result (IsMomentOf mail.now) }
    ensures done { IfOk result (λ moment. log_of moment.run first.new.actor ≡ first.new.log) }
    ensures past { IfOk result (λ moment. Extends second.old.log (log_of moment.run second.old.actor)) }
{
    let name = Name::read(b"a")?;
    let write = Op::Write { name, value: 7 };
    let mut moment = ask_in_threads(rt, alloc, mail, replica, first, write)?;
    second.recall(mail, mail.copy_moment(&mut moment));
    ask_in_threads(rt, alloc, mail, replica, second, Op::Read { name })?;
    Ok(moment)
}
