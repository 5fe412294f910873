//! A client asks in one thread, and a replica answers in another.

ghost use Rattle.std.specs.Prelude.{◌≡◌, IfOk};
ghost use Rattle.dsr_run.specs.Step.{log_of};
ghost use Rattle.dsr_boxes.specs.Moment.{IsMomentOf};
ghost use Rattle.dsr_boxes.specs.Pass.{IsPassOf};
ghost use Rattle.dsr_mail_tries.specs.Same.{IsSameSeat};

use dsr_boxes::Moment;
use dsr_envelope::{Clients, Pick};
use dsr_mail::{ClientSeat, Mail, ReplicaSeat};
use dsr_names::{Actor, ClientId, Refusal, ReplicaId};
use dsr_request::Op;
use std::alloc::Global;
use std::thread::{self, Threads, join_mut};

/// The number of tries after which a thread no longer waits for the other one, which may have been refused memory.
const MOST_TRIES: u32 = 1 << 28;

/// The only replica.
const REPLICA: Actor = Actor::Replica(ReplicaId::FIRST);

/// Has the client ask for the operation in one thread, and the replica answer it in another. Returns a moment at which the client has its reply.
/// `Unanswered` if a thread waited for the other one in vain; `NoMemory` if memory runs out.
pub(crate) fn ask_in_threads<R: Threads>(
    rt: &R,
    alloc: Global,
    mail: &Mail,
    replica: &mut ReplicaSeat,
    client: &mut ClientSeat,
    operation: Op,
) -> Result<Moment, Refusal>
    requires replica { IsPassOf mail.now replica.old }
    requires client { IsPassOf mail.now client.old }
    ensures replica { IsSameSeat replica.old replica.new }
    ensures client { IsSameSeat client.old client.new }
    ensures moment { IfOk result (IsMomentOf mail.now) }
    ensures done { IfOk result (λ moment. log_of moment.run client.new.actor ≡ client.new.log) }
{
    let asker = client.client();
    let (answered, asked) = join_mut(
        rt,
        &mut || -> Result<(), Refusal>
            requires { IsPassOf mail.now replica.now }
            ensures { IsSameSeat replica.entry.now replica.exit.now }
        { answer(alloc, mail, replica, asker) },
        &mut || -> Result<Moment, Refusal>
            requires { IsPassOf mail.now client.now }
            ensures same { IsSameSeat client.entry.now client.exit.now }
            ensures moment { IfOk result (IsMomentOf mail.entry.now) }
            ensures done { IfOk result (λ moment. log_of moment.run client.exit.now.actor ≡ client.exit.now.log) }
        { ask(alloc, mail, client, operation) },
    );
    answered?;
    asked
}

/// Asks the replica for the operation, and waits for its reply. Returns the moment then.
fn ask(alloc: Global, mail: &Mail, seat: &mut ClientSeat, operation: Op) -> Result<Moment, Refusal>
    requires { IsPassOf mail.now seat.old }
    ensures same { IsSameSeat seat.old seat.new }
    ensures moment { IfOk result (IsMomentOf mail.now) }
    ensures done { IfOk result (λ moment. log_of moment.run seat.new.actor ≡ seat.new.log) }
{
    seat.try_post(alloc, mail, REPLICA, Pick::Begin(operation))?;
    hear(mail, seat)?;
    Ok(seat.moment(mail))
}

/// Waits for the replica's reply. `take_ask` is the same for the other kind of seat: the two kinds share no trait.
fn hear(mail: &Mail, seat: &mut ClientSeat) -> Result<(), Refusal>
    requires { IsPassOf mail.now seat.old }
    ensures { IsSameSeat seat.old seat.new }
{
    for _ in 0..MOST_TRIES {
        match seat.try_take(mail, REPLICA) {
            Ok(_) => return Ok(()),
            Err(Refusal::BoxEmpty) => thread::yield_now(),
            Err(refusal) => return Err(refusal),
        }
    }
    Err(Refusal::Unanswered)
}

/// Waits until the client asks, proposes that alone, and posts the reply.
fn answer(
    alloc: Global,
    mail: &Mail,
    seat: &mut ReplicaSeat,
    client: ClientId,
) -> Result<(), Refusal>
    requires { IsPassOf mail.now seat.old }
    ensures { IsSameSeat seat.old seat.new }
{
    take_ask(mail, seat, client)?;
    decide(alloc, mail, seat, client)?;
    seat.try_post(alloc, mail, Actor::Client(client), Pick::Plain)?;
    Ok(())
}

/// Waits until the client asks.
fn take_ask(mail: &Mail, seat: &mut ReplicaSeat, client: ClientId) -> Result<(), Refusal>
    requires { IsPassOf mail.now seat.old }
    ensures { IsSameSeat seat.old seat.new }
{
    for _ in 0..MOST_TRIES {
        match seat.try_take(mail, Actor::Client(client)) {
            Ok(()) => return Ok(()),
            Err(Refusal::BoxEmpty) => thread::yield_now(),
            Err(refusal) => return Err(refusal),
        }
    }
    Err(Refusal::Unanswered)
}

/// Goes through a round: the replica proposes what the client asks for, to itself alone.
fn decide(
    alloc: Global,
    mail: &Mail,
    seat: &mut ReplicaSeat,
    client: ClientId,
) -> Result<(), Refusal>
    requires { IsPassOf mail.now seat.old }
    ensures { IsSameSeat seat.old seat.new }
{
    let Some(clients) = Clients::of(&[client]) else {
        unreachable!()
    };
    seat.try_post(alloc, mail, REPLICA, Pick::From(clients))?;
    seat.try_take(mail, REPLICA)?;
    Ok(())
}
