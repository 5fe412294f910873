//! The threads, and their turns over seats.

ghost use Rattle.std.specs.Prelude.{◌≡◌, map};
ghost use Rattle.std.specs.Thread.{IsSync};
ghost use Rattle.dsr_boxes.specs.Pass.{new_pass};
ghost use Rattle.dsr_mail.specs.Seats.{is_loyal_replica, is_traitor_replica, is_client, actors_of, AreSeatsOf};
ghost use Rattle.dsr_mail_tries.specs.Same.{AreOfMail, AreSameSeats};

use crate::dice::Dice;
use crate::plan::Plan;
use crate::player::Player;
use dsr_desk::Keys;
use dsr_mail::{ClientSeat, Logs, Mail, ReplicaSeat, Seats, TraitorSeat};
use dsr_names::Refusal;
use std::alloc::Global;
use std::thread::{Threads, for_each_chunk_mut, join_mut};

/// The kind of a seat; seats of different kinds have different random choices.
#[derive(Clone, Copy)]
enum Kind {
    Replicas,
    Traitors,
    Clients,
}

impl Kind {
    /// Returns the stream of random choices for the seats of this kind from the place `start` on.
    fn stream(self, start: usize) -> u64 {
        let kind = match self {
            Kind::Replicas => 0,
            Kind::Traitors => 1,
            Kind::Clients => 2,
        };
        (start as u64).wrapping_mul(3).wrapping_add(kind)
    }
}

/// Makes the tries of the plan at a new mail, and returns the logs. `NoMemory` if memory for the mail runs out.
pub(crate) fn logs_of<R: Threads + Sync>(
    rt: &R,
    alloc: Global,
    plan: &Plan,
) -> Result<Logs, Refusal> {
    let shape = plan.shape;
    let keys = Keys::new(alloc, shape)?;
    let (mail, mut seats) = Mail::open(alloc, shape, keys)?;
    try_all(rt, alloc, &mail, plan, &mut seats);
    Ok(mail.close(seats))
}

/// Makes the tries at all seats of a mail at which nothing was done yet. All seats are given back.
fn try_all<R: Threads + Sync>(rt: &R, alloc: Global, mail: &Mail, plan: &Plan, seats: &mut Seats)
    requires replicas { seats.old.replicas.items ≡ map (new_pass mail.now) (actors_of is_loyal_replica mail.now.shape) }
    requires traitors { seats.old.traitors.items ≡ map (new_pass mail.now) (actors_of is_traitor_replica mail.now.shape) }
    requires clients { seats.old.clients.items ≡ map (new_pass mail.now) (actors_of is_client mail.now.shape) }
    ensures replicas { AreSeatsOf mail.now is_loyal_replica seats.new.replicas.items }
    ensures traitors { AreSeatsOf mail.now is_traitor_replica seats.new.traitors.items }
    ensures clients { AreSeatsOf mail.now is_client seats.new.clients.items }
{
    let replicas = seats.replicas.as_mut_slice();
    let traitors = seats.traitors.as_mut_slice();
    let clients = seats.clients.as_mut_slice();
    try_kinds(rt, alloc, mail, plan, replicas, traitors, clients);
}

/// Makes the tries at these seats of the mail.
fn try_kinds<R: Threads + Sync>(
    rt: &R,
    alloc: Global,
    mail: &Mail,
    plan: &Plan,
    replicas: &mut [ReplicaSeat],
    traitors: &mut [TraitorSeat],
    clients: &mut [ClientSeat],
)
    requires replicas { AreOfMail (λ seat. seat) mail.now replicas.old }
    requires traitors { AreOfMail (λ seat. seat) mail.now traitors.old }
    requires clients { AreOfMail (λ seat. seat) mail.now clients.old }
    ensures replicas { AreSameSeats (λ seat. seat) replicas.old replicas.new }
    ensures traitors { AreSameSeats (λ seat. seat) traitors.old traitors.new }
    ensures clients { AreSameSeats (λ seat. seat) clients.old clients.new }
{
    join_mut(
        rt,
        &mut ||
            requires { IsSync R.row × AreOfMail (λ seat. seat) mail.now replicas.now }
            ensures { AreSameSeats (λ seat. seat) replicas.entry.now replicas.exit.now }
        { spread(rt, alloc, mail, plan, Kind::Replicas, replicas) },
        &mut ||
            requires { IsSync R.row × AreOfMail (λ seat. seat) mail.now traitors.now × AreOfMail (λ seat. seat) mail.now clients.now }
            ensures traitors { AreSameSeats (λ seat. seat) traitors.entry.now traitors.exit.now }
            ensures clients { AreSameSeats (λ seat. seat) clients.entry.now clients.exit.now }
        { try_others(rt, alloc, mail, plan, traitors, clients) },
    );
}

/// Makes the tries at the seats of traitors and of clients.
fn try_others<R: Threads + Sync>(
    rt: &R,
    alloc: Global,
    mail: &Mail,
    plan: &Plan,
    traitors: &mut [TraitorSeat],
    clients: &mut [ClientSeat],
)
    requires traitors { AreOfMail (λ seat. seat) mail.now traitors.old }
    requires clients { AreOfMail (λ seat. seat) mail.now clients.old }
    ensures traitors { AreSameSeats (λ seat. seat) traitors.old traitors.new }
    ensures clients { AreSameSeats (λ seat. seat) clients.old clients.new }
{
    join_mut(
        rt,
        &mut ||
            requires { IsSync R.row × AreOfMail (λ seat. seat) mail.now traitors.now }
            ensures { AreSameSeats (λ seat. seat) traitors.entry.now traitors.exit.now }
        { spread(rt, alloc, mail, plan, Kind::Traitors, traitors) },
        &mut ||
            requires { IsSync R.row × AreOfMail (λ seat. seat) mail.now clients.now }
            ensures { AreSameSeats (λ seat. seat) clients.entry.now clients.exit.now }
        { spread(rt, alloc, mail, plan, Kind::Clients, clients) },
    );
}

/// Makes the tries at the seats of a kind, in threads that have some of the seats each.
fn spread<R: Threads + Sync, P: Player + Send>(
    rt: &R,
    alloc: Global,
    mail: &Mail,
    plan: &Plan,
    kind: Kind,
    seats: &mut [P],
)
    requires { AreOfMail P.pass mail.now seats.old }
    ensures { AreSameSeats P.pass seats.old seats.new }
{
    for_each_chunk_mut(
        rt,
        seats,
        plan.seats(),
        &|start: usize, part: &mut [P]|
            requires { AreOfMail P.pass mail.now part.now }
            ensures { AreSameSeats P.pass part.entry.now part.exit.now }
        { take_turns(alloc, mail, plan, kind.stream(start), part) },
    );
}

/// Makes the tries of a thread: each at one of the seats, by random choices of this stream.
fn take_turns<P: Player>(alloc: Global, mail: &Mail, plan: &Plan, stream: u64, seats: &mut [P])
    requires { AreOfMail P.pass mail.now seats.old }
    ensures { AreSameSeats P.pass seats.old seats.new }
{
    if seats.is_empty() {
        return;
    }
    let mut dice = Dice::new(plan.seed, stream);
    for _ in 0..plan.tries {
        let place = dice.below(seats.len() as u64) as usize;
        seats[place].try_once(alloc, mail, &mut dice);
    }
}
