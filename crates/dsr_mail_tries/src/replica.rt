//! The tries of a loyal replica.

ghost use Rattle.dsr_boxes.specs.Pass.{IsPassOf};
ghost use Rattle.dsr_mail_tries.specs.Same.{IsSameSeat};

use crate::dice::Dice;
use crate::player::Player;
use dsr_envelope::{Clients, Due, Pick};
use dsr_mail::{Mail, ReplicaSeat};
use dsr_names::{Actor, ReplicaId, Shape};
use std::alloc::Global;

impl Player for ReplicaSeat {
    ghost pass = { λ s. s };

    /// Tries what is due, a call that involves a client, or, less often, any call.
    fn try_once(&mut self, alloc: Global, mail: &Mail, dice: &mut Dice) {
        match dice.below(16) {
            0..=5 => follow(self, alloc, mail, dice),
            6..=10 => take(self, mail, Actor::Client(dice.client(mail.shape()))),
            11..=13 => reply(self, alloc, mail, dice),
            14 => take(self, mail, dice.anyone()),
            _ => stray(self, alloc, mail, dice),
        }
    }
}

/// Tries what is due.
fn follow(seat: &mut ReplicaSeat, alloc: Global, mail: &Mail, dice: &mut Dice)
    requires { IsPassOf mail.now seat.old }
    ensures { IsSameSeat seat.old seat.new }
{
    match seat.due() {
        Due::Post(to) => {
            let pick = proposal(seat, mail.shape(), dice, to);
            post(seat, alloc, mail, Actor::Replica(to), pick);
        }
        Due::Take(from) => take(seat, mail, Actor::Replica(from)),
    }
}

/// Tries to post the reply for a client.
fn reply(seat: &mut ReplicaSeat, alloc: Global, mail: &Mail, dice: &mut Dice)
    requires { IsPassOf mail.now seat.old }
    ensures { IsSameSeat seat.old seat.new }
{
    let client = dice.client(mail.shape());
    post(seat, alloc, mail, Actor::Client(client), Pick::Plain);
}

/// Tries to post to any actor with any choice.
fn stray(seat: &mut ReplicaSeat, alloc: Global, mail: &Mail, dice: &mut Dice)
    requires { IsPassOf mail.now seat.old }
    ensures { IsSameSeat seat.old seat.new }
{
    let pick = some_clients(mail.shape(), dice);
    post(seat, alloc, mail, dice.anyone(), pick);
}

/// Returns a choice for a post to this replica: the requests of some clients if the seat allows one of four tries, else the plain choice.
fn proposal(seat: &ReplicaSeat, shape: &Shape, dice: &mut Dice, to: ReplicaId) -> Pick {
    for _ in 0..4 {
        let pick = some_clients(shape, dice);
        if is_allowed(seat, to, &pick) {
            return pick;
        }
    }
    Pick::Plain
}

/// Tells whether it may post to this replica with this choice.
fn is_allowed(seat: &ReplicaSeat, to: ReplicaId, pick: &Pick) -> bool {
    seat.allows(to, *pick)
}

/// Returns the choice of one client or two.
fn some_clients(shape: &Shape, dice: &mut Dice) -> Pick {
    let (one, other) = (dice.client(shape), dice.client(shape));
    let both = [one, other];
    let clients = if dice.below(2) == 0 {
        Clients::of(&both)
    } else {
        Clients::of(&[one])
    };
    match clients {
        Some(clients) => Pick::From(clients),
        None => Pick::Plain,
    }
}

/// Tries to post.
fn post(seat: &mut ReplicaSeat, alloc: Global, mail: &Mail, to: Actor, pick: Pick)
    requires { IsPassOf mail.now seat.old }
    ensures { IsSameSeat seat.old seat.new }
{
    match seat.try_post(alloc, mail, to, pick) {
        Ok(()) => {}
        Err(_) => {}
    }
}

/// Tries to take.
fn take(seat: &mut ReplicaSeat, mail: &Mail, from: Actor)
    requires { IsPassOf mail.now seat.old }
    ensures { IsSameSeat seat.old seat.new }
{
    match seat.try_take(mail, from) {
        Ok(()) => {}
        Err(_) => {}
    }
}
