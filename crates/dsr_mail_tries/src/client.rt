//! The tries of a client.

ghost use Rattle.dsr_boxes.specs.Pass.{IsPassOf};
ghost use Rattle.dsr_mail_tries.specs.Same.{IsSameSeat};

use crate::dice::Dice;
use crate::player::Player;
use dsr_envelope::Pick;
use dsr_mail::{ClientSeat, Mail};
use dsr_names::Actor;
use dsr_request::{Name, Op};
use std::alloc::Global;

impl Player for ClientSeat {
    ghost pass = { λ s. s };

    /// Tries a call that involves a replica, or, less often, one that involves a client or any actor.
    fn try_once(&mut self, alloc: Global, mail: &Mail, dice: &mut Dice) {
        match dice.below(16) {
            0..=4 => ask(self, alloc, mail, dice),
            5..=11 => take(self, mail, Actor::Replica(dice.replica(mail.shape()))),
            12 => take(self, mail, Actor::Client(dice.client(mail.shape()))),
            13 => tell(self, alloc, mail, Actor::Client(dice.client(mail.shape()))),
            14 => take(self, mail, dice.anyone()),
            _ => stray(self, alloc, mail, dice),
        }
    }
}

/// Tries to ask a replica for the outstanding request, or for a new one if nothing is outstanding.
fn ask(seat: &mut ClientSeat, alloc: Global, mail: &Mail, dice: &mut Dice)
    requires { IsPassOf mail.now seat.old }
    ensures { IsSameSeat seat.old seat.new }
{
    let to = Actor::Replica(dice.replica(mail.shape()));
    let pick = match seat.outstanding() {
        Some(_) => Pick::Plain,
        None => request(dice),
    };
    post(seat, alloc, mail, to, pick);
}

/// Tries to post to any actor with any choice.
fn stray(seat: &mut ClientSeat, alloc: Global, mail: &Mail, dice: &mut Dice)
    requires { IsPassOf mail.now seat.old }
    ensures { IsSameSeat seat.old seat.new }
{
    let pick = if dice.below(2) == 0 {
        Pick::Plain
    } else {
        request(dice)
    };
    post(seat, alloc, mail, dice.anyone(), pick);
}

/// Returns the choice of a new request.
fn request(dice: &mut Dice) -> Pick {
    let letter = b'a' + dice.below(4) as u8;
    let Ok(name) = Name::read(&[letter]) else {
        return Pick::Plain;
    };
    let value = dice.below(5);
    Pick::Begin(match dice.below(5) {
        0 => Op::Read { name },
        1 | 2 => Op::Write { name, value },
        3 => Op::Swap {
            name,
            from: Some(value),
            to: dice.below(5),
        },
        _ => Op::Remove { name },
    })
}

/// Tries to post.
fn post(seat: &mut ClientSeat, alloc: Global, mail: &Mail, to: Actor, pick: Pick)
    requires { IsPassOf mail.now seat.old }
    ensures { IsSameSeat seat.old seat.new }
{
    match seat.try_post(alloc, mail, to, pick) {
        Ok(()) => {}
        Err(_) => {}
    }
}

/// Tries to take.
fn take(seat: &mut ClientSeat, mail: &Mail, from: Actor)
    requires { IsPassOf mail.now seat.old }
    ensures { IsSameSeat seat.old seat.new }
{
    match seat.try_take(mail, from) {
        Ok(_) => {}
        Err(_) => {}
    }
}

/// Tries to tell the seen front.
fn tell(seat: &mut ClientSeat, alloc: Global, mail: &Mail, to: Actor)
    requires { IsPassOf mail.now seat.old }
    ensures { IsSameSeat seat.old seat.new }
{
    match seat.try_tell(alloc, mail, to) {
        Ok(()) => {}
        Err(_) => {}
    }
}
