//! The tries of a traitor.

ghost use Rattle.std.specs.Prelude.{◌≡◌};
ghost use Rattle.dsr_boxes.specs.Pass.{IsPassOf};
ghost use Rattle.dsr_mail_tries.specs.Same.{IsSameSeat};

use crate::dice::Dice;
use crate::player::Player;
use dsr_mail::{Mail, TraitorSeat};
use dsr_names::{Actor, Refusal, ReplicaId, Shape};
use dsr_script::Draft;
use std::alloc::Global;
use std::fmt::Write;

impl Player for TraitorSeat {
    ghost pass = { λ s. s };

    /// Tries to take or to post, mostly with a replica.
    fn try_once(&mut self, alloc: Global, mail: &Mail, dice: &mut Dice) {
        let replica = Actor::Replica(dice.replica(mail.shape()));
        match dice.below(16) {
            0..=6 => take(self, mail, replica),
            7..=13 => send(self, alloc, mail, replica, dice),
            14 => take(self, mail, dice.anyone()),
            _ => send(self, alloc, mail, dice.anyone(), dice),
        }
    }
}

/// Tries to post a random draft.
fn send(seat: &mut TraitorSeat, alloc: Global, mail: &Mail, to: Actor, dice: &mut Dice)
    requires { IsPassOf mail.now seat.old }
    ensures { IsSameSeat seat.old seat.new }
{
    if let Ok(Some(draft)) = some_draft(alloc, mail.shape(), seat.replica(), dice) {
        post(seat, alloc, mail, to, &draft);
    }
}

/// Returns a small draft, with its own signature, with one that it may have taken, or with one that it would have to forge.
fn some_draft(
    alloc: Global,
    shape: &Shape,
    own: ReplicaId,
    dice: &mut Dice,
) -> Result<Option<Draft>, Refusal> {
    let mut text = String::new(alloc);
    let round = dice.below(64);
    let slot = dice.below(16);
    let (sender, client) = (shape.sender(slot), dice.client(shape));
    match dice.below(8) {
        0 => write!(text, "empty")?,
        1 => write!(text, "seen {round}")?,
        2 => write!(text, "reply {round} {slot} written")?,
        3 => write!(text, "ask {client}#1:read:a~{client}")?,
        4 => write!(text, "round {round} {slot}/idle/{sender}")?,
        5 => write!(text, "round {round} {slot}/idle/{sender}+{own}")?,
        _ => write!(text, "round {round} {slot}/idle/{own}")?,
    }
    Draft::read(alloc, text.as_bytes())
}

/// Tries to post.
fn post(seat: &mut TraitorSeat, alloc: Global, mail: &Mail, to: Actor, draft: &Draft)
    requires { IsPassOf mail.now seat.old }
    ensures { IsSameSeat seat.old seat.new }
{
    match seat.try_post(alloc, mail, to, draft) {
        Ok(()) => {}
        Err(_) => {}
    }
}

/// Tries to take.
fn take(seat: &mut TraitorSeat, mail: &Mail, from: Actor)
    requires { IsPassOf mail.now seat.old }
    ensures { IsSameSeat seat.old seat.new }
{
    match seat.try_take(mail, from) {
        Ok(()) => {}
        Err(_) => {}
    }
}
