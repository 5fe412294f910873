//! Seats that make tries at a mail.

ghost use Rattle.dsr_boxes.specs.Pass.{Pass, IsPassOf};
ghost use Rattle.dsr_mail_tries.specs.Same.{IsSameSeat};

use crate::dice::Dice;
use dsr_mail::Mail;
use std::alloc::Global;

/// A seat that makes random tries.
pub(crate) trait Player {
    // the pass that represents the seat
    ghost pass: { Self → Pass };

    /// Makes one try: a call that succeeds or is refused. It never waits.
    fn try_once(&mut self, alloc: Global, mail: &Mail, dice: &mut Dice)
        requires { IsPassOf mail.now (pass self.old) }
        ensures { IsSameSeat (pass self.old) (pass self.new) };
}
