ghost use Rattle.std.specs.Prelude.{◌≡◌};
ghost use Rattle.dsr_names.specs.Shape.{IsActor};
ghost use Rattle.dsr_boxes.specs.Pass.{IsPassOf};
ghost use Rattle.dsr_hosts.specs.Seats.{pass_of, is_of_client};

use dsr_mail::{ClientSeat, Mail, ReplicaSeat, TraitorSeat};
use dsr_names::Actor;

/// A seat of any kind.
#[derive(Drop)]
pub(crate) enum AnySeat {
    /// The seat of a loyal replica.
    Loyal(ReplicaSeat),
    /// The seat of a traitor.
    Traitor(TraitorSeat),
    /// The seat of a client.
    OfClient(ClientSeat),
}

impl AnySeat {
    /// Returns the seat's actor.
    pub(crate) fn actor(&self) -> Actor
        ensures same { result ≡ (pass_of self.now).actor }
        ensures inside { IsActor (pass_of self.now).shape result }
    {
        match self {
            AnySeat::Loyal(seat) => seat.actor(),
            AnySeat::Traitor(seat) => seat.actor(),
            AnySeat::OfClient(seat) => seat.actor(),
        }
    }

    /// Returns whether it is a client's seat.
    pub(crate) fn is_of_client(&self) -> bool
        ensures { result ≡ is_of_client self.now }
    {
        match self {
            AnySeat::Loyal(_) => false,
            AnySeat::Traitor(_) => false,
            AnySeat::OfClient(_) => true,
        }
    }

    /// Wakes every actor that sleeps at the mail now. Requires a seat of this mail.
    pub(crate) fn wake(&self, mail: &Mail)
        requires { IsPassOf mail.now (pass_of self.now) }
    {
        match self {
            AnySeat::Loyal(seat) => seat.wake(mail),
            AnySeat::Traitor(seat) => seat.wake(mail),
            AnySeat::OfClient(seat) => seat.wake(mail),
        }
    }
}
