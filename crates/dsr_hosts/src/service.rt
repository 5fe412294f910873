//! The host of a seat in a service, and how it ends.

ghost use Rattle.std.specs.Prelude.{◌≡◌, ◌↔◌, true, false, IsSome, IfSome};
ghost use Rattle.dsr_boxes.specs.Pass.{IsPassOf};
ghost use Rattle.dsr_hosts.specs.Hosted.{ComesBack};
ghost use Rattle.dsr_hosts.specs.Leaving.{HasTold};
ghost use Rattle.dsr_hosts.specs.Seats.{pass_of, is_of_client, IsNewSeat, IsAgain};

use crate::any_seat::AnySeat;
use crate::back::Back;
use crate::over::Over;
use dsr_mail::{ClientSeat, ReplicaSeat, TraitorSeat};
use dsr_rounds::{End, Gate, Host, Noted, Told};
use dsr_script::Script;
use std::sync::Wait;
use std::sync::atomic::AtomicU64;
use std::sync::atomic::Ordering::SeqCst;
use std::thread;

/// How many rounds the host of a replica or a traitor makes.
const ROUNDS: u64 = 4096;

/// What all hosts of a service share.
#[derive(Drop)]
pub(crate) struct Service<'a, R, G> {
    /// What each of them works with besides its seat.
    pub(crate) host: Host<'a, R, G>,
    /// The script.
    pub(crate) script: &'a Script,
    /// The number of clients' hosts that have not done their work yet.
    pub(crate) clients: &'a AtomicU64,
}

/// What a host did when it left the service.
#[derive(Drop)]
pub(crate) struct Leaving {
    told: Option<Told>,
    noted: Option<Noted>,
    over: Option<Over>,
}

impl<'a, R: Wait, G: Gate> Service<'a, R, G> {
    /// Hosts the seat until the work is done or something ends it. Requires a seat of the service's mail, at which nothing was done.
    pub(crate) fn run(&self, seat: AnySeat) -> Back
        requires { IsNewSeat self.now.host.mail.now (pass_of seat) }
        ensures { ComesBack (G.may_refuse self.now.host.gate.now) self.now.host.mail.now self.now.script.now seat result }
    {
        let back = match seat {
            AnySeat::Loyal(seat) => self.run_replica(seat),
            AnySeat::Traitor(seat) => self.run_traitor(seat),
            AnySeat::OfClient(seat) => self.run_client(seat),
        };
        let _left = self.leave(&back);
        back
    }

    /// Hosts the seat of a loyal replica, at which nothing was done.
    fn run_replica(&self, mut seat: ReplicaSeat) -> Back
        requires { IsNewSeat self.now.host.mail.now seat }
        ensures { ComesBack (G.may_refuse self.now.host.gate.now) self.now.host.mail.now self.now.script.now (AnySeat.Loyal seat) result }
    {
        let done = self.host.run_replica(&mut seat, ROUNDS);
        // For the proof: what its contract says.
        let _actor = seat.actor();
        let seat = AnySeat::Loyal(seat);
        Back {
            seat,
            end: done.err(),
        }
    }

    /// Hosts the seat of a traitor, at which nothing was done.
    fn run_traitor(&self, mut seat: TraitorSeat) -> Back
        requires { IsNewSeat self.now.host.mail.now seat }
        ensures { ComesBack (G.may_refuse self.now.host.gate.now) self.now.host.mail.now self.now.script.now (AnySeat.Traitor seat) result }
    {
        let done = self.host.run_traitor(&mut seat, self.script, ROUNDS);
        // For the proof: what its contract says.
        let _actor = seat.actor();
        let seat = AnySeat::Traitor(seat);
        Back {
            seat,
            end: done.err(),
        }
    }

    /// Hosts the seat of a client, at which nothing was done.
    fn run_client(&self, mut seat: ClientSeat) -> Back
        requires { IsNewSeat self.now.host.mail.now seat }
        ensures { ComesBack (G.may_refuse self.now.host.gate.now) self.now.host.mail.now self.now.script.now (AnySeat.OfClient seat) result }
    {
        let done = self.make_all(&mut seat);
        // For the proof: what its contract says.
        let _actor = seat.actor();
        let seat = AnySeat::OfClient(seat);
        Back {
            seat,
            end: done.err(),
        }
    }

    /// Leaves the service after the host of the seat has ended. A refusal tells all others to stop, and so does the last client's work when it is
    /// done. The host that tells them first waits until all replicas' and traitors' hosts have ended.
    fn leave(&self, back: &Back) -> Leaving
        requires { IsPassOf self.now.host.mail.now (pass_of back.now.seat) }
        ensures told { HasTold (is_of_client back.now.seat) back.now.end result.told }
        ensures noted { IsSome result.noted ↔ (is_of_client back.now.seat ≡ false) }
        ensures over { IfSome result.told (λ told. told.first ≡ true → IsSome result.over) }
    {
        let told = self.tell_after(back);
        let noted = self.note_end_of(back);
        let over = match &told {
            Some(told) => self.see_end_after(told, &back.seat),
            None => None,
        };
        Leaving { told, noted, over }
    }

    /// Tells all others to stop if the host of the seat was refused, or if it did the last client's work.
    fn tell_after(&self, back: &Back) -> Option<Told>
        ensures { HasTold (is_of_client back.now.seat) back.now.end result }
    {
        match &back.end {
            Some(End::Fault(_)) => Some(self.host.stop.tell()),
            Some(End::Told) => None,
            None => {
                if back.seat.is_of_client() && self.clients.fetch_sub(1, SeqCst) == 1 {
                    Some(self.host.stop.tell())
                } else {
                    None
                }
            }
        }
    }

    /// Notes that one more host has ended, unless it is a client's.
    fn note_end_of(&self, back: &Back) -> Option<Noted>
        ensures { IsSome result ↔ (is_of_client back.now.seat ≡ false) }
    {
        if back.seat.is_of_client() {
            return None;
        }
        Some(self.host.stop.note_end())
    }

    /// Waits until the hosts of all replicas and traitors have ended, if this host told the others first.
    fn see_end_after(&self, told: &Told, seat: &AnySeat) -> Option<Over>
        requires { IsPassOf self.now.host.mail.now (pass_of seat.now) }
        ensures { told.now.first ≡ true → IsSome result }
    {
        if !told.is_first() {
            return None;
        }
        Some(self.see_all_end(seat))
    }

    /// Wakes all that sleep at the mail, again and again, until the hosts of all replicas and traitors have ended.
    pub(crate) fn see_all_end(&self, seat: &AnySeat) -> Over
        requires { IsPassOf self.now.host.mail.now (pass_of seat.now) }
    {
        for _ in self.host.rt.forever() {
            if let Some(over) = self.look_over() {
                return over;
            }
            seat.wake(self.host.mail);
            thread::yield_now();
        }
        unreachable!()
    }

    /// Looks at the counter, and returns an `Over` if the hosts of all replicas and traitors have ended.
    pub(crate) fn look_over(&self) -> Option<Over> {
        Over::of(self.host.stop.ended(), self.host.mail)
    }
}
