//! The threads of a service, one for each host.

ghost use Rattle.std.specs.Prelude.{◌≡◌, Some};
ghost use Rattle.dsr_names.specs.declared.refusal.Refusal.TheVariants.{NoThread};
ghost use Rattle.dsr_rounds.specs.declared.end.End.TheVariants.{Fault};
ghost use Rattle.dsr_hosts.specs.Hosted.{ComesBack};
ghost use Rattle.dsr_hosts.specs.Returns.{HaveRun};
ghost use Rattle.dsr_hosts.specs.Seats.{pass_of, IsNewSeat, AreNew};

use crate::any_seat::AnySeat;
use crate::back::{Back, SeatBack};
use crate::ends::Ends;
use crate::ran::{Ran, take_last};
use crate::service::Service;
use dsr_mail::{Mail, Seats};
use dsr_names::Refusal;
use dsr_rounds::{End, Gate, Host, Stop};
use dsr_script::Script;
use std::alloc::Global;
use std::snapshot::Snapshot;
use std::sync::Wait;
use std::sync::atomic::AtomicU64;
use std::thread;
use std::thread::{PromisedHandle, Scope, Threads};

/// A host that was started.
enum Started<G: Gate> {
    /// It runs in this thread.
    Runs(PromisedHandle<Back, SeatBack<G>>),
    /// It has ended.
    Ended(Back),
}

/// Runs the hosts of all seats, each in a thread, and joins them. Requires seats of the mail, at which nothing was done.
pub(crate) fn run_all<R: Threads + Wait + Sync, G: Gate + Sync>(
    rt: &R,
    alloc: Global,
    mail: &Mail,
    script: &Script,
    gate: &G,
    seats: Seats,
) -> Ran
    requires { AreNew mail.now seats }
    ensures { HaveRun (G.may_refuse gate.now) mail.now script.now seats result }
{
    let told = Stop::of_service();
    let left = AtomicU64::new(seats.clients.len() as u64);
    let (stop, clients) = (&told, &left);
    thread::scope(
        thread::scope_env(),
        rt,
        move |scope| -> Ran
            requires { AreNew mail.now seats }
            ensures { HaveRun (G.may_refuse gate.entry.now) mail.entry.now script.entry.now seats result }
        {
            let host = Host {
                rt,
                alloc,
                mail,
                gate,
                stop,
            };
            let service = Service {
                host,
                script,
                clients,
            };
            run_each(scope, &service, seats)
        },
    )
}

/// Runs the hosts of these seats, each in a thread of the scope: starts all of them, then joins them.
fn run_each<'s, E, R: Threads + Wait + Sync, G: Gate + Sync>(
    scope: &Scope<'s, E>,
    service: &Service<'s, R, G>,
    seats: Seats,
) -> Ran
    requires { AreNew service.now.host.mail.now seats }
    ensures { HaveRun (G.may_refuse service.now.host.gate.now) service.now.host.mail.now service.now.script.now seats result }
{
    let mut seats = seats;
    let Some(seat) = take_last(&mut seats) else {
        let ends = Ends::none();
        return Ran { seats, ends };
    };
    let was = Snapshot::of(&seat);
    let started = start(scope, service, seat);
    let ran = run_each(scope, service, seats);
    let back = finish(service, started, was);
    ran.with(service.host.mail.shape(), back)
}

/// Starts a thread that hosts the seat. If it cannot start one, it tells the others to stop, and hosts the seat in this thread; it hosts the seat
/// here, too, if the others were told already. Requires a seat of the service's mail, at which nothing was done.
fn start<'s, E, R: Wait + Sync, G: Gate + Sync>(
    scope: &Scope<'s, E>,
    service: &Service<'s, R, G>,
    seat: AnySeat,
) -> Started<G>
    requires { IsNewSeat service.now.host.mail.now (pass_of seat) }
    ensures runs { (h : _) → result ≡ Started.Runs h → (h.promise.gate.value ≡ service.now.host.gate.now)
        × (h.promise.mail.value ≡ service.now.host.mail.now) × (h.promise.script.value ≡ service.now.script.now) × (h.promise.seat.value ≡ seat) }
    ensures ended { (b : Back) → result ≡ Started.Ended b
        → ComesBack (G.may_refuse service.now.host.gate.now) service.now.host.mail.now service.now.script.now seat b }
{
    if service.host.stop.is_told() {
        return Started::Ended(service.run(seat));
    }
    let (rt, alloc, mail) = (service.host.rt, service.host.alloc, service.host.mail);
    let (gate, stop) = (service.host.gate, service.host.stop);
    let (script, clients) = (service.script, service.clients);
    let promise = SeatBack {
        gate: Snapshot::of(gate),
        mail: Snapshot::of(mail),
        script: Snapshot::of(script),
        seat: Snapshot::of(&seat),
    };
    match scope.spawn_with(
        promise,
        move || -> Back
            requires { IsNewSeat mail.now (pass_of seat) }
            ensures { ComesBack (G.may_refuse gate.entry.now) mail.entry.now script.entry.now seat result }
        {
            let host = Host {
                rt,
                alloc,
                mail,
                gate,
                stop,
            };
            let service = Service {
                host,
                script,
                clients,
            };
            service.run(seat)
        },
    ) {
        Ok(handle) => Started::Runs(handle),
        Err(refused) => {
            let _told = service.host.stop.tell();
            Started::Ended(refused_back((refused.value)()))
        }
    }
}

/// Returns what comes back from a host whose thread could not start.
fn refused_back(back: Back) -> Back
    ensures seat { result.seat ≡ back.seat }
    ensures end { result.end ≡ Some (Fault NoThread) }
{
    let end = Some(End::Fault(Refusal::NoThread));
    Back {
        seat: back.seat,
        end,
    }
}

/// Waits until the host has ended, and returns what comes back from it. If the host ended before all were started, this first waits until the hosts
/// of all replicas and traitors have ended.
fn finish<R: Threads + Wait, G: Gate>(
    service: &Service<R, G>,
    started: Started<G>,
    was: Snapshot<AnySeat>,
) -> Back
    requires runs { (h : _) → started ≡ Started.Runs h → (h.promise.gate.value ≡ service.now.host.gate.now)
        × (h.promise.mail.value ≡ service.now.host.mail.now) × (h.promise.script.value ≡ service.now.script.now) × (h.promise.seat.value ≡ was.value) }
    requires ended { (b : Back) → started ≡ Started.Ended b
        → ComesBack (G.may_refuse service.now.host.gate.now) service.now.host.mail.now service.now.script.now was.value b }
    ensures { ComesBack (G.may_refuse service.now.host.gate.now) service.now.host.mail.now service.now.script.now was.value result }
{
    match started {
        Started::Runs(handle) => handle.join(service.host.rt),
        Started::Ended(back) => {
            let _over = service.see_all_end(&back.seat);
            back
        }
    }
}
