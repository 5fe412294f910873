//! The seats that came back from their hosts.

ghost use Rattle.std.specs.Prelude.{◌≡◌, ℕ, ◌<◌, IfSome, IfNone};
ghost use Rattle.dsr_names.specs.Shape.{IsActor};
ghost use Rattle.dsr_hosts.specs.Ranks.{ends_with, IsRank};
ghost use Rattle.dsr_hosts.specs.Seats.{pass_of, is_of_client, HasLast, HasRoomFor, SameRoom, AreNone, seat_count};

use crate::any_seat::AnySeat;
use crate::back::Back;
use crate::ends::Ends;
use dsr_mail::Seats;
use dsr_names::{Refusal, Shape};
use dsr_rounds::End;

/// The seats that came back, and how their hosts ended.
#[derive(Drop)]
pub(crate) struct Ran {
    /// The seats.
    pub(crate) seats: Seats,
    /// How their hosts ended.
    pub(crate) ends: Ends,
}

impl Ran {
    /// Adds one seat after those of its kind, and the end of its host. Requires an actor of the shape, and room for its seat.
    pub(crate) fn with(self, shape: &Shape, back: Back) -> Ran
        requires inside { IsActor shape.now (pass_of back.seat).actor }
        requires room { HasRoomFor self.seats back.seat }
        ensures seats { HasLast result.seats back.seat self.seats }
        ensures room { SameRoom self.seats result.seats }
        ensures ends { (rank : ℕ) × IsRank shape.now (pass_of back.seat).actor back.end rank
            × (result.ends ≡ ends_with self.ends rank (is_of_client back.seat) back.end) }
    {
        let rank = rank_of(shape, &back);
        let ends = self.ends.with(rank, back.seat.is_of_client(), &back.end);
        let mut seats = self.seats;
        put_last(&mut seats, back.seat);
        Ran { seats, ends }
    }
}

/// Returns the rank of a host's fault: 0 if its thread could not start, else one more than the place of the actor. Requires an actor of the shape.
fn rank_of(shape: &Shape, back: &Back) -> usize
    requires { IsActor shape.now (pass_of back.now.seat).actor }
    ensures { IsRank shape.now (pass_of back.now.seat).actor back.now.end result }
{
    // For the proof: that there are few places.
    let _places = shape.size();
    let behind = shape.place(&back.seat.actor()) + 1;
    match &back.end {
        Some(End::Fault(Refusal::NoThread)) => 0,
        Some(End::Fault(_)) => behind,
        Some(End::Told) => behind,
        None => behind,
    }
}

/// Takes out the last seat: of the clients, else of the traitors, else of the replicas. `None` if no seat is left.
pub(crate) fn take_last(seats: &mut Seats) -> Option<AnySeat>
    ensures some { IfSome result (λ seat. HasLast seats.old seat seats.new) }
    ensures fewer { IfSome result (λ seat. seat_count seats.new < seat_count seats.old) }
    ensures room { SameRoom seats.old seats.new }
    ensures none { IfNone result (AreNone seats.old seats.new) }
{
    if let Some(seat) = seats.clients.pop() {
        return Some(AnySeat::OfClient(seat));
    }
    if let Some(seat) = seats.traitors.pop() {
        return Some(AnySeat::Traitor(seat));
    }
    if let Some(seat) = seats.replicas.pop() {
        return Some(AnySeat::Loyal(seat));
    }
    None
}

/// Puts a seat back after those of its kind. Requires room for it.
fn put_last(seats: &mut Seats, seat: AnySeat)
    requires { HasRoomFor seats.old seat }
    ensures last { HasLast seats.new seat seats.old }
    ensures room { SameRoom seats.old seats.new }
{
    match seat {
        AnySeat::Loyal(seat) => seats.replicas.push_reserved(seat),
        AnySeat::Traitor(seat) => seats.traitors.push_reserved(seat),
        AnySeat::OfClient(seat) => seats.clients.push_reserved(seat),
    }
}
