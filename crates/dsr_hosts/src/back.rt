//! What comes back from the host of a seat.

ghost use Rattle.dsr_hosts.specs.Hosted.{ComesBack};

use crate::any_seat::AnySeat;
use dsr_mail::Mail;
use dsr_rounds::{End, Gate};
use dsr_script::Script;
use std::snapshot::Snapshot;
use std::thread::Promise;

/// A seat that came back from its host, and how the host ended.
#[derive(Drop)]
pub(crate) struct Back {
    /// The seat.
    pub(crate) seat: AnySeat,
    /// Why the host ended before its work was done; `None` if it was done.
    pub(crate) end: Option<End>,
}

/// The promise of a thread that hosts a seat: what it returns is what comes back from there.
#[derive(Drop)]
pub(crate) struct SeatBack<G: Gate> {
    /// The gate that the host asks.
    pub(crate) gate: Snapshot<G>,
    /// The mail of the seat.
    pub(crate) mail: Snapshot<Mail>,
    /// The script of the service.
    pub(crate) script: Snapshot<Script>,
    /// The seat before.
    pub(crate) seat: Snapshot<AnySeat>,
}

impl<G: Gate> Promise<Back> for SeatBack<G> {
    ghost kept_by = { λ p b. ComesBack (G.may_refuse p.gate.value) p.mail.value p.script.value p.seat.value b };
}
