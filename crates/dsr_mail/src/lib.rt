//! The mail: each actor posts and takes at a seat, by its own log and its own boxes alone, in several threads or in one.
#![tactic(auto)]

mod asked;
mod client_seat;
mod laws;
mod leaving;
mod log;
mod logs;
mod loyal;
mod mail;
mod replica_seat;
mod seat;
mod seats;
mod serving;
mod traitor_seat;

pub use client_seat::ClientSeat;
pub use laws::moments_order_clients;
pub use logs::Logs;
pub use mail::Mail;
pub use replica_seat::ReplicaSeat;
pub use seats::Seats;
pub use traitor_seat::TraitorSeat;
