//! A whole service: it opens a mail, runs a thread for each replica, traitor and client of a script, and closes the mail.
#![tactic(auto)]

mod any_seat;
mod back;
mod client;
mod ends;
mod over;
mod ran;
mod service;
mod serving;
mod threads;

pub use serving::{ServeFault, serve};
