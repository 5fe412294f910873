//! Logs as text.

use dsr_envelope::{Entry, Envelope};
use dsr_mail::Logs;
use dsr_names::{Actor, Refusal};
use dsr_script::Draft;
use std::alloc::Global;
use std::fmt::Write;

/// Returns a line for each entry of the actor's log: the line of a transcript, without the actor.
pub(crate) fn log_text(alloc: Global, logs: &Logs, actor: &Actor) -> Result<String, Refusal> {
    let mut text = String::new(alloc);
    for entry in entries(logs, actor) {
        write_entry(alloc, &mut text, entry)?;
    }
    Ok(text)
}

/// Returns the entries of the actor's log; no entries if it is not an actor of the shape.
pub(crate) fn entries<'a>(logs: &'a Logs, actor: &Actor) -> &'a [Entry] {
    if logs.shape().has(*actor) {
        logs.of(*actor)
    } else {
        &[]
    }
}

/// Writes the line of the entry.
fn write_entry(alloc: Global, text: &mut String, entry: &Entry) -> Result<(), Refusal> {
    match entry {
        Entry::Post { to, envelope } => {
            write!(text, "post {to} ")?;
            write_envelope(alloc, text, envelope.envelope())
        }
        Entry::Take { from, envelope } => {
            write!(text, "take {from} ")?;
            write_envelope(alloc, text, envelope.envelope())
        }
    }
}

/// Writes the envelope's text, and ends the line. An envelope that is past a limit has no text.
fn write_envelope(alloc: Global, text: &mut String, envelope: &Envelope) -> Result<(), Refusal> {
    if envelope.fits() {
        let draft = Draft::of(alloc, envelope)?;
        write!(text, "{draft}")?;
    }
    writeln!(text)?;
    Ok(())
}
