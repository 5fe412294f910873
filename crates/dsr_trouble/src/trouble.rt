//! What is wrong with a text that is not a play: the line, the first byte that cannot continue a play, and what was expected there.

use crate::counts::{Counts, shape_of};
use crate::expected::{Expected, Fault, Halt};
use crate::scan::Scan;
use crate::scan_play::Room;
use crate::trouble_other::{Kind, trouble_of_other};
use dsr_base::split_once;
use dsr_names::Refusal;
use dsr_play::MOST_EVENTS;
use std::alloc::Global;
use std::fmt::Write;

/// The maximum length of the part of a line that is shown, in bytes.
const SHOWN: usize = 120;

/// What is wrong with a line.
#[derive(Clone, Copy)]
enum Trouble {
    /// It is not written like a line of a play.
    Fault(Fault),
    /// A play has too few events left for it.
    Limit(Limit),
}

/// A line with more events than the play may still have.
#[derive(Clone, Copy)]
struct Limit {
    column: usize,
    /// The number of events in the lines before.
    before: u64,
    /// The number of its own events; `None` if it is not written like a line of a play.
    more: Option<u64>,
}

/// Returns what is wrong with the text, in words. `refusal` is that of its reading. `NoMemory` if memory runs out.
pub fn trouble_of(alloc: Global, text: &[u8], refusal: &Refusal) -> Result<String, Refusal> {
    if let Some(kind) = Kind::of(text) {
        return trouble_of_other(alloc, text, kind);
    }
    let number = match refusal {
        Refusal::BadText { line } => *line,
        _ => 1,
    };
    let line = line_of(text, number);
    let trouble = if number == 1 {
        match Scan::new(line).header() {
            Ok(()) => Trouble::Fault(unended(line)),
            Err(halt) => Trouble::Fault(fault_of(halt)?),
        }
    } else {
        trouble_of_line(alloc, text, number, line)?
    };
    let mut out = String::new(alloc);
    write_trouble(&mut out, number, line, &trouble)?;
    Ok(out)
}

/// Returns the line with this number, up to its line feed or the end of the text.
pub(crate) fn line_of(text: &[u8], number: u64) -> &[u8] {
    let mut rest = text;
    for _ in 1..number {
        match split_once(rest, b'\n') {
            Some((_, after)) => rest = after,
            None => return rest,
        }
    }
    match split_once(rest, b'\n') {
        Some((line, _)) => line,
        None => rest,
    }
}

/// Returns the fault of a line that only lacks its line feed.
pub(crate) fn unended(line: &[u8]) -> Fault {
    Fault {
        column: line.len().saturating_add(1),
        expected: Expected::Text("a line feed: each line ends with one, the last one too"),
    }
}

/// Returns the fault at which a scan stopped; `NoMemory` if memory ran out.
pub(crate) fn fault_of(halt: Halt) -> Result<Fault, Refusal> {
    match halt {
        Halt::Fault(fault) => Ok(fault),
        Halt::NoMemory => Err(Refusal::NoMemory),
    }
}

/// Returns the fault of a line after the header; `None` if it only lacks its line feed. `NoMemory` if memory runs out.
fn halt_of(alloc: Global, line: &[u8], room: &Room) -> Result<Option<Fault>, Refusal> {
    match Scan::new(line).play_line(alloc, room) {
        Ok(()) => Ok(None),
        Err(halt) => Ok(Some(fault_of(halt)?)),
    }
}

/// Returns what is wrong with the line with this number, which comes after the header.
fn trouble_of_line(
    alloc: Global,
    text: &[u8],
    number: u64,
    line: &[u8],
) -> Result<Trouble, Refusal> {
    let header = line_of(text, 1);
    let shape = shape_of(alloc, header)?;
    let before = events_before(alloc, text, number)?;
    let left = (MOST_EVENTS as u64).saturating_sub(before);
    let any = halt_of(alloc, line, &Room::of(&shape, u64::MAX))?;
    let with_room = halt_of(alloc, line, &Room::of(&shape, left))?;
    match (any, with_room) {
        (None, None) => Ok(Trouble::Fault(unended(line))),
        (None, Some(fault)) => Ok(Trouble::Limit(Limit {
            column: fault.column,
            before,
            more: Some(Counts::new(header).count(alloc, line)? as u64),
        })),
        (Some(_), Some(fault)) if is_later(any, fault.column) => Ok(Trouble::Limit(Limit {
            column: fault.column,
            before,
            more: None,
        })),
        (Some(fault), _) => Ok(Trouble::Fault(fault)),
    }
}

/// Tells whether there is a fault, and it is after this column.
fn is_later(fault: Option<Fault>, column: usize) -> bool {
    match fault {
        Some(fault) => fault.column > column,
        None => false,
    }
}

/// Returns how many events the lines before the one with this number represent.
fn events_before(alloc: Global, text: &[u8], number: u64) -> Result<u64, Refusal> {
    let Some((header, lines)) = split_once(text, b'\n') else {
        return Ok(0);
    };
    let mut counts = Counts::new(header);
    let mut rest = lines;
    let mut events: u64 = 0;
    for _ in 2..number {
        let Some((line, after)) = split_once(rest, b'\n') else {
            return Ok(events);
        };
        events = events.saturating_add(counts.count(alloc, line)? as u64);
        rest = after;
    }
    Ok(events)
}

/// Writes what is wrong with the line, and shows it.
fn write_trouble(
    out: &mut String,
    number: u64,
    line: &[u8],
    trouble: &Trouble,
) -> Result<(), Refusal> {
    match trouble {
        Trouble::Fault(fault) => write_fault(out, number, line, fault),
        Trouble::Limit(limit) => write_limit(out, number, line, limit),
    }
}

/// Writes that the line has this fault, and shows it.
pub(crate) fn write_fault(
    out: &mut String,
    number: u64,
    line: &[u8],
    fault: &Fault,
) -> Result<(), Refusal> {
    let column = fault.column;
    write!(out, "line {number}, column {column}: ")?;
    out.push_str(if line.is_empty() && number > 1 {
        "empty lines are not allowed; expected "
    } else {
        "expected "
    })?;
    fault.expected.write(out)?;
    out.push_str("\n")?;
    show(out, line, column)
}

/// Writes that the events are too many, and shows the line.
fn write_limit(out: &mut String, number: u64, line: &[u8], limit: &Limit) -> Result<(), Refusal> {
    let (column, before) = (limit.column, limit.before);
    write!(
        out,
        "line {number}, column {column}: a play has at most {MOST_EVENTS} events; the lines before this one have {before}"
    )?;
    if let Some(more) = limit.more {
        write!(out, ", and this one has {more} more")?;
    }
    out.push_str("\n")?;
    show(out, line, column)
}

/// Shows the line, or its part around the column, and marks the column.
fn show(out: &mut String, line: &[u8], column: usize) -> Result<(), Refusal> {
    let first = column.saturating_sub(SHOWN / 2);
    write!(out, "    ")?;
    for place in first..first.saturating_add(SHOWN) {
        if let Some(byte) = line.get(place) {
            write_byte(out, *byte)?;
        }
    }
    write!(out, "\n    ")?;
    for _ in first..column.saturating_sub(1) {
        write!(out, " ")?;
    }
    writeln!(out, "^")?;
    Ok(())
}

/// Writes the byte; `?` in place of one that is not a printable character.
fn write_byte(out: &mut String, byte: u8) -> Result<(), Refusal> {
    if byte >= b' ' && byte < 127 {
        let shown = byte as char;
        write!(out, "{shown}")?;
    } else {
        write!(out, "?")?;
    }
    Ok(())
}
