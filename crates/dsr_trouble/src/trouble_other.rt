//! What is wrong with a text of another kind than a play: a serve script, a transcript, or request lines.

use crate::expected::{Fault, Halt};
use crate::scan::Scan;
use crate::scan_other::Names;
use crate::trouble::{fault_of, line_of, unended, write_fault};
use dsr_base::split_once;
use dsr_names::{Actor, Refusal};
use dsr_script::Script;
use std::alloc::Global;

/// The kinds of texts other than plays.
#[derive(Clone, Copy)]
pub(crate) enum Kind {
    /// What `dsr serve` reads.
    Script,
    /// What `dsr check` reads.
    Transcript,
    /// What `dsr apply` reads.
    Requests,
}

impl Kind {
    /// Returns the kind of the text, by its first bytes. `None` if it is to be read like a play.
    pub(crate) fn of(text: &[u8]) -> Option<Kind> {
        if text.strip_prefix(b"dsr-serve ".as_slice()).is_some() {
            return Some(Kind::Script);
        }
        if text.strip_prefix(b"dsr-transcript ".as_slice()).is_some() {
            return Some(Kind::Transcript);
        }
        match text {
            [b'c', second, ..] if second.is_ascii_digit() => Some(Kind::Requests),
            _ => None,
        }
    }

    /// Returns what a text of this kind is, and what reads it.
    fn words(&self) -> &'static str {
        match self {
            Kind::Script => "this is a serve script, not a play: `dsr serve` reads it, and finds ",
            Kind::Transcript =>
                "this is a transcript, not a play: `dsr check` reads it, and finds ",
            Kind::Requests =>
                "these are request lines, not a play: `dsr apply` reads them, and finds ",
        }
    }
}

/// Returns what is wrong with the text of this kind, in words, or that nothing is. `NoMemory` if memory runs out.
pub(crate) fn trouble_of_other(alloc: Global, text: &[u8], kind: Kind) -> Result<String, Refusal> {
    let found = match kind {
        Kind::Script => in_script(alloc, text)?,
        _ => in_lines(alloc, text, kind)?,
    };
    let mut out = String::new(alloc);
    out.push_str(kind.words())?;
    match found {
        None => out.push_str("no bad line\n")?,
        Some((number, fault)) => {
            out.push_str("a bad line\n")?;
            write_fault(&mut out, number, line_of(text, number), &fault)?;
        }
    }
    Ok(out)
}

/// Returns the first bad line of a serve script, and its fault; `None` if no line is bad.
fn in_script(alloc: Global, text: &[u8]) -> Result<Option<(u64, Fault)>, Refusal> {
    let number = match Script::read(alloc, text) {
        Ok(_) => return Ok(None),
        Err(Refusal::NoMemory) => return Err(Refusal::NoMemory),
        Err(Refusal::BadText { line }) => line,
        Err(_) => 1,
    };
    let line = line_of(text, number);
    let read = if number == 1 {
        Scan::new(line).serve_header()
    } else {
        Scan::new(line).serve_line(alloc, &names_at(alloc, text, number)?)
    };
    Ok(Some((number, fault_in(line, read)?)))
}

/// Returns the fault of a line by the result of its scan: if that found no fault, the line lacks its line feed.
fn fault_in(line: &[u8], read: Result<(), Halt>) -> Result<Fault, Refusal> {
    match read {
        Ok(()) => Ok(unended(line)),
        Err(halt) => fault_of(halt),
    }
}

/// Returns whom the line with this number of a serve script can still name after the lines before it.
fn names_at(alloc: Global, text: &[u8], number: u64) -> Result<Names, Refusal> {
    let mut header = Vec::new(alloc);
    header.extend_from_slice(line_of(text, 1))?;
    header.push(b'\n')?;
    let mut names = Names::of(&Script::read(alloc, header.as_slice())?.shape());
    let place = place_in(line_of(text, number));
    let mut rest = text;
    for _ in 1..number {
        let Some((line, after)) = split_once(rest, b'\n') else {
            break;
        };
        if let Some([b' ', end @ ..]) = line.strip_prefix(place) {
            if let Some((token, _)) = split_once(end, b' ') {
                if let Some(actor) = Actor::read(token) {
                    names.strike(actor);
                }
            }
        }
        rest = after;
    }
    Ok(names)
}

/// Returns the part of a line before its third space: the word, the traitor and the round of a line `script`.
fn place_in(line: &[u8]) -> &[u8] {
    let mut spaces: usize = 0;
    for place in 0..line.len() {
        if line[place] == b' ' {
            spaces = spaces.saturating_add(1);
            if spaces == 3 {
                return line.split_at(place).0;
            }
        }
    }
    line
}

/// Returns the first bad line of a transcript or of request lines, and its fault; `None` if no line is bad.
fn in_lines(alloc: Global, text: &[u8], kind: Kind) -> Result<Option<(u64, Fault)>, Refusal> {
    let is_plain = text.strip_prefix(b"dsr-transcript 1 ".as_slice()).is_some();
    let mut rest = text;
    let mut number: u64 = 0;
    // A text has no more lines than bytes.
    for _ in 0..text.len() {
        if rest.is_empty() {
            break;
        }
        number = number.saturating_add(1);
        let line = line_of(rest, 1);
        let mut scan = Scan::new(line);
        scan.set_plain(is_plain);
        let read = match kind {
            Kind::Requests => scan.request_line(),
            _ if number == 1 => scan.transcript_header(),
            _ => scan.step_line(alloc),
        };
        match (read, split_once(rest, b'\n')) {
            (Ok(()), Some((_, after))) => rest = after,
            (read, _) => return Ok(Some((number, fault_in(line, read)?))),
        }
    }
    Ok(None)
}
