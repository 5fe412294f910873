//! Which line of a play represents an event.

use dsr_base::split_once;
use dsr_names::Refusal;
use dsr_trouble::Counts;
use std::alloc::Global;

/// A line of a play.
#[derive(Drop)]
pub(crate) struct Line<'a> {
    /// Its number, counted from 1.
    pub(crate) number: u64,
    /// Its text, without the line feed.
    text: &'a [u8],
}

impl Line<'_> {
    /// Returns the text of the envelope that this line plants: what follows the actors in `plant A B ENVELOPE`, or the actor in `plants A ENVELOPE`. For a
    /// line of another kind the result means nothing.
    pub(crate) fn envelope(&self) -> Option<&str> {
        let words = if self.text.starts_with(b"plants ".as_slice()) {
            2
        } else {
            3
        };
        let mut rest = self.text;
        for _ in 0..words {
            let Some((_, after)) = split_once(rest, b' ') else {
                return None;
            };
            rest = after;
        }
        str::from_utf8(rest).ok()
    }
}

/// The lines of a play, read as far as the last event for which a line was asked.
#[derive(Drop)]
pub(crate) struct Places<'a> {
    counts: Counts<'a>,
    /// The lines that were not read yet.
    rest: &'a [u8],
    /// The number and the text of the last line that was read, and how many events it and those before it represent.
    number: u64,
    text: &'a [u8],
    end: usize,
}

impl<'a> Places<'a> {
    /// Reads the header of the play's text.
    pub(crate) fn new(text: &'a [u8]) -> Places<'a> {
        let (header, lines) = split_once(text, b'\n').unwrap_or((text, text));
        Places {
            counts: Counts::new(header),
            rest: lines,
            number: 1,
            text: header,
            end: 0,
        }
    }

    /// Returns the line that represents the event at this place. No earlier place may be asked for afterwards. `NoMemory` if memory runs out.
    pub(crate) fn line_of(&mut self, alloc: Global, place: usize) -> Result<Line<'a>, Refusal> {
        // A text has no more lines than bytes.
        for _ in 0..self.rest.len() {
            if place < self.end {
                break;
            }
            self.read_line(alloc)?;
        }
        Ok(Line {
            number: self.number,
            text: self.text,
        })
    }

    /// Reads the next line, if there is one.
    fn read_line(&mut self, alloc: Global) -> Result<(), Refusal> {
        let Some((text, rest)) = split_once(self.rest, b'\n') else {
            return Ok(());
        };
        let Ok(count) = self.counts.count(alloc, text) else {
            return Err(Refusal::NoMemory);
        };
        self.number = self.number.saturating_add(1);
        self.text = text;
        self.end = self.end.saturating_add(count);
        self.rest = rest;
        Ok(())
    }
}
