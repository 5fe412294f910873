use dsr_base::split_once;
use dsr_names::{Refusal, Shape};
use dsr_play::Play;
use std::alloc::Global;

/// The number of kinds of lines that represent several events.
const KINDS: usize = 8;

/// Counts the events that lines of a play with this header represent. All lines of one kind represent the same number, so `count` reads only one
/// of each kind.
#[derive(Drop)]
pub struct Counts<'a> {
    header: &'a [u8],
    known: [Option<usize>; KINDS],
}

impl Counts<'_> {
    /// Creates the counts for plays with this header; none is known yet.
    pub fn new(header: &[u8]) -> Counts<'_> {
        Counts {
            header,
            known: [None; KINDS],
        }
    }

    /// Returns how many events this line of the play represents. `NoMemory` if memory runs out.
    pub fn count(&mut self, alloc: Global, line: &[u8]) -> Result<usize, Refusal> {
        let Some(kind) = kind_of(line) else {
            return Ok(1);
        };
        if kind >= KINDS {
            return count_in(alloc, self.header, line);
        }
        if let Some(count) = self.known[kind] {
            return Ok(count);
        }
        let count = count_in(alloc, self.header, line)?;
        self.known[kind] = Some(count);
        Ok(count)
    }
}

/// Returns the kind of a line that represents several events, by its word and whether it means all replicas. `None` for a line of one event.
fn kind_of(line: &[u8]) -> Option<usize> {
    let (word, rest) = split_once(line, b' ')?;
    let is_all = rest == b"*".as_slice();
    if word == b"posts".as_slice() {
        Some(if is_all { 0 } else { 1 })
    } else if word == b"takes".as_slice() {
        Some(if is_all { 2 } else { 3 })
    } else if word == b"plants".as_slice() {
        Some(4)
    } else if word == b"asks".as_slice() {
        Some(5)
    } else if word == b"hears".as_slice() {
        Some(6)
    } else if word == b"replies".as_slice() {
        Some(7)
    } else {
        None
    }
}

/// Returns how many events this line of a play with this header represents, by reading a play of only this line.
fn count_in(alloc: Global, header: &[u8], line: &[u8]) -> Result<usize, Refusal> {
    let mut text = Vec::new(alloc);
    text.extend_from_slice(header)?;
    text.push(b'\n')?;
    text.extend_from_slice(line)?;
    text.push(b'\n')?;
    Ok(Play::read(alloc, text.as_slice())?.events().len())
}

/// Returns the shape in this header of a play. `NoMemory` if memory runs out.
pub(crate) fn shape_of(alloc: Global, header: &[u8]) -> Result<Shape, Refusal> {
    let mut text = Vec::new(alloc);
    text.extend_from_slice(header)?;
    text.push(b'\n')?;
    Ok(Play::read(alloc, text.as_slice())?.shape())
}
