//! Reads a line byte by byte, up to the first byte that cannot continue it.

use crate::expected::{Expected, Fault, Halt};

/// The most digits that a number can have after its first one.
const MORE_DIGITS: usize = 20;

/// The longest name of a register, in bytes.
const LONGEST_NAME: usize = 32;

/// A line, and how much of it was read.
#[derive(Drop)]
pub(crate) struct Scan<'a> {
    line: &'a [u8],
    /// The place of the next byte.
    place: usize,
    /// Whether one more byte could make the last token longer.
    is_open: bool,
    /// Whether the line must be plain: no value with several requests, and no removal.
    is_plain: bool,
}

impl Scan<'_> {
    /// Begins to read the line, which has no line feed.
    pub(crate) fn new(line: &[u8]) -> Scan<'_> {
        Scan {
            line,
            place: 0,
            is_open: false,
            is_plain: false,
        }
    }

    /// Sets whether the line must be plain.
    pub(crate) fn set_plain(&mut self, is_plain: bool) {
        self.is_plain = is_plain;
    }

    /// Tells whether the line must be plain.
    pub(crate) fn is_plain(&self) -> bool {
        self.is_plain
    }

    /// Returns the place of the next byte.
    pub(crate) fn place(&self) -> usize {
        self.place
    }

    /// Returns the bytes read from the place `start` on.
    pub(crate) fn since(&self, start: usize) -> &[u8] {
        if start <= self.place && self.place <= self.line.len() {
            &self.line[start..self.place]
        } else {
            &[]
        }
    }

    /// Returns the byte at this place of the line; `None` if the line is shorter.
    pub(crate) fn byte_at(&self, place: usize) -> Option<u8> {
        match self.line.get(place) {
            Some(byte) => Some(*byte),
            None => None,
        }
    }

    /// Tells whether one more byte could make the last token longer.
    pub(crate) fn is_open(&self) -> bool {
        self.is_open
    }

    /// Sets whether one more byte could make the last token longer.
    pub(crate) fn set_open(&mut self, is_open: bool) {
        self.is_open = is_open;
    }

    /// Tells whether the whole line was read.
    pub(crate) fn is_at_end(&self) -> bool {
        self.place >= self.line.len()
    }

    /// Tells whether the next byte is this one.
    pub(crate) fn is_next(&self, byte: u8) -> bool {
        match self.line.get(self.place) {
            Some(next) => *next == byte,
            None => false,
        }
    }

    /// Goes past the next byte.
    pub(crate) fn pass(&mut self) {
        self.place = self.place.saturating_add(1);
    }

    /// Goes back by one byte.
    pub(crate) fn go_back(&mut self) {
        self.place = self.place.saturating_sub(1);
    }

    /// Returns that the next byte cannot continue the line, and what was expected in its place.
    pub(crate) fn fault(&self, expected: Expected) -> Halt {
        Halt::Fault(Fault {
            column: self.place.saturating_add(1),
            expected,
        })
    }

    /// Goes past the next byte, which must be this one.
    pub(crate) fn mark(&mut self, byte: u8, expected: Expected) -> Result<(), Halt> {
        if !self.is_next(byte) {
            return Err(self.fault(expected));
        }
        self.pass();
        Ok(())
    }

    /// Goes past a space; `next` says what is expected after it.
    pub(crate) fn space(&mut self, next: &'static str) -> Result<(), Halt> {
        self.mark(b' ', Expected::Space(next))
    }

    /// Checks that the line ends here.
    pub(crate) fn end(&self, expected: &'static str) -> Result<(), Halt> {
        if self.is_at_end() {
            Ok(())
        } else {
            Err(self.fault(Expected::Text(expected)))
        }
    }

    /// Goes past this text.
    pub(crate) fn literal(
        &mut self,
        text: &'static str,
        expected: &'static str,
    ) -> Result<(), Halt> {
        let alike = self.alike(text);
        self.place = self.place.saturating_add(alike);
        if alike < text.len() {
            return Err(self.fault(Expected::Text(expected)));
        }
        Ok(())
    }

    /// Goes past the next word, which must be one of the first `count` of these, and returns its place among them.
    pub(crate) fn word(
        &mut self,
        words: &[&'static str],
        count: usize,
        expected: Expected,
    ) -> Result<usize, Halt> {
        let letters = self.letters();
        let mut most = 0;
        for which in 0..count {
            if let Some(word) = words.get(which) {
                let alike = self.alike(*word);
                if alike == letters && alike == word.len() {
                    self.place = self.place.saturating_add(alike);
                    return Ok(which);
                }
                if alike > most {
                    most = alike;
                }
            }
        }
        self.place = self.place.saturating_add(most);
        Err(self.fault(expected))
    }

    /// Returns how many letters come next.
    fn letters(&self) -> usize {
        for place in self.place..self.line.len() {
            if !self.line[place].is_ascii_lowercase() {
                return place.saturating_sub(self.place);
            }
        }
        self.line.len().saturating_sub(self.place)
    }

    /// Returns how many of the next bytes are the same as the text's first ones.
    fn alike(&self, text: &str) -> usize {
        let bytes = text.as_bytes();
        for place in 0..bytes.len() {
            if self.byte_at(self.place.saturating_add(place)) != Some(bytes[place]) {
                return place;
            }
        }
        bytes.len()
    }

    /// Returns the value of the next byte; `None` if that is not a digit.
    pub(crate) fn digit(&self) -> Option<u8> {
        match self.line.get(self.place) {
            Some(byte) if byte.is_ascii_digit() => Some(byte.saturating_sub(b'0')),
            _ => None,
        }
    }

    /// Goes past a decimal from `least`, which is 0 or 1, to `most`, and returns its number.
    pub(crate) fn number(
        &mut self,
        least: u64,
        most: u64,
        expected: Expected,
    ) -> Result<u64, Halt> {
        let mut number: u64 = match self.digit() {
            Some(digit) => digit as u64,
            None => return Err(self.fault(expected)),
        };
        if number < least || number > most {
            return Err(self.fault(expected));
        }
        self.pass();
        for _ in 0..MORE_DIGITS {
            let Some(longer) = self.longer(number, most) else {
                break;
            };
            number = longer;
            self.pass();
        }
        self.is_open = number > 0 && number <= most / 10;
        if self.digit().is_some() {
            return Err(self.fault(expected));
        }
        Ok(number)
    }

    /// Returns the number with the next digit appended; `None` if the next byte is not a digit, or the number would start with 0 or pass `most`.
    fn longer(&self, number: u64, most: u64) -> Option<u64> {
        let digit = self.digit()?;
        if number == 0 {
            return None;
        }
        let longer = number.checked_mul(10)?.checked_add(digit as u64)?;
        if longer <= most { Some(longer) } else { None }
    }

    /// Goes past the number of an actor, which must be one whose place in `ids` is set, and returns it.
    pub(crate) fn id(&mut self, ids: &[bool], expected: Expected) -> Result<usize, Halt> {
        let first = match self.digit() {
            Some(digit) => digit as usize,
            None => return Err(self.fault(expected)),
        };
        if !has(ids, first) && !has_longer(ids, first) {
            return Err(self.fault(expected));
        }
        self.pass();
        let mut id = first;
        self.is_open = has_longer(ids, first);
        if let Some(second) = self.digit() {
            id = first.saturating_mul(10).saturating_add(second as usize);
            if first == 0 || !has(ids, id) {
                return Err(self.fault(expected));
            }
            self.pass();
            self.is_open = false;
        }
        if !has(ids, id) {
            return Err(self.fault(expected));
        }
        Ok(id)
    }

    /// Goes past a register's name.
    pub(crate) fn name(&mut self, expected: Expected) -> Result<(), Halt> {
        let mut length: usize = 0;
        for _ in 0..LONGEST_NAME {
            if !self.is_of_name() {
                break;
            }
            self.pass();
            length = length.saturating_add(1);
        }
        self.is_open = length < LONGEST_NAME;
        if length == 0 || self.is_of_name() {
            return Err(self.fault(expected));
        }
        Ok(())
    }

    /// Tells whether the next byte can be in a register's name.
    fn is_of_name(&self) -> bool {
        match self.line.get(self.place) {
            Some(byte) => {
                byte.is_ascii_lowercase()
                    || byte.is_ascii_digit()
                    || *byte == b'.'
                    || *byte == b'_'
                    || *byte == b'-'
            }
            None => false,
        }
    }
}

/// Tells whether the place of this number is set.
fn has(ids: &[bool], id: usize) -> bool {
    match ids.get(id) {
        Some(is_set) => *is_set,
        None => false,
    }
}

/// Tells whether the place of any two-digit number with this first digit is set.
fn has_longer(ids: &[bool], first: usize) -> bool {
    if first == 0 {
        return false;
    }
    for second in 0..10 {
        if has(ids, first.saturating_mul(10).saturating_add(second)) {
            return true;
        }
    }
    false
}
