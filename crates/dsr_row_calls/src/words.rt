//! The words of a call.

use crate::said::Failure;
use dsr_base::{read_decimal, split_once};
use dsr_ledger::Reply;
use dsr_names::{Actor, ClientId, ReplicaId, Shape};
use dsr_request::{Answer, Name, Op};

/// The rest of a line, whose words are separated by single spaces.
#[derive(Clone, Copy)]
pub struct Words<'a> {
    rest: &'a [u8],
}

impl<'a> Words<'a> {
    /// Returns the words of this line.
    pub fn of(line: &'a [u8]) -> Words<'a> {
        Words { rest: line }
    }

    /// Takes the next word: the part before the next space, or all of the rest without one.
    pub fn next(&mut self) -> &'a [u8] {
        let (word, rest) = match split_once(self.rest, b' ') {
            Some((word, rest)) => (word, rest),
            None => (self.rest, b"".as_slice()),
        };
        self.rest = rest;
        word
    }

    /// Returns the rest.
    pub fn rest(&self) -> &'a [u8] {
        self.rest
    }

    /// Tells whether nothing is left.
    pub(crate) fn is_empty(&self) -> bool {
        self.rest.is_empty()
    }

    /// Returns the two sides of the first spaced bar in the rest.
    pub(crate) fn pair(&self) -> Result<(&'a [u8], &'a [u8]), Failure> {
        let (front, back) = split_once(self.rest, b'|').ok_or(Failure::BadRow)?;
        let front = front.strip_suffix(b" ".as_slice()).ok_or(Failure::BadRow)?;
        let back = back.strip_prefix(b" ".as_slice()).ok_or(Failure::BadRow)?;
        Ok((front, back))
    }

    /// Takes a number below 2^64.
    pub fn number(&mut self) -> Result<u64, Failure> {
        read_decimal(self.next()).ok_or(Failure::BadRow)
    }

    /// Takes a number below 256.
    pub(crate) fn small_number(&mut self) -> Result<u8, Failure> {
        match u8::try_from(self.number()?) {
            Ok(number) => Ok(number),
            Err(_) => Err(Failure::BadRow),
        }
    }

    /// Takes an actor.
    pub(crate) fn actor(&mut self) -> Result<Actor, Failure> {
        Actor::read(self.next()).ok_or(Failure::BadRow)
    }

    /// Takes a replica.
    pub(crate) fn replica(&mut self) -> Result<ReplicaId, Failure> {
        ReplicaId::read(self.next()).ok_or(Failure::BadRow)
    }

    /// Takes a client.
    pub fn client(&mut self) -> Result<ClientId, Failure> {
        ClientId::read(self.next()).ok_or(Failure::BadRow)
    }

    /// Takes the four words of a shape.
    pub(crate) fn shape(&mut self) -> Result<Shape, Failure> {
        let whole = self.rest;
        for _ in 0..4 {
            let _ = self.next();
        }
        let mut size = whole.len().saturating_sub(self.rest.len());
        if !self.rest.is_empty() {
            size = size.saturating_sub(1);
        }
        match Shape::read(&whole[..size]) {
            Some(Ok(shape)) => Ok(shape),
            Some(Err(refusal)) => Err(Failure::Refused(refusal)),
            None => Err(Failure::BadRow),
        }
    }

    /// Returns the name that the rest is.
    pub(crate) fn name(&self) -> Result<Name, Failure> {
        match Name::read(self.rest) {
            Ok(name) => Ok(name),
            Err(refusal) => Err(Failure::Refused(refusal)),
        }
    }

    /// Returns the spaced operation that the rest is.
    pub(crate) fn op(&self) -> Result<Op, Failure> {
        Op::read(self.rest, b' ').ok_or(Failure::BadRow)
    }

    /// Returns the reply that the rest is: its number, its place and its answer.
    pub fn reply(&mut self) -> Result<Reply, Failure> {
        let number = self.number()?;
        let place = self.number()?;
        let answer = Answer::read(self.rest).ok_or(Failure::BadRow)?;
        Ok(Reply {
            number,
            place,
            answer,
        })
    }
}

/// Returns the value of the word in the table. `Skip` if the word is not there.
pub fn find<T: Copy>(table: &[(&str, T)], word: &[u8]) -> Result<T, Failure> {
    for (entry, value) in table {
        if entry.as_bytes() == word {
            return Ok(*value);
        }
    }
    Err(Failure::Skip)
}
