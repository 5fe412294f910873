//! Compares two values.

use crate::desk::{Desk, draft_of};
use crate::said::{Answered, Failure, Said};
use crate::words::{Words, find};
use dsr_desk::Statement;
use dsr_names::Refusal;
use dsr_request::{Name, Requests};

/// A kind of values that can be compared.
#[derive(Clone, Copy)]
enum Kind {
    /// Names of registers.
    Name,
    /// Lists of requests.
    Requests,
    /// Statements.
    Statement,
    /// Signatures.
    Signature,
    /// Signed requests.
    Signed,
    /// Values.
    Value,
    /// Chains.
    Chain,
    /// The contents of two chains.
    Content,
    /// Envelopes.
    Envelope,
    /// Envelopes as data.
    Draft,
}

/// The kinds by their words.
const KINDS: [(&str, Kind); 10] = [
    ("name", Kind::Name),
    ("requests", Kind::Requests),
    ("statement", Kind::Statement),
    ("signature", Kind::Signature),
    ("signed-request", Kind::Signed),
    ("value", Kind::Value),
    ("chain", Kind::Chain),
    ("content", Kind::Content),
    ("envelope", Kind::Envelope),
    ("draft", Kind::Draft),
];

/// Answers `same KIND ONE | OTHER`: whether the two are the same; of most kinds, a copy of the first is compared.
pub fn same(desk: &Desk, words: &mut Words) -> Answered {
    let kind = find(&KINDS, words.next())?;
    let (one, other) = words.pair()?;
    let is_same = match kind {
        Kind::Name => are_same_names(one, other)?,
        Kind::Requests => are_same_requests(one, other)?,
        Kind::Statement => are_same_statements(one, other)?,
        Kind::Signature => are_same_signatures(desk, one, other)?,
        Kind::Signed => are_same_signed(desk, one, other)?,
        Kind::Value => are_same_values(desk, one, other)?,
        Kind::Chain => are_same_chains(desk, one, other)?,
        Kind::Content => have_same_content(desk, one, other)?,
        Kind::Envelope => are_same_envelopes(desk, one, other)?,
        Kind::Draft => are_same_drafts(desk, one, other)?,
    };
    Ok(Said::Whether(is_same))
}

/// Tells whether the names are the same.
fn are_same_names(one: &[u8], other: &[u8]) -> Result<bool, Failure> {
    let one = Name::read(one)?;
    Ok(one.same(&Name::read(other)?))
}

/// Tells whether the lists of requests are the same.
fn are_same_requests(one: &[u8], other: &[u8]) -> Result<bool, Failure> {
    let one = requests(one)?;
    Ok(one.same(&requests(other)?))
}

/// Reads a list of requests.
fn requests(bytes: &[u8]) -> Result<Requests, Failure> {
    Requests::read(bytes).ok_or(Failure::BadRow)
}

/// Tells whether the statements are the same; a copy of the first is compared.
fn are_same_statements(one: &[u8], other: &[u8]) -> Result<bool, Failure> {
    match (Statement::read(one), Statement::read(other)) {
        (Some(one), Some(other)) => Ok(one.copy().same(&other)),
        _ => Err(Failure::BadRow),
    }
}

/// Tells whether the signatures are the same; a copy of the first is compared.
fn are_same_signatures(desk: &Desk, one: &[u8], other: &[u8]) -> Result<bool, Failure> {
    let copy = desk.signature(one)?.copy();
    Ok(copy.same(&desk.signature(other)?))
}

/// Tells whether the signed requests are the same.
fn are_same_signed(desk: &Desk, one: &[u8], other: &[u8]) -> Result<bool, Failure> {
    let one = desk.signed(one)?;
    Ok(one.same(&desk.signed(other)?))
}

/// Tells whether the values are the same; a copy of the first is compared.
fn are_same_values(desk: &Desk, one: &[u8], other: &[u8]) -> Result<bool, Failure> {
    let copy = desk.value(one)?.copy();
    Ok(copy.same(&desk.value(other)?))
}

/// Tells whether the chains are the same; a copy of the first is compared.
fn are_same_chains(desk: &Desk, one: &[u8], other: &[u8]) -> Result<bool, Failure> {
    let copy = desk.chain(one)?.try_copy()?;
    Ok(copy.same(&desk.chain(other)?))
}

/// Tells whether the contents of the chains are the same.
fn have_same_content(desk: &Desk, one: &[u8], other: &[u8]) -> Result<bool, Failure> {
    let one = desk.chain(one)?;
    Ok(one.same_content(&desk.chain(other)?))
}

/// Tells whether the envelopes are the same; a copy of the first is compared.
fn are_same_envelopes(desk: &Desk, one: &[u8], other: &[u8]) -> Result<bool, Failure> {
    let copy = desk.envelope(one)?.try_copy(desk.alloc())?;
    Ok(copy.same(&desk.envelope(other)?))
}

/// Tells whether the drafts are the same; a copy of the first is compared.
fn are_same_drafts(desk: &Desk, one: &[u8], other: &[u8]) -> Result<bool, Failure> {
    let copy = draft_of(desk.alloc(), one)?.try_copy()?;
    Ok(copy.same(&draft_of(desk.alloc(), other)?))
}
