//! The calls of directories.

use crate::said::{Answered, Failure, Said};
use crate::words::{Words, find};
use dsr_names::Old;
use dsr_register::{Answer, Directory, Name, Op};
use std::alloc::Global;

/// A call at a directory.
#[derive(Clone, Copy)]
enum Call {
    /// `apply OPERATION`: the directory's answer to the operation.
    Apply,
    /// `get NAME`: what the register holds.
    Get,
    /// `len`: how many registers hold a value.
    Len,
    /// `is-empty`: whether no register does.
    IsEmpty,
    /// `clear`: takes every value out.
    Clear,
    /// `write-each FIRST END VALUE`: writes this value to the registers kFIRST to kEND, without the last, and counts those that took it.
    WriteEach,
    /// `remove-each FIRST END`: removes these registers, and counts those that held a value.
    RemoveEach,
}

/// The calls by their verbs.
const CALLS: [(&str, Call); 7] = [
    ("apply", Call::Apply),
    ("get", Call::Get),
    ("len", Call::Len),
    ("is-empty", Call::IsEmpty),
    ("clear", Call::Clear),
    ("write-each", Call::WriteEach),
    ("remove-each", Call::RemoveEach),
];

/// Opens `directory`: an empty directory.
pub fn open(alloc: Global) -> Result<Directory, Failure> {
    Ok(Directory::new(alloc)?)
}

/// Makes the call of this verb at the directory.
pub fn answer(
    alloc: Global,
    directory: &mut Directory,
    verb: &[u8],
    words: &mut Words,
) -> Answered {
    match find(&CALLS, verb)? {
        Call::Apply => Ok(Said::Answer(directory.apply(words.op()?))),
        Call::Get => Ok(Said::Old(Old(directory.get(&words.name()?)))),
        Call::Len => Ok(Said::Number(directory.len() as u64)),
        Call::IsEmpty => Ok(Said::Whether(directory.is_empty())),
        Call::Clear => {
            directory.clear();
            Ok(Said::Done)
        }
        Call::WriteEach => write_each(alloc, directory, words),
        Call::RemoveEach => remove_each(alloc, directory, words),
    }
}

/// Takes a range of numbers of registers.
pub fn range(words: &mut Words) -> Result<(u16, u16), Failure> {
    match (
        u16::try_from(words.number()?),
        u16::try_from(words.number()?),
    ) {
        (Ok(first), Ok(end)) => Ok((first, end)),
        _ => Err(Failure::BadRow),
    }
}

/// Returns the name `k` followed by the number, for each number in the range.
pub fn names(alloc: Global, first: u16, end: u16) -> Result<Vec<Name>, Failure> {
    let mut names = Vec::new(alloc);
    for number in first..end {
        names.push(name_of(alloc, number)?)?;
    }
    Ok(names)
}

/// Returns the name `k` followed by the number.
fn name_of(alloc: Global, number: u16) -> Result<Name, Failure> {
    let text = format!(in alloc; "k{number}")?;
    Ok(Name::read(text.as_bytes())?)
}

/// Answers `write-each FIRST END VALUE`.
fn write_each(alloc: Global, directory: &mut Directory, words: &mut Words) -> Answered {
    let (first, end) = range(words)?;
    let value = words.number()?;
    let mut count = 0u64;
    for name in names(alloc, first, end)? {
        if directory.apply(Op::Write { name, value }) == Answer::Written {
            count = count.saturating_add(1);
        }
    }
    Ok(Said::Number(count))
}

/// Answers `remove-each FIRST END`.
fn remove_each(alloc: Global, directory: &mut Directory, words: &mut Words) -> Answered {
    let (first, end) = range(words)?;
    let mut count = 0u64;
    for name in names(alloc, first, end)? {
        if directory.apply(Op::Remove { name }) != Answer::Removed(None) {
            count = count.saturating_add(1);
        }
    }
    Ok(Said::Number(count))
}
