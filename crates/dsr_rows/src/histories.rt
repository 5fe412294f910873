//! The calls that judge replies by a history.

ghost use Rattle.std.specs.Prelude.{◌↔◌, IsTrue};
ghost use Rattle.dsr_check.specs.Judged.{IsJudgedRight};

use dsr_base::split_once;
use dsr_check::judge;
use dsr_ledger::Reply;
use dsr_names::{ClientId, Refusal};
use dsr_request::{Name, Op, Request, Requests};
use dsr_row_calls::directories::{names, range};
use dsr_row_calls::{Answered, Failure, Said, Words, find};
use std::alloc::Global;

/// A history to judge replies by.
#[derive(Drop)]
pub(crate) struct History {
    requests: Vec<Request>,
}

/// A call at a history.
#[derive(Clone, Copy)]
enum Call {
    /// `acts REQUESTS`: appends these requests to the history, and answers how many it then has.
    Acts,
    /// `write-each CLIENT FIRST END VALUE`: the same, for writes of the value to the registers kFIRST to kEND, without the last.
    WriteEach,
    /// `right REPLIES`: whether these replies, each after its client, are right by the history.
    Right,
}

/// The calls by their verbs.
const CALLS: [(&str, Call); 3] = [
    ("acts", Call::Acts),
    ("write-each", Call::WriteEach),
    ("right", Call::Right),
];

impl History {
    /// Opens `judge`: an empty history.
    pub(crate) fn open(alloc: Global) -> History {
        History {
            requests: Vec::new(alloc),
        }
    }

    /// Makes the call of this verb.
    pub(crate) fn answer(&mut self, alloc: Global, verb: &[u8], words: &mut Words) -> Answered {
        match find(&CALLS, verb)? {
            Call::Acts => self.acts(words),
            Call::WriteEach => self.write_each(alloc, words),
            Call::Right => {
                let replies = replies(alloc, words.rest())?;
                Ok(Said::Whether(self.is_right(replies.as_slice())))
            }
        }
    }

    /// Tells whether these replies, each beside its client, are right by the history.
    fn is_right(&self, replies: &[(ClientId, Reply)]) -> bool
        ensures { IsTrue result ↔ IsJudgedRight self.now.requests.items replies.now }
    {
        judge(self.requests.as_slice(), replies)
    }

    /// Answers `acts REQUESTS`.
    fn acts(&mut self, words: &Words) -> Answered {
        let requests = Requests::read(words.rest()).ok_or(Failure::BadRow)?;
        self.requests.extend_from_slice(requests.as_slice())?;
        Ok(Said::Number(self.requests.len() as u64))
    }

    /// Answers `write-each CLIENT FIRST END VALUE`. The requests are numbered from 1 on.
    fn write_each(&mut self, alloc: Global, words: &mut Words) -> Answered {
        let client = words.client()?;
        let (first, end) = range(words)?;
        let value = words.number()?;
        let names = names(alloc, first, end)?;
        let writes = writes(alloc, client, names.as_slice(), value)?;
        self.requests.extend_from_slice(writes.as_slice())?;
        Ok(Said::Number(self.requests.len() as u64))
    }
}

/// Returns the client's requests to write the value to each of these registers, numbered from 1 on.
fn writes(
    alloc: Global,
    client: ClientId,
    names: &[Name],
    value: u64,
) -> Result<Vec<Request>, Refusal> {
    let mut writes = Vec::new(alloc);
    let mut number = 0u64;
    for name in names {
        number = number.saturating_add(1);
        let op = Op::Write { name: *name, value };
        writes.push(Request::new(client, number, op)?)?;
    }
    Ok(writes)
}

/// Reads replies, each after its client, with a spaced bar between them; a dash means no replies.
fn replies(alloc: Global, words: &[u8]) -> Result<Vec<(ClientId, Reply)>, Failure> {
    let mut replies = Vec::new(alloc);
    if words == b"-".as_slice() {
        return Ok(replies);
    }
    let mut rest = words;
    for _ in 0..words.len() {
        let Some((front, back)) = split_once(rest, b'|') else {
            break;
        };
        let front = front.strip_suffix(b" ".as_slice()).ok_or(Failure::BadRow)?;
        replies.push(reply(front)?)?;
        rest = back.strip_prefix(b" ".as_slice()).ok_or(Failure::BadRow)?;
    }
    replies.push(reply(rest)?)?;
    Ok(replies)
}

/// Reads a reply after its client.
fn reply(bytes: &[u8]) -> Result<(ClientId, Reply), Failure> {
    let mut words = Words::of(bytes);
    let client = words.client()?;
    Ok((client, words.reply()?))
}
