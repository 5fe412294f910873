//! The answers of calls.

use dsr_chain::ChainFault;
use dsr_desk::Content;
use dsr_envelope::Due;
use dsr_ledger::Reply;
use dsr_names::{Actor, Old, Refusal, Shape};
use dsr_request::{Answer, Request};
use dsr_script::Draft;
use dsr_slot::Fate;
use std::alloc::{AllocError, AllocFailed};
use std::fmt;

/// The answer of a call.
#[derive(Drop)]
pub enum Said {
    /// The call succeeded and returns no value.
    Done,
    /// No such value exists.
    Nothing,
    /// Whether something holds.
    Whether(bool),
    /// A number.
    Number(u64),
    /// What becomes of a chain.
    Fate(Fate),
    /// An actor.
    Actor(Actor),
    /// A shape.
    Shape(Shape),
    /// The contents of a register.
    Old(Old),
    /// An answer of the directory.
    Answer(Answer),
    /// A request.
    Request(Request),
    /// A reply.
    Reply(Reply),
    /// The requests of a slot.
    Content(Content),
    /// What a replica does next.
    Due(Due),
    /// An envelope.
    Envelope(Draft),
    /// The text of anything else.
    Text(String),
}

/// The reason why a call has no answer of its own.
#[derive(Clone, Copy, Debug, PartialEq, Eq)]
pub enum Failure {
    /// The verb does not take the words after it.
    BadRow,
    /// The call's contract forbids it here, so it was not made.
    NoCall,
    /// The verb is unknown here.
    Skip,
    /// The call was refused.
    Refused(Refusal),
}

/// The answer of a call, or the reason why it has none.
pub type Answered = Result<Said, Failure>;

impl From<Refusal> for Failure {
    fn from(refusal: Refusal) -> Failure {
        Failure::Refused(refusal)
    }
}

impl From<AllocError> for Failure {
    fn from(_: AllocError) -> Failure {
        Failure::Refused(Refusal::NoMemory)
    }
}

impl<T: Drop> From<AllocFailed<T>> for Failure {
    fn from(_: AllocFailed<T>) -> Failure {
        Failure::Refused(Refusal::NoMemory)
    }
}

impl Said {
    /// Returns what a check found.
    pub(crate) fn of_check(found: Result<(), ChainFault>) -> Said {
        match found {
            Ok(()) => Said::Done,
            Err(fault) => Said::Fate(Fate::Improper(fault)),
        }
    }

    /// Returns the number, or `Nothing`.
    pub(crate) fn of_number(number: Option<u64>) -> Said {
        match number {
            Some(number) => Said::Number(number),
            None => Said::Nothing,
        }
    }

    /// Returns the reply, or `Nothing`.
    pub(crate) fn of_reply(reply: Option<Reply>) -> Said {
        match reply {
            Some(reply) => Said::Reply(reply),
            None => Said::Nothing,
        }
    }

    /// Returns the answer, or `Nothing`.
    pub(crate) fn of_answer(answer: Option<Answer>) -> Said {
        match answer {
            Some(answer) => Said::Answer(answer),
            None => Said::Nothing,
        }
    }

    /// Returns the request, or `Nothing`.
    pub(crate) fn of_request(request: Option<Request>) -> Said {
        match request {
            Some(request) => Said::Request(request),
            None => Said::Nothing,
        }
    }
}

/// Returns the word of a fault.
pub(crate) fn word_of(fault: ChainFault) -> &'static str {
    match fault {
        ChainFault::OtherSlot => "other-slot",
        ChainFault::WrongCount => "wrong-count",
        ChainFault::WrongSender => "wrong-sender",
        ChainFault::NoReplica => "no-replica",
        ChainFault::SignedTwice => "signed-twice",
        ChainFault::Misfit => "misfit",
        ChainFault::BadRequest => "bad-request",
    }
}

/// Returns the word of a fate.
fn word_of_fate(fate: Fate) -> &'static str {
    match fate {
        Fate::First => "first",
        Fate::Second => "second",
        Fate::NotNew => "not-new",
        Fate::OneTooMany => "one-too-many",
        Fate::Improper(fault) => word_of(fault),
    }
}

/// Writes a reply: its number, its place and its answer.
fn write_reply<W: fmt::Write>(f: &mut fmt::Formatter<W>, reply: &Reply) -> fmt::Result {
    let (number, place, answer) = (reply.number, reply.place, reply.answer);
    write!(f, "{number} {place} {answer}")
}

/// Writes what is due.
fn write_due<W: fmt::Write>(f: &mut fmt::Formatter<W>, due: Due) -> fmt::Result {
    match due {
        Due::Post(to) => write!(f, "post {to}"),
        Due::Take(from) => write!(f, "take {from}"),
    }
}

impl fmt::Display for Said {
    fn fmt<W: fmt::Write>(&self, f: &mut fmt::Formatter<W>) -> fmt::Result {
        match self {
            Said::Done => f.write_str("ok"),
            Said::Nothing => f.write_str("-"),
            Said::Whether(true) => f.write_str("yes"),
            Said::Whether(false) => f.write_str("no"),
            Said::Number(number) => write!(f, "{number}"),
            Said::Fate(fate) => f.write_str(word_of_fate(*fate)),
            Said::Actor(actor) => write!(f, "{actor}"),
            Said::Shape(shape) => write!(f, "{shape}"),
            Said::Old(old) => write!(f, "{old}"),
            Said::Answer(answer) => write!(f, "{answer}"),
            Said::Request(request) => write!(f, "{request}"),
            Said::Reply(reply) => write_reply(f, reply),
            Said::Content(content) => write!(f, "{content}"),
            Said::Due(due) => write_due(f, *due),
            Said::Envelope(draft) => write!(f, "{draft}"),
            Said::Text(text) => f.write_str(text.as_str()),
        }
    }
}

/// Writes a refusal: its number, its name, and the line that it names.
fn write_refusal<W: fmt::Write>(f: &mut fmt::Formatter<W>, refusal: Refusal) -> fmt::Result {
    let (code, word) = (refusal.code(), refusal.word());
    match refusal {
        Refusal::BadText { line } | Refusal::NotARun { line } => {
            write!(f, "E{code} {word} {line}")
        }
        _ => write!(f, "E{code} {word}"),
    }
}

impl fmt::Display for Failure {
    fn fmt<W: fmt::Write>(&self, f: &mut fmt::Formatter<W>) -> fmt::Result {
        match self {
            Failure::BadRow => f.write_str("bad-row"),
            Failure::NoCall => f.write_str("no-call"),
            Failure::Skip => f.write_str("skip"),
            Failure::Refused(refusal) => write_refusal(f, *refusal),
        }
    }
}
