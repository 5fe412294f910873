ghost use Rattle.std.specs.Prelude.{◌≡◌, ◌++◌, ◌≤◌, length};
ghost use Rattle.std.proofs.Common.{rules};
ghost use Rattle.dsr_names.specs.Refusal.{code_of, refusal_text, word_of};
ghost use Rattle.dsr_names.specs.Support.RefusalText.{line_text};
ghost use Rattle.dsr_names.specs.declared.refusal.Refusal.TheVariants.{NoMemory};

use dsr_base::Exact;
use std::alloc::{AllocError, AllocFailed};
use std::fmt;

/// Why a call was refused. The number of each is its `code`, from 1 to 19.
#[derive(Clone, Copy, Debug, PartialEq, Eq)]
pub enum Refusal {
    /// The replicas, traitors or clients of a shape are outside the limits.
    BadShape,
    /// A text is not a register name.
    BadName,
    /// A request number is 0, or 2^40 or more.
    BadNumber,
    /// A request of this client is outstanding.
    Busy,
    /// This actor's protocol has no such step now.
    NotDue,
    /// The box holds an envelope.
    BoxFull,
    /// The box is empty.
    BoxEmpty,
    /// The signer's key is not held, and the signature is not known.
    Forged,
    /// A counter would pass its limit.
    Exhausted,
    /// The gate answered false.
    Stopped,
    /// The turns ran out.
    Unanswered,
    /// Memory ran out.
    NoMemory,
    /// `line`, counted from 1, is the first that is not in the grammar.
    BadText { line: u64 },
    /// The lines before `line`, counted from 1, are a run, and this one does not continue it.
    NotARun { line: u64 },
    /// No actor has this number: replicas are below 16, clients below 32; or it is not of the shape.
    NoActor,
    /// The actor may not take this part.
    WrongRole,
    /// The reader failed, or the input passes its limit.
    ReadFailed,
    /// The writer failed, took none of a rest that was not empty, or its calls ran out.
    WriteFailed,
    /// A thread could not be started, or memory for it ran out.
    NoThread,
}

/// Memory that ran out is `NoMemory`.
impl From<AllocError> for Refusal {
    ghost from_gives = { λ _ e. e ≡ NoMemory };

    fn from(_: AllocError) -> Refusal {
        Refusal::NoMemory
    }
}

/// Memory that ran out is `NoMemory`, whatever was to be stored.
impl<T: Drop> From<AllocFailed<T>> for Refusal {
    ghost from_gives = { λ _ e. e ≡ NoMemory };

    fn from(_: AllocFailed<T>) -> Refusal {
        Refusal::NoMemory
    }
}

impl Refusal {
    /// Returns the number of this refusal, from 1 to 19.
    pub fn code(&self) -> u8
        ensures { result ≡ code_of self.now }
    {
        match self {
            Refusal::BadShape => 1,
            Refusal::BadName => 2,
            Refusal::BadNumber => 3,
            Refusal::Busy => 4,
            Refusal::NotDue => 5,
            Refusal::BoxFull => 6,
            Refusal::BoxEmpty => 7,
            Refusal::Forged => 8,
            Refusal::Exhausted => 9,
            Refusal::Stopped => 10,
            Refusal::Unanswered => 11,
            Refusal::NoMemory => 12,
            Refusal::BadText { .. } => 13,
            Refusal::NotARun { .. } => 14,
            Refusal::NoActor => 15,
            Refusal::WrongRole => 16,
            Refusal::ReadFailed => 17,
            Refusal::WriteFailed => 18,
            Refusal::NoThread => 19,
        }
    }

    /// Returns the name of this refusal's variant.
    pub fn word(&self) -> &'static str
        ensures { result.now ≡ word_of self.now }
    {
        match self {
            Refusal::BadShape => "BadShape",
            Refusal::BadName => "BadName",
            Refusal::BadNumber => "BadNumber",
            Refusal::Busy => "Busy",
            Refusal::NotDue => "NotDue",
            Refusal::BoxFull => "BoxFull",
            Refusal::BoxEmpty => "BoxEmpty",
            Refusal::Forged => "Forged",
            Refusal::Exhausted => "Exhausted",
            Refusal::Stopped => "Stopped",
            Refusal::Unanswered => "Unanswered",
            Refusal::NoMemory => "NoMemory",
            Refusal::BadText { .. } => "BadText",
            Refusal::NotARun { .. } => "NotARun",
            Refusal::NoActor => "NoActor",
            Refusal::WrongRole => "WrongRole",
            Refusal::ReadFailed => "ReadFailed",
            Refusal::WriteFailed => "WriteFailed",
            Refusal::NoThread => "NoThread",
        }
    }

    /// Returns the words of this refusal's text, and the line number that the text has after them;
    /// `None` for a text of words alone.
    pub(crate) fn parts(&self) -> (&'static str, Option<u64>)
        ensures text { refusal_text self.now ≡ result.0.now ++ line_text result.1 }
        ensures short { length result.0.now ≤ 26 }
    {
        match self {
            Refusal::BadShape => ("the shape is not allowed", None),
            Refusal::BadName => ("not a register name", None),
            Refusal::BadNumber => ("number out of range", None),
            Refusal::Busy => ("a request is outstanding", None),
            Refusal::NotDue => ("not due", None),
            Refusal::BoxFull => ("the box is full", None),
            Refusal::BoxEmpty => ("the box is empty", None),
            Refusal::Forged => ("a signature is forged", None),
            Refusal::Exhausted => ("a counter is exhausted", None),
            Refusal::Stopped => ("stopped by the gate", None),
            Refusal::Unanswered => ("no answer within the turns", None),
            Refusal::NoMemory => ("no memory", None),
            Refusal::BadText { line } => ("bad text in line ", Some(*line)),
            Refusal::NotARun { line } => ("not a run at line ", Some(*line)),
            Refusal::NoActor => ("no such actor", None),
            Refusal::WrongRole => ("not that actor's part", None),
            Refusal::ReadFailed => ("reading failed", None),
            Refusal::WriteFailed => ("writing failed", None),
            Refusal::NoThread => ("no thread", None),
        }
    }
}

/// The text that a fault prints, without the program's name before it.
impl fmt::Display for Refusal {
    ghost use Rattle.std.specs.Prelude.{Some};
    ghost use Rattle.dsr_names.specs.Refusal.{refusal_text};

    ghost output = { λ r. Some (refusal_text r) };

    fn fmt<W: fmt::Write>(&self, f: &mut fmt::Formatter<W>) -> fmt::Result {
        let (words, line) = self.parts();
        match line {
            None => f.write_str(words),
            Some(line) => write!(f, "{words}{line}"),
        }
    }
}

impl Exact for Refusal {
    ghost decides = { λ a b. Prim.search rules };

    ghost clones = { λ a b. Prim.search rules };
}
