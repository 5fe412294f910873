//! The texts that several lines share.

ghost use Rattle.std.specs.Prelude.{◌≡◌, ◌++◌, IsTrue};
ghost use Rattle.dsr_explain.specs.Heads.{shared_text, start_text, text_after};

use crate::pieces::{put_named, put_numbered};
use crate::verb::Verb;
use dsr_names::Actor;
use dsr_reasons::{Writer, one_of};

/// A text that several lines share, by what it says.
#[derive(Clone, Copy)]
pub(crate) enum Shared {
    /// The beginning of an event's line, up to the last two digits of the event's number. In words it names the line of the play.
    Start {
        line: Option<u64>,
        hundreds: u64,
    },
    /// What is between an event's number and the name of whom the event concerns. In data it names the line of the play.
    Between {
        line: Option<u64>,
        verb: Verb,
        actor: Actor,
    },
    /// The name of whom an event that was done concerns; in data, followed by `done`.
    Other {
        as_data: bool,
        actor: Actor,
    },
    /// The start of the data line for a chain that this actor took.
    Chain(Actor),
}

impl Shared {
    /// Tells whether it is the same text. This is inlined, as a derived `==` is not: where the kind of `other` is known, only one case is left.
    #[inline(always)]
    pub(crate) fn same(&self, other: &Shared) -> bool
        ensures { IsTrue result → self.now ≡ other.now }
    {
        match (self, other) {
            (
                Shared::Start { line, hundreds },
                Shared::Start {
                    line: other_line,
                    hundreds: other_hundreds,
                },
            ) => line == other_line && hundreds == other_hundreds,
            (
                Shared::Between { line, verb, actor },
                Shared::Between {
                    line: other_line,
                    verb: other_verb,
                    actor: other_actor,
                },
            ) => line == other_line && verb == other_verb && actor == other_actor,
            (
                Shared::Other { as_data, actor },
                Shared::Other {
                    as_data: other_data,
                    actor: other_actor,
                },
            ) => as_data == other_data && actor == other_actor,
            (Shared::Chain(actor), Shared::Chain(other_actor)) => actor == other_actor,
            _ => false,
        }
    }

    /// Writes the text.
    pub(crate) fn write(&self, out: &mut Writer)
        ensures { out.new ≡ out.old ++ shared_text self.now }
    {
        match self {
            Shared::Start { line, hundreds } => write_start(out, *line, *hundreds),
            Shared::Between { line, verb, actor } => write_between(out, *line, *verb, *actor),
            Shared::Other { as_data, actor } => {
                out.put_name(*actor);
                out.put(one_of(*as_data, " done", ""))
            }
            Shared::Chain(actor) => put_named(out, "chain ", *actor),
        }
    }
}

/// Writes the beginning of an event's line, up to the last two digits of the event's number. A number without hundreds begins after it.
fn write_start(out: &mut Writer, line: Option<u64>, hundreds: u64)
    ensures { out.new ≡ out.old ++ start_text line hundreds }
{
    match line {
        None => out.put("event "),
        Some(line) => {
            put_numbered(out, "line ", line);
            out.put(", event ")
        }
    }
    if hundreds != 0 {
        out.put_number(hundreds);
    }
}

/// Writes what is between an event's number and the name of whom the event concerns.
fn write_between(out: &mut Writer, line: Option<u64>, verb: Verb, actor: Actor)
    ensures { out.new ≡ out.old ++ text_after line verb actor }
{
    match line {
        None => {
            put_named(out, ": ", actor);
            out.put(verb.text(false))
        }
        Some(line) => {
            put_numbered(out, " ", line);
            out.put(" ");
            out.put(verb.text(true));
            put_named(out, " ", actor);
            out.put(" ")
        }
    }
}
