//! The line of an event: its number, the line of the play that represents it, and who does what to whom.

ghost use Rattle.std.specs.Prelude.{◌≡◌, ◌++◌, OnOk, IsOkUnless, string_bytes};
ghost use Rattle.dsr_explain.specs.Heads.{last_text};
ghost use Rattle.dsr_explain.specs.Told.{doing, done_line, place_text, refusal_text, refused_line};

use crate::pieces::{put_named, put_numbered};
use crate::shared::Shared;
use crate::tokens::Tokens;
use crate::verb::Verb;
use dsr_names::Refusal;
use dsr_reasons::{Writer, actor_of, other_of};
use dsr_world::Event;

/// Writes the line of the event with this number, which was done; `shown` is the envelope that it posted or took.
pub(crate) fn write_done(
    out: &mut Writer,
    tokens: &mut Tokens,
    as_data: bool,
    number: u64,
    line: u64,
    event: &Event,
    shown: &String,
)
    ensures { out.new ≡ out.old ++ done_line as_data number line event.now (string_bytes shown.now) }
{
    let hundreds = number / 100;
    tokens.put(
        out,
        &Shared::Start {
            line: (!as_data).then_some(line),
            hundreds,
        },
    );
    put_last(out, hundreds, number);
    tokens.put(
        out,
        &Shared::Between {
            line: as_data.then_some(line),
            verb: Verb::of(event),
            actor: actor_of(event),
        },
    );
    tokens.put(
        out,
        &Shared::Other {
            as_data,
            actor: other_of(event),
        },
    );
    out.put_text(shown);
}

/// Writes the digits of the number that follow its hundreds, which are `hundreds`.
fn put_last(out: &mut Writer, hundreds: u64, number: u64)
    ensures { out.new ≡ out.old ++ last_text hundreds number }
{
    if hundreds == 0 {
        out.put_number(number);
    } else {
        out.put_two_digits(number);
    }
}

/// Writes the line of a refused event; `shown` is its end. `NoMemory` if memory ran out while `shown` was written.
pub(crate) fn write_refused(
    out: &mut Writer,
    as_data: bool,
    number: u64,
    line: u64,
    event: &Event,
    refusal: &Refusal,
    shown: &Writer,
) -> Result<(), Refusal>
    ensures written { OnOk result (out.new ≡ out.old ++ refused_line as_data number line event.now refusal.now shown.now) }
    ensures refusal { IsOkUnless result Refusal.NoMemory }
{
    write_place(out, as_data, number, line);
    write_refusal(out, as_data, event, refusal);
    out.put_all_of(shown)
}

/// Writes how the event was refused, and what it did not do.
fn write_refusal(out: &mut Writer, as_data: bool, event: &Event, refusal: &Refusal)
    ensures { out.new ≡ out.old ++ refusal_text as_data event.now refusal.now }
{
    let code = refusal.code() as u64;
    if as_data {
        write_doing(out, true, event);
        put_numbered(out, " E", code);
    } else {
        put_numbered(out, ": refused, E", code);
        out.put(" ");
        out.put(refusal.word());
        write_doing(out, false, event);
    }
}

/// Writes the event's number, and the line of the play that represents it.
fn write_place(out: &mut Writer, as_data: bool, number: u64, line: u64)
    ensures { out.new ≡ out.old ++ place_text as_data number line }
{
    if as_data {
        put_numbered(out, "event ", number);
        put_numbered(out, " ", line);
        out.put(" ");
    } else {
        put_numbered(out, "line ", line);
        put_numbered(out, ", event ", number);
    }
}

/// Writes who does what to whom.
fn write_doing(out: &mut Writer, as_data: bool, event: &Event)
    ensures { out.new ≡ out.old ++ doing as_data event.now }
{
    let verb = Verb::of(event).text(as_data);
    let actor = actor_of(event);
    let other = other_of(event);
    if as_data {
        out.put(verb);
        put_named(out, " ", actor);
        put_named(out, " ", other);
    } else {
        put_named(out, ": ", actor);
        put_named(out, verb, other);
    }
}
