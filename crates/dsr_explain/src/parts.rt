//! The parts of a line, which is written at once.

ghost use Rattle.std.specs.Prelude.{◌≡◌, ◌++◌};
ghost use Rattle.dsr_explain.specs.Parts.{part_text, parts_text};

use dsr_names::Actor;
use dsr_reasons::Writer;

/// A part of a line.
#[derive(Clone, Copy)]
pub(crate) enum Part {
    Text(&'static str),
    Number(u64),
    Name(Actor),
}

/// Appends these parts.
pub(crate) fn put_parts(out: &mut Writer, parts: &[Part])
    ensures { out.new ≡ out.old ++ parts_text parts.now }
{
    match parts {
        [] => {}
        [first, others @ ..] => {
            put_part(out, first);
            put_parts(out, others)
        }
    }
}

/// Appends this part.
fn put_part(out: &mut Writer, part: &Part)
    ensures { out.new ≡ out.old ++ part_text part.now }
{
    match part {
        Part::Text(text) => out.put(*text),
        Part::Number(number) => out.put_number(*number),
        Part::Name(actor) => out.put_name(*actor),
    }
}
