//! What the lines of an explanation have in common.

ghost use Rattle.std.specs.Prelude.{◌≡◌, ◌++◌, IfOk, IsOkUnless, string_bytes};
ghost use Rattle.dsr_names.specs.Actor.{actor_text};
ghost use Rattle.dsr_script.specs.EnvelopeText.{envelope_text};
ghost use Rattle.dsr_reasons.specs.Reason.{one_of};
ghost use Rattle.dsr_transcripts.specs.Why.{IsShown, numbers_text};

use dsr_envelope::Envelope;
use dsr_names::{Actor, Refusal};
use dsr_reasons::Writer;
use dsr_script::Draft;
use std::alloc::Global;
use std::fmt::Write;

/// Writes the word or the beginning of a sentence, and the actor's name.
pub(crate) fn put_actor(
    out: &mut Writer,
    as_data: bool,
    word: &'static str,
    before: &'static str,
    actor: Actor,
)
    ensures { out.new ≡ out.old ++ (one_of as_data word.now before.now ++ actor_text actor) }
{
    out.put_one(as_data, word, before);
    out.put_name(actor);
}

/// Writes the word and two numbers, or a sentence with both.
pub(crate) fn put_numbers(
    out: &mut Writer,
    as_data: bool,
    word: &'static str,
    before: &'static str,
    number: u64,
    between: &'static str,
    other: u64,
)
    ensures { out.new ≡ out.old ++ numbers_text as_data word.now before.now number between.now other }
{
    out.put_one(as_data, word, before);
    out.put_number(number);
    out.put_one(as_data, " ", between);
    out.put_number(other);
}

/// Returns the envelope's text; a dash for an envelope beyond the limits, which has none.
pub(crate) fn shown_of(alloc: Global, envelope: &Envelope) -> Result<String, Refusal>
    ensures shown { IfOk result (λ shown. IsShown envelope.now (string_bytes shown)) }
    ensures refusal { IsOkUnless result Refusal.NoMemory }
{
    if envelope.fits() {
        let draft = Draft::of(alloc, envelope)?;
        return text_of(alloc, &draft);
    }
    let mut out = String::new(alloc);
    out.push_str("-")?;
    Ok(out)
}

/// Returns the text of the envelope.
pub(crate) fn text_of(alloc: Global, draft: &Draft) -> Result<String, Refusal>
    ensures text { IfOk result (λ text. string_bytes text ≡ envelope_text draft.now) }
    ensures refusal { IsOkUnless result Refusal.NoMemory }
{
    let mut text = String::new(alloc);
    write!(text, "{draft}")?;
    Ok(text)
}
