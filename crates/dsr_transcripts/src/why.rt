//! Why a step may not follow.

ghost use Rattle.std.specs.Prelude.{◌≡◌, ◌++◌, [], codes, IfOk, IsOkUnless, string_bytes};
ghost use Rattle.dsr_run.specs.Step.{log_of};
ghost use Rattle.dsr_reasons.specs.Reason.{TellsCause, one_of};
ghost use Rattle.dsr_facts.specs.Cause.{HoldsCause};
ghost use Rattle.dsr_facts.specs.Difference.{IsDifference};
ghost use Rattle.dsr_lines.specs.Line.{HoldsFault};
ghost use Rattle.dsr_transcripts.specs.Why.{IsWhy, TellsDifference, difference_text, other_held_text, outside_text, twice_text, why_line};

use crate::differing::write_difference;
use crate::standing::current_of;
use crate::words::{put_actor, shown_of};
use dsr_envelope::Envelope;
use dsr_facts::{Cause, Difference};
use dsr_lines::LineFault;
use dsr_names::{Actor, ClientId, Refusal};
use dsr_reasons::{Writer, write_why};
use dsr_record::NotedStep;
use dsr_script::Forged;
use dsr_world::{Event, Stage};
use std::alloc::Global;

/// Returns the text that says why the step may not follow in this stage. Requires that this is wrong with it.
pub(crate) fn why_of(
    alloc: Global,
    as_data: bool,
    stage: &Stage,
    step: &NotedStep,
    fault: &LineFault,
) -> Result<String, Refusal>
    requires { HoldsFault stage.now.shape (log_of stage.now.run) step.now fault.now }
    ensures says { IfOk result (λ why. IsWhy as_data stage.now.shape (log_of stage.now.run) step.now.0 fault.now (string_bytes why)) }
    ensures refusal { IsOkUnless result Refusal.NoMemory }
{
    match fault {
        LineFault::Refused { event, cause } => why_refused(alloc, as_data, stage, event, cause),
        LineFault::OtherHeld => why_held(alloc, as_data),
        LineFault::OtherPosted {
            wanted,
            posted,
            how,
        } => {
            let current = current_of(stage, &step.actor());
            why_posted(alloc, as_data, current, wanted, posted, how)
        }
        LineFault::SignedOutside(forged) => why_signed(alloc, as_data, forged),
        LineFault::ClientTwice(client) => why_twice(alloc, as_data, *client),
    }
}

/// Returns why the event is refused that the step would be. Requires that this cause holds of it.
fn why_refused(
    alloc: Global,
    as_data: bool,
    stage: &Stage,
    event: &Event,
    cause: &Cause,
) -> Result<String, Refusal>
    requires { HoldsCause stage.now.shape (log_of stage.now.run) event.now cause.now }
    ensures says { IfOk result (λ why. TellsCause stage.now.shape (log_of stage.now.run) event.now as_data [] (string_bytes why)) }
    ensures refusal { IsOkUnless result Refusal.NoMemory }
{
    let mut out = Writer::new(alloc);
    write_why(&mut out, as_data, stage, event);
    out.finish()
}

/// Returns that the box holds another envelope than the one that the step takes.
fn why_held(alloc: Global, as_data: bool) -> Result<String, Refusal>
    ensures says { IfOk result (λ why. string_bytes why ≡ why_line as_data (other_held_text as_data)) }
    ensures refusal { IsOkUnless result Refusal.NoMemory }
{
    let mut out = Writer::new(alloc);
    out.put_one(as_data, "why ", "    because ");
    out.put_one(as_data, "other-held", "the box holds another envelope");
    out.put("\n");
    out.finish()
}

/// Returns how the posted envelope differs from the wanted one, and then the wanted one. Requires that it differs like this. `current` is the number of
/// the actor's outstanding request.
fn why_posted(
    alloc: Global,
    as_data: bool,
    current: Option<u64>,
    wanted: &Envelope,
    posted: &Envelope,
    how: &Difference,
) -> Result<String, Refusal>
    requires { IsDifference wanted.now posted.now how.now }
    ensures says { IfOk result (λ why. TellsDifference as_data current wanted.now posted.now how.now (string_bytes why)) }
    ensures refusal { IsOkUnless result Refusal.NoMemory }
{
    let shown = shown_of(alloc, wanted)?;
    let mut out = Writer::new(alloc);
    write_posted(&mut out, as_data, current, wanted, posted, how, &shown);
    out.finish()
}

/// Writes how the posted envelope differs from the wanted one, and then `shown`, the text of the wanted one.
fn write_posted(
    out: &mut Writer,
    as_data: bool,
    current: Option<u64>,
    wanted: &Envelope,
    posted: &Envelope,
    how: &Difference,
    shown: &String,
)
    requires { IsDifference wanted.now posted.now how.now }
    ensures { out.new ≡ out.old
        ++ (why_line as_data (difference_text as_data current wanted.now posted.now how.now)
        ++ (one_of as_data (codes "wanted ") (codes "    it posts there: ") ++ (string_bytes shown.now ++ codes "\n"))) }
{
    out.put_one(as_data, "why ", "    because ");
    write_difference(out, as_data, current, wanted, posted, how);
    out.put("\n");
    out.put_one(as_data, "wanted ", "    it posts there: ");
    out.put_text(shown);
    out.put("\n");
}

/// Returns which signature has a signer that is not an actor of the shape.
fn why_signed(alloc: Global, as_data: bool, forged: &Forged) -> Result<String, Refusal>
    ensures says { IfOk result (λ why. string_bytes why ≡ why_line as_data (outside_text as_data forged.now.signer forged.now.statement)) }
    ensures refusal { IsOkUnless result Refusal.NoMemory }
{
    let mut out = Writer::new(alloc);
    out.put_one(as_data, "why ", "    because ");
    put_actor(
        &mut out,
        as_data,
        "signed-outside ",
        "it carries a signature of ",
        forged.signer,
    );
    out.put_one(as_data, " ", ", who is no actor of this shape, on ");
    out.put_statement(&forged.statement);
    out.put("\n");
    out.finish()
}

/// Writes which client has more than one request in the list that begins a replica's slot.
fn why_twice(alloc: Global, as_data: bool, client: ClientId) -> Result<String, Refusal>
    ensures says { IfOk result (λ why. string_bytes why ≡ why_line as_data (twice_text as_data client)) }
    ensures refusal { IsOkUnless result Refusal.NoMemory }
{
    let mut out = Writer::new(alloc);
    out.put_one(as_data, "why ", "    because ");
    put_actor(
        &mut out,
        as_data,
        "client-twice ",
        "it begins its slot with more than one request of ",
        Actor::Client(client),
    );
    out.put("\n");
    out.finish()
}
