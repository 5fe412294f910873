//! The first step that may not follow.

ghost use Rattle.std.specs.Prelude.{◌≡◌, IfOk, IsOkUnless, string_bytes};
ghost use Rattle.dsr_run.specs.Step.{log_of};
ghost use Rattle.dsr_lines.specs.Line.{HoldsFault};
ghost use Rattle.dsr_transcripts.specs.Account.{TellsStep, stop_line};

use crate::standing::{tell_box, write_standing};
use crate::why::why_of;
use dsr_lines::LineFault;
use dsr_names::Refusal;
use dsr_reasons::Writer;
use dsr_record::NotedStep;
use dsr_world::Stage;
use std::alloc::Global;
use std::fmt::Write;

/// Returns the text about a step that may not follow in this stage: its line, why, what its actor's log has due, and what the box holds.
pub(crate) fn tell_stop(
    alloc: Global,
    as_data: bool,
    stage: &Stage,
    step: &NotedStep,
    line: u64,
    fault: &LineFault,
) -> Result<String, Refusal>
    requires { HoldsFault stage.now.shape (log_of stage.now.run) step.now fault.now }
    ensures told { IfOk result (λ told. TellsStep as_data stage.now.shape (log_of stage.now.run) line step.now fault.now (string_bytes told)) }
    ensures refusal { IsOkUnless result Refusal.NoMemory }
{
    let why = why_of(alloc, as_data, stage, step, fault)?;
    let first = tell_line(alloc, as_data, line, step)?;
    let held = tell_box(alloc, as_data, stage, step)?;
    let mut out = Writer::new(alloc);
    out.put_text(&first);
    out.put_text(&why);
    write_standing(&mut out, as_data, stage, &step.actor());
    out.put_text(&held);
    out.finish()
}

/// Returns the line that names the step, which may not follow and is in this line of the transcript.
fn tell_line(alloc: Global, as_data: bool, line: u64, step: &NotedStep) -> Result<String, Refusal>
    ensures told { IfOk result (λ told. string_bytes told ≡ stop_line as_data line step.now) }
    ensures refusal { IsOkUnless result Refusal.NoMemory }
{
    let mut shown = String::new(alloc);
    write!(shown, "{step}")?;
    let mut out = Writer::new(alloc);
    out.put_one(as_data, "stop ", "line ");
    out.put_number(line);
    out.put_one(as_data, " ", " may not follow those before it: ");
    out.put_text(&shown);
    out.put("\n");
    out.finish()
}
