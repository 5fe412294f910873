//! Reads a transcript and reports on its run.

ghost use Rattle.std.specs.Prelude.{◌≡◌, ◌+◌, ◌++◌, ◌≤◌, List, IfOk, IfErr, OnOk, IsOkUnless, codes, reverse, string_bytes};
ghost use Rattle.std.specs.Fmt.{decimal};
ghost use Rattle.dsr_names.specs.Limits.{most_calls};
ghost use Rattle.dsr_names.specs.Streams.{streams};
ghost use Rattle.dsr_names.specs.Shape.{Shape};
ghost use Rattle.dsr_run.specs.Step.{Step};
ghost use Rattle.dsr_check.specs.Verdict.{IsVerdict};
ghost use Rattle.dsr_reports.specs.Checked.{CheckedAll, HasChecked, IsCheckRefusal, LeftAfterCheck, run_text};
ghost use Rattle.dsr_reports.specs.Report.{accepted_line, texts_of};

use crate::report::{write_history, write_reply};
use dsr_check::{Verdict, check};
use dsr_ledger::Reply;
use dsr_names::{ClientId, Refusal, Sink, Source, write_output};
use dsr_reasons::Writer;
use dsr_record::{Record, read};
use std::alloc::Global;
use std::mem::forget;

/// Reads a transcript, and writes the report on its run. Checks nothing before the end of the text, and writes nothing before it has
/// checked all steps.
///
/// `BadShape` and `BadText` say what is wrong with the text, and `NotARun` names the line of the first step that may not follow those before
/// it. After them, and after `ReadFailed` and `NoMemory`, nothing was written; after `WriteFailed` a prefix of the report was. What was read
/// is gone. `run_apply` says when `ReadFailed` and `WriteFailed` come, and how often the source and the sink are called at most. The memory
/// of the record is not freed: a program should end after the call.
pub fn run_check<S: Source, K: Sink>(
    alloc: Global,
    source: &mut S,
    sink: &mut K,
) -> Result<(), Refusal>
    ensures done { OnOk result (CheckedAll (streams (S.input source.old) (K.output sink.old) (K.output sink.new))) }
    ensures refused { IfErr result (λ e. LeftAfterCheck e (streams (S.input source.old) (K.output sink.old) (K.output sink.new))) }
    ensures reads { (S.input source.new).calls ≤ (S.input source.old).calls + most_calls }
    ensures writes { (K.output sink.new).calls ≤ (K.output sink.old).calls + most_calls }
{
    let recorded = match read(alloc, source) {
        Ok(recorded) => recorded,
        Err(refusal) => return Err(refusal),
    };
    let report = match report_on(alloc, &recorded) {
        Ok(report) => report,
        Err(refusal) => return Err(refusal),
    };
    // The program ends soon, and to free a long record takes a while.
    forget(recorded);
    match write_output(sink, report.as_bytes()) {
        Ok(()) => Ok(()),
        Err(refusal) => Err(refusal),
    }
}

/// Returns the report on the recorded steps. `NotARun` if they are not a run; `NoMemory` if memory runs out.
fn report_on(alloc: Global, recorded: &Record) -> Result<String, Refusal>
    ensures checked { IfOk result (λ report. HasChecked recorded.now (string_bytes report)) }
    ensures refused { IfErr result (IsCheckRefusal recorded.now) }
{
    let verdict = match check(alloc, recorded) {
        Ok(verdict) => verdict,
        Err(refusal) => return Err(refusal),
    };
    match report_of(alloc, &verdict) {
        Ok(report) => Ok(report),
        Err(_) => Err(Refusal::NoMemory),
    }
}

/// Writes the verdict as lines of text: the number of steps, what clients accepted, and the history.
fn report_of(alloc: Global, verdict: &Verdict) -> Result<String, Refusal>
    ensures text { (shape : Shape) (run : List Step) → IsVerdict shape run verdict.now → IfOk result (λ report. string_bytes report ≡ run_text shape run) }
    ensures refusal { IsOkUnless result Refusal.NoMemory }
{
    let mut report = Writer::new(alloc);
    write_count(&mut report, verdict.entries());
    write_accepted(&mut report, verdict.accepted());
    write_history(&mut report, verdict.history());
    report.finish()
}

/// Writes the line of how many steps the run has.
fn write_count(out: &mut Writer, steps: u64)
    ensures { out.new ≡ out.old ++ (codes "run " ++ (decimal steps ++ codes "\n")) }
{
    out.put("run ");
    out.put_number(steps);
    out.put("\n");
}

/// Writes the replies, each with its client.
fn write_accepted(out: &mut Writer, accepted: &[(ClientId, Reply)])
    ensures { out.new ≡ out.old ++ texts_of (λ index pair. accepted_line pair.0 pair.1) (reverse accepted.now) }
{
    for (client, reply) in accepted {
        write_reply(out, *client, reply);
    }
}
