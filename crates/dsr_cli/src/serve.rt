//! Serves a script and reports the outcome.

ghost use Rattle.std.specs.Prelude.{◌≡◌, ◌+◌, ◌≤◌, None, Some, IfOk, IfErr, OnOk, string_bytes};
ghost use Rattle.dsr_names.specs.Limits.{most_calls};
ghost use Rattle.dsr_names.specs.Streams.{SentAll, streams};
ghost use Rattle.dsr_script.specs.Script.{IsScriptRefusal};
ghost use Rattle.dsr_cli.specs.Served.{HasServed, HasService, IsAfterTelling, IsServiceReport, LeftAfterService, ServedAll};

use crate::serve_report::report_of;
use dsr_hosts::{ServeFault, serve};
use dsr_mail::Logs;
use dsr_names::{Actor, Refusal, Sink, Source, read_input, write_output};
use dsr_rounds::Gate;
use dsr_run::logs_are_right;
use dsr_script::Script;
use std::alloc::Global;
use std::mem::forget;
use std::sync::Wait;
use std::thread::Threads;

/// A gate that lets every actor pass.
#[derive(Drop)]
struct Open;

impl Gate for Open {
    // It refuses no actor.
    ghost may_refuse = { λ gate actor. ⊥ };

    fn pass(&self, _actor: Actor, _turn: u64) -> bool {
        true
    }
}

/// The outcome of a service.
#[derive(Drop)]
pub(crate) struct Service {
    /// The logs of all actors.
    pub(crate) logs: Logs,
    /// The fault that ended it; `None` if no fault did.
    pub(crate) cause: Option<Refusal>,
}

/// The report of a service, and the fault that ended it; `None` if no fault did.
#[derive(Drop)]
struct Outcome {
    report: String,
    cause: Option<Refusal>,
}

/// Serves the script that the text encodes, by one host for each actor, each in a thread of its own.
pub(crate) fn serve_out<R: Threads + Wait + Sync>(
    rt: &R,
    alloc: Global,
    text: &[u8],
) -> Result<Service, Refusal>
    ensures served { IfOk result (λ service. HasService text.now service.logs service.cause) }
    ensures refused { IfErr result (IsScriptRefusal text.now) }
{
    let script = match Script::read(alloc, text) {
        Ok(script) => script,
        Err(refusal) => return Err(refusal),
    };
    // For the proof: what its contract says.
    logs_are_right();
    let ended = serve(rt, alloc, &script, &Open);
    // It is not freed, like a play: the program ends soon.
    forget(script);
    Ok(service_of(ended))
}

/// Returns the outcome of a service that ended like this.
fn service_of(ended: Result<Logs, ServeFault>) -> Service
    ensures served { IfOk ended (λ logs. (result.logs ≡ logs) × (result.cause ≡ None)) }
    ensures fault { IfErr ended (λ fault. (result.logs ≡ fault.logs) × (result.cause ≡ Some fault.cause)) }
{
    match ended {
        Ok(logs) => Service { logs, cause: None },
        Err(fault) => Service {
            logs: fault.logs,
            cause: Some(fault.cause),
        },
    }
}

/// Serves the script that the text encodes, and makes its report.
fn outcome_of<R: Threads + Wait + Sync>(
    rt: &R,
    alloc: Global,
    text: &[u8],
) -> Result<Outcome, Refusal>
    ensures served { IfOk result (λ outcome. HasServed IsServiceReport text.now outcome.cause (string_bytes outcome.report)) }
    ensures refused { IfErr result (IsScriptRefusal text.now) }
{
    let service = match serve_out(rt, alloc, text) {
        Ok(service) => service,
        Err(refusal) => return Err(refusal),
    };
    let Ok(report) = report_of(alloc, &service.logs) else {
        return Err(Refusal::NoMemory);
    };
    let cause = service.cause;
    forget(service);
    Ok(Outcome { report, cause })
}

/// Reads a script, serves it by one host for each actor, each in a thread of its own, and writes the report: what clients accepted, and the
/// history. Serves nothing before the end of the text, and writes nothing before the end of the service.
///
/// `BadShape` and `BadText` say what is wrong with the text; after them, and after `ReadFailed`, nothing was written. After
/// `WriteFailed` a prefix of the report was. `Exhausted`, `Unanswered`, `NoThread` and `NoMemory` if that ended the service before all
/// clients were served: the whole report of what was done until then was written, or, with `NoMemory`, perhaps nothing. What was read is
/// gone. `run_apply` says when `ReadFailed` and `WriteFailed` come, and how often the source and the sink are called at most.
pub(crate) fn run_serve<R: Threads + Wait + Sync, S: Source, K: Sink>(
    rt: &R,
    alloc: Global,
    source: &mut S,
    sink: &mut K,
) -> Result<(), Refusal>
    ensures done { OnOk result (ServedAll IsServiceReport (streams (S.input source.old) (K.output sink.old) (K.output sink.new))) }
    ensures refused { IfErr result (λ e. LeftAfterService IsServiceReport e (streams (S.input source.old) (K.output sink.old) (K.output sink.new))) }
    ensures reads { (S.input source.new).calls ≤ (S.input source.old).calls + most_calls }
    ensures writes { (K.output sink.new).calls ≤ (K.output sink.old).calls + most_calls }
{
    let text = read_input(alloc, source)?;
    let outcome = match outcome_of(rt, alloc, text.as_slice()) {
        Ok(outcome) => outcome,
        Err(refusal) => return Err(refusal),
    };
    give_out(sink, &outcome)
}

/// Writes the report, and then returns what ended the service, if anything did.
fn give_out<K: Sink>(sink: &mut K, outcome: &Outcome) -> Result<(), Refusal>
    ensures done { OnOk result ((outcome.now.cause ≡ None)
        × SentAll (string_bytes outcome.now.report) (K.output sink.old) (K.output sink.new)) }
    ensures refused { IfErr result (IsAfterTelling (string_bytes outcome.now.report) outcome.now.cause (K.output sink.old) (K.output sink.new)) }
    ensures writes { (K.output sink.new).calls ≤ (K.output sink.old).calls + most_calls }
{
    match write_output(sink, outcome.report.as_bytes()) {
        Ok(()) => ended_by(&outcome.cause),
        Err(refusal) => Err(refusal),
    }
}

/// Returns the cause as `Err`; `Ok` without a cause.
pub(crate) fn ended_by(cause: &Option<Refusal>) -> Result<(), Refusal>
    ensures done { OnOk result (cause.now ≡ None) }
    ensures refused { IfErr result (λ refusal. cause.now ≡ Some refusal) }
{
    match cause {
        None => Ok(()),
        Some(refusal) => Err(*refusal),
    }
}
