//! Serves a script and writes the transcript of what its actors did.

ghost use Rattle.std.specs.Prelude.{◌≡◌, ◌+◌, ◌≤◌, None, IfOk, IfErr, OnOk};
ghost use Rattle.dsr_names.specs.Limits.{most_calls};
ghost use Rattle.dsr_names.specs.Streams.{SentAll, streams};
ghost use Rattle.dsr_script.specs.Script.{IsScriptRefusal};
ghost use Rattle.dsr_record.specs.RecordText.{Fits, record_text};
ghost use Rattle.dsr_cli.specs.Served.{HasServed, IsAfterTelling, IsServiceTranscript, LeftAfterService, ServedAll};

use crate::serve::{ended_by, serve_out};
use dsr_names::{Refusal, Sink, Source, read_input};
use dsr_record::{Record, transcripts_spell_their_records, write};
use std::alloc::Global;
use std::mem::forget;
use std::sync::Wait;
use std::thread::Threads;

/// The steps of a service's actors, and the fault that ended it; `None` if no fault did.
#[derive(Drop)]
struct Recording {
    recorded: Record,
    cause: Option<Refusal>,
}

/// Serves the script that the text encodes, and records all steps. Logs of a run always merge whole, so only a lack of memory can leave
/// no record.
fn recording_of<R: Threads + Wait + Sync>(
    rt: &R,
    alloc: Global,
    text: &[u8],
) -> Result<Recording, Refusal>
    ensures served { IfOk result (λ recording. HasServed IsServiceTranscript text.now recording.cause (record_text recording.recorded)) }
    ensures fits { IfOk result (λ recording. Fits recording.recorded) }
    ensures refused { IfErr result (IsScriptRefusal text.now) }
{
    let service = match serve_out(rt, alloc, text) {
        Ok(service) => service,
        Err(refusal) => return Err(refusal),
    };
    let recorded = match Record::of_logs(alloc, &service.logs) {
        Ok(recorded) => recorded,
        Err(refusal) => return Err(refusal),
    };
    transcripts_spell_their_records(&recorded);
    let cause = service.cause;
    // As in a service that is reported, the logs are not freed.
    forget(service);
    Ok(Recording { recorded, cause })
}

/// Reads a script, serves it like `run_serve`, and writes the transcript of all steps in place of the report. Its refusals, and what
/// remains after each, are those of `run_serve`. It also returns `NoMemory` if memory for the transcript runs out; then it wrote nothing.
pub(crate) fn transcribe_service<R: Threads + Wait + Sync, S: Source, K: Sink>(
    rt: &R,
    alloc: Global,
    source: &mut S,
    sink: &mut K,
) -> Result<(), Refusal>
    ensures done { OnOk result (ServedAll IsServiceTranscript (streams (S.input source.old) (K.output sink.old) (K.output sink.new))) }
    ensures refused { IfErr result (λ e. LeftAfterService IsServiceTranscript e (streams (S.input source.old) (K.output sink.old) (K.output sink.new))) }
    ensures reads { (S.input source.new).calls ≤ (S.input source.old).calls + most_calls }
    ensures writes { (K.output sink.new).calls ≤ (K.output sink.old).calls + most_calls }
{
    let text = read_input(alloc, source)?;
    let recording = match recording_of(rt, alloc, text.as_slice()) {
        Ok(recording) => recording,
        Err(refusal) => return Err(refusal),
    };
    let given = give_out(alloc, sink, &recording);
    forget(recording);
    given
}

/// Writes the transcript, and then returns what ended the service, if anything did.
fn give_out<K: Sink>(alloc: Global, sink: &mut K, recording: &Recording) -> Result<(), Refusal>
    requires { Fits recording.now.recorded }
    ensures done { OnOk result ((recording.now.cause ≡ None)
        × SentAll (record_text recording.now.recorded) (K.output sink.old) (K.output sink.new)) }
    ensures refused { IfErr result (IsAfterTelling (record_text recording.now.recorded) recording.now.cause (K.output sink.old) (K.output sink.new)) }
    ensures writes { (K.output sink.new).calls ≤ (K.output sink.old).calls + most_calls }
{
    match write(alloc, &recording.recorded, sink) {
        Ok(()) => ended_by(&recording.cause),
        Err(refusal) => Err(refusal),
    }
}
