//! Reads a play and reports its outcome.

ghost use Rattle.std.specs.Prelude.{◌≡◌, ◌⊎◌, ◌+◌, ◌<◌, ◌≤◌, Err, IfOk, IfErr, OnErr, length, string_bytes};
ghost use Rattle.dsr_names.specs.Limits.{most_calls};
ghost use Rattle.dsr_names.specs.Streams.{CanFailToTake, SentAll, SentPrefix, streams};
ghost use Rattle.dsr_play.specs.Play.{IsPlayRefusal};
ghost use Rattle.dsr_reports.specs.Played.{HasPlayed, HasRun, IsReport, LeftAfterPlay, PlayedAll};

use crate::report::report_of;
use dsr_names::{Refusal, Sink, Source, read_input, write_output};
use dsr_world::{Played, play_text};
use std::alloc::Global;
use std::mem::forget;

/// The report of a play, the number of its refused events, and the number of those refused because memory ran out.
#[derive(Drop)]
struct Outcome {
    report: String,
    refused: u64,
    starved: u64,
}

/// Plays the play that the text encodes, on a new stage: the report tells no step.
fn play_out(alloc: Global, text: &[u8]) -> Result<Played, Refusal>
    ensures played { IfOk result (λ played. HasRun text.now played.stage.shape played.stage.run played.end) }
    ensures refused { IfErr result (IsPlayRefusal text.now) }
{
    play_text(alloc, text)
}

/// Plays the play that the text encodes, and makes its report.
fn outcome_of(alloc: Global, text: &[u8]) -> Result<Outcome, Refusal>
    ensures played { IfOk result (λ outcome. HasPlayed IsReport text.now outcome.refused outcome.starved (string_bytes outcome.report)) }
    ensures refused { IfErr result (IsPlayRefusal text.now) }
{
    let played = match play_out(alloc, text) {
        Ok(played) => played,
        Err(refusal) => return Err(refusal),
    };
    let Ok(report) = report_of(alloc, &played.stage, &played.end) else {
        return Err(Refusal::NoMemory);
    };
    let (refused, starved) = (played.end.refused, played.end.starved);
    forget(played);
    Ok(Outcome {
        report,
        refused,
        starved,
    })
}

/// Reads a play, plays it on a new stage, writes the report of its outcome, and returns how many of its events were refused.
/// The events of a line happen as soon as it is read; nothing is written before the end of the play.
///
/// `BadShape` and `BadText` say what is wrong with the text; after them, and after `ReadFailed`, nothing was written. After
/// `WriteFailed` a prefix of the report was. `NoMemory` if memory ran out: if some events were refused for that, the whole
/// report was written, else nothing. What was read is gone. `run_apply` says when `ReadFailed` and `WriteFailed` come, and how
/// often the source and the sink are called at most.
pub fn run_play<S: Source, K: Sink>(
    alloc: Global,
    source: &mut S,
    sink: &mut K,
) -> Result<u64, Refusal>
    ensures done { IfOk result (λ refused. PlayedAll IsReport refused (streams (S.input source.old) (K.output sink.old) (K.output sink.new))) }
    ensures refused { IfErr result (λ e. LeftAfterPlay IsReport e (streams (S.input source.old) (K.output sink.old) (K.output sink.new))) }
    ensures reads { (S.input source.new).calls ≤ (S.input source.old).calls + most_calls }
    ensures writes { (K.output sink.new).calls ≤ (K.output sink.old).calls + most_calls }
{
    let text = read_input(alloc, source)?;
    let outcome = match outcome_of(alloc, text.as_slice()) {
        Ok(outcome) => outcome,
        Err(refusal) => return Err(refusal),
    };
    give_out(sink, &outcome)
}

/// Writes the report, and returns how many events were refused, or `NoMemory` if some were refused for that.
fn give_out<K: Sink>(sink: &mut K, outcome: &Outcome) -> Result<u64, Refusal>
    ensures done { IfOk result (λ refused. (refused ≡ outcome.now.refused) × (outcome.now.starved ≡ 0)
        × SentAll (string_bytes outcome.now.report) (K.output sink.old) (K.output sink.new)) }
    ensures starved { result ≡ Err Refusal.NoMemory → (0 < outcome.now.starved)
        × SentAll (string_bytes outcome.now.report) (K.output sink.old) (K.output sink.new) }
    ensures failed { result ≡ Err Refusal.WriteFailed → CanFailToTake (length (string_bytes outcome.now.report)) (K.output sink.old)
        × SentPrefix (string_bytes outcome.now.report) (K.output sink.old) (K.output sink.new) }
    ensures refusals { OnErr result (result ≡ Err Refusal.NoMemory ⊎ result ≡ Err Refusal.WriteFailed) }
    ensures writes { (K.output sink.new).calls ≤ (K.output sink.old).calls + most_calls }
{
    match write_output(sink, outcome.report.as_bytes()) {
        Ok(()) if outcome.starved == 0 => Ok(outcome.refused),
        Ok(()) => Err(Refusal::NoMemory),
        Err(refusal) => Err(refusal),
    }
}
