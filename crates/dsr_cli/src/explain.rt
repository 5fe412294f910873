//! Reads a play or a transcript, and explains it.

ghost use Rattle.std.specs.Prelude.{◌≡◌, ◌+◌, ◌≤◌, ℕ, List, None, IfErr, OnOk};
ghost use Rattle.dsr_names.specs.Limits.{most_calls};
ghost use Rattle.dsr_names.specs.Streams.{SentAll, streams};
ghost use Rattle.dsr_transcripts.specs.Account.{TellsTranscript};
ghost use Rattle.dsr_cli.specs.Explained.{ExplainedAll, LeftAfterExplain, LeftAfterSteps, is_transcript, wanted_of};

use crate::serve::ended_by;
use dsr_command::Narrowing;
use dsr_explain::{Outlet, Wanted, explain};
use dsr_names::{Refusal, Sink, Source, read_input, write_output};
use dsr_transcripts::explain_transcript;
use std::alloc::Global;

/// Reads a play or a transcript, and explains it: of a play the outcome, in the parts that `narrowing` names; of a transcript whether it is one of a run, and
/// why not. Writes nothing before the end of the text.
///
/// `BadShape` and `BadText` say what is wrong with the text, and `NotARun` names the line at which the steps of a transcript stop being a run; an
/// explanation of the fault was written before. After `ReadFailed` nothing was written, and after `WriteFailed` a prefix of the explanation. `NoMemory`
/// if memory ran out: nothing was written, or, of a play, if the sink takes parts, the text about some of its first events. What was read is gone.
/// `run_apply` says when `ReadFailed` and `WriteFailed` come, and how often the source and the sink are called at most.
pub(crate) fn run_explain<S: Source, K: Outlet>(
    alloc: Global,
    narrowing: &Narrowing,
    source: &mut S,
    sink: &mut K,
) -> Result<(), Refusal>
    ensures done { OnOk result (ExplainedAll narrowing.now (streams (S.input source.old) (K.output sink.old) (K.output sink.new))) }
    ensures refused { IfErr result (λ e. LeftAfterExplain narrowing.now e (streams (S.input source.old) (K.output sink.old) (K.output sink.new))) }
    ensures reads { (S.input source.new).calls ≤ (S.input source.old).calls + most_calls }
    ensures writes { (K.output sink.new).calls ≤ (K.output sink.old).calls + most_calls }
{
    let read = read_input(alloc, source)?;
    let text = read.as_slice();
    if is_transcript(text) {
        explain_steps(alloc, narrowing.as_data, text, sink)
    } else {
        explain(alloc, text, &wanted_of(narrowing), sink)
    }
}

/// Tells whether the text begins with the title of a transcript, of any version.
fn is_transcript(text: &[u8]) -> bool
    ensures { result ≡ is_transcript text.now }
{
    text.starts_with(b"dsr-transcript ".as_slice())
}

/// Returns what is wanted of a play by the words of a command line.
fn wanted_of(narrowing: &Narrowing) -> Wanted
    ensures { result ≡ wanted_of narrowing.now }
{
    Wanted {
        slot: narrowing.slot,
        actor: narrowing.actor,
        refused: narrowing.refused,
        data: narrowing.as_data,
    }
}

/// Explains a transcript, and returns what is wrong with it, if anything is. `NoMemory` if memory runs out: then nothing was written.
fn explain_steps<K: Sink>(
    alloc: Global,
    as_data: bool,
    text: &[u8],
    sink: &mut K,
) -> Result<(), Refusal>
    ensures done { OnOk result ((told : List ℕ) × TellsTranscript text.now as_data None told
        × SentAll told (K.output sink.old) (K.output sink.new)) }
    ensures refused { IfErr result (λ refusal. LeftAfterSteps text.now as_data refusal (K.output sink.old) (K.output sink.new)) }
    ensures writes { (K.output sink.new).calls ≤ (K.output sink.old).calls + most_calls }
{
    let account = explain_transcript(alloc, text, as_data)?;
    write_output(sink, account.text.as_bytes())?;
    ended_by(&account.refusal)
}
