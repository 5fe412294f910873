//! Reads records from a source, and writes them to a sink.

ghost use Rattle.std.specs.Prelude.{◌≡◌, ◌⊎◌, ◌+◌, ◌≤◌, Some, Err, IfOk, IfErr, OnOk, OnErr, IsOkUnless, length, string_bytes};
ghost use Rattle.dsr_names.specs.Limits.{most_calls};
ghost use Rattle.dsr_names.specs.Streams.{CanFailToTake, SentAll, SentPrefix};
ghost use Rattle.dsr_record.specs.RecordFile.{GivesRecord, IsReadRefusal};
ghost use Rattle.dsr_record.specs.RecordText.{Fits, record_text, step_text};

use crate::noted::{NotedEntry, NotedStep};
use crate::record::Record;
use dsr_names::{Refusal, Sink, Source, read_input, write_output};
use std::alloc::Global;
use std::fmt;
use std::fmt::Write;

/// Reads the record whose transcript the source gives. `ReadFailed` if `read_input` fails, also for more than 16,777,216 bytes; the
/// other refusals are those of `Record::of_text`. After a refusal what was read is gone.
pub fn read<S: Source>(alloc: Global, source: &mut S) -> Result<Record, Refusal>
    ensures given { IfOk result (GivesRecord (S.input source.old)) }
    ensures refused { IfErr result (IsReadRefusal (S.input source.old)) }
    ensures calls { (S.input source.new).calls ≤ (S.input source.old).calls + most_calls }
{
    let text = read_input(alloc, source)?;
    match Record::of_text(alloc, text.as_slice()) {
        Ok(recorded) => Ok(recorded),
        Err(refusal) => Err(refusal),
    }
}

/// Writes the transcript of the record. Requires that its steps can be in a transcript of its version.
///
/// `NoMemory` if memory runs out: then nothing is written. `WriteFailed` if `write_output` fails: then a prefix of the transcript has
/// gone out.
pub fn write<S: Sink>(alloc: Global, recorded: &Record, sink: &mut S) -> Result<(), Refusal>
    requires { Fits recorded.now }
    ensures done { OnOk result (SentAll (record_text recorded.now) (S.output sink.old) (S.output sink.new)) }
    ensures starved { result ≡ Err Refusal.NoMemory → (S.output sink.new).contents ≡ (S.output sink.old).contents }
    ensures failed { result ≡ Err Refusal.WriteFailed → CanFailToTake (length (record_text recorded.now)) (S.output sink.old)
        × SentPrefix (record_text recorded.now) (S.output sink.old) (S.output sink.new) }
    ensures refusals { OnErr result ((result ≡ Err Refusal.NoMemory) ⊎ (result ≡ Err Refusal.WriteFailed)) }
    ensures calls { (S.output sink.new).calls ≤ (S.output sink.old).calls + most_calls }
{
    let text = text_of(alloc, recorded)?;
    write_output(sink, text.as_bytes())
}

/// Returns the transcript of the record. `NoMemory` if memory runs out.
fn text_of(alloc: Global, recorded: &Record) -> Result<String, Refusal>
    ensures text { IfOk result (λ text. string_bytes text ≡ record_text recorded.now) }
    ensures refusal { IsOkUnless result Refusal.NoMemory }
{
    let mut text = String::new(alloc);
    let (title, shape) = (recorded.version().title(), recorded.shape());
    writeln!(text, "{title} {shape}")?;
    for step in recorded.entries() {
        writeln!(text, "{step}")?;
    }
    Ok(text)
}

impl fmt::Display for NotedStep {
    ghost output = { λ step. Some (step_text step) };

    fn fmt<W: fmt::Write>(&self, f: &mut fmt::Formatter<W>) -> fmt::Result {
        let actor = self.actor();
        match self.entry() {
            NotedEntry::Post { to, envelope } => write!(f, "{actor} post {to} {envelope}"),
            NotedEntry::Take { from, envelope } => write!(f, "{actor} take {from} {envelope}"),
        }
    }
}
