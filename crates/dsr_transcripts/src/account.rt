ghost use Rattle.std.specs.Prelude.{◌≡◌, ◌+◌, ◌++◌, ◌∷◌, List, Some, IfNone, IfOk, IfSome, IsOkUnless, length, string_bytes};
ghost use Rattle.dsr_run.specs.Run.{IsRun};
ghost use Rattle.dsr_run.specs.Step.{Step};
ghost use Rattle.dsr_record.specs.FirstBad.{IsFirstBad};
ghost use Rattle.dsr_lines.specs.Record.{IsFaultAt};
ghost use Rattle.dsr_transcripts.specs.Account.{TellsRecord, TellsTranscript, first_line, run_line};

use crate::stop::tell_stop;
use dsr_lines::{Followed, Stop, follow_all};
use dsr_names::{Refusal, Shape};
use dsr_reasons::Writer;
use dsr_record::{NotedStep, Record};
use dsr_trouble::trouble_of;
use dsr_world::Stage;
use std::alloc::Global;
use std::fmt::Write;

/// The explanation of a text, and the refusal of a text that is not a transcript of a run.
#[derive(Drop)]
pub struct Account {
    /// The explanation: that the steps are a run, where and why they stop being one, or what is wrong with the text.
    pub text: String,
    /// `NotARun` if the steps are not a run; `BadShape` or `BadText` if the text is not a transcript.
    pub refusal: Option<Refusal>,
}

/// Reads a transcript, and tells, as data or in words, whether its steps are a run; if not, which is the first that may not follow those before it, and
/// why. If the text is not a transcript, reports its first error. `NoMemory` if memory runs out.
pub fn explain_transcript(alloc: Global, text: &[u8], as_data: bool) -> Result<Account, Refusal>
    ensures told { IfOk result (λ account. TellsTranscript text.now as_data account.refusal (string_bytes account.text)) }
    ensures refusal { IsOkUnless result Refusal.NoMemory }
{
    match Record::of_text(alloc, text) {
        Ok(recorded) => tell_record(alloc, &recorded, as_data),
        Err(Refusal::NoMemory) => Err(Refusal::NoMemory),
        Err(refusal) => tell_unread(alloc, text, refusal),
    }
}

/// Tells the first place at which a text is wrong that is not a transcript.
fn tell_unread(alloc: Global, text: &[u8], refusal: Refusal) -> Result<Account, Refusal>
    ensures same { IfOk result (λ account. account.refusal ≡ Some refusal) }
    ensures refusal { IsOkUnless result Refusal.NoMemory }
{
    match trouble_of(alloc, text, &refusal) {
        Ok(told) => Ok(Account {
            text: told,
            refusal: Some(refusal),
        }),
        Err(_) => Err(Refusal::NoMemory),
    }
}

/// Tells whether the recorded steps are a run; if not, which may not follow, and why.
fn tell_record(alloc: Global, recorded: &Record, as_data: bool) -> Result<Account, Refusal>
    ensures told { IfOk result (λ account. TellsRecord as_data recorded.now account.refusal (string_bytes account.text)) }
    ensures refusal { IsOkUnless result Refusal.NoMemory }
{
    let followed = follow_all(alloc, recorded)?;
    tell_followed(alloc, recorded, &followed, as_data)
}

/// Tells this by how far `follow_all` led a stage through the recorded steps.
fn tell_followed(
    alloc: Global,
    recorded: &Record,
    followed: &Followed,
    as_data: bool,
) -> Result<Account, Refusal>
    requires shape { followed.now.stage.shape ≡ recorded.now.shape }
    requires none { IfNone followed.now.stop (IsRun recorded.now.shape recorded.now.run) }
    requires line { IfSome followed.now.stop (λ stop. IsFirstBad recorded.now.shape recorded.now.run stop.line) }
    requires fault { IfSome followed.now.stop (λ stop.
        IsFaultAt recorded.now.shape recorded.now.run followed.now.stage.run stop.line stop.fault) }
    ensures told { IfOk result (λ account. TellsRecord as_data recorded.now account.refusal (string_bytes account.text)) }
    ensures refusal { IsOkUnless result Refusal.NoMemory }
{
    match &followed.stop {
        Some(stop) => tell_stopped(alloc, recorded, &followed.stage, stop, as_data),
        None => tell_run(alloc, recorded, as_data),
    }
}

/// Tells that the recorded steps are a run. Requires that they are.
fn tell_run(alloc: Global, recorded: &Record, as_data: bool) -> Result<Account, Refusal>
    requires { IsRun recorded.now.shape recorded.now.run }
    ensures told { IfOk result (λ account. TellsRecord as_data recorded.now account.refusal (string_bytes account.text)) }
    ensures refusal { IsOkUnless result Refusal.NoMemory }
{
    let first = tell_first(alloc, as_data, recorded.shape())?;
    let mut out = Writer::new(alloc);
    out.put_text(&first);
    write_count(&mut out, as_data, count_of(recorded));
    let told = out.finish()?;
    Ok(Account {
        text: told,
        refusal: None,
    })
}

/// Tells that the recorded steps stop being a run there, and why. Requires that they do.
fn tell_stopped(
    alloc: Global,
    recorded: &Record,
    stage: &Stage,
    stop: &Stop,
    as_data: bool,
) -> Result<Account, Refusal>
    requires shape { stage.now.shape ≡ recorded.now.shape }
    requires line { IsFirstBad recorded.now.shape recorded.now.run stop.now.line }
    requires fault { IsFaultAt recorded.now.shape recorded.now.run stage.now.run stop.now.line stop.now.fault }
    ensures told { IfOk result (λ account. TellsRecord as_data recorded.now account.refusal (string_bytes account.text)) }
    ensures refusal { IsOkUnless result Refusal.NoMemory }
{
    let step = step_at(recorded, stop.line);
    let rest = tell_stop(alloc, as_data, stage, step, stop.line, &stop.fault)?;
    let first = tell_first(alloc, as_data, recorded.shape())?;
    let mut out = Writer::new(alloc);
    out.put_text(&first);
    out.put_text(&rest);
    let told = out.finish()?;
    Ok(Account {
        text: told,
        refusal: Some(Refusal::NotARun { line: stop.line }),
    })
}

/// Returns the step in this line. Requires that the line is that of a step which may not follow.
fn step_at(recorded: &Record, line: u64) -> &NotedStep
    requires { IsFirstBad recorded.now.shape recorded.now.run line }
    ensures { (before later : List Step) (step : Step) → recorded.now.run ≡ later ++ step ∷ before → line ≡ length before + 2 → result.now ≡ step }
{
    &recorded.entries()[(line - 2) as usize]
}

/// Returns the first line: of data the version and the shape.
fn tell_first(alloc: Global, as_data: bool, shape: Shape) -> Result<String, Refusal>
    ensures told { IfOk result (λ told. string_bytes told ≡ first_line as_data shape) }
    ensures refusal { IsOkUnless result Refusal.NoMemory }
{
    let mut first = String::new(alloc);
    if as_data {
        writeln!(first, "dsr-explain 1 {shape}")?;
    }
    Ok(first)
}

/// Returns the number of recorded steps.
fn count_of(recorded: &Record) -> usize
    ensures { result ≡ length recorded.now.run }
{
    recorded.entries().len()
}

/// Writes that `count` steps are a run.
fn write_count(out: &mut Writer, as_data: bool, count: usize)
    ensures { out.new ≡ out.old ++ run_line as_data count }
{
    out.put_one(
        as_data,
        "run ",
        "this is a run: each step may follow those before it; number of steps: ",
    );
    out.put_number(count as u64);
    out.put("\n");
}
