//! Reads the texts of records.

ghost use Rattle.std.specs.Prelude.{◌≡◌, ◌↔◌, Err, IfOk, IfErr, IsOkUnless, IsTrue};
ghost use Rattle.dsr_base.specs.Reads.{Reads};
ghost use Rattle.dsr_text.specs.Lines.{IsTextRefusal};
ghost use Rattle.dsr_record.specs.Record.{Record as ARecord};
ghost use Rattle.dsr_record.specs.RecordText.{IsSpelledStep, step_text, transcripts, Spells, IsRecordRefusal};
ghost use Rattle.dsr_record.specs.Support.Noted.{IsNoted, noted_text, IsEnd, end_text, posted, taken};

use crate::last_reads::LastReads;
use crate::noted::{NotedEntry, NotedStep};
use crate::record::{Record, is_step_of};
use crate::version::Version;
use dsr_base::split_once;
use dsr_names::{Actor, Refusal, Shape};
use dsr_script::Draft;
use dsr_text::{TakesLines, read_header, take_lines};
use std::alloc::Global;
use std::marker::PhantomData;

/// Reads a transcript, like `Record::of_text`.
pub(crate) fn read_record(alloc: Global, text: &[u8]) -> Result<Record, Refusal>
    ensures spelled { IfOk result (Spells text.now) }
    ensures refused { IfErr result (IsRecordRefusal text.now) }
    ensures when { (other : ARecord) → Spells text.now other → IsOkUnless result Refusal.NoMemory }
    ensures only { (other : ARecord) → Spells text.now other → IfOk result (λ recorded. recorded ≡ other) }
{
    let read = read_as::<First>(alloc, text);
    if has_no_header(&read) {
        return read_as::<Second>(alloc, text);
    }
    read
}

/// Tells whether line 1 was bad.
fn has_no_header(read: &Result<Record, Refusal>) -> bool
    ensures { IsTrue result ↔ (read.now ≡ Err (Refusal.BadText 1)) }
{
    match read {
        Err(Refusal::BadText { line: 1 }) => true,
        _ => false,
    }
}

/// A type that represents a version.
trait Format {
    ghost use Rattle.dsr_record.specs.declared.version.Version.{Version};

    // the version
    ghost version: { Version };

    /// Returns the version.
    fn version() -> Version
        ensures { result ≡ version };
}

/// Version 1.
struct First;

/// Version 2.
struct Second;

impl Format for First {
    ghost use Rattle.dsr_record.specs.declared.version.Version.TheVariants.{One};

    ghost version = { One };

    fn version() -> Version {
        Version::One
    }
}

impl Format for Second {
    ghost use Rattle.dsr_record.specs.declared.version.Version.TheVariants.{Two};

    ghost version = { Two };

    fn version() -> Version {
        Version::Two
    }
}

impl NotedStep {
    /// Reads a line's text, without its line feed. The inner `None` means exactly that the bytes are not one.
    /// `NoMemory` if memory runs out.
    pub fn read(alloc: Global, bytes: &[u8]) -> Result<Option<NotedStep>, Refusal>
        ensures read { IfOk result (λ step. Reads IsSpelledStep step_text bytes.now step) }
        ensures refusal { IsOkUnless result Refusal.NoMemory }
    {
        let mut last = LastReads::none(alloc);
        read_step(alloc, &mut last, bytes)
    }
}

/// Reads a line's text, like `NotedStep::read`.
fn read_step(
    alloc: Global,
    last: &mut LastReads,
    bytes: &[u8],
) -> Result<Option<NotedStep>, Refusal>
    ensures read { IfOk result (λ step. Reads IsSpelledStep step_text bytes.now step) }
    ensures refusal { IsOkUnless result Refusal.NoMemory }
{
    let Some((actor, rest)) = split_once(bytes, b' ') else {
        return Ok(None);
    };
    let Some(actor) = Actor::read(actor) else {
        return Ok(None);
    };
    match read_entry(alloc, last, &actor, rest)? {
        Some(entry) => Ok(Some(NotedStep::new(actor, entry))),
        None => Ok(None),
    }
}

/// Reads an entry of this actor's log.
fn read_entry(
    alloc: Global,
    last: &mut LastReads,
    actor: &Actor,
    bytes: &[u8],
) -> Result<Option<NotedEntry>, Refusal>
    ensures read { IfOk result (λ entry. Reads IsNoted noted_text bytes.now entry) }
    ensures refusal { IsOkUnless result Refusal.NoMemory }
{
    let Some((word, rest)) = split_once(bytes, b' ') else {
        return Ok(None);
    };
    if word == b"post".as_slice() {
        let end = read_end(alloc, last, Some(actor), rest)?;
        Ok(posted(end))
    } else if word == b"take".as_slice() {
        let end = read_end(alloc, last, None, rest)?;
        Ok(taken(end))
    } else {
        Ok(None)
    }
}

/// Makes the post to this end; `None` without one.
fn posted(end: Option<(Actor, Draft)>) -> Option<NotedEntry>
    ensures { result ≡ posted end }
{
    match end {
        None => None,
        Some((to, envelope)) => Some(NotedEntry::Post { to, envelope }),
    }
}

/// Makes the take from this end; `None` without one.
fn taken(end: Option<(Actor, Draft)>) -> Option<NotedEntry>
    ensures { result ≡ taken end }
{
    match end {
        None => None,
        Some((from, envelope)) => Some(NotedEntry::Take { from, envelope }),
    }
}

/// Reads the other end and the envelope. If no poster is given, the other end posted it.
fn read_end(
    alloc: Global,
    last: &mut LastReads,
    poster: Option<&Actor>,
    bytes: &[u8],
) -> Result<Option<(Actor, Draft)>, Refusal>
    ensures read { IfOk result (λ end. Reads IsEnd end_text bytes.now end) }
    ensures refusal { IsOkUnless result Refusal.NoMemory }
{
    let Some((other, envelope)) = split_once(bytes, b' ') else {
        return Ok(None);
    };
    let Some(other) = Actor::read(other) else {
        return Ok(None);
    };
    match last.read(alloc, poster.unwrap_or(&other), envelope)? {
        Some(envelope) => Ok(Some((other, envelope))),
        None => Ok(None),
    }
}

/// Reads a transcript of this version.
fn read_as<F: Format>(alloc: Global, text: &[u8]) -> Result<Record, Refusal>
    ensures spelled { IfOk result (λ recorded. (recorded.version ≡ F.version) × Spells text.now recorded) }
    ensures refused { IfErr result (IsTextRefusal (transcripts F.version) text.now) }
    ensures when { (other : ARecord) → other.version ≡ F.version → Spells text.now other → IsOkUnless result Refusal.NoMemory }
    ensures only { (other : ARecord) → other.version ≡ F.version → Spells text.now other → IfOk result (λ recorded. recorded ≡ other) }
{
    let title = F::version().title();
    let header = match read_header(title.as_bytes(), text) {
        Ok(header) => header,
        Err(refusal) => return Err(refusal),
    };
    let mut reading: Reading<F> = Reading {
        shape: header.shape,
        steps: Vec::new(alloc),
        last: LastReads::new(alloc)?,
        format: PhantomData,
    };
    match take_lines(&mut reading, alloc, header.rest) {
        Ok(()) => Ok(Record::of(F::version(), reading.shape, reading.steps)),
        Err(refusal) => Err(refusal),
    }
}

/// The steps of the lines so far.
#[derive(Drop)]
struct Reading<F> {
    shape: Shape,
    steps: Vec<NotedStep>,
    last: LastReads,
    format: PhantomData<F>,
}

impl<F: Format> TakesLines for Reading<F> {
    type Line = NotedStep;

    ghost use Rattle.std.specs.Prelude.{◌≡◌, reverse};
    ghost use Rattle.dsr_record.specs.RecordText.{transcripts};

    ghost kind = { transcripts F.version };

    ghost shape = { λ reading. reading.shape };

    ghost gives = { λ reading lines. reverse reading.steps.items ≡ lines };

    fn read_line(&mut self, alloc: Global, bytes: &[u8]) -> Result<Option<NotedStep>, Refusal> {
        match read_step(alloc, &mut self.last, bytes)? {
            Some(step) if is_step_of(F::version(), &step) => Ok(Some(step)),
            _ => Ok(None),
        }
    }

    fn take(&mut self, alloc: Global, line: NotedStep) -> Result<bool, Refusal> {
        self.steps.push(line)?;
        Ok(true)
    }
}
