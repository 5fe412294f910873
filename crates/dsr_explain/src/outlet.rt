//! The sink of an explanation, to which a long text may go out in parts.

ghost use Rattle.std.specs.Prelude.{◌≡◌, ◌⊎◌, ◌+◌, ◌≤◌, [], IfErr, IsTrue, OnErr, OnOk, IsOkUnless, false, length};
ghost use Rattle.dsr_names.specs.Limits.{most_calls};
ghost use Rattle.dsr_names.specs.Streams.{CanFailToTake, SentAll, SentPrefix};
ghost use Rattle.dsr_explain.specs.Outlet.{HasGoneOut, IsUnsure};

use dsr_names::{MOST_CALLS, Outside, Refusal, Sink, write_output};
use dsr_reasons::Writer;
use std::io::Write;

/// How many bytes of a text are kept until they go out.
const PART: usize = 65_536;

/// A sink that says whether a text may go out to it in parts.
pub trait Outlet: Sink {
    /// Tells whether a text may go out in parts, so that it is never in memory whole. Only if nothing is known of the sink's room: a
    /// text that is sure to fit is sure only if it is taken at once.
    fn takes_parts(&self) -> bool
        ensures { IsTrue result → IsUnsure (Self.output self.now) };
}

impl Outlet for Vec<u8> {
    fn takes_parts(&self) -> bool {
        false
    }
}

impl<W: Write> Outlet for Outside<W> {
    fn takes_parts(&self) -> bool {
        true
    }
}

/// How a text goes out: in parts or at once, and how many calls of the sink are left for it.
#[derive(Drop)]
pub(crate) struct Outflow {
    in_parts: bool,
    calls: usize,
    /// Whether a part went out.
    has_begun: bool,
    ghost is: { in_parts ≡ false → calls ≡ most_calls },
}

impl Outflow {
    /// Begins a text that is to go out to this sink, in at most `MOST_CALLS` calls.
    pub(crate) fn to<K: Outlet>(sink: &K) -> Outflow
        ensures parts { IsTrue result.in_parts → IsUnsure (K.output sink.now) }
        ensures calls { result.calls ≡ most_calls }
    {
        Outflow {
            in_parts: sink.takes_parts(),
            calls: MOST_CALLS,
            has_begun: false,
        }
    }

    /// Tells whether the text goes out in parts.
    pub(crate) fn is_in_parts(&self) -> bool {
        self.in_parts
    }

    /// Tells whether a part went out.
    pub(crate) fn has_begun(&self) -> bool {
        self.has_begun
    }

    /// Lets what there is of the text go out, all of it, if it is long enough for a part. `NoMemory` if memory ran out while it was written: then nothing
    /// goes out. `WriteFailed` if writing fails: then a prefix of it went out.
    pub(crate) fn pass_part<K: Sink>(
        &mut self,
        text: &mut Writer,
        sink: &mut K,
    ) -> Result<(), Refusal>
        ensures sent { OnOk result (HasGoneOut self.old.in_parts text.old text.new (K.output sink.old) (K.output sink.new)) }
        ensures prefix { SentPrefix text.old (K.output sink.old) (K.output sink.new) }
        ensures whole { OnOk result ((sink.new ≡ sink.old) ⊎ (text.new ≡ [])) }
        ensures at_once { self.old.in_parts ≡ false → IsOkUnless result Refusal.NoMemory × (sink.new ≡ sink.old) }
        ensures parts { self.new.in_parts ≡ self.old.in_parts }
        ensures refusal { IfErr result (λ refusal. ((refusal ≡ Refusal.NoMemory) × (sink.new ≡ sink.old)) ⊎ (refusal ≡ Refusal.WriteFailed)) }
        ensures calls { (K.output sink.new).calls + self.new.calls ≤ (K.output sink.old).calls + self.old.calls }
    {
        let Ok(whole) = text.whole() else {
            return Err(Refusal::NoMemory);
        };
        if !self.in_parts || whole.len() < PART {
            return Ok(());
        }
        self.has_begun = true;
        let Ok(_) = send(sink, whole.as_bytes(), &mut self.calls) else {
            return Err(Refusal::WriteFailed);
        };
        text.clear();
        Ok(())
    }

    /// Lets the rest of the text go out. `WriteFailed` if writing fails: then a prefix of it went out.
    pub(crate) fn pass_rest<K: Sink>(&mut self, rest: &str, sink: &mut K) -> Result<(), Refusal>
        ensures all { OnOk result (SentAll rest.now (K.output sink.old) (K.output sink.new)) }
        ensures prefix { SentPrefix rest.now (K.output sink.old) (K.output sink.new) }
        ensures failed { OnErr result (self.old.in_parts ≡ false → CanFailToTake (length rest.now) (K.output sink.old)) }
        ensures refusal { IsOkUnless result Refusal.WriteFailed }
        ensures calls { (K.output sink.new).calls ≤ (K.output sink.old).calls + self.old.calls }
    {
        if self.in_parts {
            send(sink, rest.as_bytes(), &mut self.calls)
        } else {
            write_output(sink, rest.as_bytes())
        }
    }
}

/// Writes all of the bytes in at most `calls` calls, and counts the calls down. `WriteFailed` if the sink fails, takes none of a rest that is not
/// empty, or the calls run out: then a prefix of the bytes went out.
fn send<S: Sink>(sink: &mut S, bytes: &[u8], calls: &mut usize) -> Result<(), Refusal>
    ensures all { OnOk result (SentAll bytes.now (S.output sink.old) (S.output sink.new)) }
    ensures prefix { SentPrefix bytes.now (S.output sink.old) (S.output sink.new) }
    ensures refusal { IsOkUnless result Refusal.WriteFailed }
    ensures calls { (S.output sink.new).calls + calls.new ≤ (S.output sink.old).calls + calls.old }
{
    let mut sent = 0;
    for _ in 0..*calls {
        if sent == bytes.len() {
            return Ok(());
        }
        *calls -= 1;
        match sink.take(&bytes[sent..]) {
            Ok(count) if count > 0 => sent += count,
            _ => return Err(Refusal::WriteFailed),
        }
    }
    if sent == bytes.len() {
        Ok(())
    } else {
        Err(Refusal::WriteFailed)
    }
}
