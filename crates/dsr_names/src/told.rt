ghost use Rattle.std.specs.Prelude.{◌≡◌, ◌+◌, ◌++◌, ◌≤◌, length};
ghost use Rattle.dsr_names.specs.Limits.{most_calls};
ghost use Rattle.dsr_names.specs.Refusal.{refusal_line};
ghost use Rattle.dsr_names.specs.Streams.{Sent};

use crate::output::{Sink, write_output};
use crate::refusal::Refusal;
use dsr_base::UpTo;
use itoa::Buffer;

/// The greatest number of bytes of a line. A refusal's words and the greatest line number fit.
const MOST_LINE: usize = 80;

/// Writes the text as far as it can be written, in at most `MOST_CALLS` calls: if the sink fails, a prefix of it. Made
/// for reporting a failure, it returns no refusal of its own.
pub fn tell<S: Sink>(sink: &mut S, text: &[u8])
    ensures sent { Sent text.now (S.output sink.old) (S.output sink.new) }
    ensures calls { (S.output sink.new).calls ≤ (S.output sink.old).calls + most_calls }
{
    // A failure to write cannot be reported any further.
    let _ = write_output(sink, text);
}

/// Writes `dsr: `, the refusal's text and a line feed like `tell`: a prefix if the sink fails. Allocates nothing.
pub fn tell_refusal<S: Sink>(sink: &mut S, refusal: Refusal)
    ensures sent { Sent (refusal_line refusal) (S.output sink.old) (S.output sink.new) }
    ensures calls { (S.output sink.new).calls ≤ (S.output sink.old).calls + most_calls }
{
    let line = line_of(refusal);
    tell(sink, line.as_slice());
}

/// Makes the line that reports the refusal.
fn line_of(refusal: Refusal) -> UpTo<u8, MOST_LINE>
    ensures { result ≡ refusal_line refusal }
{
    let (words, number) = refusal.parts();
    let mut line = UpTo::new();
    append(&mut line, b"dsr: ");
    append(&mut line, words.as_bytes());
    if let Some(number) = number {
        append(&mut line, Buffer::new().format(number).as_bytes());
    }
    append(&mut line, b"\n");
    line
}

/// Puts the bytes at the end of the line. Requires room for them.
fn append(line: &mut UpTo<u8, MOST_LINE>, bytes: &[u8])
    requires { length line.old + length bytes.now ≤ 80 }
    ensures { line.new ≡ line.old ++ bytes.now }
{
    for byte in bytes {
        line.push(*byte);
    }
}
