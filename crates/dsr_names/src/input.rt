ghost use Rattle.std.specs.Prelude.{◌≡◌, ◌+◌, ◌++◌, ◌↔◌, ◌<◌, ◌≤◌, length, min, Some, Ok, IsOk, IfOk, IfErr, IfSome, OnOk, IsErrOf, vec_len, IsOkUnless};
ghost use Rattle.std.specs.Io.{ReadsAtMost};
ghost use Rattle.std.specs.Io.KnownBytes.{ReadConsumes, IsAtEnd};
ghost use Rattle.dsr_names.specs.Limits.{most_bytes, most_calls};
ghost use Rattle.dsr_names.specs.Refusal.{IsReadRefusal};
ghost use Rattle.dsr_names.specs.Streams.{Input, unknown_input, CanFailToGive};

use crate::outside::Outside;
use crate::refusal::Refusal;
use std::alloc::Global;
use std::io;
use std::io::Read;

/// The greatest number of bytes of an input.
pub const MOST_BYTES: usize = 16_777_216;

/// The greatest number of calls of a source or a sink for one text.
pub const MOST_CALLS: usize = 33_554_432;

/// What an input is read from. A source may be steady: then it never fails.
pub trait Source {
    // What contracts see of it: by default nothing is known.
    ghost input: { Self → Input } = { λ _. unknown_input };

    /// Puts some of what is left into the buffer and returns how many bytes; 0 at the end.
    fn give(&mut self, buffer: &mut [u8]) -> io::Result<usize>
        ensures bound { ReadsAtMost result buffer.new }
        ensures bytes { ReadConsumes (input self.old).left (input self.new).left result buffer.new }
        ensures steady { (input self.old).is_steady → IsOk result }
        ensures stays { (input self.old).is_steady → (input self.new).is_steady }
        ensures counted { (input self.new).calls ≤ (input self.old).calls + 1 };
}

/// Bytes in memory, a steady source.
impl Source for &[u8] {
    ghost input = { λ s. record unknown_input { left = Some s.now; is_steady = Unit {0} } };

    fn give(&mut self, buffer: &mut [u8]) -> io::Result<usize>
        ensures bound { ReadsAtMost result buffer.new }
        ensures bytes { ReadConsumes (Some self.old.now) (Some self.new.now) result buffer.new }
        ensures count { result ≡ Ok (min (length self.old.now) (length buffer.new)) }
    {
        self.read(buffer)
    }
}

impl<R: Read> Source for Outside<R> {
    ghost input = { λ s. record unknown_input { left = R.remaining s.0 } };

    fn give(&mut self, buffer: &mut [u8]) -> io::Result<usize> {
        self.0.read(buffer)
    }
}

/// Reads all bytes that the source gives, in at most `MOST_CALLS` calls. `ReadFailed` if it fails, or gives more than
/// `MOST_BYTES` bytes, or needs more than `MOST_CALLS` calls; if it is steady, only for too many bytes. `NoMemory` if
/// memory for the text runs out. After either, what was read is dropped.
pub fn read_input<S: Source>(alloc: Global, source: &mut S) -> Result<Vec<u8>, Refusal>
    ensures all { IfOk result (λ text. IfSome (S.input source.old).left (λ bytes. text.items ≡ bytes)) }
    ensures end { OnOk result (IsAtEnd (S.input source.new).left) }
    ensures fits { IfOk result (λ text. vec_len text ≤ most_bytes) }
    ensures refusals { IfErr result IsReadRefusal }
    ensures failed { IsErrOf result Refusal.ReadFailed → CanFailToGive (S.input source.old) }
    ensures calls { (S.input source.new).calls ≤ (S.input source.old).calls + most_calls }
{
    let mut text = Vec::new(alloc);
    let mut buffer = [0u8; 8192];
    for _ in 0..MOST_CALLS {
        let count = next_bytes(source, &mut buffer)?;
        if count == 0 {
            return Ok(text);
        }
        keep(&mut text, &buffer[..count])?;
    }
    Err(Refusal::ReadFailed)
}

/// Puts the bytes at the end of the text. `ReadFailed` exactly if it would then have more than `MOST_BYTES` bytes,
/// else `NoMemory` if memory runs out.
fn keep(text: &mut Vec<u8>, bytes: &[u8]) -> Result<(), Refusal>
    requires { vec_len text.old ≤ most_bytes }
    ensures kept { OnOk result (text.new.items ≡ text.old.items ++ bytes.now) }
    ensures fits { OnOk result (vec_len text.new ≤ most_bytes) }
    ensures too_long { IsErrOf result Refusal.ReadFailed ↔ (most_bytes < vec_len text.old + length bytes.now) }
    ensures refusals { IfErr result IsReadRefusal }
{
    if bytes.len() > MOST_BYTES - text.len() {
        return Err(Refusal::ReadFailed);
    }
    text.extend_from_slice(bytes)?;
    Ok(())
}

/// Puts the next bytes of the source into the buffer and returns how many; 0 at the end. `ReadFailed` if the source
/// fails.
fn next_bytes<S: Source>(source: &mut S, buffer: &mut [u8]) -> Result<usize, Refusal>
    ensures bound { ReadsAtMost result buffer.new }
    ensures bytes { ReadConsumes (S.input source.old).left (S.input source.new).left result buffer.new }
    ensures steady { (S.input source.old).is_steady → IsOk result }
    ensures stays { (S.input source.old).is_steady → (S.input source.new).is_steady }
    ensures counted { (S.input source.new).calls ≤ (S.input source.old).calls + 1 }
    ensures refusal { IsOkUnless result Refusal.ReadFailed }
{
    match source.give(buffer) {
        Ok(count) => Ok(count),
        Err(_) => Err(Refusal::ReadFailed),
    }
}
