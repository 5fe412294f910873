ghost use Rattle.std.specs.Prelude.{◌≡◌, ◌+◌, ◌-◌, ◌<◌, ◌≤◌, length, Some, Ok, IsOkAnd, OnOk, OnErr, IfSome, vec_len, vec_capacity, IsOkUnless};
ghost use Rattle.std.specs.Io.{WritesAtMost};
ghost use Rattle.std.specs.Io.KnownBytes.{WriteAppends};
ghost use Rattle.dsr_names.specs.Limits.{most_calls};
ghost use Rattle.dsr_names.specs.Streams.{Output, unknown_output, CanFailToTake, SentAll, SentPrefix};

use crate::input::MOST_CALLS;
use crate::outside::Outside;
use crate::refusal::Refusal;
use std::io;
use std::io::Write;

/// What an output is written to. A sink may have room that is known: then it takes what fits there whole. Or it
/// may be steady: then it never fails, and takes at least one byte if there is one.
pub trait Sink {
    // What contracts see of it: by default nothing is known.
    ghost output: { Self → Output } = { λ _. unknown_output };

    /// Takes some of the first bytes and returns how many.
    fn take(&mut self, bytes: &[u8]) -> io::Result<usize>
        ensures bound { WritesAtMost result bytes.now }
        ensures appends { WriteAppends (output self.old).contents (output self.new).contents result bytes.now }
        ensures sure { IfSome (output self.old).room (λ most. length bytes.now ≤ most → result ≡ Ok (length bytes.now)) }
        ensures steady { (output self.old).is_steady → IsOkAnd result (λ n. 0 < length bytes.now → 0 < n) }
        ensures stays { (output self.old).is_steady → (output self.new).is_steady }
        ensures counted { (output self.new).calls ≤ (output self.old).calls + 1 };
}

/// A vector, whose room is known; it grows if that is not enough.
impl Sink for Vec<u8> {
    ghost output = { λ v. record unknown_output { contents = Some v.items; room = Some (vec_capacity v - vec_len v) } };

    fn take(&mut self, bytes: &[u8]) -> io::Result<usize> {
        self.extend_from_slice(bytes)?;
        Ok(bytes.len())
    }
}

impl<W: Write> Sink for Outside<W> {
    ghost output = { λ s. record unknown_output { contents = W.contents s.0 } };

    fn take(&mut self, bytes: &[u8]) -> io::Result<usize> {
        self.0.write(bytes)
    }
}

/// Writes all of the bytes, in at most `MOST_CALLS` calls. `WriteFailed` if the sink fails, takes none of a rest
/// that is not empty, or the calls run out: then a prefix of the bytes went out. It never fails on a sink with
/// known room for all of them, nor on a steady one if the bytes are at most `MOST_CALLS`.
pub fn write_output<S: Sink>(sink: &mut S, bytes: &[u8]) -> Result<(), Refusal>
    ensures all { OnOk result (SentAll bytes.now (S.output sink.old) (S.output sink.new)) }
    ensures prefix { SentPrefix bytes.now (S.output sink.old) (S.output sink.new) }
    ensures refusal { IsOkUnless result Refusal.WriteFailed }
    ensures failed { OnErr result (CanFailToTake (length bytes.now) (S.output sink.old)) }
    ensures calls { (S.output sink.new).calls ≤ (S.output sink.old).calls + most_calls }
{
    let mut sent = 0;
    for _ in 0..MOST_CALLS {
        if sent == bytes.len() {
            return Ok(());
        }
        match sink.take(&bytes[sent..]) {
            Ok(count) if count > 0 => sent += count,
            _ => return Err(Refusal::WriteFailed),
        }
    }
    if sent == bytes.len() {
        Ok(())
    } else {
        Err(Refusal::WriteFailed)
    }
}
