ghost use Rattle.std.specs.Prelude.{◌<◌, ◌^◌, Some};
ghost use Rattle.std.specs.Fmt.{decimal};
ghost use Rattle.std.proofs.Common.{rules};
ghost use Rattle.dsr_base.specs.Reads.{Reads};
ghost use Rattle.dsr_names.specs.Token.{old_text, IsOld};

use dsr_base::{Exact, read_decimal};
use std::fmt;

/// 2^40: one more than the greatest number in any text, apart from a register's value.
pub const NUMBER_END: u64 = 1_099_511_627_776;

/// Reads the token of a number below 2^40. `None` exactly if the bytes are not one.
pub fn read_num(bytes: &[u8]) -> Option<u64>
    ensures { Reads (λ n. n < 2 ^ 40) decimal bytes.now result }
{
    read_decimal(bytes).filter(|n| *n < NUMBER_END)
}

/// Reads the token of a register's content: `none`, or a number below 2^64. The outer `None` means
/// exactly that the bytes are not such a token.
pub fn read_old(bytes: &[u8]) -> Option<Option<u64>>
    ensures { Reads IsOld old_text bytes.now result }
{
    if bytes == b"none".as_slice() {
        return Some(None);
    }
    read_decimal(bytes).map(Some)
}

/// A register's content as texts write it: `none`, or the number.
#[derive(Clone, Copy, Debug, PartialEq, Eq)]
pub struct Old(pub Option<u64>);

impl fmt::Display for Old {
    ghost output = { λ old. Some (old_text old.0) };

    fn fmt<W: fmt::Write>(&self, f: &mut fmt::Formatter<W>) -> fmt::Result {
        match self.0 {
            None => f.write_str("none"),
            Some(number) => write!(f, "{number}"),
        }
    }
}

impl Exact for Old {
    ghost decides = { λ a b. Prim.search rules };

    ghost clones = { λ a b. Prim.search rules };
}
