ghost use Rattle.std.specs.Prelude.{◌≡◌, ◌++◌, Some};
ghost use Rattle.dsr_base.specs.Reads.{Reads};
ghost use Rattle.dsr_names.specs.Token.{IsOld, old_text};
ghost use Rattle.dsr_request.specs.AnswerText.{IsAnswer, answer_text, held_text};
ghost use Rattle.std.proofs.Common.{rules};

use dsr_base::Exact;
use dsr_names::{Old, read_old};
use std::fmt;

/// The answer to an operation.
#[derive(Clone, Copy, Debug, PartialEq, Eq)]
pub enum Answer {
    /// A read was done, and the register held this.
    Held(Option<u64>),
    /// A write was done.
    Written,
    /// A swap was done.
    Swapped,
    /// A swap was not done, because the register held this and not its `from`.
    Kept(Option<u64>),
    /// A write or a swap was not done, because it would have made one register too many.
    Full,
    /// A remove was done, and the register held this before.
    Removed(Option<u64>),
}

impl Answer {
    /// Reads an answer's text. `None` exactly if the bytes are not one.
    pub fn read(bytes: &[u8]) -> Option<Answer>
        ensures { Reads IsAnswer answer_text bytes.now result }
    {
        if bytes == b"written".as_slice() {
            Some(Answer::Written)
        } else if bytes == b"swapped".as_slice() {
            Some(Answer::Swapped)
        } else if bytes == b"full".as_slice() {
            Some(Answer::Full)
        } else if let Some(old) = old_after(bytes, b"held ") {
            Some(Answer::Held(old))
        } else if let Some(old) = old_after(bytes, b"kept ") {
            Some(Answer::Kept(old))
        } else if let Some(old) = old_after(bytes, b"removed ") {
            Some(Answer::Removed(old))
        } else {
            None
        }
    }

    /// Returns the word of this answer's text, with a space if more follows, and what the register held, if the text
    /// has that after it. Callers that write texts without `Display` use it.
    pub fn parts(&self) -> (&'static str, Option<Option<u64>>)
        ensures { answer_text self.now ≡ result.0.now ++ held_text result.1 }
    {
        match self {
            Answer::Held(old) => ("held ", Some(*old)),
            Answer::Written => ("written", None),
            Answer::Swapped => ("swapped", None),
            Answer::Kept(old) => ("kept ", Some(*old)),
            Answer::Full => ("full", None),
            Answer::Removed(old) => ("removed ", Some(*old)),
        }
    }
}

impl fmt::Display for Answer {
    ghost use Rattle.dsr_request.specs.AnswerText.{answer_text};

    ghost output = { λ a. Some (answer_text a) };

    fn fmt<W: fmt::Write>(&self, f: &mut fmt::Formatter<W>) -> fmt::Result {
        let (words, held) = self.parts();
        match held {
            None => f.write_str(words),
            Some(held) => {
                let held = Old(held);
                write!(f, "{words}{held}")
            }
        }
    }
}

/// Returns the content of a register that follows the word, if the bytes are the word and a token OLD.
fn old_after(bytes: &[u8], word: &[u8]) -> Option<Option<u64>>
    ensures { Reads IsOld (λ old. word.now ++ old_text old) bytes.now result }
{
    let rest = bytes.strip_prefix(word)?;
    read_old(rest)
}

impl Exact for Answer {
    ghost decides = { λ a b. Prim.search rules };

    ghost clones = { λ a b. Prim.search rules };
}
