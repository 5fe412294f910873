ghost use Rattle.std.specs.Prelude.{◌≡◌, ℕ, ◌<◌, List, Some, IfOk, IsOkUnless};
ghost use Rattle.std.specs.Option.{option_map};
ghost use Rattle.std.specs.Fmt.{DisplaysOnOk};
ghost use Rattle.dsr_base.specs.Joined.{joined, more_joined, AreFew};
ghost use Rattle.dsr_base.specs.Reads.{Reads};
ghost use Rattle.dsr_base.specs.Split.{IsPart};

use dsr_base::split_outside;
use dsr_names::Refusal;
use std::alloc::Global;
use std::fmt;

/// An item that texts join to others of its kind by a mark.
pub trait Item: Drop + fmt::Display {
    // the items that have a text
    ghost is: { Self → Type 0 };

    // an item's text
    ghost text: { Self → List ℕ };

    ghost MARK: { ℕ };

    /// The byte that joins these texts.
    const MARK: u8;

    /// Reads an item's text. The inner `None` means exactly that the bytes are not one. `NoMemory` if memory runs out.
    fn read(alloc: Global, bytes: &[u8]) -> Result<Option<Self>, Refusal>
        ensures read { IfOk result (λ item. Reads is text bytes.now item) }
        ensures refusal { IsOkUnless result Refusal.NoMemory };

    // no text has the mark outside parentheses, and none ends inside them
    ghost apart: { (x : Self) → is x → IsPart MARK (text x) };

    ghost ascii: { MARK < 128 };

    ghost shown: { (x : Self) → Self.output x ≡ Some (text x) };
}

/// Reads the joined text of at least one and at most `most` items. The inner `None` means exactly that the bytes are not such
/// a text. `NoMemory` if memory runs out.
pub fn read_items<T: Item>(
    alloc: Global,
    bytes: &[u8],
    most: usize,
) -> Result<Option<Vec<T>>, Refusal>
    ensures read { IfOk result (λ items. Reads (AreFew T.is most) (joined T.MARK T.text) bytes.now (option_map (λ list. list.items) items)) }
    ensures refusal { IsOkUnless result Refusal.NoMemory }
{
    // a list with one item takes no more room than the item
    let mut items = Vec::with_capacity(alloc, 1)?;
    let mut rest = bytes;
    for _ in 0..most {
        match split_outside(rest, T::MARK) {
            None => {
                return match T::read(alloc, rest)? {
                    None => Ok(None),
                    Some(last) => {
                        items.push(last)?;
                        Ok(Some(items))
                    }
                };
            }
            Some((front, after)) => {
                match T::read(alloc, front)? {
                    None => return Ok(None),
                    Some(item) => items.push(item)?,
                }
                rest = after;
            }
        }
    }
    Ok(None)
}

/// Writes the items, each with the mark before it.
pub fn write_more<T: Item, W: fmt::Write>(items: &[T], f: &mut fmt::Formatter<W>) -> fmt::Result
    ensures { DisplaysOnOk W.write_str_gives f.old result (Some (more_joined T.MARK T.text items.now)) f.new }
{
    let mark = T::MARK as char;
    for item in items {
        write!(f, "{mark}{item}")?;
    }
    Ok(())
}
