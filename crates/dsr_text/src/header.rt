ghost use Rattle.std.specs.Prelude.{◌≡◌, ◌∷◌, ◌++◌, ◌↔◌, List, ℕ, IsOk, IfOk, IfErr, IfSome, IfNone};
ghost use Rattle.dsr_base.specs.Split.{IsAbsent};
ghost use Rattle.dsr_names.specs.Shape.{Shape, IsAllowed};
ghost use Rattle.dsr_text.specs.Header.{BeginsWithHeader, IsHeaderRefusal};

use dsr_base::split_once;
use dsr_names::{Refusal, Shape};

/// The shape in a header, and the text after that line.
#[derive(Clone, Copy, Debug)]
pub struct Header<'a> {
    /// The shape, within the limits.
    pub shape: Shape,
    /// The lines after the header.
    pub rest: &'a [u8],
}

impl<'a> Header<'a> {
    /// Returns a copy. It goes through `clone`, so a clone equals its original too.
    pub fn copy(&self) -> Header<'a>
        ensures { result ≡ self.now }
    {
        // called by the type's name: the borrow checker does not take `self.clone()` for a struct with a reference
        match Header::clone(self) {
            Ok(header) => header,
            Err(_) => Header {
                shape: self.shape,
                rest: self.rest,
            },
        }
    }
}

/// Reads the header with this title, like `dsr-serve 1`, at the beginning of the text. Requires a title without a line
/// feed.
///
/// `BadShape` if the text begins with such a header, but its shape is outside the limits, whatever follows it; else `BadText`
/// with line 1 if the text does not begin with one: also if the header's line feed is missing, or the text is empty.
pub fn read_header<'a>(title: &[u8], text: &'a [u8]) -> Result<Header<'a>, Refusal>
    requires { IsAbsent 10 title.now }
    ensures read { IfOk result (λ header. BeginsWithHeader title.now text.now header.shape header.rest.now) }
    ensures allowed { IfOk result (λ header. IsAllowed header.shape) }
    ensures refused { IfErr result (IsHeaderRefusal title.now text.now) }
    ensures only { (shape : Shape) (rest : List ℕ) → BeginsWithHeader title.now text.now shape rest
        → IfOk result (λ header. (header.shape ≡ shape) × (header.rest.now ≡ rest)) }
    ensures when { (shape : Shape) (rest : List ℕ) → BeginsWithHeader title.now text.now shape rest
        → IsOk result ↔ IsAllowed shape }
{
    let Some((line, rest)) = split_once(text, b'\n') else {
        return Err(Refusal::BadText { line: 1 });
    };
    let Some(token) = after_title(title, line) else {
        return Err(Refusal::BadText { line: 1 });
    };
    match Shape::read(token) {
        None => Err(Refusal::BadText { line: 1 }),
        Some(Err(refusal)) => Err(refusal),
        Some(Ok(shape)) => Ok(Header { shape, rest }),
    }
}

/// Returns what follows the title and a space. `None` exactly if the line does not begin with them.
fn after_title<'a>(title: &[u8], line: &'a [u8]) -> Option<&'a [u8]>
    ensures found { IfSome result (λ rest. line.now ≡ title.now ++ 32 ∷ rest.now) }
    ensures none { IfNone result ((rest : List ℕ) → line.now ≡ title.now ++ 32 ∷ rest → ⊥) }
{
    match line.strip_prefix(title)? {
        [b' ', token @ ..] => Some(token),
        _ => None,
    }
}
