//! Takes in the lines of a text after its header, one after the other.

ghost use Rattle.std.specs.Prelude.{◌≡◌, ◌↔◌, ◌∷◌, [], List, IfOk, IfErr, OnOk, IsTrue, IsOkUnless};
ghost use Rattle.dsr_base.specs.Reads.{Reads};
ghost use Rattle.dsr_base.specs.Split.{IsAbsent};
ghost use Rattle.dsr_names.specs.Shape.{Shape};
ghost use Rattle.dsr_text.specs.Lines.{TextKind, AreLines, lines_text};
ghost use Rattle.dsr_text.specs.TakenLines.{HasTaken, IsLinesRefusal};

use dsr_base::split_once;
use dsr_names::Refusal;
use std::alloc::Global;

/// What takes in the lines of a text, of one kind of texts and with one shape in its header.
pub trait TakesLines {
    /// A line.
    type Line;

    // the kind of text
    ghost kind: { TextKind Self.Line };

    // the shape of the text's header
    ghost shape: { Self → Shape };

    // what was taken in is what these lines give
    ghost gives: { Self → List Self.Line → Type 0 };

    /// Reads a line's text, without its line feed. The inner `None` means exactly that the bytes are not one. What was taken in
    /// stays; something that speeds up the reading of later lines may be stored. `NoMemory` if memory runs out.
    fn read_line(&mut self, alloc: Global, bytes: &[u8]) -> Result<Option<Self::Line>, Refusal>
        ensures read { IfOk result (λ line. Reads kind.IsLine kind.line_text bytes.now line) }
        ensures stays { (lines : List Self.Line) → gives self.old lines → gives self.new lines }
        ensures shape { shape self.new ≡ shape self.old }
        ensures refusal { IsOkUnless result Refusal.NoMemory };

    /// Takes in what the line gives and returns true. If the line cannot follow the lines that were taken in, returns false:
    /// then nothing is known about what was taken in. `NoMemory` if memory runs out.
    fn take(&mut self, alloc: Global, line: Self::Line) -> Result<bool, Refusal>
        ensures taken { IfOk result (λ can. IsTrue can → (lines : List Self.Line) → gives self.old lines → gives self.new (line ∷ lines)) }
        ensures when { IfOk result (λ can. (lines : List Self.Line) → gives self.old lines → IsTrue can ↔ kind.CanFollow (shape self.old) lines line) }
        ensures shape { shape self.new ≡ shape self.old }
        ensures refusal { IsOkUnless result Refusal.NoMemory };
}

/// Takes in the lines after the header. Requires a kind of text whose lines have no line feed in them, and that nothing was taken in
/// yet. `BadText` names the first bad line, counted from 1 with the header; `NoMemory` if memory runs out.
pub fn take_lines<T: TakesLines>(taker: &mut T, alloc: Global, text: &[u8]) -> Result<(), Refusal>
    requires clean { (line : T.Line) → T.kind.IsLine line → IsAbsent 10 (T.kind.line_text line) }
    requires none { T.gives taker.old [] }
    ensures taken { OnOk result (HasTaken T.kind (T.shape taker.old) (T.gives taker.new) text.now) }
    ensures refused { IfErr result (IsLinesRefusal T.kind (T.shape taker.old) text.now) }
    ensures when { (all : List T.Line) → AreLines T.kind (T.shape taker.old) all → text.now ≡ lines_text T.kind all
        → IsOkUnless result Refusal.NoMemory }
    ensures only { (all : List T.Line) → AreLines T.kind (T.shape taker.old) all → text.now ≡ lines_text T.kind all
        → OnOk result (T.gives taker.new all) }
    ensures shape { T.shape taker.new ≡ T.shape taker.old }
{
    let mut rest = text;
    let mut number = 1;
    while !rest.is_empty() {
        number += 1;
        let Some((line, after)) = split_once(rest, b'\n') else {
            return Err(Refusal::BadText { line: number });
        };
        let Some(line) = taker.read_line(alloc, line)? else {
            return Err(Refusal::BadText { line: number });
        };
        if !taker.take(alloc, line)? {
            return Err(Refusal::BadText { line: number });
        }
        rest = after;
    }
    Ok(())
}
