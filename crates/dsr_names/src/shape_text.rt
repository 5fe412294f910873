ghost use Rattle.std.specs.Prelude.{◌≡◌, ℕ, ◌<◌, ◌^◌, List, ◌∷◌, ◌++◌, codes, Some, IfSome, IfNone, IsSomeAnd};
ghost use Rattle.std.specs.Fmt.{decimal};
ghost use Rattle.dsr_names.specs.Shape.{Shape, shape_of};
ghost use Rattle.dsr_names.specs.ShapeText.{shape_text, replicas_of, replicas_text, IsSpelled, IsVerdict, IsShapeReading};
ghost use Rattle.dsr_base.specs.Reads.{Reads};

use crate::refusal::Refusal;
use crate::replicas::{Replicas, bits_of, replicas_in};
use crate::shape::Shape;
use crate::token::read_num;
use dsr_base::split_once;
use std::fmt;

impl Shape {
    /// Reads a shape's token, like `3 1 1 -` or `5 2 1 r0+r1`: n, f and m below 2^40, then the traitors from
    /// r0 to r15 in ascending order, or a dash. `None` exactly if the bytes are not such a token; `BadShape`
    /// exactly if they are one, but its shape is outside the limits.
    pub fn read(bytes: &[u8]) -> Option<Result<Shape, Refusal>>
        ensures spelled { IfSome result (IsShapeReading bytes.now) }
        ensures read { (shape : Shape) → IsSpelled shape → bytes.now ≡ shape_text shape → IsSomeAnd result (IsVerdict shape) }
    {
        let (n, rest) = read_field(bytes)?;
        let (f, rest) = read_field(rest)?;
        let (m, rest) = read_field(rest)?;
        let traitors = read_traitors(rest)?;
        Some(within_limits(n, f, m, traitors))
    }
}

/// The token of a shape, which `Shape::read` reads.
impl fmt::Display for Shape {
    ghost output = { λ shape. Some (shape_text shape) };

    fn fmt<W: fmt::Write>(&self, f: &mut fmt::Formatter<W>) -> fmt::Result {
        let n = self.n();
        let most = self.f();
        let m = self.m();
        let traitors = replicas_in(self.traitors());
        write!(f, "{n} {most} {m} {traitors}")
    }
}

/// Makes the shape of these numbers, or returns `BadShape` if it is outside the limits.
fn within_limits(n: u64, f: u64, m: u64, traitors: u16) -> Result<Shape, Refusal>
    ensures { IsVerdict (shape_of n f m traitors) result }
{
    if n > 16 || f > 7 || m > 32 {
        return Err(Refusal::BadShape);
    }
    Shape::new(n as u8, f as u8, m as u8, traitors)
}

/// Reads a number and the space after it at the beginning of the bytes; returns the number and what follows.
fn read_field(bytes: &[u8]) -> Option<(u64, &[u8])>
    ensures spelled { IfSome result (λ field. (field.0 < 2 ^ 40) × (bytes.now ≡ decimal field.0 ++ (codes " " ++ field.1.now))) }
    ensures read { (n : ℕ) (rest : List ℕ) → n < 2 ^ 40 → bytes.now ≡ decimal n ++ (codes " " ++ rest)
        → IsSomeAnd result (λ field. (field.0 ≡ n) × (field.1.now ≡ rest)) }
{
    let (front, rest) = split_once(bytes, b' ')?;
    let number = read_num(front)?;
    Some((number, rest))
}

/// Reads the traitors, replica i by bit i.
fn read_traitors(bytes: &[u8]) -> Option<u16>
    ensures { Reads (λ (bits : ℕ). bits < 2 ^ 16) (λ bits. replicas_text (replicas_of bits)) bytes.now result }
{
    let spelled = Replicas::read(bytes)?;
    let bits = bits_of(spelled.as_slice());
    // A set has one text alone: the one in which its replicas ascend.
    if replicas_in(bits).same(&spelled) {
        Some(bits)
    } else {
        None
    }
}
