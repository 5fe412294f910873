ghost use Rattle.std.specs.Prelude.{◌≡◌, ◌∷◌, ◌++◌, false, IfSome, IfNone};
ghost use Rattle.dsr_base.specs.Split.{IsAbsent, IsFree, IsPart, is_inside_with};

use memchr::memchr;

/// Cuts at the first such byte: returns what is before it, and what is after it. `None` exactly if the
/// byte does not occur.
pub fn split_once(bytes: &[u8], byte: u8) -> Option<(&[u8], &[u8])>
    ensures found { IfSome result (λ parts. bytes.now ≡ parts.0.now ++ byte ∷ parts.1.now) }
    ensures first { IfSome result (λ parts. IsAbsent byte parts.0.now) }
    ensures absent { IfNone result (IsAbsent byte bytes.now) }
{
    match memchr(byte, bytes) {
        Some(place) => Some((&bytes[..place], &bytes[place + 1..])),
        None => None,
    }
}

/// Cuts at the first mark outside parentheses: returns what is before it, and what is after it. `None`
/// exactly if no mark is outside them. Parentheses are one level deep.
pub fn split_outside(bytes: &[u8], mark: u8) -> Option<(&[u8], &[u8])>
    ensures found { IfSome result (λ parts. bytes.now ≡ parts.0.now ++ mark ∷ parts.1.now) }
    ensures first { IfSome result (λ parts. IsPart mark parts.0.now) }
    ensures free { IfNone result (IsFree mark false bytes.now) }
{
    let mut inside = false;
    for i in 0..bytes.len() {
        if !inside && bytes[i] == mark {
            return Some((&bytes[..i], &bytes[i + 1..]));
        }
        inside = inside_with(inside, bytes[i]);
    }
    None
}

/// Tells whether what follows the byte is in parentheses, given whether the byte is.
fn inside_with(inside: bool, byte: u8) -> bool
    ensures { result ≡ is_inside_with inside byte }
{
    match byte {
        b'(' => true,
        b')' => false,
        _ => inside,
    }
}
