ghost use Rattle.std.specs.Prelude.{◌≡◌, ℕ, ◌<◌, ◌^◌};
ghost use Rattle.std.specs.Option.{SomeIff};
ghost use Rattle.std.specs.Fmt.{decimal};
ghost use Rattle.std.specs.Str.Parse.{IsNumeral, digits_value};
ghost use Rattle.dsr_base.specs.Reads.{Reads};

/// Reads the decimal of a number below 2^64: no sign, and no leading zero unless it is `0`. `None`
/// exactly if the bytes are not such a decimal.
pub fn read_decimal(bytes: &[u8]) -> Option<u64>
    ensures { Reads (λ (n : ℕ). n < 2 ^ 64) decimal bytes.now result }
{
    if bytes.len() > 1 && bytes[0] == b'0' {
        return None;
    }
    digits(bytes)
}

/// Reads the number that the bytes write in decimal, with or without leading zeros. `None` if they
/// have no digit or another byte, or the number is 2^64 or more.
fn digits(bytes: &[u8]) -> Option<u64>
    ensures { SomeIff result (IsNumeral 10 bytes.now × (digits_value 10 bytes.now < 2 ^ 64)) (digits_value 10 bytes.now) }
{
    if bytes.is_empty() {
        return None;
    }
    let mut number = 0u64;
    for &byte in bytes {
        if !byte.is_ascii_digit() {
            return None;
        }
        number = number.checked_mul(10)?.checked_add(u64::from(byte - b'0'))?;
    }
    Some(number)
}
