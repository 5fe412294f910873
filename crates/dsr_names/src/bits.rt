ghost use Rattle.std.specs.Prelude.{◌≡◌, ◌≤◌};
ghost use Rattle.dsr_base.specs.Bits.{is_bit_set, count_below};

/// Counts the set bits among the lowest `n` bits of `bits`.
pub(crate) fn count_bits(bits: u16, n: u8) -> u8
    requires { n ≤ 16 }
    ensures { result ≡ count_below (is_bit_set bits) n }
{
    let mut count = 0;
    for i in 0..n {
        if (bits >> i) & 1 == 1 {
            count += 1;
        }
    }
    count
}
