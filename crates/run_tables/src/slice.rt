//! Bits of a value, as a word.
ghost use Rattle.std.specs.Prelude.{◌≡◌, ◌≤◌, ◌%◌, ◌^◌};
ghost use Rattle.plan_types.specs.Machine.{part_of};

use vs_base::Bits;

/// So many bits of a value from one on, at most 64. Bits outside are 0.
pub fn part(value: Bits, bit: u32, len: u32) -> u64
    requires { len ≤ 64 }
    ensures { result ≡ part_of value bit len }
{
    if len == 0 {
        return 0;
    }
    value.slice(i64::from(bit), len).value() as u64
}

/// So many low bits.
pub fn cut(value: u64, len: u32) -> u64
    ensures { result ≡ value % 2 ^ len }
{
    if len >= 64 {
        return value;
    }
    value % (1 << len)
}
