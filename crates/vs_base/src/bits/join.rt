ghost use Rattle.std.specs.Prelude.{◌≡◌, ◌≤◌, ◌+◌, ◌*◌, ◌-◌};
ghost use Rattle.vs_base.specs.Operators.{joined, repeated, log_ceiling, IsCeilingLog};

use super::Bits;

impl Bits {
    /// The bits of both, those of `low` below, together at most 128 (IEEE 1800-2017 11.4.12).
    pub fn join(self, low: Bits) -> Bits
        requires most { self.width + low.width ≤ 128 }
        ensures { result ≡ joined self low }
    {
        let value = self.value;
        let width = self.width;
        let below = low.value;
        let length = low.width;
        Bits::new(width + length, (value << length).wrapping_add(below))
    }

    /// The bits so many times, at least once, one above the other, together at most 128 (IEEE 1800-2017 11.4.12.1).
    pub fn repeat(self, times: u32) -> Bits
        requires some { 1 ≤ times }
        requires most { times * self.width ≤ 128 }
        ensures { result ≡ repeated times self }
    {
        let mut made = self;
        for _ in 1..times {
            made = made.join(self);
        }
        made
    }

    /// The least `k` with 2^k at least the value, and 0 for 0, in 32 bits (IEEE 1800-2017 20.8.1).
    pub fn clog2(self) -> Bits
        ensures value { result ≡ log_ceiling self }
        ensures log { IsCeilingLog self result.value }
    {
        let value = self.value;
        if value <= 1 {
            return Bits::new(32, 0);
        }
        Bits::new(32, u128::from(128 - (value - 1).leading_zeros()))
    }
}
