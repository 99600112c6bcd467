ghost use Rattle.std.specs.Prelude.{◌≡◌, ◌/◌, ◌^◌};
ghost use Rattle.vs_base.specs.Number.{kept};
ghost use Rattle.vs_base.specs.Operators.{shifted_left, shifted_right};

use super::Bits;

impl Bits {
    /// The value moved up by `count` places, `count` read without a sign and of any width; zeros come in, and what
    /// leaves the width is lost (IEEE 1800-2017 11.4.10, `<<` and `<<<`).
    pub fn shift_left(self, count: Bits) -> Bits
        ensures { result ≡ shifted_left self count.value }
    {
        if count.value >= 128 {
            return Bits::new(self.width, 0);
        }
        Bits::new(self.width, self.value << count.value)
    }

    /// The value moved down by `count` places, `count` read without a sign and of any width. Zeros come in, or the sign
    /// bit where `signed` holds (IEEE 1800-2017 11.4.10: `>>`, and `>>>` of a result with a sign).
    pub fn shift_right(self, count: Bits, signed: bool) -> Bits
        ensures { result ≡ shifted_right signed self count.value }
    {
        if self.is_negative(signed) {
            return self.bit_not().moved_down(count).bit_not();
        }
        self.moved_down(count)
    }

    // The value moved down by so many places, with zeros at the top.
    fn moved_down(self, count: Bits) -> Bits
        ensures { result ≡ kept self.width (self.value / 2 ^ count.value) }
    {
        let value = self.value;
        if count.value >= 128 {
            return Bits::new(self.width, 0);
        }
        Bits::new(self.width, value >> count.value)
    }
}
