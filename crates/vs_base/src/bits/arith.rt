ghost use Rattle.std.specs.Prelude.{◌≡◌, ℤ, pos, unsigned_abs, int_lt, if◌then◌else◌};
ghost use Rattle.vs_base.specs.Number.{reading};
ghost use Rattle.vs_base.specs.Operators.{subtracted, negated, multiplied, divided, remaining};

use super::{Bits, mask};

impl Bits {
    /// The difference of two values of one width, modulo 2^width (IEEE 1800-2017 11.4.3).
    pub fn sub(self, right: Bits) -> Bits
        requires same_width { self.width ≡ right.width }
        ensures { result ≡ subtracted self right }
    {
        Bits::new(self.width, self.value.wrapping_sub(right.value))
    }

    /// The value with its sign turned, modulo 2^width (IEEE 1800-2017 11.4.3).
    pub fn neg(self) -> Bits
        ensures { result ≡ negated self }
    {
        Bits::new(self.width, 0u128.wrapping_sub(self.value))
    }

    /// The product of two values of one width, modulo 2^width (IEEE 1800-2017 11.4.3).
    pub fn mul(self, right: Bits) -> Bits
        requires same_width { self.width ≡ right.width }
        ensures { result ≡ multiplied self right }
    {
        Bits::new(self.width, self.value.wrapping_mul(right.value))
    }

    /// The quotient of two values of one width, read with a sign where `signed` holds, towards zero and modulo 2^width:
    /// the least value by -1 gives itself. It is 0 where `right` is 0 (IEEE 1800-2017 11.4.3, at two states).
    pub fn div(self, right: Bits, signed: bool) -> Bits
        requires same_width { self.width ≡ right.width }
        ensures { result ≡ divided signed self right }
    {
        let divisor = right.magnitude(signed);
        if divisor == 0 {
            return Bits::new(self.width, 0);
        }
        let quotient = Bits::new(self.width, self.magnitude(signed) / divisor);
        quotient.with_sign(self.is_negative(signed) != right.is_negative(signed))
    }

    /// The remainder of two values of one width, read with a sign where `signed` holds. It has the sign of `self`, and
    /// is 0 where `right` is 0 (IEEE 1800-2017 11.4.3, at two states).
    pub fn rem(self, right: Bits, signed: bool) -> Bits
        requires same_width { self.width ≡ right.width }
        ensures { result ≡ remaining signed self right }
    {
        let divisor = right.magnitude(signed);
        if divisor == 0 {
            return Bits::new(self.width, 0);
        }
        let remainder = Bits::new(self.width, self.magnitude(signed) % divisor);
        remainder.with_sign(self.is_negative(signed))
    }

    // The value, with its sign turned where `negative` holds.
    fn with_sign(self, negative: bool) -> Bits
        ensures { result ≡ (if negative then negated self else self) }
    {
        if negative {
            return self.neg();
        }
        self
    }

    // Whether the value reads below 0.
    pub(super) fn is_negative(self, signed: bool) -> bool
        ensures { result ≡ int_lt (reading signed self) (pos 0) }
    {
        let value = self.value;
        let width = self.width;
        signed && value >= 1 << (width - 1)
    }

    // The size of the value's reading, without its sign.
    fn magnitude(self, signed: bool) -> u128
        ensures { result ≡ unsigned_abs (reading signed self) }
    {
        let value = self.value;
        let width = self.width;
        if signed && value >= 1 << (width - 1) {
            return mask(width) - value + 1;
        }
        value
    }
}
