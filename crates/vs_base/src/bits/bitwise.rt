ghost use Rattle.std.specs.Prelude.{◌≡◌};
ghost use Rattle.vs_base.specs.Operators.{disjoined, differing, inverted, agreeing};

use super::{Bits, mask};

impl Bits {
    /// The bits that are 1 in either of two values of one width (IEEE 1800-2017 11.4.8).
    pub fn bit_or(self, right: Bits) -> Bits
        requires same_width { self.width ≡ right.width }
        ensures { result ≡ disjoined self right }
    {
        Bits::new(self.width, self.value | right.value)
    }

    /// The bits in which two values of one width differ (IEEE 1800-2017 11.4.8).
    pub fn bit_xor(self, right: Bits) -> Bits
        requires same_width { self.width ≡ right.width }
        ensures { result ≡ differing self right }
    {
        Bits::new(self.width, self.value ^ right.value)
    }

    /// The bits in which two values of one width agree (IEEE 1800-2017 11.4.8).
    pub fn bit_xnor(self, right: Bits) -> Bits
        requires same_width { self.width ≡ right.width }
        ensures { result ≡ agreeing self right }
    {
        self.bit_xor(right).bit_not()
    }

    /// The bits that are 0 (IEEE 1800-2017 11.4.8).
    pub fn bit_not(self) -> Bits
        ensures { result ≡ inverted self }
    {
        let value = self.value;
        Bits::new(self.width, mask(self.width) - value)
    }
}
