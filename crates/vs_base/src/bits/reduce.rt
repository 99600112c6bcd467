ghost use Rattle.std.specs.Prelude.{◌≡◌};
ghost use Rattle.vs_base.specs.Operators.{holds_true, negation, conjunction, disjunction, all_ones, some_one, odd_ones, inverted};

use super::compare::truth;
use super::{Bits, mask};

impl Bits {
    /// Whether the value counts as true: it is not 0 (IEEE 1800-2017 11.4.7).
    pub fn is_true(self) -> bool
        ensures { result ≡ holds_true self }
    {
        self.value != 0
    }

    /// Whether the value is 0: 1 bit (IEEE 1800-2017 11.4.7, `!`).
    pub fn logical_not(self) -> Bits
        ensures { result ≡ negation self }
    {
        truth(!self.is_true())
    }

    /// Whether neither of two values of any width is 0: 1 bit (IEEE 1800-2017 11.4.7, `&&`).
    pub fn logical_and(self, right: Bits) -> Bits
        ensures { result ≡ conjunction self right }
    {
        truth(self.is_true() && right.is_true())
    }

    /// Whether one of two values of any width is not 0: 1 bit (IEEE 1800-2017 11.4.7, `||`).
    pub fn logical_or(self, right: Bits) -> Bits
        ensures { result ≡ disjunction self right }
    {
        truth(self.is_true() || right.is_true())
    }

    /// Whether all bits are 1: 1 bit (IEEE 1800-2017 11.4.9, `&`).
    pub fn reduce_and(self) -> Bits
        ensures { result ≡ all_ones self }
    {
        let value = self.value;
        truth(value == mask(self.width))
    }

    /// Whether some bit is 0: 1 bit (IEEE 1800-2017 11.4.9, `~&`).
    pub fn reduce_nand(self) -> Bits
        ensures { result ≡ inverted (all_ones self) }
    {
        self.reduce_and().bit_not()
    }

    /// Whether some bit is 1: 1 bit (IEEE 1800-2017 11.4.9, `|`).
    pub fn reduce_or(self) -> Bits
        ensures { result ≡ some_one self }
    {
        truth(self.value != 0)
    }

    /// Whether no bit is 1: 1 bit (IEEE 1800-2017 11.4.9, `~|`).
    pub fn reduce_nor(self) -> Bits
        ensures { result ≡ inverted (some_one self) }
    {
        self.reduce_or().bit_not()
    }

    /// Whether an odd number of bits is 1: 1 bit (IEEE 1800-2017 11.4.9, `^`).
    pub fn reduce_xor(self) -> Bits
        ensures { result ≡ odd_ones self }
    {
        Bits::new(1, u128::from(self.value.count_ones()))
    }

    /// Whether an even number of bits is 1: 1 bit (IEEE 1800-2017 11.4.9, `~^`).
    pub fn reduce_xnor(self) -> Bits
        ensures { result ≡ inverted (odd_ones self) }
    {
        self.reduce_xor().bit_not()
    }
}
