ghost use Rattle.std.specs.Prelude.{◌≡◌};
ghost use Rattle.vs_base.specs.Operators.{truth, less, at_most, equal, unequal};

use super::Bits;

impl Bits {
    /// Whether the first of two values of one width is less, read with a sign where `signed` holds: 1 bit
    /// (IEEE 1800-2017 11.4.4). `a > b` is `b < a`.
    pub fn less(self, right: Bits, signed: bool) -> Bits
        requires same_width { self.width ≡ right.width }
        ensures { result ≡ less signed self right }
    {
        if signed {
            return truth(self.signed_of() < right.signed_of());
        }
        truth(self.value < right.value)
    }

    /// Whether the first of two values of one width is less or equal, read with a sign where `signed` holds: 1 bit
    /// (IEEE 1800-2017 11.4.4). `a >= b` is `b <= a`.
    pub fn at_most(self, right: Bits, signed: bool) -> Bits
        requires same_width { self.width ≡ right.width }
        ensures { result ≡ at_most signed self right }
    {
        if signed {
            return truth(self.signed_of() <= right.signed_of());
        }
        truth(self.value <= right.value)
    }

    /// Whether two values of one width are equal: 1 bit (IEEE 1800-2017 11.4.5).
    pub fn equal(self, right: Bits) -> Bits
        requires same_width { self.width ≡ right.width }
        ensures { result ≡ equal self right }
    {
        truth(self.value == right.value)
    }

    /// Whether two values of one width differ: 1 bit (IEEE 1800-2017 11.4.5).
    pub fn unequal(self, right: Bits) -> Bits
        requires same_width { self.width ≡ right.width }
        ensures { result ≡ unequal self right }
    {
        truth(self.value != right.value)
    }
}

// The bit of an answer.
pub(super) fn truth(holds: bool) -> Bits
    ensures { result ≡ truth holds }
{
    Bits::new(1, u128::from(holds))
}
