ghost use Rattle.std.specs.Prelude.{◌≡◌, ◌≤◌, ℕ};
ghost use Rattle.vs_base.specs.declared.limits.TheConstants.{WIDTH};

use std::marker::Model;

/// A number of bits from 1 to the greatest width of a type. Clauses see the number.
#[derive(Clone, Copy, Debug, PartialEq, Eq)]
pub struct Width {
    bits: u32,
}

impl Model for Width {
    ghost Value = { ℕ };

    ghost view = { λ w. w.bits };

    ghost invariant = { (λ w. (1 ≤ w.bits) × (w.bits ≤ WIDTH)) };

    ghost inverse = { λ n. record { bits = n } };
}

impl Width {
    /// So many bits.
    pub fn new(bits: u32) -> Width
        requires some { 1 ≤ bits }
        requires most { bits ≤ WIDTH }
        ensures { result ≡ bits }
    {
        Width { bits }
    }

    /// How many bits it is.
    pub fn bits(self) -> u32
        ensures bits { result ≡ self }
        ensures some { 1 ≤ result }
        ensures most { result ≤ WIDTH }
    {
        self.bits
    }
}
