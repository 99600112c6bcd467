//! Whole numbers of more than a word.

ghost use Rattle.std.specs.Prelude.{◌≡◌, ◌≤◌, ℤ, true, pos, int_lt, nat_abs, ◌-ℤ◌};
ghost use Rattle.vs_base.specs.Number.{reading};
ghost use Rattle.vs_base.specs.WholeNumber.{with_sign, nearest, in_word};

use super::Bits;
use std::marker::Model;

/// A whole number from -(2^128 - 1) to 2^128 - 1: what a value reads, with or without a sign.
#[derive(Clone, Copy, Debug, PartialEq, Eq)]
pub struct Whole {
    negative: bool,
    magnitude: u128,
}

impl Model for Whole {
    ghost Value = { ℤ };

    ghost view = { λ w. with_sign w.negative w.magnitude };

    ghost invariant = { λ w. w.negative ≡ true → 1 ≤ w.magnitude };

    ghost inverse = { λ z. record { negative = int_lt z (pos 0); magnitude = nat_abs z } };
}

impl Whole {
    /// The number that a value reads, with a sign where `signed` holds.
    pub fn of(value: Bits, signed: bool) -> Whole
        ensures { result ≡ reading signed value }
    {
        if signed {
            let number = value.signed_of();
            return Whole {
                negative: number < 0,
                magnitude: number.unsigned_abs(),
            };
        }
        Whole {
            negative: false,
            magnitude: value.value(),
        }
    }

    /// Whether the first of two numbers is less.
    pub fn less(self, right: Whole) -> bool
        ensures { result ≡ int_lt self right }
    {
        if self.negative != right.negative {
            return self.negative;
        }
        if self.negative {
            return right.magnitude < self.magnitude;
        }
        self.magnitude < right.magnitude
    }

    /// The number, where it is from -2^63 to 2^63 - 1.
    pub fn in_word(self) -> Option<i64>
        ensures { result ≡ in_word self }
    {
        signed_word(self.negative, self.magnitude)
    }

    /// The difference, and where it is not from -2^63 to 2^63 - 1, the nearest number that is.
    pub fn minus(self, right: Whole) -> i64
        ensures { result ≡ nearest (self -ℤ right) }
    {
        if self.negative != right.negative {
            return nearest(
                self.negative,
                self.magnitude.saturating_add(right.magnitude),
            );
        }
        if self.magnitude < right.magnitude {
            return nearest(!self.negative, right.magnitude - self.magnitude);
        }
        nearest(self.negative, self.magnitude - right.magnitude)
    }

    /// The number, and where it is not from -2^63 to 2^63 - 1, the nearest number that is.
    pub fn nearest(self) -> i64
        ensures { result ≡ nearest self }
    {
        nearest(self.negative, self.magnitude)
    }
}

// A number of a sign and a magnitude, where it is one of 64 bits with a sign.
fn signed_word(negative: bool, magnitude: u128) -> Option<i64>
    ensures { result ≡ in_word (with_sign negative magnitude) }
{
    if negative {
        if magnitude > 1 << 63 {
            return None;
        }
        return Some((-(magnitude as i128)) as i64);
    }
    if magnitude >= 1 << 63 {
        return None;
    }
    Some(magnitude as i64)
}

// The number of 64 bits with a sign that is nearest to one of a sign and a magnitude.
fn nearest(negative: bool, magnitude: u128) -> i64
    ensures { result ≡ nearest (with_sign negative magnitude) }
{
    match signed_word(negative, magnitude) {
        Some(number) => number,
        None => { if negative { i64::MIN } else { i64::MAX } }
    }
}
