ghost use Rattle.std.specs.Prelude.{◌≡◌, ◌≤◌, ◌^◌, ◌<◌, ◌+◌, ◌-◌, ◌%◌, ◌/◌, ◌*◌, IsTrue, ℤ, false};
ghost use Rattle.std.specs.Fmt.{digit_glyph};
ghost use Rattle.vs_base.specs.Number.{Number, IsNumber, kept, extended, sliced, overwritten, placed, added, conjoined, signed_reading, hex_digit_of, bin_digit_of};

mod arith;
mod bitwise;
mod compare;
mod join;
mod reduce;
mod shift;

use std::marker::Model;

/// A value of the hardware language: a width from 1 to 128 bits, and a number below 2^width.
#[derive(Clone, Copy, Debug, PartialEq, Eq)]
pub struct Bits {
    width: u32,
    value: u128,
}

impl Model for Bits {
    ghost Value = { Number };

    ghost view = { λ b. record { width = b.width; value = b.value } };

    ghost invariant = { λ b. IsNumber (record { width = b.width; value = b.value }) };

    ghost inverse = { λ n. record { width = n.width; value = n.value } };
}

impl Bits {
    /// The value of `width` bits, from 1 to 128, that is `value` modulo 2^width.
    pub fn new(width: u32, value: u128) -> Bits
        requires some { 1 ≤ width }
        requires most { width ≤ 128 }
        ensures { result ≡ kept width value }
    {
        Bits {
            width,
            value: value & mask(width),
        }
    }

    /// The width in bits.
    pub fn width(self) -> u32
        ensures { result ≡ self.width }
    {
        self.width
    }

    /// The number, read without a sign.
    pub fn value(self) -> u128
        ensures { result ≡ self.value }
    {
        self.value
    }

    /// The number, read with a sign: less 2^width where the top bit is 1.
    pub fn signed_of(self) -> i128
        ensures { result ≡ signed_reading self }
    {
        let value = self.value;
        let width = self.width;
        if value < 1 << (width - 1) {
            return value as i128;
        }
        -((mask(width) - value) as i128) - 1
    }

    /// The value at another width, from 1 to 128 bits: cut, or extended by zeros, or by the sign bit where `signed`
    /// holds.
    pub fn extend(self, width: u32, signed: bool) -> Bits
        requires some { 1 ≤ width }
        requires most { width ≤ 128 }
        ensures { result ≡ extended self width signed }
    {
        if signed && self.value >= 1 << (self.width - 1) {
            return Bits::new(width, self.value + (u128::MAX - mask(self.width)));
        }
        Bits::new(width, self.value)
    }

    /// The `width` bits, from 1 to 128, from place `at` on, where place 0 is the lowest bit. Bits outside read 0.
    pub fn slice(self, at: i64, width: u32) -> Bits
        requires some { 1 ≤ width }
        requires most { width ≤ 128 }
        ensures { result ≡ sliced self at width }
    {
        let value = self.value;
        if at < 0 {
            return Bits::new(width, up(value, at.unsigned_abs()));
        }
        Bits::new(width, down(value, at.unsigned_abs()))
    }

    /// The value with `part` in place of its bits from place `at` on. Bits of `part` that fall outside are dropped,
    /// and the width stays.
    pub fn place(self, at: i64, part: Bits) -> Bits
        ensures { result ≡ placed self at part }
    {
        let length = u64::from(part.width);
        let distance = at.unsigned_abs();
        if at < 0 {
            return self.overwrite(
                0,
                down(part.value, distance),
                length.saturating_sub(distance),
            );
        }
        self.overwrite(distance, part.value, length)
    }

    // The value with the `length` bits of `part` in place of its bits from place `at` on.
    fn overwrite(self, at: u64, part: u128, length: u64) -> Bits
        requires near { at ≤ 2 ^ 63 }
        requires short { length ≤ 128 }
        ensures { result ≡ overwritten self at (record { width = length; value = part }) }
    {
        let value = self.value;
        let top = at + length;
        let below = low(value, at);
        let above = up(down(value, top), top);
        Bits::new(
            self.width,
            below.wrapping_add(up(part, at)).wrapping_add(above),
        )
    }

    /// The sum of two values of one width, modulo 2^width (IEEE 1800-2017 11.4.3).
    pub fn add(self, right: Bits) -> Bits
        requires same_width { self.width ≡ right.width }
        ensures { result ≡ added self right }
    {
        Bits::new(self.width, self.value.wrapping_add(right.value))
    }

    /// The bits that are 1 in both of two values of one width (IEEE 1800-2017 11.4.8).
    pub fn bit_and(self, right: Bits) -> Bits
        requires same_width { self.width ≡ right.width }
        ensures { result ≡ conjoined self right }
    {
        Bits::new(self.width, self.value & right.value)
    }

    /// The hexadecimal digit `k` places from the right, in ASCII, with small letters; 0 above the top bit.
    pub fn hex_digit(self, k: u32) -> u8
        ensures { result ≡ hex_digit_of self k }
    {
        let value = self.value;
        if k >= 32 {
            return b'0';
        }
        digit((value >> (4 * k)) & 15)
    }

    /// The binary digit `k` places from the right, in ASCII; 0 above the top bit.
    pub fn bin_digit(self, k: u32) -> u8
        ensures { result ≡ bin_digit_of self k }
    {
        let value = self.value;
        if k >= 128 {
            return b'0';
        }
        digit((value >> k) & 1)
    }
}

// The ones of a width.
fn mask(width: u32) -> u128
    requires some { 1 ≤ width }
    requires most { width ≤ 128 }
    ensures { result ≡ 2 ^ width - 1 }
{
    u128::MAX >> (128 - width)
}

// The value moved up by so many places; what leaves the 128 bits is lost.
fn up(value: u128, by: u64) -> u128
    ensures { result ≡ value * 2 ^ by % 2 ^ 128 }
{
    if by >= 128 {
        return 0;
    }
    value << by
}

// The value moved down by so many places.
fn down(value: u128, by: u64) -> u128
    ensures { result ≡ value / 2 ^ by }
{
    if by >= 128 {
        return 0;
    }
    value >> by
}

// The bits below a place.
fn low(value: u128, place: u64) -> u128
    ensures { result ≡ value % 2 ^ place }
{
    value - up(down(value, place), place)
}

// The ASCII digit of a number below 16.
fn digit(n: u128) -> u8
    requires { n < 16 }
    ensures { result ≡ digit_glyph false n }
{
    let n = n as u8;
    if n < 10 { b'0' + n } else { b'a' + (n - 10) }
}
