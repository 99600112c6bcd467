//! Numbers as they are spelled (IEEE 1800-2017 5.7.1).

ghost use Rattle.std.specs.Prelude.{◌≡◌, ◌≤◌, ◌+◌, ◌*◌, ◌%◌, ◌^◌, nat_lt, true};
ghost use Rattle.vs_base.specs.Number.{kept};
ghost use Rattle.sv_lex.specs.Number.{digit as digit_value, base_of as base_value, value as digits_value};
ghost use Rattle.vs_base.specs.Types.{in_context as number_in_context};
ghost use Rattle.sv_expr.specs.Bound.{IsWidth};
ghost use Rattle.sv_expr.specs.Literal.{decimal_number, based_number, based_signed, without_size as unsized_type, of_size, literal_value as literal_number, fill_value as fill_number};

use crate::bound::{bounded, fine, nothing, refused};
use crate::fault::WalkFault;
use crate::typed::Typed;
use vs_base::{Bits, Origin, ValueType, in_context};

/// The literal that fills its context with ones.
const ONES: &[u8] = b"'1";

/// Digits of a base; the base is at least 1.
#[derive(Clone, Copy)]
struct Digits<'a> {
    base: u8,
    text: &'a [u8],
}

/// The value of a digit of base 16 at most, and 16 for another byte.
fn digit(b: u8) -> u8
    ensures { result ≡ digit_value b }
{
    match b {
        b'0'..=b'9' => b - b'0',
        b'a'..=b'f' => b - 87,
        b'A'..=b'F' => b - 55,
        _ => 16,
    }
}

/// The base of its letter.
fn base_of(b: u8) -> u8
    ensures value { result ≡ base_value b }
    ensures some { 1 ≤ result }
{
    match b {
        b'b' | b'B' => 2,
        b'o' | b'O' => 8,
        b'd' | b'D' => 10,
        _ => 16,
    }
}

/// The digits of a base and its digits, after `'` and perhaps a sign.
fn based_digits(text: &[u8]) -> Digits<'_>
    ensures value { digits_value result.base 0 result.text.now ≡ based_number text.now }
    ensures some { 1 ≤ result.base }
{
    let [_, a, b, digits @ ..] = text else {
        return Digits {
            base: 16,
            text: &[],
        };
    };
    if *a == b's' || *a == b'S' {
        return Digits {
            base: base_of(*b),
            text: digits,
        };
    }
    Digits {
        base: base_of(*a),
        text: &text[2..],
    }
}

/// Whether s stands after the `'`.
fn is_signed(text: &[u8]) -> bool
    ensures { result ≡ based_signed text.now }
{
    let [_, a, ..] = text else {
        return false;
    };
    *a == b's' || *a == b'S'
}

/// The number with a further digit, modulo 2^128.
fn with_digit(sum: u128, base: u8, b: u8) -> u128
    ensures { result ≡ (sum * base + digit_value b) % 2 ^ 128 }
{
    sum.wrapping_mul(u128::from(base))
        .wrapping_add(u128::from(digit(b)))
}

/// The number of digits, modulo 2^128.
#[tactic(auto, using(crate::proofs::Digits::turn))]
fn number_of(base: u8, text: &[u8]) -> u128
    ensures { result ≡ digits_value base 0 text.now % 2 ^ 128 }
{
    let mut rest = text;
    let mut sum: u128 = 0;
    while let [b, more @ ..] = rest {
        if *b != b'_' {
            sum = with_digit(sum, base, *b);
        }
        rest = more;
    }
    sum
}

/// Whether the number of digits is below 2^32.
fn is_short(digits: Digits<'_>) -> bool
    requires { 1 ≤ digits.base }
    ensures { result ≡ nat_lt (digits_value digits.entry.base 0 digits.entry.text.now) (2 ^ 32) }
{
    let mut rest = digits.text;
    let mut sum: u64 = 0;
    while let [b, more @ ..] = rest {
        if *b != b'_' {
            sum = sum * u64::from(digits.base) + u64::from(digit(*b));
            if sum >= 1 << 32 {
                return false;
            }
        }
        rest = more;
    }
    true
}

/// The type of a decimal number.
pub fn decimal_typed(at: Origin, text: &[u8]) -> Typed
    ensures typed { result ≡ unsized_type at (decimal_number text.now) true }
    ensures width { IsWidth result.kind.width }
{
    unsized_typed(at, Digits { base: 10, text }, true)
}

/// The value of a decimal number in a context.
pub fn decimal_value(at: Origin, text: &[u8], context: ValueType) -> Bits
    requires { IsWidth context.width }
    ensures { result ≡ literal_number (unsized_type at (decimal_number text.now) true) (decimal_number text.now) context }
{
    let kind = decimal_typed(at, text).kind;
    number_value(kind.width, Digits { base: 10, text }, context)
}

/// The type of a number with a base and without a size.
pub fn based_typed(at: Origin, text: &[u8]) -> Typed
    ensures typed { result ≡ unsized_type at (based_number text.now) (based_signed text.now) }
    ensures width { IsWidth result.kind.width }
{
    unsized_typed(at, based_digits(text), is_signed(text))
}

/// The value of a number with a base and without a size, in a context.
pub fn based_value(at: Origin, text: &[u8], context: ValueType) -> Bits
    requires { IsWidth context.width }
    ensures { result ≡ literal_number (unsized_type at (based_number text.now) (based_signed text.now)) (based_number text.now) context }
{
    let kind = based_typed(at, text).kind;
    number_value(kind.width, based_digits(text), context)
}

/// The type of a number with a size.
pub fn sized_typed(at: Origin, size: &[u8], digits: &[u8]) -> Typed
    ensures typed { result ≡ of_size at (decimal_number size.now) (based_signed digits.now) }
    ensures width { IsWidth result.kind.width }
{
    let size = Digits {
        base: 10,
        text: size,
    };
    if !is_short(size) {
        return refused(None, WalkFault::TooWide(at));
    }
    bounded(
        at,
        None,
        ValueType {
            width: number_of(size.base, size.text) as u32,
            signed: is_signed(digits),
        },
    )
}

/// The value of a number with a size, in a context.
pub fn sized_value(at: Origin, size: &[u8], digits: &[u8], context: ValueType) -> Bits
    requires { IsWidth context.width }
    ensures { result ≡ literal_number (of_size at (decimal_number size.now) (based_signed digits.now)) (based_number digits.now) context }
{
    let kind = sized_typed(at, size, digits).kind;
    number_value(kind.width, based_digits(digits), context)
}

/// `'1` fills its context with ones, `'0` with zeros.
pub fn fill_value(text: &[u8], context: ValueType) -> Bits
    requires { IsWidth context.width }
    ensures { result ≡ fill_number text.now context }
{
    let zeros = nothing(context);
    if text == ONES {
        return zeros.bit_not();
    }
    zeros
}

/// The type of a number without a size.
fn unsized_typed(at: Origin, digits: Digits<'_>, signed: bool) -> Typed
    requires { 1 ≤ digits.base }
    ensures typed { result ≡ unsized_type at (digits_value digits.entry.base 0 digits.entry.text.now) signed }
    ensures width { IsWidth result.kind.width }
{
    if is_short(digits) {
        return fine(ValueType { width: 32, signed });
    }
    refused(None, WalkFault::TooWide(at))
}

/// The number of digits, cut to a width and in a context.
fn number_value(width: u32, digits: Digits<'_>, context: ValueType) -> Bits
    requires width { IsWidth width }
    requires context { IsWidth context.width }
    ensures { result ≡ number_in_context (kept width (digits_value digits.entry.base 0 digits.entry.text.now)) context }
{
    in_context(
        Bits::new(width, number_of(digits.base, digits.text)),
        context,
    )
}
