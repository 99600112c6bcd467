//! Which spellings of numbers are numbers (IEEE 1800-2017 5.7.1, without x, z and `?`).

ghost use Rattle.std.specs.Prelude.{◌≡◌, ◌<◌, ◌≤◌, ◌+◌, ◌-◌, ◌*◌, ◌^◌, length, MatchOption, MatchResult, Some, None};
ghost use Rattle.std.specs.List.{position_from};
ghost use Rattle.sv_tree.specs.Tokens.{AreNamed};
ghost use Rattle.sv_lex.specs.Number as spec;

use sv_tree::{Names, Token, TokenKind};

/// The value of a digit of base 16 at most, and 16 for another byte.
fn digit(b: u8) -> u8
    ensures { result ≡ spec.digit b }
{
    match b {
        b'0'..=b'9' => b - b'0',
        b'a'..=b'f' => b - 87,
        b'A'..=b'F' => b - 55,
        _ => 16,
    }
}

fn base_of(b: u8) -> u8
    ensures value { result ≡ spec.base_of b }
    ensures small { (2 ≤ result) × (result ≤ 16) }
{
    match b {
        b'b' | b'B' => 2,
        b'o' | b'O' => 8,
        b'd' | b'D' => 10,
        _ => 16,
    }
}

/// A number with a further digit, where it is below 2^128.
fn with_digit(sum: u128, base: u8, digit: u8) -> Option<u128>
    ensures { MatchOption result (2 ^ 128 ≤ sum * base + digit) (λ more. more ≡ sum * base + digit) }
{
    let Some(moved) = sum.checked_mul(u128::from(base)) else {
        return None;
    };
    moved.checked_add(u128::from(digit))
}

/// Some digits of the base, with a value below 2^128.
fn is_digits(base: u8, text: &[u8]) -> bool
    requires { (2 ≤ base) × (base ≤ 16) }
    ensures { result ≡ spec.is_digits base text.now }
{
    let mut rest = text;
    let mut sum: u128 = 0;
    let mut some = false;
    while let [b, more @ ..] = rest {
        if *b != b'_' {
            let digit = digit(*b);
            if digit >= base {
                return false;
            }
            some = true;
            let Some(more) = with_digit(sum, base, digit) else {
                return false;
            };
            sum = more;
        }
        rest = more;
    }
    some
}

fn is_based(text: &[u8]) -> bool
    ensures { result ≡ spec.is_based text.now }
{
    let [_, a, b, digits @ ..] = text else {
        return false;
    };
    if *a == b's' || *a == b'S' {
        is_digits(base_of(*b), digits)
    } else {
        is_digits(base_of(*a), &text[2..])
    }
}

fn is_number(kind: TokenKind, text: &[u8]) -> bool
    ensures { result ≡ spec.is_number kind text.now }
{
    match kind {
        TokenKind::Decimal => is_digits(10, text),
        TokenKind::Based => is_based(text),
        _ => true,
    }
}

/// Refuses the first token that is spelled as a number and is none, by its place in the list from 0.
///
/// A Decimal token of value 2^128 or more is no number. A Based token is none where it has no digit, or a
/// digit that is not of its base (`x`, `z` and `?` among them), or its value is 2^128 or more. `_`
/// is skipped. Tokens of other kinds are not looked at. Takes no memory.
pub fn check_numbers(tokens: &[Token], names: &Names) -> Result<(), u32>
    requires few { length tokens.now < 2 ^ 32 - 1 }
    requires named { AreNamed names.now tokens.now }
    ensures { MatchResult result (λ _. position_from (spec.is_no_number names.now) 0 tokens.now ≡ None) (λ k. position_from (spec.is_no_number names.now) 0 tokens.now ≡ Some k) }
{
    let mut rest = tokens;
    let mut at = 0;
    while let [token, more @ ..] = rest {
        if !is_number(token.kind, names.text(token.name)) {
            return Err(at);
        }
        at += 1;
        rest = more;
    }
    Ok(())
}
