//! Values and codes of variables, written into room that is there.

ghost use Rattle.std.specs.Prelude.{◌≡◌, ◌≤◌, ◌+◌, ◌%◌, ◌++◌, ◌∷◌, [], vec_len, vec_capacity};
ghost use Rattle.vcd_out.specs.Code.{code_of};
ghost use Rattle.vcd_out.specs.Values.{digits_of, value_text, value_line};

use vs_base::Bits;

/// The greatest length of a code, in bytes.
pub const CODE_BYTES: usize = 10;

/// How many bytes of a line of a value are neither digits nor code, at most.
pub const LINE_BYTES: usize = 3;

/// Adds the code of variable `k`.
pub fn put_code(text: &mut Vec<u8>, k: usize)
    requires { vec_len text.old + CODE_BYTES ≤ vec_capacity text.old }
    ensures items { text.new.items ≡ text.old.items ++ code_of k }
    ensures room { vec_len text.new ≤ vec_len text.old + CODE_BYTES }
    ensures capacity { vec_capacity text.new ≡ vec_capacity text.old }
{
    let mut rest = k;
    text.push_reserved(digit(rest));
    'digits: while rest >= 94 {
        rest = rest / 94 - 1;
        text.push_reserved(digit(rest));
    }
}

// The first character of a code.
fn digit(k: usize) -> u8
    ensures { result ≡ 33 + k % 94 }
{
    33 + (k % 94) as u8
}

/// Adds the line of a value of variable `k`.
pub fn put_value(text: &mut Vec<u8>, k: usize, value: Bits)
    requires { vec_len text.old + (value.width + LINE_BYTES + CODE_BYTES) ≤ vec_capacity text.old }
    ensures items { text.new.items ≡ text.old.items ++ value_line k value }
    ensures room { vec_len text.new ≤ vec_len text.old + (value.width + LINE_BYTES + CODE_BYTES) }
    ensures capacity { vec_capacity text.new ≡ vec_capacity text.old }
{
    put_bits(text, value);
    put_code(text, k);
    text.push_reserved(b'\n');
}

// Adds a value, with what stands round its digits.
fn put_bits(text: &mut Vec<u8>, value: Bits)
    requires { vec_len text.old + (value.width + 2) ≤ vec_capacity text.old }
    ensures items { text.new.items ≡ text.old.items ++ value_text value }
    ensures room { vec_len text.new ≤ vec_len text.old + (value.width + 2) }
    ensures capacity { vec_capacity text.new ≡ vec_capacity text.old }
{
    if value.width() == 1 {
        text.push_reserved(value.bin_digit(0));
    } else {
        text.push_reserved(b'b');
        put_digits(text, value);
        text.push_reserved(b' ');
    }
}

// Adds all binary digits of a value.
fn put_digits(text: &mut Vec<u8>, value: Bits)
    requires { vec_len text.old + value.width ≤ vec_capacity text.old }
    ensures items { text.new.items ≡ text.old.items ++ digits_of value.width value }
    ensures room { vec_len text.new ≡ vec_len text.old + value.width }
    ensures capacity { vec_capacity text.new ≡ vec_capacity text.old }
{
    let mut left = value.width();
    'digits: while left > 0 {
        left -= 1;
        text.push_reserved(value.bin_digit(left));
    }
}
