//! Numbers in texts, written into room that is there.
ghost use Rattle.std.specs.Prelude.{◌≡◌, ◌≤◌, ◌+◌, ◌/◌, ◌++◌, length, decimal, vec_len, vec_capacity};
ghost use Rattle.sim_session.specs.Lines.{hex_of, hex_text};

use itoa::Buffer;
use vs_base::Bits;

/// The greatest number of digits of a number of 64 bits.
pub const DECIMAL_BYTES: usize = 20;

// A quarter of a width, rounded up.
fn digit_count(width: u32) -> u32
    ensures { result ≡ (width + 3) / 4 }
{
    width.div_ceil(4)
}

// Adds the last digits, the highest of them first.
fn put_digits(text: &mut Vec<u8>, digits: u32, value: Bits)
    requires { vec_len text.old + digits ≤ vec_capacity text.old }
    ensures items { text.new.items ≡ text.old.items ++ hex_of digits value }
    ensures room { vec_len text.new ≤ vec_len text.old + digits }
    ensures capacity { vec_capacity text.old ≤ vec_capacity text.new }
{
    let mut left = digits;
    'digits: while left > 0 {
        left -= 1;
        text.push_reserved(value.hex_digit(left));
    }
}

/// Adds a value in hexadecimal.
pub fn put_hex(text: &mut Vec<u8>, value: Bits)
    requires { vec_len text.old + (value.width + 3) / 4 ≤ vec_capacity text.old }
    ensures items { text.new.items ≡ text.old.items ++ hex_text value }
    ensures room { vec_len text.new ≤ vec_len text.old + (value.width + 3) / 4 }
    ensures capacity { vec_capacity text.old ≤ vec_capacity text.new }
{
    put_digits(text, digit_count(value.width()), value);
}

/// Adds a number in decimal.
pub fn put_decimal(text: &mut Vec<u8>, number: u64)
    requires { vec_len text.old + DECIMAL_BYTES ≤ vec_capacity text.old }
    ensures items { text.new.items ≡ text.old.items ++ decimal number }
    ensures room { vec_len text.new ≤ vec_len text.old + DECIMAL_BYTES }
    ensures capacity { vec_capacity text.old ≤ vec_capacity text.new }
{
    let mut buffer = Buffer::new();
    put_bytes(text, buffer.format(number).as_bytes());
}

/// Adds bytes.
pub fn put_bytes(text: &mut Vec<u8>, bytes: &[u8])
    requires { vec_len text.old + length bytes.now ≤ vec_capacity text.old }
    ensures items { text.new.items ≡ text.old.items ++ bytes.now }
    ensures room { vec_len text.new ≤ vec_len text.old + length bytes.now }
    ensures capacity { vec_capacity text.old ≤ vec_capacity text.new }
{
    let _ = text.extend_from_slice(bytes);
}
