// The numbers that words write.
ghost use Rattle.std.specs.Prelude.{◌≡◌, ◌<◌, ◌-◌, true, SomeIff, IfSome};
ghost use Rattle.stimulus.specs.StimulusText.{is_digit, is_hex_digit, hex_digit_value, is_hex, hex_value, is_count, count_value};

fn hex_digit(c: u8) -> Option<u8>
    ensures digit { SomeIff result (is_hex_digit c ≡ true) (hex_digit_value c) }
    ensures small { IfSome result (λ d. d < 16) }
{
    match c {
        b'0'..=b'9' => Some(c - 48),
        b'A'..=b'F' => Some(c - 55),
        b'a'..=b'f' => Some(c - 87),
        _ => None,
    }
}

fn digit(c: u8) -> Option<u8>
    ensures digit { SomeIff result (is_digit c ≡ true) (c - 48) }
    ensures small { IfSome result (λ d. d < 10) }
{
    match c {
        b'0'..=b'9' => Some(c - 48),
        _ => None,
    }
}

/// The number that 1 to 32 hexadecimal digits of either case write; `None` at any other text.
pub fn read_hex(text: &[u8]) -> Option<u128>
    ensures { SomeIff result (is_hex text.now ≡ true) (hex_value text.now) }
{
    if text.len() == 0 || text.len() > 32 {
        return None;
    }
    let mut value = 0u128;
    let mut rest = text;
    'digits: while let [c, more @ ..] = rest {
        let Some(d) = hex_digit(*c) else {
            return None;
        };
        value = value * 16 + u128::from(d);
        rest = more;
    }
    Some(value)
}

/// The number that 1 to 7 decimal digits write; `None` at any other text.
pub fn read_count(text: &[u8]) -> Option<u32>
    ensures value { SomeIff result (is_count text.now ≡ true) (count_value text.now) }
    ensures small { IfSome result (λ count. count < 10000000) }
{
    if text.len() == 0 || text.len() > 7 {
        return None;
    }
    let mut value = 0u32;
    let mut rest = text;
    'digits: while let [c, more @ ..] = rest {
        let Some(d) = digit(*c) else {
            return None;
        };
        value = value * 10 + u32::from(d);
        rest = more;
    }
    Some(value)
}
