// The values of options that are no names.
ghost use Rattle.std.specs.Prelude.{◌≡◌, ◌<◌, ◌-◌, true, IfSome, SomeIff};
ghost use Rattle.std.specs.Option.{option_map};
ghost use Rattle.vsim_words.specs.Settings.{is_digit, is_number, mode_of, number_in, number_within, threads_of};

use dpi_host::Mode;

// The greatest number of threads, so far.
const MOST_THREADS: u32 = 1;

fn digit(c: u8) -> Option<u8>
    ensures digit { SomeIff result (is_digit c ≡ true) (c - 48) }
    ensures small { IfSome result (λ d. d < 10) }
{
    match c {
        b'0'..=b'9' => Some(c - 48),
        _ => None,
    }
}

// The number that one to nine decimal digits write.
fn number(text: &[u8]) -> Option<u32>
    ensures { SomeIff result (is_number text.now ≡ true) (number_in text.now) }
{
    if text.len() == 0 || text.len() > 9 {
        return None;
    }
    let mut value = 0u32;
    let mut rest = text;
    'digits: while let [c, more @ ..] = rest {
        let Some(d) = digit(*c) else {
            return None;
        };
        value = value * 10 + u32::from(d);
        rest = more;
    }
    Some(value)
}

// The number, where it is from `least` to `most`.
fn number_within(least: u32, most: u32, text: &[u8]) -> Option<u32>
    ensures { result ≡ number_within least most text.now }
{
    match number(text) {
        Some(n) if least <= n && n <= most => Some(n),
        _ => None,
    }
}

/// How many threads run the design: one where no number stands. `None`: no such number.
pub fn threads(text: Option<&str>) -> Option<u32>
    ensures { result ≡ threads_of (option_map (λ s. s.now) text.entry) }
{
    match text {
        Some(text) => number_within(1, MOST_THREADS, text.as_bytes()),
        None => Some(1),
    }
}

/// Which imports are taken as safe: those declared pure where nothing stands. `None`: no such mode.
pub fn mode(text: Option<&str>) -> Option<Mode>
    ensures { result ≡ mode_of (option_map (λ s. s.now) text.entry) }
{
    match text {
        Some("all") => Some(Mode::All),
        Some("pure") | None => Some(Mode::Pure),
        Some("none") => Some(Mode::None),
        Some(_) => None,
    }
}
