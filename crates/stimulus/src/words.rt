// The lines of a text, and the words of a line, from the front on.
ghost use Rattle.std.specs.Prelude.{◌≡◌, ◌≤◌, ◌<◌, [], length, take_while, MatchOption};
ghost use Rattle.stimulus.specs.StimulusText.{is_space, words_of, lines_of, without_returns};
ghost use Rattle.stimulus.specs.Cuts.{is_inside, is_in_line, without_last_return, IsFirstWord, IsFirstLine};

fn is_space(c: u8) -> bool
    ensures { result ≡ is_space c }
{
    c == b' ' || c == b'\t'
}

// How many spaces and tabs there are in front.
fn space_len(bytes: &[u8]) -> usize
    ensures value { result ≡ length (take_while is_space bytes.now) }
    ensures within { result ≤ length bytes.now }
{
    bytes.iter().take_while(|c| is_space(**c)).count()
}

// How many bytes there are before the first space or tab.
fn word_len(bytes: &[u8]) -> usize
    ensures value { result ≡ length (take_while is_inside bytes.now) }
    ensures within { result ≤ length bytes.now }
{
    bytes.iter().take_while(|c| !is_space(**c)).count()
}

// How many bytes there are before the first line feed.
fn line_len(bytes: &[u8]) -> usize
    ensures value { result ≡ length (take_while is_in_line bytes.now) }
    ensures within { result ≤ length bytes.now }
{
    bytes.iter().take_while(|c| **c != b'\n').count()
}

const RETURN: &[u8] = b"\r";

// A line without the carriage return at its end.
fn trim_return(line: &[u8]) -> &[u8]
    ensures { result.now ≡ without_last_return line.now }
{
    match line.strip_suffix(RETURN) {
        Some(front) => front,
        None => line,
    }
}

/// The first word of a line and what follows it, if it has a word.
pub fn next_word(line: &[u8]) -> Option<(&[u8], &[u8])>
    ensures { MatchOption result (words_of line.now ≡ []) (λ p. IsFirstWord line.now p.0.now p.1.now) }
{
    let (_, after) = line.split_at(space_len(line));
    if after.len() == 0 {
        return None;
    }
    Some(after.split_at(word_len(after)))
}

/// The first line of a text and what follows it, if the text has a line.
pub fn next_line(text: &[u8]) -> Option<(&[u8], &[u8])>
    ensures { MatchOption result (lines_of (without_returns text.now) ≡ []) (λ p. IsFirstLine text.now p.0.now p.1.now) }
{
    if text.len() == 0 {
        return None;
    }
    let (line, after) = text.split_at(line_len(text));
    match after {
        [_, rest @ ..] => Some((trim_return(line), rest)),
        [] => Some((line, after)),
    }
}
