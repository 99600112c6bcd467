//! Tokens outside the subset.

ghost use Rattle.std.specs.Prelude.{◌≡◌, ◌<◌, ℕ, length, map, true, false, MatchOption};
ghost use Rattle.sv_tree.specs.Tokens.{AreNamed};
ghost use Rattle.parse_expr.specs.Outside as spec;

use sv_tree::{Names, Token, TokenKind};

/// The reserved words that the subset has not (IEEE 1800-2017 Annex B).
const WORDS: [&[u8]; 64] = [
    b"initial",
    b"final",
    b"inout",
    b"always_latch",
    b"task",
    b"endtask",
    b"casex",
    b"casez",
    b"unique",
    b"unique0",
    b"priority",
    b"automatic",
    b"static",
    b"const",
    b"ref",
    b"iff",
    b"inside",
    b"do",
    b"while",
    b"repeat",
    b"forever",
    b"foreach",
    b"break",
    b"continue",
    b"return",
    b"wait",
    b"disable",
    b"fork",
    b"join",
    b"assert",
    b"assume",
    b"cover",
    b"property",
    b"sequence",
    b"defparam",
    b"specify",
    b"primitive",
    b"class",
    b"interface",
    b"package",
    b"program",
    b"modport",
    b"typedef",
    b"enum",
    b"struct",
    b"union",
    b"string",
    b"real",
    b"shortreal",
    b"realtime",
    b"time",
    b"event",
    b"tri",
    b"wand",
    b"wor",
    b"supply0",
    b"supply1",
    b"and",
    b"nand",
    b"nor",
    b"xor",
    b"xnor",
    b"not",
    b"buf",
];

/// The marks that the subset has not.
const MARKS: [&[u8]; 8] = [b"**", b"->", b"*=", b"/=", b"%=", b"&=", b"|=", b"^="];

/// The system functions that the subset has (IEEE 1800-2017 20.8.1, 20.5).
const FUNCTIONS: [&[u8]; 3] = [b"$clog2", b"$signed", b"$unsigned"];

/// Whether a table has a text.
fn has(mut table: &[&[u8]], text: &[u8]) -> bool
    ensures { result ≡ spec.has (map (λ x. x.now) table.entry.now) text.now }
{
    while let [spelled, more @ ..] = table {
        if *spelled == text {
            return true;
        }
        table = more;
    }
    false
}

#[tactic(auto, unfolding(crate::specs::Outside::words))]
fn is_word(text: &[u8]) -> bool
    ensures { result ≡ spec.has spec.words text.now }
{
    has(&WORDS, text)
}

#[tactic(auto, unfolding(crate::specs::Outside::marks))]
fn is_mark(text: &[u8]) -> bool
    ensures { result ≡ spec.has spec.marks text.now }
{
    has(&MARKS, text)
}

#[tactic(auto, unfolding(crate::specs::Outside::functions))]
fn is_function(text: &[u8]) -> bool
    ensures { result ≡ spec.has spec.functions text.now }
{
    has(&FUNCTIONS, text)
}

/// Whether a token is outside of the subset by its spelling alone.
fn is_outside(names: &Names, token: Token) -> bool
    requires { token.name.0 < length names.now }
    ensures { result ≡ spec.is_outside names.now token }
{
    match token.kind {
        TokenKind::Word => is_word(names.text(token.name)),
        TokenKind::Mark => is_mark(names.text(token.name)),
        TokenKind::System => !is_function(names.text(token.name)),
        _ => false,
    }
}

/// Whether a token is the mark.
fn is_the(names: &Names, token: Token, mark: &[u8]) -> bool
    requires { token.name.0 < length names.now }
    ensures { result ≡ spec.is_the mark.now names.now token }
{
    match token.kind {
        TokenKind::Mark => names.text(token.name) == mark,
        _ => false,
    }
}

/// Whether the first of the tokens is outside of the subset, by its spelling or as a `#` with no
/// `(` after it.
fn starts_outside(names: &Names, tokens: &[Token]) -> bool
    requires { AreNamed names.now tokens.now }
    ensures { result ≡ spec.starts_outside names.now tokens.now }
{
    match tokens {
        [] => false,
        [token] => is_outside(names, *token) || is_the(names, *token, b"#"),
        [token, next, ..] => {
            is_outside(names, *token) || is_the(names, *token, b"#") && !is_the(names, *next, b"(")
        }
    }
}

/// The first token that is outside of the subset.
pub fn outside(tokens: &[Token], names: &Names) -> Option<usize>
    requires { AreNamed names.now tokens.now }
    ensures first { MatchOption result
        ((k : ℕ) → spec.outside_at names.now tokens.now k ≡ false)
        (λ k. spec.IsFirstOutside names.now tokens.now k) }
{
    for at in 0..tokens.len() {
        if starts_outside(names, &tokens[at..]) {
            return Some(at);
        }
    }
    None
}
