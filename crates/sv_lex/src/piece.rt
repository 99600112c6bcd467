//! What stands at the front of the bytes, found by one walk over them.

ghost use Rattle.std.specs.Prelude.{map, ◌≡◌, ◌==◌, ◌&&◌, ◌<◌, ◌≤◌, ◌+◌, ◌^◌, ◌∷◌, length};
ghost use Rattle.sv_lex.specs.Spelling as spelling;
ghost use Rattle.sv_lex.specs.Scan as spec;
ghost use Rattle.sv_lex.specs.Cut as cut;

use crate::table::{MARKS_1, MARKS_2, MARKS_3, WORDS};
use sv_tree::TokenKind;

/// What is wrong at a place where no token, blank or comment stands.
#[derive(Clone, Copy, Debug, PartialEq, Eq)]
pub enum Defect {
    /// A byte at which nothing begins.
    BadChar,
    /// A `/*` that no `*/` closes.
    OpenComment,
    /// A `"` that no `"` on its line closes.
    OpenString,
}

/// What stands at the front of some bytes.
#[derive(Clone, Copy, Debug, PartialEq, Eq)]
pub enum Piece {
    /// A blank or a comment of so many bytes.
    Skipped(usize),
    /// A token of this kind and so many bytes.
    Spelled(TokenKind, usize),
    /// Neither.
    Wrong(Defect),
}

/// A class of bytes of which a token or a comment is a run.
#[derive(Clone, Copy, Debug)]
enum Class {
    Named,
    Decimal,
    Based,
    Line,
}

fn is_letter(b: u8) -> bool
    ensures { result ≡ spelling.is_letter b }
{
    b.is_ascii_alphabetic() || b == b'_'
}

fn is_in(class: Class, b: u8) -> bool
    ensures { result ≡ spec.is_in class b }
{
    match class {
        Class::Named => is_letter(b) || b.is_ascii_digit() || b == b'$',
        Class::Decimal => b.is_ascii_digit() || b == b'_',
        Class::Based => {
            b.is_ascii_digit()
                || (b'a' <= b && b <= b'f')
                || (b'A' <= b && b <= b'F')
                || b == b'x'
                || b == b'z'
                || b == b'X'
                || b == b'Z'
                || b == b'?'
                || b == b'_'
        }
        Class::Line => b != b'\n',
    }
}

fn is_base(b: u8) -> bool
    ensures { result ≡ spelling.is_base b }
{
    b == b'b'
        || b == b'o'
        || b == b'd'
        || b == b'h'
        || b == b'B'
        || b == b'O'
        || b == b'D'
        || b == b'H'
}

fn is_blank(b: u8) -> bool
    ensures { result ≡ spelling.is_blank b }
{
    b == b' ' || b == b'\t' || b == b'\n' || b == b'\r' || b == 12
}

/// How many bytes at the front are of the class.
fn run(class: Class, z: &[u8]) -> usize
    ensures value { result ≡ spec.run class z.now }
    ensures within { result ≤ length z.now }
{
    let mut count = 0;
    while count < z.len() && is_in(class, z[count]) {
        count += 1;
    }
    count
}

fn has_text(mut table: &[&[u8]], text: &[u8]) -> bool
    ensures { result ≡ spelling.has_text (map (λ w. w.now) table.entry.now) text.now }
{
    while let [word, more @ ..] = table {
        if *word == text {
            return true;
        }
        table = more;
    }
    false
}

/// Whether the name is a reserved word: most of them differ from it in length.
#[tactic(auto, unfolding(crate::specs::Spelling::is_word))]
fn is_word(text: &[u8]) -> bool
    ensures { result ≡ spelling.is_word text.now }
{
    has_text(&WORDS, text)
}

#[tactic(auto, unfolding(crate::specs::Spelling::is_mark_1))]
fn is_mark_1(a: u8) -> bool
    ensures { result ≡ spelling.is_mark_1 a }
{
    MARKS_1.contains(&a)
}

fn is_pair(x: u8, y: u8, a: u8, b: u8) -> bool
    ensures { result ≡ (x == a && y == b) }
{
    x == a && y == b
}

fn is_triple(x: u8, y: u8, z: u8, a: u8, b: u8, c: u8) -> bool
    ensures { result ≡ (x == a && y == b && z == c) }
{
    x == a && y == b && z == c
}

fn has_pair(mut table: &[u8], a: u8, b: u8) -> bool
    ensures { result ≡ spelling.has_pair table.entry.now a b }
{
    while let [x, y, more @ ..] = table {
        if is_pair(*x, *y, a, b) {
            return true;
        }
        table = more;
    }
    false
}

fn has_triple(mut table: &[u8], a: u8, b: u8, c: u8) -> bool
    ensures { result ≡ spelling.has_triple table.entry.now a b c }
{
    while let [x, y, z, more @ ..] = table {
        if is_triple(*x, *y, *z, a, b, c) {
            return true;
        }
        table = more;
    }
    false
}

#[tactic(auto, unfolding(crate::specs::Spelling::is_mark_2))]
fn is_mark_2(a: u8, b: u8) -> bool
    ensures { result ≡ spelling.is_mark_2 a b }
{
    has_pair(MARKS_2, a, b)
}

#[tactic(auto, unfolding(crate::specs::Spelling::is_mark_3))]
fn is_mark_3(a: u8, b: u8, c: u8) -> bool
    ensures { result ≡ spelling.is_mark_3 a b c }
{
    has_triple(MARKS_3, a, b, c)
}

/// A name or a reserved word.
fn word(z: &[u8]) -> Piece
    ensures { result ≡ spec.word z.now }
{
    let [_, rest @ ..] = z else {
        return Piece::Wrong(Defect::BadChar);
    };
    let len = run(Class::Named, rest) + 1;
    let kind = if is_word(&z[..len]) {
        TokenKind::Word
    } else {
        TokenKind::Name
    };
    Piece::Spelled(kind, len)
}

/// A name after a `$` or a backquote.
fn marked(kind: TokenKind, z: &[u8]) -> Piece
    requires { length z.now < 2 ^ 32 }
    ensures { result ≡ spec.marked kind z.now }
{
    let [b, rest @ ..] = z else {
        return Piece::Wrong(Defect::BadChar);
    };
    if is_letter(*b) {
        Piece::Spelled(kind, run(Class::Named, rest) + 2)
    } else {
        Piece::Wrong(Defect::BadChar)
    }
}

/// A base and its digits, after so many bytes of the token.
fn based(before: usize, z: &[u8]) -> Piece
    requires short { length z.now < 2 ^ 32 }
    requires few { before ≤ 2 }
    ensures { result ≡ spec.based before z.now }
{
    let [b, rest @ ..] = z else {
        return Piece::Wrong(Defect::BadChar);
    };
    if is_base(*b) {
        Piece::Spelled(TokenKind::Based, run(Class::Based, rest) + (before + 1))
    } else {
        Piece::Wrong(Defect::BadChar)
    }
}

/// What follows a `'`.
fn quoted(z: &[u8]) -> Piece
    requires { length z.now < 2 ^ 32 }
    ensures { result ≡ spec.quoted z.now }
{
    let [b, rest @ ..] = z else {
        return Piece::Wrong(Defect::BadChar);
    };
    if *b == b'0' || *b == b'1' {
        Piece::Spelled(TokenKind::Fill, 2)
    } else if *b == b's' || *b == b'S' {
        based(2, rest)
    } else {
        based(1, z)
    }
}

/// The length of the string whose first `"` stands before the bytes.
fn closing(mut z: &[u8]) -> Option<usize>
    requires { length z.now < 2 ^ 32 }
    ensures { result ≡ spec.closing 1 0 z.entry.now }
{
    let mut count = 1;
    let mut before = 0;
    while let [b, rest @ ..] = z {
        if *b == b'\n' {
            return None;
        }
        if *b == b'"' && before != b'\\' {
            return Some(count + 1);
        }
        count += 1;
        before = *b;
        z = rest;
    }
    None
}

/// The length of the comment whose `/*` stands before the bytes.
fn comment_end(mut z: &[u8]) -> Option<usize>
    requires { length z.now < 2 ^ 32 }
    ensures { result ≡ spec.comment_end 2 z.entry.now }
{
    let mut count = 2;
    while let [b, rest @ ..] = z {
        let [c, ..] = rest else {
            return None;
        };
        if *b == b'*' && *c == b'/' {
            return Some(count + 2);
        }
        count += 1;
        z = rest;
    }
    None
}

/// The length of the longest mark at the front, or 0.
fn mark_len(z: &[u8]) -> usize
    ensures { result ≡ spec.mark_len z.now }
{
    if let [a, b, c, ..] = z {
        if is_mark_3(*a, *b, *c) {
            return 3;
        }
    }
    if let [a, b, ..] = z {
        if is_mark_2(*a, *b) {
            return 2;
        }
    }
    if let [a, ..] = z {
        if is_mark_1(*a) {
            return 1;
        }
    }
    0
}

fn mark(z: &[u8]) -> Piece
    ensures { result ≡ spec.mark z.now }
{
    match mark_len(z) {
        0 => Piece::Wrong(Defect::BadChar),
        len => Piece::Spelled(TokenKind::Mark, len),
    }
}

/// A comment or a mark; the slash stands before `rest`.
fn slash(z: &[u8], rest: &[u8]) -> Piece
    requires short { length z.now < 2 ^ 32 }
    requires front { z.now ≡ 47 ∷ rest.now }
    ensures { result ≡ spec.slash rest.now }
{
    match rest {
        [b'/', line @ ..] => Piece::Skipped(run(Class::Line, line) + 2),
        [b'*', comment @ ..] => match comment_end(comment) {
            Some(len) => Piece::Skipped(len),
            None => Piece::Wrong(Defect::OpenComment),
        },
        _ => mark(z),
    }
}

#[tactic(auto, unfolding(crate::specs::Scan::scan))]
fn scan(z: &[u8]) -> Piece
    requires { length z.now < 2 ^ 32 }
    ensures { result ≡ spec.scan z.now }
{
    let [b, rest @ ..] = z else {
        return Piece::Wrong(Defect::BadChar);
    };
    if is_letter(*b) {
        return word(z);
    }
    if b.is_ascii_digit() {
        return Piece::Spelled(TokenKind::Decimal, run(Class::Decimal, rest) + 1);
    }
    if is_blank(*b) {
        return Piece::Skipped(1);
    }
    match *b {
        b'\'' => quoted(rest),
        b'"' => match closing(rest) {
            Some(len) => Piece::Spelled(TokenKind::Text, len),
            None => Piece::Wrong(Defect::OpenString),
        },
        b'$' => marked(TokenKind::System, rest),
        b'`' => marked(TokenKind::Directive, rest),
        b'/' => slash(z, rest),
        _ => mark(z),
    }
}

/// What stands at the front: the longest token, blank or comment, or the defect; a `BadChar` where
/// there is no byte.
pub fn front(bytes: &[u8]) -> Piece
    requires { length bytes.now < 2 ^ 32 }
    ensures value { result ≡ cut.front bytes.now }
    ensures within { cut.Within bytes.now result }
{
    scan(bytes)
}
