//! The tokens of a file.

ghost use Rattle.std.specs.Prelude.{◌≡◌, ◌<◌, ◌≤◌, ◌+◌, ◌-◌, ◌^◌, ◌∷◌, ◌++◌, [], length, IfOk, OnOk, IfErr, ◌⊎◌, Some, ℕ};
ghost use Rattle.sv_tree.specs.Names.{Grows};
ghost use Rattle.sv_tree.specs.Tokens.{AreNamed};
ghost use Rattle.sv_tree.specs.declared.token.Token.{Token};
ghost use Rattle.sv_lex.specs.Cut as spec;
ghost use Rattle.sv_lex.specs.Answer.{Shows, LexesTo, FaultIs};

use crate::piece::{Defect, Piece, front};
use std::alloc::Global;
use sv_tree::{Names, Token, TokenKind};
use thiserror::Error;
use vs_base::Origin;
use vs_base::limits::TOKENS;

/// Why a file has no tokens.
#[derive(Clone, Copy, Debug, PartialEq, Eq, Error)]
pub enum LexFault {
    /// A byte at which no token, blank or comment begins.
    #[error("bad character")]
    BadChar(Origin),
    /// A `/*` that no `*/` closes.
    #[error("open comment")]
    OpenComment(Origin),
    /// A `"` that no `"` on its line closes.
    #[error("open string")]
    OpenString(Origin),
    /// More tokens stand before the first other fault, or the end, than there may be.
    #[error("too many tokens")]
    TooMany,
    /// There was no memory left.
    #[error("out of memory")]
    NoMemory,
}

/// The place after the bytes.
fn advance(mut at: Origin, mut bytes: &[u8]) -> Origin
    requires line { at.line + length bytes.now < 2 ^ 32 }
    requires col { at.col + length bytes.now < 2 ^ 32 }
    ensures value { result ≡ spec.advance at bytes.entry.now }
    ensures line { result.line ≤ at.line + length bytes.entry.now }
    ensures col { (1 ≤ at.col → 1 ≤ result.col) × (result.col ≤ at.col + length bytes.entry.now) }
{
    while let [b, rest @ ..] = bytes {
        if *b == b'\n' {
            at.line += 1;
            at.col = 1;
        } else {
            at.col += 1;
        }
        bytes = rest;
    }
    at
}

/// The fault that a defect is.
fn fault(defect: Defect, at: Origin) -> LexFault
    ensures { (c : spec.Cut) → (most : ℕ) → c.fault ≡ Some (defect, at) → length c.tokens ≤ most → FaultIs most result c }
{
    match defect {
        Defect::BadChar => LexFault::BadChar(at),
        Defect::OpenComment => LexFault::OpenComment(at),
        Defect::OpenString => LexFault::OpenString(at),
    }
}

/// Puts a token after the others, of which there may be so many.
fn keep(
    alloc: Global,
    names: &mut Names,
    tokens: &mut Vec<Token>,
    most: usize,
    kind: TokenKind,
    text: &[u8],
    at: Origin,
) -> Result<(), LexFault>
    ensures grows { Grows names.old names.new }
    ensures kept { OnOk result ((t : Token) × (tokens.new.items ≡ tokens.old.items ++ t ∷ []) × Shows names.new t (record { kind = kind; text = text.now; at = at })) }
    ensures room { OnOk result (length tokens.new.items ≤ most) }
    ensures fault { IfErr result (λ e. (e ≡ LexFault.NoMemory) ⊎ ((e ≡ LexFault.TooMany) × (most ≤ length tokens.old.items))) }
{
    if tokens.len() >= most {
        return Err(LexFault::TooMany);
    }
    let Ok(name) = names.intern(alloc, text) else {
        return Err(LexFault::NoMemory);
    };
    let Ok(()) = tokens.push(Token { kind, name, at }) else {
        return Err(LexFault::NoMemory);
    };
    Ok(())
}

/// The tokens of a file, at most 1,000,000: the cut of its bytes (IEEE 1800-2017 clause 5).
///
/// `file` is the number that the tokens' places have. Whatever the answer is, the table keeps its
/// names under their numbers, and may have got further ones.
///
/// `BadChar`, `OpenComment`, `OpenString`: the first defect of the bytes, with its place, where at
/// most 1,000,000 tokens stand before it. `TooMany`: 1,000,001 tokens stand before the first
/// defect or the end. `NoMemory`: there was none left.
pub fn lex(
    alloc: Global,
    file: u32,
    bytes: &[u8],
    names: &mut Names,
) -> Result<Vec<Token>, LexFault>
    requires { length bytes.now < 2 ^ 32 - 1 }
    ensures grows { Grows names.old names.new }
    ensures tokens { IfOk result (λ tokens. LexesTo 1000000 names.new tokens.items (spec.cut (spec.start file) bytes.now)) }
    ensures named { IfOk result (λ tokens. AreNamed names.new tokens.items) }
    ensures fault { IfErr result (λ e. FaultIs 1000000 e (spec.cut (spec.start file) bytes.now)) }
{
    lex_up_to(alloc, file, bytes, names, TOKENS)
}

/// As [`lex`], with the greatest number of tokens as an argument.
pub fn lex_up_to(
    alloc: Global,
    file: u32,
    bytes: &[u8],
    names: &mut Names,
    most: usize,
) -> Result<Vec<Token>, LexFault>
    requires { length bytes.now < 2 ^ 32 - 1 }
    ensures grows { Grows names.old names.new }
    ensures tokens { IfOk result (λ tokens. LexesTo most names.new tokens.items (spec.cut (spec.start file) bytes.now)) }
    ensures named { IfOk result (λ tokens. AreNamed names.new tokens.items) }
    ensures fault { IfErr result (λ e. FaultIs most e (spec.cut (spec.start file) bytes.now)) }
{
    let mut tokens = Vec::new(alloc);
    let mut at = Origin {
        file,
        line: 1,
        col: 1,
    };
    let mut rest = bytes;
    while rest.len() > 0 {
        let len = match front(rest) {
            Piece::Wrong(defect) => return Err(fault(defect, at)),
            Piece::Skipped(len) => len,
            Piece::Spelled(kind, len) => {
                if let Err(refused) = keep(
                    alloc,
                    names,
                    &mut tokens,
                    most,
                    kind,
                    &rest[..len],
                    at,
                ) {
                    return Err(refused);
                }
                len
            }
        };
        at = advance(at, &rest[..len]);
        rest = &rest[len..];
    }
    Ok(tokens)
}
