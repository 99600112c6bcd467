//! The tokens that are read, and taking one of them.

ghost use Rattle.std.specs.Prelude.{◌≡◌, ◌≤◌, ◌+◌, ℕ, length, IfOk, OnOk, IfErr, MatchOption, true, ◌⊎◌, false};
ghost use Rattle.sv_tree.specs.Symbol.{same};
ghost use Rattle.sv_tree.specs.Tokens.{AreNamed};
ghost use Rattle.parse_expr.specs.Input.{Takes, TakesThe, IsAnother, symbol_at, number};

use crate::fault::ParseFault;
use sqlite_items as items;
use std::alloc::Global;
use std::marker::Model;
use sv_tree::{Names, Symbol, Token, symbol_of};
use vs_base::limits::DEPTH;

/// A token, and what it is to the grammar.
#[derive(Clone, Copy, Debug)]
pub struct Lexeme {
    token: Token,
    symbol: Symbol,
}

/// The tokens that are read, each looked up once; contracts see the tokens and the table of names.
/// A place is the number of a token, or at the end the count of them.
#[derive(Drop)]
pub struct Source<'a> {
    alloc: Global,
    names: &'a Names,
    lexemes: Vec<Lexeme>,
}

impl<'a> Model for Source<'a> {
    ghost use Rattle.std.specs.Prelude.{map};
    ghost use Rattle.parse_expr.specs.Input.{Input};
    ghost use Rattle.parse_expr.specs.Lexemes.{AreSymbols};

    ghost Value = { Input };

    ghost view = { λ s. record { names = s.names.now; tokens = map (λ l. l.token) s.lexemes.items } };

    ghost invariant = { λ s. AreSymbols s.names.now s.lexemes.items };
}

impl<'a> Source<'a> {
    /// Looks up each token.
    ///
    /// `NoMemory`: there was none left.
    pub fn new(alloc: Global, tokens: &[Token], names: &'a Names) -> Result<Source<'a>, ParseFault>
        requires { AreNamed names.now tokens.now }
        ensures value { IfOk result (λ s. s ≡ record { names = names.now; tokens = tokens.now }) }
        ensures fault { IfErr result (λ f. f ≡ ParseFault.NoMemory) }
    {
        let mut lexemes = Vec::new(alloc);
        for token in tokens {
            let symbol = symbol_of(names, *token);
            let lexeme = Lexeme {
                token: *token,
                symbol,
            };
            let Ok(()) = lexemes.push(lexeme) else {
                return Err(ParseFault::NoMemory);
            };
        }
        Ok(Source {
            alloc,
            names,
            lexemes,
        })
    }

    /// Where a tree's lists and boxes are made.
    pub fn alloc(&self) -> Global {
        self.alloc
    }

    /// How many tokens there are.
    pub fn len(&self) -> usize
        ensures { result ≡ length self.now.tokens }
    {
        self.lexemes.len()
    }

    /// What the token at a place is; `Other` at the end.
    pub fn peek(&self, at: usize) -> Symbol
        ensures { result ≡ symbol_at self.now at }
    {
        match items::at(self.lexemes.as_slice(), at) {
            Some(lexeme) => lexeme.symbol,
            None => Symbol::Other,
        }
    }

    /// Whether the token at a place is the symbol.
    pub fn sees(&self, at: usize, symbol: Symbol) -> bool
        ensures { result ≡ same symbol (symbol_at self.now at) }
    {
        self.peek(at) == symbol
    }

    /// Takes the token at a place, whatever it is.
    ///
    /// `Syntax`: there is none.
    pub fn take(&self, at: &mut usize) -> Result<Token, ParseFault>
        requires { at.old ≤ length self.now.tokens }
        ensures token { IfOk result (λ t. Takes self.now at.old at.new t) }
        ensures fault { IfErr result (λ f. (f ≡ ParseFault.Syntax (number at.old)) × (at.new ≡ at.old) × (at.old ≡ length self.now.tokens)) }
    {
        match items::at(self.lexemes.as_slice(), *at) {
            Some(lexeme) => {
                *at += 1;
                Ok(lexeme.token)
            }
            None => Err(syntax(*at)),
        }
    }

    /// Takes the token at a place, which has to be the symbol.
    ///
    /// `Syntax`: it is another, or there is none.
    pub fn expect(&self, at: &mut usize, symbol: Symbol) -> Result<Token, ParseFault>
        requires { at.old ≤ length self.now.tokens }
        ensures token { IfOk result (λ t. TakesThe self.now symbol at.old at.new t) }
        ensures fault { IfErr result (λ f. (f ≡ ParseFault.Syntax (number at.old)) × (at.new ≡ at.old) × IsAnother self.now symbol at.old) }
    {
        if !self.sees(*at, symbol) {
            return Err(syntax(*at));
        }
        self.take(at)
    }

    /// Takes the token at a place where it is the symbol.
    pub fn take_if(&self, at: &mut usize, symbol: Symbol) -> Option<Token>
        requires { at.old ≤ length self.now.tokens }
        ensures { MatchOption result
            ((at.new ≡ at.old) × IsAnother self.now symbol at.old)
            (λ t. TakesThe self.now symbol at.old at.new t) }
    {
        match self.expect(at, symbol) {
            Ok(token) => Some(token),
            Err(_) => None,
        }
    }
}

/// Nothing goes on with the token at a place.
pub fn syntax(at: usize) -> ParseFault
    ensures { result ≡ ParseFault.Syntax (number at) }
{
    ParseFault::Syntax(u32::try_from(at).unwrap_or(u32::MAX))
}

/// The depth in one thing more, whose first token stands at a place. It is asked where the token
/// may begin the thing, so that a token that may not is no matter of depth.
///
/// `TooDeep`: that is more than 128.
pub fn inside(at: usize, depth: u32) -> Result<u32, ParseFault>
    requires { depth ≤ 128 }
    ensures inner { IfOk result (λ inner. (inner ≡ depth + 1) × (inner ≤ 128)) }
    ensures fault { IfErr result (λ f. (f ≡ ParseFault.TooDeep (number at)) × (depth ≡ 128)) }
{
    if depth >= DEPTH {
        return Err(ParseFault::TooDeep(u32::try_from(at).unwrap_or(u32::MAX)));
    }
    Ok(depth + 1)
}

/// Takes the first token of a thing that counts for depth, which stands in so many things itself.
///
/// `Syntax`: it is not the symbol. `TooDeep`: it is, and stands in more than 128 things.
pub fn enter(
    source: &Source<'_>,
    at: &mut usize,
    depth: u32,
    symbol: Symbol,
) -> Result<Token, ParseFault>
    requires deep { depth ≤ 128 }
    requires within { at.old ≤ length source.now.tokens }
    ensures token { IfOk result (λ t. TakesThe source.now symbol at.old at.new t) }
    ensures deep { OnOk result (depth + 1 ≤ 128) }
    ensures fault { IfErr result (λ f. ((f ≡ ParseFault.Syntax (number at.old)) × IsAnother source.now symbol at.old)
        ⊎ ((f ≡ ParseFault.TooDeep (number at.old)) × (depth ≡ 128) × (same symbol (symbol_at source.now at.old) ≡ true))) }
{
    if !source.sees(*at, symbol) {
        return Err(syntax(*at));
    }
    inside(*at, depth)?;
    source.expect(at, symbol)
}
