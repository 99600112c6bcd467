ghost use Rattle.std.specs.Prelude.{◌≡◌, [], ◌∷◌, Some, None, MatchResult};
ghost use Rattle.sv_tree.specs.Printed.{Appends};

use crate::names::NoMemory;
use crate::token::Token;
use std::alloc::Global;
use std::marker::Model;

/// The tokens printed so far, or nothing from where memory ran out on: a walk then goes on to its
/// end, and needs no test after each token.
#[derive(Drop)]
pub struct Printer {
    tokens: Vec<Token>,
    failed: bool,
}

impl Model for Printer {
    ghost use Rattle.std.specs.Prelude.{Option, List, Some, None, if◌then◌else◌};
    ghost use Rattle.sv_tree.specs.declared.token.Token.{Token};

    ghost Value = { Option (List Token) };

    ghost view = { λ p. if p.failed then None else Some p.tokens.items };
}

impl Printer {
    /// Nothing is printed.
    pub fn new(alloc: Global) -> Printer
        ensures { result ≡ Some [] }
    {
        Printer {
            tokens: Vec::new(alloc),
            failed: false,
        }
    }

    /// Prints a token.
    pub fn push(&mut self, token: Token)
        ensures { Appends self.old (λ r. token ∷ r) self.new }
    {
        if !self.failed {
            self.failed = self.tokens.push(token).is_err();
        }
    }

    /// The tokens, where there was memory for all of them.
    pub fn into_tokens(self) -> Result<Vec<Token>, NoMemory>
        ensures { MatchResult result (λ tokens. self ≡ Some tokens.items) (λ fault. self ≡ None) }
    {
        let Printer { tokens, failed } = self;
        if failed {
            return Err(NoMemory);
        }
        Ok(tokens)
    }
}
