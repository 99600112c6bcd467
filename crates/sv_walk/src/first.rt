ghost use Rattle.std.specs.Prelude.{◌≡◌, [], map, MatchOption};
ghost use Rattle.sv_tree.specs.TreeRead.{all_of};
ghost use Rattle.sv_tree.specs.TreeExpr.{expr_read, choice_read};
ghost use Rattle.sv_walk.specs.First.{BeginsWith};

use sv_tree::{Choice, Expr, Token};

/// The first token of an expression.
#[cycle(first)]
pub fn first_token(expr: &Expr) -> Token
    ensures { BeginsWith result (expr_read expr.now).text }
{
    match expr {
        Expr::Decimal(token) => *token,
        Expr::Based(token) => *token,
        Expr::Sized { size, .. } => *size,
        Expr::Fill(token) => *token,
        Expr::Name { name, .. } => *name,
        Expr::Paren { open, .. } => *open,
        Expr::Concat { open, .. } => *open,
        Expr::Repeat { open, .. } => *open,
        Expr::Call { name, .. } => *name,
        Expr::System { name, .. } => *name,
        Expr::Prefix { operators, operand } => match operators.as_slice().first() {
            Some(operator) => *operator,
            None => first_token(operand.get()),
        },
        Expr::Level { first, .. } => first_token(first.get()),
        Expr::Choose { choices, last } => match first_of(choices.as_slice()) {
            Some(token) => token,
            None => first_token(last.get()),
        },
    }
}

/// The first token of a chain of tests.
#[cycle(first)]
fn first_of(choices: &[Choice]) -> Option<Token>
    ensures { MatchOption result (choices.now ≡ []) (λ t. BeginsWith t (all_of (map choice_read choices.now))) }
{
    match choices {
        [] => None,
        [choice, ..] => Some(first_token(&choice.test)),
    }
}
