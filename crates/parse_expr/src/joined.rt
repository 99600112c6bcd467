//! Operators of one level and chains of `?:`, made of the operands that were read.

ghost use Rattle.std.specs.Prelude.{◌≡◌, ◌≤◌, ◌+◌, length, IfOk, OnOk, IfErr};
ghost use Rattle.parse_expr.specs.Input.{TakesThe};
ghost use Rattle.parse_expr.specs.Made as made;
ghost use Rattle.parse_expr.specs.Made.{Closes};
ghost use Rattle.parse_expr.specs.Parsed.{IsWithin};

use crate::class::begins_expr;
use crate::fault::ParseFault;
use crate::memory::boxed;
use crate::source::{Source, inside, syntax};
use sqlite_items::Items;
use std::alloc::Global;
use sv_tree::{Choice, Expr, Step, Symbol, Token};

/// Operands of one level: the first, and further ones, each after its operator.
pub fn levelled(alloc: Global, first: Expr, more: Items<Step>) -> Result<Expr, ParseFault>
    ensures made { IfOk result (λ e. e ≡ made.levelled first more) }
    ensures fault { IfErr result (λ f. f ≡ ParseFault.NoMemory) }
{
    if more.is_empty() {
        return Ok(first);
    }
    let first = boxed(alloc, first)?;
    Ok(Expr::Level { first, more })
}

/// Takes the `?` before the middle operand, which stands in one thing more.
pub fn question(source: &Source<'_>, at: &mut usize, depth: u32) -> Result<Token, ParseFault>
    requires deep { depth ≤ 128 }
    requires within { at.old ≤ length source.now.tokens }
    ensures token { IfOk result (λ t. TakesThe source.now Symbol.Question at.old at.new t) }
    ensures deep { OnOk result (depth + 1 ≤ 128) }
    ensures fault { IfErr result (λ f. IsWithin source.now f) }
{
    let mark = source.expect(at, Symbol::Question)?;
    if !begins_expr(source.peek(*at)) {
        return Err(syntax(*at));
    }
    inside(*at, depth)?;
    Ok(mark)
}

/// Takes the `:` after the middle operand.
pub fn choice(
    source: &Source<'_>,
    at: &mut usize,
    test: Expr,
    question: Token,
    value: Expr,
) -> Result<Choice, ParseFault>
    requires { at.old ≤ length source.now.tokens }
    ensures made { IfOk result (λ c. Closes source.now Symbol.Colon at.old at.new (λ t. record { test = test; question = question; value = value; colon = t }) c) }
    ensures fault { IfErr result (λ f. IsWithin source.now f) }
{
    let colon = source.expect(at, Symbol::Colon)?;
    Ok(Choice {
        test,
        question,
        value,
        colon,
    })
}

/// The tests of a chain of `?:` with their values, and the value where none holds.
pub fn choose(alloc: Global, choices: Items<Choice>, last: Expr) -> Result<Expr, ParseFault>
    ensures made { IfOk result (λ e. e ≡ made.chosen choices last) }
    ensures fault { IfErr result (λ f. f ≡ ParseFault.NoMemory) }
{
    if choices.is_empty() {
        return Ok(last);
    }
    let last = boxed(alloc, last)?;
    Ok(Expr::Choose { choices, last })
}
