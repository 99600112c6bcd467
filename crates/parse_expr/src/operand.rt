//! Parts of an expression that need no further descent: literals, prefix operators, and what
//! closes a primary.

ghost use Rattle.std.specs.Prelude.{◌≡◌, ◌≤◌, length, IfOk, IfErr};
ghost use Rattle.sv_tree.specs.Symbol.{is_prefix};
ghost use Rattle.sv_tree.specs.TreeRead.{each, one_of};
ghost use Rattle.sv_tree.specs.TreeExpr as tree;
ghost use Rattle.parse_expr.specs.Made as made;
ghost use Rattle.parse_expr.specs.Made.{Closes, ClosesTwice};
ghost use Rattle.parse_expr.specs.Parsed.{Parsed, ParsedExpr, IsWithin};

use crate::class::is_prefix;
use crate::fault::ParseFault;
use crate::memory::{boxed, push};
use crate::source::{Source, syntax};
use sqlite_items::Items;
use std::alloc::Global;
use sv_tree::{Args, Expr, Select, Step, Symbol, Token};

/// Expressions with commas between them.
#[derive(Drop)]
pub struct Operands {
    /// The first one.
    pub first: Expr,
    /// The others, each after its comma.
    pub more: Items<Step>,
}

/// `DECIMAL | [ DECIMAL ] BASED | FILL`
pub fn literal(source: &Source<'_>, at: &mut usize, depth: u32) -> Result<Expr, ParseFault>
    requires deep { depth ≤ 128 }
    requires within { at.old ≤ length source.now.tokens }
    ensures reads { IfOk result (λ e. ParsedExpr source.now depth at.old at.new 0 (tree.expr_read e)) }
    ensures fault { IfErr result (λ f. IsWithin source.now f) }
{
    if let Some(size) = source.take_if(at, Symbol::Decimal) {
        if let Some(digits) = source.take_if(at, Symbol::Based) {
            return Ok(Expr::Sized { size, digits });
        }
        return Ok(Expr::Decimal(size));
    }
    if let Some(digits) = source.take_if(at, Symbol::Based) {
        return Ok(Expr::Based(digits));
    }
    let fill = source.expect(at, Symbol::Fill)?;
    Ok(Expr::Fill(fill))
}

/// Prefix operators, as many as there are.
pub fn prefixes(source: &Source<'_>, at: &mut usize, depth: u32) -> Result<Items<Token>, ParseFault>
    requires deep { depth ≤ 128 }
    requires within { at.old ≤ length source.now.tokens }
    ensures reads { IfOk result (λ ts. Parsed source.now depth at.old at.new (each (one_of is_prefix) ts)) }
    ensures fault { IfErr result (λ f. IsWithin source.now f) }
{
    let mut operators = Items::new(source.alloc());
    'operators: while is_prefix(source.peek(*at)) {
        let operator = source.take(at)?;
        push(&mut operators, operator)?;
    }
    Ok(operators)
}

/// An operand after prefix operators.
pub fn prefixed(alloc: Global, operators: Items<Token>, operand: Expr) -> Result<Expr, ParseFault>
    ensures made { IfOk result (λ e. e ≡ made.prefixed operators operand) }
    ensures fault { IfErr result (λ f. f ≡ ParseFault.NoMemory) }
{
    if operators.is_empty() {
        return Ok(operand);
    }
    let operand = boxed(alloc, operand)?;
    Ok(Expr::Prefix { operators, operand })
}

/// Closes an expression in parentheses.
pub fn paren(
    source: &Source<'_>,
    at: &mut usize,
    opening: Token,
    inner: Expr,
) -> Result<Expr, ParseFault>
    requires { at.old ≤ length source.now.tokens }
    ensures made { IfOk result (λ e. Closes source.now Symbol.ParenClose at.old at.new (λ t. Expr.Paren opening inner t) e) }
    ensures fault { IfErr result (λ f. IsWithin source.now f) }
{
    let close = source.expect(at, Symbol::ParenClose)?;
    let inner = boxed(source.alloc(), inner)?;
    Ok(Expr::Paren {
        open: opening,
        inner,
        close,
    })
}

/// Closes the call of a system function.
pub fn system_call(
    source: &Source<'_>,
    at: &mut usize,
    name: Token,
    opening: Token,
    arg: Expr,
) -> Result<Expr, ParseFault>
    requires { at.old ≤ length source.now.tokens }
    ensures made { IfOk result (λ e. Closes source.now Symbol.ParenClose at.old at.new (λ t. Expr.System name opening arg t) e) }
    ensures fault { IfErr result (λ f. IsWithin source.now f) }
{
    let close = source.expect(at, Symbol::ParenClose)?;
    let arg = boxed(source.alloc(), arg)?;
    Ok(Expr::System {
        name,
        open: opening,
        arg,
        close,
    })
}

/// Expressions with commas, as arguments.
pub fn listed(alloc: Global, operands: Operands) -> Result<Args, ParseFault>
    ensures made { IfOk result (λ x. x ≡ Args.Listed operands.first operands.more) }
    ensures fault { IfErr result (λ f. f ≡ ParseFault.NoMemory) }
{
    let Operands { first, more } = operands;
    let first = boxed(alloc, first)?;
    Ok(Args::Listed { first, more })
}

/// Closes a call.
pub fn call(
    source: &Source<'_>,
    at: &mut usize,
    name: Token,
    opening: Token,
    args: Args,
) -> Result<Expr, ParseFault>
    requires { at.old ≤ length source.now.tokens }
    ensures made { IfOk result (λ e. Closes source.now Symbol.ParenClose at.old at.new (λ t. Expr.Call name opening args t) e) }
    ensures fault { IfErr result (λ f. IsWithin source.now f) }
{
    let close = source.expect(at, Symbol::ParenClose)?;
    Ok(Expr::Call {
        name,
        open: opening,
        args,
        close,
    })
}

/// Closes a call that has arguments.
pub fn call_with(
    source: &Source<'_>,
    at: &mut usize,
    name: Token,
    opening: Token,
    operands: Operands,
) -> Result<Expr, ParseFault>
    requires { at.old ≤ length source.now.tokens }
    ensures made { IfOk result (λ e. Closes source.now Symbol.ParenClose at.old at.new (λ t. Expr.Call name opening (Args.Listed operands.first operands.more) t) e) }
    ensures fault { IfErr result (λ f. IsWithin source.now f) }
{
    let args = listed(source.alloc(), operands)?;
    call(source, at, name, opening, args)
}

/// Closes a concatenation.
pub fn concat(
    source: &Source<'_>,
    at: &mut usize,
    opening: Token,
    parts: Operands,
) -> Result<Expr, ParseFault>
    requires { at.old ≤ length source.now.tokens }
    ensures made { IfOk result (λ e. Closes source.now Symbol.BraceClose at.old at.new (λ t. Expr.Concat opening parts.first parts.more t) e) }
    ensures fault { IfErr result (λ f. IsWithin source.now f) }
{
    let close = source.expect(at, Symbol::BraceClose)?;
    let Operands { first, more } = parts;
    let first = boxed(source.alloc(), first)?;
    Ok(Expr::Concat {
        open: opening,
        first,
        more,
        close,
    })
}

/// Closes a replication.
pub fn repeat(
    source: &Source<'_>,
    at: &mut usize,
    opening: Token,
    count: Expr,
    inner_opening: Token,
    parts: Operands,
) -> Result<Expr, ParseFault>
    requires { at.old ≤ length source.now.tokens }
    ensures made { IfOk result (λ e. ClosesTwice source.now Symbol.BraceClose at.old at.new (λ s t. Expr.Repeat opening count inner_opening parts.first parts.more s t) e) }
    ensures fault { IfErr result (λ f. IsWithin source.now f) }
{
    let inner_close = source.expect(at, Symbol::BraceClose)?;
    let close = source.expect(at, Symbol::BraceClose)?;
    let Operands { first, more } = parts;
    let count = boxed(source.alloc(), count)?;
    let first = boxed(source.alloc(), first)?;
    Ok(Expr::Repeat {
        open: opening,
        count,
        inner_open: inner_opening,
        first,
        more,
        inner_close,
        close,
    })
}

/// Closes the select of a bit.
pub fn bit_select(
    source: &Source<'_>,
    at: &mut usize,
    opening: Token,
    place: Expr,
) -> Result<Select, ParseFault>
    requires { at.old ≤ length source.now.tokens }
    ensures made { IfOk result (λ e. Closes source.now Symbol.BracketClose at.old at.new (λ t. Select.Bit opening place t) e) }
    ensures fault { IfErr result (λ f. IsWithin source.now f) }
{
    let close = source.expect(at, Symbol::BracketClose)?;
    let at = boxed(source.alloc(), place)?;
    Ok(Select::Bit {
        open: opening,
        at,
        close,
    })
}

/// Closes the select of a part.
pub fn part_select(
    source: &Source<'_>,
    at: &mut usize,
    opening: Token,
    from: Expr,
    mark: Token,
    to: Expr,
) -> Result<Select, ParseFault>
    requires { at.old ≤ length source.now.tokens }
    ensures made { IfOk result (λ e. Closes source.now Symbol.BracketClose at.old at.new (λ t. Select.Part opening from mark to t) e) }
    ensures fault { IfErr result (λ f. IsWithin source.now f) }
{
    let close = source.expect(at, Symbol::BracketClose)?;
    let from = boxed(source.alloc(), from)?;
    let to = boxed(source.alloc(), to)?;
    Ok(Select::Part {
        open: opening,
        from,
        mark,
        to,
        close,
    })
}
