//! Expressions (IEEE 1800-2017 A.8.1 to A.8.4).

ghost use Rattle.std.specs.Prelude.{◌≡◌, ◌≤◌, ◌<◌, ◌+◌, length, map, IfOk, OnOk, IfErr};
ghost use Rattle.sv_tree.specs.TreeRead.{◌then◌};
ghost use Rattle.sv_tree.specs.TreeExpr as tree;
ghost use Rattle.parse_expr.specs.Parsed.{Parsed, ParsedExpr, ParsedSteps, IsWithin};

use crate::class::{is_part, level_of};
use crate::fault::ParseFault;
use crate::joined::{choice, choose, levelled, question};
use crate::memory::push;
use crate::operand::{
    Operands, bit_select, call, call_with, concat, listed, literal, paren, part_select, prefixed,
    prefixes, repeat, system_call,
};
use crate::source::{Source, enter};
use sqlite_items::Items;
use sv_tree::{Args, Expr, Select, Step, Symbol};

/// The level of the operators that bind loosest.
const LOOSEST: u32 = 10;

/// An expression: `binary [ "?" expr ":" expr ]`.
#[cycle(grammar)]
pub fn expr(source: &Source<'_>, at: &mut usize, depth: u32) -> Result<Expr, ParseFault>
    requires deep { depth ≤ 128 }
    requires within { at.old ≤ length source.now.tokens }
    ensures reads { IfOk result (λ e. Parsed source.now depth at.old at.new (tree.expr e)) }
    ensures fault { IfErr result (λ f. IsWithin source.now f) }
{
    let mut choices = Items::new(source.alloc());
    let mut last = binary(source, at, depth, LOOSEST)?;
    'choices: while source.sees(*at, Symbol::Question) {
        let mark = question(source, at, depth)?;
        let value = expr(source, at, depth + 1)?;
        let choice = choice(source, at, last, mark, value)?;
        push(&mut choices, choice)?;
        last = binary(source, at, depth, LOOSEST)?;
    }
    choose(source.alloc(), choices, last)
}

/// Operands joined by operators of a level and of those that bind tighter.
#[cycle(grammar)]
fn binary(source: &Source<'_>, at: &mut usize, depth: u32, loosest: u32) -> Result<Expr, ParseFault>
    requires deep { depth ≤ 128 }
    requires within { at.old ≤ length source.now.tokens }
    requires known { loosest ≤ 10 }
    ensures reads { IfOk result (λ e. ParsedExpr source.now depth at.old at.new (loosest + 1) (tree.expr_read e)) }
    ensures fault { IfErr result (λ f. IsWithin source.now f) }
{
    let operators = prefixes(source, at, depth)?;
    let operand = primary(source, at, depth)?;
    let mut tree = prefixed(source.alloc(), operators, operand)?;
    for level in 1..loosest + 1 {
        let more = steps(source, at, depth, level)?;
        tree = levelled(source.alloc(), tree, more)?;
    }
    Ok(tree)
}

/// Operators of a level with the operands after them, as many as there are.
#[cycle(grammar)]
fn steps(
    source: &Source<'_>,
    at: &mut usize,
    depth: u32,
    level: u32,
) -> Result<Items<Step>, ParseFault>
    requires deep { depth ≤ 128 }
    requires within { at.old ≤ length source.now.tokens }
    requires above { 1 ≤ level }
    requires known { level ≤ 10 }
    ensures reads { IfOk result (λ more. ParsedSteps source.now depth at.old at.new level (map tree.step_read more)) }
    ensures fault { IfErr result (λ f. IsWithin source.now f) }
{
    let mut more = Items::new(source.alloc());
    'operators: while level_of(source.peek(*at)) == level {
        let mark = source.take(at)?;
        let operand = binary(source, at, depth, level - 1)?;
        push(&mut more, Step { mark, operand })?;
    }
    Ok(more)
}

/// A literal, a name with its selects, a call, or an expression in parentheses or braces.
#[cycle(grammar)]
fn primary(source: &Source<'_>, at: &mut usize, depth: u32) -> Result<Expr, ParseFault>
    requires deep { depth ≤ 128 }
    requires within { at.old ≤ length source.now.tokens }
    ensures reads { IfOk result (λ e. ParsedExpr source.now depth at.old at.new 0 (tree.expr_read e)) }
    ensures fault { IfErr result (λ f. IsWithin source.now f) }
{
    match source.peek(*at) {
        Symbol::Name => named(source, at, depth),
        Symbol::System => {
            let name = source.expect(at, Symbol::System)?;
            let opening = enter(source, at, depth, Symbol::ParenOpen)?;
            let arg = expr(source, at, depth + 1)?;
            system_call(source, at, name, opening, arg)
        }
        Symbol::ParenOpen => {
            let opening = enter(source, at, depth, Symbol::ParenOpen)?;
            let inner = expr(source, at, depth + 1)?;
            paren(source, at, opening, inner)
        }
        Symbol::BraceOpen => braced(source, at, depth),
        _ => literal(source, at, depth),
    }
}

/// A name with its selects, or a call.
#[cycle(grammar)]
fn named(source: &Source<'_>, at: &mut usize, depth: u32) -> Result<Expr, ParseFault>
    requires deep { depth ≤ 128 }
    requires within { at.old ≤ length source.now.tokens }
    ensures reads { IfOk result (λ e. ParsedExpr source.now depth at.old at.new 0 (tree.expr_read e)) }
    ensures fault { IfErr result (λ f. IsWithin source.now f) }
{
    let name = source.expect(at, Symbol::Name)?;
    if !source.sees(*at, Symbol::ParenOpen) {
        let selects = selects(source, at, depth)?;
        return Ok(Expr::Name { name, selects });
    }
    let opening = enter(source, at, depth, Symbol::ParenOpen)?;
    if source.sees(*at, Symbol::ParenClose) {
        return call(source, at, name, opening, Args::Empty);
    }
    let operands = list(source, at, depth + 1)?;
    call_with(source, at, name, opening, operands)
}

/// A concatenation or a replication.
#[cycle(grammar)]
fn braced(source: &Source<'_>, at: &mut usize, depth: u32) -> Result<Expr, ParseFault>
    requires deep { depth ≤ 128 }
    requires within { at.old ≤ length source.now.tokens }
    ensures reads { IfOk result (λ e. ParsedExpr source.now depth at.old at.new 0 (tree.expr_read e)) }
    ensures fault { IfErr result (λ f. IsWithin source.now f) }
{
    let opening = enter(source, at, depth, Symbol::BraceOpen)?;
    let parts = list(source, at, depth + 1)?;
    if parts.more.len() > 0 || !source.sees(*at, Symbol::BraceOpen) {
        return concat(source, at, opening, parts);
    }
    let inner_opening = enter(source, at, depth + 1, Symbol::BraceOpen)?;
    let inner = list(source, at, depth + 2)?;
    repeat(source, at, opening, parts.first, inner_opening, inner)
}

/// Expressions with commas between them, at least one.
#[cycle(grammar)]
pub fn list(source: &Source<'_>, at: &mut usize, depth: u32) -> Result<Operands, ParseFault>
    requires deep { depth ≤ 128 }
    requires within { at.old ≤ length source.now.tokens }
    ensures reads { IfOk result (λ o. Parsed source.now depth at.old at.new (tree.expr o.first then tree.steps o.more)) }
    ensures fault { IfErr result (λ f. IsWithin source.now f) }
{
    let first = expr(source, at, depth)?;
    let mut more = Items::new(source.alloc());
    'commas: while source.sees(*at, Symbol::Comma) {
        let mark = source.expect(at, Symbol::Comma)?;
        let operand = expr(source, at, depth)?;
        push(&mut more, Step { mark, operand })?;
    }
    Ok(Operands { first, more })
}

/// The selects of a name, as many as there are.
#[cycle(grammar)]
pub fn selects(source: &Source<'_>, at: &mut usize, depth: u32) -> Result<Items<Select>, ParseFault>
    requires deep { depth ≤ 128 }
    requires within { at.old ≤ length source.now.tokens }
    ensures reads { IfOk result (λ xs. Parsed source.now depth at.old at.new (tree.selects xs)) }
    ensures fault { IfErr result (λ f. IsWithin source.now f) }
{
    let mut selects = Items::new(source.alloc());
    'selects: while source.sees(*at, Symbol::BracketOpen) {
        let select = select(source, at, depth)?;
        push(&mut selects, select)?;
    }
    Ok(selects)
}

/// `"[" expr "]" | "[" expr ( ":" | "+:" | "-:" ) expr "]"`
#[cycle(grammar)]
fn select(source: &Source<'_>, at: &mut usize, depth: u32) -> Result<Select, ParseFault>
    requires deep { depth ≤ 128 }
    requires within { at.old ≤ length source.now.tokens }
    ensures reads { IfOk result (λ x. Parsed source.now depth at.old at.new (tree.select_read x)) }
    ensures goes { OnOk result (at.old < at.new) }
    ensures fault { IfErr result (λ f. IsWithin source.now f) }
{
    let opening = enter(source, at, depth, Symbol::BracketOpen)?;
    let from = expr(source, at, depth + 1)?;
    if !is_part(source.peek(*at)) {
        return bit_select(source, at, opening, from);
    }
    let mark = source.take(at)?;
    let to = expr(source, at, depth + 1)?;
    part_select(source, at, opening, from, mark, to)
}

/// The arguments of a call, up to the `)`.
pub fn args(source: &Source<'_>, at: &mut usize, depth: u32) -> Result<Args, ParseFault>
    requires deep { depth ≤ 128 }
    requires within { at.old ≤ length source.now.tokens }
    ensures reads { IfOk result (λ x. Parsed source.now depth at.old at.new (tree.args_read x)) }
    ensures fault { IfErr result (λ f. IsWithin source.now f) }
{
    if source.sees(*at, Symbol::ParenClose) {
        return Ok(Args::Empty);
    }
    let operands = list(source, at, depth)?;
    listed(source.alloc(), operands)
}
