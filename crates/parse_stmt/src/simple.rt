//! Statements in which no statement stands.

ghost use Rattle.std.specs.Prelude.{◌≡◌, ◌≤◌, ℕ, length, false, IfOk, IfErr};
ghost use Rattle.sv_tree.specs.Symbol.{same};
ghost use Rattle.sv_tree.specs.TreeStmt.{lvalue_read, stmt_read};
ghost use Rattle.parse_expr.specs.Input.{symbol_at, TakesThe};
ghost use Rattle.parse_expr.specs.Parsed.{Parsed, IsWithin};
ghost use Rattle.parse_stmt.specs.Body.{ParsedInside};

use crate::class::is_assign;
use parse_expr::{ParseFault, Source, args, enter, expr, lvalue, selects, syntax};
use sv_tree::{Lvalue, Stmt, Symbol, Token};

/// `";"`, an assignment or a call, of which the depth is that of its parts. Its first token tells
/// which, and after a name the next one.
pub fn simple(source: &Source<'_>, at: &mut usize, depth: u32) -> Result<Stmt, ParseFault>
    requires deep { depth ≤ 128 }
    requires within { at.old ≤ length source.now.tokens }
    ensures reads { IfOk result (λ s. ParsedInside source.now depth at.old at.new (stmt_read s)) }
    ensures fault { IfErr result (λ f. IsWithin source.now f) }
{
    match source.peek(*at) {
        Symbol::Name => named(source, at, depth),
        Symbol::BraceOpen => concat(source, at, depth),
        _ => empty(source, at, depth),
    }
}

/// `";"`
fn empty(source: &Source<'_>, at: &mut usize, depth: u32) -> Result<Stmt, ParseFault>
    requires deep { depth ≤ 128 }
    requires within { at.old ≤ length source.now.tokens }
    ensures reads { IfOk result (λ s. ParsedInside source.now depth at.old at.new (stmt_read s)) }
    ensures fault { IfErr result (λ f. IsWithin source.now f) }
{
    let semicolon = source.expect(at, Symbol::Semicolon)?;
    Ok(Stmt::Empty(semicolon))
}

/// A statement that begins with a name: a call or an assignment, by the token after it.
fn named(source: &Source<'_>, at: &mut usize, depth: u32) -> Result<Stmt, ParseFault>
    requires deep { depth ≤ 128 }
    requires within { at.old ≤ length source.now.tokens }
    ensures reads { IfOk result (λ s. ParsedInside source.now depth at.old at.new (stmt_read s)) }
    ensures fault { IfErr result (λ f. IsWithin source.now f) }
{
    let name = source.expect(at, Symbol::Name)?;
    if source.sees(*at, Symbol::ParenOpen) {
        return call(source, at, depth, name);
    }
    let selects = selects(source, at, depth)?;
    assignment(source, at, depth, Lvalue::Name { name, selects })
}

/// `"(" [ expr { "," expr } ] ")" ";"`, after the name of a call.
fn call(source: &Source<'_>, at: &mut usize, depth: u32, name: Token) -> Result<Stmt, ParseFault>
    requires deep { depth ≤ 128 }
    requires within { at.old ≤ length source.now.tokens }
    ensures reads { IfOk result (λ s. (start : ℕ) → TakesThe source.now Symbol.Name start at.old name
        → ParsedInside source.now depth start at.new (stmt_read s)) }
    ensures fault { IfErr result (λ f. IsWithin source.now f) }
{
    let open = enter(source, at, depth, Symbol::ParenOpen)?;
    let args = args(source, at, depth + 1)?;
    let close = source.expect(at, Symbol::ParenClose)?;
    let semicolon = source.expect(at, Symbol::Semicolon)?;
    Ok(Stmt::Call {
        name,
        open,
        args,
        close,
        semicolon,
    })
}

/// An assignment to a concatenation.
fn concat(source: &Source<'_>, at: &mut usize, depth: u32) -> Result<Stmt, ParseFault>
    requires deep { depth ≤ 128 }
    requires within { at.old ≤ length source.now.tokens }
    requires first { same Symbol.If (symbol_at source.now at.old) ≡ false }
    ensures reads { IfOk result (λ s. ParsedInside source.now depth at.old at.new (stmt_read s)) }
    ensures fault { IfErr result (λ f. IsWithin source.now f) }
{
    let target = lvalue(source, at, depth)?;
    assignment(source, at, depth, target)
}

/// `( "=" | "<=" ) expr ";"`, after what is assigned.
fn assignment(
    source: &Source<'_>,
    at: &mut usize,
    depth: u32,
    target: Lvalue,
) -> Result<Stmt, ParseFault>
    requires deep { depth ≤ 128 }
    requires within { at.old ≤ length source.now.tokens }
    ensures reads { IfOk result (λ s. (start : ℕ) → same Symbol.If (symbol_at source.now start) ≡ false
        → Parsed source.now depth start at.old (lvalue_read target)
        → ParsedInside source.now depth start at.new (stmt_read s)) }
    ensures fault { IfErr result (λ f. IsWithin source.now f) }
{
    if !is_assign(source.peek(*at)) {
        return Err(syntax(*at));
    }
    let mark = source.take(at)?;
    let value = expr(source, at, depth)?;
    let semicolon = source.expect(at, Symbol::Semicolon)?;
    Ok(Stmt::Assign {
        target,
        mark,
        value,
        semicolon,
    })
}
