//! What is assigned (IEEE 1800-2017 A.8.5).

ghost use Rattle.std.specs.Prelude.{◌≡◌, ◌≤◌, length, IfOk, IfErr};
ghost use Rattle.sv_tree.specs.TreeStmt as stmt;
ghost use Rattle.parse_expr.specs.Made.{Closes};
ghost use Rattle.parse_expr.specs.Parsed.{Parsed, IsWithin};

use crate::expression::selects;
use crate::fault::ParseFault;
use crate::memory::{boxed, push};
use crate::source::{Source, enter};
use sqlite_items::Items;
use sv_tree::{Lvalue, LvalueStep, Symbol, Token};

/// `lvalue = NAME { select } | "{" lvalue { "," lvalue } "}"`
pub fn lvalue(source: &Source<'_>, at: &mut usize, depth: u32) -> Result<Lvalue, ParseFault>
    requires deep { depth ≤ 128 }
    requires within { at.old ≤ length source.now.tokens }
    ensures reads { IfOk result (λ x. Parsed source.now depth at.old at.new (stmt.lvalue_read x)) }
    ensures fault { IfErr result (λ f. IsWithin source.now f) }
{
    if !source.sees(*at, Symbol::BraceOpen) {
        return variable(source, at, depth);
    }
    let opening = enter(source, at, depth, Symbol::BraceOpen)?;
    let first = lvalue(source, at, depth + 1)?;
    let mut more = Items::new(source.alloc());
    'commas: while source.sees(*at, Symbol::Comma) {
        let comma = source.expect(at, Symbol::Comma)?;
        let target = lvalue(source, at, depth + 1)?;
        push(&mut more, LvalueStep { comma, target })?;
    }
    concat(source, at, opening, first, more)
}

/// `NAME { select }`
fn variable(source: &Source<'_>, at: &mut usize, depth: u32) -> Result<Lvalue, ParseFault>
    requires deep { depth ≤ 128 }
    requires within { at.old ≤ length source.now.tokens }
    ensures reads { IfOk result (λ x. Parsed source.now depth at.old at.new (stmt.lvalue_read x)) }
    ensures fault { IfErr result (λ f. IsWithin source.now f) }
{
    let name = source.expect(at, Symbol::Name)?;
    let selects = selects(source, at, depth)?;
    Ok(Lvalue::Name { name, selects })
}

/// Closes a concatenation.
fn concat(
    source: &Source<'_>,
    at: &mut usize,
    opening: Token,
    first: Lvalue,
    more: Items<LvalueStep>,
) -> Result<Lvalue, ParseFault>
    requires { at.old ≤ length source.now.tokens }
    ensures made { IfOk result (λ x. Closes source.now Symbol.BraceClose at.old at.new (λ t. Lvalue.Concat opening first more t) x) }
    ensures fault { IfErr result (λ f. IsWithin source.now f) }
{
    let close = source.expect(at, Symbol::BraceClose)?;
    let first = boxed(source.alloc(), first)?;
    Ok(Lvalue::Concat {
        open: opening,
        first,
        more,
        close,
    })
}
