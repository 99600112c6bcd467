//! Statements (IEEE 1800-2017 A.6.4).

ghost use Rattle.std.specs.Prelude.{◌≡◌, ◌≤◌, length, true, IfOk, IfErr, map};
ghost use Rattle.sv_tree.specs.Symbol.{same};
ghost use Rattle.sv_tree.specs.TreeRead.{all_of};
ghost use Rattle.sv_tree.specs.TreeStmt.{arm_read, stmt_read};
ghost use Rattle.parse_expr.specs.Input.{symbol_at};
ghost use Rattle.parse_expr.specs.Parsed.{Parsed, IsWithin};
ghost use Rattle.parse_stmt.specs.Body.{ParsedBody, ParsedInside};

use crate::cases::{arm, arm_head, case_head, case_of};
use crate::chain::{if_else_stmt, if_stmt};
use crate::class::begins_stmt;
use crate::edges::named_word;
use crate::heads::{stmt_loop, test};
use crate::simple::simple;
use parse_expr::{ParseFault, Source, boxed, inside, push, syntax};
use sqlite_items::Items;
use sv_tree::{Arm, Branch, Stmt, Symbol};

/// A statement.
#[cycle(stmt)]
pub fn stmt(source: &Source<'_>, at: &mut usize, depth: u32) -> Result<Stmt, ParseFault>
    requires deep { depth ≤ 128 }
    requires within { at.old ≤ length source.now.tokens }
    ensures reads { IfOk result (λ s. ParsedBody source.now depth at.old at.new (stmt_read s)) }
    ensures fault { IfErr result (λ f. IsWithin source.now f) }
{
    let first = source.peek(*at);
    if !begins_stmt(first) {
        return Err(syntax(*at));
    }
    let depth = inside(*at, depth)?;
    match first {
        Symbol::Begin => block(source, at, depth),
        Symbol::If => if_chain(source, at, depth),
        Symbol::Case => case(source, at, depth),
        Symbol::For => for_loop(source, at, depth),
        _ => simple(source, at, depth),
    }
}

/// `"begin" [ ":" NAME ] { stmt } "end" [ ":" NAME ]`
#[cycle(stmt)]
fn block(source: &Source<'_>, at: &mut usize, depth: u32) -> Result<Stmt, ParseFault>
    requires deep { depth ≤ 128 }
    requires within { at.old ≤ length source.now.tokens }
    ensures reads { IfOk result (λ s. ParsedInside source.now depth at.old at.new (stmt_read s)) }
    ensures fault { IfErr result (λ f. IsWithin source.now f) }
{
    let begin = named_word(source, at, depth, Symbol::Begin)?;
    let mut body = Items::new(source.alloc());
    'body: while !source.sees(*at, Symbol::End) {
        let next = stmt(source, at, depth)?;
        push(&mut body, next)?;
    }
    let end = named_word(source, at, depth, Symbol::End)?;
    Ok(Stmt::Block {
        begin: begin.word,
        label: begin.label,
        body,
        end: end.word,
        end_label: end.label,
    })
}

/// `{ "if" "(" expr ")" stmt "else" } ( "if" "(" expr ")" stmt | stmt )`: the tests of one chain
/// stand beside one another.
#[cycle(stmt)]
fn if_chain(source: &Source<'_>, at: &mut usize, depth: u32) -> Result<Stmt, ParseFault>
    requires deep { depth ≤ 128 }
    requires within { at.old ≤ length source.now.tokens }
    requires first { same Symbol.If (symbol_at source.now at.old) ≡ true }
    ensures reads { IfOk result (λ s. ParsedInside source.now depth at.old at.new (stmt_read s)) }
    ensures fault { IfErr result (λ f. IsWithin source.now f) }
{
    let mut branches = Items::new(source.alloc());
    'branches: while source.sees(*at, Symbol::If) {
        let test = test(source, at, depth)?;
        let body = stmt(source, at, depth)?;
        let Some(else_word) = source.take_if(at, Symbol::Else) else {
            return if_stmt(source.alloc(), branches, test, body);
        };
        push(
            &mut branches,
            Branch {
                test,
                body,
                else_word,
            },
        )?;
    }
    let last = stmt(source, at, depth)?;
    if_else_stmt(source.alloc(), branches, last)
}

/// `"case" "(" expr ")" { arm } "endcase"`
#[cycle(stmt)]
fn case(source: &Source<'_>, at: &mut usize, depth: u32) -> Result<Stmt, ParseFault>
    requires deep { depth ≤ 128 }
    requires within { at.old ≤ length source.now.tokens }
    ensures reads { IfOk result (λ s. ParsedInside source.now depth at.old at.new (stmt_read s)) }
    ensures fault { IfErr result (λ f. IsWithin source.now f) }
{
    let head = case_head(source, at, depth)?;
    let arms = arms(source, at, depth)?;
    let end = source.expect(at, Symbol::Endcase)?;
    Ok(case_of(head, arms, end))
}

/// The arms of a `case`, up to its `endcase`.
#[cycle(stmt)]
fn arms(source: &Source<'_>, at: &mut usize, depth: u32) -> Result<Items<Arm>, ParseFault>
    requires deep { depth ≤ 128 }
    requires within { at.old ≤ length source.now.tokens }
    ensures reads { IfOk result (λ xs. Parsed source.now depth at.old at.new (all_of (map arm_read xs))) }
    ensures fault { IfErr result (λ f. IsWithin source.now f) }
{
    let mut arms = Items::new(source.alloc());
    'arms: while !source.sees(*at, Symbol::Endcase) {
        let head = arm_head(source, at, depth)?;
        let body = stmt(source, at, depth)?;
        let next = arm(source.alloc(), head, body)?;
        push(&mut arms, next)?;
    }
    Ok(arms)
}

/// `"for" "(" .. ")" stmt`
#[cycle(stmt)]
fn for_loop(source: &Source<'_>, at: &mut usize, depth: u32) -> Result<Stmt, ParseFault>
    requires deep { depth ≤ 128 }
    requires within { at.old ≤ length source.now.tokens }
    ensures reads { IfOk result (λ s. ParsedInside source.now depth at.old at.new (stmt_read s)) }
    ensures fault { IfErr result (λ f. IsWithin source.now f) }
{
    let head = stmt_loop(source, at, depth)?;
    let body = stmt(source, at, depth)?;
    let body = boxed(source.alloc(), body)?;
    Ok(Stmt::For { head, body })
}
