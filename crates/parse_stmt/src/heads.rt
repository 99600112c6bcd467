//! What stands before a body: the test of an `if`, and the head of a loop.

ghost use Rattle.std.specs.Prelude.{◌≡◌, ◌≤◌, length, IfOk, IfErr};
ghost use Rattle.parse_expr.specs.Parsed.{Parsed, IsWithin};
ghost use Rattle.parse_stmt.specs.Heads as head;
ghost use Rattle.sv_tree.specs.TreeItem as item_tree;
ghost use Rattle.sv_tree.specs.TreeStmt as tree;

use crate::class::{is_count, is_loop_assign, is_loop_type};
use parse_expr::{ParseFault, Source, expr, setting, syntax};
use sv_tree::{Expr, LoopHead, LoopStep, Setting, Symbol, Test, Token};

/// `"if" "(" expr ")"`
pub fn test(source: &Source<'_>, at: &mut usize, depth: u32) -> Result<Test, ParseFault>
    requires deep { depth ≤ 128 }
    requires within { at.old ≤ length source.now.tokens }
    ensures reads { IfOk result (λ x. Parsed source.now depth at.old at.new (tree.test x)) }
    ensures fault { IfErr result (λ f. IsWithin source.now f) }
{
    let word = source.expect(at, Symbol::If)?;
    let open = source.expect(at, Symbol::ParenOpen)?;
    let value = expr(source, at, depth)?;
    let close = source.expect(at, Symbol::ParenClose)?;
    Ok(Test {
        word,
        open,
        test: value,
        close,
    })
}

/// `"for" "(" ( "int" | "integer" ) NAME "=" expr ";" expr ";" step ")"`, the head of a loop
/// among statements.
pub fn stmt_loop(source: &Source<'_>, at: &mut usize, depth: u32) -> Result<LoopHead, ParseFault>
    requires deep { depth ≤ 128 }
    requires within { at.old ≤ length source.now.tokens }
    ensures reads { IfOk result (λ x. Parsed source.now depth at.old at.new (tree.stmt_loop x)) }
    ensures fault { IfErr result (λ f. IsWithin source.now f) }
{
    let word = source.expect(at, Symbol::For)?;
    let open = source.expect(at, Symbol::ParenOpen)?;
    if !is_loop_type(source.peek(*at)) {
        return Err(syntax(*at));
    }
    let kind = source.take(at)?;
    let rest = loop_rest(source, at, depth)?;
    Ok(headed(word, open, Some(kind), rest))
}

/// `"for" "(" [ "genvar" ] NAME "=" expr ";" expr ";" step ")"`, the head of a loop among items.
pub fn item_loop(source: &Source<'_>, at: &mut usize, depth: u32) -> Result<LoopHead, ParseFault>
    requires deep { depth ≤ 128 }
    requires within { at.old ≤ length source.now.tokens }
    ensures reads { IfOk result (λ x. Parsed source.now depth at.old at.new (item_tree.item_loop x)) }
    ensures fault { IfErr result (λ f. IsWithin source.now f) }
{
    let word = source.expect(at, Symbol::For)?;
    let open = source.expect(at, Symbol::ParenOpen)?;
    let kind = source.take_if(at, Symbol::Genvar);
    let rest = loop_rest(source, at, depth)?;
    Ok(headed(word, open, kind, rest))
}

/// The head of a loop from its variable on.
#[derive(Drop)]
pub struct LoopRest {
    start: Setting,
    first: Token,
    test: Expr,
    second: Token,
    step: LoopStep,
    close: Token,
}

/// `NAME "=" expr ";" expr ";" step ")"`
fn loop_rest(source: &Source<'_>, at: &mut usize, depth: u32) -> Result<LoopRest, ParseFault>
    requires deep { depth ≤ 128 }
    requires within { at.old ≤ length source.now.tokens }
    ensures reads { IfOk result (λ x. Parsed source.now depth at.old at.new (head.loop_rest x)) }
    ensures fault { IfErr result (λ f. IsWithin source.now f) }
{
    let start = setting(source, at, depth)?;
    let first = source.expect(at, Symbol::Semicolon)?;
    let test = expr(source, at, depth)?;
    let second = source.expect(at, Symbol::Semicolon)?;
    let step = loop_step(source, at, depth)?;
    let close = source.expect(at, Symbol::ParenClose)?;
    Ok(LoopRest {
        start,
        first,
        test,
        second,
        step,
        close,
    })
}

fn headed(word: Token, paren: Token, kind: Option<Token>, rest: LoopRest) -> LoopHead
    ensures { result ≡ record {
      word = word;
      «open» = paren;
      kind = kind;
      start = rest.start;
      first = rest.first;
      test = rest.test;
      second = rest.second;
      step = rest.step;
      close = rest.close;
    } }
{
    let LoopRest {
        start,
        first,
        test,
        second,
        step,
        close,
    } = rest;
    LoopHead {
        word,
        open: paren,
        kind,
        start,
        first,
        test,
        second,
        step,
        close,
    }
}

/// `step = NAME "=" expr | NAME ( "++" | "--" ) | ( "++" | "--" ) NAME | NAME ( "+=" | "-=" ) expr`
fn loop_step(source: &Source<'_>, at: &mut usize, depth: u32) -> Result<LoopStep, ParseFault>
    requires deep { depth ≤ 128 }
    requires within { at.old ≤ length source.now.tokens }
    ensures reads { IfOk result (λ x. Parsed source.now depth at.old at.new (tree.loop_step x)) }
    ensures fault { IfErr result (λ f. IsWithin source.now f) }
{
    if is_count(source.peek(*at)) {
        let mark = source.take(at)?;
        let name = source.expect(at, Symbol::Name)?;
        return Ok(LoopStep::Before { mark, name });
    }
    let name = source.expect(at, Symbol::Name)?;
    if is_count(source.peek(*at)) {
        let mark = source.take(at)?;
        return Ok(LoopStep::After { name, mark });
    }
    if !is_loop_assign(source.peek(*at)) {
        return Err(syntax(*at));
    }
    let mark = source.take(at)?;
    let value = expr(source, at, depth)?;
    Ok(LoopStep::Set(Setting { name, mark, value }))
}
