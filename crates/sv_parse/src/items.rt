//! Items of a module (IEEE 1800-2017 A.1.4, A.4.2).

ghost use Rattle.std.specs.Prelude.{◌≡◌, ◌≤◌, length, map, true, IfOk, IfErr};
ghost use Rattle.sv_tree.specs.Symbol.{same};
ghost use Rattle.sv_tree.specs.TreeItem.{gen_block_read, item_read};
ghost use Rattle.sv_tree.specs.TreeStmt.{texts};
ghost use Rattle.parse_expr.specs.Input.{symbol_at};
ghost use Rattle.parse_expr.specs.Parsed.{Parsed, IsWithin};
ghost use Rattle.parse_stmt.specs.Body.{ParsedBody, ParsedInside};

use crate::chain::{if_else_item, if_item};
use crate::class::nests;
use parse_expr::{ParseFault, Source, boxed, inside, push};
use parse_item::plain_item;
use parse_stmt::{item_loop, named_word, test};
use sqlite_items::Items;
use sv_tree::{GenBlock, Item, ItemBranch, Symbol};

/// An item.
#[cycle(item)]
pub fn item(source: &Source<'_>, at: &mut usize, depth: u32) -> Result<Item, ParseFault>
    requires deep { depth ≤ 128 }
    requires within { at.old ≤ length source.now.tokens }
    ensures reads { IfOk result (λ x. ParsedBody source.now depth at.old at.new (item_read x)) }
    ensures fault { IfErr result (λ f. IsWithin source.now f) }
{
    let first = source.peek(*at);
    if !nests(first) {
        return plain_item(source, at, depth);
    }
    let depth = inside(*at, depth)?;
    match first {
        Symbol::Generate => generate(source, at, depth),
        Symbol::If => item_chain(source, at, depth),
        _ => item_for(source, at, depth),
    }
}

/// Items up to a word.
#[cycle(item)]
pub fn items(
    source: &Source<'_>,
    at: &mut usize,
    depth: u32,
    end: Symbol,
) -> Result<Items<Item>, ParseFault>
    requires deep { depth ≤ 128 }
    requires within { at.old ≤ length source.now.tokens }
    ensures reads { IfOk result (λ xs. Parsed source.now depth at.old at.new (texts (map item_read xs))) }
    ensures fault { IfErr result (λ f. IsWithin source.now f) }
{
    let mut items = Items::new(source.alloc());
    'items: while !source.sees(*at, end) {
        let next = item(source, at, depth)?;
        push(&mut items, next)?;
    }
    Ok(items)
}

/// `"generate" { item } "endgenerate"`
#[cycle(item)]
fn generate(source: &Source<'_>, at: &mut usize, depth: u32) -> Result<Item, ParseFault>
    requires deep { depth ≤ 128 }
    requires within { at.old ≤ length source.now.tokens }
    ensures reads { IfOk result (λ x. ParsedInside source.now depth at.old at.new (item_read x)) }
    ensures fault { IfErr result (λ f. IsWithin source.now f) }
{
    let word = source.expect(at, Symbol::Generate)?;
    let items = items(source, at, depth, Symbol::Endgenerate)?;
    let end = source.expect(at, Symbol::Endgenerate)?;
    Ok(Item::Generate { word, items, end })
}

/// `"for" "(" .. ")" gblock`
#[cycle(item)]
fn item_for(source: &Source<'_>, at: &mut usize, depth: u32) -> Result<Item, ParseFault>
    requires deep { depth ≤ 128 }
    requires within { at.old ≤ length source.now.tokens }
    ensures reads { IfOk result (λ x. ParsedInside source.now depth at.old at.new (item_read x)) }
    ensures fault { IfErr result (λ f. IsWithin source.now f) }
{
    let head = item_loop(source, at, depth)?;
    let body = gen_block(source, at, depth)?;
    let body = boxed(source.alloc(), body)?;
    Ok(Item::For { head, body })
}

/// `{ "if" "(" expr ")" gblock "else" } ( "if" "(" expr ")" gblock | gblock )`: the tests of one
/// chain stand beside one another.
#[cycle(item)]
fn item_chain(source: &Source<'_>, at: &mut usize, depth: u32) -> Result<Item, ParseFault>
    requires deep { depth ≤ 128 }
    requires within { at.old ≤ length source.now.tokens }
    requires first { same Symbol.If (symbol_at source.now at.old) ≡ true }
    ensures reads { IfOk result (λ x. ParsedInside source.now depth at.old at.new (item_read x)) }
    ensures fault { IfErr result (λ f. IsWithin source.now f) }
{
    let mut branches = Items::new(source.alloc());
    'branches: while source.sees(*at, Symbol::If) {
        let test = test(source, at, depth)?;
        let body = gen_block(source, at, depth)?;
        let Some(else_word) = source.take_if(at, Symbol::Else) else {
            return if_item(source.alloc(), branches, test, body);
        };
        push(
            &mut branches,
            ItemBranch {
                test,
                body,
                else_word,
            },
        )?;
    }
    let last = gen_block(source, at, depth)?;
    if_else_item(source.alloc(), branches, last)
}

/// `item | "begin" [ ":" NAME ] { item } "end" [ ":" NAME ]`
#[cycle(item)]
fn gen_block(source: &Source<'_>, at: &mut usize, depth: u32) -> Result<GenBlock, ParseFault>
    requires deep { depth ≤ 128 }
    requires within { at.old ≤ length source.now.tokens }
    ensures reads { IfOk result (λ x. ParsedBody source.now depth at.old at.new (gen_block_read x)) }
    ensures fault { IfErr result (λ f. IsWithin source.now f) }
{
    if !source.sees(*at, Symbol::Begin) {
        let item = item(source, at, depth)?;
        let item = boxed(source.alloc(), item)?;
        return Ok(GenBlock::Item(item));
    }
    let inner = inside(*at, depth)?;
    let begin = named_word(source, at, inner, Symbol::Begin)?;
    let items = items(source, at, inner, Symbol::End)?;
    let end = named_word(source, at, inner, Symbol::End)?;
    Ok(GenBlock::Block {
        begin: begin.word,
        label: begin.label,
        items,
        end: end.word,
        end_label: end.label,
    })
}
