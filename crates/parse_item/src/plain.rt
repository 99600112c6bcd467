//! Items in which no item stands, told apart by their first token (IEEE 1800-2017 A.1.4).

ghost use Rattle.std.specs.Prelude.{◌≤◌, length, IfOk, IfErr};
ghost use Rattle.sv_tree.specs.TreeItem.{item_read};
ghost use Rattle.parse_expr.specs.Parsed.{IsWithin};
ghost use Rattle.parse_stmt.specs.Body.{ParsedBody};

use crate::declarations::{assigns, genvars, parameters, variables};
use crate::imports::import;
use crate::instances::instance;
use crate::processes::process;
use parse_expr::{ParseFault, Source};
use sv_tree::{Item, Symbol};

/// An item in which no item stands.
pub fn plain_item(source: &Source<'_>, at: &mut usize, depth: u32) -> Result<Item, ParseFault>
    requires deep { depth ≤ 128 }
    requires within { at.old ≤ length source.now.tokens }
    ensures reads { IfOk result (λ x. ParsedBody source.now depth at.old at.new (item_read x)) }
    ensures fault { IfErr result (λ f. IsWithin source.now f) }
{
    match source.peek(*at) {
        Symbol::Semicolon => empty(source, at, depth),
        Symbol::Import => import_item(source, at, depth),
        Symbol::Parameter | Symbol::Localparam => parameters(source, at, depth),
        Symbol::AssignWord => assigns(source, at, depth),
        Symbol::Genvar => genvars(source, at, depth),
        Symbol::Name => instance(source, at, depth),
        Symbol::AlwaysComb | Symbol::AlwaysFf | Symbol::Always => process(source, at, depth),
        _ => variables(source, at, depth),
    }
}

/// `";"`
fn empty(source: &Source<'_>, at: &mut usize, depth: u32) -> Result<Item, ParseFault>
    requires deep { depth ≤ 128 }
    requires within { at.old ≤ length source.now.tokens }
    ensures reads { IfOk result (λ x. ParsedBody source.now depth at.old at.new (item_read x)) }
    ensures fault { IfErr result (λ f. IsWithin source.now f) }
{
    let semicolon = source.expect(at, Symbol::Semicolon)?;
    Ok(Item::Empty(semicolon))
}

/// An import among items.
fn import_item(source: &Source<'_>, at: &mut usize, depth: u32) -> Result<Item, ParseFault>
    requires deep { depth ≤ 128 }
    requires within { at.old ≤ length source.now.tokens }
    ensures reads { IfOk result (λ x. ParsedBody source.now depth at.old at.new (item_read x)) }
    ensures fault { IfErr result (λ f. IsWithin source.now f) }
{
    let import = import(source, at, depth)?;
    Ok(Item::Import(import))
}
