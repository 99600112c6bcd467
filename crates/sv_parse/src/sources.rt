//! Whole sources (IEEE 1800-2017 A.1.2).

ghost use Rattle.std.specs.Prelude.{◌≡◌, ◌<◌, ◌≤◌, ◌-◌, ◌^◌, length, IfOk, IfErr, OnOk};
ghost use Rattle.sv_tree.specs.Tokens.{AreNamed};
ghost use Rattle.sv_tree.specs.Tree as tree;
ghost use Rattle.sv_tree.specs.TreeRead.{each};
ghost use Rattle.parse_expr.specs.Parsed.{Parsed, IsWithin};
ghost use Rattle.sv_parse.specs.Faults.{NoneOutside, FaultIs};

use crate::modules::module;
use parse_expr::{ParseFault, Source, outside, push, syntax};
use parse_item::import;
use sqlite_items::Items;
use std::alloc::Global;
use sv_tree::{Description, Names, SourceTree, Symbol, Token};

/// The tree of the tokens of all files, which have their numbers in the table of names.
///
/// `Construct`: the first token that is outside of the subset, wherever it stands. `Syntax`: no
/// token is, and a token, or the end, does not go on with what stands before it. `TooDeep`: no
/// token is outside, and a token stands in more than 128 things. `NoMemory`: there was none left.
pub fn parse(alloc: Global, tokens: &[Token], names: &Names) -> Result<SourceTree, ParseFault>
    requires named { AreNamed names.now tokens.now }
    requires few { length tokens.now < 2 ^ 32 - 1 }
    ensures reads { IfOk result (λ x. tree.Reads names.now x tokens.now) }
    ensures shallow { IfOk result (λ x. tree.depth x ≤ 128) }
    ensures inside { OnOk result (NoneOutside names.now tokens.now) }
    ensures fault { IfErr result (λ f. FaultIs names.now tokens.now f) }
{
    if let Some(at) = outside(tokens, names) {
        return Err(ParseFault::Construct(at as u32));
    }
    let source = Source::new(alloc, tokens, names)?;
    source_tree(&source)
}

/// `{ import | module }`, up to the end of the tokens.
fn source_tree(source: &Source<'_>) -> Result<SourceTree, ParseFault>
    ensures reads { IfOk result (λ x. Parsed source.now 0 0 (length source.now.tokens) (each tree.read_description x.descriptions)) }
    ensures fault { IfErr result (λ f. IsWithin source.now f) }
{
    let mut at = 0;
    let mut descriptions = Items::new(source.alloc());
    'descriptions: while at < source.len() {
        let next = description(source, &mut at, 0)?;
        push(&mut descriptions, next)?;
    }
    Ok(SourceTree { descriptions })
}

/// `import | module`
fn description(source: &Source<'_>, at: &mut usize, depth: u32) -> Result<Description, ParseFault>
    requires deep { depth ≤ 128 }
    requires within { at.old ≤ length source.now.tokens }
    ensures reads { IfOk result (λ x. Parsed source.now depth at.old at.new (tree.read_description x)) }
    ensures forward { OnOk result (at.old < at.new) }
    ensures fault { IfErr result (λ f. IsWithin source.now f) }
{
    if source.sees(*at, Symbol::Import) {
        let import = import(source, at, depth)?;
        return Ok(Description::Import(import));
    }
    if source.sees(*at, Symbol::Module) {
        let module = module(source, at, depth)?;
        return Ok(Description::Module(module));
    }
    Err(syntax(*at))
}
