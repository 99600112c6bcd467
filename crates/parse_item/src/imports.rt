//! Imports (IEEE 1800-2017 A.2.6).

ghost use Rattle.std.specs.Prelude.{◌≡◌, ◌<◌, ◌≤◌, length, false, IfOk, IfErr, OnOk};
ghost use Rattle.sv_tree.specs.Symbol.{same};
ghost use Rattle.sv_tree.specs.TreeItem as tree;
ghost use Rattle.sv_tree.specs.TreeRead.{commas, maybe};
ghost use Rattle.parse_expr.specs.Input.{symbol_at};
ghost use Rattle.parse_expr.specs.Parsed.{Parsed, IsWithin};
ghost use Rattle.parse_item.specs.Parts as parts;

use crate::class::is_manner;
use crate::lists::{Part, comma_list, take_where};
use parse_expr::{ParseFault, Source, argument_type, enter, result_type};
use sv_tree::{Argument, CommaList, Import, Linkage, Symbol, Token, WordType};

/// `"import" TEXT [ "pure" | "context" ] [ NAME "=" ] "function" rtype NAME
/// "(" [ arg { "," arg } ] ")" ";"`
pub fn import(source: &Source<'_>, at: &mut usize, depth: u32) -> Result<Import, ParseFault>
    requires deep { depth ≤ 128 }
    requires within { at.old ≤ length source.now.tokens }
    ensures reads { IfOk result (λ x. Parsed source.now depth at.old at.new (tree.import_read x)) }
    ensures forward { OnOk result (at.old < at.new) }
    ensures fault { IfErr result (λ f. IsWithin source.now f) }
{
    let word = source.expect(at, Symbol::Import)?;
    let text = source.expect(at, Symbol::Text)?;
    let manner = take_where(source, at, is_manner(source.peek(*at)))?;
    let linkage = linkage(source, at, depth)?;
    let signature = import_signature(source, at, depth)?;
    let Signature {
        function,
        result,
        name,
        open,
        args,
        close,
        semicolon,
    } = signature;
    Ok(Import {
        word,
        text,
        manner,
        linkage,
        function,
        result,
        name,
        open,
        args,
        close,
        semicolon,
    })
}

/// `[ NAME "=" ]`
fn linkage(source: &Source<'_>, at: &mut usize, depth: u32) -> Result<Option<Linkage>, ParseFault>
    requires deep { depth ≤ 128 }
    requires within { at.old ≤ length source.now.tokens }
    ensures reads { IfOk result (λ x. Parsed source.now depth at.old at.new (maybe tree.linkage x)) }
    ensures fault { IfErr result (λ f. IsWithin source.now f) }
{
    if !source.sees(*at, Symbol::Name) {
        return Ok(None);
    }
    let name = source.expect(at, Symbol::Name)?;
    let mark = source.expect(at, Symbol::Assign)?;
    Ok(Some(Linkage { name, mark }))
}

/// An import from its `function` on.
#[derive(Drop)]
pub struct Signature {
    pub function: Token,
    pub result: WordType,
    pub name: Token,
    pub open: Token,
    pub args: Option<CommaList<Argument>>,
    pub close: Token,
    pub semicolon: Token,
}

/// `"function" rtype NAME "(" [ arg { "," arg } ] ")" ";"`
fn import_signature(
    source: &Source<'_>,
    at: &mut usize,
    depth: u32,
) -> Result<Signature, ParseFault>
    requires deep { depth ≤ 128 }
    requires within { at.old ≤ length source.now.tokens }
    ensures reads { IfOk result (λ x. Parsed source.now depth at.old at.new (parts.signature x)) }
    ensures fault { IfErr result (λ f. IsWithin source.now f) }
{
    let function = source.expect(at, Symbol::Function)?;
    let kind = result_type(source, at, depth)?;
    let name = source.expect(at, Symbol::Name)?;
    let open = enter(source, at, depth, Symbol::ParenOpen)?;
    let args = arguments(source, at, depth + 1)?;
    let close = source.expect(at, Symbol::ParenClose)?;
    let semicolon = source.expect(at, Symbol::Semicolon)?;
    Ok(Signature {
        function,
        result: kind,
        name,
        open,
        args,
        close,
        semicolon,
    })
}

/// `[ arg { "," arg } ]`
fn arguments(
    source: &Source<'_>,
    at: &mut usize,
    depth: u32,
) -> Result<Option<CommaList<Argument>>, ParseFault>
    requires deep { depth ≤ 128 }
    requires within { at.old ≤ length source.now.tokens }
    ensures reads { IfOk result (λ x. Parsed source.now depth at.old at.new (maybe (commas tree.argument) x)) }
    ensures fault { IfErr result (λ f. IsWithin source.now f) }
{
    if source.sees(*at, Symbol::ParenClose) {
        return Ok(None);
    }
    let list = comma_list::<Argument>(source, at, depth)?;
    Ok(Some(list))
}

impl Part for Argument {
    ghost reads = { tree.argument };

    fn part(source: &Source<'_>, at: &mut usize, depth: u32) -> Result<Argument, ParseFault> {
        let input = source.take_if(at, Symbol::Input);
        let kind = argument_type(source, at, depth)?;
        let name = source.take_if(at, Symbol::Name);
        Ok(Argument { input, kind, name })
    }
}
