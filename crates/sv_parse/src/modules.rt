//! Modules (IEEE 1800-2017 A.1.2).

ghost use Rattle.std.specs.Prelude.{◌≡◌, ◌<◌, ◌≤◌, ℕ, length, IfOk, IfErr, OnOk};
ghost use Rattle.sv_tree.specs.Tree as tree;
ghost use Rattle.parse_expr.specs.Parsed.{Parsed, IsWithin};
ghost use Rattle.sv_parse.specs.Parts as parts;

use crate::items::items;
use parse_expr::{ParseFault, Source, enter};
use parse_item::{parameter_list, port_list};
use parse_stmt::{NamedWord, named_word};
use sqlite_items::Items;
use sv_tree::{Item, Module, ParameterList, PortList, Symbol, Token};

/// `"module" NAME [ "#" "(" param { "," param } ")" ]
/// [ "(" [ dir [ type ] NAME { "," port } ] ")" ] ";" { item } "endmodule" [ ":" NAME ]`
pub fn module(source: &Source<'_>, at: &mut usize, depth: u32) -> Result<Module, ParseFault>
    requires deep { depth ≤ 128 }
    requires within { at.old ≤ length source.now.tokens }
    ensures reads { IfOk result (λ x. Parsed source.now depth at.old at.new (tree.module_read x)) }
    ensures forward { OnOk result (at.old < at.new) }
    ensures fault { IfErr result (λ f. IsWithin source.now f) }
{
    let word = enter(source, at, depth, Symbol::Module)?;
    let name = source.expect(at, Symbol::Name)?;
    let parameters = parameter_list(source, at, depth + 1)?;
    let rest = module_rest(source, at, depth + 1)?;
    Ok(whole(word, name, parameters, rest))
}

/// A module of its parts.
fn whole(word: Token, name: Token, parameters: Option<ParameterList>, rest: ModuleRest) -> Module
    ensures { result ≡ parts.whole word name parameters rest }
{
    let ModuleRest { ports, body } = rest;
    let ModuleBody {
        semicolon,
        items,
        end,
    } = body;
    Module {
        word,
        name,
        parameters,
        ports,
        semicolon,
        items,
        end: end.word,
        end_label: end.label,
    }
}

/// A module from its ports on.
#[derive(Drop)]
pub struct ModuleRest {
    pub ports: Option<PortList>,
    pub body: ModuleBody,
}

/// `[ "(" [ dir [ type ] NAME { "," port } ] ")" ] ";" { item } "endmodule" [ ":" NAME ]`
fn module_rest(source: &Source<'_>, at: &mut usize, depth: u32) -> Result<ModuleRest, ParseFault>
    requires deep { depth ≤ 128 }
    requires within { at.old ≤ length source.now.tokens }
    ensures reads { IfOk result (λ x. Parsed source.now depth at.old at.new (parts.module_rest x)) }
    ensures fault { IfErr result (λ f. IsWithin source.now f) }
{
    let ports = port_list(source, at, depth)?;
    let body = module_body(source, at, depth)?;
    Ok(ModuleRest { ports, body })
}

/// A module from its items on.
#[derive(Drop)]
pub struct ModuleBody {
    pub semicolon: Token,
    pub items: Items<Item>,
    pub end: NamedWord,
}

/// `";" { item } "endmodule" [ ":" NAME ]`
fn module_body(source: &Source<'_>, at: &mut usize, depth: u32) -> Result<ModuleBody, ParseFault>
    requires deep { depth ≤ 128 }
    requires within { at.old ≤ length source.now.tokens }
    ensures reads { IfOk result (λ x. Parsed source.now depth at.old at.new (parts.module_body x)) }
    ensures fault { IfErr result (λ f. IsWithin source.now f) }
{
    let semicolon = source.expect(at, Symbol::Semicolon)?;
    let items = items(source, at, depth, Symbol::Endmodule)?;
    let end = named_word(source, at, depth, Symbol::Endmodule)?;
    Ok(ModuleBody {
        semicolon,
        items,
        end,
    })
}
