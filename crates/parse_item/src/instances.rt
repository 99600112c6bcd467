//! Instances of modules (IEEE 1800-2017 A.4.1.1).

ghost use Rattle.std.specs.Prelude.{◌≤◌, length, IfOk, IfErr};
ghost use Rattle.sv_tree.specs.TreeItem as tree;
ghost use Rattle.sv_tree.specs.TreeExpr.{expr};
ghost use Rattle.sv_tree.specs.TreeRead.{maybe};
ghost use Rattle.parse_expr.specs.Parsed.{Parsed, IsWithin};
ghost use Rattle.parse_stmt.specs.Body.{ParsedBody};
ghost use Rattle.parse_item.specs.Parts as parts;

use crate::lists::{Part, comma_list};
use parse_expr::{ParseFault, Source, args, expr};
use sv_tree::{Connected, Connection, Connections, Expr, Item, Overrides, Symbol, Token};

/// `NAME [ "#" "(" [ conns ] ")" ] NAME "(" [ conns ] ")" ";"`
pub fn instance(source: &Source<'_>, at: &mut usize, depth: u32) -> Result<Item, ParseFault>
    requires deep { depth ≤ 128 }
    requires within { at.old ≤ length source.now.tokens }
    ensures reads { IfOk result (λ x. ParsedBody source.now depth at.old at.new (tree.item_read x)) }
    ensures fault { IfErr result (λ f. IsWithin source.now f) }
{
    let module = source.expect(at, Symbol::Name)?;
    let overrides = overrides(source, at, depth)?;
    let ports = named_ports(source, at, depth)?;
    let NamedPorts {
        name,
        open,
        connections,
        close,
        semicolon,
    } = ports;
    Ok(Item::Instance {
        module,
        overrides,
        name,
        open,
        connections,
        close,
        semicolon,
    })
}

/// `[ "#" "(" [ conns ] ")" ]`
fn overrides(
    source: &Source<'_>,
    at: &mut usize,
    depth: u32,
) -> Result<Option<Overrides>, ParseFault>
    requires deep { depth ≤ 128 }
    requires within { at.old ≤ length source.now.tokens }
    ensures reads { IfOk result (λ x. Parsed source.now depth at.old at.new (maybe tree.overrides x)) }
    ensures fault { IfErr result (λ f. IsWithin source.now f) }
{
    if !source.sees(*at, Symbol::Hash) {
        return Ok(None);
    }
    let hash = source.expect(at, Symbol::Hash)?;
    let open = source.expect(at, Symbol::ParenOpen)?;
    let connections = connections(source, at, depth)?;
    let close = source.expect(at, Symbol::ParenClose)?;
    Ok(Some(Overrides {
        hash,
        open,
        connections,
        close,
    }))
}

/// An instance from its name on.
#[derive(Drop)]
pub struct NamedPorts {
    pub name: Token,
    pub open: Token,
    pub connections: Connections,
    pub close: Token,
    pub semicolon: Token,
}

/// `NAME "(" [ conns ] ")" ";"`
fn named_ports(source: &Source<'_>, at: &mut usize, depth: u32) -> Result<NamedPorts, ParseFault>
    requires deep { depth ≤ 128 }
    requires within { at.old ≤ length source.now.tokens }
    ensures reads { IfOk result (λ x. Parsed source.now depth at.old at.new (parts.named_ports x)) }
    ensures fault { IfErr result (λ f. IsWithin source.now f) }
{
    let name = source.expect(at, Symbol::Name)?;
    let open = source.expect(at, Symbol::ParenOpen)?;
    let connections = connections(source, at, depth)?;
    let close = source.expect(at, Symbol::ParenClose)?;
    let semicolon = source.expect(at, Symbol::Semicolon)?;
    Ok(NamedPorts {
        name,
        open,
        connections,
        close,
        semicolon,
    })
}

/// `[ conns ]`: by name where the first one begins with a dot, and else in order.
fn connections(source: &Source<'_>, at: &mut usize, depth: u32) -> Result<Connections, ParseFault>
    requires deep { depth ≤ 128 }
    requires within { at.old ≤ length source.now.tokens }
    ensures reads { IfOk result (λ x. Parsed source.now depth at.old at.new (tree.connections x)) }
    ensures fault { IfErr result (λ f. IsWithin source.now f) }
{
    if source.sees(*at, Symbol::Dot) {
        let list = comma_list::<Connection>(source, at, depth)?;
        return Ok(Connections::Named(list));
    }
    let args = args(source, at, depth)?;
    Ok(Connections::Ordered(args))
}

impl Part for Connection {
    ghost reads = { tree.connection };

    fn part(source: &Source<'_>, at: &mut usize, depth: u32) -> Result<Connection, ParseFault> {
        let dot = source.expect(at, Symbol::Dot)?;
        let name = source.expect(at, Symbol::Name)?;
        let value = connected(source, at, depth)?;
        Ok(Connection { dot, name, value })
    }
}

/// `[ "(" [ expr ] ")" ]`
fn connected(
    source: &Source<'_>,
    at: &mut usize,
    depth: u32,
) -> Result<Option<Connected>, ParseFault>
    requires deep { depth ≤ 128 }
    requires within { at.old ≤ length source.now.tokens }
    ensures reads { IfOk result (λ x. Parsed source.now depth at.old at.new (maybe tree.connected x)) }
    ensures fault { IfErr result (λ f. IsWithin source.now f) }
{
    if !source.sees(*at, Symbol::ParenOpen) {
        return Ok(None);
    }
    let open = source.expect(at, Symbol::ParenOpen)?;
    let value = connected_value(source, at, depth)?;
    let close = source.expect(at, Symbol::ParenClose)?;
    Ok(Some(Connected { open, value, close }))
}

/// `[ expr ]`, up to a `)`.
fn connected_value(
    source: &Source<'_>,
    at: &mut usize,
    depth: u32,
) -> Result<Option<Expr>, ParseFault>
    requires deep { depth ≤ 128 }
    requires within { at.old ≤ length source.now.tokens }
    ensures reads { IfOk result (λ x. Parsed source.now depth at.old at.new (maybe expr x)) }
    ensures fault { IfErr result (λ f. IsWithin source.now f) }
{
    if source.sees(*at, Symbol::ParenClose) {
        return Ok(None);
    }
    let value = expr(source, at, depth)?;
    Ok(Some(value))
}
