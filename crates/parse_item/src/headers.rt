//! Parameter lists and ports of modules (IEEE 1800-2017 A.1.3).

ghost use Rattle.std.specs.Prelude.{◌≡◌, ◌≤◌, ℕ, length, IfOk, IfErr};
ghost use Rattle.sv_tree.specs.Symbol.{is_direction};
ghost use Rattle.sv_tree.specs.Tree as tree;
ghost use Rattle.sv_tree.specs.TreeRead.{maybe, one_of};
ghost use Rattle.parse_expr.specs.Parsed.{Parsed, IsWithin};

use crate::class::is_direction;
use crate::lists::{Part, comma_list, comma_more, take_where};
use parse_expr::{ParseFault, Source, data_type_if, setting, syntax};
use sv_tree::{CommaList, Parameter, ParameterList, Port, PortList, Symbol, Token};

/// `[ "#" "(" param { "," param } ")" ]`
pub fn parameter_list(
    source: &Source<'_>,
    at: &mut usize,
    depth: u32,
) -> Result<Option<ParameterList>, ParseFault>
    requires deep { depth ≤ 128 }
    requires within { at.old ≤ length source.now.tokens }
    ensures reads { IfOk result (λ x. Parsed source.now depth at.old at.new (maybe tree.parameter_list x)) }
    ensures fault { IfErr result (λ f. IsWithin source.now f) }
{
    if !source.sees(*at, Symbol::Hash) {
        return Ok(None);
    }
    let hash = source.expect(at, Symbol::Hash)?;
    let open = source.expect(at, Symbol::ParenOpen)?;
    let list = comma_list::<Parameter>(source, at, depth)?;
    let close = source.expect(at, Symbol::ParenClose)?;
    Ok(Some(ParameterList {
        hash,
        open,
        list,
        close,
    }))
}

impl Part for Parameter {
    ghost reads = { tree.parameter };

    fn part(source: &Source<'_>, at: &mut usize, depth: u32) -> Result<Parameter, ParseFault> {
        let word = source.take_if(at, Symbol::Parameter);
        let kind = data_type_if(source, at, depth)?;
        let setting = setting(source, at, depth)?;
        Ok(Parameter {
            word,
            kind,
            setting,
        })
    }
}

/// `[ "(" [ dir [ type ] NAME { "," port } ] ")" ]`
pub fn port_list(
    source: &Source<'_>,
    at: &mut usize,
    depth: u32,
) -> Result<Option<PortList>, ParseFault>
    requires deep { depth ≤ 128 }
    requires within { at.old ≤ length source.now.tokens }
    ensures reads { IfOk result (λ x. Parsed source.now depth at.old at.new (maybe tree.port_list x)) }
    ensures fault { IfErr result (λ f. IsWithin source.now f) }
{
    if !source.sees(*at, Symbol::ParenOpen) {
        return Ok(None);
    }
    let open = source.expect(at, Symbol::ParenOpen)?;
    let list = ports(source, at, depth)?;
    let close = source.expect(at, Symbol::ParenClose)?;
    Ok(Some(PortList { open, list, close }))
}

/// `[ dir [ type ] NAME { "," port } ]`, up to a `)`: the first port has its direction.
fn ports(
    source: &Source<'_>,
    at: &mut usize,
    depth: u32,
) -> Result<Option<CommaList<Port>>, ParseFault>
    requires deep { depth ≤ 128 }
    requires within { at.old ≤ length source.now.tokens }
    ensures reads { IfOk result (λ x. Parsed source.now depth at.old at.new (maybe tree.ports x)) }
    ensures fault { IfErr result (λ f. IsWithin source.now f) }
{
    if source.sees(*at, Symbol::ParenClose) {
        return Ok(None);
    }
    if !is_direction(source.peek(*at)) {
        return Err(syntax(*at));
    }
    let direction = source.take(at)?;
    let first = port(source, at, depth, Some(direction))?;
    let more = comma_more::<Port>(source, at, depth)?;
    Ok(Some(CommaList { first, more }))
}

/// `[ type ] NAME`, after what may stand before it.
fn port(
    source: &Source<'_>,
    at: &mut usize,
    depth: u32,
    direction: Option<Token>,
) -> Result<Port, ParseFault>
    requires deep { depth ≤ 128 }
    requires within { at.old ≤ length source.now.tokens }
    ensures reads { IfOk result (λ x. (start : ℕ) → Parsed source.now depth start at.old (maybe (one_of is_direction) direction)
        → Parsed source.now depth start at.new (tree.port x)) }
    ensures direction { IfOk result (λ x. x.direction ≡ direction) }
    ensures fault { IfErr result (λ f. IsWithin source.now f) }
{
    let kind = data_type_if(source, at, depth)?;
    let name = source.expect(at, Symbol::Name)?;
    Ok(Port {
        direction,
        kind,
        name,
    })
}

impl Part for Port {
    ghost reads = { tree.port };

    fn part(source: &Source<'_>, at: &mut usize, depth: u32) -> Result<Port, ParseFault> {
        let direction = take_where(source, at, is_direction(source.peek(*at)))?;
        port(source, at, depth, direction)
    }
}
