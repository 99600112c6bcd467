//! The directions of ports, and the ports of the top module (IEEE 1800-2017 23.2.2.3).

ghost use Rattle.std.specs.Prelude.{◌≡◌, suc, Some, None, IfOk, MatchOption};
ghost use Rattle.rtl_flat.specs.Ports as spec;

use rtl_ir::Port;
use rtl_lower::FlatFault;
use sqlite_items::Items;
use std::alloc::Global;
use sv_expr::symbol;
use sv_tree::{CommaList, Description, Module, NameId, Names, Port as TreePort, Symbol, Token};

/// The first module of a name.
pub fn module_named(descriptions: &[Description], name: NameId) -> Option<&Module>
    ensures { MatchOption result (spec.module_named name.0 descriptions.now ≡ None) (λ m. spec.module_named name.0 descriptions.now ≡ Some m.now) }
{
    let mut rest = descriptions;
    while let [description, more @ ..] = rest {
        if let Description::Module(module) = description {
            if module.name.name.0 == name.0 {
                return Some(module);
            }
        }
        rest = more;
    }
    None
}

/// The list of ports of a module, if it has one.
pub fn ports_of(child: &Module) -> Option<&CommaList<TreePort>>
    ensures { MatchOption result (spec.list_of child.now.ports ≡ None) (λ list. spec.list_of child.now.ports ≡ Some list.now) }
{
    match &child.ports {
        Some(ports) => match &ports.list {
            Some(list) => Some(list),
            None => None,
        },
        None => None,
    }
}

/// Whether a port is an input, by its word or else by the port before it.
pub fn is_input(names: &Names, before: bool, word: Option<Token>) -> bool
    ensures { result ≡ spec.is_input names.now before word }
{
    match word {
        Some(word) => !says_output(symbol(names, word)),
        None => before,
    }
}

/// Whether a word is `output`.
fn says_output(word: Symbol) -> bool
    ensures { result ≡ spec.says_output word }
{
    match word {
        Symbol::Output => true,
        _ => false,
    }
}

/// The ports of a top module.
pub fn top_ports(alloc: Global, names: &Names, top: &Module) -> Result<Items<Port>, FlatFault>
    ensures { IfOk result (λ all. all ≡ spec.ports_of names.now top.now) }
{
    match ports_of(top) {
        Some(list) => listed_ports(alloc, names, list),
        None => Ok(Items::new(alloc)),
    }
}

/// The ports of a list.
fn listed_ports(
    alloc: Global,
    names: &Names,
    list: &CommaList<TreePort>,
) -> Result<Items<Port>, FlatFault>
    ensures { IfOk result (λ all. all ≡ spec.listed_ports names.now list.now) }
{
    let mut all = Items::new(alloc);
    let mut last = Port {
        var: 0,
        input: is_input(names, true, list.first.direction),
    };
    all.push(last)?;
    let mut rest = list.more.as_slice();
    while let [joined, more @ ..] = rest {
        last = next_port(names, last, joined.item.direction)?;
        all.push(last)?;
        rest = more;
    }
    Ok(all)
}

/// The port after another one.
fn next_port(names: &Names, before: Port, word: Option<Token>) -> Result<Port, FlatFault>
    ensures { IfOk result (λ port. port ≡ record { var = suc before.var; input = spec.is_input names.now before.input word }) }
{
    let Some(var) = before.var.checked_add(1) else {
        return Err(FlatFault::NotElaborated);
    };
    let input = is_input(names, before.input, word);
    Ok(Port { var, input })
}
