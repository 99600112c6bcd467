ghost use Rattle.std.specs.Prelude.{◌≡◌, true, Some, map, IfOk};
ghost use Rattle.std.specs.List.{All, list_all};
ghost use Rattle.rtl_flat.specs.Imports as imports;
ghost use Rattle.rtl_flat.specs.Laid.{VarStands, MemStands, ScopeByScope, Begins, typed, flat_scope_of, var_scope, mem_scope};
ghost use Rattle.rtl_flat.specs.Ports as ports;
ghost use Rattle.rtl_flat.specs.PortVars.{ArePortVars, ports_in as port_vars_in};
ghost use Rattle.rtl_lower.specs.Kinds.{environment_of};
ghost use Rattle.rtl_flat.specs.Edges.{has_bit_events};

use crate::edges::have_bit_events;
use crate::imports::{flat_imports, imports_in, number_of};
use crate::ports::{module_named, top_ports};
use crate::processes::{Lowering, import_denoted};
use crate::text::copied;
use crate::variables::{Variables, declarations_of, laid_down, port_vars};
use crate::walk::Walk;
use elab_parts::Places;
use rtl_ir::{Design, FlatScope, Import, Port, Proc};
use rtl_lower::FlatFault;
use sqlite_items::Items;
use std::alloc::Global;
use sv_elab::{Scope, Scopes};
use sv_tree::{Description, Import as TreeImport, Module, Names, NoMemory, SourceTree};

/// The flat design of a tree whose scopes these are.
///
/// `NoMemory`: there was none left, or the scopes are not those that elaboration gives for the tree.
pub fn flatten(
    alloc: Global,
    tree: &SourceTree,
    names: &Names,
    scopes: &Scopes,
) -> Result<Design, NoMemory>
    ensures scopes { IfOk result (λ d. d.scopes ≡ map flat_scope_of scopes.now.scopes.items) }
    ensures imports { IfOk result (λ d. imports.AreImports names.now tree.now d.imports) }
    ensures ports { IfOk result (λ d. ports.top_ports names.now tree.now.descriptions scopes.now.scopes.items ≡ Some d.ports) }
    ensures port_vars { IfOk result (λ d. ArePortVars names.now tree.now.descriptions scopes.now.scopes.items d.vars) }
    ensures events { IfOk result (λ d. list_all (has_bit_events d.vars) d.procs ≡ true) }
    ensures vars { IfOk result (λ d. All (VarStands scopes.now.scopes.items) d.vars) }
    ensures mems { IfOk result (λ d. All (MemStands scopes.now.scopes.items) d.mems) }
    ensures vars_order { IfOk result (λ d. ScopeByScope var_scope d.vars) }
    ensures mems_order { IfOk result (λ d. ScopeByScope mem_scope d.mems) }
{
    match flattened(alloc, tree, names, scopes.scopes.as_slice()) {
        Ok(design) => Ok(design),
        Err(FlatFault::NoMemory) | Err(FlatFault::NotElaborated) => Err(NoMemory),
    }
}

/// The flat design.
fn flattened(
    alloc: Global,
    tree: &SourceTree,
    names: &Names,
    scopes: &[Scope],
) -> Result<Design, FlatFault>
    ensures scopes { IfOk result (λ d. d.scopes ≡ map flat_scope_of scopes.now) }
    ensures imports { IfOk result (λ d. imports.AreImports names.now tree.now d.imports) }
    ensures ports { IfOk result (λ d. ports.top_ports names.now tree.now.descriptions scopes.now ≡ Some d.ports) }
    ensures port_vars { IfOk result (λ d. ArePortVars names.now tree.now.descriptions scopes.now d.vars) }
    ensures events { IfOk result (λ d. list_all (has_bit_events d.vars) d.procs ≡ true) }
    ensures vars { IfOk result (λ d. All (VarStands scopes.now) d.vars) }
    ensures mems { IfOk result (λ d. All (MemStands scopes.now) d.mems) }
    ensures vars_order { IfOk result (λ d. ScopeByScope var_scope d.vars) }
    ensures mems_order { IfOk result (λ d. ScopeByScope mem_scope d.mems) }
{
    let texts = imports_in(alloc, tree)?;
    of_imports(alloc, tree, names, scopes, texts.as_slice())
}

/// The flat design, whose imports stand at these places of the tree.
fn of_imports(
    alloc: Global,
    tree: &SourceTree,
    names: &Names,
    scopes: &[Scope],
    texts: &[&TreeImport],
) -> Result<Design, FlatFault>
    ensures scopes { IfOk result (λ d. d.scopes ≡ map flat_scope_of scopes.now) }
    ensures imports { IfOk result (λ d. map imports.told d.imports ≡ map (λ x. imports.told_of names.now x.now) texts.now) }
    ensures ports { IfOk result (λ d. ports.top_ports names.now tree.now.descriptions scopes.now ≡ Some d.ports) }
    ensures port_vars { IfOk result (λ d. ArePortVars names.now tree.now.descriptions scopes.now d.vars) }
    ensures events { IfOk result (λ d. list_all (has_bit_events d.vars) d.procs ≡ true) }
    ensures vars { IfOk result (λ d. All (VarStands scopes.now) d.vars) }
    ensures mems { IfOk result (λ d. All (MemStands scopes.now) d.mems) }
    ensures vars_order { IfOk result (λ d. ScopeByScope var_scope d.vars) }
    ensures mems_order { IfOk result (λ d. ScopeByScope mem_scope d.mems) }
{
    let imports = flat_imports(alloc, names, texts)?;
    let parts = parts_of(alloc, tree, names, scopes, imports.as_slice(), texts)?;
    whole(alloc, scopes, parts, imports)
}

/// What the walks over a design give, and the ports of the top.
#[derive(Drop)]
struct Parts {
    variables: Variables,
    procs: Items<Proc>,
    ports: Items<Port>,
}

/// The parts of the design of these imports.
fn parts_of(
    alloc: Global,
    tree: &SourceTree,
    names: &Names,
    scopes: &[Scope],
    imports: &[Import],
    texts: &[&TreeImport],
) -> Result<Parts, FlatFault>
    ensures ports { IfOk result (λ parts. ports.top_ports names.now tree.now.descriptions scopes.now ≡ Some parts.ports) }
    ensures port_vars { IfOk result (λ parts. ArePortVars names.now tree.now.descriptions scopes.now parts.variables.vars) }
    ensures events { IfOk result (λ parts. list_all (has_bit_events parts.variables.vars) parts.procs ≡ true) }
    ensures vars { IfOk result (λ parts. All (VarStands scopes.now) parts.variables.vars) }
    ensures mems { IfOk result (λ parts. All (MemStands scopes.now) parts.variables.mems) }
    ensures vars_order { IfOk result (λ parts. ScopeByScope var_scope parts.variables.vars) }
    ensures mems_order { IfOk result (λ parts. ScopeByScope mem_scope parts.variables.mems) }
{
    let variables = declared(alloc, tree, names, scopes)?;
    let ports = ports_in(alloc, tree, names, scopes)?;
    let procs = processes(alloc, tree, names, scopes, &variables, imports, texts)?;
    Ok(Parts {
        variables,
        procs,
        ports,
    })
}

/// The variables and memories.
fn declared(
    alloc: Global,
    tree: &SourceTree,
    names: &Names,
    scopes: &[Scope],
) -> Result<Variables, FlatFault>
    ensures port_vars { IfOk result (λ variables. ArePortVars names.now tree.now.descriptions scopes.now variables.vars) }
    ensures vars { IfOk result (λ variables. All (VarStands scopes.now) variables.vars) }
    ensures mems { IfOk result (λ variables. All (MemStands scopes.now) variables.mems) }
    ensures vars_order { IfOk result (λ variables. ScopeByScope var_scope variables.vars) }
    ensures mems_order { IfOk result (λ variables. ScopeByScope mem_scope variables.mems) }
{
    let mut walk = Walk::new(alloc, tree, names, scopes, &[])?;
    let top = walk.enter_top()?;
    declared_from(alloc, scopes, &mut walk, top)
}

/// The variables and memories, where a walk has entered the top, which is of this module.
fn declared_from(
    alloc: Global,
    scopes: &[Scope],
    walk: &mut Walk<'_>,
    top: &Module,
) -> Result<Variables, FlatFault>
    ensures ports { IfOk result (λ variables. Begins (port_vars_in (environment_of walk.old.present.inside.names.now walk.old.present.inside.table) (ports.list_of top.now.ports)) (map typed variables.vars)) }
    ensures vars { IfOk result (λ variables. All (VarStands scopes.now) variables.vars) }
    ensures mems { IfOk result (λ variables. All (MemStands scopes.now) variables.mems) }
    ensures vars_order { IfOk result (λ variables. ScopeByScope var_scope variables.vars) }
    ensures mems_order { IfOk result (λ variables. ScopeByScope mem_scope variables.mems) }
{
    let ports = port_vars(alloc, &walk.present.inside.view(), top)?;
    let held = declarations_of(alloc, walk)?;
    laid_down(alloc, scopes, ports, held)
}

/// The processes.
fn processes(
    alloc: Global,
    tree: &SourceTree,
    names: &Names,
    scopes: &[Scope],
    variables: &Variables,
    imports: &[Import],
    texts: &[&TreeImport],
) -> Result<Items<Proc>, FlatFault>
    ensures { IfOk result (λ procs. list_all (has_bit_events variables.now.vars) procs ≡ true) }
{
    let procs = lowered(alloc, tree, names, scopes, variables, imports, texts)?;
    if !have_bit_events(variables.vars.as_slice(), procs.as_slice()) {
        return Err(FlatFault::NotElaborated);
    }
    Ok(procs)
}

/// The processes as the walk over them makes them.
fn lowered(
    alloc: Global,
    tree: &SourceTree,
    names: &Names,
    scopes: &[Scope],
    variables: &Variables,
    imports: &[Import],
    texts: &[&TreeImport],
) -> Result<Items<Proc>, FlatFault> {
    let mut pass = Lowering {
        alloc,
        vars: variables.vars.as_slice(),
        mems: variables.mems.as_slice(),
        texts,
        extents: variables.extents.as_slice(),
        places: Places::none(alloc, names.len())?,
        procs: Items::new(alloc),
    };
    lower(alloc, tree, names, scopes, imports, &mut pass)?;
    Ok(pass.procs)
}

/// Lets a pass go over the processes.
fn lower(
    alloc: Global,
    tree: &SourceTree,
    names: &Names,
    scopes: &[Scope],
    imports: &[Import],
    pass: &mut Lowering<'_>,
) -> Result<(), FlatFault> {
    let mut walk = Walk::new(alloc, tree, names, scopes, imports)?;
    declare_imports(&mut walk, tree, pass.texts)?;
    walk.run(pass)
}

/// Declares the imports of the file level.
fn declare_imports(
    walk: &mut Walk<'_>,
    tree: &SourceTree,
    texts: &[&TreeImport],
) -> Result<(), FlatFault> {
    for description in tree.descriptions.as_slice() {
        if let Description::Import(import) = description {
            let number = number_of(texts, import)?;
            let denoted = import_denoted(walk.present.inside.names, import, number);
            walk.present
                .inside
                .table
                .declare_global(import.name.name, denoted);
        }
    }
    Ok(())
}

/// The design of its parts.
fn whole(
    alloc: Global,
    scopes: &[Scope],
    parts: Parts,
    imports: Items<Import>,
) -> Result<Design, FlatFault>
    ensures scopes { IfOk result (λ d. d.scopes ≡ map flat_scope_of scopes.now) }
    ensures imports { IfOk result (λ d. d.imports ≡ imports) }
    ensures ports { IfOk result (λ d. d.ports ≡ parts.ports) }
    ensures vars { IfOk result (λ d. d.vars ≡ parts.variables.vars) }
    ensures mems { IfOk result (λ d. d.mems ≡ parts.variables.mems) }
    ensures procs { IfOk result (λ d. d.procs ≡ parts.procs) }
{
    let Parts {
        variables,
        procs,
        ports,
    } = parts;
    let Variables {
        vars,
        mems,
        extents: _,
    } = variables;
    let scopes = flat_scopes(alloc, scopes)?;
    match Design::new(vars, mems, procs, imports, ports, scopes) {
        Some(design) => Ok(design),
        None => Err(FlatFault::NotElaborated),
    }
}

/// The ports of the module of the first scope.
fn ports_in(
    alloc: Global,
    tree: &SourceTree,
    names: &Names,
    scopes: &[Scope],
) -> Result<Items<Port>, FlatFault>
    ensures { IfOk result (λ all. ports.top_ports names.now tree.now.descriptions scopes.now ≡ Some all) }
{
    let [top, ..] = scopes else {
        return Err(FlatFault::NotElaborated);
    };
    match module_named(tree.descriptions.as_slice(), top.module) {
        Some(module) => top_ports(alloc, names, module),
        None => Err(FlatFault::NotElaborated),
    }
}

/// The scopes of the design.
fn flat_scopes(alloc: Global, scopes: &[Scope]) -> Result<Items<FlatScope>, FlatFault>
    ensures { IfOk result (λ all. all ≡ map flat_scope_of scopes.now) }
{
    let mut all = Items::new(alloc);
    for scope in scopes {
        all.push(flat_scope(alloc, scope)?)?;
    }
    Ok(all)
}

/// A scope of the design.
fn flat_scope(alloc: Global, scope: &Scope) -> Result<FlatScope, FlatFault>
    ensures { IfOk result (λ flat. flat ≡ flat_scope_of scope.now) }
{
    Ok(FlatScope {
        path: copied(alloc, scope.path.as_bytes())?,
        parent: scope.parent,
        block: scope.block,
    })
}
