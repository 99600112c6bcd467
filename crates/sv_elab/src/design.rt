ghost use Rattle.std.specs.Prelude.{◌≡◌, Some, None, IfOk, IfErr, OnOk, MatchOption};
ghost use Rattle.sv_names.specs.Candidates.{candidates};
ghost use Rattle.sv_names.specs.Noted.{noted};
ghost use Rattle.sv_elab.specs.Faults.{Allows};
ghost use Rattle.sv_elab.specs.Rooted.{top_module};
ghost use Rattle.sv_elab.specs.Top.{IsTop, name_at, name_of};

use crate::fault::told;
use crate::scopes::Scopes;
use crate::walk::Walk;
use elab_parts::{Counts, Places, Present, Stop, import_denoted, root};
use scope_table::ScopeTable;
use std::alloc::Global;
use sv_expr::Denoted;
use sv_names::{DesignFault, Modules, check_names};
use sv_tree::{Description, Module, NameId, Names, SourceTree};

/// The scopes of a design, from its top module down (IEEE 1800-2017 3.10 and 23.10). The top is the module of the name
/// `top`, or where none is asked for the one that no item instantiates.
///
/// The faults that the text alone shows come first, as [`check_names`] tells them; then the first one that the walk
/// meets: [`DesignFault::TooWide`], [`DesignFault::BadRange`], [`DesignFault::BadEvent`], [`DesignFault::LoopTurns`], or
/// [`DesignFault::TooMany`] of instances, processes, terms or calls.
/// `NoMemory`: there was none left.
pub fn elaborate(
    alloc: Global,
    tree: &SourceTree,
    names: &Names,
    top: Option<NameId>,
) -> Result<Scopes, DesignFault>
    ensures top { let source = tree.now.descriptions in IfOk result (λ found. IsTop (candidates (noted names.now tree.now).used source top) source found.scopes.items) }
    ensures imports { OnOk result ((noted names.now tree.now).bad ≡ None) }
    ensures single { OnOk result ((noted names.now tree.now).twice ≡ None) }
    ensures fault { IfErr result (Allows (candidates (noted names.now tree.now).used tree.now.descriptions top) (noted names.now tree.now).bad) }
{
    let number = match check_names(alloc, tree, names, top) {
        Ok(number) => number,
        Err(fault) => return Err(fault),
    };
    let Some(module) = module_of(tree, number) else {
        return Err(DesignFault::NoTop);
    };
    match laid_out(alloc, tree, names, module) {
        Ok(scopes) => Ok(scopes),
        Err(stop) => Err(told(stop)),
    }
}

/// The module of a number among the descriptions of a tree, where there is one.
fn module_of(tree: &SourceTree, number: usize) -> Option<&Module>
    ensures { MatchOption result (name_at tree.now.descriptions number ≡ None) (λ found. name_at tree.now.descriptions number ≡ Some found.now.name.name.0) }
{
    let mut rest = tree.descriptions.as_slice();
    let mut left = number;
    while let [description, more @ ..] = rest {
        if left == 0 {
            return module_in(description);
        }
        left -= 1;
        rest = more;
    }
    None
}

/// The module that a description is.
fn module_in(description: &Description) -> Option<&Module>
    ensures { MatchOption result (name_of description.now ≡ None) (λ found. name_of description.now ≡ Some found.now.name.name.0) }
{
    match description {
        Description::Module(module) => Some(module),
        Description::Import(_) => None,
    }
}

/// The scopes from the top down.
fn laid_out(alloc: Global, tree: &SourceTree, names: &Names, top: &Module) -> Result<Scopes, Stop>
    ensures { IfOk result (λ found. top_module found.scopes.items ≡ Some top.now.name.name.0) }
{
    let mut walk = before(alloc, tree, names, top)?;
    walk.top(top)?;
    walk.run()?;
    let mut scopes = walk.scopes;
    scopes.name_top(top.name.name);
    Ok(scopes)
}

/// The walk before the top is entered.
fn before<'t>(
    alloc: Global,
    tree: &'t SourceTree,
    names: &'t Names,
    top: &Module,
) -> Result<Walk<'t>, Stop> {
    let present = Present {
        names,
        table: file_level(alloc, tree, names)?,
        counts: Counts::none(),
    };
    let child = file_level(alloc, tree, names)?;
    let tables = empty_tables(alloc, tree, names)?;
    with_top(alloc, tree, top, present, child, tables)
}

/// The tables of a walk besides those of what names denote.
#[derive(Drop)]
struct Tables {
    modules: Modules,
    declared: ScopeTable<bool>,
    places: Places,
}

/// The tables of a walk, with nothing in them.
fn empty_tables(alloc: Global, tree: &SourceTree, names: &Names) -> Result<Tables, Stop> {
    let modules = Modules::new(alloc, tree)?;
    let declared = ScopeTable::new(alloc, names.len(), false)?;
    let places = Places::none(alloc, names.len())?;
    Ok(Tables {
        modules,
        declared,
        places,
    })
}

/// The walk with the scope of the top.
fn with_top<'t>(
    alloc: Global,
    tree: &'t SourceTree,
    top: &Module,
    present: Present<'t>,
    child: ScopeTable<Denoted>,
    tables: Tables,
) -> Result<Walk<'t>, Stop> {
    let path = root(alloc, present.names.text_of(top.name.name))?;
    let scopes = Scopes::new(alloc, path, top.name.name)?;
    let Tables {
        modules,
        declared,
        places,
    } = tables;
    Ok(Walk {
        alloc,
        tree,
        modules,
        present,
        declared,
        child,
        places,
        scopes,
        open: Vec::new(alloc),
        levels: Vec::new(alloc),
        turns: Vec::new(alloc),
    })
}

/// What names denote at the file level: its imports.
fn file_level(
    alloc: Global,
    tree: &SourceTree,
    names: &Names,
) -> Result<ScopeTable<Denoted>, Stop> {
    let mut table = ScopeTable::new(alloc, names.len(), Denoted::Nothing)?;
    for description in tree.descriptions.as_slice() {
        if let Description::Import(import) = description {
            table.declare_global(import.name.name, import_denoted(names, import));
        }
    }
    Ok(table)
}
