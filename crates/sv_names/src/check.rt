ghost use Rattle.std.specs.Prelude.{◌≡◌, [], ◌∷◌, IfOk, IfErr, OnOk, None, true};
ghost use Rattle.sv_names.specs.Candidates.{candidates};
ghost use Rattle.sv_names.specs.Cause.{TopAllows, ImportAllows, is_none_or_walked};
ghost use Rattle.sv_names.specs.Noted.{noted};

use crate::checker::Checker;
use crate::class::{Class, import_class};
use crate::fault::DesignFault;
use crate::graph::{Components, Edge};
use crate::items::check_module;
use crate::least::Least;
use crate::members::Members;
use crate::modules::Modules;
use crate::seen::Seen;
use crate::survey::{Use, survey_source};
use crate::top::{Tops, tops_of};
use scope_table::ScopeTable;
use std::alloc::Global;
use sv_tree::{Description, NameId, Names, NoMemory, SourceTree};

/// The number of the top module among the descriptions of a tree: the module that has the name `top`, or where none is
/// asked for the one that no item instantiates.
///
/// The faults that the text alone shows: no top module, then many, then the lowest kind from [`DesignFault::Duplicate`] to
/// [`DesignFault::BadImport`], and of a kind the first in token order over all modules. No other comes but `NoMemory`: there
/// was none left.
pub fn check_names(
    alloc: Global,
    tree: &SourceTree,
    names: &Names,
    top: Option<NameId>,
) -> Result<usize, DesignFault>
    ensures top { IfOk result (λ at. candidates (noted names.now tree.now).used tree.now.descriptions top ≡ at ∷ []) }
    ensures fault { IfErr result (TopAllows (candidates (noted names.now tree.now).used tree.now.descriptions top)) }
    ensures imports { OnOk result ((noted names.now tree.now).bad ≡ None) }
    ensures single { OnOk result ((noted names.now tree.now).twice ≡ None) }
    ensures bad_import { IfErr result (ImportAllows (noted names.now tree.now).bad) }
{
    let Ok(met) = survey_source(alloc, names, tree).into_noted() else {
        return Err(DesignFault::NoMemory);
    };
    let Ok(modules) = Modules::new(alloc, tree) else {
        return Err(DesignFault::NoMemory);
    };
    let at = match tops_of(alloc, tree, &modules, met.uses.as_slice(), top) {
        Ok(Tops::One(at)) => at,
        Ok(Tops::Nothing) => return Err(DesignFault::NoTop),
        Ok(Tops::Many) => return Err(DesignFault::ManyTops),
        Err(_) => return Err(DesignFault::NoMemory),
    };
    if let Some(fault) = first_fault(alloc, tree, names, &modules, met.uses.as_slice()) {
        return Err(fault);
    }
    // The walk has met a second `default` at its place in the order; here it is seen that none is left.
    if let Some(word) = met.twice {
        return Err(DesignFault::Duplicate(word.at, word.name));
    }
    match met.bad {
        Some(place) => Err(DesignFault::BadImport(place)),
        None => Ok(at),
    }
}

/// The least fault that the walk over all modules meets: of imports it sees the names alone.
fn first_fault(
    alloc: Global,
    tree: &SourceTree,
    names: &Names,
    modules: &Modules,
    uses: &[Use],
) -> Option<DesignFault>
    ensures { is_none_or_walked result ≡ true }
{
    let Ok(components) = components_of(alloc, tree, modules, uses) else {
        return Some(DesignFault::NoMemory);
    };
    let Ok(members) = Members::new(alloc, tree, names) else {
        return Some(DesignFault::NoMemory);
    };
    let Ok(mut table) = ScopeTable::new(alloc, names.len(), Class::Nothing) else {
        return Some(DesignFault::NoMemory);
    };
    let Ok(seen) = Seen::new(alloc, names.len()) else {
        return Some(DesignFault::NoMemory);
    };
    let repeated = declare_imports(&mut table, names, tree);
    let mut checker = Checker {
        names,
        modules,
        members: &members,
        components: &components,
        module: 0,
        table,
        seen,
        constructs: 0,
        least: Least::new(),
    };
    check_descriptions(&mut checker, tree, repeated);
    checker.least.get()
}

/// Which modules reach one another by instances.
fn components_of(
    alloc: Global,
    tree: &SourceTree,
    modules: &Modules,
    uses: &[Use],
) -> Result<Components, NoMemory> {
    let mut edges = Vec::new(alloc);
    for one in uses {
        if let Some(to) = modules.find(one.child) {
            let edge = Edge {
                from: one.inside,
                to,
            };
            let Ok(()) = edges.push(edge) else {
                return Err(NoMemory);
            };
        }
    }
    Components::new(alloc, tree.descriptions.len(), edges.as_slice())
}

/// Declares the imports of the file level, which may be used before they stand. The first one whose name another one
/// before it has, by its number among the descriptions.
fn declare_imports(
    table: &mut ScopeTable<Class>,
    names: &Names,
    tree: &SourceTree,
) -> Option<usize> {
    let mut repeated = None;
    for (at, description) in tree.descriptions.as_slice().iter().enumerate() {
        if let Description::Import(import) = description {
            let name = import.name.name;
            if table.is_global(name) {
                repeated = repeated.or(Some(at));
            } else {
                table.declare_global(name, import_class(names, import));
            }
        }
    }
    repeated
}

/// All modules, in order, and the import of the file level that is repeated.
fn check_descriptions(checker: &mut Checker<'_>, tree: &SourceTree, repeated: Option<usize>) {
    for (at, description) in tree.descriptions.as_slice().iter().enumerate() {
        match description {
            Description::Import(import) => {
                if repeated == Some(at) {
                    let name = import.name;
                    checker.offer(DesignFault::Duplicate(name.at, name.name));
                }
            }
            Description::Module(module) => check_module(checker, at, module),
        }
    }
}
