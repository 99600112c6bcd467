//! Which module is the top.

ghost use Rattle.std.specs.Prelude.{◌≡◌, ◌∷◌, ℕ, List, map, IfOk};
ghost use Rattle.sv_names.specs.Candidates.{candidates, unused as unused_modules, is_unused as is_unused_module, ArePlaces, AreKeys};
ghost use Rattle.sv_names.specs.Tops.{summary, with_more};

use crate::modules::Modules;
use crate::survey::Use;
use std::alloc::Global;
use std::collections::HashSet;
use sv_tree::{Description, NameId, NoMemory, SourceTree};

/// The modules that may be the top.
#[derive(Clone, Copy, Debug, PartialEq, Eq)]
pub enum Tops {
    /// There is none.
    Nothing,
    /// One, by its number among the descriptions of the tree.
    One(usize),
    /// Two or more.
    Many,
}

/// The modules that may be the top: the one that has the name that was asked for, or those that no item instantiates.
///
/// `NoMemory`: there was none left.
pub fn tops_of(
    alloc: Global,
    tree: &SourceTree,
    modules: &Modules,
    uses: &[Use],
    top: Option<NameId>,
) -> Result<Tops, NoMemory>
    requires { ArePlaces modules.now tree.now.descriptions }
    ensures { IfOk result (λ t. t ≡ summary (candidates (map (λ u. u.child.0) uses.now) tree.now.descriptions top)) }
{
    let Some(name) = top else {
        return unused_tops(alloc, tree.descriptions.as_slice(), uses);
    };
    match modules.find(name) {
        Some(at) => Ok(Tops::One(at)),
        None => Ok(Tops::Nothing),
    }
}

/// The modules that no item instantiates.
fn unused_tops(alloc: Global, descriptions: &[Description], uses: &[Use]) -> Result<Tops, NoMemory>
    ensures { IfOk result (λ t. t ≡ summary (unused_modules (map (λ u. u.child.0) uses.now) 0 descriptions.now)) }
{
    let Ok(used) = used_names(alloc, uses) else {
        return Err(NoMemory);
    };
    let mut tops = Tops::Nothing;
    for at in 0..descriptions.len() {
        if is_unused(&used, &descriptions[at]) {
            tops = one_more(tops, at);
        }
    }
    Ok(tops)
}

/// The names of the modules that some item instantiates.
fn used_names(alloc: Global, uses: &[Use]) -> Result<HashSet<u32>, NoMemory>
    ensures { IfOk result (λ s. AreKeys s.keys (map (λ u. u.child.0) uses.now)) }
{
    let mut used = HashSet::new(alloc);
    let mut rest = uses;
    while let [one, more @ ..] = rest {
        let Ok(_) = used.insert(one.child.0) else {
            return Err(NoMemory);
        };
        rest = more;
    }
    Ok(used)
}

/// Whether a description is a module whose name is not used.
fn is_unused(used: &HashSet<u32>, description: &Description) -> bool
    ensures { (names : List ℕ) → AreKeys used.now.keys names → result ≡ is_unused_module names description.now }
{
    match description {
        Description::Module(module) => !used.contains(&module.name.name.0),
        Description::Import(_) => false,
    }
}

/// One module more.
fn one_more(tops: Tops, at: usize) -> Tops
    ensures { (more : List ℕ) → with_more result more ≡ with_more tops (at ∷ more) }
{
    match tops {
        Tops::Nothing => Tops::One(at),
        Tops::One(_) | Tops::Many => Tops::Many,
    }
}
