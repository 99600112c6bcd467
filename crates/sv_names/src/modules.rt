ghost use Rattle.std.specs.Prelude.{◌≡◌, IfOk, OnOk};
ghost use Rattle.sv_names.specs.Candidates.{place_of, ArePlaces, Placed};

use std::alloc::Global;
use std::collections::HashMap;
use std::marker::Model;
use sv_tree::{Description, Module, NameId, NoMemory, SourceTree};

/// The modules of a design by their names; contracts see the numbers of their names, each with a place.
#[derive(Drop)]
pub struct Modules {
    places: HashMap<u32, usize>,
}

impl Model for Modules {
    ghost use Rattle.std.specs.Prelude.{List, ℕ};

    ghost Value = { List (ℕ × ℕ) };

    ghost view = { λ m. m.places.entries };
}

impl Modules {
    /// The modules of a tree. Of several modules of one name the first counts.
    ///
    /// `NoMemory`: there was none left.
    pub fn new(alloc: Global, tree: &SourceTree) -> Result<Modules, NoMemory>
        ensures { IfOk result (λ m. ArePlaces m tree.now.descriptions) }
    {
        let Ok(places) = places_of(alloc, tree.descriptions.as_slice()) else {
            return Err(NoMemory);
        };
        Ok(Modules { places })
    }

    /// The number of a module among the descriptions of the tree, where there is one of that name.
    pub fn find(&self, name: NameId) -> Option<usize>
        ensures { result ≡ place_of self.now name.0 }
    {
        self.places.get(&name.0).copied()
    }
}

/// The places of the modules.
fn places_of(alloc: Global, descriptions: &[Description]) -> Result<HashMap<u32, usize>, NoMemory>
    ensures { IfOk result (λ m. ArePlaces m.entries descriptions.now) }
{
    let mut places = HashMap::new(alloc);
    for at in 0..descriptions.len() {
        let Ok(()) = place(&mut places, &descriptions[at], at) else {
            return Err(NoMemory);
        };
    }
    Ok(places)
}

/// Notes the place of a module, where its name has none yet.
fn place(
    places: &mut HashMap<u32, usize>,
    description: &Description,
    at: usize,
) -> Result<(), NoMemory>
    ensures { OnOk result (Placed places.old.entries description.now at places.new.entries) }
{
    let Description::Module(module) = description else {
        return Ok(());
    };
    let name = module.name.name.0;
    if places.contains_key(&name) {
        return Ok(());
    }
    let Ok(_) = places.insert(name, at) else {
        return Err(NoMemory);
    };
    Ok(())
}

/// The module of a number among the descriptions of a tree, where there is one.
pub fn module_at(tree: &SourceTree, at: usize) -> Option<&Module> {
    match tree.descriptions.as_slice().get(at) {
        Some(Description::Module(module)) => Some(module),
        _ => None,
    }
}
