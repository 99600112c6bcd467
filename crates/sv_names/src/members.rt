//! What an instance may name of a module: its ports, and the parameters that may be overridden.

use crate::class::list_len;
use crate::spelled::is_spelled;
use std::alloc::Global;
use std::collections::HashMap;
use sv_tree::{
    CommaList, Description, Item, Module, NameId, Names, NoMemory, Parameter, Port, Setting,
    SourceTree, Token,
};

/// The direction of a port.
#[derive(Clone, Copy, Debug, PartialEq, Eq)]
pub enum Direction {
    Input,
    Output,
}

/// A name of a module, by the module's number among the descriptions of the tree.
#[derive(Clone, Copy, Debug, PartialEq, Eq, Hash)]
struct Key {
    module: usize,
    name: u32,
}

/// Where the ports of a module stand among those of all, and how many parameters may be overridden.
#[derive(Clone, Copy)]
struct Extent {
    first: usize,
    end: usize,
    parameters: usize,
}

/// The ports and parameters of all modules.
#[derive(Drop)]
pub struct Members {
    extents: Vec<Extent>,
    directions: Vec<Direction>,
    ports: HashMap<Key, Direction>,
    parameters: HashMap<Key, ()>,
}

impl Members {
    /// The members of each module of a tree.
    ///
    /// `NoMemory`: there was none left.
    pub fn new(alloc: Global, tree: &SourceTree, names: &Names) -> Result<Members, NoMemory> {
        let mut members = Members {
            extents: Vec::new(alloc),
            directions: Vec::new(alloc),
            ports: HashMap::new(alloc),
            parameters: HashMap::new(alloc),
        };
        for (at, description) in tree.descriptions.as_slice().iter().enumerate() {
            let Ok(()) = members.add_description(names, at, description) else {
                return Err(NoMemory);
            };
        }
        Ok(members)
    }

    /// The direction of a port by its name.
    pub fn port(&self, module: Option<usize>, name: NameId) -> Option<Direction> {
        let Some(module) = module else {
            return None;
        };
        let key = Key {
            module,
            name: name.0,
        };
        self.ports.get(&key).copied()
    }

    /// The direction of a port by its place in the list of ports, from 0.
    pub fn port_at(&self, module: Option<usize>, at: usize) -> Option<Direction> {
        let Some(extent) = self.extent(module) else {
            return None;
        };
        let place = extent.first.saturating_add(at);
        if place >= extent.end {
            return None;
        }
        self.directions.get(place).copied()
    }

    /// Whether a name is that of a parameter that may be overridden.
    pub fn is_parameter(&self, module: Option<usize>, name: NameId) -> bool {
        let Some(module) = module else {
            return false;
        };
        let key = Key {
            module,
            name: name.0,
        };
        self.parameters.contains_key(&key)
    }

    /// How many parameters may be overridden.
    pub fn parameter_count(&self, module: Option<usize>) -> usize {
        match self.extent(module) {
            Some(extent) => extent.parameters,
            None => 0,
        }
    }

    fn extent(&self, module: Option<usize>) -> Option<Extent> {
        match module {
            Some(module) => self.extents.get(module).copied(),
            None => None,
        }
    }

    fn add_description(
        &mut self,
        names: &Names,
        at: usize,
        description: &Description,
    ) -> Result<(), NoMemory> {
        let first = self.directions.len();
        let mut parameters = 0;
        if let Description::Module(module) = description {
            self.add_ports(names, at, module)?;
            parameters = self.add_parameters(names, at, module)?;
        }
        let extent = Extent {
            first,
            end: self.directions.len(),
            parameters,
        };
        let Ok(()) = self.extents.push(extent) else {
            return Err(NoMemory);
        };
        Ok(())
    }

    // A port without a direction has that of the port before it.
    fn add_ports(&mut self, names: &Names, at: usize, module: &Module) -> Result<(), NoMemory> {
        let Some(ports) = port_list(module) else {
            return Ok(());
        };
        let mut last = direction_of(names, &ports.first, Direction::Input);
        self.add_port(at, ports.first.name, last)?;
        for joined in ports.more.as_slice() {
            last = direction_of(names, &joined.item, last);
            let Ok(()) = self.add_port(at, joined.item.name, last) else {
                return Err(NoMemory);
            };
        }
        Ok(())
    }

    fn add_port(
        &mut self,
        module: usize,
        name: Token,
        direction: Direction,
    ) -> Result<(), NoMemory> {
        let Ok(()) = self.directions.push(direction) else {
            return Err(NoMemory);
        };
        let key = Key {
            module,
            name: name.name.0,
        };
        let Ok(_) = self.ports.insert(key, direction) else {
            return Err(NoMemory);
        };
        Ok(())
    }

    fn add_parameters(
        &mut self,
        names: &Names,
        at: usize,
        module: &Module,
    ) -> Result<usize, NoMemory> {
        match &module.parameters {
            Some(list) => self.add_listed(at, &list.list),
            None => self.add_items(names, at, 0, module.items.as_slice()),
        }
    }

    fn add_listed(&mut self, at: usize, list: &CommaList<Parameter>) -> Result<usize, NoMemory> {
        self.add_parameter(at, list.first.setting.name)?;
        for joined in list.more.as_slice() {
            let Ok(()) = self.add_parameter(at, joined.item.setting.name) else {
                return Err(NoMemory);
            };
        }
        Ok(list_len(list))
    }

    // The parameters among items that stand in no generate block, after so many others.
    fn add_items(
        &mut self,
        names: &Names,
        at: usize,
        before: usize,
        items: &[Item],
    ) -> Result<usize, NoMemory> {
        let mut count = before;
        for item in items {
            count = match item {
                Item::Parameters { word, settings, .. } => {
                    match self.add_settings(names, at, count, *word, settings) {
                        Ok(count) => count,
                        Err(_) => return Err(NoMemory),
                    }
                }
                Item::Generate { items, .. } => {
                    match self.add_items(names, at, count, items.as_slice()) {
                        Ok(count) => count,
                        Err(_) => return Err(NoMemory),
                    }
                }
                _ => count,
            };
        }
        Ok(count)
    }

    fn add_settings(
        &mut self,
        names: &Names,
        at: usize,
        before: usize,
        word: Token,
        settings: &CommaList<Setting>,
    ) -> Result<usize, NoMemory> {
        if !is_spelled(names, word, b"parameter") {
            return Ok(before);
        }
        self.add_parameter(at, settings.first.name)?;
        for joined in settings.more.as_slice() {
            let Ok(()) = self.add_parameter(at, joined.item.name) else {
                return Err(NoMemory);
            };
        }
        Ok(before.saturating_add(list_len(settings)))
    }

    fn add_parameter(&mut self, module: usize, name: Token) -> Result<(), NoMemory> {
        let key = Key {
            module,
            name: name.name.0,
        };
        let Ok(_) = self.parameters.insert(key, ()) else {
            return Err(NoMemory);
        };
        Ok(())
    }
}

/// The ports of a module, where it has some.
pub fn port_list(module: &Module) -> Option<&CommaList<Port>> {
    match &module.ports {
        Some(ports) => ports.list.as_ref(),
        None => None,
    }
}

/// The direction of a port, after one of the direction `last`.
pub fn direction_of(names: &Names, port: &Port, last: Direction) -> Direction {
    match port.direction {
        Some(word) => {
            if is_spelled(names, word, b"output") {
                Direction::Output
            } else {
                Direction::Input
            }
        }
        None => last,
    }
}
