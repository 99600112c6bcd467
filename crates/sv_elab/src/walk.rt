//! The walk over the instances and blocks of a design. It keeps what is left to be walked in a list, since instances may
//! nest deeper than the stack holds.

use crate::scopes::Scopes;
use elab_parts::{Places, Present, Stop};
use scope_table::ScopeTable;
use sqlite_items::Items;
use std::alloc::Global;
use std::slice::from_ref;
use sv_expr::{Denoted, Fixed};
use sv_names::Modules;
use sv_tree::{GenBlock, Item, Module, NameId, SourceTree};

/// A turn of a generate loop.
#[derive(Clone, Copy)]
pub struct Turn {
    /// The number of the loop among the generate constructs of its scope, from 1.
    pub number: u32,
    /// The value of the genvar.
    pub value: Fixed,
}

/// Where items stand.
#[derive(Clone, Copy)]
pub enum Source<'t> {
    /// In a module.
    Module(&'t Module),
    /// In a block of a generate construct.
    Block(&'t GenBlock),
    /// Between `generate` and `endgenerate`, which make no scope.
    Region(&'t Items<Item>),
}

/// What is to be done after the last of some items.
#[derive(Clone, Copy)]
pub enum End {
    /// Nothing: the scope goes on.
    Nothing,
    /// The scope ends.
    Leave,
    /// The scope ends, and the loop that it is a turn of has its next turn, if its condition holds.
    Turn,
}

/// Items that are being walked.
#[derive(Clone, Copy)]
pub struct Level<'t> {
    pub source: Source<'t>,
    /// The place of the next item.
    pub next: usize,
    pub end: End,
}

/// Adds items that are to be walked before those that are there.
pub fn add<'t>(levels: &mut Vec<Level<'t>>, level: &Level<'t>) -> Result<(), Stop> {
    match levels.push(*level) {
        Ok(()) => Ok(()),
        Err(_) => Err(Stop::NoMemory),
    }
}

/// The items of a source.
fn items_of<'t>(source: Source<'t>) -> &'t [Item] {
    match source {
        Source::Module(module) => module.items.as_slice(),
        Source::Block(block) => match block {
            GenBlock::Item(item) => from_ref(item.get()),
            GenBlock::Block { items, .. } => items.as_slice(),
        },
        Source::Region(items) => items.as_slice(),
    }
}

/// A scope that is being walked.
#[derive(Drop)]
pub struct Open {
    /// Its number among the scopes.
    pub scope: u32,
    /// The module whose items stand in it.
    pub module: NameId,
    /// How many generate constructs were met in it.
    pub constructs: u32,
    /// What the instance gives to the parameters among the items of its module, in order.
    pub overrides: Vec<Option<Fixed>>,
    /// How many of these parameters were met.
    pub parameters: usize,
}

/// The walk: where it stands, what it has laid down, and what is left.
#[derive(Drop)]
pub struct Walk<'t> {
    pub alloc: Global,
    pub tree: &'t SourceTree,
    pub modules: Modules,
    /// The present scope.
    pub present: Present<'t>,
    /// The names that the present scope and those round it declare, wherever in them.
    pub declared: ScopeTable<bool>,
    /// For the head of an instance, before its scope is entered: what its names denote.
    pub child: ScopeTable<Denoted>,
    /// For the connections of an instance: their places by name.
    pub places: Places,
    /// The scopes so far.
    pub scopes: Scopes,
    /// The present scope and those round it, the innermost at the end.
    pub open: Vec<Open>,
    /// The items that are being walked, those of the innermost construct at the end.
    pub levels: Vec<Level<'t>>,
    /// The next turns of the loops that are being walked, that of the innermost loop at the end.
    pub turns: Vec<Turn>,
}

impl<'t> Walk<'t> {
    /// Walks what is left.
    pub fn run(&mut self) -> Result<(), Stop> {
        for _ in 0..u64::MAX {
            let Some(level) = self.levels.pop() else {
                return Ok(());
            };
            self.step(&level)?;
        }
        Err(Stop::NoMemory)
    }

    /// Walks the next item of a level, or ends it where there is none.
    fn step(&mut self, level: &Level<'t>) -> Result<(), Stop> {
        let items = items_of(level.source);
        let at = level.next;
        if at >= items.len() {
            let end = level.end;
            return self.end(end);
        }
        let source = level.source;
        let end = level.end;
        let next = at + 1;
        add(&mut self.levels, &Level { source, next, end })?;
        self.item(&items[at])
    }

    /// Does what is to be done after the last item.
    fn end(&mut self, end: End) -> Result<(), Stop> {
        match end {
            End::Nothing => Ok(()),
            End::Leave => {
                self.leave();
                Ok(())
            }
            End::Turn => {
                self.leave();
                self.next_turn()
            }
        }
    }

    /// The next turn of the loop that was met last in the present level.
    fn next_turn(&mut self) -> Result<(), Stop> {
        let Some(turn) = self.turns.pop() else {
            return Ok(());
        };
        let Some(level) = self.levels.last() else {
            return Ok(());
        };
        let items = items_of(level.source);
        let next = level.next;
        if next == 0 || next > items.len() {
            return Ok(());
        }
        self.turn(&items[next - 1], &turn, false)
    }

    /// Leaves the present scope.
    fn leave(&mut self) {
        self.present.table.leave();
        self.declared.leave();
        let _ = self.open.pop();
    }

    /// The number of the present scope.
    pub fn here(&self) -> u32 {
        match self.open.last() {
            Some(open) => open.scope,
            None => 0,
        }
    }

    /// The module whose items stand in the present scope.
    pub fn module(&self) -> NameId {
        match self.open.last() {
            Some(open) => open.module,
            None => NameId(0),
        }
    }

    /// Enters a scope whose number this is, and whose items are to be walked.
    pub fn open(
        &mut self,
        scope: u32,
        module: NameId,
        overrides: Vec<Option<Fixed>>,
    ) -> Result<(), Stop> {
        let open = Open {
            scope,
            module,
            constructs: 0,
            overrides,
            parameters: 0,
        };
        let Ok(()) = self.open.push(open) else {
            return Err(Stop::NoMemory);
        };
        Ok(())
    }
}
