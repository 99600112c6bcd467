//! The walk over the scopes of a design in the order in which elaboration laid them down. It keeps what is left to be walked in a
//! list, since instances may nest deeper than the stack holds.

ghost use Rattle.std.specs.Prelude.{◌≡◌, length, take, Some, IfOk, IfSome, OnOk};
ghost use Rattle.scope_table.specs.Scopes.{at_file_level};
ghost use Rattle.sv_expr.specs.declared.scope.Denoted.TheVariants as denoted;
ghost use Rattle.rtl_flat.specs.Heads as heads;
ghost use Rattle.rtl_flat.specs.Ports.{top_module};

use crate::ports::module_named;
use elab_types::block_taken;
use rtl_ir::Import;
use rtl_lower::{FlatFault, Inside, enter_block, first_value};
use scope_table::ScopeTable;
use sqlite_items::Items;
use std::alloc::Global;
use std::slice::from_ref;
use sv_elab::Scope;
use sv_expr::{Constant, Denoted, Fixed};
use sv_names::{Modules, module_at};
use sv_tree::{
    CommaList, Connections, GenBlock, Item, LoopHead, Module, NameId, Names, Setting, SourceTree,
};

/// Where items stand.
#[derive(Clone, Copy)]
enum Source<'t> {
    /// In a module.
    Module(&'t Module),
    /// In a block of a generate construct.
    Block(&'t GenBlock),
    /// Between `generate` and `endgenerate`, which make no scope.
    Region(&'t Items<Item>),
}

/// What is to be done after the last of some items.
#[derive(Clone, Copy)]
enum End {
    /// Nothing: the scope goes on.
    Nothing,
    /// The scope ends.
    Leave,
    /// The scope ends, and the loop that it is a turn of has its next turn, if its condition holds.
    Turn,
}

/// Items that are being walked.
#[derive(Clone, Copy)]
struct Level<'t> {
    source: Source<'t>,
    /// The place of the next item.
    next: usize,
    end: End,
}

/// A scope that is being walked.
#[derive(Clone, Copy)]
pub struct Open {
    /// Its number among the scopes.
    pub scope: u32,
    /// How many of its constants were declared.
    values: usize,
    /// How many of its variables were met.
    pub vars: u32,
    /// How many of its memories were met.
    pub mems: u32,
}

/// What is done with what the walk meets.
pub trait Pass {
    /// The scope of an instance was entered. The constants of its module's parameter list are declared.
    fn enter_module(&mut self, present: &mut Present<'_>, child: &Module) -> Result<(), FlatFault>;

    /// The scope of a block was entered.
    fn enter_block(&mut self) -> Result<(), FlatFault>;

    /// An instance of a module, whose scope is entered next.
    fn instance(
        &mut self,
        present: &mut Present<'_>,
        child: &Module,
        connections: &Connections,
    ) -> Result<(), FlatFault>;

    /// An item of the present scope that is no generate construct, instance or parameter.
    fn item(&mut self, present: &mut Present<'_>, item: &Item) -> Result<(), FlatFault>;
}

/// Where the walk stands.
#[derive(Drop)]
pub struct Present<'t> {
    pub inside: Inside<'t>,
    scopes: &'t [Scope],
    /// How many scopes were entered.
    pub entered: u32,
    /// The present scope and those round it, the innermost at the end.
    open: Vec<Open>,
}

/// The walk: where it stands and what is left.
#[derive(Drop)]
pub struct Walk<'t> {
    pub present: Present<'t>,
    tree: &'t SourceTree,
    modules: Modules,
    /// The items that are being walked, those of the innermost construct at the end.
    levels: Vec<Level<'t>>,
    /// The next values of the loops that are being walked, that of the innermost loop at the end.
    turns: Vec<Fixed>,
}

impl<'t> Walk<'t> {
    /// The walk at the file level.
    pub fn new(
        alloc: Global,
        tree: &'t SourceTree,
        names: &'t Names,
        scopes: &'t [Scope],
        imports: &'t [Import],
    ) -> Result<Walk<'t>, FlatFault>
        ensures tree { IfOk result (λ walk. walk.tree.now ≡ tree.now) }
        ensures scopes { IfOk result (λ walk. walk.present.scopes.now ≡ scopes.now) }
        ensures names { IfOk result (λ walk. walk.present.inside.names.now ≡ names.now) }
        ensures table { IfOk result (λ walk. walk.present.inside.table ≡ at_file_level (length names.now) denoted.Nothing) }
    {
        let modules = Modules::new(alloc, tree)?;
        let table = ScopeTable::new(alloc, names.len(), Denoted::Nothing)?;
        Ok(Walk {
            present: Present {
                inside: Inside {
                    alloc,
                    names,
                    imports,
                    table,
                },
                scopes,
                entered: 0,
                open: Vec::new(alloc),
            },
            tree,
            modules,
            levels: Vec::new(alloc),
            turns: Vec::new(alloc),
        })
    }

    /// Goes over the whole design.
    pub fn run<P: Pass>(&mut self, pass: &mut P) -> Result<(), FlatFault> {
        let top = self.enter_top()?;
        pass.enter_module(&mut self.present, top)?;
        self.go_on_from_top(pass)
    }

    /// Enters the top, and gives its module.
    pub fn enter_top(&mut self) -> Result<&'t Module, FlatFault>
        ensures module { IfOk result (λ m. top_module self.old.tree.now.descriptions self.old.present.scopes.now ≡ Some m.now) }
        ensures table { IfOk result (λ m. heads.IsTopHead self.old.present.scopes.now m.now self.old.present.inside.table self.new.present.inside.table) }
        ensures names { self.new.present.inside.names.now ≡ self.old.present.inside.names.now }
    {
        let [top, ..] = self.present.scopes else {
            return Err(FlatFault::NotElaborated);
        };
        let Some(module) = module_named(self.tree.descriptions.as_slice(), top.module) else {
            return Err(FlatFault::NotElaborated);
        };
        self.present.enter_instance(module, top)?;
        let items = Level {
            source: Source::Module(module),
            next: 0,
            end: End::Leave,
        };
        add(&mut self.levels, &items)?;
        Ok(module)
    }

    /// Goes over what is left once the top is entered.
    pub fn go_on_from_top<P: Pass>(&mut self, pass: &mut P) -> Result<(), FlatFault> {
        for _ in 0..u64::MAX {
            let Some(level) = self.levels.pop() else {
                return Ok(());
            };
            self.go_on(pass, &level)?;
        }
        Err(FlatFault::NotElaborated)
    }

    /// The next item of a level, or its end.
    fn go_on<P: Pass>(&mut self, pass: &mut P, level: &Level<'t>) -> Result<(), FlatFault> {
        let items = items_of(level.source);
        let at = level.next;
        if at >= items.len() {
            let end = level.end;
            return self.end(pass, end);
        }
        let source = level.source;
        let end = level.end;
        let next = at + 1;
        add(&mut self.levels, &Level { source, next, end })?;
        self.item(pass, &items[at])
    }

    /// An item of the present scope.
    fn item<P: Pass>(&mut self, pass: &mut P, item: &'t Item) -> Result<(), FlatFault> {
        match item {
            Item::Parameters { settings, .. } => self.present.declare_constants(list_len(settings)),
            Item::Generate { items, .. } => self.add_items(Source::Region(items), End::Nothing),
            Item::For { head, body } => {
                let value = first_value(head, &self.present.inside)?;
                self.turn(pass, head, body.get(), value)
            }
            Item::If { .. } | Item::IfElse { .. } => self.conditional(pass, item),
            Item::Instance {
                module,
                connections,
                ..
            } => self.instance(pass, module.name, connections),
            _ => pass.item(&mut self.present, item),
        }
    }

    /// A conditional construct: the block that is taken.
    fn conditional<P: Pass>(&mut self, pass: &mut P, item: &'t Item) -> Result<(), FlatFault> {
        match block_taken(&self.present.inside.view(), item) {
            Ok(None) => Ok(()),
            Ok(Some(body)) => {
                self.present.inside.table.enter()?;
                self.block(pass, body, 0, End::Leave)
            }
            Err(fault) => Err(FlatFault::from(fault)),
        }
    }

    /// A turn of a loop, if there is one.
    fn turn<P: Pass>(
        &mut self,
        pass: &mut P,
        head: &LoopHead,
        body: &'t GenBlock,
        value: Fixed,
    ) -> Result<(), FlatFault> {
        match enter_block(head, &mut self.present.inside, &value)? {
            None => Ok(()),
            Some(next) => {
                add_turn(&mut self.turns, next)?;
                self.block(pass, body, 1, End::Turn)
            }
        }
    }

    /// The block of a construct, of whose constants so many are declared.
    fn block<P: Pass>(
        &mut self,
        pass: &mut P,
        body: &'t GenBlock,
        values: usize,
        end: End,
    ) -> Result<(), FlatFault> {
        self.present.open(values)?;
        self.add_items(Source::Block(body), end)?;
        pass.enter_block()
    }

    /// An instance of the module of a name.
    fn instance<P: Pass>(
        &mut self,
        pass: &mut P,
        name: NameId,
        connections: &'t Connections,
    ) -> Result<(), FlatFault> {
        match module_of(self.tree, &self.modules, name) {
            None => Err(FlatFault::NotElaborated),
            Some(child) => {
                pass.instance(&mut self.present, child, connections)?;
                self.enter_module(pass, child)
            }
        }
    }

    /// Enters the scope of an instance.
    fn enter_module<P: Pass>(&mut self, pass: &mut P, child: &'t Module) -> Result<(), FlatFault> {
        let scope = self.present.scope(self.present.entered)?;
        self.present.enter_instance(child, scope)?;
        self.add_items(Source::Module(child), End::Leave)?;
        pass.enter_module(&mut self.present, child)
    }

    /// Does what is to be done after the last item.
    fn end<P: Pass>(&mut self, pass: &mut P, end: End) -> Result<(), FlatFault> {
        match end {
            End::Nothing => Ok(()),
            End::Leave => {
                self.present.leave();
                Ok(())
            }
            End::Turn => {
                self.present.leave();
                self.next_turn(pass)
            }
        }
    }

    /// The next turn of the loop that was met last in the present level.
    fn next_turn<P: Pass>(&mut self, pass: &mut P) -> Result<(), FlatFault> {
        let Some(value) = self.turns.pop() else {
            return Err(FlatFault::NotElaborated);
        };
        let Some(level) = self.levels.last() else {
            return Err(FlatFault::NotElaborated);
        };
        let items = items_of(level.source);
        let next = level.next;
        if next == 0 || next > items.len() {
            return Err(FlatFault::NotElaborated);
        }
        match &items[next - 1] {
            Item::For { head, body } => self.turn(pass, head, body.get(), value),
            _ => Err(FlatFault::NotElaborated),
        }
    }

    /// Notes items that are to be walked next, from the first on.
    fn add_items(&mut self, source: Source<'t>, end: End) -> Result<(), FlatFault> {
        let next = 0;
        add(&mut self.levels, &Level { source, next, end })
    }
}

impl<'t> Present<'t> {
    /// The present scope.
    pub fn here(&self) -> Result<Open, FlatFault> {
        match self.open.last() {
            Some(open) => Ok(*open),
            None => Err(FlatFault::NotElaborated),
        }
    }

    /// The scope of this number.
    pub fn scope(&self, number: u32) -> Result<&'t Scope, FlatFault> {
        match self.scopes.get(number as usize) {
            Some(scope) => Ok(scope),
            None => Err(FlatFault::NotElaborated),
        }
    }

    /// Counts a variable of the present scope, and gives its number there.
    pub fn next_var(&mut self) -> u32 {
        let Some(open) = self.open.last_mut() else {
            return 0;
        };
        let number = open.vars;
        open.vars = number.saturating_add(1);
        number
    }

    /// Counts a memory of the present scope, and gives its number there.
    pub fn next_mem(&mut self) -> u32 {
        let Some(open) = self.open.last_mut() else {
            return 0;
        };
        let number = open.mems;
        open.mems = number.saturating_add(1);
        number
    }

    /// Leaves the present scope.
    fn leave(&mut self) {
        self.inside.table.leave();
        let _ = self.open.pop();
    }

    /// Enters the next scope, of whose constants so many are declared.
    fn open(&mut self, values: usize) -> Result<(), FlatFault>
        ensures { self.new.inside ≡ self.old.inside }
    {
        let scope = self.entered;
        self.entered = scope.saturating_add(1);
        let open = Open {
            scope,
            values,
            vars: 0,
            mems: 0,
        };
        let Ok(()) = self.open.push(open) else {
            return Err(FlatFault::NoMemory);
        };
        Ok(())
    }

    /// Enters the scope of an instance of a module, in which the constants of the module's parameter list are declared.
    fn enter_instance(&mut self, child: &Module, scope: &Scope) -> Result<(), FlatFault>
        ensures table { OnOk result (self.new.inside.table ≡ heads.in_head child.now scope.now self.old.inside.table) }
        ensures names { self.new.inside.names.now ≡ self.old.inside.names.now }
    {
        let Some(constants) = listed(child, scope.values.as_slice()) else {
            return Err(FlatFault::NotElaborated);
        };
        self.inside.table.enter_module()?;
        self.open(constants.len())?;
        declare_all(&mut self.inside.table, constants)
    }

    /// Declares so many further constants of the present scope.
    fn declare_constants(&mut self, count: usize) -> Result<(), FlatFault> {
        for _ in 0..count {
            let constant = self.next_constant()?;
            declare(&mut self.inside.table, constant)?;
        }
        Ok(())
    }

    /// The next constant of the present scope.
    fn next_constant(&mut self) -> Result<Constant, FlatFault> {
        let Some(open) = self.open.last_mut() else {
            return Err(FlatFault::NotElaborated);
        };
        let Some(scope) = self.scopes.get(open.scope as usize) else {
            return Err(FlatFault::NotElaborated);
        };
        let Some(constant) = scope.values.get(open.values) else {
            return Err(FlatFault::NotElaborated);
        };
        open.values = open.values.saturating_add(1);
        Ok(*constant)
    }
}

/// Adds items that are to be walked before those that are there.
fn add<'t>(levels: &mut Vec<Level<'t>>, level: &Level<'t>) -> Result<(), FlatFault> {
    match levels.push(*level) {
        Ok(()) => Ok(()),
        Err(_) => Err(FlatFault::NoMemory),
    }
}

/// Adds the next value of a loop.
fn add_turn(turns: &mut Vec<Fixed>, next: Fixed) -> Result<(), FlatFault> {
    match turns.push(next) {
        Ok(()) => Ok(()),
        Err(_) => Err(FlatFault::NoMemory),
    }
}

/// The items of a source.
fn items_of<'t>(source: Source<'t>) -> &'t [Item] {
    match source {
        Source::Module(module) => module.items.as_slice(),
        Source::Block(block) => match block {
            GenBlock::Item(item) => from_ref(item.get()),
            GenBlock::Block { items, .. } => items.as_slice(),
        },
        Source::Region(items) => items.as_slice(),
    }
}

/// The module of a name.
fn module_of<'t>(tree: &'t SourceTree, modules: &Modules, name: NameId) -> Option<&'t Module> {
    match modules.find(name) {
        Some(at) => module_at(tree, at),
        None => None,
    }
}

/// How many entries a list has.
fn list_len<T>(list: &CommaList<T>) -> usize {
    list.more.len().saturating_add(1)
}

/// The constants of a module's parameter list, which are the first of a scope's. `None`: there are too few.
fn listed<'s>(child: &Module, values: &'s [Constant]) -> Option<&'s [Constant]>
    ensures { IfSome result (λ some. some.now ≡ take (heads.parameter_count child.now.parameters) values.now) }
{
    let Some(parameters) = &child.parameters else {
        return Some(&values[..0]);
    };
    let more = parameters.list.more.len();
    if more >= values.len() {
        return None;
    }
    Some(&values[..more + 1])
}

/// Declares constants one after another.
fn declare_all(table: &mut ScopeTable<Denoted>, constants: &[Constant]) -> Result<(), FlatFault>
    ensures { OnOk result (table.new ≡ heads.with_constants constants.now table.old) }
{
    let mut rest = constants;
    while let [constant, more @ ..] = rest {
        declare(table, *constant)?;
        rest = more;
    }
    Ok(())
}

/// Declares a constant.
fn declare(table: &mut ScopeTable<Denoted>, constant: Constant) -> Result<(), FlatFault>
    ensures { OnOk result (table.new ≡ heads.with_constant constant table.old) }
{
    let fixed = Fixed {
        kind: constant.kind,
        value: constant.value,
    };
    table.declare(constant.name, Denoted::Constant(fixed))?;
    Ok(())
}
