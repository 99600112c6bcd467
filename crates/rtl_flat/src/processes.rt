//! The processes of all scopes, in elaboration order.

use crate::connect::{connection, named_value, port_value, process_at};
use crate::imports::number_of;
use crate::ports::{is_input, ports_of};
use crate::variables::{Extent, is_wire};
use crate::walk::{Pass, Present};
use elab_parts::{Given, List, Places, list_of};
use rtl_ir::{Event, Expr, Mem, Place, Proc, ProcKind, Stmt, Var};
use rtl_lower::{
    FlatFault, Here, assigned_value, kind_of_import, of_declared, place_of, statement, target_kind,
    whole_variable,
};
use sqlite_items::Items;
use std::alloc::Global;
use sv_expr::{Declared, Denoted, symbol};
use sv_tree::{
    Assignment, CommaList, Connections, DataType, Declaration, Event as TreeEvent,
    Import as TreeImport, Initial, Item, Lvalue, Module, Names, Port, Stmt as TreeStmt, Symbol,
    Token,
};
use vs_base::{Origin, ValueType};

/// A port among those of its module.
#[derive(Clone, Copy)]
struct PortPlace {
    number: u32,
    /// An input, and otherwise an output.
    input: bool,
}

/// The pass over processes.
#[derive(Drop)]
pub struct Lowering<'v> {
    pub alloc: Global,
    pub vars: &'v [Var],
    pub mems: &'v [Mem],
    /// The imports in the tree, in the order of those of the design.
    pub texts: &'v [&'v TreeImport],
    pub extents: &'v [Extent],
    /// For the connections of an instance: their places by name.
    pub places: Places,
    /// The processes so far.
    pub procs: Items<Proc>,
}

impl Pass for Lowering<'_> {
    fn enter_module(&mut self, present: &mut Present<'_>, child: &Module) -> Result<(), FlatFault> {
        match ports_of(child) {
            Some(list) => self.declare_ports(present, list),
            None => Ok(()),
        }
    }

    fn enter_block(&mut self) -> Result<(), FlatFault> {
        Ok(())
    }

    fn instance(
        &mut self,
        present: &mut Present<'_>,
        child: &Module,
        connections: &Connections,
    ) -> Result<(), FlatFault> {
        let Some(list) = ports_of(child) else {
            return Ok(());
        };
        let connected = list_of(connections);
        self.places.fill(connected);
        self.connect_ports(present, list, connected)?;
        self.places.clear(connected);
        Ok(())
    }

    fn item(&mut self, present: &mut Present<'_>, item: &Item) -> Result<(), FlatFault> {
        match item {
            Item::Import(import) => self.declare_import(present, import),
            Item::Variables {
                kind,
                declarations,
                ..
            } => self.declarations(present, kind, declarations),
            Item::Assigns { assignments, .. } => self.assignments(present, assignments),
            Item::Comb { word, body } => self.combinational(present, *word, body),
            Item::Star { word, body, .. } => self.combinational(present, *word, body),
            Item::ParenStar { word, body, .. } => self.combinational(present, *word, body),
            Item::Clocked {
                word,
                events,
                body,
                ..
            } => self.clocked(present, *word, events, body),
            _ => Ok(()),
        }
    }
}

impl Lowering<'_> {
    /// Adds a process.
    fn put(&mut self, kind: ProcKind, body: Items<Stmt>, at: Origin) -> Result<(), FlatFault> {
        self.procs.push(Proc { kind, body, at })?;
        Ok(())
    }

    /// Adds the process of an assignment.
    fn put_assignment(&mut self, place: Place, value: Expr, at: Origin) -> Result<(), FlatFault> {
        let mut body = Items::new(self.alloc);
        body.push(Stmt::Write(place, value))?;
        self.put(ProcKind::Comb, body, at)
    }

    /// Adds the process that assigns a value to a whole variable.
    fn put_driver(
        &mut self,
        item: u32,
        value: Expr,
        here: &Here<'_>,
        at: Origin,
    ) -> Result<(), FlatFault> {
        let place = whole_variable(item, here)?;
        self.put_assignment(place, value, at)
    }

    // ---- names

    /// Where the variables and memories of a scope begin.
    fn extent(&self, scope: u32) -> Result<&Extent, FlatFault> {
        match self.extents.get(scope as usize) {
            Some(extent) => Ok(extent),
            None => Err(FlatFault::NotElaborated),
        }
    }

    /// Declares the ports of the present scope.
    fn declare_ports(
        &mut self,
        present: &mut Present<'_>,
        list: &CommaList<Port>,
    ) -> Result<(), FlatFault> {
        self.declare_var(present, list.first.name)?;
        for joined in list.more.as_slice() {
            self.declare_var(present, joined.item.name)?;
        }
        Ok(())
    }

    /// Declares the next variable of the present scope.
    fn declare_var(
        &mut self,
        present: &mut Present<'_>,
        name: Token,
    ) -> Result<Declared, FlatFault> {
        let scope = present.here()?.scope;
        let number = self
            .extent(scope)?
            .first_var
            .saturating_add(present.next_var());
        let declared = declared_var(self.vars, number)?;
        present
            .inside
            .table
            .declare(name.name, Denoted::Variable(declared))?;
        Ok(declared)
    }

    /// Declares the next memory of the present scope.
    fn declare_mem(&mut self, present: &mut Present<'_>, name: Token) -> Result<(), FlatFault> {
        let scope = present.here()?.scope;
        let number = self
            .extent(scope)?
            .first_mem
            .saturating_add(present.next_mem());
        let declared = declared_mem(self.mems, number)?;
        present
            .inside
            .table
            .declare(name.name, Denoted::Memory(declared))?;
        Ok(())
    }

    /// Declares an import of the present scope.
    fn declare_import(
        &mut self,
        present: &mut Present<'_>,
        import: &TreeImport,
    ) -> Result<(), FlatFault> {
        let number = number_of(self.texts, import)?;
        let denoted = import_denoted(present.inside.names, import, number);
        present.inside.table.declare(import.name.name, denoted)?;
        Ok(())
    }

    // ---- items

    /// The variables and memories of an item.
    fn declarations(
        &mut self,
        present: &mut Present<'_>,
        kind: &DataType,
        list: &CommaList<Declaration>,
    ) -> Result<(), FlatFault> {
        let is_wire = is_wire(present.inside.names, kind);
        self.declaration(present, is_wire, &list.first)?;
        for joined in list.more.as_slice() {
            self.declaration(present, is_wire, &joined.item)?;
        }
        Ok(())
    }

    /// A variable or a memory. What a wire is assigned is a process.
    fn declaration(
        &mut self,
        present: &mut Present<'_>,
        is_wire: bool,
        declaration: &Declaration,
    ) -> Result<(), FlatFault> {
        if declaration.dimension.is_some() {
            return self.declare_mem(present, declaration.name);
        }
        let declared = self.declare_var(present, declaration.name)?;
        match &declaration.value {
            Some(initial) if is_wire => {
                self.wire(present, declared, initial, declaration.name.at)
            }
            _ => Ok(()),
        }
    }

    /// What a wire is assigned in its declaration.
    fn wire(
        &mut self,
        present: &Present<'_>,
        declared: Declared,
        initial: &Initial,
        at: Origin,
    ) -> Result<(), FlatFault> {
        let here = present.inside.here();
        let value = assigned_value(&initial.value, &here, of_declared(declared).width)?;
        self.put_driver(declared.item, value, &here, at)
    }

    /// Continuous assignments.
    fn assignments(
        &mut self,
        present: &Present<'_>,
        list: &CommaList<Assignment>,
    ) -> Result<(), FlatFault> {
        self.assignment(present, &list.first)?;
        for joined in list.more.as_slice() {
            self.assignment(present, &joined.item)?;
        }
        Ok(())
    }

    /// A continuous assignment.
    fn assignment(
        &mut self,
        present: &Present<'_>,
        assignment: &Assignment,
    ) -> Result<(), FlatFault> {
        let here = present.inside.here();
        let value = value_of(assignment, &here)?;
        let place = place_of(&assignment.target, &here)?;
        self.put_assignment(place, value, first_of(&assignment.target))
    }

    /// A combinational process.
    fn combinational(
        &mut self,
        present: &mut Present<'_>,
        word: Token,
        stmt: &TreeStmt,
    ) -> Result<(), FlatFault> {
        let mut body = Items::new(self.alloc);
        statement(stmt, &mut present.inside, &mut body)?;
        self.put(ProcKind::Comb, body, word.at)
    }

    /// A clocked process.
    fn clocked(
        &mut self,
        present: &mut Present<'_>,
        word: Token,
        list: &CommaList<TreeEvent>,
        stmt: &TreeStmt,
    ) -> Result<(), FlatFault> {
        let events = self.events(present, list)?;
        let mut body = Items::new(self.alloc);
        statement(stmt, &mut present.inside, &mut body)?;
        self.put(ProcKind::Clocked(events), body, word.at)
    }

    /// The events of a process.
    fn events(
        &self,
        present: &Present<'_>,
        list: &CommaList<TreeEvent>,
    ) -> Result<Items<Event>, FlatFault> {
        let mut events = Items::new(self.alloc);
        events.push(event(present, list.first)?)?;
        for joined in list.more.as_slice() {
            events.push(event(present, joined.item)?)?;
        }
        Ok(events)
    }

    // ---- connections

    /// Connects the ports of the instance that is entered next, in their order.
    fn connect_ports(
        &mut self,
        present: &Present<'_>,
        list: &CommaList<Port>,
        connected: List<'_>,
    ) -> Result<(), FlatFault> {
        let names = present.inside.names;
        let mut place = PortPlace {
            number: 0,
            input: is_input(names, true, list.first.direction),
        };
        self.connect_port(present, list.first.name, place, connected)?;
        for joined in list.more.as_slice() {
            place = PortPlace {
                number: place.number.saturating_add(1),
                input: is_input(names, place.input, joined.item.direction),
            };
            self.connect_port(present, joined.item.name, place, connected)?;
        }
        Ok(())
    }

    /// Connects the port of this place.
    fn connect_port(
        &mut self,
        present: &Present<'_>,
        name: Token,
        place: PortPlace,
        connected: List<'_>,
    ) -> Result<(), FlatFault> {
        let first = self.extent(present.entered)?.first_var;
        let port = declared_var(self.vars, first.saturating_add(place.number))?;
        let given = self
            .places
            .given(connected, name.name, place.number as usize);
        let Some(at) = process_at(given, self.places.named(connected, name.name)) else {
            return Ok(());
        };
        if place.input {
            return self.connect_input(present, port, given, at);
        }
        self.connect_output(present, port, given, at)
    }

    /// Connects an input: the port is assigned what is given.
    fn connect_input(
        &mut self,
        present: &Present<'_>,
        port: Declared,
        given: Given<'_>,
        at: Origin,
    ) -> Result<(), FlatFault> {
        let here = present.inside.here();
        let width = of_declared(port).width;
        match given {
            Given::Nothing => Ok(()),
            Given::Value(expr) => {
                let value = assigned_value(expr, &here, width)?;
                self.put_driver(port.item, value, &here, at)
            }
            Given::Same(name) => {
                let value = named_value(name, &here, width)?;
                self.put_driver(port.item, value, &here, at)
            }
        }
    }

    /// Connects an output: what is given is assigned the port.
    fn connect_output(
        &mut self,
        present: &Present<'_>,
        port: Declared,
        given: Given<'_>,
        at: Origin,
    ) -> Result<(), FlatFault> {
        let here = present.inside.here();
        let Some(connected) = connection(given, &here)? else {
            return Ok(());
        };
        let value = port_value(port, connected.width);
        self.put_assignment(connected.place, value, at)
    }
}

/// A variable by its number.
fn declared_var(vars: &[Var], item: u32) -> Result<Declared, FlatFault> {
    let Some(var) = vars.get(item as usize) else {
        return Err(FlatFault::NotElaborated);
    };
    Ok(Declared {
        kind: ValueType {
            width: var.width,
            signed: var.signed,
        },
        item,
    })
}

/// A memory by its number, with the type of its elements.
fn declared_mem(mems: &[Mem], item: u32) -> Result<Declared, FlatFault> {
    let Some(mem) = mems.get(item as usize) else {
        return Err(FlatFault::NotElaborated);
    };
    Ok(Declared {
        kind: ValueType {
            width: mem.width,
            signed: mem.signed,
        },
        item,
    })
}

/// What the name of an import denotes. One without a result is called as a statement only, so that the type, which is
/// then one bit, is not looked at.
pub fn import_denoted(names: &Names, import: &TreeImport, item: u32) -> Denoted {
    Denoted::Import(Declared {
        kind: kind_of_import(names, import).value_type(),
        item,
    })
}

/// An event: the edge of a variable.
fn event(present: &Present<'_>, event: TreeEvent) -> Result<Event, FlatFault> {
    match present.inside.table.get(event.name.name) {
        Denoted::Variable(declared) => Ok(Event {
            var: declared.item,
            rising: matches!(symbol(present.inside.names, event.edge), Symbol::Posedge),
        }),
        _ => Err(FlatFault::NotElaborated),
    }
}

/// The value of an assignment, at the width that its left side gives it.
fn value_of(assignment: &Assignment, here: &Here<'_>) -> Result<Expr, FlatFault> {
    let width = target_kind(&assignment.target, here)?.width;
    assigned_value(&assignment.value, here, width)
}

/// The place of the first token of a left side.
fn first_of(target: &Lvalue) -> Origin {
    match target {
        Lvalue::Name { name, .. } => name.at,
        Lvalue::Concat { open, .. } => open.at,
    }
}
