//! The items that make no scope of their own: imports, variables, assignments and processes.

ghost use Rattle.sv_expr.specs.Bound.{IsWidth};

use crate::head::UNNUMBERED;
use crate::present::Present;
use crate::statements::statement;
use crate::stop::Stop;
use elab_types::{ParameterType, bounds, packed_type, parameter_value, result_kind};
use sv_expr::{Declared, Denoted, Fixed, symbol};
use sv_tree::{
    Assignment, CommaList, DataType, Declaration, Event, Import, Names, Setting, Stmt, Symbol,
    Token,
};
use vs_base::ValueType;

impl Present<'_> {
    /// An import among items.
    pub fn import(&mut self, import: &Import) -> Result<(), Stop> {
        let denoted = import_denoted(self.names, import);
        self.table.declare(import.name.name, denoted)?;
        Ok(())
    }

    /// The value of a parameter with no override.
    pub fn parameter(&self, kind: ParameterType, setting: &Setting) -> Result<Fixed, Stop> {
        match parameter_value(&self.view(), kind, &setting.value) {
            Ok(fixed) => Ok(fixed),
            Err(fault) => Err(Stop::from(fault)),
        }
    }

    /// Variables and memories: the type, and then each of them.
    pub fn variables(
        &mut self,
        kind: &DataType,
        declarations: &CommaList<Declaration>,
    ) -> Result<(), Stop> {
        let packed = match packed_type(&self.view(), kind) {
            Ok(packed) => packed,
            Err(fault) => return Err(Stop::from(fault)),
        };
        let declared = Declared {
            kind: packed.kind,
            item: UNNUMBERED,
        };
        let is_wire = is_wire(self.names, kind);
        self.variable(declared, is_wire, &declarations.first)?;
        for joined in declarations.more.as_slice() {
            self.variable(declared, is_wire, &joined.item)?;
        }
        Ok(())
    }

    /// A variable or a memory, with its addresses and what it is assigned or starts with.
    fn variable(
        &mut self,
        declared: Declared,
        is_wire: bool,
        declaration: &Declaration,
    ) -> Result<(), Stop> {
        let denoted = self.denoted(declared, declaration)?;
        self.table.declare(declaration.name.name, denoted)?;
        let Some(initial) = &declaration.value else {
            return Ok(());
        };
        if !is_wire {
            return self.check(&initial.value);
        }
        self.counts.process()?;
        self.expression(1, &initial.value)
    }

    /// What a declared name denotes.
    fn denoted(&self, declared: Declared, declaration: &Declaration) -> Result<Denoted, Stop> {
        let Some(dimension) = &declaration.dimension else {
            return Ok(Denoted::Variable(declared));
        };
        match bounds(&self.view(), dimension) {
            Ok(_) => Ok(Denoted::Memory(declared)),
            Err(fault) => Err(Stop::from(fault)),
        }
    }

    /// Continuous assignments, each a process.
    pub fn assigns(&mut self, assignments: &CommaList<Assignment>) -> Result<(), Stop> {
        self.assign(&assignments.first)?;
        for joined in assignments.more.as_slice() {
            self.assign(&joined.item)?;
        }
        Ok(())
    }

    /// A continuous assignment.
    fn assign(&mut self, assignment: &Assignment) -> Result<(), Stop> {
        self.counts.process()?;
        self.assignment(&assignment.target, &assignment.value)
    }

    /// A combinational process.
    pub fn combinational(&mut self, body: &Stmt) -> Result<(), Stop> {
        self.counts.process()?;
        statement(self, body)
    }

    /// A clocked process: its events, and then its statements.
    pub fn clocked(&mut self, events: &CommaList<Event>, body: &Stmt) -> Result<(), Stop> {
        self.counts.process()?;
        self.events(events)?;
        statement(self, body)
    }

    /// The events of a process.
    fn events(&self, events: &CommaList<Event>) -> Result<(), Stop> {
        self.event(events.first.name)?;
        for joined in events.more.as_slice() {
            self.event(joined.item.name)?;
        }
        Ok(())
    }

    /// The event of a variable of this name, which has one bit.
    fn event(&self, name: Token) -> Result<(), Stop> {
        match self.table.get(name.name) {
            Denoted::Variable(declared) if declared.kind.width == 1 => Ok(()),
            _ => Err(Stop::BadEvent(name.at, name.name)),
        }
    }
}

/// What the name of an import denotes.
pub fn import_denoted(names: &Names, import: &Import) -> Denoted {
    match result_kind(names, import) {
        Some(kind) => with_result(kind),
        None => Denoted::Nothing,
    }
}

/// An import with a result.
fn with_result(kind: ValueType) -> Denoted
    requires { IsWidth kind.width }
{
    Denoted::Import(Declared {
        kind,
        item: UNNUMBERED,
    })
}

/// Whether a type's word is `wire`, with which a value in a declaration is a continuous assignment
/// (IEEE 1800-2017 6.5 and 10.3.1).
fn is_wire(names: &Names, kind: &DataType) -> bool {
    match kind {
        DataType::Vector { word, .. } => matches!(symbol(names, *word), Symbol::Wire),
        _ => false,
    }
}
