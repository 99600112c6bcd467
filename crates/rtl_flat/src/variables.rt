//! The variables and memories of all scopes.

ghost use Rattle.std.specs.Prelude.{◌≡◌, ◌∷◌, ◌++◌, [], map, IfOk, OnOk};
ghost use Rattle.std.specs.List.{All};
ghost use Rattle.elab_types.specs.Port.{port_shape, port_of};
ghost use Rattle.sv_expr.specs.Environment.{environment};
ghost use Rattle.rtl_flat.specs.Laid.{VarStands, MemStands, VarsUpTo, MemsUpTo, ScopeByScope, Begins, typed, held_typed, var_scope, mem_scope};
ghost use Rattle.rtl_flat.specs.Ports.{list_of};
ghost use Rattle.rtl_flat.specs.PortVars as spec;

use crate::held::{Held, HeldMem, HeldVar};
use crate::ports::ports_of;
use crate::text::{copied, joined};
use crate::walk::{Pass, Present, Walk};
use elab_types::{
    Bounds, Packed, PortType, assigned_value, bounds, no_port, packed_type, port_type,
};
use rtl_ir::{Mem, Var};
use rtl_lower::FlatFault;
use sqlite_items::Items;
use std::alloc::Global;
use sv_elab::Scope;
use sv_expr::{ScopeView, symbol};
use sv_tree::{
    CommaList, Connections, DataType, Declaration, Dimension, Initial, Item, Module, Names, Port,
    Symbol, Token,
};
use vs_base::Bits;

/// Where the variables and memories of a scope begin in the lists of the design.
#[derive(Clone, Copy)]
pub struct Extent {
    pub first_var: u32,
    pub first_mem: u32,
}

/// The variables and memories of a design, scope by scope.
#[derive(Drop)]
pub struct Variables {
    pub vars: Items<Var>,
    pub mems: Items<Mem>,
    /// One for each scope.
    pub extents: Vec<Extent>,
}

/// The pass over declarations.
#[derive(Drop)]
struct Declaring {
    alloc: Global,
    /// What the scopes so far declare.
    held: Vec<Held>,
}

/// What each scope declares that a walk meets which has entered the top, but for the ports of the top.
pub fn declarations_of(alloc: Global, walk: &mut Walk<'_>) -> Result<Vec<Held>, FlatFault> {
    let mut pass = Declaring {
        alloc,
        held: Vec::new(alloc),
    };
    pass.enter(Vec::new(alloc))?;
    walk.go_on_from_top(&mut pass)?;
    Ok(pass.held)
}

impl Pass for Declaring {
    fn enter_module(&mut self, present: &mut Present<'_>, child: &Module) -> Result<(), FlatFault> {
        let vars = port_vars(self.alloc, &present.inside.view(), child)?;
        self.enter(vars)
    }

    fn enter_block(&mut self) -> Result<(), FlatFault> {
        self.enter(Vec::new(self.alloc))
    }

    fn instance(
        &mut self,
        _present: &mut Present<'_>,
        _child: &Module,
        _connections: &Connections,
    ) -> Result<(), FlatFault> {
        Ok(())
    }

    fn item(&mut self, present: &mut Present<'_>, item: &Item) -> Result<(), FlatFault> {
        match item {
            Item::Variables {
                kind,
                declarations,
                ..
            } => self.declarations(present, kind, declarations),
            _ => Ok(()),
        }
    }
}

impl Declaring {
    /// A further scope, which has these variables so far.
    fn enter(&mut self, vars: Vec<HeldVar>) -> Result<(), FlatFault> {
        let held = Held {
            vars,
            mems: Vec::new(self.alloc),
        };
        let Ok(()) = self.held.push(held) else {
            return Err(FlatFault::NoMemory);
        };
        Ok(())
    }

    /// The variables and memories of an item.
    fn declarations(
        &mut self,
        present: &Present<'_>,
        kind: &DataType,
        list: &CommaList<Declaration>,
    ) -> Result<(), FlatFault> {
        let packed = match packed_type(&present.inside.view(), kind) {
            Ok(packed) => packed,
            Err(fault) => return Err(FlatFault::from(fault)),
        };
        let is_wire = is_wire(present.inside.names, kind);
        self.declaration(present, packed, is_wire, &list.first)?;
        for joined in list.more.as_slice() {
            self.declaration(present, packed, is_wire, &joined.item)?;
        }
        Ok(())
    }

    /// A variable or a memory. What a wire is assigned is no initial value.
    fn declaration(
        &mut self,
        present: &Present<'_>,
        packed: Packed,
        is_wire: bool,
        declaration: &Declaration,
    ) -> Result<(), FlatFault> {
        match &declaration.dimension {
            Some(dimension) => self.put_mem(present, declaration.name, packed, dimension),
            None if is_wire => self.put_var(present, declaration.name, packed, &None),
            None => self.put_var(present, declaration.name, packed, &declaration.value),
        }
    }

    /// Adds a variable.
    fn put_var(
        &mut self,
        present: &Present<'_>,
        name: Token,
        packed: Packed,
        initial: &Option<Initial>,
    ) -> Result<(), FlatFault> {
        let open = present.here()?;
        let var = held_var(self.alloc, present, name, packed, initial)?;
        let Some(held) = self.held.get_mut(open.scope as usize) else {
            return Err(FlatFault::NotElaborated);
        };
        let Ok(()) = held.vars.push(var) else {
            return Err(FlatFault::NoMemory);
        };
        Ok(())
    }

    /// Adds a memory.
    fn put_mem(
        &mut self,
        present: &Present<'_>,
        name: Token,
        packed: Packed,
        dimension: &Dimension,
    ) -> Result<(), FlatFault> {
        let open = present.here()?;
        let mem = held_mem(self.alloc, present, name, packed, dimension)?;
        let Some(held) = self.held.get_mut(open.scope as usize) else {
            return Err(FlatFault::NotElaborated);
        };
        let Ok(()) = held.mems.push(mem) else {
            return Err(FlatFault::NoMemory);
        };
        Ok(())
    }
}

/// The variables of the ports of a module, in a scope in which the constants of its parameter list are declared.
pub fn port_vars(
    alloc: Global,
    view: &ScopeView<'_>,
    child: &Module,
) -> Result<Vec<HeldVar>, FlatFault>
    ensures { IfOk result (λ vars. map (held_typed 0) vars.items ≡ spec.ports_in (environment view.now) (list_of child.now.ports)) }
{
    match ports_of(child) {
        Some(list) => listed_vars(alloc, view, list),
        None => Ok(Vec::new(alloc)),
    }
}

/// The variables of the ports of a list.
fn listed_vars(
    alloc: Global,
    view: &ScopeView<'_>,
    list: &CommaList<Port>,
) -> Result<Vec<HeldVar>, FlatFault>
    ensures { IfOk result (λ vars. map (held_typed 0) vars.items ≡ spec.listed (environment view.now) list.now) }
{
    let mut all = Vec::new(alloc);
    let mut last = put_port(alloc, view, &list.first, no_port(), &mut all)?;
    let mut rest = list.more.as_slice();
    while let [joined, more @ ..] = rest {
        last = put_port(alloc, view, &joined.item, last, &mut all)?;
        rest = more;
    }
    Ok(all)
}

/// Adds the variable of a port, and gives the direction and the type of the port, by those of the port before it.
fn put_port(
    alloc: Global,
    view: &ScopeView<'_>,
    port: &Port,
    before: PortType,
    all: &mut Vec<HeldVar>,
) -> Result<PortType, FlatFault>
    ensures kind { IfOk result (λ kind. port_shape kind ≡ port_of (environment view.now) port.now (port_shape before)) }
    ensures var { OnOk result (map (held_typed 0) all.new.items ≡ map (held_typed 0) all.old.items ++ spec.of_port (environment view.now) port.now (port_of (environment view.now) port.now (port_shape before)) ∷ []) }
{
    let kind = match port_type(view, port, before) {
        Ok(kind) => kind,
        Err(fault) => return Err(FlatFault::from(fault)),
    };
    let name = copied(alloc, view.names.text_of(port.name.name))?;
    let packed = kind.packed;
    let init = Bits::new(packed.kind.width, 0);
    let Ok(()) = all.push(HeldVar { name, packed, init }) else {
        return Err(FlatFault::NoMemory);
    };
    Ok(kind)
}

/// A variable of the present scope.
fn held_var(
    alloc: Global,
    present: &Present<'_>,
    name: Token,
    packed: Packed,
    initial: &Option<Initial>,
) -> Result<HeldVar, FlatFault> {
    let init = initial_value(&present.inside.view(), packed, initial)?;
    let name = copied(alloc, present.inside.names.text_of(name.name))?;
    Ok(HeldVar { name, packed, init })
}

/// The value before the first eval: 0 where none is given.
fn initial_value(
    view: &ScopeView<'_>,
    packed: Packed,
    initial: &Option<Initial>,
) -> Result<Bits, FlatFault>
    ensures { IfOk result (λ value. value.width ≡ packed.kind.width) }
{
    let width = packed.kind.width;
    let Some(initial) = initial else {
        return Ok(Bits::new(width, 0));
    };
    match assigned_value(view, &initial.value, width) {
        Ok(value) => Ok(value),
        Err(fault) => Err(FlatFault::from(fault)),
    }
}

/// A memory of the present scope.
fn held_mem(
    alloc: Global,
    present: &Present<'_>,
    name: Token,
    packed: Packed,
    dimension: &Dimension,
) -> Result<HeldMem, FlatFault> {
    let addresses = addresses(&present.inside.view(), dimension)?;
    let end = i128::from(addresses.low) + i128::from(addresses.count);
    if end > 1 << 63 {
        return Err(FlatFault::NotElaborated);
    }
    let name = copied(alloc, present.inside.names.text_of(name.name))?;
    Ok(HeldMem {
        name,
        packed,
        addresses,
    })
}

/// The addresses of a memory.
fn addresses(view: &ScopeView<'_>, dimension: &Dimension) -> Result<Bounds, FlatFault> {
    match bounds(view, dimension) {
        Ok(bounds) => Ok(bounds),
        Err(fault) => Err(FlatFault::from(fault)),
    }
}

/// Whether a type's word is `wire`, with which a value in a declaration is a continuous assignment
/// (IEEE 1800-2017 6.5 and 10.3.1).
pub fn is_wire(names: &Names, kind: &DataType) -> bool {
    match kind {
        DataType::Vector { word, .. } => matches!(symbol(names, *word), Symbol::Wire),
        _ => false,
    }
}

/// The ports of the top, and then the lists of all scopes one after another.
pub fn laid_down(
    alloc: Global,
    scopes: &[Scope],
    ports: Vec<HeldVar>,
    declared: Vec<Held>,
) -> Result<Variables, FlatFault>
    ensures ports { IfOk result (λ variables. Begins (map (held_typed 0) ports.items) (map typed variables.vars)) }
    ensures vars { IfOk result (λ variables. All (VarStands scopes.now) variables.vars) }
    ensures mems { IfOk result (λ variables. All (MemStands scopes.now) variables.mems) }
    ensures vars_order { IfOk result (λ variables. ScopeByScope var_scope variables.vars) }
    ensures mems_order { IfOk result (λ variables. ScopeByScope mem_scope variables.mems) }
{
    let mut all = Variables {
        vars: Items::new(alloc),
        mems: Items::new(alloc),
        extents: Vec::new(alloc),
    };
    put_vars(alloc, scopes, 0, ports, &mut all.vars)?;
    put_scopes(alloc, scopes, declared, &mut all)?;
    Ok(all)
}

/// Adds what the scopes declare, those from the first one on.
fn put_scopes(
    alloc: Global,
    scopes: &[Scope],
    declared: Vec<Held>,
    all: &mut Variables,
) -> Result<(), FlatFault>
    requires vars { VarsUpTo scopes.now 0 all.old.vars }
    requires mems { MemsUpTo scopes.now 0 all.old.mems }
    ensures grows { OnOk result (Begins (map typed all.old.vars) (map typed all.new.vars)) }
    ensures vars { OnOk result (All (VarStands scopes.now) all.new.vars) }
    ensures mems { OnOk result (All (MemStands scopes.now) all.new.mems) }
    ensures vars_order { OnOk result (ScopeByScope var_scope all.new.vars) }
    ensures mems_order { OnOk result (ScopeByScope mem_scope all.new.mems) }
{
    let mut scope: u32 = 0;
    let mut extent = Extent {
        first_var: 0,
        first_mem: 0,
    };
    for held in declared {
        put_extent(extent, &mut all.extents)?;
        extent = put_scope(alloc, scopes, scope, held, all)?;
        scope = scope.saturating_add(1);
    }
    Ok(())
}

/// Adds what the scope of this number declares, and gives where the next one begins.
fn put_scope(
    alloc: Global,
    scopes: &[Scope],
    scope: u32,
    held: Held,
    all: &mut Variables,
) -> Result<Extent, FlatFault>
    requires vars { VarsUpTo scopes.now scope all.old.vars }
    requires mems { MemsUpTo scopes.now scope all.old.mems }
    ensures grows { OnOk result (Begins (map typed all.old.vars) (map typed all.new.vars)) }
    ensures vars { OnOk result (VarsUpTo scopes.now scope all.new.vars) }
    ensures mems { OnOk result (MemsUpTo scopes.now scope all.new.mems) }
{
    let Held { vars, mems } = held;
    put_vars(alloc, scopes, scope, vars, &mut all.vars)?;
    put_mems(alloc, scopes, scope, mems, &mut all.mems)?;
    let next = extent_after(all.vars.len(), all.mems.len())?;
    Ok(next)
}

/// The beginning of a scope before which there are so many variables and memories.
fn extent_after(vars: usize, mems: usize) -> Result<Extent, FlatFault> {
    Ok(Extent {
        first_var: number(vars)?,
        first_mem: number(mems)?,
    })
}

/// Adds the beginning of a scope.
fn put_extent(extent: Extent, extents: &mut Vec<Extent>) -> Result<(), FlatFault> {
    match extents.push(extent) {
        Ok(()) => Ok(()),
        Err(_) => Err(FlatFault::NoMemory),
    }
}

/// Adds the variables of the scope of this number.
fn put_vars(
    alloc: Global,
    scopes: &[Scope],
    scope: u32,
    some: Vec<HeldVar>,
    vars: &mut Items<Var>,
) -> Result<(), FlatFault>
    requires { VarsUpTo scopes.now scope vars.old }
    ensures up_to { OnOk result (VarsUpTo scopes.now scope vars.new) }
    ensures typed { OnOk result (map typed vars.new ≡ map typed vars.old ++ map (held_typed scope) some.items) }
{
    for held in some {
        vars.push(new_var(alloc, scopes, scope, held)?)?;
    }
    Ok(())
}

/// A variable of the scope of this number.
fn new_var(alloc: Global, scopes: &[Scope], scope: u32, held: HeldVar) -> Result<Var, FlatFault>
    ensures stands { IfOk result (λ var. VarStands scopes.now var) }
    ensures typed { IfOk result (λ var. typed var ≡ held_typed scope held) }
{
    let Some(outer) = scopes.get(scope as usize) else {
        return Err(FlatFault::NotElaborated);
    };
    let path = copied(alloc, outer.path.as_bytes())?;
    let HeldVar { name, packed, init } = held;
    Ok(Var {
        path,
        name,
        width: packed.kind.width,
        lsb: packed.lsb,
        signed: packed.kind.signed,
        init,
        scope,
    })
}

/// Adds the memories of the scope of this number.
fn put_mems(
    alloc: Global,
    scopes: &[Scope],
    scope: u32,
    some: Vec<HeldMem>,
    mems: &mut Items<Mem>,
) -> Result<(), FlatFault>
    requires { MemsUpTo scopes.now scope mems.old }
    ensures { OnOk result (MemsUpTo scopes.now scope mems.new) }
{
    for held in some {
        mems.push(new_mem(alloc, scopes, scope, held)?)?;
    }
    Ok(())
}

/// A memory of the scope of this number.
fn new_mem(alloc: Global, scopes: &[Scope], scope: u32, held: HeldMem) -> Result<Mem, FlatFault>
    ensures stands { IfOk result (λ mem. MemStands scopes.now mem) }
    ensures scope { IfOk result (λ mem. mem_scope mem ≡ scope) }
{
    let Some(outer) = scopes.get(scope as usize) else {
        return Err(FlatFault::NotElaborated);
    };
    let HeldMem {
        name,
        packed,
        addresses,
    } = held;
    let path = joined(alloc, outer.path.as_bytes(), name.as_bytes())?;
    Ok(Mem {
        path,
        width: packed.kind.width,
        lsb: packed.lsb,
        signed: packed.kind.signed,
        low: addresses.low,
        count: addresses.count,
        scope,
    })
}

/// A place of a list as a number.
fn number(place: usize) -> Result<u32, FlatFault> {
    match u32::try_from(place) {
        Ok(number) => Ok(number),
        Err(_) => Err(FlatFault::NotElaborated),
    }
}
