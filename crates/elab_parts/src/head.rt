//! The head of an instance: the values of its module's parameters, and the types of its ports.

use crate::given::{Given, List, Places};
use crate::stop::Stop;
use elab_types::{
    ParameterType, PortType, converted, entry_type, item_type, no_port, parameter_value, port_type,
};
use scope_table::ScopeTable;
use std::alloc::Global;
use sv_expr::{Constant, Declared, Denoted, Fixed, ScopeView, symbol};
use sv_tree::{
    CommaList, DataType, Expr, Item, Module, NameId, Names, Parameter, Port, Setting, Symbol, Token,
};

/// The number of each thing that a name denotes here: elaboration asks for types alone.
pub const UNNUMBERED: u32 = 0;

/// A port of an instance.
#[derive(Clone, Copy)]
pub struct HeadPort {
    pub name: Token,
    pub kind: PortType,
}

/// What is known of an instance before its items are walked.
#[derive(Drop)]
pub struct Head {
    /// The constants of its module's parameter list, in order.
    pub values: Vec<Constant>,
    /// Its ports, in order.
    pub ports: Vec<HeadPort>,
    /// The values that the instance gives to the parameters of the module's items, in order, where it has no list.
    pub overrides: Vec<Option<Fixed>>,
}

/// What the head of an instance is given, and the scope that holds the instance.
#[derive(Clone, Copy)]
pub struct Outer<'v, 't> {
    pub view: ScopeView<'v>,
    pub list: List<'t>,
    pub places: &'v Places,
}

/// The head of an instance of a module. `child`: a table of its own, at the file level before and after.
///
/// The parameter list and then the ports are visited in order. Where the module has no parameter list, the parameters
/// of its items are looked at as far as they have values; a fault in them is told when the items are walked.
pub fn head_of(
    alloc: Global,
    outer: &Outer<'_, '_>,
    child: &mut ScopeTable<Denoted>,
    module: &Module,
) -> Result<Head, Stop> {
    let mut head = Head {
        values: Vec::new(alloc),
        ports: Vec::new(alloc),
        overrides: Vec::new(alloc),
    };
    child.enter_module()?;
    visit_head(outer, child, &mut head, module)?;
    child.leave();
    Ok(head)
}

/// Visits what stands before the items, and where it has to, the parameters of the items.
fn visit_head(
    outer: &Outer<'_, '_>,
    child: &mut ScopeTable<Denoted>,
    head: &mut Head,
    module: &Module,
) -> Result<(), Stop> {
    visit_parameters(outer, child, head, module)?;
    visit_ports(outer, child, head, module)?;
    if module.parameters.is_some() {
        return Ok(());
    }
    match outer.list {
        List::Empty => Ok(()),
        _ => look_ahead(outer, child, head, module.items.as_slice()),
    }
}

/// Visits the parameter list.
fn visit_parameters(
    outer: &Outer<'_, '_>,
    child: &mut ScopeTable<Denoted>,
    head: &mut Head,
    module: &Module,
) -> Result<(), Stop> {
    let Some(parameters) = &module.parameters else {
        return Ok(());
    };
    let list = &parameters.list;
    let mut before = visit_entry(outer, child, head, &list.first, ParameterType::OfValue)?;
    for joined in list.more.as_slice() {
        before = visit_entry(outer, child, head, &joined.item, before)?;
    }
    Ok(())
}

/// Visits an entry of the parameter list, and gives its type.
fn visit_entry(
    outer: &Outer<'_, '_>,
    child: &mut ScopeTable<Denoted>,
    head: &mut Head,
    entry: &Parameter,
    before: ParameterType,
) -> Result<ParameterType, Stop> {
    let setting = &entry.setting;
    let kind = match entry_type(&view_of(outer.view.names, child), entry, before) {
        Ok(kind) => kind,
        Err(fault) => return Err(Stop::from(fault)),
    };
    let fixed = outer.value(child, kind, head.values.len(), setting)?;
    declare(child, setting.name, &fixed)?;
    head.put_value(setting.name, fixed)?;
    Ok(kind)
}

/// What names denote by a table.
fn view_of<'v>(names: &'v Names, table: &'v ScopeTable<Denoted>) -> ScopeView<'v> {
    ScopeView { names, table }
}

/// Declares a constant.
fn declare(child: &mut ScopeTable<Denoted>, name: Token, fixed: &Fixed) -> Result<(), Stop> {
    let held = *fixed;
    match child.declare(name.name, Denoted::Constant(held)) {
        Ok(()) => Ok(()),
        Err(_) => Err(Stop::NoMemory),
    }
}

impl Outer<'_, '_> {
    /// Whether something is given to the parameter of this name and number.
    fn is_given(&self, name: Token, number: usize) -> bool {
        match self.places.given(self.list, name.name, number) {
            Given::Nothing => false,
            Given::Value(_) | Given::Same(_) => true,
        }
    }

    /// The value of the parameter of this number: what is given, in the scope that holds the instance, or else its
    /// own, in its scope.
    fn value(
        &self,
        child: &ScopeTable<Denoted>,
        kind: ParameterType,
        number: usize,
        setting: &Setting,
    ) -> Result<Fixed, Stop> {
        match self.places.given(self.list, setting.name.name, number) {
            Given::Nothing => self.own(child, kind, setting),
            Given::Value(expr) => of_value(&self.view, kind, expr),
            Given::Same(name) => match self.view.table.get(name.name) {
                Denoted::Constant(constant) | Denoted::Turn(constant) => {
                    Ok(converted(kind, constant))
                }
                _ => self.own(child, kind, setting),
            },
        }
    }

    /// The value of a parameter that is given nothing.
    fn own(
        &self,
        child: &ScopeTable<Denoted>,
        kind: ParameterType,
        setting: &Setting,
    ) -> Result<Fixed, Stop> {
        of_value(&view_of(self.view.names, child), kind, &setting.value)
    }
}

/// The value of a parameter from an expression in a scope.
fn of_value(scope: &ScopeView<'_>, kind: ParameterType, expr: &Expr) -> Result<Fixed, Stop> {
    match parameter_value(scope, kind, expr) {
        Ok(fixed) => Ok(fixed),
        Err(fault) => Err(Stop::from(fault)),
    }
}

impl Head {
    /// Adds a constant.
    fn put_value(&mut self, name: Token, fixed: Fixed) -> Result<(), Stop> {
        let Ok(()) = self.values.push(constant_of(name.name, fixed)) else {
            return Err(Stop::NoMemory);
        };
        Ok(())
    }

    /// Adds a port.
    fn put_port(&mut self, name: Token, kind: PortType) -> Result<(), Stop> {
        let Ok(()) = self.ports.push(HeadPort { name, kind }) else {
            return Err(Stop::NoMemory);
        };
        Ok(())
    }

    /// Adds what is given to a parameter of the items.
    fn put_override(&mut self, given: Option<Fixed>) -> Result<(), Stop> {
        let Ok(()) = self.overrides.push(given) else {
            return Err(Stop::NoMemory);
        };
        Ok(())
    }
}

/// A fixed value under a name.
pub fn constant_of(name: NameId, fixed: Fixed) -> Constant {
    Constant {
        name,
        kind: fixed.kind,
        value: fixed.value,
    }
}

/// Visits the ports.
fn visit_ports(
    outer: &Outer<'_, '_>,
    child: &mut ScopeTable<Denoted>,
    head: &mut Head,
    module: &Module,
) -> Result<(), Stop> {
    let Some(ports) = &module.ports else {
        return Ok(());
    };
    let Some(list) = &ports.list else {
        return Ok(());
    };
    let mut before = visit_port(outer, child, head, &list.first, no_port())?;
    for joined in list.more.as_slice() {
        before = visit_port(outer, child, head, &joined.item, before)?;
    }
    Ok(())
}

/// Visits a port, and gives its direction and type.
fn visit_port(
    outer: &Outer<'_, '_>,
    child: &mut ScopeTable<Denoted>,
    head: &mut Head,
    port: &Port,
    before: PortType,
) -> Result<PortType, Stop> {
    let kind = match port_type(&view_of(outer.view.names, child), port, before) {
        Ok(kind) => kind,
        Err(fault) => return Err(Stop::from(fault)),
    };
    child.declare(port.name.name, port_denoted(kind))?;
    head.put_port(port.name, kind)?;
    Ok(kind)
}

/// What the name of a port denotes.
pub fn port_denoted(kind: PortType) -> Denoted {
    Denoted::Variable(Declared {
        kind: kind.packed.kind,
        item: UNNUMBERED,
    })
}

/// Looks at the parameters of the items, up to the first fault.
fn look_ahead(
    outer: &Outer<'_, '_>,
    child: &mut ScopeTable<Denoted>,
    head: &mut Head,
    items: &[Item],
) -> Result<(), Stop> {
    match look_at_items(items, outer, child, head) {
        Err(Stop::NoMemory) => Err(Stop::NoMemory),
        _ => Ok(()),
    }
}

/// Looks at the parameters of items outside of blocks.
fn look_at_items(
    items: &[Item],
    outer: &Outer<'_, '_>,
    child: &mut ScopeTable<Denoted>,
    head: &mut Head,
) -> Result<(), Stop> {
    for item in items {
        match item {
            Item::Generate { items, .. } => look_at_items(items.as_slice(), outer, child, head)?,
            Item::Parameters {
                word,
                kind,
                settings,
                ..
            } => {
                let sort = sort_of(outer, child, *word, kind)?;
                look_at_settings(outer, child, head, sort, settings)?;
            }
            _ => {}
        }
    }
    Ok(())
}

/// Looks at the parameters of an item.
fn look_at_settings(
    outer: &Outer<'_, '_>,
    child: &mut ScopeTable<Denoted>,
    head: &mut Head,
    sort: Sort,
    settings: &CommaList<Setting>,
) -> Result<(), Stop> {
    look_at_setting(outer, child, head, sort, &settings.first)?;
    for joined in settings.more.as_slice() {
        look_at_setting(outer, child, head, sort, &joined.item)?;
    }
    Ok(())
}

/// What the parameters of an item have in common.
#[derive(Clone, Copy)]
struct Sort {
    kind: ParameterType,
    may_be_overridden: bool,
}

/// The type of an item's parameters, and whether they may be overridden.
fn sort_of(
    outer: &Outer<'_, '_>,
    child: &ScopeTable<Denoted>,
    word: Token,
    kind: &Option<DataType>,
) -> Result<Sort, Stop> {
    let names = outer.view.names;
    match item_type(&view_of(names, child), kind) {
        Ok(kind) => Ok(Sort {
            kind,
            may_be_overridden: is_parameter(names, word),
        }),
        Err(fault) => Err(Stop::from(fault)),
    }
}

/// Whether the word of an item is `parameter`.
pub fn is_parameter(names: &Names, word: Token) -> bool {
    matches!(symbol(names, word), Symbol::Parameter)
}

/// Looks at a parameter of an item: declares it, and keeps what it is given.
fn look_at_setting(
    outer: &Outer<'_, '_>,
    child: &mut ScopeTable<Denoted>,
    head: &mut Head,
    sort: Sort,
    setting: &Setting,
) -> Result<(), Stop> {
    if !sort.may_be_overridden {
        let fixed = outer.own(child, sort.kind, setting)?;
        return declare(child, setting.name, &fixed);
    }
    let number = head.overrides.len();
    let fixed = outer.value(child, sort.kind, number, setting)?;
    declare(child, setting.name, &fixed)?;
    if outer.is_given(setting.name, number) {
        return head.put_override(Some(fixed));
    }
    head.put_override(None)
}
