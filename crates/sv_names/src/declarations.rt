//! Declarations. A variable is declared from its name on, a parameter only after its own value (IEEE 1800-2017 6.21).

use crate::checker::Checker;
use crate::class::{Class, import_class};
use crate::members::{Direction, direction_of};
use crate::places::{check_constant, check_read};
use crate::spelled::is_spelled;
use sv_tree::{
    CommaList, DataType, Declaration, Dimension, Import, Parameter, ParameterList, Port, Range,
    Setting, Token,
};

/// The ends of a range, which are constant.
fn check_range(checker: &mut Checker<'_>, range: &Range) {
    check_constant(checker, &range.left);
    check_constant(checker, &range.right);
}

/// The range of a type, where it has one.
fn check_type(checker: &mut Checker<'_>, kind: &DataType) {
    match kind {
        DataType::Vector {
            range: Some(bounds),
            ..
        }
        | DataType::Signed {
            range: Some(bounds),
            ..
        }
        | DataType::Ranged(bounds) => check_range(checker, bounds),
        DataType::Vector { range: None, .. }
        | DataType::Signed { range: None, .. }
        | DataType::Fixed(_) => {}
    }
}

/// The range of a type that may be left out.
fn check_written_type(checker: &mut Checker<'_>, kind: &Option<DataType>) {
    if let Some(kind) = kind {
        check_type(checker, kind);
    }
}

/// A parameter and its value.
fn check_setting(checker: &mut Checker<'_>, setting: &Setting) {
    check_constant(checker, &setting.value);
    checker.declare(setting.name, Class::Parameter);
}

/// An entry of a parameter list.
fn check_parameter(checker: &mut Checker<'_>, parameter: &Parameter) {
    check_written_type(checker, &parameter.kind);
    check_setting(checker, &parameter.setting);
}

/// The parameter list of a module.
pub fn check_parameter_list(checker: &mut Checker<'_>, list: &ParameterList) {
    check_parameter(checker, &list.list.first);
    for joined in list.list.more.as_slice() {
        check_parameter(checker, &joined.item);
    }
}

/// The parameters of an item.
pub fn check_parameters(
    checker: &mut Checker<'_>,
    kind: &Option<DataType>,
    settings: &CommaList<Setting>,
) {
    check_written_type(checker, kind);
    check_setting(checker, &settings.first);
    for joined in settings.more.as_slice() {
        check_setting(checker, &joined.item);
    }
}

/// The ports of a module. One without a direction has that of the port before it.
pub fn check_ports(checker: &mut Checker<'_>, ports: &CommaList<Port>) {
    let names = checker.names;
    let mut last = direction_of(names, &ports.first, Direction::Input);
    check_port(checker, &ports.first, last);
    for joined in ports.more.as_slice() {
        last = direction_of(names, &joined.item, last);
        check_port(checker, &joined.item, last);
    }
}

fn check_port(checker: &mut Checker<'_>, port: &Port, direction: Direction) {
    check_written_type(checker, &port.kind);
    let class = match direction {
        Direction::Input => Class::Input,
        Direction::Output => Class::Variable,
    };
    checker.declare(port.name, class);
}

/// Whether a type is that of a net, which is driven by the `=` of its declaration.
fn is_net(checker: &Checker<'_>, kind: &DataType) -> bool {
    match kind {
        DataType::Vector { word, .. } => is_spelled(checker.names, *word, b"wire"),
        _ => false,
    }
}

/// The variables of an item.
pub fn check_variables(
    checker: &mut Checker<'_>,
    kind: &DataType,
    declarations: &CommaList<Declaration>,
) {
    check_type(checker, kind);
    let net = is_net(checker, kind);
    check_declaration(checker, net, &declarations.first);
    for joined in declarations.more.as_slice() {
        check_declaration(checker, net, &joined.item);
    }
}

/// A variable or a memory. A memory has no `=`, and the value of what is no net is constant.
fn check_declaration(checker: &mut Checker<'_>, net: bool, declaration: &Declaration) {
    let name = declaration.name;
    match &declaration.dimension {
        Some(bounds) => {
            checker.declare(name, Class::Memory);
            if declaration.value.is_some() {
                checker.wrong_use(name);
            }
            check_dimension(checker, bounds);
        }
        None => checker.declare(name, Class::Variable),
    }
    if let Some(initial) = &declaration.value {
        if net {
            check_read(checker, &initial.value);
        } else {
            check_constant(checker, &initial.value);
        }
    }
}

/// The bounds of a memory, which are constant.
fn check_dimension(checker: &mut Checker<'_>, dimension: &Dimension) {
    match dimension {
        Dimension::Count { count, .. } => check_constant(checker, count),
        Dimension::Bounds(bounds) => check_range(checker, bounds),
    }
}

/// Genvars, outside of the loops over them.
pub fn check_genvars(checker: &mut Checker<'_>, names: &CommaList<Token>) {
    checker.declare(names.first, Class::Genvar);
    for joined in names.more.as_slice() {
        checker.declare(joined.item, Class::Genvar);
    }
}

/// An import among the items of a module.
pub fn check_import(checker: &mut Checker<'_>, import: &Import) {
    let class = import_class(checker.names, import);
    checker.declare(import.name, class);
}
