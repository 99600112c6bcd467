//! Instances: the module, the overrides and the connections.

use crate::checker::Checker;
use crate::class::Class;
use crate::fault::DesignFault;
use crate::members::Direction;
use crate::places::{check_constant, check_read, check_written};
use sv_tree::{Args, CommaList, Connected, Connection, Connections, Expr, Overrides, Token};
use sv_walk::{Visit, first_token};

/// An instance.
pub fn check_instance(
    checker: &mut Checker<'_>,
    module: Token,
    overrides: &Option<Overrides>,
    name: Token,
    connections: &Connections,
) {
    let child = child_of(checker, module);
    if let Some(overrides) = overrides {
        check_overrides(checker, child, &overrides.connections);
    }
    checker.declare(name, Class::Instance);
    check_connections(checker, child, connections);
}

/// The module of an instance: its number among the descriptions of the tree.
fn child_of(checker: &mut Checker<'_>, module: Token) -> Option<usize> {
    let child = checker.modules.find(module.name);
    match child {
        Some(at) => {
            if checker.components.joins(checker.module, at) {
                checker.offer(DesignFault::SelfInstance(module.at));
            }
        }
        None => checker.offer(DesignFault::UnknownModule(module.at, module.name)),
    }
    child
}

/// The overrides of an instance.
fn check_overrides(checker: &mut Checker<'_>, child: Option<usize>, connections: &Connections) {
    match connections {
        Connections::Ordered(args) => check_ordered_overrides(checker, child, args),
        Connections::Named(list) => check_named_overrides(checker, child, list),
    }
}

fn check_ordered_overrides(checker: &mut Checker<'_>, child: Option<usize>, args: &Args) {
    if let Args::Listed { first, more } = args {
        let count = checker.members.parameter_count(child);
        check_ordered_override(checker, count, 0, first.get());
        for (at, step) in more.as_slice().iter().enumerate() {
            check_ordered_override(checker, count, at.saturating_add(1), &step.operand);
        }
    }
}

/// An override by position, among so many parameters.
fn check_ordered_override(checker: &mut Checker<'_>, count: usize, at: usize, value: &Expr) {
    if at >= count {
        checker.offer(DesignFault::UnknownParam(first_token(value).at));
    }
    check_constant(checker, value);
}

fn check_named_overrides(
    checker: &mut Checker<'_>,
    child: Option<usize>,
    list: &CommaList<Connection>,
) {
    checker.seen.begin();
    check_named_override(checker, child, &list.first);
    for joined in list.more.as_slice() {
        check_named_override(checker, child, &joined.item);
    }
}

/// An override by name. `.P` is `.P(P)`.
fn check_named_override(checker: &mut Checker<'_>, child: Option<usize>, connection: &Connection) {
    let name = connection.name;
    check_once(checker, name);
    if !checker.members.is_parameter(child, name.name) {
        checker.offer(DesignFault::UnknownParam(name.at));
    }
    match &connection.value {
        None => checker.name(name, &[], true),
        Some(
            Connected {
                value: Some(value),
                ..
            },
        ) => check_constant(checker, value),
        Some(Connected { value: None, .. }) => {}
    }
}

/// A name that may stand once in a list.
fn check_once(checker: &mut Checker<'_>, name: Token) {
    if checker.seen.again(name.name) {
        checker.offer(DesignFault::Duplicate(name.at, name.name));
    }
}

/// The connections of an instance.
fn check_connections(checker: &mut Checker<'_>, child: Option<usize>, connections: &Connections) {
    match connections {
        Connections::Ordered(args) => check_ordered_ports(checker, child, args),
        Connections::Named(list) => check_named_ports(checker, child, list),
    }
}

fn check_ordered_ports(checker: &mut Checker<'_>, child: Option<usize>, args: &Args) {
    if let Args::Listed { first, more } = args {
        check_ordered_port(checker, child, 0, first.get());
        for (at, step) in more.as_slice().iter().enumerate() {
            check_ordered_port(checker, child, at.saturating_add(1), &step.operand);
        }
    }
}

/// A connection by position.
fn check_ordered_port(checker: &mut Checker<'_>, child: Option<usize>, at: usize, value: &Expr) {
    let direction = checker.members.port_at(child, at);
    if direction.is_none() {
        checker.offer(DesignFault::UnknownPort(first_token(value).at));
    }
    check_connected(checker, direction, value);
}

fn check_named_ports(
    checker: &mut Checker<'_>,
    child: Option<usize>,
    list: &CommaList<Connection>,
) {
    checker.seen.begin();
    check_named_port(checker, child, &list.first);
    for joined in list.more.as_slice() {
        check_named_port(checker, child, &joined.item);
    }
}

/// A connection by name. `.p` is `.p(p)`.
fn check_named_port(checker: &mut Checker<'_>, child: Option<usize>, connection: &Connection) {
    let name = connection.name;
    check_once(checker, name);
    let direction = checker.members.port(child, name.name);
    if direction.is_none() {
        checker.offer(DesignFault::UnknownPort(name.at));
    }
    match &connection.value {
        None => check_connected_name(checker, direction, name),
        Some(
            Connected {
                value: Some(value),
                ..
            },
        ) => check_connected(checker, direction, value),
        Some(Connected { value: None, .. }) => {}
    }
}

/// An expression at a port: what an output gives is written.
fn check_connected(checker: &mut Checker<'_>, direction: Option<Direction>, value: &Expr) {
    match direction {
        Some(Direction::Output) => check_written(checker, value),
        Some(Direction::Input) | None => check_read(checker, value),
    }
}

/// A plain name at a port.
fn check_connected_name(checker: &mut Checker<'_>, direction: Option<Direction>, name: Token) {
    match direction {
        Some(Direction::Output) => checker.target(name, &[]),
        Some(Direction::Input) | None => checker.name(name, &[], false),
    }
}
