//! The items of modules, and whole modules.

use crate::checker::{Checker, label_name};
use crate::declarations::{
    check_genvars, check_import, check_parameter_list, check_parameters, check_ports,
    check_variables,
};
use crate::fault::DesignFault;
use crate::instances::check_instance;
use crate::loops::{check_generate_head, enter_turn, leave_turn};
use crate::members::port_list;
use crate::places::{check_constant, check_events};
use crate::statements::{Process, check_assign, check_statement};
use sv_tree::{Assignment, CommaList, GenBlock, Item, ItemBranch, LoopHead, Module};

/// A module, of this number among the descriptions of the tree.
pub fn check_module(checker: &mut Checker<'_>, at: usize, module: &Module) {
    let name = module.name;
    if checker.modules.find(name.name) != Some(at) {
        checker.offer(DesignFault::Duplicate(name.at, name.name));
    }
    checker.module = at;
    checker.enter_module();
    if let Some(list) = &module.parameters {
        check_parameter_list(checker, list);
    }
    if let Some(list) = port_list(module) {
        check_ports(checker, list);
    }
    check_items(checker, module.items.as_slice());
    checker.leave();
    checker.close(Some(name), module.end_label);
}

#[cycle(items)]
fn check_items(checker: &mut Checker<'_>, items: &[Item]) {
    for one in items {
        check_item(checker, one);
    }
}

#[cycle(items)]
fn check_item(checker: &mut Checker<'_>, item: &Item) {
    match item {
        Item::Empty(_) => {}
        Item::Import(declared) => check_import(checker, declared),
        Item::Parameters { kind, settings, .. } => check_parameters(checker, kind, settings),
        Item::Variables {
            kind,
            declarations,
            ..
        } => check_variables(checker, kind, declarations),
        Item::Assigns { assignments, .. } => check_assigns(checker, assignments),
        Item::Comb { body, .. } | Item::Star { body, .. } | Item::ParenStar { body, .. } => {
            check_statement(checker, Process::Combinational, body);
        }
        Item::Clocked {
            events: list,
            body,
            ..
        } => {
            check_events(checker, list);
            check_statement(checker, Process::Clocked, body);
        }
        Item::Genvars { names, .. } => check_genvars(checker, names),
        Item::Generate { items: inner, .. } => check_items(checker, inner.as_slice()),
        Item::For { head, body } => {
            check_generate_head(checker, head);
            check_turn(checker, body.get(), head);
        }
        Item::If {
            branches,
            test,
            body,
        } => {
            let construct = checker.next_construct();
            check_tests(checker, construct, branches.as_slice());
            check_constant(checker, &test.test);
            check_branch(checker, construct, body.get());
        }
        Item::IfElse { branches, last } => {
            let construct = checker.next_construct();
            check_tests(checker, construct, branches.as_slice());
            check_branch(checker, construct, last.get());
        }
        Item::Instance {
            module,
            overrides,
            name,
            connections,
            ..
        } => check_instance(checker, *module, overrides, *name, connections),
    }
}

/// Continuous assignments.
fn check_assigns(checker: &mut Checker<'_>, list: &CommaList<Assignment>) {
    check_assign(checker, &list.first.target, &list.first.value);
    for joined in list.more.as_slice() {
        check_assign(checker, &joined.item.target, &joined.item.value);
    }
}

/// The block of a generate loop.
#[cycle(items)]
fn check_turn(checker: &mut Checker<'_>, block: &GenBlock, head: &LoopHead) {
    match block {
        GenBlock::Item(inner) => {
            enter_turn(checker, head);
            check_item(checker, inner.get());
            leave_turn(checker, head);
        }
        GenBlock::Block {
            label,
            items: inner,
            end_label,
            ..
        } => {
            checker.declare_block(*label, None);
            enter_turn(checker, head);
            check_items(checker, inner.as_slice());
            leave_turn(checker, head);
            checker.close(label_name(*label), *end_label);
        }
    }
}

/// The tests of a conditional construct, each with its branch.
#[cycle(items)]
fn check_tests(checker: &mut Checker<'_>, construct: usize, branches: &[ItemBranch]) {
    for one in branches {
        check_constant(checker, &one.test.test);
        check_branch(checker, construct, &one.body);
    }
}

/// A branch of a conditional construct. One that is an `if` itself with no `begin` round it is no block, and belongs to
/// the same construct (IEEE 1800-2017 27.5).
#[cycle(items)]
fn check_branch(checker: &mut Checker<'_>, construct: usize, block: &GenBlock) {
    match block {
        GenBlock::Item(inner) => match inner.get() {
            Item::If {
                branches,
                test,
                body,
            } => {
                check_tests(checker, construct, branches.as_slice());
                check_constant(checker, &test.test);
                check_branch(checker, construct, body.get());
            }
            Item::IfElse { branches, last } => {
                check_tests(checker, construct, branches.as_slice());
                check_branch(checker, construct, last.get());
            }
            other => {
                checker.enter();
                check_item(checker, other);
                checker.leave();
            }
        },
        GenBlock::Block {
            label,
            items: inner,
            end_label,
            ..
        } => {
            checker.declare_block(*label, Some(construct));
            checker.enter();
            check_items(checker, inner.as_slice());
            checker.leave();
            checker.close(label_name(*label), *end_label);
        }
    }
}
