//! Statements.

use crate::checker::{Checker, label_name};
use crate::fault::DesignFault;
use crate::loops::enter_loop;
use crate::places::{check_call, check_read};
use crate::spelled::is_spelled;
use sv_tree::{Arm, Branch, Expr, Lvalue, Step, Stmt, Token};
use sv_walk::visit_lvalue;

/// What a process assigns by: `=` where it is combinational, and `<=` where it is clocked.
#[derive(Clone, Copy, Debug, PartialEq, Eq)]
pub enum Process {
    Combinational,
    Clocked,
}

/// A statement of a process.
#[cycle(statements)]
pub fn check_statement(checker: &mut Checker<'_>, process: Process, stmt: &Stmt) {
    match stmt {
        Stmt::Empty(_) => {}
        Stmt::Block {
            label,
            body,
            end_label,
            ..
        } => {
            checker.declare_block(*label, None);
            check_statements(checker, process, body.as_slice());
            checker.close(label_name(*label), *end_label);
        }
        Stmt::If {
            branches,
            test,
            body,
        } => {
            check_tests(checker, process, branches.as_slice());
            check_read(checker, &test.test);
            check_statement(checker, process, body.get());
        }
        Stmt::IfElse { branches, last } => {
            check_tests(checker, process, branches.as_slice());
            check_statement(checker, process, last.get());
        }
        Stmt::Case { subject, arms, .. } => {
            check_read(checker, subject);
            check_arms(checker, process, arms.as_slice());
        }
        Stmt::For { head, body } => {
            enter_loop(checker, head);
            check_statement(checker, process, body.get());
            checker.leave();
        }
        Stmt::Assign {
            target,
            mark,
            value,
            ..
        } => check_assignment(checker, process, target, *mark, value),
        Stmt::Call { name, args, .. } => check_call(checker, *name, args),
    }
}

#[cycle(statements)]
fn check_statements(checker: &mut Checker<'_>, process: Process, body: &[Stmt]) {
    for stmt in body {
        check_statement(checker, process, stmt);
    }
}

#[cycle(statements)]
fn check_tests(checker: &mut Checker<'_>, process: Process, branches: &[Branch]) {
    for branch in branches {
        check_read(checker, &branch.test.test);
        check_statement(checker, process, &branch.body);
    }
}

#[cycle(statements)]
fn check_arms(checker: &mut Checker<'_>, process: Process, arms: &[Arm]) {
    let mut has_default = false;
    for arm in arms {
        match arm {
            Arm::Labels {
                first,
                more,
                body,
                ..
            } => {
                check_read(checker, first);
                check_labels(checker, more.as_slice());
                check_statement(checker, process, body.get());
            }
            Arm::Default { word, body, .. } => {
                check_default(checker, has_default, *word);
                has_default = true;
                check_statement(checker, process, body.get());
            }
        }
    }
}

/// Further labels of an arm.
fn check_labels(checker: &mut Checker<'_>, more: &[Step]) {
    for step in more {
        check_read(checker, &step.operand);
    }
}

/// The `default` of a `case`, which has at most one (IEEE 1800-2017 12.5).
fn check_default(checker: &mut Checker<'_>, has_default: bool, word: Token) {
    if has_default {
        checker.offer(DesignFault::Duplicate(word.at, word.name));
    }
}

/// An assignment of a process.
fn check_assignment(
    checker: &mut Checker<'_>,
    process: Process,
    target: &Lvalue,
    mark: Token,
    value: &Expr,
) {
    let later = is_spelled(checker.names, mark, b"<=");
    if later != (process == Process::Clocked) {
        checker.offer(DesignFault::WrongAssign(first_of(target).at));
    }
    check_assign(checker, target, value);
}

/// What is assigned, and the value.
pub fn check_assign(checker: &mut Checker<'_>, target: &Lvalue, value: &Expr) {
    let names = checker.names;
    visit_lvalue(names, checker, target);
    check_read(checker, value);
}

/// The first token of what is assigned.
fn first_of(target: &Lvalue) -> Token {
    match target {
        Lvalue::Name { name, .. } => *name,
        Lvalue::Concat { open, .. } => *open,
    }
}
