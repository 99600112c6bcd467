//! The tokens of statements, and of what they assign.

ghost use Rattle.std.specs.Prelude.{map};
ghost use Rattle.sv_tree.specs.Printed.{Appends};
ghost use Rattle.sv_tree.specs.TreeRead.{all_of};
ghost use Rattle.sv_tree.specs.TreeStmt.{lvalue_read, lvalue_step_read, texts, arm_read, stmt_read, branch_read};

use crate::print::expr::{print_args, print_selects, print_steps};
use crate::print::part::Print;
use crate::print::printer::Printer;
use crate::tree::stmt::{Arm, Branch, Lvalue, LvalueStep, Stmt};

impl Print for Lvalue {
    ghost printed = { λ x. (lvalue_read x).print };

    fn print(&self, out: &mut Printer) {
        print_lvalue(out, self);
    }
}

/// Prints what is assigned.
#[cycle(lvalue)]
fn print_lvalue(out: &mut Printer, target: &Lvalue)
    ensures { Appends out.old (lvalue_read target.now).print out.new }
{
    match target {
        Lvalue::Name { name, selects } => {
            out.push(*name);
            print_selects(out, selects.as_slice());
        }
        Lvalue::Concat {
            open,
            first,
            more,
            close,
        } => {
            out.push(*open);
            print_lvalue(out, first.get());
            print_lvalue_steps(out, more.as_slice());
            out.push(*close);
        }
    }
}

/// Prints further targets of a concatenation.
#[cycle(lvalue)]
fn print_lvalue_steps(out: &mut Printer, steps: &[LvalueStep])
    ensures { Appends out.old (all_of (map lvalue_step_read steps.now)).print out.new }
{
    for step in steps {
        out.push(step.comma);
        print_lvalue(out, &step.target);
    }
}

impl Print for Stmt {
    ghost printed = { λ x. (stmt_read x).text.print };

    fn print(&self, out: &mut Printer) {
        print_stmt(out, self);
    }
}

/// Prints a statement.
#[cycle(stmt)]
fn print_stmt(out: &mut Printer, tree: &Stmt)
    ensures { Appends out.old (stmt_read tree.now).text.print out.new }
{
    match tree {
        Stmt::Empty(semicolon) => out.push(*semicolon),
        Stmt::Block {
            begin,
            label,
            body,
            end,
            end_label,
        } => {
            out.push(*begin);
            label.print(out);
            print_stmts(out, body.as_slice());
            out.push(*end);
            end_label.print(out);
        }
        Stmt::If {
            branches,
            test,
            body,
        } => {
            print_branches(out, branches.as_slice());
            test.print(out);
            print_stmt(out, body.get());
        }
        Stmt::IfElse { branches, last } => {
            print_branches(out, branches.as_slice());
            print_stmt(out, last.get());
        }
        Stmt::Case {
            word,
            open,
            subject,
            close,
            arms,
            end,
        } => {
            out.push(*word);
            out.push(*open);
            subject.print(out);
            out.push(*close);
            print_arms(out, arms.as_slice());
            out.push(*end);
        }
        Stmt::For { head, body } => {
            head.print(out);
            print_stmt(out, body.get());
        }
        Stmt::Assign {
            target,
            mark,
            value,
            semicolon,
        } => {
            target.print(out);
            out.push(*mark);
            value.print(out);
            out.push(*semicolon);
        }
        Stmt::Call {
            name,
            open,
            args,
            close,
            semicolon,
        } => {
            out.push(*name);
            out.push(*open);
            print_args(out, args);
            out.push(*close);
            out.push(*semicolon);
        }
    }
}

/// Prints statements, in order.
#[cycle(stmt)]
fn print_stmts(out: &mut Printer, body: &[Stmt])
    ensures { Appends out.old (texts (map stmt_read body.now)).print out.new }
{
    for stmt in body {
        print_stmt(out, stmt);
    }
}

/// Prints the branches of a chain of `else if`.
#[cycle(stmt)]
fn print_branches(out: &mut Printer, branches: &[Branch])
    ensures { Appends out.old (all_of (map branch_read branches.now)).print out.new }
{
    for branch in branches {
        branch.test.print(out);
        print_stmt(out, &branch.body);
        out.push(branch.else_word);
    }
}

/// Prints the arms of a `case`.
#[cycle(stmt)]
fn print_arms(out: &mut Printer, arms: &[Arm])
    ensures { Appends out.old (all_of (map arm_read arms.now)).print out.new }
{
    for arm in arms {
        print_arm(out, arm);
    }
}

/// Prints an arm of a `case`.
#[cycle(stmt)]
fn print_arm(out: &mut Printer, arm: &Arm)
    ensures { Appends out.old (arm_read arm.now).print out.new }
{
    match arm {
        Arm::Labels {
            first,
            more,
            colon,
            body,
        } => {
            first.print(out);
            print_steps(out, more.as_slice());
            out.push(*colon);
            print_stmt(out, body.get());
        }
        Arm::Default { word, colon, body } => {
            out.push(*word);
            colon.print(out);
            print_stmt(out, body.get());
        }
    }
}
