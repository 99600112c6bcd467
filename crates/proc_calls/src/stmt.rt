//! The calls in statements.
#![tactic(auto, using(crate::specs::CallLaws::laws))]

ghost use Rattle.std.specs.Prelude.{◌≡◌, ◌++◌, OnOk};
ghost use Rattle.std.specs.List.{flat_map};
ghost use Rattle.proc_calls.specs.Calls as spec;

use crate::expr::{add_call, add_expr, add_exprs, add_target};
use rtl_ir::{Arm, Branch, Expr, Place, Stmt, Target};
use std::alloc::AllocError;

/// Adds the calls in the indices of targets.
fn add_targets(targets: &[Target], calls: &mut Vec<u32>) -> Result<(), AllocError>
    ensures { OnOk result (calls.new.items ≡ calls.old.items ++ flat_map spec.target_calls targets.now) }
{
    for target in targets {
        add_target(target, calls)?;
    }
    Ok(())
}

/// Adds the calls of a write.
fn add_write(place: &Place, value: &Expr, calls: &mut Vec<u32>) -> Result<(), AllocError>
    ensures { OnOk result (calls.new.items ≡ calls.old.items ++ spec.write_calls place.now value.now) }
{
    add_expr(value, calls)?;
    add_targets(place.parts.as_slice(), calls)?;
    Ok(())
}

/// Adds the calls of a statement.
#[cycle(calls)]
fn add_stmt(stmt: &Stmt, calls: &mut Vec<u32>) -> Result<(), AllocError>
    ensures { OnOk result (calls.new.items ≡ calls.old.items ++ spec.stmt_calls stmt.now) }
{
    match stmt {
        Stmt::Write(place, value) => add_write(place, value, calls),
        Stmt::Later(place, value) => add_write(place, value, calls),
        Stmt::If(branches, rest) => {
            add_branches(branches.as_slice(), calls)?;
            add_stmts(rest.as_slice(), calls)?;
            Ok(())
        }
        Stmt::Case(subject, arms, rest) => {
            add_expr(subject, calls)?;
            add_arms(arms.as_slice(), calls)?;
            add_stmts(rest.as_slice(), calls)?;
            Ok(())
        }
        Stmt::Do(call) => add_call(call, calls),
    }
}

/// Adds the calls of statements.
#[cycle(calls)]
pub fn add_stmts(stmts: &[Stmt], calls: &mut Vec<u32>) -> Result<(), AllocError>
    ensures { OnOk result (calls.new.items ≡ calls.old.items ++ flat_map spec.stmt_calls stmts.now) }
{
    for stmt in stmts {
        add_stmt(stmt, calls)?;
    }
    Ok(())
}

/// Adds the calls of branches.
#[cycle(calls)]
fn add_branches(branches: &[Branch], calls: &mut Vec<u32>) -> Result<(), AllocError>
    ensures { OnOk result (calls.new.items ≡ calls.old.items ++ flat_map spec.branch_calls branches.now) }
{
    for branch in branches {
        add_branch(branch, calls)?;
    }
    Ok(())
}

/// Adds the calls of a branch.
#[cycle(calls)]
fn add_branch(branch: &Branch, calls: &mut Vec<u32>) -> Result<(), AllocError>
    ensures { OnOk result (calls.new.items ≡ calls.old.items ++ spec.branch_calls branch.now) }
{
    add_expr(&branch.test, calls)?;
    add_stmts(branch.body.as_slice(), calls)?;
    Ok(())
}

/// Adds the calls of arms.
#[cycle(calls)]
fn add_arms(arms: &[Arm], calls: &mut Vec<u32>) -> Result<(), AllocError>
    ensures { OnOk result (calls.new.items ≡ calls.old.items ++ flat_map spec.arm_calls arms.now) }
{
    for arm in arms {
        add_arm(arm, calls)?;
    }
    Ok(())
}

/// Adds the calls of an arm.
#[cycle(calls)]
fn add_arm(arm: &Arm, calls: &mut Vec<u32>) -> Result<(), AllocError>
    ensures { OnOk result (calls.new.items ≡ calls.old.items ++ spec.arm_calls arm.now) }
{
    add_exprs(arm.labels.as_slice(), calls)?;
    add_stmts(arm.body.as_slice(), calls)?;
    Ok(())
}
