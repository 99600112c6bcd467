//! What statements read.
#![tactic(auto, using(crate::specs::WritesLaws::laws))]

ghost use Rattle.std.specs.Prelude.{◌≡◌, map, OnOk};
ghost use Rattle.rtl_pieces.specs.Line.{items_in};
ghost use Rattle.rtl_pieces.specs.Reads.{in_order};
ghost use Rattle.rtl_pieces.specs.Writes as spec;

use crate::line::BitLine;
use crate::range::BitRange;
use crate::reads::{add_expr, add_exprs, add_indices};
use rtl_ir::{Arm, Branch, Expr, Place, Stmt};
use std::alloc::AllocError;

/// Adds what an assignment reads: its value, and then the indices of its left side.
fn add_assignment(
    place: &Place,
    value: &Expr,
    line: &BitLine,
    found: &mut Vec<BitRange>,
) -> Result<(), AllocError>
    ensures { OnOk result (found.new.items ≡ spec.assignment_reads (items_in line.now) place.now value.now found.old.items) }
{
    add_expr(value, line, found)?;
    for target in place.parts.as_slice() {
        add_indices(target, line, found)?;
    }
    Ok(())
}

/// Adds what a statement reads.
#[cycle(reads)]
fn add_read(stmt: &Stmt, line: &BitLine, found: &mut Vec<BitRange>) -> Result<(), AllocError>
    ensures { OnOk result (found.new.items ≡ spec.stmt_reads (items_in line.now) stmt.now found.old.items) }
{
    match stmt {
        Stmt::Write(place, value) => add_assignment(place, value, line, found),
        Stmt::Later(place, value) => add_assignment(place, value, line, found),
        Stmt::If(branches, rest) => {
            branches_read(branches.as_slice(), line, found)?;
            add_all_read(rest.as_slice(), line, found)
        }
        Stmt::Case(subject, arms, rest) => {
            add_expr(subject, line, found)?;
            arms_read(arms.as_slice(), line, found)?;
            add_all_read(rest.as_slice(), line, found)
        }
        Stmt::Do(call) => add_exprs(call.args.as_slice(), line, found),
    }
}

/// Adds what statements read.
#[cycle(reads)]
pub fn add_all_read(
    body: &[Stmt],
    line: &BitLine,
    found: &mut Vec<BitRange>,
) -> Result<(), AllocError>
    ensures { OnOk result (found.new.items ≡ spec.body_reads (items_in line.now) body.now found.old.items) }
{
    for stmt in body {
        add_read(stmt, line, found)?;
    }
    Ok(())
}

/// Adds what tests and their bodies read.
#[cycle(reads)]
fn branches_read(
    branches: &[Branch],
    line: &BitLine,
    found: &mut Vec<BitRange>,
) -> Result<(), AllocError>
    ensures { OnOk result (found.new.items ≡ in_order (map (spec.branch_reads (items_in line.now)) branches.now) found.old.items) }
{
    for branch in branches {
        add_expr(&branch.test, line, found)?;
        add_all_read(branch.body.as_slice(), line, found)?;
    }
    Ok(())
}

/// Adds what labels and their bodies read.
#[cycle(reads)]
fn arms_read(arms: &[Arm], line: &BitLine, found: &mut Vec<BitRange>) -> Result<(), AllocError>
    ensures { OnOk result (found.new.items ≡ in_order (map (spec.arm_reads (items_in line.now)) arms.now) found.old.items) }
{
    for arm in arms {
        add_exprs(arm.labels.as_slice(), line, found)?;
        add_all_read(arm.body.as_slice(), line, found)?;
    }
    Ok(())
}
