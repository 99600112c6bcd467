//! What statements write.
#![tactic(auto, using(crate::specs::WritesLaws::laws))]

ghost use Rattle.std.specs.Prelude.{◌≡◌, map, OnOk};
ghost use Rattle.rtl_pieces.specs.Line.{items_in};
ghost use Rattle.rtl_pieces.specs.Reads.{in_order};
ghost use Rattle.rtl_pieces.specs.Writes as spec;

use crate::line::BitLine;
use crate::range::BitRange;
use crate::reads::target_bits;
use rtl_ir::{Arm, Branch, Place, Stmt};
use std::alloc::AllocError;

/// Adds what an assignment writes.
fn add_place(place: &Place, line: &BitLine, found: &mut Vec<BitRange>) -> Result<(), AllocError>
    ensures { OnOk result (found.new.items ≡ spec.place_writes (items_in line.now) place.now found.old.items) }
{
    for target in place.parts.as_slice() {
        found.push(target_bits(target, line))?;
    }
    Ok(())
}

/// Adds what a statement writes.
#[cycle(writes)]
fn add_written(stmt: &Stmt, line: &BitLine, found: &mut Vec<BitRange>) -> Result<(), AllocError>
    ensures { OnOk result (found.new.items ≡ spec.stmt_writes (items_in line.now) stmt.now found.old.items) }
{
    match stmt {
        Stmt::Write(place, _) => add_place(place, line, found),
        Stmt::Later(place, _) => add_place(place, line, found),
        Stmt::If(branches, rest) => {
            branches_written(branches.as_slice(), line, found)?;
            add_all_written(rest.as_slice(), line, found)
        }
        Stmt::Case(_, arms, rest) => {
            arms_written(arms.as_slice(), line, found)?;
            add_all_written(rest.as_slice(), line, found)
        }
        Stmt::Do(_) => Ok(()),
    }
}

/// Adds what statements write.
#[cycle(writes)]
pub fn add_all_written(
    body: &[Stmt],
    line: &BitLine,
    found: &mut Vec<BitRange>,
) -> Result<(), AllocError>
    ensures { OnOk result (found.new.items ≡ spec.body_writes (items_in line.now) body.now found.old.items) }
{
    for stmt in body {
        add_written(stmt, line, found)?;
    }
    Ok(())
}

/// Adds what the bodies of tests write.
#[cycle(writes)]
fn branches_written(
    branches: &[Branch],
    line: &BitLine,
    found: &mut Vec<BitRange>,
) -> Result<(), AllocError>
    ensures { OnOk result (found.new.items ≡ in_order (map (spec.branch_writes (items_in line.now)) branches.now) found.old.items) }
{
    for branch in branches {
        add_all_written(branch.body.as_slice(), line, found)?;
    }
    Ok(())
}

/// Adds what the bodies of labels write.
#[cycle(writes)]
fn arms_written(arms: &[Arm], line: &BitLine, found: &mut Vec<BitRange>) -> Result<(), AllocError>
    ensures { OnOk result (found.new.items ≡ in_order (map (spec.arm_writes (items_in line.now)) arms.now) found.old.items) }
{
    for arm in arms {
        add_all_written(arm.body.as_slice(), line, found)?;
    }
    Ok(())
}
