//! Copies of statements.
ghost use Rattle.std.specs.Prelude.{◌≡◌, IfOk};

use crate::copied::copies;
use crate::expr::{copy_call, copy_expr, copy_exprs};
use rtl_ir::{Arm, Branch, Place, Stmt};
use sqlite_items::Items;
use std::alloc::{AllocError, Global};

fn copy_place(alloc: Global, place: &Place) -> Result<Place, AllocError>
    ensures { IfOk result (λ copy. copy ≡ place.now) }
{
    let parts = copies(alloc, place.parts.as_slice())?;
    Ok(Place { parts })
}

#[cycle(copy_stmt)]
fn copy_stmt(alloc: Global, stmt: &Stmt) -> Result<Stmt, AllocError>
    ensures { IfOk result (λ copy. copy ≡ stmt.now) }
{
    match stmt {
        Stmt::Write(place, value) => {
            let place = copy_place(alloc, place)?;
            Ok(Stmt::Write(place, copy_expr(alloc, value)?))
        }
        Stmt::Later(place, value) => {
            let place = copy_place(alloc, place)?;
            Ok(Stmt::Later(place, copy_expr(alloc, value)?))
        }
        Stmt::If(branches, rest) => {
            let branches = copy_branches(alloc, branches.as_slice())?;
            Ok(Stmt::If(branches, copy_stmts(alloc, rest.as_slice())?))
        }
        Stmt::Case(subject, arms, rest) => {
            let subject = copy_expr(alloc, subject)?;
            let arms = copy_arms(alloc, arms.as_slice())?;
            Ok(Stmt::Case(subject, arms, copy_stmts(alloc, rest.as_slice())?))
        }
        Stmt::Do(call) => Ok(Stmt::Do(copy_call(alloc, call)?)),
    }
}

/// Equal statements, in order.
#[cycle(copy_stmt)]
pub fn copy_stmts(alloc: Global, stmts: &[Stmt]) -> Result<Items<Stmt>, AllocError>
    ensures { IfOk result (λ copies. copies ≡ stmts.now) }
{
    let mut copies = Items::new(alloc);
    for stmt in stmts {
        let copy = copy_stmt(alloc, stmt)?;
        copies.push(copy)?;
    }
    Ok(copies)
}

#[cycle(copy_stmt)]
fn copy_branches(alloc: Global, branches: &[Branch]) -> Result<Items<Branch>, AllocError>
    ensures { IfOk result (λ copies. copies ≡ branches.now) }
{
    let mut copies = Items::new(alloc);
    for branch in branches {
        let test = copy_expr(alloc, &branch.test)?;
        let body = copy_stmts(alloc, branch.body.as_slice())?;
        copies.push(Branch { test, body })?;
    }
    Ok(copies)
}

#[cycle(copy_stmt)]
fn copy_arms(alloc: Global, arms: &[Arm]) -> Result<Items<Arm>, AllocError>
    ensures { IfOk result (λ copies. copies ≡ arms.now) }
{
    let mut copies = Items::new(alloc);
    for arm in arms {
        let labels = copy_exprs(alloc, arm.labels.as_slice())?;
        let body = copy_stmts(alloc, arm.body.as_slice())?;
        copies.push(Arm { labels, body })?;
    }
    Ok(copies)
}
