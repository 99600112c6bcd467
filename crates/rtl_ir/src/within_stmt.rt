//! Whether statements fit a design.
#![tactic(auto, using(crate::specs::WithinStmtLaws::laws))]

ghost use Rattle.std.specs.Prelude.{◌≡◌, ◌&&◌};
ghost use Rattle.std.specs.List.{list_all};
ghost use Rattle.rtl_ir.specs.Within.{target_fits as target_within, expr_fits as expr_within};
ghost use Rattle.rtl_ir.specs.WithinStmt as within;

use crate::counts::Counts;
use crate::expr::{Expr, Target};
use crate::stmt::{Arm, Branch, Place, Stmt};
use crate::within::{call_fits, expr_fits, exprs_fit, target_fits};

/// Whether targets fit.
fn targets_fit(counts: &Counts, targets: &[Target]) -> bool
    ensures { result ≡ list_all (target_within counts.now) targets.now }
{
    for target in targets {
        if !target_fits(counts, target) {
            return false;
        }
    }
    true
}

/// Whether a write fits.
fn write_fits(counts: &Counts, place: &Place, value: &Expr) -> bool
    ensures { result ≡ (within.place_fits counts.now place.now && expr_within counts.now value.now) }
{
    if !targets_fit(counts, place.parts.as_slice()) {
        return false;
    }
    expr_fits(counts, value)
}

/// Whether a statement fits.
#[cycle(stmt_fits)]
pub fn stmt_fits(counts: &Counts, stmt: &Stmt) -> bool
    ensures { result ≡ within.stmt_fits counts.now stmt.now }
{
    match stmt {
        Stmt::Write(place, value) => write_fits(counts, place, value),
        Stmt::Later(place, value) => write_fits(counts, place, value),
        Stmt::If(branches, rest) => {
            if !branches_fit(counts, branches.as_slice()) {
                return false;
            }
            stmts_fit(counts, rest.as_slice())
        }
        Stmt::Case(subject, arms, rest) => {
            if !expr_fits(counts, subject) {
                return false;
            }
            if !arms_fit(counts, arms.as_slice()) {
                return false;
            }
            stmts_fit(counts, rest.as_slice())
        }
        Stmt::Do(call) => call_fits(counts, call),
    }
}

/// Whether statements fit.
#[cycle(stmt_fits)]
pub fn stmts_fit(counts: &Counts, stmts: &[Stmt]) -> bool
    ensures { result ≡ list_all (within.stmt_fits counts.now) stmts.now }
{
    for stmt in stmts {
        if !stmt_fits(counts, stmt) {
            return false;
        }
    }
    true
}

/// Whether branches fit.
#[cycle(stmt_fits)]
fn branches_fit(counts: &Counts, branches: &[Branch]) -> bool
    ensures { result ≡ list_all (within.branch_fits counts.now) branches.now }
{
    for branch in branches {
        if !branch_fits(counts, branch) {
            return false;
        }
    }
    true
}

/// Whether a branch fits.
#[cycle(stmt_fits)]
fn branch_fits(counts: &Counts, branch: &Branch) -> bool
    ensures { result ≡ within.branch_fits counts.now branch.now }
{
    if !expr_fits(counts, &branch.test) {
        return false;
    }
    stmts_fit(counts, branch.body.as_slice())
}

/// Whether arms fit.
#[cycle(stmt_fits)]
fn arms_fit(counts: &Counts, arms: &[Arm]) -> bool
    ensures { result ≡ list_all (within.arm_fits counts.now) arms.now }
{
    for arm in arms {
        if !arm_fits(counts, arm) {
            return false;
        }
    }
    true
}

/// Whether an arm fits.
#[cycle(stmt_fits)]
fn arm_fits(counts: &Counts, arm: &Arm) -> bool
    ensures { result ≡ within.arm_fits counts.now arm.now }
{
    if !exprs_fit(counts, arm.labels.as_slice()) {
        return false;
    }
    stmts_fit(counts, arm.body.as_slice())
}
