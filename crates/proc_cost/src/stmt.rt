//! What statements cost.
#![tactic(auto, using(crate::specs::CostLaws::laws))]

ghost use Rattle.std.specs.Prelude.{◌≡◌, ◌-◌, ◌^◌, min};
ghost use Rattle.std.specs.List.{sum_by};
ghost use Rattle.proc_cost.specs.Costs as spec;

use crate::expr::{add, add_call, add_expr, add_target};
use rtl_ir::{Arm, Branch, Expr, Place, Proc, Stmt, Target};

/// What a process costs: each operator 1, a product 3, a quotient or remainder 10, a call of an import 20, a select that is not
/// constant 1, an assignment 1, an `if` and each label of a `case` 1. Names, numbers, concatenations, repetitions and constant
/// selects cost nothing. All branches count. It is at most what 32 bits hold.
#[tactic(auto, unfolding(crate::specs::Costs::onto))]
pub fn proc_cost(process: &Proc) -> u32
    ensures { result ≡ min (spec.proc_cost process.now) (2 ^ 32 - 1) }
{
    add_stmts(0, process.body.as_slice())
}

/// The cost with those of targets.
fn add_targets(so_far: u32, targets: &[Target]) -> u32
    ensures { result ≡ spec.onto so_far (sum_by spec.target_cost targets.now) }
{
    let mut cost = add(so_far, 0);
    for target in targets {
        cost = add_target(cost, target);
    }
    cost
}

/// The cost with that of a write.
fn add_write(so_far: u32, place: &Place, value: &Expr) -> u32
    ensures { result ≡ spec.onto so_far (spec.write_cost place.now value.now) }
{
    let so_far = add(so_far, 1);
    let so_far = add_targets(so_far, place.parts.as_slice());
    add_expr(so_far, value)
}

/// The cost with that of a statement.
#[cycle(cost)]
fn add_stmt(so_far: u32, stmt: &Stmt) -> u32
    ensures { result ≡ spec.onto so_far (spec.stmt_cost stmt.now) }
{
    match stmt {
        Stmt::Write(place, value) => add_write(so_far, place, value),
        Stmt::Later(place, value) => add_write(so_far, place, value),
        Stmt::If(branches, rest) => {
            let so_far = add_branches(so_far, branches.as_slice());
            add_stmts(so_far, rest.as_slice())
        }
        Stmt::Case(subject, arms, rest) => {
            let so_far = add_expr(so_far, subject);
            let so_far = add_arms(so_far, arms.as_slice());
            add_stmts(so_far, rest.as_slice())
        }
        Stmt::Do(call) => add_call(so_far, call),
    }
}

/// The cost with those of statements.
#[cycle(cost)]
fn add_stmts(so_far: u32, stmts: &[Stmt]) -> u32
    ensures { result ≡ spec.onto so_far (sum_by spec.stmt_cost stmts.now) }
{
    let mut cost = add(so_far, 0);
    for stmt in stmts {
        cost = add_stmt(cost, stmt);
    }
    cost
}

/// The cost with those of branches.
#[cycle(cost)]
fn add_branches(so_far: u32, branches: &[Branch]) -> u32
    ensures { result ≡ spec.onto so_far (sum_by spec.branch_cost branches.now) }
{
    let mut cost = add(so_far, 0);
    for branch in branches {
        cost = add_branch(cost, branch);
    }
    cost
}

/// The cost with that of a branch.
#[cycle(cost)]
fn add_branch(so_far: u32, branch: &Branch) -> u32
    ensures { result ≡ spec.onto so_far (spec.branch_cost branch.now) }
{
    let so_far = add(so_far, 1);
    let so_far = add_expr(so_far, &branch.test);
    add_stmts(so_far, branch.body.as_slice())
}

/// The cost with those of arms.
#[cycle(cost)]
fn add_arms(so_far: u32, arms: &[Arm]) -> u32
    ensures { result ≡ spec.onto so_far (sum_by spec.arm_cost arms.now) }
{
    let mut cost = add(so_far, 0);
    for arm in arms {
        cost = add_arm(cost, arm);
    }
    cost
}

/// The cost with that of an arm.
#[cycle(cost)]
fn add_arm(so_far: u32, arm: &Arm) -> u32
    ensures { result ≡ spec.onto so_far (spec.arm_cost arm.now) }
{
    let so_far = add_labels(so_far, arm.labels.as_slice());
    add_stmts(so_far, arm.body.as_slice())
}

/// The cost with those of labels.
fn add_labels(so_far: u32, labels: &[Expr]) -> u32
    ensures { result ≡ spec.onto so_far (sum_by spec.label_cost labels.now) }
{
    let mut cost = add(so_far, 0);
    for label in labels {
        cost = add_expr(add(cost, 1), label);
    }
    cost
}
