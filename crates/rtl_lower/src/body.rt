//! Statements, their loops unrolled (IEEE 1800-2017 10.4, 12.4, 12.5 and 12.7.1).

ghost use Rattle.std.specs.Prelude.{◌≡◌, OnOk};

use crate::expression::{call, lower};
use crate::fault::FlatFault;
use crate::here::Here;
use crate::inside::Inside;
use crate::kind::{Kind, kind_of, wider};
use crate::place::{assigned_value, place_of, target_kind};
use crate::turn::{enter_turn, first_value};
use rtl_ir::{Arm, Branch, Expr, Stmt};
use sqlite_items::Items;
use sv_expr::symbol;
use sv_tree::{
    Arm as TreeArm, Branch as TreeBranch, Expr as Tree, LoopHead, Lvalue, Step, Stmt as TreeStmt,
    Symbol, Token,
};
use vs_base::limits;

/// Adds a statement.
#[cycle(stmt)]
pub fn statement(
    stmt: &TreeStmt,
    inside: &mut Inside<'_>,
    out: &mut Items<Stmt>,
) -> Result<(), FlatFault>
    ensures { OnOk result (inside.new.table ≡ inside.old.table) }
{
    match stmt {
        TreeStmt::Empty(_) => Ok(()),
        TreeStmt::Block { body, .. } => {
            for inner in body.as_slice() {
                statement(inner, inside, out)?;
            }
            Ok(())
        }
        TreeStmt::If {
            branches,
            test,
            body,
        } => {
            let mut all = chain(branches.as_slice(), inside)?;
            let test = alone(&test.test, &inside.here())?;
            let body = body_of(body.get(), inside)?;
            all.push(Branch { test, body })?;
            let rest = Items::new(inside.alloc);
            out.push(Stmt::If(all, rest))?;
            Ok(())
        }
        TreeStmt::IfElse { branches, last } => {
            let all = chain(branches.as_slice(), inside)?;
            let rest = body_of(last.get(), inside)?;
            out.push(Stmt::If(all, rest))?;
            Ok(())
        }
        TreeStmt::Case { subject, arms, .. } => {
            let kind = case_kind(subject, arms.as_slice(), &inside.here())?;
            let subject = lower(subject, &inside.here(), kind)?;
            let rest = default_of(arms.as_slice(), inside)?;
            let arms = arms_of(arms.as_slice(), inside, &kind)?;
            out.push(Stmt::Case(subject, arms, rest))?;
            Ok(())
        }
        TreeStmt::For { head, body } => turns(body.get(), head, inside, out),
        TreeStmt::Assign {
            target,
            mark,
            value,
            ..
        } => {
            out.push(write(target, *mark, value, &inside.here())?)?;
            Ok(())
        }
        TreeStmt::Call { name, args, .. } => {
            out.push(Stmt::Do(call(args, *name, &inside.here())?))?;
            Ok(())
        }
    }
}

/// A statement by itself.
#[cycle(stmt)]
fn body_of(stmt: &TreeStmt, inside: &mut Inside<'_>) -> Result<Items<Stmt>, FlatFault>
    ensures { OnOk result (inside.new.table ≡ inside.old.table) }
{
    let mut body = Items::new(inside.alloc);
    statement(stmt, inside, &mut body)?;
    Ok(body)
}

/// The tests of a chain that an `else` follows, each with its statement.
#[cycle(stmt)]
fn chain(branches: &[TreeBranch], inside: &mut Inside<'_>) -> Result<Items<Branch>, FlatFault>
    ensures { OnOk result (inside.new.table ≡ inside.old.table) }
{
    let mut all = Items::new(inside.alloc);
    for branch in branches {
        let test = alone(&branch.test.test, &inside.here())?;
        let body = body_of(&branch.body, inside)?;
        all.push(Branch { test, body })?;
    }
    Ok(all)
}

/// The arms of a `case` that have labels, these in a context.
#[cycle(stmt)]
fn arms_of(arms: &[TreeArm], inside: &mut Inside<'_>, kind: &Kind) -> Result<Items<Arm>, FlatFault>
    ensures { OnOk result (inside.new.table ≡ inside.old.table) }
{
    let mut all = Items::new(inside.alloc);
    for arm in arms {
        if let TreeArm::Labels {
            first,
            more,
            body,
            ..
        } = arm
        {
            let labels = all_labels(first, more.as_slice(), &inside.here(), *kind)?;
            let body = body_of(body.get(), inside)?;
            all.push(Arm { labels, body })?;
        }
    }
    Ok(all)
}

/// The statement of the `default` of a `case`, if it has one.
#[cycle(stmt)]
fn default_of(arms: &[TreeArm], inside: &mut Inside<'_>) -> Result<Items<Stmt>, FlatFault>
    ensures { OnOk result (inside.new.table ≡ inside.old.table) }
{
    let mut rest = Items::new(inside.alloc);
    for arm in arms {
        if let TreeArm::Default { body, .. } = arm {
            statement(body.get(), inside, &mut rest)?;
        }
    }
    Ok(rest)
}

/// The statement of a loop, once for each turn.
#[cycle(stmt)]
fn turns(
    body: &TreeStmt,
    head: &LoopHead,
    inside: &mut Inside<'_>,
    out: &mut Items<Stmt>,
) -> Result<(), FlatFault>
    ensures { OnOk result (inside.new.table ≡ inside.old.table) }
{
    let mut value = first_value(head, inside)?;
    for _ in 0..=limits::LOOP_TURNS {
        let Some(next) = enter_turn(head, inside, &value)? else {
            return Ok(());
        };
        statement(body, inside, out)?;
        inside.table.leave();
        value = next;
    }
    Err(FlatFault::NotElaborated)
}

/// An expression, taken alone.
fn alone(expr: &Tree, here: &Here<'_>) -> Result<Expr, FlatFault> {
    lower(expr, here, kind_of(expr, here)?)
}

/// The widest type of the subject and the labels of a `case`, signed where all are (IEEE 1800-2017 12.5.3).
fn case_kind(subject: &Tree, arms: &[TreeArm], here: &Here<'_>) -> Result<Kind, FlatFault> {
    let mut kind = kind_of(subject, here)?;
    for arm in arms {
        if let TreeArm::Labels { first, more, .. } = arm {
            kind = wider(kind, kind_of(first, here)?);
            kind = with_labels(kind, more.as_slice(), here)?;
        }
    }
    Ok(kind)
}

/// A type with those of further labels.
fn with_labels(first: Kind, more: &[Step], here: &Here<'_>) -> Result<Kind, FlatFault> {
    let mut kind = first;
    for step in more {
        kind = wider(kind, kind_of(&step.operand, here)?);
    }
    Ok(kind)
}

/// The labels of an arm in a context.
fn all_labels(
    first: &Tree,
    more: &[Step],
    here: &Here<'_>,
    kind: Kind,
) -> Result<Items<Expr>, FlatFault> {
    let mut all = Items::new(here.alloc);
    all.push(lower(first, here, kind)?)?;
    for step in more {
        all.push(lower(&step.operand, here, kind)?)?;
    }
    Ok(all)
}

/// An assignment: with `<=` it is kept, with `=` it takes effect at once.
fn write(target: &Lvalue, mark: Token, value: &Tree, here: &Here<'_>) -> Result<Stmt, FlatFault> {
    let width = target_kind(target, here)?.width;
    let value = assigned_value(value, here, width)?;
    let place = place_of(target, here)?;
    if matches!(symbol(here.view.names, mark), Symbol::LessEqual) {
        return Ok(Stmt::Later(place, value));
    }
    Ok(Stmt::Write(place, value))
}
