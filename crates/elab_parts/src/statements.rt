//! The walk over statements, turn by turn of their loops.

use crate::counts::Tally;
use crate::present::Present;
use crate::stop::Stop;
use elab_types::start_value;
use sv_expr::{Denoted, Fixed};
use sv_tree::{Arm, Branch, Expr, LoopHead, Stmt};
use sv_walk::visit_expr;
use vs_base::limits;

/// A statement: what it counts itself, then its first fault, then the statements in it.
#[cycle(stmt)]
pub fn statement(present: &mut Present<'_>, stmt: &Stmt) -> Result<(), Stop> {
    match stmt {
        Stmt::Empty(_) => present.counts.lay(Tally::of(1)),
        Stmt::Block { body, .. } => {
            present.counts.lay(Tally::of(1))?;
            statements(present, body.as_slice())
        }
        Stmt::If {
            branches,
            test,
            body,
        } => {
            chain(present, branches.as_slice())?;
            present.expression(1, &test.test)?;
            statement(present, body.get())
        }
        Stmt::IfElse { branches, last } => {
            chain(present, branches.as_slice())?;
            statement(present, last.get())
        }
        Stmt::Case { subject, arms, .. } => {
            case_head(present, subject, arms.as_slice())?;
            arms_of(present, arms.as_slice())
        }
        Stmt::For { head, body } => turns(present, head, body.get()),
        Stmt::Assign { target, value, .. } => present.assignment(target, value),
        Stmt::Call { args, .. } => present.call(args),
    }
}

/// Statements, one after another.
#[cycle(stmt)]
fn statements(present: &mut Present<'_>, stmts: &[Stmt]) -> Result<(), Stop> {
    for stmt in stmts {
        statement(present, stmt)?;
    }
    Ok(())
}

/// The tests of a chain, each with its statement.
#[cycle(stmt)]
fn chain(present: &mut Present<'_>, branches: &[Branch]) -> Result<(), Stop> {
    for branch in branches {
        present.expression(1, &branch.test.test)?;
        statement(present, &branch.body)?;
    }
    Ok(())
}

/// What a `case` counts: itself, its subject and its labels. Then the first fault of the subject.
fn case_head(present: &mut Present<'_>, subject: &Expr, arms: &[Arm]) -> Result<(), Stop> {
    let mut tally = Tally::of(1);
    visit_expr(present.names, &mut tally, subject, false);
    for arm in arms {
        if let Arm::Labels { first, more, .. } = arm {
            visit_expr(present.names, &mut tally, first, false);
            for step in more.as_slice() {
                visit_expr(present.names, &mut tally, &step.operand, false);
            }
        }
    }
    present.counts.lay(tally)?;
    present.check(subject)
}

/// The arms of a `case`: the first fault of the labels, then the statement.
#[cycle(stmt)]
fn arms_of(present: &mut Present<'_>, arms: &[Arm]) -> Result<(), Stop> {
    for arm in arms {
        match arm {
            Arm::Labels {
                first,
                more,
                body,
                ..
            } => {
                present.check(first)?;
                present.check_steps(more.as_slice())?;
                statement(present, body.get())?;
            }
            Arm::Default { body, .. } => statement(present, body.get())?,
        }
    }
    Ok(())
}

/// The turns of a loop. No loop has more than the limit on all turns.
#[cycle(stmt)]
fn turns(present: &mut Present<'_>, head: &LoopHead, body: &Stmt) -> Result<(), Stop> {
    let mut value = first_value(present, head)?;
    let mut first = true;
    for _ in 0..limits::LOOP_TURNS {
        match enter_turn(present, head, &value, first)? {
            None => return Ok(()),
            Some(next) => value = next,
        }
        first = false;
        statement(present, body)?;
        present.table.leave();
    }
    last_turn(present, head, &value)
}

/// Counts a loop, and gives the value of its variable at the start.
fn first_value(present: &mut Present<'_>, head: &LoopHead) -> Result<Fixed, Stop> {
    present.counts.lay(Tally::of(1))?;
    match start_value(&present.view(), head) {
        Ok(value) => Ok(value),
        Err(fault) => Err(Stop::from(fault)),
    }
}

/// Enters the scope of a turn, in which the loop's variable is a constant, and gives its value in the next turn.
/// `None`: there is no turn, and no scope is entered.
fn enter_turn(
    present: &mut Present<'_>,
    head: &LoopHead,
    value: &Fixed,
    first: bool,
) -> Result<Option<Fixed>, Stop> {
    let held = *value;
    present.table.enter()?;
    present
        .table
        .declare(head.start.name.name, Denoted::Turn(held))?;
    let held = *value;
    match present.turn(head, held, first)? {
        Some(next) => Ok(Some(next)),
        None => {
            present.table.leave();
            Ok(None)
        }
    }
}

/// After as many turns as there may be: there is no other one.
fn last_turn(present: &mut Present<'_>, head: &LoopHead, value: &Fixed) -> Result<(), Stop> {
    match enter_turn(present, head, value, false)? {
        None => Ok(()),
        Some(_) => Err(Stop::LoopTurns(head.word.at)),
    }
}
