//! The turns of loops (IEEE 1800-2017 12.7.1 and 27.4).

ghost use Rattle.std.specs.Prelude.{◌≡◌, IfOk, IfSome, MatchOption, is_some};
ghost use Rattle.elab_types.specs.Turns as turns;
ghost use Rattle.elab_types.specs.Value.{assigned, counted, cut_to, valued};
ghost use Rattle.rtl_lower.specs.Kinds.{environment_in, environment_of, in_turn};
ghost use Rattle.scope_table.specs.Scopes.{left};
ghost use Rattle.sv_expr.specs.declared.scope.Denoted.TheVariants as denoted;

use crate::fault::FlatFault;
use crate::inside::Inside;
use elab_types::{COUNTER, cut, holds, next_value, start_value};
use sv_expr::{Denoted, Fixed};
use sv_tree::LoopHead;

/// The value of a loop's variable at the start.
pub fn first_value(head: &LoopHead, inside: &Inside<'_>) -> Result<Fixed, FlatFault>
    ensures { IfOk result (λ fixed. valued fixed ≡ counted (assigned (environment_in inside.now) head.now.start.value 32)) }
{
    match start_value(&inside.view(), head) {
        Ok(value) => Ok(value),
        Err(fault) => Err(FlatFault::from(fault)),
    }
}

/// Enters the scope of a turn of a statement's loop, and gives the variable's value in the next turn. `None`: there is no turn,
/// and no scope is entered.
pub fn enter_turn(
    head: &LoopHead,
    inside: &mut Inside<'_>,
    value: &Fixed,
) -> Result<Option<Fixed>, FlatFault>
    ensures scope { IfOk result (λ next. MatchOption next (inside.new.table ≡ inside.old.table) (λ _. inside.new.table ≡ in_turn head.now (denoted.Turn value.now) inside.old.table)) }
    ensures goes_on { IfOk result (λ next. is_some next ≡ turns.holds (environment_of inside.old.names.now (in_turn head.now (denoted.Turn value.now) inside.old.table)) head.now.test) }
    ensures next { IfOk result (λ next. IfSome next (λ fixed. valued fixed ≡ counted (turns.next (environment_of inside.old.names.now (in_turn head.now (denoted.Turn value.now) inside.old.table)) head.now.step (cut_to 32 value.now.value)))) }
{
    inside.table.enter()?;
    inside
        .table
        .declare(head.start.name.name, Denoted::Turn(*value))?;
    turn(head, inside, value)
}

/// The same of a generate loop, whose genvar is a constant of the turn's scope.
pub fn enter_block(
    head: &LoopHead,
    inside: &mut Inside<'_>,
    value: &Fixed,
) -> Result<Option<Fixed>, FlatFault>
    ensures scope { IfOk result (λ next. MatchOption next (inside.new.table ≡ inside.old.table) (λ _. inside.new.table ≡ in_turn head.now (denoted.Constant value.now) inside.old.table)) }
    ensures goes_on { IfOk result (λ next. is_some next ≡ turns.holds (environment_of inside.old.names.now (in_turn head.now (denoted.Constant value.now) inside.old.table)) head.now.test) }
    ensures next { IfOk result (λ next. IfSome next (λ fixed. valued fixed ≡ counted (turns.next (environment_of inside.old.names.now (in_turn head.now (denoted.Constant value.now) inside.old.table)) head.now.step (cut_to 32 value.now.value)))) }
{
    inside.table.enter()?;
    inside
        .table
        .declare(head.start.name.name, Denoted::Constant(*value))?;
    turn(head, inside, value)
}

/// The variable's value in the next turn, in the scope of this one. `None`: there is no turn, and the scope is left.
fn turn(head: &LoopHead, inside: &mut Inside<'_>, value: &Fixed) -> Result<Option<Fixed>, FlatFault>
    ensures scope { IfOk result (λ next. MatchOption next (inside.new.table ≡ left inside.old.table) (λ _. inside.new.table ≡ inside.old.table)) }
    ensures goes_on { IfOk result (λ next. is_some next ≡ turns.holds (environment_in inside.old) head.now.test) }
    ensures next { IfOk result (λ next. IfSome next (λ fixed. valued fixed ≡ counted (turns.next (environment_in inside.old) head.now.step (cut_to 32 value.now.value)))) }
{
    if goes_on(head, inside)? {
        return Ok(Some(next(head, inside, value)?));
    }
    inside.table.leave();
    Ok(None)
}

/// Whether the condition of a loop holds.
fn goes_on(head: &LoopHead, inside: &Inside<'_>) -> Result<bool, FlatFault>
    ensures { IfOk result (λ goes_on. goes_on ≡ turns.holds (environment_in inside.now) head.now.test) }
{
    match holds(&inside.view(), &head.test) {
        Ok(goes_on) => Ok(goes_on),
        Err(fault) => Err(FlatFault::from(fault)),
    }
}

/// The value of a loop's variable in the next turn.
fn next(head: &LoopHead, inside: &Inside<'_>, value: &Fixed) -> Result<Fixed, FlatFault>
    ensures { IfOk result (λ next. valued next ≡ counted (turns.next (environment_in inside.now) head.now.step (cut_to 32 value.now.value))) }
{
    let value = Fixed {
        kind: COUNTER,
        value: cut(value.value, 32),
    };
    match next_value(&inside.view(), head, value) {
        Ok(next) => Ok(next),
        Err(fault) => Err(FlatFault::from(fault)),
    }
}
