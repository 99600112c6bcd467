//! The heads of loops. All in them is constant but for the loop's own variable.

use crate::checker::Checker;
use crate::class::Class;
use crate::fault::DesignFault;
use crate::places::check_constant;
use sv_tree::{LoopHead, LoopStep, Token};

/// Enters a loop among statements: its variable is declared after its start value.
pub fn enter_loop(checker: &mut Checker<'_>, head: &LoopHead) {
    let name = head.start.name;
    check_constant(checker, &head.start.value);
    checker.enter();
    checker.declare(name, Class::LoopVariable);
    check_turn_head(checker, head);
}

/// The head of a generate loop. Without the word `genvar` its name must be that of a genvar. In the head that is the
/// genvar of the loop, after its start value.
pub fn check_generate_head(checker: &mut Checker<'_>, head: &LoopHead) {
    let name = head.start.name;
    if head.kind.is_none() {
        check_genvar(checker, name);
    }
    check_constant(checker, &head.start.value);
    checker.enter();
    checker.declare(name, Class::Turn);
    check_turn_head(checker, head);
    checker.leave();
}

/// Enters the block of a generate loop. A genvar that the head declares is declared in the block; any other is seen from
/// it, and the block may declare its name anew.
pub fn enter_turn(checker: &mut Checker<'_>, head: &LoopHead) {
    checker.enter();
    checker.declare(head.start.name, Class::Turn);
    if head.kind.is_none() {
        checker.enter();
    }
}

/// Leaves the block of a generate loop.
pub fn leave_turn(checker: &mut Checker<'_>, head: &LoopHead) {
    if head.kind.is_none() {
        checker.leave();
    }
    checker.leave();
}

/// The name of a loop that declares no genvar.
fn check_genvar(checker: &mut Checker<'_>, name: Token) {
    match checker.class(name) {
        Class::Nothing => checker.offer(DesignFault::UnknownName(name.at, name.name)),
        Class::Genvar | Class::Turn => {}
        _ => checker.wrong_use(name),
    }
}

/// The condition and the step of a loop.
fn check_turn_head(checker: &mut Checker<'_>, head: &LoopHead) {
    check_constant(checker, &head.test);
    match &head.step {
        LoopStep::Set(setting) => {
            check_step(checker, head.start.name, setting.name);
            check_constant(checker, &setting.value);
        }
        LoopStep::After { name, .. } | LoopStep::Before { name, .. } => {
            check_step(checker, head.start.name, *name);
        }
    }
}

/// The name that a step writes, which must be the loop's own.
fn check_step(checker: &mut Checker<'_>, own: Token, name: Token) {
    if checker.class(name) == Class::Nothing {
        checker.offer(DesignFault::UnknownName(name.at, name.name));
    } else if name.name != own.name {
        checker.offer(DesignFault::WrongAssign(name.at));
    }
}
