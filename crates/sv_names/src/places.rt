//! What the places of names need: names that are read, written and called, and events.

use crate::checker::Checker;
use crate::class::Class;
use crate::fault::DesignFault;
use sv_tree::{Args, CommaList, Event, Expr, Select, Token};
use sv_walk::{Visit, first_token, is_target, visit_args, visit_expr, visit_target};

impl Visit for Checker<'_> {
    ghost told = { λ event old new. Unit {0} };

    fn name(&mut self, name: Token, selects: &[Select], constant: bool) {
        match self.class(name) {
            Class::Nothing => self.offer(DesignFault::UnknownName(name.at, name.name)),
            Class::Variable | Class::Input if selects.len() <= 1 => self.vary(name, constant),
            Class::Memory if is_element(selects) => self.vary(name, constant),
            Class::Parameter | Class::Turn | Class::LoopVariable if selects.len() == 0 => {}
            _ => self.wrong_use(name),
        }
    }

    fn call(&mut self, name: Token, args: &Args, constant: bool) {
        match self.class(name) {
            Class::Nothing => self.offer(DesignFault::UnknownName(name.at, name.name)),
            Class::Import {
                args: count,
                result: true,
            } if count == args_len(args) => self.vary(name, constant),
            _ => self.wrong_use(name),
        }
    }

    fn target(&mut self, name: Token, selects: &[Select]) {
        match self.class(name) {
            Class::Nothing => self.offer(DesignFault::UnknownName(name.at, name.name)),
            Class::Variable if selects.len() <= 1 => {}
            Class::Memory if is_element(selects) => {}
            Class::Input if selects.len() <= 1 => self.offer(DesignFault::WrongAssign(name.at)),
            Class::Parameter | Class::Turn | Class::LoopVariable if selects.len() == 0 => {
                self.offer(DesignFault::WrongAssign(name.at));
            }
            _ => self.wrong_use(name),
        }
    }

    fn term(&mut self) {}
}

impl Checker<'_> {
    // What is not constant stands where `constant` says that a constant is needed.
    fn vary(&mut self, name: Token, constant: bool) {
        if constant {
            self.offer(DesignFault::NotConstant(name.at));
        }
    }
}

/// Whether selects choose an element of a memory, or a part of one: an index, and at most one select more.
fn is_element(selects: &[Select]) -> bool {
    matches!(selects, [Select::Bit { .. }] | [Select::Bit { .. }, _])
}

/// How many arguments there are.
fn args_len(args: &Args) -> usize {
    match args {
        Args::Empty => 0,
        Args::Listed { more, .. } => more.len().saturating_add(1),
    }
}

/// An expression that is read.
pub fn check_read(checker: &mut Checker<'_>, expr: &Expr) {
    let names = checker.names;
    visit_expr(names, checker, expr, false);
}

/// An expression that must be constant.
pub fn check_constant(checker: &mut Checker<'_>, expr: &Expr) {
    let names = checker.names;
    visit_expr(names, checker, expr, true);
}

/// An expression that is written.
pub fn check_written(checker: &mut Checker<'_>, expr: &Expr) {
    let names = checker.names;
    if is_target(expr) {
        visit_target(names, checker, expr);
        return;
    }
    checker.offer(DesignFault::WrongAssign(first_token(expr).at));
    visit_expr(names, checker, expr, false);
}

/// The call of an import as a statement: a result is dropped.
pub fn check_call(checker: &mut Checker<'_>, name: Token, args: &Args) {
    match checker.class(name) {
        Class::Nothing => checker.offer(DesignFault::UnknownName(name.at, name.name)),
        Class::Import { args: count, .. } if count == args_len(args) => {}
        _ => checker.wrong_use(name),
    }
    let names = checker.names;
    visit_args(names, checker, args, false);
}

/// The events of a clocked process.
pub fn check_events(checker: &mut Checker<'_>, events: &CommaList<Event>) {
    check_event(checker, events.first);
    for joined in events.more.as_slice() {
        check_event(checker, joined.item);
    }
}

/// An event: its name is that of a variable.
fn check_event(checker: &mut Checker<'_>, event: Event) {
    let name = event.name;
    match checker.class(name) {
        Class::Nothing => checker.offer(DesignFault::UnknownName(name.at, name.name)),
        Class::Variable | Class::Input => {}
        _ => checker.wrong_use(name),
    }
}
