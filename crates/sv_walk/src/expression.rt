//! The walk over expressions.

ghost use Rattle.std.specs.Prelude.{◌≡◌, ◌||◌, [], map};
ghost use Rattle.sv_walk.specs.Events.{events, args_events, select_events, select_part, step_part, choice_part, each, each_after_operator, operators as operator_events, is_ceiling_log, is_range};
ghost use Rattle.sv_walk.specs.Tells.{Tells};

use crate::visit::Visit;
use sv_tree::{Args, Choice, Expr, Names, Select, Step, Token};

/// The system function whose argument needs a constant in this subset (IEEE 1800-2017 20.8.1).
const CLOG2: &[u8] = b"$clog2";

/// The mark of a part select both of whose ends need a constant (IEEE 1800-2017 11.5.1).
const RANGE: &[u8] = b":";

/// Whether the argument of a system function needs a constant.
fn is_argument_constant(names: &Names, name: Token, constant: bool) -> bool
    ensures { result ≡ (constant || is_ceiling_log names.now name) }
{
    constant || names.text_of(name.name) == CLOG2
}

/// Whether the first expression of a part select needs a constant.
fn is_start_constant(names: &Names, mark: Token, constant: bool) -> bool
    ensures { result ≡ (constant || is_range names.now mark) }
{
    constant || names.text_of(mark.name) == RANGE
}

/// An expression. `constant`: its place needs a constant.
#[cycle(walk)]
pub fn visit_expr<V: Visit>(names: &Names, visitor: &mut V, expr: &Expr, constant: bool)
    ensures { Tells V.told (events names.now expr.now constant) visitor.old visitor.new }
{
    match expr {
        Expr::Decimal(_) => visitor.term(),
        Expr::Based(_) => visitor.term(),
        Expr::Sized { .. } => visitor.term(),
        Expr::Fill(_) => visitor.term(),
        Expr::Name { name, selects } => {
            visitor.term();
            visitor.name(*name, selects.as_slice(), constant);
            visit_selects(names, visitor, selects.as_slice(), constant);
        }
        Expr::Paren { inner, .. } => {
            visitor.term();
            visit_expr(names, visitor, inner.get(), constant);
        }
        Expr::Concat { first, more, .. } => {
            visitor.term();
            visit_expr(names, visitor, first.get(), constant);
            visit_parts(names, visitor, more.as_slice(), constant);
        }
        Expr::Repeat {
            count,
            first,
            more,
            ..
        } => {
            visitor.term();
            visit_expr(names, visitor, count.get(), true);
            visit_expr(names, visitor, first.get(), constant);
            visit_parts(names, visitor, more.as_slice(), constant);
        }
        Expr::Call { name, args, .. } => {
            visitor.term();
            visitor.call(*name, args, constant);
            visit_args(names, visitor, args, constant);
        }
        Expr::System { name, arg, .. } => {
            visitor.term();
            let fixed = is_argument_constant(names, *name, constant);
            visit_expr(names, visitor, arg.get(), fixed);
        }
        Expr::Prefix { operators, operand } => {
            visit_operators(visitor, operators.as_slice());
            visit_expr(names, visitor, operand.get(), constant);
        }
        Expr::Level { first, more } => {
            visit_expr(names, visitor, first.get(), constant);
            visit_operands(names, visitor, more.as_slice(), constant);
        }
        Expr::Choose { choices, last } => {
            visit_choices(names, visitor, choices.as_slice(), constant);
            visit_expr(names, visitor, last.get(), constant);
        }
    }
}

/// The arguments of a call.
#[cycle(walk)]
pub fn visit_args<V: Visit>(names: &Names, visitor: &mut V, args: &Args, constant: bool)
    ensures { Tells V.told (args_events names.now args.now constant) visitor.old visitor.new }
{
    match args {
        Args::Empty => {}
        Args::Listed { first, more } => {
            visit_expr(names, visitor, first.get(), constant);
            visit_parts(names, visitor, more.as_slice(), constant);
        }
    }
}

/// The selects of a name.
#[cycle(walk)]
pub fn visit_selects<V: Visit>(names: &Names, visitor: &mut V, selects: &[Select], constant: bool)
    ensures { Tells V.told (select_events names.now selects.now constant) visitor.old visitor.new }
{
    for select in selects {
        visit_select(names, visitor, select, constant);
    }
}

/// A select.
#[cycle(walk)]
fn visit_select<V: Visit>(names: &Names, visitor: &mut V, select: &Select, constant: bool)
    ensures { Tells V.told ((select_part names.now select.now).events constant) visitor.old visitor.new }
{
    visitor.term();
    match select {
        Select::Bit { at, .. } => visit_expr(names, visitor, at.get(), constant),
        Select::Part { from, mark, to, .. } => {
            let fixed = is_start_constant(names, *mark, constant);
            visit_expr(names, visitor, from.get(), fixed);
            visit_expr(names, visitor, to.get(), true);
        }
    }
}

/// Further parts of a list.
#[cycle(walk)]
fn visit_parts<V: Visit>(names: &Names, visitor: &mut V, more: &[Step], constant: bool)
    ensures { Tells V.told (each (map (step_part names.now) more.now) constant) visitor.old visitor.new }
{
    for step in more {
        visit_expr(names, visitor, &step.operand, constant);
    }
}

/// Operators, each with the operand after it.
#[cycle(walk)]
fn visit_operands<V: Visit>(names: &Names, visitor: &mut V, more: &[Step], constant: bool)
    ensures { Tells V.told (each_after_operator (map (step_part names.now) more.now) constant) visitor.old visitor.new }
{
    for step in more {
        visitor.term();
        visit_expr(names, visitor, &step.operand, constant);
    }
}

/// The tests and values of a chain of `?:`.
#[cycle(walk)]
fn visit_choices<V: Visit>(names: &Names, visitor: &mut V, choices: &[Choice], constant: bool)
    ensures { Tells V.told (each (map (choice_part names.now) choices.now) constant) visitor.old visitor.new }
{
    for choice in choices {
        visit_expr(names, visitor, &choice.test, constant);
        visitor.term();
        visit_expr(names, visitor, &choice.value, constant);
    }
}

/// Operators before an operand.
fn visit_operators<V: Visit>(visitor: &mut V, operators: &[Token])
    ensures { Tells V.told (operator_events operators.now) visitor.old visitor.new }
{
    for _ in operators {
        visitor.term();
    }
}
