//! The walk over what is written: the left side of an assignment, and what is connected to an output port.

ghost use Rattle.std.specs.Prelude.{◌≡◌, map};
ghost use Rattle.std.specs.List.{flat_map};
ghost use Rattle.sv_walk.specs.Events.{step_part, written_events, each_written};
ghost use Rattle.sv_walk.specs.Targets.{lvalue_events, lvalue_step_events, is_target as may_be_written};
ghost use Rattle.sv_walk.specs.Targets.{step_targets};
ghost use Rattle.sv_walk.specs.Tells.{Tells};

use crate::expression::visit_selects;
use crate::visit::Visit;
use sv_tree::{Expr, Lvalue, LvalueStep, Names, Step};

/// What is assigned.
#[cycle(lvalue)]
pub fn visit_lvalue<V: Visit>(names: &Names, visitor: &mut V, target: &Lvalue)
    ensures { Tells V.told (lvalue_events names.now target.now) visitor.old visitor.new }
{
    match target {
        Lvalue::Name { name, selects } => {
            visitor.target(*name, selects.as_slice());
            visit_selects(names, visitor, selects.as_slice(), false);
        }
        Lvalue::Concat { first, more, .. } => {
            visit_lvalue(names, visitor, first.get());
            visit_lvalue_steps(names, visitor, more.as_slice());
        }
    }
}

/// Further targets of a concatenation.
#[cycle(lvalue)]
fn visit_lvalue_steps<V: Visit>(names: &Names, visitor: &mut V, more: &[LvalueStep])
    ensures { Tells V.told (flat_map (λ part. part) (map (lvalue_step_events names.now) more.now)) visitor.old visitor.new }
{
    for step in more {
        visit_lvalue(names, visitor, &step.target);
    }
}

/// Whether an expression may be written: a name with selects, or a brace of such. A parenthesis may not.
#[cycle(target)]
pub fn is_target(expr: &Expr) -> bool
    ensures { result ≡ may_be_written expr.now }
{
    match expr {
        Expr::Name { .. } => true,
        Expr::Concat { first, more, .. } => is_target(first.get()) && are_targets(more.as_slice()),
        Expr::Decimal(_) => false,
        Expr::Based(_) => false,
        Expr::Sized { .. } => false,
        Expr::Fill(_) => false,
        Expr::Paren { .. } => false,
        Expr::Repeat { .. } => false,
        Expr::Call { .. } => false,
        Expr::System { .. } => false,
        Expr::Prefix { .. } => false,
        Expr::Level { .. } => false,
        Expr::Choose { .. } => false,
    }
}

/// Whether all further parts of a brace may be written.
#[cycle(target)]
fn are_targets(more: &[Step]) -> bool
    ensures { result ≡ step_targets more.now }
{
    for step in more {
        if !is_target(&step.operand) {
            return false;
        }
    }
    true
}

/// An expression that is written. What may not be written in it is passed over.
#[cycle(written)]
pub fn visit_target<V: Visit>(names: &Names, visitor: &mut V, expr: &Expr)
    ensures { Tells V.told (written_events names.now expr.now) visitor.old visitor.new }
{
    match expr {
        Expr::Name { name, selects } => {
            visitor.target(*name, selects.as_slice());
            visit_selects(names, visitor, selects.as_slice(), false);
        }
        Expr::Concat { first, more, .. } => {
            visit_target(names, visitor, first.get());
            visit_targets(names, visitor, more.as_slice());
        }
        Expr::Decimal(_) => {}
        Expr::Based(_) => {}
        Expr::Sized { .. } => {}
        Expr::Fill(_) => {}
        Expr::Paren { .. } => {}
        Expr::Repeat { .. } => {}
        Expr::Call { .. } => {}
        Expr::System { .. } => {}
        Expr::Prefix { .. } => {}
        Expr::Level { .. } => {}
        Expr::Choose { .. } => {}
    }
}

/// Further parts of a brace that is written.
#[cycle(written)]
fn visit_targets<V: Visit>(names: &Names, visitor: &mut V, more: &[Step])
    ensures { Tells V.told (each_written (map (step_part names.now) more.now)) visitor.old visitor.new }
{
    for step in more {
        visit_target(names, visitor, &step.operand);
    }
}
