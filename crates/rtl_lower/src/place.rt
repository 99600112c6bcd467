//! What assignments write (IEEE 1800-2017 10.3 and 11.4.12).

ghost use Rattle.std.specs.Prelude.{◌≡◌, ◌∷◌, [], IfOk};
ghost use Rattle.rtl_lower.specs.Kinds.{type_of, type_in, variable_of};
ghost use Rattle.sv_expr.specs.Environment.{environment};
ghost use Rattle.sv_expr.specs.Meaning.{TypeOf};
ghost use Rattle.sv_expr.specs.Target.{TypeOfTarget};
ghost use Rattle.vs_base.specs.Types.{assigned_in};

use crate::expression::{lower, target};
use crate::fault::FlatFault;
use crate::here::Here;
use crate::kind::{Kind, assigned, kind_of, of_type};
use rtl_ir::{Expr, Place, Target, Width};
use sqlite_items::Items;
use sv_expr::lvalue_type;
use sv_tree::{Expr as Tree, Lvalue, LvalueStep, Step};

/// The value of an expression that is assigned to so many bits.
pub fn assigned_value(value: &Tree, here: &Here<'_>, width: Width) -> Result<Expr, FlatFault>
    ensures { IfOk result (λ e. type_in e ≡ assigned_in (TypeOf (environment here.now.view) value.now) width) }
{
    let own = kind_of(value, here)?;
    lower(value, here, assigned(own, width))
}

/// How many bits the left side of an assignment has.
pub fn target_kind(target: &Lvalue, here: &Here<'_>) -> Result<Kind, FlatFault>
    ensures { IfOk result (λ kind. type_of kind ≡ TypeOfTarget (environment here.now.view) target.now) }
{
    match lvalue_type(&here.view, target) {
        Ok(kind) => Ok(of_type(kind)),
        Err(fault) => Err(FlatFault::from(fault)),
    }
}

/// The left side of an assignment.
pub fn place_of(target: &Lvalue, here: &Here<'_>) -> Result<Place, FlatFault> {
    let mut parts = Items::new(here.alloc);
    add_parts(target, here, &mut parts)?;
    Ok(Place { parts })
}

/// Adds the parts of a left side, the one with the highest bits first.
#[cycle(parts)]
fn add_parts(lvalue: &Lvalue, here: &Here<'_>, parts: &mut Items<Target>) -> Result<(), FlatFault> {
    match lvalue {
        Lvalue::Name { name, selects } => {
            parts.push(target(selects.as_slice(), *name, here)?)?;
            Ok(())
        }
        Lvalue::Concat { first, more, .. } => {
            add_parts(first.get(), here, parts)?;
            add_steps(more.as_slice(), here, parts)
        }
    }
}

/// Adds the parts of further left sides of a concatenation.
#[cycle(parts)]
fn add_steps(
    more: &[LvalueStep],
    here: &Here<'_>,
    parts: &mut Items<Target>,
) -> Result<(), FlatFault> {
    for step in more {
        add_parts(&step.target, here, parts)?;
    }
    Ok(())
}

/// What is written where an expression is connected to an output.
pub fn connected_place(expr: &Tree, here: &Here<'_>) -> Result<Place, FlatFault> {
    let mut parts = Items::new(here.alloc);
    add_connected(expr, here, &mut parts)?;
    Ok(Place { parts })
}

/// Adds the parts of an expression that is written.
#[cycle(connected)]
fn add_connected(expr: &Tree, here: &Here<'_>, parts: &mut Items<Target>) -> Result<(), FlatFault> {
    match expr {
        Tree::Name { name, selects } => {
            parts.push(target(selects.as_slice(), *name, here)?)?;
            Ok(())
        }
        Tree::Concat { first, more, .. } => {
            add_connected(first.get(), here, parts)?;
            add_connected_steps(more.as_slice(), here, parts)
        }
        _ => Err(FlatFault::NotElaborated),
    }
}

/// Adds the parts of further expressions that are written.
#[cycle(connected)]
fn add_connected_steps(
    more: &[Step],
    here: &Here<'_>,
    parts: &mut Items<Target>,
) -> Result<(), FlatFault> {
    for step in more {
        add_connected(&step.operand, here, parts)?;
    }
    Ok(())
}

/// The place that is one whole variable.
pub fn whole_variable(var: u32, here: &Here<'_>) -> Result<Place, FlatFault>
    ensures { IfOk result (λ place. place.parts ≡ variable_of var ∷ []) }
{
    let mut parts = Items::new(here.alloc);
    parts.push(variable(var))?;
    Ok(Place { parts })
}

/// A whole variable.
pub fn variable(var: u32) -> Target
    ensures { result ≡ variable_of var }
{
    Target {
        mem: false,
        item: var,
        element: None,
        select: None,
        whole: true,
    }
}
