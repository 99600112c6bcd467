//! The type and the value of an expression, or its first fault.

ghost use Rattle.std.specs.Prelude.{◌≡◌, IfOk};
ghost use Rattle.sv_expr.specs.Bound.{IsWidth, fault_in};
ghost use Rattle.sv_expr.specs.Environment.{environment};
ghost use Rattle.sv_expr.specs.Meaning.{TypeOf, FirstFault, ValueOf, OwnReadingOf};
ghost use Rattle.sv_expr.specs.Target.{TypeOfTarget, FirstFaultOfTarget};

use crate::fault::WalkFault;
use crate::scope::ScopeView;
use crate::target::target_typed;
use crate::walk::{own, typed, valued};
use sv_tree::{Expr, Lvalue};
use vs_base::{Bits, ValueType, Whole};

/// The width and sign of an expression, taken alone (IEEE 1800-2017 11.6.1 and 11.8.1).
///
/// The fault is the first one in the expression, in order of evaluation: operands from left to right, each whole,
/// then the thing that holds them, and a bad range before a width. No memory is taken.
pub fn expr_type(scope: &ScopeView<'_>, expr: &Expr) -> Result<ValueType, WalkFault>
    ensures kind { IfOk result (λ kind. kind ≡ TypeOf (environment scope.now) expr.now) }
    ensures width { IfOk result (λ kind. IsWidth kind.width) }
    ensures fault { fault_in result ≡ FirstFault (environment scope.now) expr.now }
{
    let found = typed(scope, expr);
    if let Some(fault) = found.fault {
        return Err(fault);
    }
    Ok(found.kind)
}

/// The value of a constant expression in a context whose width is within the limit (IEEE 1800-2017 11.6.2 and 11.8.2). A name
/// that is no constant of the scope counts as 0, and so does a call.
///
/// The fault is that of [`expr_type`]: every part is looked at, also one that is not evaluated. No memory is taken.
pub fn const_value(
    scope: &ScopeView<'_>,
    expr: &Expr,
    context: ValueType,
) -> Result<Bits, WalkFault>
    requires { IsWidth context.width }
    ensures value { IfOk result (λ value. value ≡ ValueOf (environment scope.now) expr.now context) }
    ensures width { IfOk result (λ value. value.width ≡ context.width) }
    ensures fault { fault_in result ≡ FirstFault (environment scope.now) expr.now }
{
    if let Some(fault) = typed(scope, expr).fault {
        return Err(fault);
    }
    Ok(valued(scope, expr, context))
}

/// The value of a constant expression alone, read with its own sign: an end of a range, a count, an address
/// (IEEE 1800-2017 11.6.1 and 11.8.1).
///
/// The fault is that of [`expr_type`]. No memory is taken.
pub fn own_value(scope: &ScopeView<'_>, expr: &Expr) -> Result<Whole, WalkFault>
    ensures value { IfOk result (λ value. value ≡ OwnReadingOf (environment scope.now) expr.now) }
    ensures fault { fault_in result ≡ FirstFault (environment scope.now) expr.now }
{
    let found = own(scope, expr);
    if let Some(fault) = found.fault {
        return Err(fault);
    }
    Ok(Whole::of(found.value, found.signed))
}

/// The width and sign of the target of an assignment (IEEE 1800-2017 10.3 and 11.4.12): of a name with its selects as
/// in an expression, and of a concatenation the sum of its parts, without a sign.
///
/// The fault is the first one: those of the parts from left to right, then `TooWide` at the brace of a
/// concatenation whose parts are too wide together. No memory is taken.
pub fn lvalue_type(scope: &ScopeView<'_>, target: &Lvalue) -> Result<ValueType, WalkFault>
    ensures kind { IfOk result (λ kind. kind ≡ TypeOfTarget (environment scope.now) target.now) }
    ensures width { IfOk result (λ kind. IsWidth kind.width) }
    ensures fault { fault_in result ≡ FirstFaultOfTarget (environment scope.now) target.now }
{
    let found = target_typed(scope, target);
    if let Some(fault) = found.fault {
        return Err(fault);
    }
    Ok(found.kind)
}
