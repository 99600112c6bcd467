//! The values of constant expressions that are assigned.

ghost use Rattle.std.specs.Prelude.{◌≡◌, IfOk};
ghost use Rattle.sv_expr.specs.Bound.{IsWidth, fault_in};
ghost use Rattle.sv_expr.specs.Environment.{environment};
ghost use Rattle.sv_expr.specs.Meaning.{FirstFault};
ghost use Rattle.elab_types.specs.Value.{assigned, counted, cut_to, valued};

use sv_expr::{Fixed, ScopeView, WalkFault, const_value, expr_type};
use sv_tree::Expr;
use vs_base::{Bits, ValueType, assignment_context, in_context};

/// The type of genvars and of loop variables (IEEE 1800-2017 27.4).
pub const COUNTER: ValueType = ValueType {
    width: 32,
    signed: true,
};

/// The value of a constant expression that is assigned to so many bits: in a context as wide as the wider of both,
/// then cut (IEEE 1800-2017 10.7 and 11.6.1).
///
/// The fault is the first one in the expression.
pub fn assigned_value(scope: &ScopeView<'_>, expr: &Expr, width: u32) -> Result<Bits, WalkFault>
    requires { IsWidth width }
    ensures value { IfOk result (λ value. value ≡ assigned (environment scope.now) expr.now width) }
    ensures width { IfOk result (λ value. value.width ≡ width) }
    ensures fault { fault_in result ≡ FirstFault (environment scope.now) expr.now }
{
    let kind = match expr_type(scope, expr) {
        Ok(kind) => kind,
        Err(fault) => return Err(fault),
    };
    let context = assignment_context(kind, width);
    match const_value(scope, expr, context) {
        Ok(value) => Ok(cut(value, width)),
        Err(fault) => Err(fault),
    }
}

/// The low bits of a value that is at least as wide.
pub fn cut(value: Bits, width: u32) -> Bits
    requires { IsWidth width }
    ensures value { result ≡ cut_to width value }
    ensures width { result.width ≡ width }
{
    in_context(
        value,
        ValueType {
            width,
            signed: false,
        },
    )
}

/// The value of a constant expression that is assigned to a counter.
pub fn counter_value(scope: &ScopeView<'_>, expr: &Expr) -> Result<Fixed, WalkFault>
    ensures value { IfOk result (λ fixed. valued fixed ≡ counted (assigned (environment scope.now) expr.now 32)) }
    ensures fault { fault_in result ≡ FirstFault (environment scope.now) expr.now }
{
    match assigned_value(scope, expr, 32) {
        Ok(value) => Ok(Fixed {
            kind: COUNTER,
            value,
        }),
        Err(fault) => Err(fault),
    }
}
