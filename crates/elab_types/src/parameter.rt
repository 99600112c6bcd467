//! The types and the values of parameters.

ghost use Rattle.std.specs.Prelude.{◌≡◌, IfOk};
ghost use Rattle.sv_expr.specs.Bound.{IsWidth, fault_in};
ghost use Rattle.sv_expr.specs.Environment.{environment};
ghost use Rattle.sv_expr.specs.Meaning.{FirstFault};
ghost use Rattle.elab_types.specs.Parameter as parameters;
ghost use Rattle.elab_types.specs.Value.{valued};

use crate::kinds::ParameterType;
use crate::packed::packed_type;
use crate::value::{assigned_value, cut};
use crate::word::is_signed;
use sv_expr::{Fixed, ScopeView, WalkFault, const_value, expr_type};
use sv_tree::{DataType, Expr, Parameter};
use vs_base::{ValueType, assignment_context, in_context};

/// The type of a parameter that is declared with one (IEEE 1800-2017 6.20.2). The fault is that of the type.
pub fn parameter_type(scope: &ScopeView<'_>, kind: &DataType) -> Result<ParameterType, WalkFault>
    ensures kind { IfOk result (λ found. parameters.sort found ≡ parameters.type_of (environment scope.now) kind.now) }
    ensures fault { fault_in result ≡ parameters.fault_of (environment scope.now) kind.now }
{
    if let DataType::Signed { sign, range: None } = kind {
        return Ok(ParameterType::Sign(is_signed(scope.names, *sign)));
    }
    match packed_type(scope, kind) {
        Ok(packed) => Ok(ParameterType::Full(packed)),
        Err(fault) => Err(fault),
    }
}

/// The type of the parameters of an item, which all have the type that it has or none.
pub fn item_type(scope: &ScopeView<'_>, kind: &Option<DataType>) -> Result<ParameterType, WalkFault>
    ensures kind { IfOk result (λ found. parameters.sort found ≡ parameters.item_type (environment scope.now) kind.now) }
    ensures fault { fault_in result ≡ parameters.fault_if (environment scope.now) kind.now }
{
    match kind {
        None => Ok(ParameterType::OfValue),
        Some(kind) => parameter_type(scope, kind),
    }
}

/// The type of an entry of a parameter list (IEEE 1800-2017 6.20.1 and 23.2.3), from that of the entry before it: with neither
/// the word `parameter` nor a type it has the type of that one. Before the first entry there is none.
pub fn entry_type(
    scope: &ScopeView<'_>,
    entry: &Parameter,
    before: ParameterType,
) -> Result<ParameterType, WalkFault>
    ensures kind { IfOk result (λ found. parameters.sort found ≡ parameters.entry_type (environment scope.now) entry.now (parameters.sort before)) }
    ensures fault { fault_in result ≡ parameters.fault_if (environment scope.now) entry.now.kind }
{
    match &entry.kind {
        Some(kind) => parameter_type(scope, kind),
        None => match entry.word {
            Some(_) => Ok(ParameterType::OfValue),
            None => Ok(before),
        },
    }
}

/// The value of a parameter from its expression, which for an override stands in the scope that holds the instance
/// (IEEE 1800-2017 6.20.2 and 10.7). The fault is the first one in the expression.
pub fn parameter_value(
    scope: &ScopeView<'_>,
    kind: ParameterType,
    expr: &Expr,
) -> Result<Fixed, WalkFault>
    ensures value { IfOk result (λ fixed. valued fixed ≡ parameters.value_of (environment scope.now) (parameters.sort kind) expr.now) }
    ensures fault { fault_in result ≡ FirstFault (environment scope.now) expr.now }
{
    match kind {
        ParameterType::OfValue => own_fixed(scope, expr),
        ParameterType::Sign(signed) => match own_fixed(scope, expr) {
            Ok(own) => Ok(with_sign(own, signed)),
            Err(fault) => Err(fault),
        },
        ParameterType::Full(packed) => match assigned_value(scope, expr, packed.kind.width) {
            Ok(value) => Ok(Fixed {
                kind: packed.kind,
                value,
            }),
            Err(fault) => Err(fault),
        },
    }
}

/// The value of a parameter that is given a constant by its name alone. It is that of [`parameter_value`] for an
/// expression of that name.
pub fn converted(kind: ParameterType, given: Fixed) -> Fixed
    ensures { valued result ≡ parameters.converted (parameters.sort kind) (valued given) }
{
    match kind {
        ParameterType::OfValue => given,
        ParameterType::Sign(signed) => with_sign(given, signed),
        ParameterType::Full(packed) => {
            let width = packed.kind.width;
            let context = assignment_context(given.kind, width);
            Fixed {
                kind: packed.kind,
                value: cut(in_context(given.value, context), width),
            }
        }
    }
}

/// The value of an expression in its own type.
fn own_fixed(scope: &ScopeView<'_>, expr: &Expr) -> Result<Fixed, WalkFault>
    ensures value { IfOk result (λ fixed. valued fixed ≡ parameters.own (environment scope.now) expr.now) }
    ensures fault { fault_in result ≡ FirstFault (environment scope.now) expr.now }
{
    let kind = match expr_type(scope, expr) {
        Ok(kind) => kind,
        Err(fault) => return Err(fault),
    };
    match const_value(scope, expr, kind) {
        Ok(value) => Ok(Fixed { kind, value }),
        Err(fault) => Err(fault),
    }
}

/// The same bits, read with another sign.
fn with_sign(fixed: Fixed, signed: bool) -> Fixed
    ensures { valued result ≡ parameters.with_sign (valued fixed) signed }
{
    Fixed {
        kind: ValueType {
            width: fixed.kind.width,
            signed,
        },
        value: fixed.value,
    }
}
