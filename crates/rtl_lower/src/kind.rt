//! The types of expressions, with widths that are within the limit.

ghost use Rattle.std.specs.Prelude.{◌≡◌, max, Some, None, IfOk, OnOk, OnErr};
ghost use Rattle.elab_types.specs.Word as words;
ghost use Rattle.rtl_lower.specs.Kinds.{type_of, kind_denoted};
ghost use Rattle.sv_expr.specs.Bound.{IsWidth, bit as one_bit};
ghost use Rattle.sv_expr.specs.Environment.{denotes, environment};
ghost use Rattle.sv_expr.specs.Meaning.{TypeOf, FirstFault, kind_or_bit};
ghost use Rattle.vs_base.specs.Types as types;

use crate::fault::FlatFault;
use crate::here::Here;
use elab_types::result_kind;
use rtl_ir::Width;
use sv_expr::{Declared, Denoted, Fixed, expr_type};
use sv_tree::{Expr, Import, Names, Token};
use vs_base::{Bits, ValueType};

/// A width and a sign.
#[derive(Clone, Copy)]
pub struct Kind {
    pub width: Width,
    pub signed: bool,
}

/// One bit without a sign.
pub fn bit() -> Kind
    ensures { type_of result ≡ one_bit }
{
    Kind {
        width: Width::new(1),
        signed: false,
    }
}

/// A type whose width is within the limit.
pub fn of_type(kind: ValueType) -> Kind
    requires { IsWidth kind.width }
    ensures { type_of result ≡ kind }
{
    Kind {
        width: Width::new(kind.width),
        signed: kind.signed,
    }
}

impl Kind {
    /// The same as a type.
    pub fn value_type(self) -> ValueType
        ensures kind { result ≡ type_of self }
        ensures fits { IsWidth result.width }
    {
        ValueType {
            width: self.width.bits(),
            signed: self.signed,
        }
    }
}

/// The type of an expression, taken alone.
pub fn kind_of(expr: &Expr, here: &Here<'_>) -> Result<Kind, FlatFault>
    ensures kind { IfOk result (λ kind. type_of kind ≡ TypeOf (environment here.now.view) expr.now) }
    ensures fault { OnOk result (FirstFault (environment here.now.view) expr.now ≡ None) }
{
    match expr_type(&here.view, expr) {
        Ok(kind) => Ok(of_type(kind)),
        Err(fault) => Err(FlatFault::from(fault)),
    }
}

/// The type of a name without a select.
pub fn kind_of_name(name: Token, here: &Here<'_>) -> Result<Kind, FlatFault>
    ensures kind { IfOk result (λ kind. kind_denoted (denotes here.now.view name.name.0) ≡ Some (type_of kind)) }
    ensures refused { OnErr result (kind_denoted (denotes here.now.view name.name.0) ≡ None) }
{
    match here.view.table.get(name.name) {
        Denoted::Constant(fixed) | Denoted::Turn(fixed) => Ok(kind_of_fixed(fixed)),
        Denoted::Variable(declared) => Ok(of_declared(declared)),
        Denoted::Memory(_) | Denoted::Import(_) | Denoted::Nothing => {
            Err(FlatFault::NotElaborated)
        }
    }
}

/// The type of a constant.
fn kind_of_fixed(fixed: Fixed) -> Kind
    ensures { type_of result ≡ fixed.kind }
{
    let kind = fixed.kind;
    of_type(kind)
}

/// The type of a variable.
pub fn of_declared(declared: Declared) -> Kind
    ensures { type_of result ≡ declared.kind }
{
    let kind = declared.kind;
    of_type(kind)
}

/// The type of an import's result, and one bit where it gives none.
pub fn kind_of_import(names: &Names, import: &Import) -> Kind
    ensures { type_of result ≡ kind_or_bit (words.result_kind names.now import.now.result) }
{
    match result_kind(names, import) {
        Some(kind) => of_type(kind),
        None => bit(),
    }
}

/// The wider of two widths.
pub fn wider_width(a: Width, b: Width) -> Width
    ensures { result ≡ max a b }
{
    if a.bits() < b.bits() { b } else { a }
}

/// The wider of two types, signed where both are (IEEE 1800-2017 11.6.1 and 11.8.1).
pub fn wider(a: Kind, b: Kind) -> Kind
    ensures { type_of result ≡ types.wider (type_of a) (type_of b) }
{
    Kind {
        width: wider_width(a.width, b.width),
        signed: a.signed && b.signed,
    }
}

/// The context of a value of a type that is assigned to so many bits (IEEE 1800-2017 11.6.1 and 11.8.1).
pub fn assigned(value: Kind, target: Width) -> Kind
    ensures { type_of result ≡ types.assigned_in (type_of value) target }
{
    Kind {
        width: wider_width(value.width, target),
        signed: value.signed,
    }
}

/// A constant's value in a context.
pub fn in_kind(value: Bits, kind: Kind) -> Bits
    ensures { result ≡ types.in_context value (type_of kind) }
{
    value.extend(kind.width.bits(), kind.signed)
}
