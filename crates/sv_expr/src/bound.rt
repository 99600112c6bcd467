//! Types within the limit, and the order of faults.

ghost use Rattle.std.specs.Prelude.{◌≡◌, ◌≤◌, ◌≤ℤ◌, pos, neg_ℤ, ◌^◌, None};
ghost use Rattle.sv_expr.specs.Bound.{IsWidth, ◌before◌, fine as fine_type, refused as refused_type, is_width as is_type_width, bounded as bounded_type, ranged as ranged_type};
ghost use Rattle.sv_expr.specs.Literal.{nothing as nothing_in};

use crate::fault::WalkFault;
use crate::typed::Typed;
use vs_base::{Bits, Origin, ValueType, limits};

/// One bit without a sign.
pub const BIT: ValueType = ValueType {
    width: 1,
    signed: false,
};

/// A type without a fault.
pub fn fine(kind: ValueType) -> Typed
    ensures { result ≡ fine_type kind }
{
    Typed { kind, fault: None }
}

/// The first of two faults.
pub fn first(a: Option<WalkFault>, b: Option<WalkFault>) -> Option<WalkFault>
    ensures { result ≡ a before b }
{
    if a.is_some() { a } else { b }
}

/// What is at fault itself, after the faults of its parts, counts as one bit.
pub fn refused(earlier: Option<WalkFault>, fault: WalkFault) -> Typed
    ensures { result ≡ refused_type earlier fault }
{
    Typed {
        kind: BIT,
        fault: first(earlier, Some(fault)),
    }
}

/// Whether a type may have the width.
pub fn is_width(width: u32) -> bool
    ensures { result ≡ is_type_width width }
{
    1 <= width && width <= limits::WIDTH
}

/// A type of so many bits.
pub fn bounded(at: Origin, earlier: Option<WalkFault>, kind: ValueType) -> Typed
    ensures typed { result ≡ bounded_type at earlier kind }
    ensures width { IsWidth result.kind.width }
{
    if is_width(kind.width) {
        return Typed {
            kind,
            fault: earlier,
        };
    }
    refused(earlier, WalkFault::TooWide(at))
}

/// An unsigned type of so many bits, which are a range or a count.
pub fn ranged(at: Origin, earlier: Option<WalkFault>, width: i128) -> Typed
    ensures typed { result ≡ ranged_type at earlier width }
    ensures width { IsWidth result.kind.width }
{
    if width < 1 {
        return refused(earlier, WalkFault::BadRange(at));
    }
    let Ok(width) = u32::try_from(width) else {
        return refused(earlier, WalkFault::TooWide(at));
    };
    bounded(
        at,
        earlier,
        ValueType {
            width,
            signed: false,
        },
    )
}

/// 0 in a context.
pub fn nothing(context: ValueType) -> Bits
    requires { IsWidth context.width }
    ensures { result ≡ nothing_in context }
{
    Bits::new(context.width, 0)
}
