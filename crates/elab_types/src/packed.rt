//! The types of declarations.

ghost use Rattle.std.specs.Prelude.{◌≡◌, ◌≤ℤ◌, ◌<ℤ◌, ◌⊎◌, ◌^◌, pos, IfOk, MatchOption};
ghost use Rattle.sv_expr.specs.Bound.{IsWidth, fault_in};
ghost use Rattle.sv_expr.specs.Environment.{environment};
ghost use Rattle.elab_types.specs.Packed as packed;

use crate::kinds::Packed;
use crate::word::{has_sign, is_signed, word_kind};
use sv_expr::{ScopeView, WalkFault, own_value};
use sv_tree::{DataType, Range};
use vs_base::{Origin, ValueType, Whole, limits};

/// One bit.
pub fn one_bit(signed: bool) -> Packed
    ensures { packed.shape result ≡ packed.one_bit signed }
{
    Packed {
        kind: ValueType { width: 1, signed },
        lsb: 0,
    }
}

/// The type of a declaration (IEEE 1800-2017 6.8, 6.9 and 7.4.1): that of its word with its sign, or so many bits as
/// its range has, or one bit; without a sign it has none, but for a word of more than one bit.
///
/// The fault is the first one of the left end of its range, of the right end, and of the range, at its `[`:
/// `BadRange` where the left end is below the right one, or the right one is below 0 or over 2^32 - 1, then
/// `TooWide`. The ends are read with their own signs.
pub fn packed_type(scope: &ScopeView<'_>, kind: &DataType) -> Result<Packed, WalkFault>
    ensures kind { IfOk result (λ found. packed.shape found ≡ packed.packed_of (environment scope.now) kind.now) }
    ensures fault { fault_in result ≡ packed.fault_of (environment scope.now) kind.now }
{
    match kind {
        DataType::Vector { sign, range, .. } => {
            ranged_if(scope, range, has_sign(scope.names, *sign))
        }
        DataType::Fixed(word) => Ok(Packed {
            kind: word_kind(scope.names, *word),
            lsb: 0,
        }),
        DataType::Signed { sign, range } => ranged_if(scope, range, is_signed(scope.names, *sign)),
        DataType::Ranged(range) => ranged(scope, range, false),
    }
}

/// One bit, or so many as a range has.
fn ranged_if(
    scope: &ScopeView<'_>,
    range: &Option<Range>,
    signed: bool,
) -> Result<Packed, WalkFault>
    ensures kind { IfOk result (λ found. packed.shape found ≡ packed.ranged_if (environment scope.now) range.now signed) }
    ensures fault { fault_in result ≡ packed.fault_if (environment scope.now) range.now }
{
    match range {
        None => Ok(one_bit(signed)),
        Some(range) => ranged(scope, range, signed),
    }
}

/// So many bits as a range has.
fn ranged(scope: &ScopeView<'_>, range: &Range, signed: bool) -> Result<Packed, WalkFault>
    ensures kind { IfOk result (λ found. packed.shape found ≡ packed.ranged (environment scope.now) range.now signed) }
    ensures fault { fault_in result ≡ packed.range_fault (environment scope.now) range.now }
{
    let left = match own_value(scope, &range.left) {
        Ok(left) => left,
        Err(fault) => return Err(fault),
    };
    let right = match own_value(scope, &range.right) {
        Ok(right) => right,
        Err(fault) => return Err(fault),
    };
    of_ends(range.open.at, left, right, signed)
}

/// The bits from the right end to the left end of a range.
fn of_ends(at: Origin, left: Whole, right: Whole, signed: bool) -> Result<Packed, WalkFault>
    ensures kind { IfOk result (λ found. packed.shape found ≡ packed.of_ends left right signed) }
    ensures fault { fault_in result ≡ packed.ends_fault at left right }
{
    if left.less(right) {
        return Err(WalkFault::BadRange(at));
    }
    let Some(lsb) = index_of(right) else {
        return Err(WalkFault::BadRange(at));
    };
    let above = left.minus(right);
    if above >= i64::from(limits::WIDTH) {
        return Err(WalkFault::TooWide(at));
    }
    Ok(Packed {
        kind: ValueType {
            width: above as u32 + 1,
            signed,
        },
        lsb,
    })
}

/// The number, where it is an index that a declaration may have: from 0 to 2^32 - 1.
fn index_of(number: Whole) -> Option<u32>
    ensures { MatchOption result ((number <ℤ pos 0) ⊎ (pos (2 ^ 32) ≤ℤ number)) (λ index. number ≡ pos index) }
{
    let Some(word) = number.in_word() else {
        return None;
    };
    match u32::try_from(word) {
        Ok(index) => Some(index),
        Err(_) => None,
    }
}
