//! The addresses of memories.

ghost use Rattle.std.specs.Prelude.{◌≡◌, ◌≤◌, ◌≤ℤ◌, ◌<ℤ◌, ◌^◌, pos, neg_ℤ, ◌-ℤ◌, IfOk};
ghost use Rattle.sv_expr.specs.Bound.{fault_in, whole_part};
ghost use Rattle.sv_expr.specs.Environment.{environment};
ghost use Rattle.elab_types.specs.Memory as memory;

use crate::kinds::Bounds;
use sv_expr::{ScopeView, WalkFault, own_value};
use sv_tree::{Dimension, Range};
use vs_base::{Origin, Whole};

/// The greatest number of elements that a memory may have.
const ELEMENTS: i128 = 65_536;

/// The addresses of a memory (IEEE 1800-2017 7.4.2): `[a:b]` has those from the lesser end to the greater, `[n]` those
/// from 0 to n - 1.
///
/// The fault is the first one of the expressions in the bracket, then `BadRange` at its `[`: an address below -2^63 or over
/// 2^63 - 1, no element, or more than 65,536. Ends and counts are read with their own signs.
pub fn bounds(scope: &ScopeView<'_>, dimension: &Dimension) -> Result<Bounds, WalkFault>
    ensures bounds { IfOk result (λ found. memory.addresses found ≡ memory.bounds_of (environment scope.now) dimension.now) }
    ensures fault { fault_in result ≡ memory.fault_of (environment scope.now) dimension.now }
{
    match dimension {
        Dimension::Count { open, count, .. } => match own_value(scope, count) {
            Ok(count) => counted(open.at, count),
            Err(fault) => Err(fault),
        },
        Dimension::Bounds(range) => between(scope, range),
    }
}

/// The addresses from 0, so many.
fn counted(at: Origin, count: Whole) -> Result<Bounds, WalkFault>
    ensures bounds { IfOk result (λ found. memory.addresses found ≡ memory.ascending (pos 0) (count -ℤ pos 1)) }
    ensures fault { fault_in result ≡ memory.ends_fault at (pos 0) (count -ℤ pos 1) }
{
    let Some(count) = count.in_word() else {
        return Err(WalkFault::BadRange(at));
    };
    ascending(at, 0, i128::from(count) - 1)
}

/// The addresses from the lesser end of a range to the greater.
fn between(scope: &ScopeView<'_>, range: &Range) -> Result<Bounds, WalkFault>
    ensures bounds { IfOk result (λ found. memory.addresses found ≡ memory.ranged (environment scope.now) range.now) }
    ensures fault { fault_in result ≡ memory.range_fault (environment scope.now) range.now }
{
    let left = match own_value(scope, &range.left) {
        Ok(left) => left,
        Err(fault) => return Err(fault),
    };
    let right = match own_value(scope, &range.right) {
        Ok(right) => right,
        Err(fault) => return Err(fault),
    };
    of_ends(range.open.at, left, right)
}

/// The addresses from the lesser of two to the greater.
fn of_ends(at: Origin, left: Whole, right: Whole) -> Result<Bounds, WalkFault>
    ensures bounds { IfOk result (λ found. memory.addresses found ≡ memory.ascending (memory.lesser left right) (memory.greater left right)) }
    ensures fault { fault_in result ≡ memory.ends_fault at (memory.lesser left right) (memory.greater left right) }
{
    if left.less(right) {
        return upwards(at, left, right);
    }
    upwards(at, right, left)
}

/// The addresses from one to another.
fn upwards(at: Origin, low: Whole, high: Whole) -> Result<Bounds, WalkFault>
    ensures bounds { IfOk result (λ found. memory.addresses found ≡ memory.ascending low high) }
    ensures fault { fault_in result ≡ memory.ends_fault at low high }
{
    let Some(low) = low.in_word() else {
        return Err(WalkFault::BadRange(at));
    };
    let Some(high) = high.in_word() else {
        return Err(WalkFault::BadRange(at));
    };
    words_upwards(at, low, high)
}

/// The addresses from one of 64 bits with a sign to another.
fn words_upwards(at: Origin, low: i64, high: i64) -> Result<Bounds, WalkFault>
    ensures bounds { IfOk result (λ found. memory.addresses found ≡ memory.ascending low high) }
    ensures fault { fault_in result ≡ memory.ends_fault at low high }
{
    let low = i128::from(low);
    let high = i128::from(high);
    ascending(at, low, high)
}

/// The addresses from one to another that is none below it but for no element at all.
fn ascending(at: Origin, low: i128, high: i128) -> Result<Bounds, WalkFault>
    requires low_low { neg_ℤ (pos (2 ^ 65)) ≤ℤ low }
    requires low_high { low <ℤ pos (2 ^ 65) }
    requires high_low { neg_ℤ (pos (2 ^ 65)) ≤ℤ high }
    requires high_high { high <ℤ pos (2 ^ 65) }
    ensures bounds { IfOk result (λ found. memory.addresses found ≡ memory.ascending low high) }
    ensures fault { fault_in result ≡ memory.ends_fault at low high }
{
    if low < -(1 << 63) {
        return Err(WalkFault::BadRange(at));
    }
    if high > (1 << 63) - 1 {
        return Err(WalkFault::BadRange(at));
    }
    let count = high - low + 1;
    if count < 1 {
        return Err(WalkFault::BadRange(at));
    }
    if count > ELEMENTS {
        return Err(WalkFault::BadRange(at));
    }
    let low = address(low);
    let count = elements(count);
    Ok(Bounds { low, count })
}

/// An address of 64 bits with a sign.
fn address(address: i128) -> i64
    requires low { neg_ℤ (pos (2 ^ 63)) ≤ℤ address }
    requires high { address <ℤ pos (2 ^ 63) }
    ensures { result ≡ address }
{
    address as i64
}

/// How many elements there are.
fn elements(count: i128) -> u32
    requires some { pos 1 ≤ℤ count }
    requires most { count ≤ℤ pos 65536 }
    ensures value { result ≡ whole_part count }
    ensures some { 1 ≤ result }
    ensures most { result ≤ 65536 }
{
    count as u32
}
