//! A set of bits as ascending ranges with gaps between them.

ghost use Rattle.std.specs.Prelude.{◌≡◌, ◌++◌, IfOk, OnOk, ℕ};
ghost use Rattle.std.specs.List.Sorted.{IsPermutation, IsNonDecreasingBy};
ghost use Rattle.rtl_pieces.specs.Line.{has};
ghost use Rattle.rtl_pieces.specs.Ranges as spec;
ghost use Rattle.rtl_pieces.specs.Ranges.{Ascending};

use crate::range::BitRange;
use std::alloc::{AllocError, Global};

/// Puts ranges into the order of their first places.
fn sort(ranges: &mut Vec<BitRange>)
    ensures permutation { IsPermutation ranges.old.items ranges.new.items }
    ensures sorted { IsNonDecreasingBy spec.first_place ranges.new.items }
{
    ranges.sort_unstable_by_key(|range| range.from);
}

/// Adds a range that has a bit.
pub fn add_some(range: BitRange, out: &mut Vec<BitRange>) -> Result<(), AllocError>
    ensures { OnOk result (out.new.items ≡ out.old.items ++ spec.settled range) }
{
    if range.from < range.to {
        out.push(range)?;
    }
    Ok(())
}

/// Two ranges of which the second begins no later than the first ends.
fn joined(last: BitRange, next: BitRange) -> BitRange
    ensures { result ≡ spec.joined last next }
{
    BitRange {
        from: last.from,
        to: last.to.max(next.to),
    }
}

/// The bits of sorted ranges, as ranges with gaps between them.
fn merged(alloc: Global, sorted: &[BitRange]) -> Result<Vec<BitRange>, AllocError>
    ensures { IfOk result (λ out. out.items ≡ spec.merged spec.empty sorted.now) }
{
    let mut out = Vec::new(alloc);
    let mut last = BitRange { from: 0, to: 0 };
    let mut rest = sorted;
    while let [range, more @ ..] = rest {
        if range.from <= last.to {
            last = joined(last, *range);
        } else {
            add_some(last, &mut out)?;
            last = *range;
        }
        rest = more;
    }
    add_some(last, &mut out)?;
    Ok(out)
}

/// The bits of ranges, as ascending ranges with gaps between them.
pub fn normal(alloc: Global, mut ranges: Vec<BitRange>) -> Result<Vec<BitRange>, AllocError>
    ensures same { IfOk result (λ out. (b : ℕ) → has b out.items ≡ has b ranges.items) }
    ensures ascending { IfOk result (λ out. Ascending 0 out.items) }
{
    sort(&mut ranges);
    merged(alloc, ranges.as_slice())
}

/// The bits of ranges that stand below a place.
pub fn below(alloc: Global, end: u128, ranges: &[BitRange]) -> Result<Vec<BitRange>, AllocError>
    ensures { IfOk result (λ out. out.items ≡ spec.below end ranges.now) }
{
    let mut out = Vec::new(alloc);
    let mut rest = ranges;
    while let [range, more @ ..] = rest {
        let cut = BitRange {
            from: range.from,
            to: range.to.min(end),
        };
        add_some(cut, &mut out)?;
        rest = more;
    }
    Ok(out)
}
