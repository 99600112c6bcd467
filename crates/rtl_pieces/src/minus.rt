//! The bits of some ranges that others do not have.

ghost use Rattle.std.specs.Prelude.{◌≡◌, ◌++◌, IfOk, OnOk};
ghost use Rattle.rtl_pieces.specs.Ranges as spec;

use crate::normal::add_some;
use crate::range::BitRange;
use std::alloc::{AllocError, Global};

/// The ranges after those that end before a place.
fn after<'a>(place: u128, ranges: &'a [BitRange]) -> &'a [BitRange]
    ensures { result.now ≡ spec.after place ranges.now }
{
    let mut rest = ranges;
    while let [range, more @ ..] = rest {
        if place < range.to {
            return rest;
        }
        rest = more;
    }
    rest
}

/// Adds what is left of a range without others.
fn add_left(range: BitRange, others: &[BitRange], out: &mut Vec<BitRange>) -> Result<(), AllocError>
    ensures { OnOk result (out.new.items ≡ out.old.items ++ spec.left range.from range.to others.now) }
{
    let to = range.to;
    let mut from = range.from;
    let mut rest = others;
    while let [other, more @ ..] = rest {
        if other.from >= to {
            return add_some(BitRange { from, to }, out);
        }
        add_some(
            BitRange {
                from,
                to: other.from,
            },
            out,
        )?;
        from = from.max(other.to);
        rest = more;
    }
    add_some(BitRange { from, to }, out)
}

/// The bits of ascending ranges that others do not have.
pub fn minus(
    alloc: Global,
    ranges: &[BitRange],
    others: &[BitRange],
) -> Result<Vec<BitRange>, AllocError>
    ensures { IfOk result (λ out. out.items ≡ spec.minus ranges.now others.now) }
{
    let mut out = Vec::new(alloc);
    let mut rest = ranges;
    let mut left = others;
    while let [range, more @ ..] = rest {
        left = after(range.from, left);
        add_left(*range, left, &mut out)?;
        rest = more;
    }
    Ok(out)
}
