//! The bits that a name with its selects stands for.

ghost use Rattle.std.specs.Prelude.{◌≡◌, ◌≤◌, ◌^◌, ◌*◌, ◌+◌, ◌+ℤ◌, ◌-ℤ◌, ◌≤ℤ◌, ℤ, pos, negsuc, IfSome};
ghost use Rattle.rtl_pieces.specs.Named as spec;

use crate::item::{Item, Part};
use crate::line::product;
use crate::range::BitRange;

/// No bit.
const NOTHING: BitRange = BitRange { from: 0, to: 0 };

/// All bits of a variable or a memory.
pub fn whole_item(item: Item) -> BitRange
    requires near { item.first ≤ 2 ^ 124 }
    ensures { result ≡ spec.whole_item item }
{
    BitRange {
        from: item.first,
        to: item.first + product(item.elements, item.width),
    }
}

/// So many bits from a bit number on, those of them that an element of a width has, whose first bit stands at a place.
fn clipped(first: u128, width: u32, lowest: i128, count: u32) -> BitRange
    requires near { first ≤ 2 ^ 125 }
    requires below { lowest ≤ℤ pos (2 ^ 70) }
    ensures { result ≡ spec.clipped first width lowest count }
{
    let distance = lowest.unsigned_abs();
    let width = u128::from(width);
    let count = u128::from(count);
    if lowest < 0 {
        return BitRange {
            from: first,
            to: first + count.saturating_sub(distance).min(width),
        };
    }
    BitRange {
        from: first + distance.min(width),
        to: first + (distance + count).min(width),
    }
}

/// The number of the lowest bit of a select whose bits run down from an index.
fn lowest_down(at: i128, width: u32, lsb: u32) -> i128
    requires most { at ≤ℤ pos (2 ^ 64) }
    requires least { negsuc (2 ^ 64) ≤ℤ at }
    ensures value { result ≡ (at +ℤ pos 1) -ℤ pos width -ℤ pos lsb }
    ensures below { result ≤ℤ pos (2 ^ 70) }
{
    at + 1 - i128::from(width) - i128::from(lsb)
}

/// The number of the lowest bit of a select.
fn lowest_bit(item: Item, part: Part) -> i128
    requires most { part.at ≤ℤ pos (2 ^ 64) }
    requires least { negsuc (2 ^ 64) ≤ℤ part.at }
    ensures value { result ≡ spec.lowest_bit item part }
    ensures below { result ≤ℤ pos (2 ^ 70) }
{
    if part.down {
        return lowest_down(part.at, part.width, item.lsb);
    }
    part.at - i128::from(item.lsb)
}

/// A part of an element, or all of it.
fn part_of(item: Item, element: u32, part: Option<Part>) -> BitRange
    requires near { item.first ≤ 2 ^ 124 }
    requires most { IfSome part (λ p. p.at ≤ℤ pos (2 ^ 64)) }
    requires least { IfSome part (λ p. negsuc (2 ^ 64) ≤ℤ p.at) }
    ensures { result ≡ spec.part_of item element part }
{
    let first = item.first + product(element, item.width);
    match part {
        Some(part) => clipped(first, item.width, lowest_bit(item, part), part.width),
        None => BitRange {
            from: first,
            to: first + u128::from(item.width),
        },
    }
}

/// A part of the element at an address, or all of it.
pub fn named_bits(item: Item, address: i128, part: Option<Part>) -> BitRange
    requires near { item.first ≤ 2 ^ 124 }
    requires high { address ≤ℤ pos (2 ^ 64) }
    requires low { negsuc (2 ^ 64) ≤ℤ address }
    requires most { IfSome part (λ p. p.at ≤ℤ pos (2 ^ 64)) }
    requires least { IfSome part (λ p. negsuc (2 ^ 64) ≤ℤ p.at) }
    ensures { result ≡ spec.named_bits item address part }
{
    let above = address - i128::from(item.low);
    if above < 0 || above >= i128::from(item.elements) {
        return NOTHING;
    }
    part_of(item, above as u32, part)
}
